//! The types of the verifier, in order: which may stand in the place of which.
//! (The Java Virtual Machine Specification, section 4.10; docs/TYPING.md.)
//!
//! Whether a class is below another, and the nearest class above two, is asked at each assignment of a reference. So these
//! calls take a program as [`Indexed`]: a [`Hierarchy`] finds a class in an ordered map, and keeps for each place its height,
//! the place above it and one further up, so that a way up is gone in as many steps as its height has digits.
#![tactic(auto)]

mod assigning;
mod classes;
mod comparing;
mod hierarchy;
mod indexed;
mod laws;
mod merging;
mod skip_pointers;

pub use assigning::{assignable, borrowed_fits, fits_class};
pub use classes::classes_of;
pub use comparing::{Compared, arrays_compared, reference_of};
pub use hierarchy::Hierarchy;
pub use indexed::{Indexed, class_place, is_below, is_interface};
pub use laws::{assignable_is_an_order, merge_is_the_least};
pub use merging::merge;
