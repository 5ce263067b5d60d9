//! What class files and a listing declare, found by name without a search through them.
//!
//! An [`Index`] is made once of the files and the listing; it knows their classes, finds the nearest declaration of a
//! member, and tells the place of a string constant. (The Java Virtual Machine Specification, section 5.4.3.)
#![tactic(auto)]

mod asking;
mod classes;
mod declared;
mod heads;
mod index;
mod interface_fields;
mod library;
mod memberless;
mod members;
mod nearest;
mod numbers;
mod places;
mod search;

pub use asking::is_asked;
pub use classes::Classes;
pub use heads::{all_classes, heads_of};
pub use index::Index;
pub use members::in_class;
pub use places::add_name;
pub use search::search_order;
