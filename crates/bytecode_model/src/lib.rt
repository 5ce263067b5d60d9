//! Linked programs: what a program is in which each operand has its target, and what is known of one.
//!
//! A program keeps the class files that it was linked of, so that [`unlink`] gives them back. That class files link to a
//! program, or why they do not, is told by class_linking, which stands on this crate.
//! (The Java Virtual Machine Specification, chapter 4; docs/LINKING.md.)
#![tactic(auto)]

mod arrays;
mod borrowing;
mod by_name;
mod copying;
mod covering;
mod exception_table;
mod files;
mod flags;
mod heads;
mod laws;
mod literals;
mod member_code;
mod members;
mod nested;
mod operand;
mod origin;
mod places;
mod program;
mod text;

pub use arrays::{is_array, push_described};
pub use borrowing::{TypeRef, borrow, own};
pub use by_name::{ByName, note, noted};
pub use copying::{copy_classes, copy_insn, copy_keys};
pub use exception_table::{Handlers, NearHandlers};
pub use files::unlink;
pub use flags::{is_abstract, is_interface, is_native, is_public, is_static, is_synchronized};
pub use heads::head_of;
pub use laws::uses_are_shaped;
pub use literals::Literals;
pub use member_code::{code_of, has_its_code};
pub use members::{Found, MemberKind};
pub use nested::{after_first, list_at};
pub use operand::{Use, index_of, use_of};
pub use origin::Origin;
pub use places::{class_places, placed_class};
pub use program::{Handler, LinkedClass, Method, Program, Side, Target};
pub use text::{class_at, copy_class, copy_text, id_at, is_text, text_at};
