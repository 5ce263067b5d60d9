//! Class files, a listing and a main class become one program in which each operand has its target.
//!
//! [`link`] tries its conditions in a fixed order and answers the first that fails; [`assemble`] tries all of them but the first,
//! how many files are given.
//! (The Java Virtual Machine Specification, chapter 5; docs/LINKING.md.)
#![tactic(auto)]

mod class_conditions;
mod fault;
mod handlers;
mod heights;
mod known;
mod laws;
mod left_methods;
mod linking;
mod method_conditions;
mod methods;
mod operand_fault;
mod operands;

pub use fault::LinkFault;
pub use laws::{linked_is_in_order, linked_operands_are_right, linked_programs_are_named};
pub use linking::{MAX_FILES, assemble, link};
