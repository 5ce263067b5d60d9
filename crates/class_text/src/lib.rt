//! The text of class files, as a person reads it: their methods, instructions and handlers, a line each.
//!
//! Nothing is linked: a call shows the method of the library that it means where its reference alone tells it.
//! (docs/COMMANDS.md.)
#![tactic(auto)]

mod call;
mod fault;
mod instruction;
mod library;
mod lines;
mod printing;
mod words;

pub use fault::ShowFault;
pub use printing::show;
