//! The book of a run, and worker threads that write it. (docs/RUNS.md)
//!
//! A [`RunBook`] has a program that runs, the steps that it made, and the devices that answer its calls of the library.
//! [`RunBook::advance`] makes one step more, of the first thread from a number on that can. Whatever is done with a book, its steps
//! are one run of its program, and its devices tell what they answered in it. [`run`] has worker threads write one book.
#![tactic(auto)]

mod book;
mod gate;
mod laws;
mod locked;
mod running;

pub use book::{Advance, DeviceStop, RunBook, Turns};
pub use gate::{FreeGate, Gate};
pub use laws::runs_are_traces;
pub use running::{RunStop, run};
