//! What a guest program has while it runs: values, objects, frames, monitors and threads.
//!
//! A value is a number, null, or a reference to an object of the heap, to a class or to a string of the program. The
//! heap is a list of objects, which only grows. (The Java Virtual Machine Specification, sections 2.4 to 2.6.)
#![tactic(auto)]

mod frame;
mod heap;
mod object;
mod stack;
mod thread;
mod value;

pub use frame::{Frame, Frames};
pub use heap::{new_object, places, put};
pub use object::{Monitor, Object};
pub use stack::Stack;
pub use thread::{Doing, Thread};
pub use value::Value;
