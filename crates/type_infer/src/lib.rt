//! Inference of types: the least typing of a linked program, or the first instruction at which there is none.
//!
//! Method by method, the types that its arguments have flow along its instructions; where two ways meet, the least type
//! above both stands. [`infer`] gives a typing that `check_typing` of code_typing takes. (The Java Virtual Machine
//! Specification, section 4.10.2; docs/TYPING.md.)
#![tactic(auto)]

mod body;
mod failing;
mod fault;
mod inferring;
mod joining;
mod laws;
mod leaving;
mod marks;
mod sending;
mod solving;
mod told;
mod types;
mod worklist;

pub use fault::InferFault;
pub use inferring::infer;
