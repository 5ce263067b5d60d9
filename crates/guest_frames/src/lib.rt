//! Steps that change a frame alone: numbers, locals, the forms of the operand stack, and jumps; and what is asked of values.
//! They take no memory.
//! (The Java Virtual Machine Specification, section 6.5; docs/MACHINE.md)
#![tactic(auto)]

mod jumps;
mod numbers;
mod operands;
mod step;

pub use jumps::{are_one, is_null};
pub use numbers::made_of_one;
pub use operands::fits;
pub use step::local_step;
