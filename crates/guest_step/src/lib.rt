//! The steps of a guest program, as code: what the definition of the machine says, and nothing is changed where a step is
//! refused. (docs/MACHINE.md)
//!
//! A [`Stepper`] makes them, as the trait `Steps` of guest_model has them, on any machine. An [`Interpreter`] has its machine, as the
//! trait `Execution`: what the library answers finds memory that was taken before it was asked.
#![tactic(auto)]

mod answering;
mod asking;
mod builtins;
mod calling;
mod ending;
mod fitting;
mod interpreter;
mod living;
mod making_room;
mod operate;
mod operations;
mod rooms;
mod running;
mod starting;
mod stepping;
mod steps;
mod turns;
mod waiting;

pub use interpreter::Interpreter;
pub use steps::Stepper;
