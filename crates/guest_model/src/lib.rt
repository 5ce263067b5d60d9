//! The machine of linked programs, as a definition: its states and steps, every instruction of the subset, objects and arrays,
//! calls of given and of built-in methods, threads, monitors and handlers, and the library's answers. (docs/MACHINE.md)
//!
//! One guest instruction is one step, and so is one answer of the library; guest memory is sequentially consistent. What a step
//! changes stands in specs/, in one case for each group of instructions; what it is made of in specs/Parts, Places, Calls,
//! Monitors and Throwing.
//!
//! Code that makes these steps is called by the trait [`Steps`], whose clauses speak of the definitions alone.
#![tactic(auto)]

mod arities;
mod builtin;
mod execution;
mod fault;
mod laws;
mod laws_of_steps;
mod machine;
mod objects;
mod steps;
mod thrown;

pub use arities::{arity, arity_of_row, is_static_call};
pub use builtin::{Builtin, builtin_at};
pub use execution::Execution;
pub use fault::StepFault;
pub use laws::{
    covering_handlers_are_found, events_are_of_their_thread, handlers_cover,
    numbers_are_of_32_bits, other_threads_stay, sees_numbers_in_range, sees_only_what_is_called,
    sees_the_first_call, sees_what_is_given, steps_add_one, what_each_step_keeps_holds_always,
};
pub use laws_of_steps::{
    answers_are_permitted, asks_what_the_rules_say, enabled_steps_are_made,
    ends_where_none_is_enabled, fitting_answers_are_taken, frames_are_left,
    free_monitors_are_entered, ready_calls_are_made, steps_are_enabled, turns_find_the_enabled,
    what_is_ready_moves,
};
pub use machine::{Choice, End, Machine, Step};
pub use objects::{STRING, class_of_value, first_value, is_of_references};
pub use steps::Steps;
pub use thrown::Thrown;
