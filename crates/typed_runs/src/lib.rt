//! What holds of every run of a typed program: each value is of the type that the typing tells of its place, a step that the
//! rules allow is made, and the events are well formed for each policy that was read. (docs/TYPING.md, docs/MACHINE.md)
#![tactic(auto)]

mod laws;

pub use laws::{
    answers_fit_by_type, events_are_well_formed, ill_formed_events, policies_tell_types,
    typed_programs_run,
};
