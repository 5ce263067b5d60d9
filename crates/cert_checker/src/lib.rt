//! The checker: whether a linked program with its certificate obeys its policy, for every list of guest steps.
//!
//! It runs nothing and compares with the output of no tool: it looks at each instruction, its frame type and its note, and
//! at those of the instructions that come next. (docs/CERTIFICATES.md)
#![tactic(auto)]

mod checking;
mod fault;
mod judging;
mod laws;
mod note_rules;
mod notes;
mod passing;
mod shape;
mod state;

pub use checking::Accepted;
pub use fault::CheckFault;
pub use judging::{Denial, check};
pub use laws::denied_call_disobeys;
pub use note_rules::note_fault;
pub use notes::check_note;
pub use state::{state_at, state_fault};
