//! Runs of a guest program: its steps made one after the other from the start, by any code of the machine. (docs/MACHINE.md)
#![tactic(auto)]

mod replaying;

pub use replaying::{ReplayFault, Replayed, replay, replays_are_runs};
