//! What a command is given: its words, and the files that these name.
//!
//! [`command_of`] finds the command, for any words that one has. What a word stands for is told by its place alone; no word
//! is an option, and no file is read for it.
//!
//! Each kind of file has a greatest length and a reading of its text (`forms`). The files of a command are read in the order
//! of docs/COMMANDS.md: [`read_check`] and its like answer the trees, or a [`Stop`] at the first file that the store does not
//! give or that is wrong.
#![tactic(auto)]

mod check_inputs;
mod fault;
mod files;
mod forms;
mod gen_words;
mod inline_inputs;
mod inline_words;
mod laws;
mod lift_inputs;
mod lift_words;
mod named;
mod numbers;
mod policy_inputs;
mod race_inputs;
mod replay_inputs;
mod replay_words;
mod run_words;
mod show_inputs;
mod words;

pub use check_inputs::{CheckInputs, read_check};
pub use fault::InputFault;
pub use files::Stop;
pub use gen_words::GenWords;
pub use inline_inputs::{InlineInputs, read_inline};
pub use inline_words::{InlineWords, Weaving};
pub use laws::told_files_are_read;
pub use lift_inputs::{LiftInputs, read_lift};
pub use lift_words::LiftWords;
pub use named::ReadClasses;
pub use policy_inputs::{PolicyInputs, read_policy};
pub use race_inputs::{RaceInputs, policy_of_texts, read_race};
pub use replay_inputs::{ReplayInputs, read_replay};
pub use replay_words::ReplayWords;
pub use run_words::RunWords;
pub use show_inputs::{ShowInputs, read_show};
pub use words::{CheckWords, Command, FileCommand, PolicyWords, RaceWords, ShowWords, command_of};
