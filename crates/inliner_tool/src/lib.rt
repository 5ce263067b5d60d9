//! The top call of conspecj: the words of a command, over a store and a sink.
//!
//! The words become names, and the files of these names inputs (`command_inputs`). Each command is a module of its own, from its
//! inputs to an answer and the files that are written before it is given (`writing`), or to why it ends before. This outcome
//! becomes a status (`tool`) and a reply (`replies`), in which each fault has its number (`numbers`), and the reply a text
//! (`command_outputs`). (docs/COMMANDS.md)
#![tactic(auto)]

mod answer;
mod check;
mod classes;
mod generate;
mod inline;
mod lift;
mod load;
mod numbers;
mod policy;
mod programs;
mod race;
mod refusal;
mod replay;
mod replies;
mod run;
mod running;
mod show;
mod tool;
mod writing;

pub use answer::Answer;
pub use check::check_decides;
pub use generate::gen_decides;
pub use inline::{inline_decides, written_is_accepted};
pub use lift::lifts_are_runs;
pub use load::load_decides;
pub use race::race_decides;
pub use refusal::Refusal;
pub use replay::replay_decides;
pub use run::{RunAnswer, run_decides, runs_are_replayed};
pub use tool::{Status, answers_are_one, run_tool};
