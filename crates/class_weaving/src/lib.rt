//! The weaving of blocks into the class files of a program, by any plan. (docs/BLOCKS.md)
//!
//! Each instruction to which the plan gives a block stands in it; no other has one. After the classes stands
//! `conspec/State`, which holds the variables of a policy, and whose monitor is the lock.
#![tactic(auto)]

mod code;
mod laws;
mod members;
mod state;
mod weaving;
mod woven;

pub use laws::{handlers_cover_parts, lines_stay, sizes_decide};
pub use state::state_file;
pub use weaving::weave;
pub use woven::{Members, Woven};
