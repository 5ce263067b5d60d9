//! What woven class files link to: the program with its blocks; and that the origins that are told of its instructions are
//! true. (docs/BLOCKS.md)
#![tactic(auto)]

mod inlining;
mod laws;
mod program;

pub use inlining::{Inlined, inline, inline_beside};
pub use laws::{
    original_is_free, origins_are_laid_out, origins_are_true, woven_files_link,
    woven_program_is_linked,
};
pub use program::program_with;
