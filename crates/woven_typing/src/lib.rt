//! The types of a woven program, told of those of the program that it is woven of. (docs/TYPING.md, docs/BLOCKS.md)
//!
//! An instruction without a block has the frame that it had, and each instruction of a block that of its role: types are
//! neither inferred nor looked up a second time. Where the program is typed, the woven one is, for every policy and in both
//! modes.
#![tactic(auto)]

mod following;
mod framing;
mod laws;
mod renaming;
mod roles;
mod typing;

pub use laws::{
    blocks_are_told, clients_are_told, items_are_reached, listings_know_throwable, policies_tell,
    woven_is_typed,
};
pub use typing::typing_of;
