//! Blocks of instructions in the code of a method.
//!
//! A block stands in the place of an instruction, which it holds; what goes to that instruction goes to the block's
//! front, and a line that began there begins at that front. A block may catch what its instruction throws: its entry
//! of the exception table stands before the client's. Entries that blocks name are found in the constant pool of the
//! class, or are added to it. Sizes that do not fit are told in a fixed order. Which instructions have a block tells a
//! [`Planner`]. (docs/BLOCKS.md)
#![tactic(auto)]

mod adding;
mod block;
mod constants;
mod entries;
mod fault;
mod fronts;
mod growth;
mod handlers;
mod known;
mod length;
mod lines;
mod moves;
mod operands;
mod plan;
mod sizes;
mod splicing;
mod tables;

pub use block::{Block, BlockInsn, PoolWant};
pub use entries::Entries;
pub use fault::{Size, SpliceFault};
pub use fronts::{count_of, front, fronts_of, has_block, origins_of, part_of};
pub use handlers::rewrite;
pub use plan::Planner;
pub use sizes::{OPERANDS, room};
pub use splicing::{Spliced, splice};
pub use tables::{call_place, catching};
