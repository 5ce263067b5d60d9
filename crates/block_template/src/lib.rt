//! The blocks that stand for calls that a policy has clauses for, in both modes. (docs/BLOCKS.md)
//!
//! A block is made of parts, and a part of items: an instruction, and what is so before it. Instructions, types and notes are
//! told of this one list.
#![tactic(auto)]

mod blocks;
mod checks;
mod clauses;
mod item;
mod laws;
mod made;
mod numbers;
mod parts;
mod plan;
mod pushing;
mod steps;

pub use blocks::{block, items, locals_used};
pub use clauses::{MethodClauses, clauses_of};
pub use item::{Item, Role};
pub use laws::{
    blocks_are_reached, blocks_are_typed, blocks_flow, blocks_go_forward, calls_are_typed,
    catches_are_typed, clauses_are_asked, denial_is_block, items_are_typed, plans_are_good,
};
pub use made::PolicyItems;
pub use plan::PolicyPlan;
pub use steps::{Act, Operand, Step, ask_steps, asking, stack_before, update_steps, updating};
