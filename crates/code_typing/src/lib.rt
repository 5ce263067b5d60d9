//! The typing of a linked program: whether the types that are told of each instruction's frame are right.
//!
//! [`check_row`] tells of one instruction the first of seven rules that fails there, and [`check_typing`] of a program
//! the first instruction at which one fails. They follow the inferring verifier and take no memory. (The Java Virtual
//! Machine Specification, section 4.10; docs/TYPING.md.)
#![tactic(auto)]

mod after;
mod change;
mod depth;
mod entry;
mod fault;
mod following;
mod handlers;
mod laws;
mod locals;
mod made;
mod operands;
mod place;
mod row;
mod typing;
mod wanted;
mod yielded;

pub use after::{entry_locals, locals_after, stack_after};
pub use change::{Change, change_told, when_called};
pub use fault::TypeFault;
pub use following::goes_well;
pub use handlers::catches_well;
pub use laws::{rows_follow_the_order, typed_is_closed};
pub use place::PlaceRef;
pub use row::is_alone_met;
pub use typing::{check_row, check_typing, count_coded, row_in};
