//! The code of a method: read from bytes into a list of instructions, and written from it, byte for byte; and what
//! instructions do, apart from the bytes in which they stand.
//!
//! The targets of branches and switches are indices into the list. Each form of an instruction is its own value, so
//! there is one list for the bytes and one text of bytes for a list.
//!
//! [`shape_of`] tells of each instruction what it does, with numbers alone. What a shape does to a frame is one
//! definition over a domain of what is moved (specs/Effect.antt): over values it is a step of the machine, over
//! verifier types a row of the typing. (The Java Virtual Machine Specification, section 6.5.)
#![tactic(auto)]

mod fault;
mod forms;
mod insn;
mod layout;
mod name;
mod opcode;
pub mod opcodes;
mod place;
mod reading;
mod shape;
mod shape_laws;
mod switches;
mod targets;
mod writing;

pub use fault::{CodeFault, CodeOverflow};
pub use forms::{StackForm, depth_of};
pub use insn::{Case, Insn};
pub use layout::{size, starts};
pub use name::name_of;
pub use opcode::{Operands, goes_on, is_frame_only, operands_of};
pub use reading::read_code;
pub use shape::{Heap, How, Item, One, Relation, Shape, Two, ValueKind, shape_of};
pub use shape_laws::{
    control_goes_to_successor, effect_follows, operands_move, shapes_are_the_tables,
};
pub use writing::write_code;
