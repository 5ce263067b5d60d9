//! What instructions do to arrays, static fields, new objects and the operands, and what static fields hold at the start.
//! (The Java Virtual Machine Specification, section 6.5; docs/MACHINE.md)
//!
//! What is asked of the program's classes, as of which an object is, is left to those that call.
#![tactic(auto)]

mod arrays;
mod completion;
mod constants;
mod making;
mod numbers;
mod operands;
mod statics;

pub use arrays::{Led, item_kind, kept, on_items, place_among, read_item, tell_length};
pub use completion::{Comes, Completion};
pub use constants::statics_of;
pub use making::{make_numbers, make_references, name_named, push_object, truth};
pub use numbers::divide;
pub use operands::{number_operand, operand_of, replace};
pub use statics::{read_static, write_static};
