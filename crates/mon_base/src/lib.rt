//! The ground of conspecj: byte strings, lists, persistent arrays, the names of methods, numbers as text, and readers of
//! bytes.
//!
//! Every other crate is written over these types. A contract sees a [`Bytes`] as the list of its bytes and a
//! [`List`] as the list of its items, so definitions speak of trees that hold them directly.
#![tactic(auto)]

mod boxed_list;
mod bytes;
mod cursor;
mod list;
mod memory;
mod method;
mod number;
pub mod persistent;
mod room;
mod shared_list;

pub use boxed_list::BoxedList;
pub use bytes::Bytes;
pub use cursor::Cursor;
pub use list::List;
pub use memory::NoMemory;
pub use method::MethodId;
pub use number::{push_count, push_number, read_number};
pub use room::Room;
pub use shared_list::SharedList;
