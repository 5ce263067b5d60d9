//! Class files of version 49: read into a tree, and written from it, byte for byte.
//!
//! The tree has what the file has and no more, so there is one tree for a file and one file for a tree. Names and
//! types are kept as indices into the constant pool, and code as bytes.
#![tactic(auto)]

mod attributes;
mod constants;
mod copying;
mod decoding;
mod encoding;
mod fault;
mod indices;
mod items;
mod place;
mod pool;
mod tree;

pub use copying::{Copied, copy_list};
pub use decoding::{MAX_LEN, decode};
pub use encoding::{encode, one_tree};
pub use fault::ClassFault;
pub use pool::{
    ConstKind, Reference, class_name_at, is_of, name_and_type_at, names, names_code, reference_at,
    utf8_at,
};
pub use tree::{Attr, ClassFile, Code, Const, Member, Other, TableEntry};
