//! Objects and monitors.

use crate::value::Value;
use mon_base::{Bytes, List};

/// An object of the heap. (The Java Virtual Machine Specification, section 2.4.)
#[derive(Drop)]
pub enum Object {
    /// An object of a class, with the fields of the class and its superclasses.
    Plain {
        class: Bytes,
        fields: List<Value>,
        /// What a Thread runs.
        target: Value,
        /// The number of the guest thread that was started by it.
        thread: Option<u32>,
    },
    /// An array, with the descriptor of its type.
    Array {
        desc: Bytes,
        items: List<Value>,
    },
    /// A string.
    Text(Bytes),
}

/// A monitor that a thread holds, and how many times it entered it.
#[derive(Clone, Copy)]
pub struct Monitor {
    pub on: Value,
    pub owner: u32,
    pub count: u32,
}
