//! What a program and the library say to each other.

use mon_base::{Bytes, List, MethodId};

/// A value that is passed to a method of the library or comes back from it.
#[derive(Drop, PartialEq, Eq)]
pub enum ApiValue {
    /// A number of 32 bits; of a narrow type too, as it was passed.
    Int(i32),
    Null,
    /// A text, in the bytes of a class file's constants.
    Text(Bytes),
    /// An object, by its class and its number on the heap.
    Obj { class: Bytes, at: u32 },
    /// The object of a class.
    Class(Bytes),
}

/// A call of a method of the library. Where `instance` is set the receiver is not among the arguments.
#[derive(Drop)]
pub struct ApiCall {
    pub method: MethodId,
    pub instance: bool,
    pub args: List<ApiValue>,
}

/// How the library answers a call.
#[derive(Drop, PartialEq, Eq)]
pub enum ApiAnswer {
    /// The method has no result.
    Nothing,
    Int(i32),
    Null,
    /// A new text.
    Text(Bytes),
    /// A new object of the class.
    Fresh(Bytes),
    /// The argument of this place, from 0.
    Arg(u32),
    Receiver,
    /// A new exception of the class is thrown.
    Throws(Bytes),
}

/// What is seen of a call. `method` is its index among the listed methods.
#[derive(Drop)]
pub enum Event {
    Call {
        thread: u32,
        method: u32,
        args: List<ApiValue>,
    },
    Return {
        thread: u32,
        method: u32,
        /// What the method gave; nothing where it has no result.
        value: Option<ApiValue>,
    },
    Except {
        thread: u32,
        method: u32,
    },
}
