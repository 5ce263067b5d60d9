//! What a line of a listing declares.

use crate::descriptor::MethodType;
use crate::types::{ListedClass, ListedMethod};
use mon_base::{Bytes, MethodId};

/// What a line of a listing declares.
#[derive(Drop)]
pub enum Declaration {
    /// A class or an interface.
    Class(ListedClass),
    /// A method, with the types that its descriptor encodes.
    Method {
        method: ListedMethod,
        types: MethodType,
    },
    /// A field, with the class that its descriptor names.
    Field {
        id: MethodId,
        class: Bytes,
    },
}
