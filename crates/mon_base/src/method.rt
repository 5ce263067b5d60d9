//! The names of methods and fields.

ghost use Rattle.std.specs.Prelude.{◌≡◌, IfOk};

use crate::bytes::Bytes;
use crate::memory::NoMemory;
use std::alloc::Global;

/// The name of a method or a field: its class with `/` between packages, its own name, and its descriptor.
#[derive(Drop, PartialEq, Eq, PartialOrd, Ord)]
pub struct MethodId {
    pub class: Bytes,
    pub name: Bytes,
    pub desc: Bytes,
}

impl MethodId {
    /// An equal name.
    pub fn copy(&self, alloc: Global) -> Result<MethodId, NoMemory>
        ensures { IfOk result (λ id. id ≡ self.now) }
    {
        Ok(MethodId {
            class: self.class.copy(alloc)?,
            name: self.name.copy(alloc)?,
            desc: self.desc.copy(alloc)?,
        })
    }
}
