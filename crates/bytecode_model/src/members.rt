//! Fields and methods that are declared.

ghost use Rattle.std.specs.Prelude.{◌≡◌, IfOk};

use crate::program::Target;
use class_codec::Copied;
use mon_base::NoMemory;
use std::alloc::Global;

/// What a declaration is of, and whether it is static.
#[derive(Drop)]
pub struct Found {
    pub target: Target,
    pub is_static: bool,
}

impl Found {
    /// An equal declaration.
    pub fn copy(&self, alloc: Global) -> Result<Found, NoMemory>
        ensures { IfOk result (λ found. found ≡ self.now) }
    {
        let target = self.target.copy(alloc)?;
        Ok(Found {
            target,
            is_static: self.is_static,
        })
    }
}

/// Which members of a class are meant.
#[derive(Clone, Copy)]
pub enum MemberKind {
    Method,
    Field,
}
