//! Why blocks do not fit.

ghost use Rattle.std.specs.Prelude.{◌≡◌, OnErr};
ghost use Rattle.mon_base.specs.Answer.{Answers};
ghost use Rattle.offset_patch.specs.Fault.{fitted};
ghost use Rattle.offset_patch.specs.declared.fault.SpliceFault.TheVariants.{Memory};

use mon_base::{Bytes, NoMemory};
use std::alloc::{AllocError, AllocFailed, Global};
use thiserror::Error;

/// A size of a method or of its class.
#[derive(Clone, Copy, Debug)]
pub enum Size {
    /// The greatest number of operands.
    Stack,
    /// The number of local variables.
    Locals,
    /// The number of entries in the exception table.
    Entries,
    /// The count of the constant pool.
    Pool,
    /// The length of the code.
    Length,
    /// The offset of a branch, in two bytes.
    Branch,
}

/// The first size that does not fit.
#[derive(Debug, Drop, Error)]
pub enum SpliceFault {
    /// A method, by its class and its index there, would have this size.
    #[error("a size of {value}")]
    Overflow {
        class: Bytes,
        method: u32,
        what: Size,
        value: i64,
    },
    /// Memory ran out.
    #[error("out of memory")]
    Memory,
}

impl From<NoMemory> for SpliceFault {
    ghost from_gives = { λ _ e. e ≡ Memory };

    fn from(_error: NoMemory) -> SpliceFault {
        SpliceFault::Memory
    }
}

impl From<AllocError> for SpliceFault {
    ghost from_gives = { λ _ e. e ≡ Memory };

    fn from(_error: AllocError) -> SpliceFault {
        SpliceFault::Memory
    }
}

impl<T: Drop> From<AllocFailed<T>> for SpliceFault {
    ghost from_gives = { λ _ e. e ≡ Memory };

    fn from(_error: AllocFailed<T>) -> SpliceFault {
        SpliceFault::Memory
    }
}
