//! Why a program has no typing.

ghost use Rattle.std.specs.Prelude.{◌≡◌};
ghost use Rattle.type_infer.specs.declared.fault.InferFault.TheVariants as faults;

use mon_base::NoMemory;
use std::alloc::{AllocError, AllocFailed};
use thiserror::Error;

/// Why a program has no typing.
#[derive(Clone, Copy, Debug, Error)]
pub enum InferFault {
    /// No types fit: the index of the class, of the method among all methods of the class, and of the instruction.
    #[error("no types fit at instruction {at}")]
    Untyped { class: u32, method: u32, at: u32 },
    /// Memory ran out.
    #[error("out of memory")]
    Memory,
}

impl From<NoMemory> for InferFault {
    ghost from_gives = { λ _ e. e ≡ faults.Memory };

    fn from(_error: NoMemory) -> InferFault {
        InferFault::Memory
    }
}

impl From<AllocError> for InferFault {
    ghost from_gives = { λ _ e. e ≡ faults.Memory };

    fn from(_error: AllocError) -> InferFault {
        InferFault::Memory
    }
}

impl<T: Drop> From<AllocFailed<T>> for InferFault {
    ghost from_gives = { λ _ e. e ≡ faults.Memory };

    fn from(_error: AllocFailed<T>) -> InferFault {
        InferFault::Memory
    }
}
