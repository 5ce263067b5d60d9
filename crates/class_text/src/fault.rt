//! Why class files have no text.

ghost use Rattle.std.specs.Prelude.{◌≡◌};
ghost use Rattle.class_text.specs.declared.fault.ShowFault.TheVariants as faults;

use insn_codec::CodeFault;
use mon_base::{Bytes, NoMemory};
use std::alloc::AllocError;
use thiserror::Error;

/// Why class files have no text.
#[derive(Debug, Drop, Error)]
pub enum ShowFault {
    /// The code of the method, counted from 0 in its class, is none. It is the first such in the order of the files.
    #[error("code of a method")]
    Code {
        class: Bytes,
        method: u32,
        fault: CodeFault,
    },
    /// Memory ran out.
    #[error("out of memory")]
    Memory,
}

impl From<NoMemory> for ShowFault {
    ghost from_gives = { λ _ e. e ≡ faults.Memory };

    fn from(_error: NoMemory) -> ShowFault {
        ShowFault::Memory
    }
}

impl From<AllocError> for ShowFault {
    ghost from_gives = { λ _ e. e ≡ faults.Memory };

    fn from(_error: AllocError) -> ShowFault {
        ShowFault::Memory
    }
}
