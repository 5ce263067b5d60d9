//! Why a text is no record.

ghost use Rattle.std.specs.Prelude.{◌≡◌};
ghost use Rattle.event_record.specs.declared.fault.RecordFault.TheVariants as faults;

use mon_base::NoMemory;
use std::alloc::{AllocError, AllocFailed};
use thiserror::Error;

/// What is wrong with the text. `line` counts from 1.
#[derive(Clone, Copy, Debug, Error)]
pub enum RecordFault {
    /// The first line that has no form of a record, that brings the steps above 1,000,000, that stands after the end line,
    /// or that has no newline after it; or the line after the last, where there is no end line.
    #[error("line {line} is no line of a record")]
    Line { line: u64 },
    /// Memory ran out.
    #[error("out of memory")]
    Memory,
}

impl From<NoMemory> for RecordFault {
    ghost from_gives = { λ _ e. e ≡ faults.Memory };

    fn from(_error: NoMemory) -> RecordFault {
        RecordFault::Memory
    }
}

impl From<AllocError> for RecordFault {
    ghost from_gives = { λ _ e. e ≡ faults.Memory };

    fn from(_error: AllocError) -> RecordFault {
        RecordFault::Memory
    }
}

impl<T: Drop> From<AllocFailed<T>> for RecordFault {
    ghost from_gives = { λ _ e. e ≡ faults.Memory };

    fn from(_error: AllocFailed<T>) -> RecordFault {
        RecordFault::Memory
    }
}
