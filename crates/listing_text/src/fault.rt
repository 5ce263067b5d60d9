//! Why a text is no listing.

ghost use Rattle.std.specs.Prelude.{◌≡◌};
ghost use Rattle.listing_text.specs.declared.fault.ListFault.TheVariants as faults;

use mon_base::NoMemory;
use std::alloc::{AllocError, AllocFailed};
use thiserror::Error;

/// What is wrong with the text: that of the first line that is wrong, and there the first of these. `line` counts
/// from 1.
#[derive(Clone, Copy, Debug, Error)]
pub enum ListFault {
    /// The line has none of the five forms, or it is the last and has no newline after it.
    #[error("line {line} has no form of a listing")]
    Line { line: u64 },
    /// What the line declares stands on an earlier line, is built in, or is the tool's own class.
    #[error("line {line} declares what is declared already")]
    Twice { line: u64 },
    /// The superclass or an interface of the line is not known before it, or a class that it names is not known.
    #[error("line {line} names a class that is not known")]
    NoSuper { line: u64 },
    /// The text has more than 20,000 lines.
    #[error("{count} lines are too many")]
    TooMany { count: u64 },
    /// Memory ran out.
    #[error("out of memory")]
    Memory,
}

impl From<NoMemory> for ListFault {
    ghost from_gives = { λ _ e. e ≡ faults.Memory };

    fn from(_error: NoMemory) -> ListFault {
        ListFault::Memory
    }
}

impl From<AllocError> for ListFault {
    ghost from_gives = { λ _ e. e ≡ faults.Memory };

    fn from(_error: AllocError) -> ListFault {
        ListFault::Memory
    }
}

impl<T: Drop> From<AllocFailed<T>> for ListFault {
    ghost from_gives = { λ _ e. e ≡ faults.Memory };

    fn from(_error: AllocFailed<T>) -> ListFault {
        ListFault::Memory
    }
}
