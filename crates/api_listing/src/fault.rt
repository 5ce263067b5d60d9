//! Why words or bytes are not read.

ghost use Rattle.std.specs.Prelude.{◌≡◌};
ghost use Rattle.api_listing.specs.declared.fault.FormFault.TheVariants as forms;

use mon_base::NoMemory;
use std::alloc::{AllocError, AllocFailed};
use thiserror::Error;

/// Why words or bytes are not read.
#[derive(Clone, Copy, Debug, Error)]
pub enum FormFault {
    /// They have not the form that is asked for.
    #[error("of no form")]
    NoForm,
    /// Memory ran out.
    #[error("out of memory")]
    Memory,
}

impl From<NoMemory> for FormFault {
    ghost from_gives = { λ _ e. e ≡ forms.Memory };

    fn from(_error: NoMemory) -> FormFault {
        FormFault::Memory
    }
}

impl From<AllocError> for FormFault {
    ghost from_gives = { λ _ e. e ≡ forms.Memory };

    fn from(_error: AllocError) -> FormFault {
        FormFault::Memory
    }
}

impl<T: Drop> From<AllocFailed<T>> for FormFault {
    ghost from_gives = { λ _ e. e ≡ forms.Memory };

    fn from(_error: AllocFailed<T>) -> FormFault {
        FormFault::Memory
    }
}
