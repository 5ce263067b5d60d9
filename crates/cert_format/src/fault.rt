//! Why bytes are no certificate, and why a certificate cannot be written.

ghost use Rattle.std.specs.Prelude.{◌≡◌};
ghost use Rattle.cert_format.specs.declared.fault.CertForm.TheVariants as forms;
ghost use Rattle.cert_format.specs.declared.fault.CertLong.TheVariants as lengths;

use mon_base::NoMemory;
use std::alloc::{AllocError, AllocFailed};
use thiserror::Error;

/// Why bytes are no certificate.
#[derive(Clone, Copy, Debug, Error)]
pub enum CertForm {
    /// What stands here fits none, the first in the order of reading. `at` counts the bytes before it.
    #[error("no certificate from {at} on")]
    Form { at: u64 },
    /// Memory ran out.
    #[error("out of memory")]
    Memory,
}

impl From<NoMemory> for CertForm {
    ghost from_gives = { λ _ e. e ≡ forms.Memory };

    fn from(_error: NoMemory) -> CertForm {
        CertForm::Memory
    }
}

impl From<AllocError> for CertForm {
    ghost from_gives = { λ _ e. e ≡ forms.Memory };

    fn from(_error: AllocError) -> CertForm {
        CertForm::Memory
    }
}

impl<T: Drop> From<AllocFailed<T>> for CertForm {
    ghost from_gives = { λ _ e. e ≡ forms.Memory };

    fn from(_error: AllocFailed<T>) -> CertForm {
        CertForm::Memory
    }
}

/// Why a certificate cannot be written.
#[derive(Clone, Copy, Debug, Error)]
pub enum CertLong {
    /// It has this many bytes, more than 67,108,864.
    #[error("a certificate of {value} bytes")]
    Certificate { value: u64 },
    /// Memory ran out.
    #[error("out of memory")]
    Memory,
}

impl From<NoMemory> for CertLong {
    ghost from_gives = { λ _ e. e ≡ lengths.Memory };

    fn from(_error: NoMemory) -> CertLong {
        CertLong::Memory
    }
}
