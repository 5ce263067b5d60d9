//! Why a text is no policy.

ghost use Rattle.std.specs.Prelude.{◌≡◌};
ghost use Rattle.conspec_parse.specs.declared.fault.PolicyFault.TheVariants as faults;

use mon_base::NoMemory;
use std::alloc::{AllocError, AllocFailed};
use thiserror::Error;

/// What is wrong with the text: the fault that stands first in it, and of several at one token that which is
/// named first here. `at` is how many bytes stand before its token.
#[derive(Clone, Copy, Debug, Error)]
pub enum PolicyFault {
    /// No text of the grammar goes on with this token, or the text ends too early.
    #[error("no policy goes on with the token at byte {at}")]
    Syntax { at: u64 },
    /// The name is neither a variable nor, where these may stand, an argument or the result; or a right side names
    /// another variable than the left.
    #[error("the name at byte {at} means nothing here")]
    Name { at: u64 },
    /// A truth value stands with a number, or the reverse, or a relation or a sum is not for its base.
    #[error("the kinds differ at byte {at}")]
    Kind { at: u64 },
    /// A number is outside its range.
    #[error("the number at byte {at} is outside its range")]
    Range { at: u64 },
    /// No listed class declares the method.
    #[error("the method at byte {at} is not listed")]
    NoMethod { at: u64 },
    /// What may stand once stands a second time.
    #[error("what stands at byte {at} stands before it already")]
    Twice { at: u64 },
    /// A limit on the parts of a policy is passed.
    #[error("the policy is too large at byte {at}")]
    Limit { at: u64 },
    /// The method is built in.
    #[error("the method at byte {at} is built in")]
    Builtin { at: u64 },
    /// Memory ran out.
    #[error("out of memory")]
    Memory,
}

impl From<NoMemory> for PolicyFault {
    ghost from_gives = { λ _ e. e ≡ faults.Memory };

    fn from(_error: NoMemory) -> PolicyFault {
        PolicyFault::Memory
    }
}

impl From<AllocError> for PolicyFault {
    ghost from_gives = { λ _ e. e ≡ faults.Memory };

    fn from(_error: AllocError) -> PolicyFault {
        PolicyFault::Memory
    }
}

impl<T: Drop> From<AllocFailed<T>> for PolicyFault {
    ghost from_gives = { λ _ e. e ≡ faults.Memory };

    fn from(_error: AllocFailed<T>) -> PolicyFault {
        PolicyFault::Memory
    }
}
