//! Why it is not decided whether a policy is race-free.

ghost use Rattle.std.specs.Prelude.{◌≡◌};
ghost use Rattle.race_free_check.specs.declared.fault.RaceFault.TheVariants as faults;

use mon_base::NoMemory;
use std::alloc::{AllocError, AllocFailed};
use thiserror::Error;

/// Why it is not decided whether a policy is race-free.
#[derive(Clone, Copy, Debug, Error)]
pub enum RaceFault {
    /// So many points would have to be tried for two clauses, by their places in the policy, or for one, which is told
    /// twice: more than 1,000,000. It is the first such pair.
    #[error("{count} points of clauses {first} and {second}")]
    CellLimit { first: u32, second: u32, count: u64 },
    /// Memory ran out.
    #[error("out of memory")]
    Memory,
}

impl From<NoMemory> for RaceFault {
    ghost from_gives = { λ _ e. e ≡ faults.Memory };

    fn from(_error: NoMemory) -> RaceFault {
        RaceFault::Memory
    }
}

impl From<AllocError> for RaceFault {
    ghost from_gives = { λ _ e. e ≡ faults.Memory };

    fn from(_error: AllocError) -> RaceFault {
        RaceFault::Memory
    }
}

impl<T: Drop> From<AllocFailed<T>> for RaceFault {
    ghost from_gives = { λ _ e. e ≡ faults.Memory };

    fn from(_error: AllocFailed<T>) -> RaceFault {
        RaceFault::Memory
    }
}
