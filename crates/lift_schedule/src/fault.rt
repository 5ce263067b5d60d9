//! Why a run is not lifted.

ghost use Rattle.std.specs.Prelude.{◌≡◌};
ghost use Rattle.lift_schedule.specs.declared.fault.LiftFault.TheVariants as faults;

use mon_base::NoMemory;
use thiserror::Error;

/// Why a run is not lifted. Indices of steps count from 0.
#[derive(Clone, Copy, Debug, Error)]
pub enum LiftFault {
    /// The step of this index is not enabled in its place.
    #[error("step {index} is not enabled")]
    NotEnabled { index: u64 },
    /// The policy refuses what is seen of the step of this index.
    #[error("step {index} disobeys the policy")]
    Disobeys { index: u64 },
    /// In mode hold a call of a method with clauses begins at the step of this index while another is under way.
    #[error("the call at step {index} overlaps another")]
    Overlaps { index: u64 },
    #[error("out of memory")]
    Memory,
}

impl From<NoMemory> for LiftFault {
    ghost from_gives = { λ _ e. e ≡ faults.Memory };

    fn from(_error: NoMemory) -> LiftFault {
        LiftFault::Memory
    }
}
