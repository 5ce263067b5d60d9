//! Why a step is not made.

ghost use Rattle.std.specs.Prelude.{◌≡◌};
ghost use Rattle.guest_model.specs.declared.fault.StepFault.TheVariants as faults;

use mon_base::NoMemory;
use thiserror::Error;

/// Why a step is not made.
#[derive(Clone, Copy, Debug, Error)]
pub enum StepFault {
    /// The thread can not make it, as the machine stands.
    #[error("the step is not enabled")]
    NotEnabled,
    /// Memory ran out, or the numbers of 32 bits did: of objects, of threads, of entries of a monitor, of instructions.
    #[error("out of memory")]
    Memory,
}

impl From<NoMemory> for StepFault {
    ghost from_gives = { λ _ e. e ≡ faults.Memory };

    fn from(_error: NoMemory) -> StepFault {
        StepFault::Memory
    }
}
