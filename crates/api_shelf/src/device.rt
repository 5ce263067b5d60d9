//! What answers in the library's place, with calls that may fail.

ghost use Rattle.std.specs.Prelude.{◌≡◌, ◌≤◌, ℕ, Option, IfOk, OnErr, IsErrOf};
ghost use Rattle.mon_store.specs.Store.{Rose};
ghost use Rattle.api_shelf.specs.declared.device.DeviceFault.TheVariants.{Memory};
ghost use Rattle.api_shelf.specs.Telling.{Log, with_pair};

use api_listing::{ApiAnswer, ApiCall};
use mon_base::NoMemory;
use std::alloc::{AllocError, AllocFailed};
use thiserror::Error;

/// Why a device gave no answer.
#[derive(Clone, Copy, Debug, PartialEq, Eq, Error)]
pub enum DeviceFault {
    /// The device failed, and counted the fault.
    #[error("the device failed")]
    Failed,
    #[error("memory ran out")]
    Memory,
}

impl From<AllocError> for DeviceFault {
    ghost from_gives = { λ _ e. e ≡ Memory };

    fn from(_error: AllocError) -> DeviceFault {
        DeviceFault::Memory
    }
}

impl<T: Drop> From<AllocFailed<T>> for DeviceFault {
    ghost from_gives = { λ _ e. e ≡ Memory };

    fn from(_error: AllocFailed<T>) -> DeviceFault {
        DeviceFault::Memory
    }
}

impl From<NoMemory> for DeviceFault {
    ghost from_gives = { λ _ e. e ≡ Memory };

    fn from(_error: NoMemory) -> DeviceFault {
        DeviceFault::Memory
    }
}

/// What answers calls in the library's place. A fault is counted in the call that it comes from.
pub trait ApiDevice: Drop {
    /// The calls that were answered, each with its answer, in their order; or None where the device does not tell.
    ghost told: { Self → Option Log };

    /// How many faults there were. A count of 2^64 - 1 may stand for more.
    ghost faults: { Self → ℕ };

    /// The answer to this call. A device that refuses to answer has nothing more in its log.
    fn answer(&mut self, call: &ApiCall) -> Result<ApiAnswer, DeviceFault>
        ensures ok { IfOk result (λ given. told self.new ≡ with_pair (told self.old) (call.now, given)) }
        ensures refused { OnErr result (told self.new ≡ told self.old) }
        ensures faults { faults self.old ≤ faults self.new }
        ensures failed { IsErrOf result DeviceFault.Failed → Rose (faults self.old) (faults self.new) };

    /// How many faults there were. It takes no memory.
    fn fault_count(&self) -> u64
        ensures { result ≡ faults self.now };
}

/// A call goes to the device in the box.
impl ApiDevice for Box<dyn ApiDevice + Send> {
    ghost told = { λ b. (ApiDevice-box b).told b.value };

    ghost faults = { λ b. (ApiDevice-box b).faults b.value };

    fn answer(&mut self, call: &ApiCall) -> Result<ApiAnswer, DeviceFault> {
        (**self).answer(call)
    }

    fn fault_count(&self) -> u64 {
        (**self).fault_count()
    }
}
