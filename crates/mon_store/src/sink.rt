//! A text that grows, with calls that may fail.

ghost use Rattle.std.specs.Prelude.{◌≡◌, ◌≤◌, List, ℕ, Option, OnOk, IsErrOf};
ghost use Rattle.mon_store.specs.declared.sink.SinkFault.TheVariants.{Memory};
ghost use Rattle.mon_store.specs.Store.{Rose};
ghost use Rattle.mon_store.specs.Sink.{Appends, AppendsFront};

use mon_base::NoMemory;
use std::alloc::{AllocError, AllocFailed};

/// Why a sink did not take a piece whole.
#[derive(Clone, Copy, Debug, PartialEq, Eq)]
pub enum SinkFault {
    /// The sink failed, and counted the fault.
    Failed,
    /// Memory ran out.
    Memory,
}

impl From<AllocError> for SinkFault {
    ghost from_gives = { λ _ e. e ≡ Memory };

    fn from(_error: AllocError) -> SinkFault {
        SinkFault::Memory
    }
}

impl<T: Drop> From<AllocFailed<T>> for SinkFault {
    ghost from_gives = { λ _ e. e ≡ Memory };

    fn from(_error: AllocFailed<T>) -> SinkFault {
        SinkFault::Memory
    }
}

impl From<NoMemory> for SinkFault {
    ghost from_gives = { λ _ e. e ≡ Memory };

    fn from(_error: NoMemory) -> SinkFault {
        SinkFault::Memory
    }
}

/// A text that grows piece by piece. A fault is counted in the call that it comes from.
pub trait Sink {
    /// The text so far, or None where the sink does not tell.
    ghost text: { Self → Option (List ℕ) };

    /// How many faults there were. A count of 2^64 - 1 may stand for more.
    ghost faults: { Self → ℕ };

    /// Appends the piece. A sink that failed may have taken a front of it; without memory it took nothing.
    fn put(&mut self, bytes: &[u8]) -> Result<(), SinkFault>
        ensures ok { OnOk result (Appends (text self.old) (text self.new) bytes.now) }
        ensures torn { IsErrOf result SinkFault.Failed → AppendsFront (text self.old) (text self.new) bytes.now }
        ensures memory { IsErrOf result SinkFault.Memory → text self.new ≡ text self.old }
        ensures faults { faults self.old ≤ faults self.new }
        ensures failed { IsErrOf result SinkFault.Failed → Rose (faults self.old) (faults self.new) };
}
