//! Files by name, with calls that may fail.

ghost use Rattle.std.specs.Prelude.{◌≡◌, ◌⊎◌, ◌≤◌, ◌∷◌, length, List, ℕ, Option, IfOk, OnOk, OnErr, IsErrOf};
ghost use Rattle.mon_store.specs.declared.store.StoreFault.TheVariants.{Memory};
ghost use Rattle.mon_store.specs.Store.{Caused, HasFile, Lacks, Copies, IsTorn, written};

use mon_base::{Bytes, NoMemory};
use std::alloc::{AllocError, AllocFailed};

/// Why a call of a store gave no answer.
#[derive(Clone, Copy, Debug, PartialEq, Eq)]
pub enum StoreFault {
    /// There is no file of this name.
    Absent,
    /// The store failed, and counted the fault.
    Failed,
    /// Memory ran out.
    Memory,
}

impl From<AllocError> for StoreFault {
    ghost from_gives = { λ _ e. e ≡ Memory };

    fn from(_error: AllocError) -> StoreFault {
        StoreFault::Memory
    }
}

impl<T: Drop> From<AllocFailed<T>> for StoreFault {
    ghost from_gives = { λ _ e. e ≡ Memory };

    fn from(_error: AllocFailed<T>) -> StoreFault {
        StoreFault::Memory
    }
}

impl From<NoMemory> for StoreFault {
    ghost from_gives = { λ _ e. e ≡ Memory };

    fn from(_error: NoMemory) -> StoreFault {
        StoreFault::Memory
    }
}

/// Files by name. A fault is counted in the call that it comes from, with the name of that call.
pub trait Store {
    /// The bytes of each name, or None where the store does not tell.
    ghost files: { Self → Option (List ℕ → Option (List ℕ)) };

    /// How many faults there were. A count of 2^64 - 1 may stand for more.
    ghost faults: { Self → ℕ };

    /// The name of the last call that was counted as failed.
    ghost last: { Self → List ℕ };

    /// The length of the named file, in bytes.
    fn size(&mut self, name: &Bytes) -> Result<u64, StoreFault>
        ensures ok { IfOk result (λ n. HasFile (files self.old) name.now (λ bytes. n ≡ length bytes)) }
        ensures files { files self.new ≡ files self.old }
        ensures faults { faults self.old ≤ faults self.new }
        ensures failed { IsErrOf result StoreFault.Failed →
            Caused (faults self.old) (faults self.new) (last self.new) name.now }
        ensures absent { IsErrOf result StoreFault.Absent →
            Caused (faults self.old) (faults self.new) (last self.new) name.now ⊎ Lacks (files self.old) name.now };

    /// Copies bytes of the named file from the position `at` on to the front of `into`, and gives their number. It is
    /// 0 at the file's end and where `into` is empty.
    fn read(&mut self, name: &Bytes, at: u64, into: &mut [u8]) -> Result<usize, StoreFault>
        ensures fits { IfOk result (λ n. n ≤ length into.new) }
        ensures ok { IfOk result (λ n. HasFile (files self.old) name.now (λ bytes. Copies bytes at n into.new)) }
        ensures files { files self.new ≡ files self.old }
        ensures faults { faults self.old ≤ faults self.new }
        ensures failed { IsErrOf result StoreFault.Failed →
            Caused (faults self.old) (faults self.new) (last self.new) name.now }
        ensures absent { IsErrOf result StoreFault.Absent →
            Caused (faults self.old) (faults self.new) (last self.new) name.now ⊎ Lacks (files self.old) name.now };

    /// Makes these bytes the named file, in the place of one that was there. On refusal, for want of memory too, the
    /// file is as it was or has a front of the bytes. Other files stay.
    fn write(&mut self, name: &Bytes, bytes: &[u8]) -> Result<(), StoreFault>
        ensures ok { OnOk result (files self.new ≡ written (files self.old) name.now bytes.now) }
        ensures refused { OnErr result (IsTorn (files self.old) (files self.new) name.now bytes.now) }
        ensures faults { faults self.old ≤ faults self.new }
        ensures failed { IsErrOf result StoreFault.Failed →
            Caused (faults self.old) (faults self.new) (last self.new) name.now }
        ensures absent { IsErrOf result StoreFault.Absent →
            Caused (faults self.old) (faults self.new) (last self.new) name.now };
}
