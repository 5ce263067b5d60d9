//! Several files, written one after the other.

ghost use Rattle.std.specs.Prelude.{◌≡◌, ◌≤◌, ℕ, List, IsErrOf};
ghost use Rattle.mon_store.specs.declared.outputs.WriteFault.TheVariants.{Memory};
ghost use Rattle.mon_store.specs.Outputs.{Stands, WritesOne};
ghost use Rattle.mon_store.specs.Store.{Caused};

use crate::store::{Store, StoreFault};
use mon_base::{Bytes, NoMemory};
use std::alloc::Global;

/// A file that is to be written.
#[derive(Drop)]
pub struct Output {
    pub name: Bytes,
    pub bytes: Bytes,
}

/// Why not all files were written.
#[derive(Debug, Drop, PartialEq, Eq)]
pub enum WriteFault {
    /// The store failed at the file of this name, and counted the fault.
    Failed(Bytes),
    /// Memory ran out.
    Memory,
}

impl From<NoMemory> for WriteFault {
    ghost from_gives = { λ _ e. e ≡ Memory };

    fn from(_error: NoMemory) -> WriteFault {
        WriteFault::Memory
    }
}

/// Writes the files in their order, up to the first that the store does not take.
pub fn write_all<S: Store>(
    alloc: Global,
    store: &mut S,
    outputs: &[Output],
) -> Result<(), WriteFault>
    // All are written; or those before one of them are, that one is as it was or has a front of its bytes, and every other
    // file is as it was.
    ensures stands { Stands (S.files store.old) outputs.now result (S.files store.new) }
    ensures failed { (name : List ℕ) → IsErrOf result (WriteFault.Failed name) →
        Caused (S.faults store.old) (S.faults store.new) (S.last store.new) name }
    ensures faults { S.faults store.old ≤ S.faults store.new }
{
    let mut left = outputs;
    while let [output, later @ ..] = left {
        write_one(alloc, store, output)?;
        left = later;
    }
    Ok(())
}

/// Writes one of the files.
fn write_one<S: Store>(alloc: Global, store: &mut S, output: &Output) -> Result<(), WriteFault>
    ensures stands { WritesOne (S.files store.old) output.now result (S.files store.new) }
    ensures failed { (name : List ℕ) → IsErrOf result (WriteFault.Failed name) →
        Caused (S.faults store.old) (S.faults store.new) (S.last store.new) name }
    ensures faults { S.faults store.old ≤ S.faults store.new }
{
    match store.write(&output.name, output.bytes.as_slice()) {
        Ok(()) => Ok(()),
        Err(StoreFault::Absent | StoreFault::Failed) => {
            let name = output.name.copy(alloc)?;
            Err(WriteFault::Failed(name))
        }
        Err(StoreFault::Memory) => Err(WriteFault::Memory),
    }
}
