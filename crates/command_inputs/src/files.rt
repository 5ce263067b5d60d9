//! Files of a store, read as what they are named for.

ghost use Rattle.std.specs.Prelude.{◌≡◌, ◌≤◌};
ghost use Rattle.command_inputs.specs.declared.files.Stop.TheVariants.{Memory};
ghost use Rattle.command_inputs.specs.Forms.{ReadsText, since};

use crate::fault::InputFault;
use mon_base::{Bytes, NoMemory};
use mon_store::{ReadFault, Store, read_file};
use std::alloc::{AllocError, AllocFailed, Global};

/// Why the reading of files ended.
#[derive(Drop)]
pub enum Stop {
    /// The file of this name is not what it is named for.
    Input(Bytes, InputFault),
    /// The store did not give the file of this name.
    Unread(Bytes),
    /// Memory ran out.
    Memory,
}

impl From<AllocError> for Stop {
    ghost from_gives = { λ _ e. e ≡ Memory };

    fn from(_error: AllocError) -> Stop {
        Stop::Memory
    }
}

impl<T: Drop> From<AllocFailed<T>> for Stop {
    ghost from_gives = { λ _ e. e ≡ Memory };

    fn from(_error: AllocFailed<T>) -> Stop {
        Stop::Memory
    }
}

impl From<NoMemory> for Stop {
    ghost from_gives = { λ _ e. e ≡ Memory };

    fn from(_error: NoMemory) -> Stop {
        Stop::Memory
    }
}

/// The text of a file that is not longer than the limit, in bytes.
pub fn text_of<S: Store>(
    alloc: Global,
    store: &mut S,
    name: &Bytes,
    limit: u64,
) -> Result<Bytes, Stop>
    ensures text { ReadsText (S.files store.old) (since (S.faults store.old) (S.faults store.new) (S.last store.new))
        name.now limit result }
    ensures files { S.files store.new ≡ S.files store.old }
    ensures faults { S.faults store.old ≤ S.faults store.new }
{
    match read_file(alloc, store, name, limit) {
        Ok(text) => Ok(text),
        Err(ReadFault::TooLong { len }) => {
            Err(Stop::Input(name.copy(alloc)?, InputFault::TooLong { len }))
        }
        Err(ReadFault::Absent) => Err(Stop::Unread(name.copy(alloc)?)),
        Err(ReadFault::Failed) => Err(Stop::Unread(name.copy(alloc)?)),
        Err(ReadFault::Memory) => Err(Stop::Memory),
    }
}
