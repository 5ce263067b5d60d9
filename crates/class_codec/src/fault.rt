//! Why bytes are no class file of version 49.

ghost use Rattle.std.specs.Prelude.{◌≡◌};
ghost use Rattle.class_codec.specs.declared.fault.ClassFault.TheVariants.{Memory};

use mon_base::NoMemory;
use std::alloc::{AllocError, AllocFailed};
use thiserror::Error;

/// What is wrong with the bytes, the first in the order of reading. `at` counts the bytes of the file before it.
#[derive(Clone, Copy, Debug, Error)]
pub enum ClassFault {
    /// The file does not begin with 0xCAFEBABE.
    #[error("no class file")]
    Magic,
    /// The major version is another than 49.
    #[error("class file of version {major}")]
    Version { major: u16 },
    /// The number or the byte string that begins here is not whole, in the file or in its Code attribute.
    #[error("cut short at {at}")]
    Short { at: u64 },
    /// Bytes are left over from here on, in the file or in a Code attribute.
    #[error("left over from {at}")]
    Tail { at: u64 },
    /// A constant has a tag that no constant has.
    #[error("tag {tag} at {at}")]
    Tag { at: u64, tag: u8 },
    /// An index is out of the constant pool or names a constant of the wrong kind; or a byte of a string, or the
    /// length of a method's code, is none that may stand there.
    #[error("wrong index at {at}")]
    Index { at: u64 },
    /// The file has more than 1,048,576 bytes.
    #[error("{len} bytes are too long")]
    TooLong { len: u64 },
    /// Memory ran out.
    #[error("out of memory")]
    Memory,
}

impl From<NoMemory> for ClassFault {
    ghost from_gives = { λ _ e. e ≡ Memory };

    fn from(_error: NoMemory) -> ClassFault {
        ClassFault::Memory
    }
}

impl From<AllocError> for ClassFault {
    ghost from_gives = { λ _ e. e ≡ Memory };

    fn from(_error: AllocError) -> ClassFault {
        ClassFault::Memory
    }
}

impl<T: Drop> From<AllocFailed<T>> for ClassFault {
    ghost from_gives = { λ _ e. e ≡ Memory };

    fn from(_error: AllocFailed<T>) -> ClassFault {
        ClassFault::Memory
    }
}
