//! Why files do not link.

ghost use Rattle.std.specs.Prelude.{◌≡◌};
ghost use Rattle.class_linking.specs.declared.fault.LinkFault.TheVariants.{Memory};

use insn_codec::CodeFault;
use mon_base::{Bytes, NoMemory};
use std::alloc::{AllocError, AllocFailed};
use thiserror::Error;

/// The first condition of linking that fails. Classes and members are named as the files name them; methods are
/// counted in their class from 0, and instructions in their code.
#[derive(Debug, Drop, Error)]
pub enum LinkFault {
    #[error("the main class has no static main([Ljava/lang/String;)V")]
    NoMain,
    #[error("a second class of one name")]
    Twice {
        class: Bytes,
    },
    #[error("a field, method or class that is not there, or is static where it may not be, or the reverse")]
    Unresolved {
        class: Bytes,
        name: Bytes,
    },
    #[error("a superclass or an interface that is left out, or a circle of superclasses")]
    SuperLeftOut {
        class: Bytes,
    },
    #[error("a text that contains conspec/State")]
    NameTaken {
        class: Bytes,
    },
    #[error("a method that is left out")]
    Method {
        class: Bytes,
        name: Bytes,
    },
    #[error("{count} class files")]
    TooMany {
        count: u64,
    },
    #[error("code that is refused")]
    Code {
        class: Bytes,
        method: u32,
        fault: CodeFault,
    },
    #[error("a method that overrides one of the library")]
    Overrides {
        class: Bytes,
        name: Bytes,
    },
    #[error("a class name that is none")]
    Name {
        class: Bytes,
    },
    #[error("an operand that its instruction does not take, or a handler that stands at no instruction")]
    Operand {
        class: Bytes,
        method: u32,
        at: u32,
    },
    #[error("memory ran out")]
    Memory,
}

impl From<AllocError> for LinkFault {
    ghost from_gives = { λ _ e. e ≡ Memory };

    fn from(_error: AllocError) -> LinkFault {
        LinkFault::Memory
    }
}

impl<T: Drop> From<AllocFailed<T>> for LinkFault {
    ghost from_gives = { λ _ e. e ≡ Memory };

    fn from(_error: AllocFailed<T>) -> LinkFault {
        LinkFault::Memory
    }
}

impl From<NoMemory> for LinkFault {
    ghost from_gives = { λ _ e. e ≡ Memory };

    fn from(_error: NoMemory) -> LinkFault {
        LinkFault::Memory
    }
}
