//! Why bytes are no code, and why a list of instructions cannot be written.

ghost use Rattle.std.specs.Prelude.{◌≡◌};
ghost use Rattle.insn_codec.specs.declared.fault.CodeFault.TheVariants.{Memory};
ghost use Rattle.insn_codec.specs.declared.fault.CodeOverflow.TheVariants as overflows;

use mon_base::NoMemory;
use std::alloc::{AllocError, AllocFailed};
use thiserror::Error;

/// What is wrong with the bytes of a code. `at` counts the bytes before the instruction.
///
/// `Opcode`, `Cut`, `LeftOut` and `Form` are the first in the order of reading. `Target` comes only where there is
/// none of these, and `End` only where there is no `Target` either.
#[derive(Clone, Copy, Debug, Error)]
pub enum CodeFault {
    /// The opcode stands in no code of version 49.
    #[error("opcode {op} at {at}")]
    Opcode { at: u64, op: u8 },
    /// The instruction is not whole.
    #[error("cut short at {at}")]
    Cut { at: u64 },
    /// No instruction begins at a target of this one.
    #[error("wrong target at {at}")]
    Target { at: u64 },
    /// The instruction is left out of this subset.
    #[error("opcode {op} at {at} is left out")]
    LeftOut { at: u64, op: u8 },
    /// The operands are none of the instruction.
    #[error("wrong operands at {at}")]
    Form { at: u64 },
    /// Control can go on past this instruction, which is the last.
    #[error("the code does not end at {at}")]
    End { at: u64 },
    /// Memory ran out.
    #[error("out of memory")]
    Memory,
}

impl From<NoMemory> for CodeFault {
    ghost from_gives = { λ _ e. e ≡ Memory };

    fn from(_error: NoMemory) -> CodeFault {
        CodeFault::Memory
    }
}

impl From<AllocError> for CodeFault {
    ghost from_gives = { λ _ e. e ≡ Memory };

    fn from(_error: AllocError) -> CodeFault {
        CodeFault::Memory
    }
}

impl<T: Drop> From<AllocFailed<T>> for CodeFault {
    ghost from_gives = { λ _ e. e ≡ Memory };

    fn from(_error: AllocFailed<T>) -> CodeFault {
        CodeFault::Memory
    }
}

/// Why instructions cannot be written as the code of a method.
#[derive(Clone, Copy, Debug, Error)]
pub enum CodeOverflow {
    /// The code has this many bytes, more than 65,535.
    #[error("{value} bytes of code")]
    Length { value: u64 },
    /// A branch has this offset, which two bytes do not hold.
    #[error("a branch over {value} bytes")]
    Branch { value: i64 },
    /// Memory ran out.
    #[error("out of memory")]
    Memory,
}

impl From<NoMemory> for CodeOverflow {
    ghost from_gives = { λ _ e. e ≡ overflows.Memory };

    fn from(_error: NoMemory) -> CodeOverflow {
        CodeOverflow::Memory
    }
}

impl From<AllocError> for CodeOverflow {
    ghost from_gives = { λ _ e. e ≡ overflows.Memory };

    fn from(_error: AllocError) -> CodeOverflow {
        CodeOverflow::Memory
    }
}
