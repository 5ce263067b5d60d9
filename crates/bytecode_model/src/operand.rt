//! How an instruction uses the constant that it names. (The Java Virtual Machine Specification, section 6.5.)

ghost use Rattle.std.specs.Prelude.{◌≡◌};
ghost use Rattle.bytecode_model.specs.Operands.{index_of, use_of, use_of_opcode};

use insn_codec::Insn;
use insn_codec::opcodes::{
    ANEWARRAY, CHECKCAST, GETFIELD, GETSTATIC, INSTANCEOF, INVOKESPECIAL, INVOKESTATIC,
    INVOKEVIRTUAL, LDC_W, NEW, PUTFIELD, PUTSTATIC,
};

/// How an instruction uses a constant.
#[derive(Clone, Copy, PartialEq, Eq)]
pub enum Use {
    /// It names none.
    Nothing,
    /// It pushes a number, a string or a class.
    Load,
    /// It reads or writes a field.
    Field { is_static: bool, writes: bool },
    /// It calls a method of a class, or of an interface.
    Call { is_static: bool, of_interface: bool },
    /// It makes an object of a class.
    New,
    /// It names a class or an array type.
    Type,
}

/// The index of the constant that the instruction names, or 0, which names none.
pub fn index_of(insn: &Insn) -> u16
    ensures { result ≡ index_of insn.now }
{
    match insn {
        Insn::Ldc(index) => u16::from(*index),
        Insn::Iface { index, .. } => *index,
        Insn::Pool { index, .. } => *index,
        _ => 0,
    }
}

/// How the instruction uses the constant that it names.
pub fn use_of(insn: &Insn) -> Use
    ensures { result ≡ use_of insn.now }
{
    match insn {
        Insn::Ldc(_) => Use::Load,
        Insn::Iface { .. } => Use::Call {
            is_static: false,
            of_interface: true,
        },
        Insn::Pool { op, .. } => use_of_opcode(*op),
        _ => Use::Nothing,
    }
}

fn use_of_opcode(op: u8) -> Use
    ensures { result ≡ use_of_opcode op }
{
    match op {
        LDC_W => Use::Load,
        GETSTATIC => Use::Field {
            is_static: true,
            writes: false,
        },
        PUTSTATIC => Use::Field {
            is_static: true,
            writes: true,
        },
        GETFIELD => Use::Field {
            is_static: false,
            writes: false,
        },
        PUTFIELD => Use::Field {
            is_static: false,
            writes: true,
        },
        INVOKEVIRTUAL | INVOKESPECIAL => Use::Call {
            is_static: false,
            of_interface: false,
        },
        INVOKESTATIC => Use::Call {
            is_static: true,
            of_interface: false,
        },
        NEW => Use::New,
        ANEWARRAY | CHECKCAST | INSTANCEOF => Use::Type,
        _ => Use::Nothing,
    }
}
