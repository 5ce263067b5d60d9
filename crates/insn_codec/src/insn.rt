//! The instructions of a code.

ghost use Rattle.std.specs.Prelude.{◌≡◌};
ghost use Rattle.insn_codec.specs.Encoding.{opcode_of};

use crate::opcodes::{
    BIPUSH, GOTO_W, IINC, INVOKEINTERFACE, LDC, LOOKUPSWITCH, NEWARRAY, SIPUSH, TABLESWITCH,
};
use mon_base::BoxedList;

/// An instruction. Targets are indices into the code's list of instructions.
///
/// Each form in which an instruction stands in the bytes is its own value: `Local` with `wide` stands after the opcode
/// `wide`, and so does `Inc`.
#[derive(Drop)]
pub enum Insn {
    /// An opcode alone.
    Plain(u8),
    /// `bipush`.
    Byte(i8),
    /// `sipush`.
    Short(i16),
    /// `ldc`, by an index into the constant pool.
    Ldc(u8),
    /// An opcode and an index into the constant pool.
    Pool {
        op: u8,
        index: u16,
    },
    /// `invokeinterface`, by an index into the constant pool and a count of argument words.
    Iface {
        index: u16,
        count: u8,
    },
    /// A load or store of a local variable.
    Local {
        op: u8,
        slot: u16,
        wide: bool,
    },
    /// `iinc`: adds to a local variable.
    Inc {
        slot: u16,
        by: i16,
        wide: bool,
    },
    /// A jump, with an offset of two bytes.
    Branch {
        op: u8,
        to: u32,
    },
    /// `goto_w`.
    GotoW {
        to: u32,
    },
    /// `newarray`, by the type of its items.
    NewArray(u8),
    /// `tableswitch`: `targets` are those of the numbers from `low` on, `other` is that of all others.
    Table {
        other: u32,
        low: i32,
        targets: BoxedList<u32>,
    },
    /// `lookupswitch`: the keys ascend, and each has its target; `other` is that of all other numbers.
    Lookup {
        other: u32,
        keys: BoxedList<i32>,
        targets: BoxedList<u32>,
    },
}

impl Insn {
    /// The opcode. Of an instruction after `wide` it is that which follows.
    pub fn opcode(&self) -> u8
        ensures { result ≡ opcode_of self.now }
    {
        match self {
            Insn::Plain(op) => *op,
            Insn::Byte(_) => BIPUSH,
            Insn::Short(_) => SIPUSH,
            Insn::Ldc(_) => LDC,
            Insn::Pool { op, .. } => *op,
            Insn::Iface { .. } => INVOKEINTERFACE,
            Insn::Local { op, .. } => *op,
            Insn::Inc { .. } => IINC,
            Insn::Branch { op, .. } => *op,
            Insn::GotoW { .. } => GOTO_W,
            Insn::NewArray(_) => NEWARRAY,
            Insn::Table { .. } => TABLESWITCH,
            Insn::Lookup { .. } => LOOKUPSWITCH,
        }
    }
}

/// A key of a `lookupswitch` and its target.
#[derive(Clone, Copy)]
pub struct Case {
    pub key: i32,
    pub to: u32,
}
