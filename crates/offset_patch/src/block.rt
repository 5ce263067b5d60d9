//! What is put into the code of a method.

use mon_base::List;

/// An entry of the constant pool that a block names.
#[derive(Clone, Copy, PartialEq, Eq, PartialOrd, Ord)]
pub enum PoolWant {
    /// The class `conspec/State`.
    StateClass,
    /// The field of `conspec/State` that holds the variable of this index.
    StateField { var: u32, is_bool: bool },
    /// The method `java/lang/System.exit (I)V`.
    Exit,
    /// A number that no shorter instruction pushes.
    Integer(i32),
}

/// An instruction of a block.
#[derive(Clone, Copy)]
pub enum BlockInsn {
    /// An opcode alone.
    Plain(u8),
    /// `bipush`.
    Byte(i8),
    /// `sipush`.
    Short(i16),
    /// A load or store of a local variable.
    Local { op: u8, slot: u16, wide: bool },
    /// An opcode and the index of an entry of the constant pool.
    Want { op: u8, want: PoolWant },
    /// A jump to an instruction of the block, by its place; the block's length is what stands after it.
    Jump { op: u8, place: u32 },
    /// The client's instruction for which the block stands.
    Call,
}

/// A block. It stands in the place of a client's instruction.
#[derive(Drop)]
pub struct Block {
    pub insns: List<BlockInsn>,
    /// Where in the block what the client's instruction throws is caught, if it is.
    pub handler: Option<u32>,
}
