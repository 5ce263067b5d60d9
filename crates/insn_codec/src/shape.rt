//! The shapes of instructions.

ghost use Rattle.std.specs.Prelude.{◌≡◌};
ghost use Rattle.insn_codec.specs.Shapes.{shape_of, plain_shape, pushing_shape, storing_shape, moving_shape, number_shape, leaving_shape};
ghost use Rattle.insn_codec.specs.Shapes.{pool_shape, local_shape, branch_shape, test_shape, comparing_shape};

use crate::Insn;
use crate::forms::StackForm;
use crate::opcodes::*;

/// What a local or an operand holds.
#[derive(Clone, Copy)]
pub enum ValueKind {
    Int,
    /// A reference, also to an object that is not made yet.
    Reference,
}

/// What is made of two numbers. Each wraps at 32 bits; a distance counts by its low five bits.
#[derive(Clone, Copy)]
pub enum Two {
    Add,
    Subtract,
    Multiply,
    ShiftLeft,
    ShiftRight,
    ShiftRightUnsigned,
    And,
    Or,
    Xor,
}

/// What is made of one number.
#[derive(Clone, Copy)]
pub enum One {
    Negate,
    ToByte,
    ToChar,
    ToShort,
}

/// How two numbers, or a number and 0, are compared.
#[derive(Clone, Copy)]
pub enum Relation {
    Equal,
    NotEqual,
    Less,
    GreaterOrEqual,
    Greater,
    LessOrEqual,
}

/// What an array holds, as the instructions that read and write its items tell it.
#[derive(Clone, Copy)]
pub enum Item {
    Int,
    Reference,
    /// A byte or a boolean.
    Byte,
    Char,
    Short,
}

/// How a call finds its method. (The Java Virtual Machine Specification, section 6.5.)
#[derive(Clone, Copy)]
pub enum How {
    /// By the class of the receiver: `invokevirtual`.
    Virtual,
    /// The method itself, from the class of the code upwards: `invokespecial`.
    Special,
    /// Without a receiver: `invokestatic`.
    Static,
    /// By the class of the receiver, of which an interface is known: `invokeinterface`.
    Interface,
}

/// What an instruction does with more than its frame.
#[derive(Clone, Copy)]
pub enum Heap {
    /// Pushes the constant that it names.
    Constant,
    ReadItem(Item),
    WriteItem(Item),
    /// `idiv`, or `irem`.
    Divide { remainder: bool },
    ReadStatic,
    WriteStatic,
    ReadField,
    WriteField,
    /// Calls the method that it names.
    Call(How),
    New,
    /// `newarray`, by the type of its items.
    NewArray(u8),
    /// `anewarray`.
    NewArrayOf,
    Length,
    Throw,
    Cast,
    IsInstance,
    Enter,
    Exit,
    /// Leaves the frame, with a result where there is one.
    Return(Option<ValueKind>),
}

/// What an instruction does, with numbers alone. `to` is the index of the instruction that is jumped to.
#[derive(Clone, Copy)]
pub enum Shape {
    Nothing,
    Push(i32),
    PushNull,
    Load { kind: ValueKind, slot: u16 },
    Store { kind: ValueKind, slot: u16 },
    Move(StackForm),
    /// Makes one number of the two topmost.
    Two(Two),
    One(One),
    /// Adds to a local.
    Increment { slot: u16, by: i16 },
    /// Jumps where a number relates to 0.
    Test { relation: Relation, to: u32 },
    /// Jumps where the two topmost numbers relate.
    Compare { relation: Relation, to: u32 },
    /// Jumps where two references are, or are not, of one object.
    CompareReferences { same: bool, to: u32 },
    /// Jumps where a reference is, or is not, null.
    TestNull { null: bool, to: u32 },
    Goto { to: u32 },
    /// Jumps by a number: the targets stand in the instruction.
    Switch,
    /// Works on more than its frame.
    Heap(Heap),
}

/// What the instruction does. An opcode that no code has does nothing.
pub fn shape_of(insn: &Insn) -> Shape
    ensures { result ≡ shape_of insn.now }
{
    match insn {
        Insn::Plain(op) => plain_shape(*op),
        Insn::Byte(n) => Shape::Push(i32::from(*n)),
        Insn::Short(n) => Shape::Push(i32::from(*n)),
        Insn::Ldc(_) => Shape::Heap(Heap::Constant),
        Insn::Pool { op, .. } => pool_shape(*op),
        Insn::Iface { .. } => Shape::Heap(Heap::Call(How::Interface)),
        Insn::Local { op, slot, .. } => local_shape(*op, *slot),
        Insn::Inc { slot, by, .. } => Shape::Increment {
            slot: *slot,
            by: *by,
        },
        Insn::Branch { op, to } => branch_shape(*op, *to),
        Insn::GotoW { to } => Shape::Goto { to: *to },
        Insn::NewArray(item) => Shape::Heap(Heap::NewArray(*item)),
        Insn::Table { .. } | Insn::Lookup { .. } => Shape::Switch,
    }
}

/// The shape of an opcode without operands.
fn plain_shape(op: u8) -> Shape
    ensures { result ≡ plain_shape op }
{
    if op < IALOAD {
        return pushing_shape(op);
    }
    if op < POP {
        return storing_shape(op);
    }
    if op < IADD {
        return moving_shape(op);
    }
    if op < IFEQ {
        return number_shape(op);
    }
    leaving_shape(op)
}

/// The opcodes that push, up to `aload_3`.
fn pushing_shape(op: u8) -> Shape
    ensures { result ≡ pushing_shape op }
{
    match op {
        ACONST_NULL => Shape::PushNull,
        ICONST_M1..=ICONST_5 => Shape::Push(i32::from(op) - i32::from(ICONST_0)),
        ILOAD_0..=ILOAD_3 => Shape::Load {
            kind: ValueKind::Int,
            slot: u16::from(op - ILOAD_0),
        },
        ALOAD_0..=ALOAD_3 => Shape::Load {
            kind: ValueKind::Reference,
            slot: u16::from(op - ALOAD_0),
        },
        _ => Shape::Nothing,
    }
}

/// The opcodes that read an array, store into a local, or write an array.
fn storing_shape(op: u8) -> Shape
    ensures { result ≡ storing_shape op }
{
    match op {
        IALOAD => Shape::Heap(Heap::ReadItem(Item::Int)),
        AALOAD => Shape::Heap(Heap::ReadItem(Item::Reference)),
        BALOAD => Shape::Heap(Heap::ReadItem(Item::Byte)),
        CALOAD => Shape::Heap(Heap::ReadItem(Item::Char)),
        SALOAD => Shape::Heap(Heap::ReadItem(Item::Short)),
        ISTORE_0..=ISTORE_3 => Shape::Store {
            kind: ValueKind::Int,
            slot: u16::from(op - ISTORE_0),
        },
        ASTORE_0..=ASTORE_3 => Shape::Store {
            kind: ValueKind::Reference,
            slot: u16::from(op - ASTORE_0),
        },
        IASTORE => Shape::Heap(Heap::WriteItem(Item::Int)),
        AASTORE => Shape::Heap(Heap::WriteItem(Item::Reference)),
        BASTORE => Shape::Heap(Heap::WriteItem(Item::Byte)),
        CASTORE => Shape::Heap(Heap::WriteItem(Item::Char)),
        SASTORE => Shape::Heap(Heap::WriteItem(Item::Short)),
        _ => Shape::Nothing,
    }
}

/// The opcodes that move operands.
fn moving_shape(op: u8) -> Shape
    ensures { result ≡ moving_shape op }
{
    match op {
        POP => Shape::Move(StackForm::Pop),
        POP2 => Shape::Move(StackForm::Pop2),
        DUP => Shape::Move(StackForm::Dup),
        DUP_X1 => Shape::Move(StackForm::DupX1),
        DUP_X2 => Shape::Move(StackForm::DupX2),
        DUP2 => Shape::Move(StackForm::Dup2),
        DUP2_X1 => Shape::Move(StackForm::Dup2X1),
        DUP2_X2 => Shape::Move(StackForm::Dup2X2),
        SWAP => Shape::Move(StackForm::Swap),
        _ => Shape::Nothing,
    }
}

/// The opcodes that make numbers of numbers.
fn number_shape(op: u8) -> Shape
    ensures { result ≡ number_shape op }
{
    match op {
        IADD => Shape::Two(Two::Add),
        ISUB => Shape::Two(Two::Subtract),
        IMUL => Shape::Two(Two::Multiply),
        IDIV => Shape::Heap(Heap::Divide { remainder: false }),
        IREM => Shape::Heap(Heap::Divide { remainder: true }),
        INEG => Shape::One(One::Negate),
        ISHL => Shape::Two(Two::ShiftLeft),
        ISHR => Shape::Two(Two::ShiftRight),
        IUSHR => Shape::Two(Two::ShiftRightUnsigned),
        IAND => Shape::Two(Two::And),
        IOR => Shape::Two(Two::Or),
        IXOR => Shape::Two(Two::Xor),
        I2B => Shape::One(One::ToByte),
        I2C => Shape::One(One::ToChar),
        I2S => Shape::One(One::ToShort),
        _ => Shape::Nothing,
    }
}

/// The opcodes from `ireturn` on.
fn leaving_shape(op: u8) -> Shape
    ensures { result ≡ leaving_shape op }
{
    match op {
        IRETURN => Shape::Heap(Heap::Return(Some(ValueKind::Int))),
        ARETURN => Shape::Heap(Heap::Return(Some(ValueKind::Reference))),
        RETURN => Shape::Heap(Heap::Return(None)),
        ARRAYLENGTH => Shape::Heap(Heap::Length),
        ATHROW => Shape::Heap(Heap::Throw),
        MONITORENTER => Shape::Heap(Heap::Enter),
        MONITOREXIT => Shape::Heap(Heap::Exit),
        _ => Shape::Nothing,
    }
}

/// The opcodes that name a constant by two bytes.
fn pool_shape(op: u8) -> Shape
    ensures { result ≡ pool_shape op }
{
    match op {
        LDC_W => Shape::Heap(Heap::Constant),
        GETSTATIC => Shape::Heap(Heap::ReadStatic),
        PUTSTATIC => Shape::Heap(Heap::WriteStatic),
        GETFIELD => Shape::Heap(Heap::ReadField),
        PUTFIELD => Shape::Heap(Heap::WriteField),
        INVOKEVIRTUAL => Shape::Heap(Heap::Call(How::Virtual)),
        INVOKESPECIAL => Shape::Heap(Heap::Call(How::Special)),
        INVOKESTATIC => Shape::Heap(Heap::Call(How::Static)),
        NEW => Shape::Heap(Heap::New),
        ANEWARRAY => Shape::Heap(Heap::NewArrayOf),
        CHECKCAST => Shape::Heap(Heap::Cast),
        INSTANCEOF => Shape::Heap(Heap::IsInstance),
        _ => Shape::Nothing,
    }
}

/// The loads and stores that name their local.
fn local_shape(op: u8, slot: u16) -> Shape
    ensures { result ≡ local_shape op slot }
{
    match op {
        ILOAD => Shape::Load {
            kind: ValueKind::Int,
            slot,
        },
        ALOAD => Shape::Load {
            kind: ValueKind::Reference,
            slot,
        },
        ISTORE => Shape::Store {
            kind: ValueKind::Int,
            slot,
        },
        ASTORE => Shape::Store {
            kind: ValueKind::Reference,
            slot,
        },
        _ => Shape::Nothing,
    }
}

/// The jumps with an offset of two bytes.
fn branch_shape(op: u8, to: u32) -> Shape
    ensures { result ≡ branch_shape op to }
{
    if op < IF_ICMPEQ {
        test_shape(op, to)
    } else {
        comparing_shape(op, to)
    }
}

/// `ifeq` to `ifle`.
fn test_shape(op: u8, to: u32) -> Shape
    ensures { result ≡ test_shape op to }
{
    match op {
        IFEQ => Shape::Test {
            relation: Relation::Equal,
            to,
        },
        IFNE => Shape::Test {
            relation: Relation::NotEqual,
            to,
        },
        IFLT => Shape::Test {
            relation: Relation::Less,
            to,
        },
        IFGE => Shape::Test {
            relation: Relation::GreaterOrEqual,
            to,
        },
        IFGT => Shape::Test {
            relation: Relation::Greater,
            to,
        },
        IFLE => Shape::Test {
            relation: Relation::LessOrEqual,
            to,
        },
        _ => Shape::Nothing,
    }
}

/// The jumps from `if_icmpeq` on.
fn comparing_shape(op: u8, to: u32) -> Shape
    ensures { result ≡ comparing_shape op to }
{
    match op {
        IF_ICMPEQ => Shape::Compare {
            relation: Relation::Equal,
            to,
        },
        IF_ICMPNE => Shape::Compare {
            relation: Relation::NotEqual,
            to,
        },
        IF_ICMPLT => Shape::Compare {
            relation: Relation::Less,
            to,
        },
        IF_ICMPGE => Shape::Compare {
            relation: Relation::GreaterOrEqual,
            to,
        },
        IF_ICMPGT => Shape::Compare {
            relation: Relation::Greater,
            to,
        },
        IF_ICMPLE => Shape::Compare {
            relation: Relation::LessOrEqual,
            to,
        },
        IF_ACMPEQ => Shape::CompareReferences { same: true, to },
        IF_ACMPNE => Shape::CompareReferences { same: false, to },
        GOTO => Shape::Goto { to },
        IFNULL => Shape::TestNull { null: true, to },
        IFNONNULL => Shape::TestNull { null: false, to },
        _ => Shape::Nothing,
    }
}
