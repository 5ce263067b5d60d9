//! The opcodes. (The Java Virtual Machine Specification, chapter 6.)

ghost use Rattle.std.specs.Prelude.{◌≡◌, ◌<◌};
ghost use Rattle.insn_codec.specs.Opcodes.{operands_of, is_frame_only, goes_on};

use Operands::*;

/// What follows an opcode, and whether it may stand in the code at all.
#[derive(Clone, Copy)]
pub enum Operands {
    /// Nothing.
    Plain,
    /// A number with a sign, of one byte.
    Byte,
    /// A number with a sign, of two bytes.
    Short,
    /// An index of one byte into the constant pool.
    Ldc,
    /// An index of two bytes into the constant pool.
    Pool,
    /// The number of a local variable, of one byte.
    Local,
    /// The number of a local variable and what is added to it, of one byte each.
    Inc,
    /// An offset of two bytes.
    Branch,
    /// An offset of four bytes.
    GotoW,
    /// Padding, an offset, two numbers and as many offsets as they say.
    Table,
    /// Padding, an offset, a count and that many pairs of a key and an offset.
    Lookup,
    /// An index into the constant pool, a count and a zero.
    Iface,
    /// The type of an array's items.
    NewArray,
    /// Another opcode, with operands of twice the size.
    Wide,
    /// The opcode stands in no code of this subset.
    LeftOut,
    /// The opcode stands in no code.
    Unknown,
}

/// For each opcode: its operands, whether it works on its frame alone, and whether control can go on to the
/// instruction after it.
static OPCODES: [(Operands, bool, bool); 202] = [
    (Plain, true, true), // nop
    (Plain, true, true), // aconst_null
    (Plain, true, true), // iconst_m1
    (Plain, true, true), // iconst_0
    (Plain, true, true), // iconst_1
    (Plain, true, true), // iconst_2
    (Plain, true, true), // iconst_3
    (Plain, true, true), // iconst_4
    (Plain, true, true), // iconst_5
    (LeftOut, false, true), // lconst_0
    (LeftOut, false, true), // lconst_1
    (LeftOut, false, true), // fconst_0
    (LeftOut, false, true), // fconst_1
    (LeftOut, false, true), // fconst_2
    (LeftOut, false, true), // dconst_0
    (LeftOut, false, true), // dconst_1
    (Byte, true, true), // bipush
    (Short, true, true), // sipush
    (Ldc, false, true), // ldc
    (Pool, false, true), // ldc_w
    (LeftOut, false, true), // ldc2_w
    (Local, true, true), // iload
    (LeftOut, false, true), // lload
    (LeftOut, false, true), // fload
    (LeftOut, false, true), // dload
    (Local, true, true), // aload
    (Plain, true, true), // iload_0
    (Plain, true, true), // iload_1
    (Plain, true, true), // iload_2
    (Plain, true, true), // iload_3
    (LeftOut, false, true), // lload_0
    (LeftOut, false, true), // lload_1
    (LeftOut, false, true), // lload_2
    (LeftOut, false, true), // lload_3
    (LeftOut, false, true), // fload_0
    (LeftOut, false, true), // fload_1
    (LeftOut, false, true), // fload_2
    (LeftOut, false, true), // fload_3
    (LeftOut, false, true), // dload_0
    (LeftOut, false, true), // dload_1
    (LeftOut, false, true), // dload_2
    (LeftOut, false, true), // dload_3
    (Plain, true, true), // aload_0
    (Plain, true, true), // aload_1
    (Plain, true, true), // aload_2
    (Plain, true, true), // aload_3
    (Plain, false, true), // iaload
    (LeftOut, false, true), // laload
    (LeftOut, false, true), // faload
    (LeftOut, false, true), // daload
    (Plain, false, true), // aaload
    (Plain, false, true), // baload
    (Plain, false, true), // caload
    (Plain, false, true), // saload
    (Local, true, true), // istore
    (LeftOut, false, true), // lstore
    (LeftOut, false, true), // fstore
    (LeftOut, false, true), // dstore
    (Local, true, true), // astore
    (Plain, true, true), // istore_0
    (Plain, true, true), // istore_1
    (Plain, true, true), // istore_2
    (Plain, true, true), // istore_3
    (LeftOut, false, true), // lstore_0
    (LeftOut, false, true), // lstore_1
    (LeftOut, false, true), // lstore_2
    (LeftOut, false, true), // lstore_3
    (LeftOut, false, true), // fstore_0
    (LeftOut, false, true), // fstore_1
    (LeftOut, false, true), // fstore_2
    (LeftOut, false, true), // fstore_3
    (LeftOut, false, true), // dstore_0
    (LeftOut, false, true), // dstore_1
    (LeftOut, false, true), // dstore_2
    (LeftOut, false, true), // dstore_3
    (Plain, true, true), // astore_0
    (Plain, true, true), // astore_1
    (Plain, true, true), // astore_2
    (Plain, true, true), // astore_3
    (Plain, false, true), // iastore
    (LeftOut, false, true), // lastore
    (LeftOut, false, true), // fastore
    (LeftOut, false, true), // dastore
    (Plain, false, true), // aastore
    (Plain, false, true), // bastore
    (Plain, false, true), // castore
    (Plain, false, true), // sastore
    (Plain, true, true), // pop
    (Plain, true, true), // pop2
    (Plain, true, true), // dup
    (Plain, true, true), // dup_x1
    (Plain, true, true), // dup_x2
    (Plain, true, true), // dup2
    (Plain, true, true), // dup2_x1
    (Plain, true, true), // dup2_x2
    (Plain, true, true), // swap
    (Plain, true, true), // iadd
    (LeftOut, false, true), // ladd
    (LeftOut, false, true), // fadd
    (LeftOut, false, true), // dadd
    (Plain, true, true), // isub
    (LeftOut, false, true), // lsub
    (LeftOut, false, true), // fsub
    (LeftOut, false, true), // dsub
    (Plain, true, true), // imul
    (LeftOut, false, true), // lmul
    (LeftOut, false, true), // fmul
    (LeftOut, false, true), // dmul
    (Plain, false, true), // idiv
    (LeftOut, false, true), // ldiv
    (LeftOut, false, true), // fdiv
    (LeftOut, false, true), // ddiv
    (Plain, false, true), // irem
    (LeftOut, false, true), // lrem
    (LeftOut, false, true), // frem
    (LeftOut, false, true), // drem
    (Plain, true, true), // ineg
    (LeftOut, false, true), // lneg
    (LeftOut, false, true), // fneg
    (LeftOut, false, true), // dneg
    (Plain, true, true), // ishl
    (LeftOut, false, true), // lshl
    (Plain, true, true), // ishr
    (LeftOut, false, true), // lshr
    (Plain, true, true), // iushr
    (LeftOut, false, true), // lushr
    (Plain, true, true), // iand
    (LeftOut, false, true), // land
    (Plain, true, true), // ior
    (LeftOut, false, true), // lor
    (Plain, true, true), // ixor
    (LeftOut, false, true), // lxor
    (Inc, true, true), // iinc
    (LeftOut, false, true), // i2l
    (LeftOut, false, true), // i2f
    (LeftOut, false, true), // i2d
    (LeftOut, false, true), // l2i
    (LeftOut, false, true), // l2f
    (LeftOut, false, true), // l2d
    (LeftOut, false, true), // f2i
    (LeftOut, false, true), // f2l
    (LeftOut, false, true), // f2d
    (LeftOut, false, true), // d2i
    (LeftOut, false, true), // d2l
    (LeftOut, false, true), // d2f
    (Plain, true, true), // i2b
    (Plain, true, true), // i2c
    (Plain, true, true), // i2s
    (LeftOut, false, true), // lcmp
    (LeftOut, false, true), // fcmpl
    (LeftOut, false, true), // fcmpg
    (LeftOut, false, true), // dcmpl
    (LeftOut, false, true), // dcmpg
    (Branch, true, true), // ifeq
    (Branch, true, true), // ifne
    (Branch, true, true), // iflt
    (Branch, true, true), // ifge
    (Branch, true, true), // ifgt
    (Branch, true, true), // ifle
    (Branch, true, true), // if_icmpeq
    (Branch, true, true), // if_icmpne
    (Branch, true, true), // if_icmplt
    (Branch, true, true), // if_icmpge
    (Branch, true, true), // if_icmpgt
    (Branch, true, true), // if_icmple
    (Branch, true, true), // if_acmpeq
    (Branch, true, true), // if_acmpne
    (Branch, true, false), // goto
    (LeftOut, false, true), // jsr
    (LeftOut, false, true), // ret
    (Table, true, false), // tableswitch
    (Lookup, true, false), // lookupswitch
    (Plain, false, false), // ireturn
    (LeftOut, false, true), // lreturn
    (LeftOut, false, true), // freturn
    (LeftOut, false, true), // dreturn
    (Plain, false, false), // areturn
    (Plain, false, false), // return
    (Pool, false, true), // getstatic
    (Pool, false, true), // putstatic
    (Pool, false, true), // getfield
    (Pool, false, true), // putfield
    (Pool, false, true), // invokevirtual
    (Pool, false, true), // invokespecial
    (Pool, false, true), // invokestatic
    (Iface, false, true), // invokeinterface
    (Unknown, false, true), // xxxunusedxxx
    (Pool, false, true), // new
    (NewArray, false, true), // newarray
    (Pool, false, true), // anewarray
    (Plain, false, true), // arraylength
    (Plain, false, false), // athrow
    (Pool, false, true), // checkcast
    (Pool, false, true), // instanceof
    (Plain, false, true), // monitorenter
    (Plain, false, true), // monitorexit
    (Wide, true, true), // wide
    (LeftOut, false, true), // multianewarray
    (Branch, true, true), // ifnull
    (Branch, true, true), // ifnonnull
    (GotoW, true, false), // goto_w
    (LeftOut, false, true), // jsr_w
];

/// The row of an opcode below 202.
fn row(op: u8) -> (Operands, bool, bool)
    requires { op < 202 }
    ensures operands { result.0 ≡ operands_of op }
    ensures frame_only { result.1 ≡ is_frame_only op }
    ensures goes_on { result.2 ≡ goes_on op }
{
    OPCODES[op as usize]
}

/// What follows the opcode.
pub fn operands_of(op: u8) -> Operands
    ensures { result ≡ operands_of op }
{
    if op >= 202 {
        return Unknown;
    }
    row(op).0
}

/// Whether the instruction works on its frame alone.
pub fn is_frame_only(op: u8) -> bool
    ensures { result ≡ is_frame_only op }
{
    if op >= 202 {
        return false;
    }
    row(op).1
}

/// Whether control can go on to the instruction after it.
pub fn goes_on(op: u8) -> bool
    ensures { result ≡ goes_on op }
{
    if op >= 202 {
        return true;
    }
    row(op).2
}
