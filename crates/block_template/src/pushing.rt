//! The instructions by which blocks push and store, each in its shortest form.

ghost use Rattle.std.specs.Prelude.{◌≡◌, ◌<◌};
ghost use Rattle.block_template.specs.Pushing.{bools_in, field, load, local, negated, push, push_base, store};
ghost use Rattle.block_template.specs.Room.{HasLocal};

use conspec_tree::{Base, Kind, Rel, Var, is_number};
use insn_codec::opcodes::{
    ALOAD, ALOAD_0, ASTORE, ASTORE_0, GETSTATIC, ICONST_0, ICONST_1, ICONST_2, ICONST_3, ICONST_4,
    ICONST_5, ICONST_M1, IF_ICMPEQ, IF_ICMPGE, IF_ICMPGT, IF_ICMPLE, IF_ICMPLT, IF_ICMPNE, ILOAD,
    ILOAD_0, ISTORE, ISTORE_0, LDC_W,
};
use offset_patch::{BlockInsn, PoolWant};

/// `istore`, and `astore` for a class or an array.
pub fn store(kind: Kind, slot: u16) -> BlockInsn
    ensures { result ≡ store kind slot }
{
    if is_number(kind) {
        local(ISTORE_0, ISTORE, slot)
    } else {
        local(ASTORE_0, ASTORE, slot)
    }
}

/// `iload`, and `aload` for a class or an array.
pub fn load(kind: Kind, slot: u16) -> BlockInsn
    ensures { result ≡ load kind slot }
{
    if is_number(kind) {
        local(ILOAD_0, ILOAD, slot)
    } else {
        local(ALOAD_0, ALOAD, slot)
    }
}

/// The shortest form of a load or a store.
fn local(short: u8, op: u8, slot: u16) -> BlockInsn
    requires { short < 250 }
    ensures { result ≡ local short op slot }
{
    if slot < 4 {
        BlockInsn::Plain(short + slot as u8)
    } else {
        BlockInsn::Local {
            op,
            slot,
            wide: slot >= 256,
        }
    }
}

/// The shortest instruction that pushes the number.
pub fn push(n: i32) -> BlockInsn
    ensures { result ≡ push n }
{
    match n {
        -1 => BlockInsn::Plain(ICONST_M1),
        0 => BlockInsn::Plain(ICONST_0),
        1 => BlockInsn::Plain(ICONST_1),
        2 => BlockInsn::Plain(ICONST_2),
        3 => BlockInsn::Plain(ICONST_3),
        4 => BlockInsn::Plain(ICONST_4),
        5 => BlockInsn::Plain(ICONST_5),
        -128..=127 => BlockInsn::Byte(n as i8),
        -32768..=32767 => BlockInsn::Short(n as i16),
        _ => BlockInsn::Want {
            op: LDC_W,
            want: PoolWant::Integer(n),
        },
    }
}

/// The field of the variable of this index.
pub fn field(vars: &[Var], var: u32) -> PoolWant
    ensures { result ≡ field (bools_in vars.now) var }
{
    let is_bool = match vars.get(var as usize) {
        Some(found) => found.is_bool,
        None => false,
    };
    PoolWant::StateField { var, is_bool }
}

/// What pushes the base of an atom. Arguments stand in locals from `base` on, and a result in `base`.
pub fn push_base(vars: &[Var], base: u16, asked: Base) -> BlockInsn
    requires { HasLocal base asked }
    ensures { result ≡ push_base (bools_in vars.now) base asked }
{
    match asked {
        Base::Var(var) => BlockInsn::Want {
            op: GETSTATIC,
            want: field(vars, var),
        },
        Base::Arg(i) => local(ILOAD_0, ILOAD, base + i as u16),
        Base::Result => local(ILOAD_0, ILOAD, base),
    }
}

/// The jump that is taken where the relation does not hold.
pub fn negated(rel: Rel) -> u8
    ensures { result ≡ negated rel }
{
    match rel {
        Rel::Eq => IF_ICMPNE,
        Rel::Ne => IF_ICMPEQ,
        Rel::Lt => IF_ICMPGE,
        Rel::Le => IF_ICMPGT,
        Rel::Gt => IF_ICMPLE,
        Rel::Ge => IF_ICMPLT,
    }
}
