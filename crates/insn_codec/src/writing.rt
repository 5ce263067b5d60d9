//! Writing instructions. (The Java Virtual Machine Specification, section 6.5.)

ghost use Rattle.std.specs.Prelude.{◌≡◌, ◌<◌, ◌≤◌, ◌^◌, ℕ, ◌-ℤ◌, ◌+ℤ◌, ◌≤ℤ◌, pos, OnOk, IfOk, Ok, Err};
ghost use Rattle.std.specs.Prelude.{List, [], ◌++◌, length, slice_index, replicate};
ghost use Rattle.std.specs.List.{flat_map, AllByRecursion};
ghost use Rattle.mon_base.specs.Widths.{u1, u2, u4};
ghost use Rattle.insn_codec.specs.Encoding.{i2, i4, offset, padding, case, cases, bytes_of, bytes_from};
ghost use Rattle.insn_codec.specs.Encoding.{range, keyed, len_from, size, starts_of, encoding};
ghost use Rattle.insn_codec.specs.Fits.{FitsSlot, FitsBy, FitsTable, FitsLookup, IsInsn, EncodesCode};
ghost use Rattle.insn_codec.specs.declared.insn.Insn.TheVariants.{Local, Inc, Table, Lookup};
ghost use Rattle.mon_base.specs.Answer.{Answers};
ghost use Rattle.insn_codec.specs.Writing.{near, far, all_far, reach, reach_from, written, Puts};
ghost use Rattle.insn_codec.specs.declared.fault.CodeOverflow.TheVariants.{Length};
ghost use Rattle.insn_codec.specs.declared.opcodes.TheConstants.{
  IINC,
  INVOKEINTERFACE,
  WIDE,
  GOTO_W,
};

use crate::fault::CodeOverflow;
use crate::insn::Insn;
use crate::layout::{size, starts};
use crate::opcodes::{
    BIPUSH, GOTO_W, IINC, INVOKEINTERFACE, LDC, LOOKUPSWITCH, NEWARRAY, SIPUSH, TABLESWITCH, WIDE,
};
use byteorder::{BigEndian, ByteOrder};
use mon_base::{Bytes, NoMemory};
use std::alloc::Global;

/// Appends the two bytes of the number.
fn put_u2(out: &mut Bytes, n: u16) -> Result<(), NoMemory>
    ensures { OnOk result (out.new ≡ out.old ++ u2 n) }
{
    let mut bytes = [0u8; 2];
    BigEndian::write_u16(&mut bytes, n);
    out.extend(&bytes)
}

/// Appends the four bytes of the number.
fn put_u4(out: &mut Bytes, n: u32) -> Result<(), NoMemory>
    ensures { OnOk result (out.new ≡ out.old ++ u4 n) }
{
    let mut bytes = [0u8; 4];
    BigEndian::write_u32(&mut bytes, n);
    out.extend(&bytes)
}

/// Appends the two bytes of a number with a sign.
fn put_i2(out: &mut Bytes, n: i16) -> Result<(), NoMemory>
    ensures { OnOk result (out.new ≡ out.old ++ i2 n) }
{
    put_u2(out, n.cast_unsigned())
}

/// Appends the four bytes of a number with a sign.
fn put_i4(out: &mut Bytes, n: i32) -> Result<(), NoMemory>
    ensures { OnOk result (out.new ≡ out.old ++ i4 n) }
{
    put_u4(out, n.cast_unsigned())
}

/// How far an instruction at `at` is from its target.
fn offset(starts: &[u32], at: u64, to: u32) -> i64
    requires { at < 2 ^ 32 }
    ensures { result ≡ offset starts.now at to }
{
    let start = match starts.get(to as usize) {
        Some(start) => *start,
        None => 0,
    };
    start as i64 - at as i64
}

/// Appends an offset of two bytes.
#[tactic(auto, unfolding(crate::specs::Writing::near))]
fn put_near(out: &mut Bytes, starts: &[u32], at: u64, to: u32) -> Result<(), CodeOverflow>
    requires { at < 2 ^ 32 }
    ensures { Puts result (near starts.now at to) (i2 (offset starts.now at to)) out.old out.new }
{
    let value = offset(starts, at, to);
    if value < -0x8000 || 0x7FFF < value {
        return Err(CodeOverflow::Branch { value });
    }
    put_i2(out, value as i16)?;
    Ok(())
}

/// Appends an offset of four bytes.
#[tactic(auto, unfolding(crate::specs::Writing::far))]
fn put_far(out: &mut Bytes, starts: &[u32], at: u64, to: u32) -> Result<(), CodeOverflow>
    requires { at < 2 ^ 32 }
    ensures { Puts result (far starts.now at to) (i4 (offset starts.now at to)) out.old out.new }
{
    let value = offset(starts, at, to);
    if value < -0x8000_0000 || 0x7FFF_FFFF < value {
        return Err(CodeOverflow::Branch { value });
    }
    put_i4(out, value as i32)?;
    Ok(())
}

/// Appends zeros.
fn put_zeros(out: &mut Bytes, count: u64) -> Result<(), NoMemory>
    ensures { OnOk result (out.new ≡ out.old ++ replicate count 0) }
{
    for _ in 0..count {
        out.push(0)?;
    }
    Ok(())
}

/// Appends offsets of four bytes.
fn put_all_far(
    out: &mut Bytes,
    starts: &[u32],
    at: u64,
    targets: &[u32],
) -> Result<(), CodeOverflow>
    requires { at < 2 ^ 32 }
    ensures { Puts result (all_far starts.now at targets.now)
        (flat_map (λ to. i4 (offset starts.now at to)) targets.now) out.old out.new }
{
    let mut left = targets;
    while let [first, rest @ ..] = left {
        put_far(out, starts, at, *first)?;
        left = rest;
    }
    Ok(())
}

/// Appends the opcode of a switch, its padding and the offset of its other target.
fn put_switch(
    out: &mut Bytes,
    starts: &[u32],
    op: u8,
    at: u64,
    other: u32,
) -> Result<(), CodeOverflow>
    requires { at < 2 ^ 32 }
    ensures { Puts result (far starts.now at other)
        (u1 op ++ (replicate (padding at) 0 ++ i4 (offset starts.now at other))) out.old out.new }
{
    out.push(op)?;
    put_zeros(out, 3 - at % 4)?;
    put_far(out, starts, at, other)
}

/// The greatest number of a `tableswitch`.
fn high_of(low: i32, targets: &[u32]) -> i32
    requires { FitsTable low targets.now }
    ensures { result ≡ low +ℤ pos (length targets.now) -ℤ pos 1 }
{
    (low as i64 + targets.len() as i64 - 1) as i32
}

/// Appends the least and the greatest number of a `tableswitch`, and its offsets.
fn put_range(
    out: &mut Bytes,
    starts: &[u32],
    at: u64,
    low: i32,
    targets: &[u32],
) -> Result<(), CodeOverflow>
    requires place { at < 2 ^ 32 }
    requires table { FitsTable low targets.now }
    ensures { Puts result (all_far starts.now at targets.now) (range starts.now at low targets.now) out.old out.new }
{
    put_i4(out, low)?;
    put_i4(out, high_of(low, targets))?;
    put_all_far(out, starts, at, targets)
}

/// Appends the keys of a `lookupswitch` and their offsets.
fn put_cases(
    out: &mut Bytes,
    starts: &[u32],
    at: u64,
    keys: &[i32],
    targets: &[u32],
) -> Result<(), CodeOverflow>
    requires place { at < 2 ^ 32 }
    requires same { length keys.now ≡ length targets.now }
    ensures { Puts result (all_far starts.now at targets.now)
        (flat_map (case starts.now at) (cases keys.now targets.now)) out.old out.new }
{
    for i in 0..targets.len() {
        put_i4(out, keys[i])?;
        put_far(out, starts, at, targets[i])?;
    }
    Ok(())
}

/// Appends the count of a `lookupswitch`, its keys and their offsets.
fn put_keyed(
    out: &mut Bytes,
    starts: &[u32],
    at: u64,
    keys: &[i32],
    targets: &[u32],
) -> Result<(), CodeOverflow>
    requires place { at < 2 ^ 32 }
    requires lookup { FitsLookup keys.now targets.now }
    ensures { Puts result (all_far starts.now at targets.now) (keyed starts.now at keys.now targets.now) out.old out.new }
{
    put_u4(out, targets.len() as u32)?;
    put_cases(out, starts, at, keys, targets)
}

/// Appends an opcode alone.
fn put_op(out: &mut Bytes, op: u8) -> Result<(), CodeOverflow>
    ensures { Puts result (Ok tt) (u1 op) out.old out.new }
{
    out.push(op)?;
    Ok(())
}

/// Appends two bytes.
fn put_pair(out: &mut Bytes, op: u8, operand: u8) -> Result<(), CodeOverflow>
    ensures { Puts result (Ok tt) (u1 op ++ u1 operand) out.old out.new }
{
    out.extend(&[op, operand])?;
    Ok(())
}

/// Appends an opcode and two bytes.
fn put_pool(out: &mut Bytes, op: u8, index: u16) -> Result<(), CodeOverflow>
    ensures { Puts result (Ok tt) (u1 op ++ u2 index) out.old out.new }
{
    out.push(op)?;
    put_u2(out, index)?;
    Ok(())
}

/// Appends an `invokeinterface`.
fn put_iface(out: &mut Bytes, index: u16, count: u8) -> Result<(), CodeOverflow>
    ensures { Puts result (Ok tt) (u1 INVOKEINTERFACE ++ (u2 index ++ (u1 count ++ u1 0))) out.old out.new }
{
    put_pool(out, INVOKEINTERFACE, index)?;
    out.extend(&[count, 0])?;
    Ok(())
}

/// Appends a load or store of a local variable, after `wide`.
fn put_wide_local(out: &mut Bytes, op: u8, slot: u16) -> Result<(), CodeOverflow>
    ensures { Puts result (Ok tt) (u1 WIDE ++ (u1 op ++ u2 slot)) out.old out.new }
{
    out.extend(&[WIDE, op])?;
    put_u2(out, slot)?;
    Ok(())
}

/// Appends a load or store of a local variable.
fn put_local(out: &mut Bytes, op: u8, slot: u16, wide: bool) -> Result<(), CodeOverflow>
    requires { FitsSlot wide slot }
    ensures { Puts result (Ok tt) (bytes_of [] 0 (Local op slot wide)) out.old out.new }
{
    if wide {
        put_wide_local(out, op, slot)
    } else {
        put_pair(out, op, slot as u8)
    }
}

/// Appends an `iinc` after `wide`.
fn put_wide_inc(out: &mut Bytes, slot: u16, by: i16) -> Result<(), CodeOverflow>
    ensures { Puts result (Ok tt) (u1 WIDE ++ (u1 IINC ++ (u2 slot ++ i2 by))) out.old out.new }
{
    out.extend(&[WIDE, IINC])?;
    put_u2(out, slot)?;
    put_i2(out, by)?;
    Ok(())
}

/// Appends an `iinc`.
fn put_inc(out: &mut Bytes, slot: u16, by: i16, wide: bool) -> Result<(), CodeOverflow>
    requires slot { FitsSlot wide slot }
    requires by { FitsBy wide by }
    ensures { Puts result (Ok tt) (bytes_of [] 0 (Inc slot by wide)) out.old out.new }
{
    if wide {
        return put_wide_inc(out, slot, by);
    }
    out.extend(&[IINC, slot as u8, (by as i8).cast_unsigned()])?;
    Ok(())
}

/// Appends a jump with an offset of two bytes.
fn put_branch(out: &mut Bytes, starts: &[u32], at: u64, op: u8, to: u32) -> Result<(), CodeOverflow>
    requires { at < 2 ^ 32 }
    ensures { Puts result (near starts.now at to) (u1 op ++ i2 (offset starts.now at to)) out.old out.new }
{
    out.push(op)?;
    put_near(out, starts, at, to)
}

/// Appends a `goto_w`.
fn put_goto_w(out: &mut Bytes, starts: &[u32], at: u64, to: u32) -> Result<(), CodeOverflow>
    requires { at < 2 ^ 32 }
    ensures { Puts result (far starts.now at to) (u1 GOTO_W ++ i4 (offset starts.now at to)) out.old out.new }
{
    out.push(GOTO_W)?;
    put_far(out, starts, at, to)
}

/// Appends a `tableswitch`.
fn put_table(
    out: &mut Bytes,
    starts: &[u32],
    at: u64,
    other: u32,
    low: i32,
    targets: &[u32],
) -> Result<(), CodeOverflow>
    requires place { at < 2 ^ 32 }
    requires table { FitsTable low targets.now }
    ensures { Puts result (reach starts.now at (Table other low targets.now)) (bytes_of starts.now at (Table other low targets.now))
        out.old out.new }
{
    put_switch(out, starts, TABLESWITCH, at, other)?;
    put_range(out, starts, at, low, targets)
}

/// Appends a `lookupswitch`.
fn put_lookup(
    out: &mut Bytes,
    starts: &[u32],
    at: u64,
    other: u32,
    keys: &[i32],
    targets: &[u32],
) -> Result<(), CodeOverflow>
    requires place { at < 2 ^ 32 }
    requires lookup { FitsLookup keys.now targets.now }
    ensures { Puts result (reach starts.now at (Lookup other keys.now targets.now))
        (bytes_of starts.now at (Lookup other keys.now targets.now))
        out.old out.new }
{
    put_switch(out, starts, LOOKUPSWITCH, at, other)?;
    put_keyed(out, starts, at, keys, targets)
}

/// Appends an instruction that stands at `at`.
fn put_insn(out: &mut Bytes, starts: &[u32], at: u64, insn: &Insn) -> Result<(), CodeOverflow>
    requires place { at < 2 ^ 32 }
    requires insn { IsInsn insn.now }
    ensures { Puts result (reach starts.now at insn.now) (bytes_of starts.now at insn.now) out.old out.new }
{
    match insn {
        Insn::Plain(op) => put_op(out, *op),
        Insn::Byte(n) => put_pair(out, BIPUSH, n.cast_unsigned()),
        Insn::Short(n) => put_pool(out, SIPUSH, n.cast_unsigned()),
        Insn::Ldc(index) => put_pair(out, LDC, *index),
        Insn::Pool { op, index } => put_pool(out, *op, *index),
        Insn::Iface { index, count } => put_iface(out, *index, *count),
        Insn::Local { op, slot, wide } => put_local(out, *op, *slot, *wide),
        Insn::Inc { slot, by, wide } => put_inc(out, *slot, *by, *wide),
        Insn::Branch { op, to } => put_branch(out, starts, at, *op, *to),
        Insn::GotoW { to } => put_goto_w(out, starts, at, *to),
        Insn::NewArray(kind) => put_pair(out, NEWARRAY, *kind),
        Insn::Table {
            other,
            low,
            targets,
        } => put_table(out, starts, at, *other, *low, targets.as_slice()),
        Insn::Lookup {
            other,
            keys,
            targets,
        } => put_lookup(out, starts, at, *other, keys.as_slice(), targets.as_slice()),
    }
}

/// How many bytes the instructions have.
fn len_of(insns: &[Insn]) -> u64
    requires { len_from 0 insns.now < 2 ^ 32 }
    ensures { result ≡ len_from 0 insns.now }
{
    let mut at: u64 = 0;
    let mut left = insns;
    while let [first, rest @ ..] = left {
        at += size(at, first);
        left = rest;
    }
    at
}

/// Appends the instructions.
fn put_all(out: &mut Bytes, starts: &[u32], insns: &[Insn]) -> Result<(), CodeOverflow>
    requires len { len_from 0 insns.now < 2 ^ 32 }
    requires each { AllByRecursion IsInsn insns.now }
    ensures { Puts result (reach_from starts.now 0 insns.now) (bytes_from starts.now 0 insns.now) out.old out.new }
{
    let mut at: u64 = 0;
    let mut left = insns;
    while let [first, rest @ ..] = left {
        put_insn(out, starts, at, first)?;
        at += size(at, first);
        left = rest;
    }
    Ok(())
}

/// The bytes of a code.
fn written(alloc: Global, insns: &[Insn]) -> Result<Bytes, CodeOverflow>
    requires len { len_from 0 insns.now < 2 ^ 32 }
    requires each { AllByRecursion IsInsn insns.now }
    ensures { Answers CodeOverflow.Memory result (written insns.now) }
{
    let value = len_of(insns);
    if 65_535 < value {
        return Err(CodeOverflow::Length { value });
    }
    let starts = starts(alloc, insns)?;
    let mut out = Bytes::new(alloc);
    put_all(&mut out, starts.as_slice(), insns)?;
    Ok(out)
}

/// The bytes of a code, from its instructions.
///
/// `Length` comes where the code has more than 65,535 bytes. Else `Branch` tells the first offset that its bytes do not
/// hold.
pub fn write_code(alloc: Global, insns: &[Insn]) -> Result<Bytes, CodeOverflow>
    requires len { len_from 0 insns.now < 2 ^ 32 }
    requires each { AllByRecursion IsInsn insns.now }
    // The bytes are those of the instructions.
    ensures is { IfOk result (λ bytes. bytes ≡ encoding insns.now) }
    // A code that is too long is refused before all else.
    ensures length { 65535 < len_from 0 insns.now → Answers CodeOverflow.Memory result (Err (Length (len_from 0 insns.now))) }
    // Which overflow it is, and that there is none where the code is short and each offset is held.
    ensures exact { Answers CodeOverflow.Memory result (written insns.now) }
    // What was read is written as it was.
    ensures back { (bytes : List ℕ) → EncodesCode bytes insns.now → length bytes ≤ 65535 → Answers CodeOverflow.Memory result (Ok bytes) }
{
    written(alloc, insns)
}
