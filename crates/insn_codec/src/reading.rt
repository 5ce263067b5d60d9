//! Reading instructions. (The Java Virtual Machine Specification, section 6.5.)

ghost use Rattle.std.specs.Prelude.{◌≡◌, ◌+◌, ◌<◌, ◌^◌, length, OnOk, IfOk, Ok, List};
ghost use Rattle.std.specs.List.{AllByRecursion};
ghost use Rattle.insn_codec.specs.Encoding.{size, len_from};
ghost use Rattle.mon_base.specs.Answer.{Reads, Answers};
ghost use Rattle.insn_codec.specs.Reading.{iface_at, new_array_at, inc_at, wide_inc_at, widened_at, wide_at};
ghost use Rattle.mon_base.specs.Answer.{AnswersAs};
ghost use Rattle.insn_codec.specs.Reading.{end_of, operands_at, insn_at, insns_of, code_of};
ghost use Rattle.insn_codec.specs.Opcodes.{operands_of};
ghost use Rattle.insn_codec.specs.Fits.{IsInsn, EncodesCode};
ghost use Rattle.insn_codec.specs.Targets.{finds};
ghost use Rattle.insn_codec.specs.declared.insn.Insn.{Insn};

use crate::fault::CodeFault;
use crate::insn::Insn;
use crate::layout::{check_end, marks};
use crate::opcode::{Operands, operands_of};
use crate::opcodes::NEWARRAY;
use crate::place::{i1, i2, u1, u2};
use crate::switches::{lookup, table};
use crate::targets::Targets;
use mon_base::{Cursor, List};
use std::alloc::Global;

/// `invokeinterface`, after its opcode.
#[tactic(auto, unfolding(crate::specs::Reading::iface_at))]
fn iface(at: u64, from: &mut Cursor) -> Result<Insn, CodeFault>
    ensures reads { Reads CodeFault.Memory result (iface_at at from.old) from.new }
    ensures moves { IfOk result (λ insn. from.new.at + 1 ≡ from.old.at + size at insn) }
    ensures stays { OnOk result (end_of from.new ≡ end_of from.old) }
{
    let index = u2(at, from)?;
    let count = u1(at, from)?;
    let last = u1(at, from)?;
    if last != 0 {
        return Err(CodeFault::Form { at });
    }
    Ok(Insn::Iface { index, count })
}

/// `newarray`, after its opcode.
#[tactic(auto, unfolding(crate::specs::Reading::new_array_at))]
fn new_array(at: u64, from: &mut Cursor) -> Result<Insn, CodeFault>
    ensures reads { Reads CodeFault.Memory result (new_array_at at from.old) from.new }
    ensures moves { IfOk result (λ insn. from.new.at + 1 ≡ from.old.at + size at insn) }
    ensures stays { OnOk result (end_of from.new ≡ end_of from.old) }
{
    let kind = u1(at, from)?;
    if kind < 4 || 11 < kind {
        return Err(CodeFault::Form { at });
    }
    if kind == 6 || kind == 7 || kind == 11 {
        return Err(CodeFault::LeftOut { at, op: NEWARRAY });
    }
    Ok(Insn::NewArray(kind))
}

/// `iinc`, after its opcode.
#[tactic(auto, unfolding(crate::specs::Reading::inc_at))]
fn inc(at: u64, from: &mut Cursor) -> Result<Insn, CodeFault>
    ensures reads { Reads CodeFault.Memory result (inc_at at from.old) from.new }
    ensures moves { IfOk result (λ insn. from.new.at + 1 ≡ from.old.at + size at insn) }
    ensures stays { OnOk result (end_of from.new ≡ end_of from.old) }
{
    let slot = u1(at, from)?;
    let by = i1(at, from)?;
    Ok(Insn::Inc {
        slot: slot as u16,
        by: by as i16,
        wide: false,
    })
}

/// `iinc` after `wide`, after its opcode.
#[tactic(auto, unfolding(crate::specs::Reading::wide_inc_at))]
fn wide_inc(at: u64, from: &mut Cursor) -> Result<Insn, CodeFault>
    ensures reads { Reads CodeFault.Memory result (wide_inc_at at from.old) from.new }
    ensures moves { IfOk result (λ insn. from.new.at + 2 ≡ from.old.at + size at insn) }
    ensures stays { OnOk result (end_of from.new ≡ end_of from.old) }
{
    let slot = u2(at, from)?;
    let by = i2(at, from)?;
    Ok(Insn::Inc {
        slot,
        by,
        wide: true,
    })
}

/// What follows `wide` and an opcode.
fn widened(op: u8, at: u64, from: &mut Cursor) -> Result<Insn, CodeFault>
    ensures reads { Reads CodeFault.Memory result (widened_at (operands_of op) at op from.old) from.new }
    ensures moves { IfOk result (λ insn. from.new.at + 2 ≡ from.old.at + size at insn) }
    ensures stays { OnOk result (end_of from.new ≡ end_of from.old) }
{
    match operands_of(op) {
        Operands::Local => Ok(Insn::Local {
            op,
            slot: u2(at, from)?,
            wide: true,
        }),
        Operands::Inc => wide_inc(at, from),
        _ => Err(CodeFault::Form { at }),
    }
}

/// What follows `wide`.
#[tactic(auto, unfolding(crate::specs::Reading::wide_at))]
fn wide(at: u64, from: &mut Cursor) -> Result<Insn, CodeFault>
    ensures reads { Reads CodeFault.Memory result (wide_at at from.old) from.new }
    ensures moves { IfOk result (λ insn. from.new.at + 1 ≡ from.old.at + size at insn) }
    ensures stays { OnOk result (end_of from.new ≡ end_of from.old) }
{
    let op = u1(at, from)?;
    widened(op, at, from)
}

/// What follows an opcode.
fn operands(
    alloc: Global,
    targets: &Targets,
    op: u8,
    at: u64,
    from: &mut Cursor,
) -> Result<Insn, CodeFault>
    requires { at < 2 ^ 32 }
    ensures reads { Reads CodeFault.Memory result (operands_at (operands_of op) (finds targets.now) at op from.old) from.new }
    ensures moves { IfOk result (λ insn. from.new.at + 1 ≡ from.old.at + size at insn) }
    ensures stays { OnOk result (end_of from.new ≡ end_of from.old) }
{
    match operands_of(op) {
        Operands::Plain => Ok(Insn::Plain(op)),
        Operands::Byte => Ok(Insn::Byte(i1(at, from)?)),
        Operands::Short => Ok(Insn::Short(i2(at, from)?)),
        Operands::Ldc => Ok(Insn::Ldc(u1(at, from)?)),
        Operands::Pool => Ok(Insn::Pool {
            op,
            index: u2(at, from)?,
        }),
        Operands::Local => Ok(Insn::Local {
            op,
            slot: u1(at, from)? as u16,
            wide: false,
        }),
        Operands::Inc => inc(at, from),
        Operands::Branch => Ok(Insn::Branch {
            op,
            to: targets.near(at, from)?,
        }),
        Operands::GotoW => Ok(Insn::GotoW {
            to: targets.far(at, from)?,
        }),
        Operands::Table => table(alloc, targets, at, from),
        Operands::Lookup => lookup(alloc, targets, at, from),
        Operands::Iface => iface(at, from),
        Operands::NewArray => new_array(at, from),
        Operands::Wide => wide(at, from),
        Operands::LeftOut => Err(CodeFault::LeftOut { at, op }),
        Operands::Unknown => Err(CodeFault::Opcode { at, op }),
    }
}

/// An instruction.
#[tactic(auto, unfolding(crate::specs::Reading::insn_at))]
fn insn(alloc: Global, targets: &Targets, from: &mut Cursor) -> Result<Insn, CodeFault>
    requires { from.old.at < 2 ^ 32 }
    ensures reads { Reads CodeFault.Memory result (insn_at (finds targets.now) from.old.at from.old) from.new }
    ensures moves { IfOk result (λ insn. from.new.at ≡ from.old.at + size from.old.at insn) }
    ensures stays { OnOk result (end_of from.new ≡ end_of from.old) }
{
    let at = from.position();
    let op = u1(at, from)?;
    operands(alloc, targets, op, at, from)
}

/// All the instructions.
fn insns(alloc: Global, targets: &Targets, code: &[u8]) -> Result<Vec<Insn>, CodeFault>
    requires { length code.now < 2 ^ 32 }
    ensures reads { AnswersAs CodeFault.Memory (λ v. v.items) result (insns_of (finds targets.now) code.now) }
    ensures len { IfOk result (λ v. len_from 0 v.items ≡ length code.now) }
{
    let mut from = Cursor::new(code);
    let mut insns = Vec::new(alloc);
    for _ in 0..code.len() {
        if from.is_at_end() {
            return Ok(insns);
        }
        let next = insn(alloc, targets, &mut from)?;
        insns.push(next)?;
    }
    Ok(insns)
}

/// The instructions of a code that ends, with targets as indices.
fn all(alloc: Global, code: &[u8]) -> Result<List<Insn>, CodeFault>
    requires { length code.now < 2 ^ 32 }
    ensures reads { Answers CodeFault.Memory result (code_of code.now) }
    ensures len { IfOk result (λ insns. len_from 0 insns ≡ length code.now) }
{
    let shapes = insns(alloc, &Targets::Any, code)?;
    let targets = Targets::Among(marks(alloc, &shapes)?);
    let insns = insns(alloc, &targets, code)?;
    check_end(&insns)?;
    Ok(List::from_vec(insns))
}

/// The instructions of a code, whose targets are given by index. The faults are those of [`CodeFault`].
pub fn read_code(alloc: Global, code: &[u8]) -> Result<List<Insn>, CodeFault>
    requires { length code.now < 2 ^ 32 }
    // What is read is encoded so.
    ensures found { IfOk result (λ insns. EncodesCode code.now insns) }
    // What is encoded so is read, unless memory runs out.
    ensures only { (insns : List Insn) → EncodesCode code.now insns → Answers CodeFault.Memory result (Ok insns) }
    // The instructions can be written, and have all the bytes.
    ensures each { IfOk result (λ insns. AllByRecursion IsInsn insns) }
    ensures len { IfOk result (λ insns. len_from 0 insns ≡ length code.now) }
    // Which fault it is: the first that reading meets.
    ensures exact { Answers CodeFault.Memory result (code_of code.now) }
{
    all(alloc, code)
}
