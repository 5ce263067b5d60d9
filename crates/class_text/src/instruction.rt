//! The name and the operands of an instruction.

ghost use Rattle.std.specs.Prelude.{◌≡◌, ◌++◌, ◌∷◌, [], map, OnOk};
ghost use Rattle.std.specs.Fmt.{decimal, signed_decimal};
ghost use Rattle.class_text.specs.Lines.{spaced, is_wide, name_words, operand_words, pool_word};

use crate::words::{
    push_count_word, push_count_words, push_number_word, push_number_words, push_pool_word,
    push_word,
};
use insn_codec::{Insn, name_of};
use mon_base::{Bytes, NoMemory};

fn is_wide(insn: &Insn) -> bool
    ensures { result ≡ is_wide insn.now }
{
    match insn {
        Insn::Local { wide, .. } => *wide,
        Insn::Inc { wide, .. } => *wide,
        _ => false,
    }
}

/// Appends the name of the opcode, after `wide` where the instruction stands so.
pub fn push_name(out: &mut Bytes, insn: &Insn) -> Result<(), NoMemory>
    ensures { OnOk result (out.new ≡ out.old ++ spaced (name_words insn.now)) }
{
    if is_wide(insn) {
        push_word(out, "wide".as_bytes())?;
    }
    push_word(out, name_of(insn.opcode()))
}

/// Appends the operands in the order of the fields.
pub fn push_operands(out: &mut Bytes, insn: &Insn) -> Result<(), NoMemory>
    ensures { OnOk result (out.new ≡ out.old ++ spaced (operand_words insn.now)) }
{
    match insn {
        Insn::Plain(_) => Ok(()),
        Insn::Byte(n) => push_number_word(out, *n as i64),
        Insn::Short(n) => push_number_word(out, *n as i64),
        Insn::Ldc(index) => push_pool_word(out, *index as u16),
        Insn::Pool { index, .. } => push_pool_word(out, *index),
        Insn::Iface { index, count } => push_iface(out, *index, *count),
        Insn::Local { slot, .. } => push_count_word(out, *slot as u64),
        Insn::Inc { slot, by, .. } => push_inc(out, *slot, *by),
        Insn::Branch { to, .. } => push_count_word(out, *to as u64),
        Insn::GotoW { to } => push_count_word(out, *to as u64),
        Insn::NewArray(kind) => push_count_word(out, *kind as u64),
        Insn::Table {
            other,
            low,
            targets,
        } => push_table(out, *other, *low, targets.as_slice()),
        Insn::Lookup {
            other,
            keys,
            targets,
        } => push_lookup(out, *other, keys.as_slice(), targets.as_slice()),
    }
}

fn push_iface(out: &mut Bytes, index: u16, count: u8) -> Result<(), NoMemory>
    ensures { OnOk result (out.new ≡ out.old ++ spaced (pool_word index ∷ decimal count ∷ [])) }
{
    push_pool_word(out, index)?;
    push_count_word(out, count as u64)
}

fn push_inc(out: &mut Bytes, slot: u16, by: i16) -> Result<(), NoMemory>
    ensures { OnOk result (out.new ≡ out.old ++ spaced (decimal slot ∷ signed_decimal by ∷ [])) }
{
    push_count_word(out, slot as u64)?;
    push_number_word(out, by as i64)
}

fn push_table(out: &mut Bytes, beyond: u32, low: i32, targets: &[u32]) -> Result<(), NoMemory>
    ensures { OnOk result (out.new ≡ out.old ++ spaced (decimal beyond ∷ signed_decimal low ∷ map decimal targets.now)) }
{
    push_count_word(out, beyond as u64)?;
    push_range(out, low, targets)
}

/// Appends the least number of a range, and a target for each from it on.
fn push_range(out: &mut Bytes, low: i32, upwards: &[u32]) -> Result<(), NoMemory>
    ensures { OnOk result (out.new ≡ out.old ++ spaced (signed_decimal low ∷ map decimal upwards.now)) }
{
    push_number_word(out, low as i64)?;
    push_count_words(out, upwards)
}

fn push_lookup(out: &mut Bytes, other: u32, keys: &[i32], targets: &[u32]) -> Result<(), NoMemory>
    ensures { OnOk result (out.new ≡ out.old ++ spaced (decimal other ∷ (map signed_decimal keys.now ++ map decimal targets.now))) }
{
    push_count_word(out, other as u64)?;
    push_number_words(out, keys)?;
    push_count_words(out, targets)
}
