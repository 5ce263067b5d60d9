//! Numbers at a place of the code, in the instruction at `at`.

ghost use Rattle.std.specs.Prelude.{◌≡◌, ◌+◌, OnOk, length, IfOk};
ghost use Rattle.insn_codec.specs.Encoding.{padding};
ghost use Rattle.mon_base.specs.Answer.{Reads, ReadsAs};
ghost use Rattle.insn_codec.specs.Reading.{u1_at, u2_at, i1_at, i2_at, i4_at, padding_at, end_of};

use crate::fault::CodeFault;
use mon_base::Cursor;

/// A number of one byte.
#[tactic(auto, unfolding(crate::specs::Reading::u1_at))]
pub fn u1(at: u64, from: &mut Cursor) -> Result<u8, CodeFault>
    ensures reads { Reads CodeFault.Memory result (u1_at at from.old) from.new }
    ensures moves { OnOk result (from.new.at ≡ from.old.at + 1) }
    ensures stays { OnOk result (end_of from.new ≡ end_of from.old) }
{
    from.u1().ok_or(CodeFault::Cut { at })
}

/// A number of two bytes.
#[tactic(auto, unfolding(crate::specs::Reading::u2_at))]
pub fn u2(at: u64, from: &mut Cursor) -> Result<u16, CodeFault>
    ensures reads { Reads CodeFault.Memory result (u2_at at from.old) from.new }
    ensures moves { OnOk result (from.new.at ≡ from.old.at + 2) }
    ensures stays { OnOk result (end_of from.new ≡ end_of from.old) }
{
    from.u2().ok_or(CodeFault::Cut { at })
}

/// A number with a sign, of one byte.
#[tactic(auto, unfolding(crate::specs::Reading::i1_at))]
pub fn i1(at: u64, from: &mut Cursor) -> Result<i8, CodeFault>
    ensures reads { Reads CodeFault.Memory result (i1_at at from.old) from.new }
    ensures moves { OnOk result (from.new.at ≡ from.old.at + 1) }
    ensures stays { OnOk result (end_of from.new ≡ end_of from.old) }
{
    let n = u1(at, from)?;
    Ok(n.cast_signed())
}

/// A number with a sign, of two bytes.
#[tactic(auto, unfolding(crate::specs::Reading::i2_at))]
pub fn i2(at: u64, from: &mut Cursor) -> Result<i16, CodeFault>
    ensures reads { Reads CodeFault.Memory result (i2_at at from.old) from.new }
    ensures moves { OnOk result (from.new.at ≡ from.old.at + 2) }
    ensures stays { OnOk result (end_of from.new ≡ end_of from.old) }
{
    let n = u2(at, from)?;
    Ok(n.cast_signed())
}

/// A number with a sign, of four bytes.
#[tactic(auto, unfolding(crate::specs::Reading::i4_at))]
pub fn i4(at: u64, from: &mut Cursor) -> Result<i32, CodeFault>
    ensures reads { Reads CodeFault.Memory result (i4_at at from.old) from.new }
    ensures moves { OnOk result (from.new.at ≡ from.old.at + 4) }
    ensures stays { OnOk result (end_of from.new ≡ end_of from.old) }
{
    let n = from.u4().ok_or(CodeFault::Cut { at })?;
    Ok(n.cast_signed())
}

/// The bytes between the opcode of a switch and its first offset.
#[tactic(auto, unfolding(crate::specs::Reading::padding_at))]
pub fn padding<'a>(at: u64, from: &mut Cursor<'a>) -> Result<&'a [u8], CodeFault>
    ensures reads { ReadsAs CodeFault.Memory (λ b. b.now) result (padding_at at from.old) from.new }
    ensures moves { OnOk result (from.new.at ≡ from.old.at + padding at) }
    ensures stays { OnOk result (end_of from.new ≡ end_of from.old) }
{
    from.take(3 - (at % 4) as usize)
        .ok_or(CodeFault::Cut { at })
}
