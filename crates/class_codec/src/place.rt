//! Numbers, byte strings and indices at a place of the file.

ghost use Rattle.std.specs.Prelude.{◌≡◌, ◌+◌, length, IfOk, OnOk};
ghost use Rattle.mon_base.specs.Answer.{Reads, ReadsAs};
ghost use Rattle.class_codec.specs.Reading.{u1_at, u2_at, u4_at, u8_at, taken_at, block_at, index_at};

use crate::fault::ClassFault;
use crate::pool::{ConstKind, names};
use crate::tree::Const;
use mon_base::{Bytes, Cursor};
use std::alloc::Global;

/// A number of one byte.
#[tactic(auto, unfolding(crate::specs::Reading::u1_at))]
pub fn u1(from: &mut Cursor) -> Result<u8, ClassFault>
    ensures reads { Reads ClassFault.Memory result (u1_at from.old) from.new }
    ensures moves { OnOk result (from.new.at ≡ from.old.at + 1) }
{
    let at = from.position();
    from.u1().ok_or(ClassFault::Short { at })
}

/// A number of two bytes.
#[tactic(auto, unfolding(crate::specs::Reading::u2_at))]
pub fn u2(from: &mut Cursor) -> Result<u16, ClassFault>
    ensures reads { Reads ClassFault.Memory result (u2_at from.old) from.new }
    ensures moves { OnOk result (from.new.at ≡ from.old.at + 2) }
{
    let at = from.position();
    from.u2().ok_or(ClassFault::Short { at })
}

/// A number of four bytes.
#[tactic(auto, unfolding(crate::specs::Reading::u4_at))]
pub fn u4(from: &mut Cursor) -> Result<u32, ClassFault>
    ensures reads { Reads ClassFault.Memory result (u4_at from.old) from.new }
    ensures moves { OnOk result (from.new.at ≡ from.old.at + 4) }
{
    let at = from.position();
    from.u4().ok_or(ClassFault::Short { at })
}

/// A number of eight bytes.
#[tactic(auto, unfolding(crate::specs::Reading::u8_at))]
pub fn u8(from: &mut Cursor) -> Result<u64, ClassFault>
    ensures reads { Reads ClassFault.Memory result (u8_at from.old) from.new }
    ensures moves { OnOk result (from.new.at ≡ from.old.at + 8) }
{
    let at = from.position();
    from.u8().ok_or(ClassFault::Short { at })
}

/// The next `n` bytes.
#[tactic(auto, unfolding(crate::specs::Reading::taken_at))]
pub fn taken<'a>(n: usize, from: &mut Cursor<'a>) -> Result<&'a [u8], ClassFault>
    ensures reads { ReadsAs ClassFault.Memory (λ b. b.now) result (taken_at n from.old) from.new }
    ensures moves { OnOk result (from.new.at ≡ from.old.at + n) }
    ensures len { IfOk result (λ b. length b.now ≡ n) }
{
    let at = from.position();
    from.take(n).ok_or(ClassFault::Short { at })
}

/// Four bytes of length, and that many bytes.
#[tactic(auto, unfolding(crate::specs::Reading::block_at))]
pub fn block(alloc: Global, from: &mut Cursor) -> Result<Bytes, ClassFault>
    ensures { Reads ClassFault.Memory result (block_at from.old) from.new }
{
    let len = u4(from)?;
    let bytes = taken(len as usize, from)?;
    Ok(Bytes::from_slice(alloc, bytes)?)
}

/// An index that names a constant of the kind.
#[tactic(auto, unfolding(crate::specs::Reading::index_at))]
pub fn index(kind: ConstKind, pool: &[Const], from: &mut Cursor) -> Result<u16, ClassFault>
    ensures { Reads ClassFault.Memory result (index_at kind pool.now from.old) from.new }
{
    let at = from.position();
    let index = u2(from)?;
    if !names(kind, pool, index) {
        return Err(ClassFault::Index { at });
    }
    Ok(index)
}
