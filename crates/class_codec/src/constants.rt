//! Reading the constant pool. (The Java Virtual Machine Specification, section 4.4.)

ghost use Rattle.std.specs.Prelude.{◌≡◌, ◌+◌, ◌-◌, ◌<◌, ◌≤◌, ◌^◌, true, length, position, IfSome, IfOk, OnOk};
ghost use Rattle.std.specs.List.{flat_map};
ghost use Rattle.class_codec.specs.Encoding.{constant};
ghost use Rattle.class_codec.specs.Fits.{takes_two};
ghost use Rattle.mon_base.specs.Answer.{Reads, ReadsAs, Answers};
ghost use Rattle.class_codec.specs.Reading.{is_no_text_byte, text_checked, text_at, pair_at};
ghost use Rattle.class_codec.specs.Reading.{wide_at, of_pair, payload_at, constant_at, place_at, places_at, pool_at};

use crate::fault::ClassFault;
use crate::indices::check_all;
use crate::place::{taken, u1, u2, u4, u8};
use crate::tree::Const;
use mon_base::{Bytes, Cursor, List};
use std::alloc::Global;

/// The text of a constant: two bytes of length, and that many bytes, none of which is 0 or in 0xF0 to 0xFF.
#[tactic(auto, unfolding(crate::specs::Reading::text_at))]
fn text(alloc: Global, from: &mut Cursor) -> Result<Bytes, ClassFault>
    ensures reads { Reads ClassFault.Memory result (text_at from.old) from.new }
    ensures moves { IfOk result (λ text. from.new.at ≡ from.old.at + 2 + length text) }
{
    let len = u2(from)?;
    let bytes = taken(len as usize, from)?;
    check_text(bytes, from.position())?;
    let text = Bytes::from_slice(alloc, bytes)?;
    Ok(text)
}

/// Whether all bytes of a text, which ends at a place of the file, may stand there.
fn check_text(text: &[u8], end: u64) -> Result<(), ClassFault>
    requires { length text.now ≤ end }
    ensures { Answers ClassFault.Memory result (text_checked (end - length text.now) (position is_no_text_byte text.now)) }
{
    match first_wrong(text) {
        Some(i) => Err(ClassFault::Index {
            at: end - text.len() as u64 + i as u64,
        }),
        None => Ok(()),
    }
}

/// The place of the first byte that may stand in no text.
fn first_wrong(text: &[u8]) -> Option<usize>
    ensures found { result ≡ position is_no_text_byte text.now }
    ensures within { IfSome result (λ i. i < length text.now) }
{
    text.iter().position(|b| *b == 0 || *b >= 240)
}

/// Two indices.
#[tactic(auto, unfolding(crate::specs::Reading::pair_at))]
fn pair(from: &mut Cursor) -> Result<(u16, u16), ClassFault>
    ensures reads { Reads ClassFault.Memory result (pair_at from.old) from.new }
    ensures moves { OnOk result (from.new.at ≡ from.old.at + 4) }
{
    let first = u2(from)?;
    let second = u2(from)?;
    Ok((first, second))
}

/// The eight bytes of a constant that takes two places: it begins at `at`, and `left` places stand after its first.
#[tactic(auto, unfolding(crate::specs::Reading::wide_at))]
fn wide(at: u64, left: u16, from: &mut Cursor) -> Result<u64, ClassFault>
    ensures reads { Reads ClassFault.Memory result (wide_at at left from.old) from.new }
    ensures moves { OnOk result (from.new.at ≡ from.old.at + 8) }
{
    if left == 0 {
        return Err(ClassFault::Index { at });
    }
    u8(from)
}

/// The constant of two indices that has the tag.
fn of_pair(tag: u8, first: u16, second: u16) -> Const
    ensures { result ≡ of_pair tag first second }
{
    match tag {
        9 => Const::Field(first, second),
        10 => Const::Method(first, second),
        11 => Const::IMethod(first, second),
        _ => Const::NameAndType(first, second),
    }
}

/// What follows the tag of a constant.
#[tactic(auto, unfolding(crate::specs::Reading::payload_at))]
fn payload(
    alloc: Global,
    at: u64,
    left: u16,
    tag: u8,
    from: &mut Cursor,
) -> Result<Const, ClassFault>
    ensures reads { Reads ClassFault.Memory result (payload_at at left tag from.old) from.new }
    ensures moves { IfOk result (λ c. from.new.at + 1 ≡ from.old.at + length (constant c)) }
{
    match tag {
        1 => text(alloc, from).map(Const::Utf8),
        3 => Ok(Const::Integer(u4(from)?.cast_signed())),
        4 => u4(from).map(Const::Float),
        5 => Ok(Const::Long(wide(at, left, from)?.cast_signed())),
        6 => wide(at, left, from).map(Const::Double),
        7 => u2(from).map(Const::Class),
        8 => u2(from).map(Const::Str),
        9..=12 => {
            let (first, second) = pair(from)?;
            Ok(of_pair(tag, first, second))
        }
        _ => Err(ClassFault::Tag { at, tag }),
    }
}

/// A constant, after whose first place `left` places stand.
#[tactic(auto, unfolding(crate::specs::Reading::constant_at))]
fn constant(alloc: Global, left: u16, from: &mut Cursor) -> Result<Const, ClassFault>
    ensures reads { Reads ClassFault.Memory result (constant_at left from.old) from.new }
    ensures moves { IfOk result (λ c. from.new.at ≡ from.old.at + length (constant c)) }
{
    let at = from.position();
    let tag = u1(from)?;
    payload(alloc, at, left, tag, from)
}

/// A place of the pool, or the second place of its constant, which has no bytes.
#[tactic(auto, unfolding(crate::specs::Reading::place_at))]
fn place(alloc: Global, second: bool, left: u16, from: &mut Cursor) -> Result<Const, ClassFault>
    ensures reads { Reads ClassFault.Memory result (place_at second left from.old) from.new }
    ensures moves { IfOk result (λ c. from.new.at ≡ from.old.at + length (constant c)) }
{
    if second {
        return Ok(Const::Second);
    }
    constant(alloc, left, from)
}

/// Whether a constant takes two places.
fn takes_two(item: &Const) -> bool
    ensures { result ≡ takes_two item.now }
{
    matches!(item, Const::Long(_) | Const::Double(_))
}

/// The places of the pool, the first of which is the second place of no constant.
fn places(alloc: Global, count: u16, from: &mut Cursor) -> Result<Vec<Const>, ClassFault>
    ensures reads { ReadsAs ClassFault.Memory (λ v. v.items) result (places_at true count from.old) from.new }
    ensures moves { IfOk result (λ pool. from.new.at ≡ from.old.at + length (flat_map constant pool.items)) }
{
    let mut pool = Vec::new(alloc);
    let mut second = true;
    for number in 0..count {
        let next = place(alloc, second, count - number - 1, from)?;
        second = takes_two(&next);
        pool.push(next)?;
    }
    Ok(pool)
}

/// The constant pool.
#[tactic(auto, unfolding(crate::specs::Reading::pool_at))]
pub fn pool(alloc: Global, from: &mut Cursor) -> Result<List<Const>, ClassFault>
    ensures { Reads ClassFault.Memory result (pool_at from.old) from.new }
{
    let count = u2(from)?;
    let start = from.position();
    let pool = places(alloc, count, from)?;
    check_all(&pool, start, from.position())?;
    Ok(List::from_vec(pool))
}
