//! Reading switches. (The Java Virtual Machine Specification, section 6.5.)

ghost use Rattle.std.specs.Prelude.{◌≡◌, ◌+◌, ◌*◌, ◌<◌, ◌^◌, ◌&&◌, length, map, IfOk, OnOk};
ghost use Rattle.mon_base.specs.Reading.{counted};
ghost use Rattle.insn_codec.specs.Encoding.{padding, size};
ghost use Rattle.mon_base.specs.Answer.{Reads, ReadsAs};
ghost use Rattle.insn_codec.specs.Reading.{all_zero, bounds_at, ranged_at, table_at, end_of};
ghost use Rattle.insn_codec.specs.Reading.{far_at, case_at, ascend, count_at, cases_at, keyed_at, lookup_at};
ghost use Rattle.insn_codec.specs.Targets.{finds};
ghost use Rattle.insn_codec.specs.declared.insn.Insn.TheVariants as insns;

use crate::fault::CodeFault;
use crate::insn::{Case, Insn};
use crate::place::{i4, padding};
use crate::targets::Targets;
use mon_base::{BoxedList, Cursor, List, NoMemory};
use std::alloc::Global;

/// What is counted in a switch.
trait Item: Drop {
    ghost use Rattle.std.specs.Prelude.{◌≡◌, ◌+◌, ◌<◌, ◌^◌, ℕ, OnOk};
    ghost use Rattle.mon_base.specs.Reading.{Place};
    ghost use Rattle.mon_base.specs.Answer.{Reads};
    ghost use Rattle.insn_codec.specs.Reading.{Finder, Read, end_of};
    ghost use Rattle.insn_codec.specs.Targets.{finds};

    /// What reading it gives, in the instruction that begins at a place.
    ghost item_at: { Finder → ℕ → Place → Read Self };

    /// How many bytes it has.
    ghost len: { ℕ };

    fn read(targets: &Targets, at: u64, from: &mut Cursor) -> Result<Self, CodeFault>
    where
        Self: Sized,
        requires { at < 2 ^ 32 }
        ensures reads { Reads CodeFault.Memory result (item_at (finds targets.now) at from.old) from.new }
        ensures moves { OnOk result (from.new.at ≡ from.old.at + len) }
        ensures stays { OnOk result (end_of from.new ≡ end_of from.old) };
}

impl Item for u32 {
    ghost item_at = { far_at };

    ghost len = { 4 };

    fn read(targets: &Targets, at: u64, from: &mut Cursor) -> Result<u32, CodeFault> {
        targets.far(at, from)
    }
}

impl Item for Case {
    ghost item_at = { case_at };

    ghost len = { 8 };

    #[tactic(auto, unfolding(crate::specs::Reading::case_at))]
    fn read(targets: &Targets, at: u64, from: &mut Cursor) -> Result<Case, CodeFault> {
        let key = i4(at, from)?;
        let to = targets.far(at, from)?;
        Ok(Case { key, to })
    }
}

/// That many items.
fn several<T: Item>(
    alloc: Global,
    targets: &Targets,
    at: u64,
    count: u64,
    from: &mut Cursor,
) -> Result<Vec<T>, CodeFault>
    requires { at < 2 ^ 32 }
    ensures reads { ReadsAs CodeFault.Memory (λ v. v.items) result (counted (T.item_at (finds targets.now) at) count from.old) from.new }
    ensures moves { IfOk result (λ v. from.new.at ≡ from.old.at + T.len * length v.items) }
    ensures stays { OnOk result (end_of from.new ≡ end_of from.old) }
{
    let mut items = Vec::new(alloc);
    for _ in 0..count {
        let item = T::read(targets, at, from)?;
        items.push(item)?;
    }
    Ok(items)
}

/// Whether all the bytes are zero.
fn all_zero(bytes: &[u8]) -> bool
    ensures { result ≡ all_zero bytes.now }
{
    bytes.iter().all(|b| *b == 0)
}

/// The least number of a `tableswitch`, and how many there are up to the greatest.
#[tactic(auto, unfolding(crate::specs::Reading::bounds_at))]
fn bounds(at: u64, from: &mut Cursor) -> Result<(i32, u64), CodeFault>
    ensures reads { Reads CodeFault.Memory result (bounds_at at from.old) from.new }
    ensures moves { OnOk result (from.new.at ≡ from.old.at + 8) }
    ensures stays { OnOk result (end_of from.new ≡ end_of from.old) }
{
    let low = i4(at, from)?;
    let high = i4(at, from)?;
    if low > high {
        return Err(CodeFault::Form { at });
    }
    Ok((low, (high as i64 - low as i64) as u64 + 1))
}

/// What follows the padding of a `tableswitch`.
#[tactic(auto, unfolding(crate::specs::Reading::ranged_at))]
fn ranged(
    alloc: Global,
    targets: &Targets,
    at: u64,
    pad: &[u8],
    from: &mut Cursor,
) -> Result<Insn, CodeFault>
    requires { at < 2 ^ 32 }
    ensures reads { Reads CodeFault.Memory result (ranged_at (finds targets.now) at pad.now from.old) from.new }
    ensures moves { IfOk result (λ insn. from.new.at + padding at + 1 ≡ from.old.at + size at insn) }
    ensures stays { OnOk result (end_of from.new ≡ end_of from.old) }
{
    let other = targets.far(at, from)?;
    let (low, count) = bounds(at, from)?;
    let all = several(alloc, targets, at, count, from)?;
    if !all_zero(pad) {
        return Err(CodeFault::Form { at });
    }
    let targets = BoxedList::new(alloc, List::from_vec(all))?;
    Ok(Insn::Table {
        other,
        low,
        targets,
    })
}

/// `tableswitch`, after its opcode.
#[tactic(auto, unfolding(crate::specs::Reading::table_at))]
pub fn table(
    alloc: Global,
    targets: &Targets,
    at: u64,
    from: &mut Cursor,
) -> Result<Insn, CodeFault>
    requires { at < 2 ^ 32 }
    ensures reads { Reads CodeFault.Memory result (table_at (finds targets.now) at from.old) from.new }
    ensures moves { IfOk result (λ insn. from.new.at + 1 ≡ from.old.at + size at insn) }
    ensures stays { OnOk result (end_of from.new ≡ end_of from.old) }
{
    let pad = padding(at, from)?;
    ranged(alloc, targets, at, pad, from)
}

/// Whether the keys strictly ascend.
fn ascend(keys: &[Case]) -> bool
    ensures { result ≡ ascend (map (λ one. one.key) keys.now) }
{
    let mut least = i32::MIN as i64;
    let mut left = keys;
    while let [first, rest @ ..] = left {
        if (first.key as i64) < least {
            return false;
        }
        least = first.key as i64 + 1;
        left = rest;
    }
    true
}

/// Whether the padding is zero and the keys ascend.
fn is_right(pad: &[u8], cases: &[Case]) -> bool
    ensures { result ≡ (all_zero pad.now && ascend (map (λ one. one.key) cases.now)) }
{
    all_zero(pad) && ascend(cases)
}

/// The keys of the cases.
fn keys_of(alloc: Global, cases: &[Case]) -> Result<List<i32>, NoMemory>
    ensures { IfOk result (λ keys. keys ≡ map (λ one. one.key) cases.now) }
{
    let mut keys = List::with_room(alloc, cases.len())?;
    for one in cases {
        keys.push(one.key)?;
    }
    Ok(keys)
}

/// The targets of the cases.
fn targets_of(alloc: Global, cases: &[Case]) -> Result<List<u32>, NoMemory>
    ensures { IfOk result (λ targets. targets ≡ map (λ one. one.to) cases.now) }
{
    let mut targets = List::with_room(alloc, cases.len())?;
    for one in cases {
        targets.push(one.to)?;
    }
    Ok(targets)
}

/// The `lookupswitch` of the cases, whose other numbers go to `other`.
fn switch_of(alloc: Global, other: u32, cases: &[Case]) -> Result<Insn, NoMemory>
    ensures { IfOk result (λ insn. insn ≡ insns.Lookup other (map (λ one. one.key) cases.now) (map (λ one. one.to) cases.now)) }
{
    let keys = BoxedList::new(alloc, keys_of(alloc, cases)?)?;
    let targets = BoxedList::new(alloc, targets_of(alloc, cases)?)?;
    Ok(Insn::Lookup {
        other,
        keys,
        targets,
    })
}

/// How many keys a `lookupswitch` has.
#[tactic(auto, unfolding(crate::specs::Reading::count_at))]
fn count(at: u64, from: &mut Cursor) -> Result<u64, CodeFault>
    ensures reads { Reads CodeFault.Memory result (count_at at from.old) from.new }
    ensures moves { OnOk result (from.new.at ≡ from.old.at + 4) }
    ensures stays { OnOk result (end_of from.new ≡ end_of from.old) }
{
    let count = i4(at, from)?;
    if count < 0 {
        return Err(CodeFault::Form { at });
    }
    Ok(count as u64)
}

/// The keys of a `lookupswitch` and their targets.
#[tactic(auto, unfolding(crate::specs::Reading::cases_at))]
fn cases(
    alloc: Global,
    targets: &Targets,
    at: u64,
    from: &mut Cursor,
) -> Result<Vec<Case>, CodeFault>
    requires { at < 2 ^ 32 }
    ensures reads { ReadsAs CodeFault.Memory (λ v. v.items) result (cases_at (finds targets.now) at from.old) from.new }
    ensures moves { IfOk result (λ v. from.new.at ≡ from.old.at + 4 + 8 * length v.items) }
    ensures stays { OnOk result (end_of from.new ≡ end_of from.old) }
{
    let count = count(at, from)?;
    several(alloc, targets, at, count, from)
}

/// What follows the padding of a `lookupswitch`.
#[tactic(auto, unfolding(crate::specs::Reading::keyed_at))]
fn keyed(
    alloc: Global,
    targets: &Targets,
    at: u64,
    pad: &[u8],
    from: &mut Cursor,
) -> Result<Insn, CodeFault>
    requires { at < 2 ^ 32 }
    ensures reads { Reads CodeFault.Memory result (keyed_at (finds targets.now) at pad.now from.old) from.new }
    ensures moves { IfOk result (λ insn. from.new.at + padding at + 1 ≡ from.old.at + size at insn) }
    ensures stays { OnOk result (end_of from.new ≡ end_of from.old) }
{
    let other = targets.far(at, from)?;
    let all = cases(alloc, targets, at, from)?;
    if !is_right(pad, &all) {
        return Err(CodeFault::Form { at });
    }
    Ok(switch_of(alloc, other, &all)?)
}

/// `lookupswitch`, after its opcode.
#[tactic(auto, unfolding(crate::specs::Reading::lookup_at))]
pub fn lookup(
    alloc: Global,
    targets: &Targets,
    at: u64,
    from: &mut Cursor,
) -> Result<Insn, CodeFault>
    requires { at < 2 ^ 32 }
    ensures reads { Reads CodeFault.Memory result (lookup_at (finds targets.now) at from.old) from.new }
    ensures moves { IfOk result (λ insn. from.new.at + 1 ≡ from.old.at + size at insn) }
    ensures stays { OnOk result (end_of from.new ≡ end_of from.old) }
{
    let pad = padding(at, from)?;
    keyed(alloc, targets, at, pad, from)
}
