//! What is added after a pool, each constant where no equal one stands.

ghost use Rattle.std.specs.Prelude.{◌≡◌, ◌+◌, ◌<◌, ◌≤◌, ◌^◌};
ghost use Rattle.std.specs.Prelude.{Some, None, if◌then◌else◌, IfOk, IfSome, OnOk, length};
ghost use Rattle.std.specs.Option.{option_or};
ghost use Rattle.offset_patch.specs.declared.constants.Added.{Added};
ghost use Rattle.offset_patch.specs.Added.{const_of, with_added, NamesBelow};
ghost use Rattle.offset_patch.specs.Entries.{same, entry};
ghost use Rattle.indexmap.specs.IndexSet.{insert_index, insert_key};
ghost use Rattle.offset_patch.specs.Growth.{added_eq, found_at, with_growth, ArePlaced, Finds, IsGrowth};

use crate::constants::{Added, added_of};
use class_codec::Const;
use indexmap::IndexSet;
use mon_base::NoMemory;
use std::alloc::Global;
use std::collections::BTreeMap;

/// What is added after a pool, in the order of use, and where the first of each constant of the pool stands.
#[derive(Drop)]
pub struct Growth {
    pub added: IndexSet<Added>,
    pub places: BTreeMap<Added, u64>,
}

/// What is there, or the beginning, of which nothing is added.
pub fn growth_of(alloc: Global, pool: &[Const], growth: Option<Growth>) -> Result<Growth, NoMemory>
    requires { IfSome growth (IsGrowth pool.now) }
    ensures is { IfOk result (λ made. with_added pool.now made.added.keys ≡ with_growth pool.now growth) }
    ensures good { IfOk result (IsGrowth pool.now) }
{
    match growth {
        Some(growth) => Ok(growth),
        None => {
            let places = places_of(alloc, pool)?;
            let added = IndexSet::new(alloc);
            Ok(Growth { added, places })
        }
    }
}

/// Where the first of each constant of the pool stands.
fn places_of(alloc: Global, pool: &[Const]) -> Result<BTreeMap<Added, u64>, NoMemory>
    ensures { IfOk result (λ places. ArePlaced places pool.now) }
{
    let mut places = BTreeMap::new(alloc);
    let mut at: u64 = 0;
    let mut left = pool;
    while let [constant, rest @ ..] = left {
        add_place(alloc, &mut places, constant, at)?;
        at += 1;
        left = rest;
    }
    Ok(places)
}

/// Notes where the constant stands, if no equal one stands before it.
fn add_place(
    alloc: Global,
    places: &mut BTreeMap<Added, u64>,
    constant: &Const,
    at: u64,
) -> Result<(), NoMemory>
    ensures { OnOk result ((q : Added) → found_at places.new q
        ≡ option_or (found_at places.old q) (if same (const_of q) constant.now then Some at else None)) }
{
    match added_of(alloc, constant)? {
        Some(key) => add_first(places, key, at),
        None => Ok(()),
    }
}

fn add_first(places: &mut BTreeMap<Added, u64>, key: Added, at: u64) -> Result<(), NoMemory>
    ensures { OnOk result ((q : Added) → found_at places.new q
        ≡ option_or (found_at places.old q) (if same (const_of q) (const_of key) then Some at else None)) }
{
    if !places.contains_key(&key) {
        places.insert(key, at)?;
    }
    Ok(())
}

/// Sees to it that the constant is there, and tells where the first one stands.
pub fn entry(pool: &[Const], growth: &mut Growth, wanted: Added) -> Result<u64, NoMemory>
    requires good { IsGrowth pool.now growth.old }
    requires names { NamesBelow (length pool.now + length growth.old.added.keys) wanted }
    ensures is { IfOk result (Finds (entry (const_of wanted)) pool.now growth.old growth.new) }
    ensures good { OnOk result (IsGrowth pool.now growth.new) }
    ensures below { IfOk result (λ at. at < length pool.now + length growth.new.added.keys) }
    ensures more { OnOk result (length growth.old.added.keys ≤ length growth.new.added.keys) }
{
    match place(&growth.places, &wanted) {
        Some(at) => Ok(at),
        None => {
            let index = number(&mut growth.added, wanted)?;
            Ok(pool.len() as u64 + index)
        }
    }
}

/// Where the first of the constant stands in the pool.
fn place(places: &BTreeMap<Added, u64>, wanted: &Added) -> Option<u64>
    ensures { result ≡ found_at places.now wanted.now }
{
    places.get(wanted).copied()
}

/// The number of the constant among what is added: a new one stands last.
fn number(added: &mut IndexSet<Added>, wanted: Added) -> Result<u64, NoMemory>
    ensures is { IfOk result (λ index. index ≡ insert_index added_eq added.old wanted) }
    ensures keys { OnOk result (added.new.keys ≡ insert_key added_eq added.old.keys wanted) }
    ensures bound { IfOk result (λ index. index < 2 ^ 63) }
{
    let (index, _) = added.insert_full(wanted)?;
    // `len` tells that the set holds fewer than 2^63: so each place fits.
    let _count = added.len();
    Ok(index as u64)
}
