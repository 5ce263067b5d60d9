//! The constant pool of a class, with the entries that blocks name.

ghost use Rattle.std.specs.Prelude.{◌≡◌, ◌<◌, ◌^◌, IfOk, OnOk, length};
ghost use Rattle.std.specs.List.{AllByRecursion};
ghost use Rattle.bytecode_model.specs.Heads.{text_at};
ghost use Rattle.offset_patch.specs.Added.{const_of, with_added, NamesBelow};
ghost use Rattle.offset_patch.specs.Entries.{wanted, place_in, IsThere};
ghost use Rattle.offset_patch.specs.Growth.{added_in, text_among};

use crate::adding::wanted;
use crate::block::PoolWant;
use crate::constants::Added;
use crate::growth::{Growth, growth_of};
use crate::known::{Known, known_place, noted};
use bytecode_model::text_at;
use class_codec::Const;
use mon_base::{Bytes, List, NoMemory};
use std::alloc::Global;
use std::marker::Model;

/// The constant pool of a class, with what is added after it. A contract sees the list of all the constants.
///
/// Where the first of each constant of the pool stands is kept in an ordered map, which is made once an entry is asked
/// for, and a set in the order of use numbers what is added. So the pool is gone over once, and an entry is found in few
/// steps whatever the number of blocks and of what they name. Where an entry stands that was asked for is kept too: what
/// blocks name again and again is looked for once.
#[derive(Drop)]
pub struct Entries {
    items: List<Const>,
    growth: Option<Growth>,
    known: Option<Known>,
}

impl Model for Entries {
    ghost use Rattle.std.specs.Prelude.{List, IfSome};
    ghost use Rattle.class_codec.specs.declared.tree.Const.{Const};
    ghost use Rattle.offset_patch.specs.Growth.{with_growth, IsGrowth};
    ghost use Rattle.offset_patch.specs.Known.{AreNoted};

    ghost Value = { List Const };

    ghost view = { λ e. with_growth e.items e.growth };

    ghost invariant = { λ e. IfSome e.growth (IsGrowth e.items) × AreNoted (with_growth e.items e.growth) e.known };
}

impl Entries {
    /// The constants of a pool.
    pub fn new(items: List<Const>) -> Entries
        ensures { result ≡ items }
    {
        Entries {
            items,
            growth: None,
            known: None,
        }
    }

    /// The number of places.
    pub fn count(&self) -> u64
        ensures is { result ≡ length self.now }
        ensures bound { result < 2 ^ 63 }
    {
        self.items.as_slice().len() as u64 + added_in(&self.growth).len() as u64
    }

    /// Sees to it that the entry is there, and tells where.
    pub fn add(&mut self, alloc: Global, want: PoolWant) -> Result<u64, NoMemory>
        ensures { IfOk result (λ at. wanted want self.old ≡ (self.new, at)) }
    {
        if let Some(place) = known_place(&self.known, want) {
            return Ok(place);
        }
        let known = self.known.take();
        let kept = self.growth.take();
        let mut growth = growth_of(alloc, self.items.as_slice(), kept)?;
        let place = wanted(alloc, self.items.as_slice(), &mut growth, want)?;
        let known = noted(alloc, known, want, place)?;
        self.growth = Some(growth);
        self.known = Some(known);
        Ok(place)
    }

    /// The place of an entry that is there, of few.
    pub fn place(&mut self, alloc: Global, want: PoolWant) -> Result<u16, NoMemory>
        requires few { length self.old < 2 ^ 16 }
        requires there { IsThere self.old want }
        ensures is { IfOk result (λ at. at ≡ place_in self.old want) }
        ensures kept { OnOk result (self.new ≡ self.old) }
    {
        let place = self.add(alloc, want)?;
        Ok(place as u16)
    }

    /// The text that the index names, or none.
    pub fn text_at(&self, index: u16) -> &[u8]
        ensures { result.now ≡ text_at self.now index }
    {
        let items = self.items.as_slice();
        if (index as usize) < items.len() {
            text_at(items, index)
        } else {
            text_among(added_in(&self.growth), index as usize - items.len())
        }
    }

    /// The constants, of which there are few.
    pub fn into_list(self, alloc: Global) -> Result<List<Const>, NoMemory>
        requires { length self < 2 ^ 16 }
        ensures { IfOk result (λ items. items ≡ self) }
    {
        let Entries {
            items,
            growth,
            known,
        } = self;
        let added = added_in(&growth);
        let mut items = items.into_vec();
        items.reserve_exact(added.len())?;
        let mut items = List::from_vec(items);
        put_added(alloc, &mut items, added)?;
        Ok(items)
    }
}

/// What is added.
fn added_in(growth: &Option<Growth>) -> &[Added]
    ensures { result.now ≡ added_in growth.now }
{
    match growth {
        Some(growth) => growth.added.as_slice(),
        None => &[],
    }
}

/// The text in this place among what is added, or none.
fn text_among(added: &[Added], place: usize) -> &[u8]
    ensures { result.now ≡ text_among added.now place }
{
    match added.get(place) {
        Some(Added::Text(text)) => text.as_slice(),
        _ => b"".as_slice(),
    }
}

/// Appends what was added.
fn put_added(alloc: Global, items: &mut List<Const>, added: &[Added]) -> Result<(), NoMemory>
    requires { AllByRecursion (NamesBelow (2 ^ 16)) added.now }
    ensures { OnOk result (items.new ≡ with_added items.old added.now) }
{
    for one in added {
        items.push(constant(alloc, one)?)?;
    }
    Ok(())
}

fn constant(alloc: Global, added: &Added) -> Result<Const, NoMemory>
    requires { NamesBelow (2 ^ 16) added.now }
    ensures { IfOk result (λ constant. constant ≡ const_of added.now) }
{
    match added {
        Added::Text(text) => {
            let text = Bytes::from_slice(alloc, text.as_slice())?;
            Ok(Const::Utf8(text))
        }
        Added::Class(name) => Ok(Const::Class(*name as u16)),
        Added::NameAndType(name, desc) => Ok(Const::NameAndType(*name as u16, *desc as u16)),
        Added::Field(class, member) => Ok(Const::Field(*class as u16, *member as u16)),
        Added::Method(class, member) => Ok(Const::Method(*class as u16, *member as u16)),
        Added::Integer(n) => Ok(Const::Integer(*n)),
    }
}
