//! The names of a certificate that is written, and their places.

ghost use Rattle.std.specs.Prelude.{◌≡◌, List as Items, [], ◌∷◌, ◌++◌, map, Some, None, IfOk, IfSome, OnOk};
ghost use Rattle.cert_format.specs.Names.{Name, name_index, with_name};
ghost use Rattle.cert_format.specs.Index.{found, ArePlaced};
ghost use Rattle.cert_format.specs.Encoding.{encode_names};

use crate::writing::{put_u2, put_u4};
use mon_base::{Bytes, List, NoMemory};
use std::alloc::Global;
use std::collections::BTreeMap;
use std::marker::Model;

/// How many names are found by their last bytes.
const SLOTS: usize = 1024;

/// A name and its place.
#[derive(Drop)]
struct Known<'a> {
    name: &'a [u8],
    place: usize,
}

/// Names, each once, with the place of each. A contract sees the list of the names.
///
/// Most are found by their last bytes, since types that follow one another have few names; the others in an ordered map.
#[derive(Drop)]
pub struct Index<'a> {
    places: BTreeMap<&'a [u8], usize>,
    names: Vec<&'a [u8]>,
    slots: List<Option<Known<'a>>>,
}

impl<'a> Model for Index<'a> {
    ghost use Rattle.std.specs.Prelude.{ℕ, List, map};
    ghost use Rattle.cert_format.specs.Index.{HasPlaces, ArePlaced};

    ghost Value = { List (List ℕ) };

    ghost view = { λ i. map (λ name. name.now) i.names.items };

    ghost invariant = { λ i. HasPlaces (map (λ name. name.now) i.names.items) i.places
        × ArePlaced (map (λ name. name.now) i.names.items) i.slots };
}

/// Where a name is sought, by its last bytes.
fn slot_of(name: &[u8]) -> usize {
    let mut slot: usize = 0;
    for byte in &name[name.len().saturating_sub(3)..] {
        slot = slot.wrapping_mul(10).wrapping_add(usize::from(*byte)) % SLOTS;
    }
    slot
}

/// No name yet in any slot.
fn no_slots<'a>(alloc: Global) -> Result<List<Option<Known<'a>>>, NoMemory>
    ensures { IfOk result (λ slots. (names : Items Name) → ArePlaced names slots) }
{
    let mut slots = List::with_room(alloc, SLOTS)?;
    for _ in 0..SLOTS {
        slots.push(None)?;
    }
    Ok(slots)
}

/// The place of the name, where it is found so.
fn kept_in(slots: &[Option<Known<'_>>], name: &[u8]) -> Option<usize>
    ensures { IfSome result (λ place. (names : Items Name) → ArePlaced names slots.now → found names name.now ≡ Some place) }
{
    match slots.get(slot_of(name)) {
        Some(Some(known)) => {
            if known.name == name {
                Some(known.place)
            } else {
                None
            }
        }
        _ => None,
    }
}

/// Keeps the place of the name, in place of what is kept there.
fn keep<'a>(slots: &mut List<Option<Known<'a>>>, name: &'a [u8], place: usize)
    ensures { (names : Items Name) → ArePlaced names slots.old → found names name.now ≡ Some place → ArePlaced names slots.new }
{
    let slot = slot_of(name);
    if slot < slots.len() {
        slots.replace(slot, Some(Known { name, place }));
    }
}

impl<'a> Index<'a> {
    /// The index without names.
    pub fn new(alloc: Global) -> Result<Index<'a>, NoMemory>
        ensures { IfOk result (λ index. index ≡ []) }
    {
        Ok(Index {
            places: BTreeMap::new(alloc),
            names: Vec::new(alloc),
            slots: no_slots(alloc)?,
        })
    }

    /// Adds the name at the end, if it is new.
    pub fn add(&mut self, name: &'a [u8]) -> Result<(), NoMemory>
        ensures { OnOk result (self.new ≡ with_name self.old name.now) }
    {
        if kept_in(self.slots.as_slice(), name).is_some() {
            return Ok(());
        }
        match self.places.get(name) {
            Some(place) => {
                let place = *place;
                keep(&mut self.slots, name, place);
                Ok(())
            }
            None => self.add_new(name),
        }
    }

    /// Adds the name, which is none of those that are there.
    fn add_new(&mut self, name: &'a [u8]) -> Result<(), NoMemory>
        requires { found self.old name.now ≡ None }
        ensures { OnOk result (self.new ≡ self.old ++ name.now ∷ []) }
    {
        let place = self.names.as_slice().len();
        self.names.reserve(1)?;
        self.places.insert(name, place)?;
        self.names.push(name).unwrap();
        keep(&mut self.slots, name, place);
        Ok(())
    }

    /// The place of the name, or the number of names where it is none of them.
    pub fn place(&self, name: &[u8]) -> usize
        ensures { result ≡ name_index self.now name.now }
    {
        if let Some(place) = kept_in(self.slots.as_slice(), name) {
            return place;
        }
        match self.places.get(name) {
            Some(place) => *place,
            None => {
                let names = self.names.as_slice();
                names.len()
            }
        }
    }

    /// Appends the names: four bytes of count, and each with its length before it.
    pub fn put_names(&self, out: &mut Bytes) -> Result<(), NoMemory>
        ensures { OnOk result (out.new ≡ out.old ++ encode_names self.now) }
    {
        put_table(self.names.as_slice(), out)
    }
}

/// Appends the names: four bytes of count, and each with its length before it.
fn put_table(names: &[&[u8]], out: &mut Bytes) -> Result<(), NoMemory>
    ensures { OnOk result (out.new ≡ out.old ++ encode_names (map (λ name. name.now) names.now)) }
{
    put_u4(out, names.len())?;
    for name in names {
        put_u2(out, name.len())?;
        out.extend(name)?;
    }
    Ok(())
}
