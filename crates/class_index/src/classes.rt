//! Lists of classes in which one is found by its name without a search through the list.

ghost use Rattle.std.specs.Prelude.{◌≡◌, ◌+◌, Some, length, slice_get, IfOk, IfSome, option_copied};
ghost use Rattle.api_listing.specs.Listing.{is_known};
ghost use Rattle.api_listing.specs.Nearest.{class_named, interfaces_of};

use api_listing::ListedClass;
use bytecode_model::{ByName, class_places, noted, placed_class};
use mon_base::{Bytes, List, NoMemory};
use std::alloc::Global;
use std::marker::Model;

/// Classes, of which the first of each name is found by that name. A contract sees the list.
#[derive(Drop)]
pub struct Classes {
    list: List<ListedClass>,
    places: ByName<usize>,
    interfaces: u64,
}

impl Model for Classes {
    ghost use Rattle.std.specs.Prelude.{List};
    ghost use Rattle.api_listing.specs.declared.types.ListedClass.{ListedClass};
    ghost use Rattle.class_index.specs.Index.{AreClasses};

    ghost Value = { List ListedClass };

    ghost view = { λ c. c.list };

    ghost invariant = { λ c. AreClasses c.places c.interfaces c.list };
}

impl Classes {
    /// These classes.
    pub fn new(alloc: Global, list: List<ListedClass>) -> Result<Classes, NoMemory>
        ensures { IfOk result (λ classes. classes ≡ list) }
    {
        let interfaces = count_interfaces(list.as_slice())?;
        let places = class_places(alloc, list.as_slice())?;
        Ok(Classes {
            list,
            places,
            interfaces,
        })
    }

    /// The first class with the name.
    pub fn named(&self, name: &Bytes) -> Option<&ListedClass>
        ensures { option_copied result ≡ class_named self.now name.now }
    {
        placed_class(self.list.as_slice(), &self.places, name.as_slice())
    }

    /// The same, and its place.
    pub fn placed(&self, name: &Bytes) -> Option<(usize, &ListedClass)>
        ensures { IfSome result (λ found. (slice_get self.now found.0 ≡ Some found.1.now)
            × (class_named self.now name.now ≡ Some found.1.now)) }
    {
        let place = noted(&self.places, name.as_slice())?;
        let class = self.list.as_slice().get(place)?;
        Some((place, class))
    }

    /// Whether one has the name.
    pub fn has(&self, name: &Bytes) -> bool
        ensures { result ≡ is_known self.now name.now }
    {
        self.places.contains_key(name.as_slice())
    }

    /// The classes in their order.
    pub fn as_slice(&self) -> &[ListedClass]
        ensures { result.now ≡ self.now }
    {
        self.list.as_slice()
    }

    /// How many interfaces they name, each as often as it is named.
    pub fn interfaces(&self) -> u64
        ensures { result ≡ length (interfaces_of self.now) }
    {
        self.interfaces
    }

    /// How many classes there are.
    pub fn len(&self) -> usize
        ensures { result ≡ length self.now }
    {
        self.list.len()
    }
}

/// How many interfaces the classes name. What is known of a listing bounds its classes, and not the interfaces that each names, so
/// more than a number of 64 bits counts is answered as want of memory.
fn count_interfaces(classes: &[ListedClass]) -> Result<u64, NoMemory>
    ensures { IfOk result (λ count. count ≡ length (interfaces_of classes.now)) }
{
    let mut count: u64 = 0;
    let mut left = classes;
    while let [class, rest @ ..] = left {
        count = add(count, class.interfaces.len())?;
        left = rest;
    }
    Ok(count)
}

/// The sum, if a number of 64 bits holds it.
pub fn add(count: u64, more: usize) -> Result<u64, NoMemory>
    ensures { IfOk result (λ sum. sum ≡ count + more) }
{
    match count.checked_add(more as u64) {
        Some(sum) => Ok(sum),
        None => Err(NoMemory),
    }
}
