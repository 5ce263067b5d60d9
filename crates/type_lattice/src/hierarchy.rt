//! Classes that are found by their names, and of which it is told which are below which, without a search.

ghost use Rattle.std.specs.Prelude.{◌≡◌, false, option_copied, option_map, slice_get, IfOk};
ghost use Rattle.std.specs.Option.{option_map_or};
ghost use Rattle.api_listing.specs.declared.types.ListedClass.{ListedClass};
ghost use Rattle.api_listing.specs.Nearest.{class_named};
ghost use Rattle.type_lattice.specs.Hierarchy.{is_up, nearest_common, parents_in};
ghost use Rattle.bytecode_model.specs.Order.{EachWayEnds};
ghost use Rattle.bytecode_model.specs.Places.{ClassesPlaced, class_place};

use crate::skip_pointers::SkipPointers;
use api_listing::ListedClass;
use bytecode_model::{ByName, class_places, noted, placed_class};
use mon_base::{List, NoMemory};
use std::alloc::Global;
use std::marker::Model;

/// Classes, of which the first of each name is found by that name, with the ways up. A contract sees the list.
#[derive(Drop)]
pub struct Hierarchy {
    classes: List<ListedClass>,
    places: ByName<usize>,
    skip_pointers: SkipPointers,
}

impl Model for Hierarchy {
    ghost use Rattle.std.specs.Prelude.{List};
    ghost use Rattle.api_listing.specs.declared.types.ListedClass.{ListedClass};
    ghost use Rattle.type_lattice.specs.Hierarchy.{IsHierarchy};

    ghost Value = { List ListedClass };

    ghost view = { λ h. h.classes };

    ghost invariant = { λ h. IsHierarchy h.classes h.places h.skip_pointers };
}

impl Hierarchy {
    /// These classes, in any order. The way up from each has to end.
    pub fn new(alloc: Global, classes: List<ListedClass>) -> Result<Hierarchy, NoMemory>
        requires { EachWayEnds classes }
        ensures { IfOk result (λ hierarchy. hierarchy ≡ classes) }
    {
        let places = class_places(alloc, classes.as_slice())?;
        let parents = parent_places(alloc, classes.as_slice(), &places)?;
        let skip_pointers = SkipPointers::new(alloc, parents.as_slice())?;
        Ok(Hierarchy {
            classes,
            places,
            skip_pointers,
        })
    }

    /// The classes in their order.
    pub fn as_slice(&self) -> &[ListedClass]
        ensures { result.now ≡ self.now }
    {
        self.classes.as_slice()
    }

    /// The place of the first class with the name.
    pub fn class_place(&self, name: &[u8]) -> Option<usize>
        ensures { result ≡ class_place self.now name.now }
    {
        noted(&self.places, name)
    }

    /// The first class with the name.
    pub fn class_named(&self, name: &[u8]) -> Option<&ListedClass>
        ensures { option_copied result ≡ class_named self.now name.now }
    {
        placed_class(self.classes.as_slice(), &self.places, name)
    }

    /// Whether the class is an interface.
    pub fn is_interface(&self, name: &[u8]) -> bool
        ensures { result ≡ option_map_or (λ (c : ListedClass). c.is_interface) (class_named self.now name.now) false }
    {
        match self.class_named(name) {
            Some(class) => class.is_interface,
            None => false,
        }
    }

    /// Whether the class is of the other name, or one of its superclasses is.
    pub fn is_below(&self, class: &[u8], above: &[u8]) -> bool
        ensures { result ≡ is_up self.now class.now above.now }
    {
        let Some(class) = noted(&self.places, class) else {
            return false;
        };
        match noted(&self.places, above) {
            Some(above) => self.skip_pointers.leads_to(class, above),
            None => false,
        }
    }

    /// The name of the first class upwards from the one that the other is below, too.
    pub fn nearest_common(&self, class: &[u8], other: &[u8]) -> Option<&[u8]>
        ensures { option_copied result ≡ nearest_common self.now class.now other.now }
    {
        let class = noted(&self.places, class)?;
        let other = noted(&self.places, other)?;
        let place = self.skip_pointers.meeting(class, other)?;
        name_at(self.classes.as_slice(), place)
    }
}

/// The name of the class at the place.
fn name_at(classes: &[ListedClass], place: usize) -> Option<&[u8]>
    ensures { option_copied result ≡ option_map (λ (c : ListedClass). c.name) (slice_get classes.now place) }
{
    match classes.get(place) {
        Some(class) => Some(class.name.as_slice()),
        None => None,
    }
}

/// The place of the superclass of each class.
fn parent_places(
    alloc: Global,
    classes: &[ListedClass],
    places: &ByName<usize>,
) -> Result<Vec<Option<usize>>, NoMemory>
    requires { ClassesPlaced places.now classes.now }
    ensures { IfOk result (λ parents. parents.items ≡ parents_in classes.now) }
{
    let mut parents = Vec::new(alloc);
    for class in classes {
        parents.push(noted(places, class.parent.as_slice()))?;
    }
    Ok(parents)
}
