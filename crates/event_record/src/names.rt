//! The names of a listing, in an ordered set and an ordered map that are made once.

ghost use Rattle.std.specs.Prelude.{◌≡◌, ◌<◌, ◌^◌, ◌||◌, ℕ, List, length, bytes_eq, IfOk, OnOk, Some};
ghost use Rattle.api_listing.specs.Listing.{is_known};
ghost use Rattle.api_listing.specs.declared.types.ListedMethod.{ListedMethod};
ghost use Rattle.mon_base.specs.declared.method.MethodId.{MethodId};
ghost use Rattle.event_record.specs.Library.{AddsFirst, AreNames, class_listed, id_in, index_in, place_listed};
ghost use Rattle.event_record.specs.Encoding.{IsFirst};

use api_listing::{ListedClass, ListedMethod, Listing};
use mon_base::{MethodId, NoMemory};
use std::alloc::Global;
use std::collections::{BTreeMap, BTreeSet};

/// The name of a method, each word a part of a text.
#[derive(Clone, Copy, PartialEq, Eq, PartialOrd, Ord)]
pub struct MethodName<'a> {
    pub class: &'a [u8],
    pub name: &'a [u8],
    pub desc: &'a [u8],
}

/// The names of classes, and the indices of methods. They are parts of the listing, not copies.
#[derive(Drop)]
pub struct Names<'a> {
    pub classes: BTreeSet<&'a [u8]>,
    pub methods: BTreeMap<MethodName<'a>, u32>,
}

/// The names of a listing.
pub fn names_of<'a>(alloc: Global, listing: &'a Listing) -> Result<Names<'a>, NoMemory>
    requires { length listing.now.methods < 2 ^ 32 }
    ensures { IfOk result (λ names. AreNames listing.now names) }
{
    let classes = classes_of(alloc, listing.classes.as_slice())?;
    let methods = methods_of(alloc, listing.methods.as_slice())?;
    Ok(Names { classes, methods })
}

/// The index of a method is that of the first method of the listing with its class, name and descriptor.
pub fn methods_are_found()
    ensures found { (methods : List ListedMethod) (id : MethodId) (index : ℕ)
        → index_in methods id ≡ Some index → IsFirst methods id index }
    ensures only { (methods : List ListedMethod) (id : MethodId) (index : ℕ)
        → IsFirst methods id index → index_in methods id ≡ Some index }
{}

fn classes_of<'a>(alloc: Global, classes: &'a [ListedClass]) -> Result<BTreeSet<&'a [u8]>, NoMemory>
    ensures { IfOk result (λ names. (q : List ℕ) → class_listed names q ≡ is_known classes.now q) }
{
    let mut names = BTreeSet::new(alloc);
    for class in classes {
        add_name(&mut names, class.name.as_slice())?;
    }
    Ok(names)
}

fn add_name<'a>(names: &mut BTreeSet<&'a [u8]>, name: &'a [u8]) -> Result<(), NoMemory>
    ensures { OnOk result ((q : List ℕ) → class_listed names.new q ≡ (bytes_eq name.now q || class_listed names.old q)) }
{
    names.insert(name)?;
    Ok(())
}

/// The index of the first method of each name.
fn methods_of<'a>(
    alloc: Global,
    methods: &'a [ListedMethod],
) -> Result<BTreeMap<MethodName<'a>, u32>, NoMemory>
    requires { length methods.now < 2 ^ 32 }
    ensures { IfOk result (λ places. (q : MethodId) → place_listed places q ≡ index_in methods.now q) }
{
    let mut places = BTreeMap::new(alloc);
    let mut index: u32 = 0;
    let mut left = methods;
    while let [method, rest @ ..] = left {
        add_first(&mut places, &method.id, index)?;
        index += 1;
        left = rest;
    }
    Ok(places)
}

/// Adds a method with its index, if its name is new.
fn add_first<'a>(
    places: &mut BTreeMap<MethodName<'a>, u32>,
    id: &'a MethodId,
    index: u32,
) -> Result<(), NoMemory>
    ensures { OnOk result (AddsFirst places.old places.new id.now index) }
{
    let name = name_of(id);
    if !places.contains_key(&name) {
        places.insert(name, index)?;
    }
    Ok(())
}

fn name_of<'a>(id: &'a MethodId) -> MethodName<'a>
    ensures { id_in result ≡ id.now }
{
    MethodName {
        class: id.class.as_slice(),
        name: id.name.as_slice(),
        desc: id.desc.as_slice(),
    }
}
