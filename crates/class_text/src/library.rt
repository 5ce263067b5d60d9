//! The methods of a listing, found through ordered maps that are made once.

ghost use Rattle.std.specs.Prelude.{◌≡◌, ◌++◌, Some, None, length, if◌then◌else◌, IfOk, OnOk, option_copied};
ghost use Rattle.std.specs.Option.{option_or};
ghost use Rattle.mon_base.specs.declared.method.MethodId.{MethodId};
ghost use Rattle.api_listing.specs.BuiltIn.{is_method};
ghost use Rattle.api_listing.specs.Nearest.{class_named, declared_in, first_declared, upwards, names_of, interfaces_of, looked_in};
ghost use Rattle.class_text.specs.Library.{method_in, MethodsPlaced};
ghost use Rattle.class_text.specs.Lines.{listed_for};

use api_listing::{ListedClass, ListedMethod, Listing};
use bytecode_model::{ByName, class_places, placed_class};
use mon_base::{Bytes, List, MethodId, NoMemory};
use std::alloc::Global;
use std::collections::BTreeMap;
use std::marker::Model;

/// A listing in which the method that a call means is found without a search through it. A contract sees the listing.
#[derive(Drop)]
pub struct Library<'a> {
    listing: &'a Listing,
    classes: ByName<usize>,
    methods: BTreeMap<MethodId, usize>,
}

impl<'a> Model for Library<'a> {
    ghost use Rattle.api_listing.specs.declared.types.Listing.{Listing};
    ghost use Rattle.class_text.specs.Library.{IsLibrary};

    ghost Value = { Listing };

    ghost view = { λ l. l.listing.now };

    ghost invariant = { λ l. IsLibrary l.classes l.methods l.listing.now };
}

impl<'a> Library<'a> {
    /// The methods of the listing.
    pub fn new(alloc: Global, listing: &'a Listing) -> Result<Library<'a>, NoMemory>
        ensures { IfOk result (λ library. library ≡ listing.now) }
    {
        let classes = class_places(alloc, listing.classes.as_slice())?;
        let methods = method_places(alloc, listing.methods.as_slice())?;
        Ok(Library {
            listing,
            classes,
            methods,
        })
    }

    /// The method that a reference means.
    pub fn listed_for(
        &self,
        alloc: Global,
        id: &MethodId,
    ) -> Result<Option<&ListedMethod>, NoMemory>
        ensures { IfOk result (λ method. option_copied method ≡ listed_for self.now id.now) }
    {
        let classes = self.looked_in(alloc, &id.class)?;
        let place = self.first_declared(alloc, id, classes.as_slice())?;
        match place {
            Some(place) => Ok(self.listing.methods.as_slice().get(place)),
            None => Ok(None),
        }
    }

    /// The place of the method that the first of the classes has which declares it.
    fn first_declared(
        &self,
        alloc: Global,
        id: &MethodId,
        classes: &[Bytes],
    ) -> Result<Option<usize>, NoMemory>
        ensures { IfOk result (λ place. place ≡ first_declared self.now.methods id.now.name id.now.desc classes.now) }
    {
        let mut left = classes;
        while let [class, rest @ ..] = left {
            let found = self.declared_in(alloc, id, class)?;
            if let Some(place) = found {
                return Ok(Some(place));
            }
            left = rest;
        }
        Ok(None)
    }

    /// The place of the method that the very class declares.
    fn declared_in(
        &self,
        alloc: Global,
        id: &MethodId,
        class: &Bytes,
    ) -> Result<Option<usize>, NoMemory>
        ensures { IfOk result (λ place. place ≡ declared_in self.now.methods id.now.name id.now.desc class.now) }
    {
        let class = class.copy(alloc)?;
        let name = id.name.copy(alloc)?;
        let desc = id.desc.copy(alloc)?;
        let own = MethodId { class, name, desc };
        match self.methods.get(&own) {
            Some(place) => Ok(Some(*place)),
            None => Ok(None),
        }
    }

    /// The class with the name.
    fn class_named(&self, name: &Bytes) -> Option<&ListedClass>
        ensures { option_copied result ≡ class_named self.now.classes name.now }
    {
        placed_class(
            self.listing.classes.as_slice(),
            &self.classes,
            name.as_slice(),
        )
    }

    /// The classes in which a method of the class is looked for.
    fn looked_in(&self, alloc: Global, class: &Bytes) -> Result<List<Bytes>, NoMemory>
        ensures { IfOk result (λ names. names ≡ looked_in self.now class.now) }
    {
        let mut names = List::new(alloc);
        let mut interfaces = List::new(alloc);
        self.climb(alloc, class, &mut names, &mut interfaces)?;
        add_names(alloc, &mut names, interfaces.as_slice())?;
        Ok(names)
    }

    /// Adds the names of the class and its superclasses, and the interfaces of these.
    fn climb(
        &self,
        alloc: Global,
        name: &Bytes,
        names: &mut List<Bytes>,
        interfaces: &mut List<Bytes>,
    ) -> Result<(), NoMemory>
        ensures names { OnOk result (names.new
            ≡ names.old ++ names_of (upwards (length self.now.classes) self.now.classes name.now)) }
        ensures interfaces { OnOk result (interfaces.new
            ≡ interfaces.old ++ interfaces_of (upwards (length self.now.classes) self.now.classes name.now)) }
    {
        let mut at = name;
        for _ in 0..self.listing.classes.len() {
            let Some(class) = self.class_named(at) else {
                return Ok(());
            };
            let own = class.name.copy(alloc)?;
            names.push(own)?;
            add_names(alloc, interfaces, class.interfaces.as_slice())?;
            at = &class.parent;
        }
        Ok(())
    }
}

fn add_names(alloc: Global, names: &mut List<Bytes>, others: &[Bytes]) -> Result<(), NoMemory>
    ensures { OnOk result (names.new ≡ names.old ++ others.now) }
{
    for name in others {
        let one = name.copy(alloc)?;
        names.push(one)?;
    }
    Ok(())
}

/// Notes the place of a method, if its name is new.
fn add_method(
    alloc: Global,
    places: &mut BTreeMap<MethodId, usize>,
    id: &MethodId,
    place: usize,
) -> Result<(), NoMemory>
    ensures { OnOk result ((q : MethodId) → method_in places.new q
        ≡ option_or (method_in places.old q) (if is_method q.class q.name q.desc id.now then Some place else None)) }
{
    if !places.contains_key(id) {
        let id = id.copy(alloc)?;
        places.insert(id, place)?;
    }
    Ok(())
}

/// The place of the first method of each name.
fn method_places(
    alloc: Global,
    methods: &[ListedMethod],
) -> Result<BTreeMap<MethodId, usize>, NoMemory>
    ensures { IfOk result (λ places. MethodsPlaced places methods.now) }
{
    let mut places = BTreeMap::new(alloc);
    let mut index = 0;
    let mut left = methods;
    while let [method, rest @ ..] = left {
        add_method(alloc, &mut places, &method.id, index)?;
        index += 1;
        left = rest;
    }
    Ok(places)
}
