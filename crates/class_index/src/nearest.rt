//! The nearest class that declares a member, from a class upwards. Each class that a reference names, and each above
//! it, has an array of what is found in it and its superclasses, by the numbers of names and descriptors: that of its
//! superclass with its own members put in.

ghost use Rattle.std.specs.Prelude.{◌≡◌, List, Option, Some, IfOk, IfSome, OnOk};
ghost use Rattle.mon_base.specs.declared.method.MethodId.{MethodId};
ghost use Rattle.api_listing.specs.Nearest.{names_of};
ghost use Rattle.bytecode_model.specs.declared.members.Found.{Found};
ghost use Rattle.bytecode_model.specs.Members.{first_found, in_class};
ghost use Rattle.bytecode_model.specs.SearchOrder.{superclasses};
ghost use Rattle.class_index.specs.Index.{found_in};
ghost use Rattle.class_index.specs.Nearest.{member_number, AreNumbers, AreOwn, AreVersions, IsVersion, Numbers};

use crate::classes::Classes;
use crate::members::found_at;
use crate::numbers::{ByClass, Numbers, by_class, member_number, numbers_of, own_of, reference};
use crate::places::add_name;
use crate::search::add_copy;
use api_listing::ListedClass;
use bytecode_model::{ByName, Found, MemberKind, copy_class, note, noted};
use class_codec::{ClassFile, Const};
use mon_base::persistent::{Halves, depth_of, item_at, put_each};
use mon_base::{Bytes, List, MethodId, NoMemory};
use std::alloc::Global;
use std::collections::{BTreeMap, BTreeSet};

/// The array of a class, and how many classes up no more are found.
#[derive(Clone, Copy)]
pub struct Version {
    pub root: usize,
    pub height: usize,
}

/// The arrays of classes.
#[derive(Drop)]
pub struct Versions {
    pub depth: usize,
    pub nodes: List<Halves>,
    pub places: ByName<Version>,
}

/// The arrays of classes, and the numbers of their items.
#[derive(Drop)]
pub struct Nearest {
    pub numbers: Numbers,
    pub versions: Versions,
}

/// What is declared, and the numbers of what each class declares.
#[derive(Drop)]
struct Numbered<'a> {
    found: &'a BTreeMap<MethodId, Found>,
    numbers: &'a Numbers,
    own: ByClass,
}

/// The arrays for the references of the files to methods or to fields.
pub fn nearest_of(
    alloc: Global,
    classes: &Classes,
    declared: &BTreeMap<MethodId, Found>,
    kind: MemberKind,
    files: &[ClassFile],
) -> Result<Nearest, NoMemory>
    ensures { IfOk result (λ nearest. AreVersions (found_in declared.now) nearest.numbers classes.now nearest.versions) }
{
    let numbers = numbers_of(alloc, kind, files)?;
    let versions = versions_of(alloc, classes, declared, &numbers, kind, files)?;
    Ok(Nearest { numbers, versions })
}

/// The arrays of what has these numbers.
fn versions_of(
    alloc: Global,
    classes: &Classes,
    declared: &BTreeMap<MethodId, Found>,
    numbers: &Numbers,
    kind: MemberKind,
    files: &[ClassFile],
) -> Result<Versions, NoMemory>
    requires { AreNumbers numbers.now }
    ensures { IfOk result (AreVersions (found_in declared.now) numbers.now classes.now) }
{
    let own = by_class(alloc, numbers, declared)?;
    let numbered = Numbered {
        found: declared,
        numbers,
        own,
    };
    let mut versions = no_versions(alloc, numbers)?;
    add_files(alloc, classes, &numbered, &mut versions, kind, files)?;
    Ok(versions)
}

/// No array but that of zeros, with room for all numbers.
fn no_versions(alloc: Global, numbers: &Numbers) -> Result<Versions, NoMemory>
    requires { AreNumbers numbers.now }
    ensures { IfOk result (λ versions. (look : MethodId → Option Found) (classes : List ListedClass)
        → AreVersions look numbers.now classes versions) }
{
    let mut nodes = List::new(alloc);
    nodes.push(Halves { even: 0, odd: 0 })?;
    Ok(Versions {
        depth: depth_of(numbers.len()),
        nodes,
        places: BTreeMap::new(alloc),
    })
}

/// Adds the arrays of the classes that the files refer to.
fn add_files(
    alloc: Global,
    classes: &Classes,
    numbered: &Numbered,
    versions: &mut Versions,
    kind: MemberKind,
    files: &[ClassFile],
) -> Result<(), NoMemory>
    requires own { AreOwn numbered.now.own numbered.now.numbers.now numbered.now.found.now.entries }
    requires versions { AreVersions (found_in numbered.now.found.now) numbered.now.numbers.now classes.now versions.old }
    ensures { OnOk result (AreVersions (found_in numbered.now.found.now) numbered.now.numbers.now classes.now versions.new) }
{
    let mut seen = BTreeSet::new(alloc);
    for file in files {
        let pool = file.pool.as_slice();
        add_references(alloc, classes, numbered, versions, &mut seen, kind, pool)?;
    }
    Ok(())
}

/// Adds the arrays of the classes that the constants refer to.
fn add_references(
    alloc: Global,
    classes: &Classes,
    numbered: &Numbered,
    versions: &mut Versions,
    seen: &mut BTreeSet<Bytes>,
    kind: MemberKind,
    pool: &[Const],
) -> Result<(), NoMemory>
    requires own { AreOwn numbered.now.own numbered.now.numbers.now numbered.now.found.now.entries }
    requires versions { AreVersions (found_in numbered.now.found.now) numbered.now.numbers.now classes.now versions.old }
    ensures { OnOk result (AreVersions (found_in numbered.now.found.now) numbered.now.numbers.now classes.now versions.new) }
{
    for constant in pool {
        if let Some((class, _)) = reference(kind, constant) {
            add_upwards(alloc, classes, numbered, versions, seen, pool, class)?;
        }
    }
    Ok(())
}

/// Adds the arrays of the class that the index names, and of those above it.
fn add_upwards(
    alloc: Global,
    classes: &Classes,
    numbered: &Numbered,
    versions: &mut Versions,
    seen: &mut BTreeSet<Bytes>,
    pool: &[Const],
    class: u16,
) -> Result<(), NoMemory>
    requires own { AreOwn numbered.now.own numbered.now.numbers.now numbered.now.found.now.entries }
    requires versions { AreVersions (found_in numbered.now.found.now) numbered.now.numbers.now classes.now versions.old }
    ensures { OnOk result (AreVersions (found_in numbered.now.found.now) numbered.now.numbers.now classes.now versions.new) }
{
    let name = copy_class(alloc, pool, class)?;
    let names = names_above(alloc, classes, seen, &name)?;
    add_classes(alloc, classes, numbered, versions, names)
}

/// The names of the class and of those above it, up to the first that was seen before.
fn names_above(
    alloc: Global,
    classes: &Classes,
    seen: &mut BTreeSet<Bytes>,
    name: &Bytes,
) -> Result<List<Bytes>, NoMemory> {
    let mut names = List::new(alloc);
    let mut at = name;
    for _ in 0..classes.len() {
        if seen.contains(at) {
            return Ok(names);
        }
        let Some(class) = classes.named(at) else {
            return Ok(names);
        };
        add_name(alloc, seen, at)?;
        add_copy(alloc, &mut names, at)?;
        at = &class.parent;
    }
    Ok(names)
}

/// Adds the arrays of the classes, of which the last one is the topmost.
fn add_classes(
    alloc: Global,
    classes: &Classes,
    numbered: &Numbered,
    versions: &mut Versions,
    names: List<Bytes>,
) -> Result<(), NoMemory>
    requires own { AreOwn numbered.now.own numbered.now.numbers.now numbered.now.found.now.entries }
    requires versions { AreVersions (found_in numbered.now.found.now) numbered.now.numbers.now classes.now versions.old }
    ensures { OnOk result (AreVersions (found_in numbered.now.found.now) numbered.now.numbers.now classes.now versions.new) }
{
    let mut names = names;
    for _ in 0..names.len() {
        if let Some(name) = names.pop() {
            add_class(alloc, classes, numbered, versions, &name)?;
        }
    }
    Ok(())
}

/// Adds the array of the class, if that of its superclass is known.
fn add_class(
    alloc: Global,
    classes: &Classes,
    numbered: &Numbered,
    versions: &mut Versions,
    name: &Bytes,
) -> Result<(), NoMemory>
    requires own { AreOwn numbered.now.own numbered.now.numbers.now numbered.now.found.now.entries }
    requires versions { AreVersions (found_in numbered.now.found.now) numbered.now.numbers.now classes.now versions.old }
    ensures { OnOk result (AreVersions (found_in numbered.now.found.now) numbered.now.numbers.now classes.now versions.new) }
{
    let Some((place, class)) = classes.placed(name) else {
        return Ok(());
    };
    let Some(above) = version_of(classes, versions, &class.parent) else {
        return Ok(());
    };
    let Some(height) = above.height.checked_add(1) else {
        return Ok(());
    };
    let Some(item) = place.checked_add(1) else {
        return Ok(());
    };
    let own = own_of(&numbered.own, name);
    let root = put_each(&mut versions.nodes, versions.depth, above.root, own, item)?;
    note(alloc, &mut versions.places, name, Version { root, height })?;
    Ok(())
}

/// The array of the class, if it is known; that of zeros where there is no class.
fn version_of(classes: &Classes, versions: &Versions, name: &Bytes) -> Option<Version>
    ensures { IfSome result (λ version. (look : MethodId → Option Found) (numbers : Numbers)
        → AreVersions look numbers classes.now versions.now → IsVersion look numbers classes.now versions.now name.now version) }
{
    match classes.named(name) {
        Some(_) => noted(&versions.places, name.as_slice()),
        None => Some(Version { root: 0, height: 0 }),
    }
}

/// What the class or the nearest superclass declares, where the array of the class tells it.
pub fn found_above(
    alloc: Global,
    classes: &Classes,
    declared: &BTreeMap<MethodId, Found>,
    nearest: &Nearest,
    id: &MethodId,
) -> Result<Option<Found>, NoMemory>
    requires { AreVersions (found_in declared.now) nearest.now.numbers classes.now nearest.now.versions }
    ensures { IfOk result (λ o. IfSome o (λ found.
        first_found (found_in declared.now) id.now (names_of (superclasses classes.now id.now.class)) ≡ Some found)) }
{
    let Some(number) = member_number(alloc, &nearest.numbers, id)? else {
        return Ok(None);
    };
    let Some(class) = declaring(classes, &nearest.versions, &id.class, number) else {
        return Ok(None);
    };
    found_at(alloc, declared, id, &class.name)
}

/// The class or the nearest superclass that declares what has this number, where its array tells it.
fn declaring<'a>(
    classes: &'a Classes,
    versions: &Versions,
    name: &Bytes,
    number: usize,
) -> Option<&'a ListedClass>
    ensures { IfSome result (λ class. (look : MethodId → Option Found) (numbers : Numbers) (id : MethodId)
        → AreVersions look numbers classes.now versions.now → member_number numbers id ≡ Some number
        → look (in_class id class.now.name) ≡ first_found look id (names_of (superclasses classes.now name.now))) }
{
    let version = version_of(classes, versions, name)?;
    if version.height > classes.len() {
        return None;
    }
    let item = item_at(
        versions.nodes.as_slice(),
        versions.depth,
        version.root,
        number,
    )?;
    let place = item.checked_sub(1)?;
    classes.as_slice().get(place)
}
