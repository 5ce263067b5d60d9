//! The classes in which a method or a field is looked for, the nearest first. (The Java Virtual Machine Specification,
//! sections 5.4.3.2 and 5.4.3.3.)

ghost use Rattle.std.specs.Prelude.{◌≡◌, ◌+◌, ◌++◌, ◌∷◌, [], ℕ, List, length, IfOk, OnOk};
ghost use Rattle.std.specs.Option.{option_map_or};
ghost use Rattle.api_listing.specs.Nearest.{upwards, names_of, interfaces_of};
ghost use Rattle.api_listing.specs.Seen.{has_name};
ghost use Rattle.bytecode_model.specs.SearchOrder.{superclasses, search_order, interfaces_from, interfaces_above};
ghost use Rattle.bytecode_model.specs.SearchOrder.{reached, with_name, with_above};
ghost use Rattle.bytecode_model.specs.SearchOrder.{above_first, field_order, reached_in_turn, with_interfaces};
ghost use Rattle.class_index.specs.Index.{NamesSeen};

use crate::classes::{Classes, add};
use crate::places::add_name;
use api_listing::ListedClass;
use mon_base::{Bytes, List, NoMemory};
use std::alloc::Global;
use std::collections::{BTreeSet, VecDeque};

/// The names of the classes in which a method of the class of this name is looked for.
pub fn search_order(alloc: Global, classes: &Classes, name: &Bytes) -> Result<List<Bytes>, NoMemory>
    ensures { IfOk result (λ order. order ≡ search_order classes.now name.now) }
{
    let mut order = List::new(alloc);
    let mut interfaces = List::new(alloc);
    climb(alloc, classes, name, &mut order, &mut interfaces)?;
    add_interfaces(alloc, classes, &mut order, interfaces.as_slice())?;
    Ok(order)
}

/// Adds the interfaces and those above them after the names.
fn add_interfaces(
    alloc: Global,
    classes: &Classes,
    names: &mut List<Bytes>,
    interfaces: &[Bytes],
) -> Result<(), NoMemory>
    ensures { OnOk result (names.new ≡ names.old ++ interfaces_from classes.now interfaces.now) }
{
    let above = interfaces_from(alloc, classes, interfaces)?;
    add_names(alloc, names, above.as_slice())
}

/// Adds the names of the class and its superclasses, and the interfaces of these.
fn climb(
    alloc: Global,
    classes: &Classes,
    name: &Bytes,
    names: &mut List<Bytes>,
    interfaces: &mut List<Bytes>,
) -> Result<(), NoMemory>
    ensures names { OnOk result (names.new ≡ names.old ++ names_of (superclasses classes.now name.now)) }
    ensures interfaces { OnOk result (interfaces.new ≡ interfaces.old ++ interfaces_of (superclasses classes.now name.now)) }
{
    let mut at = name;
    for _ in 0..classes.len() {
        let Some(class) = classes.named(at) else {
            return Ok(());
        };
        add_copy(alloc, names, &class.name)?;
        add_names(alloc, interfaces, class.interfaces.as_slice())?;
        at = &class.parent;
    }
    Ok(())
}

/// Adds the others after the names.
pub fn add_names(alloc: Global, names: &mut List<Bytes>, others: &[Bytes]) -> Result<(), NoMemory>
    ensures { OnOk result (names.new ≡ names.old ++ others.now) }
{
    for name in others {
        add_copy(alloc, names, name)?;
    }
    Ok(())
}

/// Adds a copy of the name after the names.
pub fn add_copy(alloc: Global, names: &mut List<Bytes>, name: &Bytes) -> Result<(), NoMemory>
    ensures { OnOk result (names.new ≡ names.old ++ name.now ∷ []) }
{
    names.push(name.copy(alloc)?)?;
    Ok(())
}

/// The interfaces and those above them, each once, level by level.
fn interfaces_from(
    alloc: Global,
    classes: &Classes,
    names: &[Bytes],
) -> Result<List<Bytes>, NoMemory>
    ensures { IfOk result (λ found. found ≡ interfaces_from classes.now names.now) }
{
    let most = add(classes.interfaces(), names.len())?;
    let mut found = List::new(alloc);
    reach_all(alloc, classes, most, names, &mut found)?;
    Ok(found)
}

/// Takes up so many of the names and of those that come to wait after them, where none was found before.
fn reach_all(
    alloc: Global,
    classes: &Classes,
    most: u64,
    names: &[Bytes],
    found: &mut List<Bytes>,
) -> Result<(), NoMemory>
    requires { found.old ≡ [] }
    ensures { OnOk result (found.new ≡ reached most classes.now [] names.now) }
{
    let mut seen = BTreeSet::new(alloc);
    let mut waiting = VecDeque::new(alloc);
    reach(alloc, classes, most, names, found, &mut seen, &mut waiting)
}

/// Takes up so many of the names after those that wait, and of those that come to wait after them.
fn reach(
    alloc: Global,
    classes: &Classes,
    most: u64,
    names: &[Bytes],
    found: &mut List<Bytes>,
    seen: &mut BTreeSet<Bytes>,
    waiting: &mut VecDeque<Bytes>,
) -> Result<(), NoMemory>
    requires { NamesSeen seen.old found.old }
    ensures { OnOk result (found.new ≡ reached most classes.now found.old (waiting.old.items ++ names.now)) }
{
    add_waiting(alloc, waiting, names)?;
    for _ in 0..most {
        let Some(name) = waiting.pop_front() else {
            return Ok(());
        };
        visit(alloc, classes, found, seen, waiting, name)?;
    }
    Ok(())
}

/// Takes up a name that has waited: if it is new, its interfaces wait after the others.
fn visit(
    alloc: Global,
    classes: &Classes,
    found: &mut List<Bytes>,
    seen: &mut BTreeSet<Bytes>,
    waiting: &mut VecDeque<Bytes>,
    name: Bytes,
) -> Result<(), NoMemory>
    requires { NamesSeen seen.old found.old }
    ensures seen { OnOk result (NamesSeen seen.new found.new) }
    ensures found { OnOk result (found.new ≡ with_name found.old name) }
    ensures waiting { OnOk result (waiting.new.items ≡ with_above classes.now found.old name waiting.old.items) }
{
    if seen.contains(&name) {
        return Ok(());
    }
    add_above(alloc, classes, &name, waiting)?;
    add_name(alloc, seen, &name)?;
    found.push(name)?;
    Ok(())
}

fn add_above(
    alloc: Global,
    classes: &Classes,
    name: &Bytes,
    waiting: &mut VecDeque<Bytes>,
) -> Result<(), NoMemory>
    ensures { OnOk result (waiting.new.items ≡ waiting.old.items ++ interfaces_above classes.now name.now) }
{
    match classes.named(name) {
        Some(class) => add_waiting(alloc, waiting, class.interfaces.as_slice()),
        None => Ok(()),
    }
}

fn add_waiting(
    alloc: Global,
    waiting: &mut VecDeque<Bytes>,
    names: &[Bytes],
) -> Result<(), NoMemory>
    ensures { OnOk result (waiting.new.items ≡ waiting.old.items ++ names.now) }
{
    for name in names {
        waiting.push_back(name.copy(alloc)?)?;
    }
    Ok(())
}

// ---- superclasses alone

/// The names of the class and of its superclasses.
pub fn superclasses(alloc: Global, classes: &Classes, name: &Bytes) -> Result<List<Bytes>, NoMemory>
    ensures { IfOk result (λ names. names ≡ names_of (superclasses classes.now name.now)) }
{
    let mut names = List::new(alloc);
    let mut at = name;
    for _ in 0..classes.len() {
        let Some(class) = classes.named(at) else {
            return Ok(names);
        };
        add_copy(alloc, &mut names, &class.name)?;
        at = &class.parent;
    }
    Ok(names)
}

// ---- fields

/// The names of the classes in which a field of the class of this name is looked for.
pub fn field_order(alloc: Global, classes: &Classes, name: &Bytes) -> Result<List<Bytes>, NoMemory>
    ensures { IfOk result (λ order. order ≡ field_order classes.now name.now) }
{
    let mut order = List::new(alloc);
    let mut seen = BTreeSet::new(alloc);
    let mut at = name;
    for _ in 0..classes.len() {
        let Some(class) = classes.named(at) else {
            return Ok(order);
        };
        add_with_interfaces(alloc, classes, &mut order, &mut seen, class)?;
        at = &class.parent;
    }
    Ok(order)
}

/// Adds the class, and then its interfaces and those above them in turn, each if it is new.
fn add_with_interfaces(
    alloc: Global,
    classes: &Classes,
    found: &mut List<Bytes>,
    seen: &mut BTreeSet<Bytes>,
    class: &ListedClass,
) -> Result<(), NoMemory>
    requires { NamesSeen seen.old found.old }
    ensures seen { OnOk result (NamesSeen seen.new found.new) }
    ensures found { OnOk result (found.new ≡ with_interfaces classes.now found.old class.now) }
{
    let names = class.interfaces.as_slice();
    let most = add(classes.interfaces(), names.len())?;
    add_new(alloc, found, seen, &class.name)?;
    reach_in_turn(alloc, classes, most, names, found, seen)
}

/// Adds the name, if it is new.
fn add_new(
    alloc: Global,
    found: &mut List<Bytes>,
    seen: &mut BTreeSet<Bytes>,
    name: &Bytes,
) -> Result<(), NoMemory>
    requires { NamesSeen seen.old found.old }
    ensures seen { OnOk result (NamesSeen seen.new found.new) }
    ensures found { OnOk result (found.new ≡ with_name found.old name.now) }
{
    if seen.contains(name) {
        return Ok(());
    }
    add_name(alloc, seen, name)?;
    add_copy(alloc, found, name)
}

/// Takes up so many of the names and of those above them, which are taken before the others.
fn reach_in_turn(
    alloc: Global,
    classes: &Classes,
    most: u64,
    names: &[Bytes],
    found: &mut List<Bytes>,
    seen: &mut BTreeSet<Bytes>,
) -> Result<(), NoMemory>
    requires { NamesSeen seen.old found.old }
    ensures seen { OnOk result (NamesSeen seen.new found.new) }
    ensures found { OnOk result (found.new ≡ reached_in_turn most classes.now found.old names.now) }
{
    let mut waiting = VecDeque::new(alloc);
    add_waiting(alloc, &mut waiting, names)?;
    for _ in 0..most {
        let Some(name) = waiting.pop_front() else {
            return Ok(());
        };
        visit_in_turn(alloc, classes, found, seen, &mut waiting, &name)?;
    }
    Ok(())
}

/// Takes up a name that has waited: if it is new, its interfaces wait before the others.
fn visit_in_turn(
    alloc: Global,
    classes: &Classes,
    found: &mut List<Bytes>,
    seen: &mut BTreeSet<Bytes>,
    waiting: &mut VecDeque<Bytes>,
    name: &Bytes,
) -> Result<(), NoMemory>
    requires { NamesSeen seen.old found.old }
    ensures seen { OnOk result (NamesSeen seen.new found.new) }
    ensures found { OnOk result (found.new ≡ with_name found.old name.now) }
    ensures waiting { OnOk result (waiting.new.items ≡ above_first classes.now found.old name.now waiting.old.items) }
{
    if seen.contains(name) {
        return Ok(());
    }
    put_above(alloc, classes, name, waiting)?;
    add_name(alloc, seen, name)?;
    add_copy(alloc, found, name)
}

fn put_above(
    alloc: Global,
    classes: &Classes,
    name: &Bytes,
    waiting: &mut VecDeque<Bytes>,
) -> Result<(), NoMemory>
    ensures { OnOk result (waiting.new.items ≡ interfaces_above classes.now name.now ++ waiting.old.items) }
{
    match classes.named(name) {
        Some(class) => put_first(alloc, waiting, class.interfaces.as_slice()),
        None => Ok(()),
    }
}

/// Puts the names before those that wait.
fn put_first(alloc: Global, waiting: &mut VecDeque<Bytes>, names: &[Bytes]) -> Result<(), NoMemory>
    ensures { OnOk result (waiting.new.items ≡ names.now ++ waiting.old.items) }
{
    let mut left = names;
    while let Some((name, rest)) = left.split_last() {
        waiting.push_front(name.copy(alloc)?)?;
        left = rest;
    }
    Ok(())
}
