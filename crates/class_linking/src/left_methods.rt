//! Methods that a class leaves to the library, though an interface of the program asks for them. (The Java Virtual Machine
//! Specification, section 6.5, invokeinterface.)

ghost use Rattle.std.specs.Prelude.{◌≡◌, List, false, find, option_map, IfOk};
ghost use Rattle.std.specs.List.{AllByRecursion, flat_map};
ghost use Rattle.mon_base.specs.declared.method.MethodId.{MethodId};
ghost use Rattle.bytecode_model.specs.Heads.{all_classes, head_of};
ghost use Rattle.bytecode_model.specs.LeftMethods.{asked_by, asked_by_named, is_left, left_in, left_to_library, offered_in};
ghost use Rattle.bytecode_model.specs.SearchOrder.{search_order};
ghost use Rattle.class_index.specs.Asking.{AsksNothing, IsUnasked};
ghost use Rattle.class_index.specs.Library.{OverridesAs};

use crate::method_conditions::{id_of, overrides_in};
use bytecode_model::is_interface;
use class_codec::ClassFile;
use class_index::{Index, in_class, is_asked};
use mon_base::{Bytes, MethodId, NoMemory};
use std::alloc::Global;

/// The name of the first method that the class of this name leaves to the library; `above` has those of the classes above that may
/// have such methods. An interface is called through a class below it alone, so it leaves none.
pub fn left_to_library(
    alloc: Global,
    index: &Index,
    above: &[Bytes],
    file: &ClassFile,
    class: &Bytes,
) -> Result<Option<Bytes>, NoMemory>
    requires class { class.now ≡ (head_of file.now).name }
    requires above { OverridesAs index.now.listing above.now (search_order (all_classes index.now.listing index.now.files) class.now) }
    ensures { IfOk result (λ left. left ≡ left_to_library index.now.files index.now.listing (head_of file.now)) }
{
    if is_interface(file.flags) {
        return Ok(None);
    }
    if !may_be_asked(index, above) {
        return Ok(None);
    }
    left_in(alloc, index, class)
}

/// Whether a given interface may ask for a method that the library has in one of the classes.
fn may_be_asked(index: &Index, classes: &[Bytes]) -> bool
    ensures { result ≡ false → AllByRecursion (IsUnasked index.now.files index.now.listing) classes.now }
{
    let mut left = classes;
    while let [class, rest @ ..] = left {
        if index.may_be_asked(class) {
            return true;
        }
        left = rest;
    }
    false
}

fn left_in(alloc: Global, index: &Index, class: &Bytes) -> Result<Option<Bytes>, NoMemory>
    ensures { IfOk result (λ left. left ≡ left_in index.now.files index.now.listing class.now) }
{
    let supers = index.superclasses(alloc, class)?;
    let owners = index.library_among(alloc, supers.as_slice())?;
    let order = index.search_order(alloc, class)?;
    let (owners, supers) = (owners.as_slice(), supers.as_slice());
    first_left(alloc, index, owners, supers, order.as_slice())
}

/// The name of the first method that the interfaces among the classes ask for and that is left; the owners are those of the
/// superclasses that may have methods of the library.
fn first_left(
    alloc: Global,
    index: &Index,
    owners: &[Bytes],
    supers: &[Bytes],
    order: &[Bytes],
) -> Result<Option<Bytes>, NoMemory>
    requires { OverridesAs index.now.listing owners.now supers.now }
    ensures { IfOk result (λ left. left ≡ option_map (λ (id : MethodId). id.name)
        (find (is_left index.now.files index.now.listing supers.now) (flat_map (asked_by_named index.now.files) order.now))) }
{
    let mut left = order;
    while let [name, rest @ ..] = left {
        let found = left_by(alloc, index, owners, supers, name)?;
        if found.is_some() {
            return Ok(found);
        }
        left = rest;
    }
    Ok(None)
}

/// The same of the methods that the class of this name asks for, if it is an interface.
fn left_by(
    alloc: Global,
    index: &Index,
    owners: &[Bytes],
    supers: &[Bytes],
    name: &Bytes,
) -> Result<Option<Bytes>, NoMemory>
    requires { OverridesAs index.now.listing owners.now supers.now }
    ensures { IfOk result (λ left. left ≡ option_map (λ (id : MethodId). id.name)
        (find (is_left index.now.files index.now.listing supers.now) (asked_by_named index.now.files name.now))) }
{
    if !may_ask(index, name, owners) {
        return Ok(None);
    }
    match index.given_interface(name) {
        Some(file) => left_among(alloc, index, owners, supers, name, file),
        None => Ok(None),
    }
}

/// Whether the given interface of this name, if there is one, may ask for a method that the library has in one of the classes.
fn may_ask(index: &Index, interface: &Bytes, classes: &[Bytes]) -> bool
    ensures { result ≡ false → AllByRecursion (AsksNothing index.now.files index.now.listing interface.now) classes.now }
{
    let mut left = classes;
    while let [class, rest @ ..] = left {
        if index.may_ask(interface, class) {
            return true;
        }
        left = rest;
    }
    false
}

/// The same of the methods of an interface.
fn left_among(
    alloc: Global,
    index: &Index,
    owners: &[Bytes],
    supers: &[Bytes],
    name: &Bytes,
    file: &ClassFile,
) -> Result<Option<Bytes>, NoMemory>
    requires { OverridesAs index.now.listing owners.now supers.now }
    ensures { IfOk result (λ left. left ≡ option_map (λ (id : MethodId). id.name)
        (find (is_left index.now.files index.now.listing supers.now) (asked_by name.now file.now))) }
{
    let pool = file.pool.as_slice();
    let mut left = file.methods.as_slice();
    while let [member, rest @ ..] = left {
        if is_asked(pool, member) {
            let id = id_of(alloc, name, pool, member)?;
            if is_left(alloc, index, owners, supers, &id)? {
                return Ok(Some(id.name));
            }
        }
        left = rest;
    }
    Ok(None)
}

/// Whether none of the classes offers the method, and the library has it in one of them.
fn is_left(
    alloc: Global,
    index: &Index,
    owners: &[Bytes],
    classes: &[Bytes],
    id: &MethodId,
) -> Result<bool, NoMemory>
    requires { OverridesAs index.now.listing owners.now classes.now }
    ensures { IfOk result (λ b. b ≡ is_left index.now.files index.now.listing classes.now id.now) }
{
    if !overrides_in(alloc, index, id, owners)? {
        return Ok(false);
    }
    let offered = offered_in(alloc, index, id, classes)?;
    Ok(!offered)
}

/// Whether one of the classes declares the method as a public one of objects, and is no interface.
fn offered_in(
    alloc: Global,
    index: &Index,
    id: &MethodId,
    classes: &[Bytes],
) -> Result<bool, NoMemory>
    ensures { IfOk result (λ b. b ≡ offered_in index.now.files index.now.listing id.now classes.now) }
{
    let mut left = classes;
    while let [class, rest @ ..] = left {
        let other = in_class(alloc, id, class)?;
        if index.offers(&other) {
            return Ok(true);
        }
        left = rest;
    }
    Ok(false)
}
