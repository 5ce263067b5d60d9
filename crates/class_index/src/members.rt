//! Members that classes have.

ghost use Rattle.std.specs.Prelude.{◌≡◌, IfOk, option_copied};
ghost use Rattle.class_index.specs.Index.{found_in};
ghost use Rattle.class_index.specs.Nearest.{AreVersions};
ghost use Rattle.bytecode_model.specs.Members.{first_found, in_class};
ghost use Rattle.bytecode_model.specs.SearchOrder.{field_order, search_order};
ghost use Rattle.class_index.specs.InterfaceFields.{AreInterfaceFields};

use crate::classes::Classes;
use crate::interface_fields::may_be_of_interface;
use crate::nearest::{Nearest, found_above};
use crate::search::{field_order, search_order};
use bytecode_model::Found;
use mon_base::{Bytes, MethodId, NoMemory};
use std::alloc::Global;
use std::collections::{BTreeMap, BTreeSet};

/// The method that the class has: its own, or the nearest above it.
pub fn method_of(
    alloc: Global,
    classes: &Classes,
    declared: &BTreeMap<MethodId, Found>,
    nearest: &Nearest,
    id: &MethodId,
) -> Result<Option<Found>, NoMemory>
    requires { AreVersions (found_in declared.now) nearest.now.numbers classes.now nearest.now.versions }
    ensures { IfOk result (λ found.
        found ≡ first_found (found_in declared.now) id.now (search_order classes.now id.now.class)) }
{
    if let Some(found) = found_above(alloc, classes, declared, nearest, id)? {
        return Ok(Some(found));
    }
    let order = search_order(alloc, classes, &id.class)?;
    first_found(alloc, declared, id, order.as_slice())
}

/// The field that the class has: its own, or the nearest above it. Where no interface may declare it, the superclasses tell.
pub fn field_of(
    alloc: Global,
    classes: &Classes,
    declared: &BTreeMap<MethodId, Found>,
    nearest: &Nearest,
    of_interfaces: &BTreeSet<MethodId>,
    id: &MethodId,
) -> Result<Option<Found>, NoMemory>
    requires nearest { AreVersions (found_in declared.now) nearest.now.numbers classes.now nearest.now.versions }
    requires of_interfaces { AreInterfaceFields of_interfaces.now classes.now (found_in declared.now) }
    ensures { IfOk result (λ found.
        found ≡ first_found (found_in declared.now) id.now (field_order classes.now id.now.class)) }
{
    if !may_be_of_interface(alloc, of_interfaces, id)? {
        if let Some(found) = found_above(alloc, classes, declared, nearest, id)? {
            return Ok(Some(found));
        }
    }
    let order = field_order(alloc, classes, &id.class)?;
    first_found(alloc, declared, id, order.as_slice())
}

/// What the first of the classes that declares it has.
fn first_found(
    alloc: Global,
    declared: &BTreeMap<MethodId, Found>,
    id: &MethodId,
    order: &[Bytes],
) -> Result<Option<Found>, NoMemory>
    ensures { IfOk result (λ found. found ≡ first_found (found_in declared.now) id.now order.now) }
{
    let mut left = order;
    while let [class, rest @ ..] = left {
        if let Some(found) = found_at(alloc, declared, id, class)? {
            return Ok(Some(found));
        }
        left = rest;
    }
    Ok(None)
}

/// What the class declares under the same name and descriptor.
pub fn found_at(
    alloc: Global,
    declared: &BTreeMap<MethodId, Found>,
    id: &MethodId,
    class: &Bytes,
) -> Result<Option<Found>, NoMemory>
    ensures { IfOk result (λ found. found ≡ found_in declared.now (in_class id.now class.now)) }
{
    let id = in_class(alloc, id, class)?;
    copy_of(alloc, declared.get(&id))
}

/// A copy of what is there.
fn copy_of(alloc: Global, found: Option<&Found>) -> Result<Option<Found>, NoMemory>
    ensures { IfOk result (λ copy. copy ≡ option_copied found.entry) }
{
    match found {
        Some(found) => Ok(Some(found.copy(alloc)?)),
        None => Ok(None),
    }
}

/// The same name and descriptor in another class.
pub fn in_class(alloc: Global, id: &MethodId, class: &Bytes) -> Result<MethodId, NoMemory>
    ensures { IfOk result (λ other. other ≡ in_class id.now class.now) }
{
    let desc = id.desc.as_slice();
    id_of(alloc, class.as_slice(), id.name.as_slice(), desc)
}

/// The member of this class, name and descriptor.
pub fn id_of(alloc: Global, class: &[u8], name: &[u8], desc: &[u8]) -> Result<MethodId, NoMemory>
    ensures { IfOk result (λ id. id ≡ record { class = class.now; name = name.now; desc = desc.now }) }
{
    let class = Bytes::from_slice(alloc, class)?;
    let name = Bytes::from_slice(alloc, name)?;
    let desc = Bytes::from_slice(alloc, desc)?;
    Ok(MethodId { class, name, desc })
}
