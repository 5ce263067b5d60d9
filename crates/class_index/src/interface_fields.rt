//! Which fields interfaces declare: where a field is looked for, an interface comes before the superclass. (The Java Virtual Machine
//! Specification, section 5.4.3.2.)

ghost use Rattle.std.specs.Prelude.{◌≡◌, ◌||◌, [], true, IfOk, OnOk};
ghost use Rattle.std.specs.Ordering.{is_eq};
ghost use Rattle.mon_base.specs.declared.method.MethodId.{MethodId};
ghost use Rattle.api_listing.specs.Seen.{has_id, has_name, id_cmp};
ghost use Rattle.bytecode_model.specs.Members.{in_class};
ghost use Rattle.class_index.specs.Index.{found_in};
ghost use Rattle.class_index.specs.InterfaceFields.{AreInterfaceFields};

use crate::classes::Classes;
use crate::memberless::{interfaces_of, set_of};
use crate::numbers::key_of;
use bytecode_model::Found;
use mon_base::{Bytes, MethodId, NoMemory};
use std::alloc::Global;
use std::collections::{BTreeMap, BTreeSet};

/// The names and descriptors of the fields that a class declares which one of the classes names as an interface.
pub fn interface_fields(
    alloc: Global,
    classes: &Classes,
    declared: &BTreeMap<MethodId, Found>,
) -> Result<BTreeSet<MethodId>, NoMemory>
    ensures { IfOk result (λ fields. AreInterfaceFields fields classes.now (found_in declared.now)) }
{
    let names = interfaces_of(alloc, classes.as_slice())?;
    let interfaces = set_of(alloc, names.as_slice())?;
    let mut fields = BTreeSet::new(alloc);
    for (id, _) in declared {
        add_field(alloc, &interfaces, &mut fields, id)?;
    }
    Ok(fields)
}

/// Adds the name and the descriptor of the field, if its class is one of the interfaces.
fn add_field(
    alloc: Global,
    interfaces: &BTreeSet<Bytes>,
    fields: &mut BTreeSet<MethodId>,
    id: &MethodId,
) -> Result<(), NoMemory>
    ensures { OnOk result ((q : MethodId) → has_name interfaces.now q.class ≡ true
        → (has_id fields.old (in_class q []) || is_eq (id_cmp q id.now)) ≡ true → has_id fields.new (in_class q []) ≡ true) }
{
    if interfaces.contains(&id.class) {
        fields.insert(key_of(alloc, &id.name, &id.desc)?)?;
    }
    Ok(())
}

/// Whether an interface may declare a field of this name and descriptor.
pub fn may_be_of_interface(
    alloc: Global,
    fields: &BTreeSet<MethodId>,
    id: &MethodId,
) -> Result<bool, NoMemory>
    ensures { IfOk result (λ b. b ≡ has_id fields.now (in_class id.now [])) }
{
    let key = key_of(alloc, &id.name, &id.desc)?;
    Ok(fields.contains(&key))
}
