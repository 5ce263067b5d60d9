//! What objects hold before anything is written: the fields of the superclass first, and then those of the class, in the order
//! of its file. (The Java Virtual Machine Specification, section 2.4.)

ghost use Rattle.std.specs.Prelude.{IfOk, OnOk, [], if◌then◌else◌, reverse, ◌++◌, ◌∷◌, ◌≡◌};
ghost use Rattle.bytecode_model.specs.Heads.{desc_of};
ghost use Rattle.guest_model.specs.Layout.{fields_of, first_value, is_in_objects, new_of, own_fields};

use crate::guest::Guest;
use bytecode_model::{is_static, text_at};
use class_codec::{ClassFile, Member};
use guest_heap::{Object, Value};
use guest_model::first_value;
use mon_base::{Bytes, List, NoMemory};
use std::alloc::Global;

/// A new object of the class, not made yet.
pub fn new_of(alloc: Global, guest: &Guest, name: &Bytes) -> Result<Object, NoMemory>
    ensures { IfOk result (λ object. object ≡ new_of guest.now name.now) }
{
    Ok(Object::Plain {
        class: name.copy(alloc)?,
        fields: fields_of(alloc, guest, name.as_slice())?,
        target: Value::Null,
        thread: None,
    })
}

/// The fields of an object of the class: gathered upwards, the last of each class first, and turned round.
fn fields_of(alloc: Global, guest: &Guest, name: &[u8]) -> Result<List<Value>, NoMemory>
    ensures { IfOk result (λ fields. fields ≡ fields_of guest.now name.now) }
{
    let mut fields = fields_up(alloc, guest, name)?;
    fields.reverse();
    Ok(List::from_vec(fields))
}

/// The fields of an object of the class, the last one first.
fn fields_up(alloc: Global, guest: &Guest, name: &[u8]) -> Result<Vec<Value>, NoMemory>
    ensures { IfOk result (λ fields. fields.items ≡ reverse (fields_of guest.now name.now)) }
{
    let mut fields = Vec::new(alloc);
    let mut at = name;
    for _ in 0..guest.count() {
        match guest.class_given(at) {
            None => return Ok(fields),
            Some(class) => {
                push_own(&mut fields, &class.file)?;
                at = class.parent.as_slice();
            }
        }
    }
    Ok(fields)
}

/// Appends the own fields of an object of the class, the last one first.
fn push_own(out: &mut Vec<Value>, file: &ClassFile) -> Result<(), NoMemory>
    ensures { OnOk result (out.new.items ≡ out.old.items ++ reverse (own_fields file.now)) }
{
    let mut left = file.fields.as_slice();
    while let Some((member, before)) = left.split_last() {
        push_member(out, file, member)?;
        left = before;
    }
    Ok(())
}

/// Appends what the field holds at first, if it is one of each object.
fn push_member(out: &mut Vec<Value>, file: &ClassFile, member: &Member) -> Result<(), NoMemory>
    ensures { OnOk result (out.new.items ≡ out.old.items ++
        (if is_in_objects member.now then first_value (desc_of file.now.pool member.now) ∷ [] else [])) }
{
    if is_in_objects(member) {
        out.push(first_value(text_at(file.pool.as_slice(), member.desc)))?;
    }
    Ok(())
}

/// Whether the field is one of each object.
pub fn is_in_objects(member: &Member) -> bool
    ensures { result ≡ is_in_objects member.now }
{
    !is_static(member.flags)
}
