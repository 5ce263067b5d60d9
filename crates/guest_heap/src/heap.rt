//! The heap: a list of objects, which only grows.

ghost use Rattle.std.specs.Prelude.{◌≡◌, ◌∷◌, [], ◌++◌, ◌<◌, ◌^◌, ◌-◌, length, IfOk, OnOk, OnErr};
ghost use Rattle.guest_heap.specs.Heap.{HasPlace, with_value_at, places_of, with_value};

use crate::object::Object;
use crate::value::Value;
use mon_base::{List, NoMemory};

/// Writes the field of an object, or the item of an array. It takes no memory.
pub fn put(heap: &mut List<Object>, at: u32, place: usize, value: Value)
    requires { HasPlace heap.old at place }
    ensures { heap.new ≡ with_value_at heap.old at place value }
{
    put_in(heap.item_mut(at as usize), place, value);
}

fn put_in(object: &mut Object, place: usize, value: Value)
    requires { place < length (places_of object.old) }
    ensures { object.new ≡ with_value place value object.old }
{
    match object {
        Object::Plain { fields, .. } => *fields.item_mut(place) = value,
        Object::Array { items, .. } => *items.item_mut(place) = value,
        Object::Text(_) => {}
    }
}

/// The fields of an object, or the items of an array.
pub fn places(object: &Object) -> &[Value]
    ensures { result.now ≡ places_of object.now }
{
    match object {
        Object::Plain { fields, .. } => fields.as_slice(),
        Object::Array { items, .. } => items.as_slice(),
        Object::Text(_) => &[],
    }
}

/// Appends the object, and answers its index. On refusal the heap stays.
pub fn new_object(heap: &mut List<Object>, object: Object) -> Result<u32, NoMemory>
    requires { length heap.old < 2 ^ 32 - 1 }
    ensures index { IfOk result (λ at. at ≡ length heap.old) }
    ensures ok { OnOk result (heap.new ≡ heap.old ++ object ∷ []) }
    ensures err { OnErr result (heap.new ≡ heap.old) }
{
    let at = heap.len() as u32;
    heap.push(object)?;
    Ok(at)
}
