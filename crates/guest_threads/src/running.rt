//! The targets of Threads.

ghost use Rattle.std.specs.Prelude.{◌≡◌};
ghost use Rattle.guest_model.specs.Calling.{target_in, target_of};

use guest_heap::{Object, Value};
use mon_base::List;

/// The target of a Thread; null of what is none.
pub fn target_of(heap: &List<Object>, on: Value) -> Value
    ensures { result ≡ target_of heap.now on }
{
    match on {
        Value::Ref(at) => match heap.as_slice().get(at as usize) {
            Some(object) => target_in(object),
            None => Value::Null,
        },
        Value::Int(_) | Value::Null | Value::Class(_) | Value::Lit(_) => Value::Null,
    }
}

/// The target in an object; null in what is no Thread.
fn target_in(object: &Object) -> Value
    ensures { result ≡ target_in object.now }
{
    match object {
        Object::Plain { target, .. } => *target,
        Object::Array { .. } | Object::Text(_) => Value::Null,
    }
}
