//! The classes of objects, and what fields and items are before they are written.

ghost use Rattle.std.specs.Prelude.{option_copied, ◌≡◌};
ghost use Rattle.guest_model.specs.Kinds.{class_of_object, class_of_value};
ghost use Rattle.guest_model.specs.Layout.{first_value, is_of_references};

use guest_heap::{Object, Value};

/// The class of texts.
pub const STRING: &[u8] = b"java/lang/String";

/// The class of an object, or the descriptor of an array.
pub fn class_of_object(object: &Object) -> &[u8]
    ensures { result.now ≡ class_of_object object.now }
{
    let class = match object {
        Object::Plain { class, .. } => class,
        Object::Array { desc, .. } => desc,
        Object::Text(_) => return STRING,
    };
    class.as_slice()
}

/// The same of a value. A number is no object, and null is none.
pub fn class_of_value<'a>(heap: &'a [Object], value: Value) -> Option<&'a [u8]>
    ensures { option_copied result ≡ class_of_value heap.now value }
{
    match value {
        Value::Int(_) | Value::Null => None,
        Value::Ref(at) => match heap.get(at as usize) {
            Some(object) => Some(class_of_object(object)),
            None => None,
        },
        Value::Class(_) => Some(b"java/lang/Class"),
        Value::Lit(_) => Some(STRING),
    }
}

/// Whether a descriptor is of objects.
pub fn is_of_references(desc: &[u8]) -> bool
    ensures { result ≡ is_of_references desc.now }
{
    match desc {
        [] => false,
        [first, ..] => *first == b'L' || *first == b'[',
    }
}

/// What a field or an item is before it is written: 0, or null.
pub fn first_value(desc: &[u8]) -> Value
    ensures { result ≡ first_value desc.now }
{
    if is_of_references(desc) {
        Value::Null
    } else {
        Value::Int(0)
    }
}
