//! Which answers of the library fit a call. (docs/MACHINE.md)

ghost use Rattle.std.specs.Prelude.{◌&&◌, ◌||◌, ◌≡◌};
ghost use Rattle.bytecode_model.specs.Classes.{is_below, is_interface};
ghost use Rattle.guest_model.specs.Answering.{answer_fits, is_listed_class, is_no_object, is_of, method_takes, result_class, takes_text};
ghost use Rattle.guest_model.specs.Answers.{fits_number, is_number_of, may_throw};
ghost use Rattle.guest_step.specs.Fitting.{object_fits};

use api_listing::{ApiAnswer, Element, FieldType};
use guest_frames::is_null;
use guest_heap::{Object, Value};
use guest_tables::{Guest, ListedResult, is_instance};
use mon_base::Bytes;

/// Whether the answer fits a call of the listed method with this index, of this receiver and these arguments.
pub fn fits_call(
    guest: &Guest,
    heap: &[Object],
    method: u32,
    receiver: Option<Value>,
    args: &[Value],
    answer: &ApiAnswer,
) -> bool
    ensures { result ≡ method_takes guest.now heap.now method receiver args.now answer.now }
{
    match guest.gives(method) {
        Some(gives) => result_takes(guest, heap, gives, receiver, args, answer),
        None => false,
    }
}

/// Whether the answer fits a call of a method with this result.
fn result_takes(
    guest: &Guest,
    heap: &[Object],
    gives: &ListedResult,
    receiver: Option<Value>,
    args: &[Value],
    answer: &ApiAnswer,
) -> bool
    requires { gives.now.class ≡ result_class gives.now.of }
    ensures { result ≡ answer_fits guest.now heap.now gives.now.of receiver args.now answer.now }
{
    match answer {
        ApiAnswer::Nothing => gives.of.is_none(),
        ApiAnswer::Int(n) => fits_number(&gives.of, *n),
        ApiAnswer::Throws(class) => may_throw(guest, class.as_slice()),
        ApiAnswer::Null
        | ApiAnswer::Text(_)
        | ApiAnswer::Fresh(_)
        | ApiAnswer::Arg(_)
        | ApiAnswer::Receiver => match &gives.class {
            Some(name) => object_fits(guest, heap, name, receiver, args, answer),
            None => false,
        },
    }
}

/// Whether the number is one of the result's type.
fn fits_number(of: &Option<FieldType>, n: i32) -> bool
    ensures { result ≡ fits_number of.now n }
{
    match of {
        Some(t) => t.dimensions == 0 && is_number_of(&t.element, n),
        None => false,
    }
}

/// Whether it is one of the numbers of a type.
fn is_number_of(element: &Element, n: i32) -> bool
    ensures { result ≡ is_number_of element.now n }
{
    match element {
        Element::Boolean => 0 <= n && n <= 1,
        Element::Byte => -128 <= n && n <= 127,
        Element::Char => 0 <= n && n <= 65535,
        Element::Short => -32768 <= n && n <= 32767,
        Element::Int => true,
        Element::Class(_) => false,
    }
}

/// Whether the library may throw an object of the class.
fn may_throw(guest: &Guest, class: &[u8]) -> bool
    ensures { result ≡ may_throw guest.now class.now }
{
    guest.is_listed(class) && guest.is_below(class, b"java/lang/Throwable")
}

/// Whether a result of this class takes a text.
fn takes_text(guest: &Guest, name: &[u8]) -> bool
    ensures { result ≡ takes_text guest.now name.now }
{
    name == b"java/lang/String".as_slice()
        || name == b"java/lang/Object".as_slice()
        || guest.is_interface(name)
}

/// Whether the value is null.
fn is_no_object(value: Value) -> bool
    ensures { result ≡ is_no_object value }
{
    is_null(value)
}

/// Whether the value is an object of the class, where an interface counts as Object.
fn is_of(guest: &Guest, heap: &[Object], value: Value, name: &[u8]) -> bool
    ensures { result ≡ is_of guest.now heap.now value name.now }
{
    match value {
        Value::Int(_) | Value::Null => false,
        Value::Ref(_) | Value::Class(_) | Value::Lit(_) => {
            guest.is_interface(name) || is_instance(guest, heap, value, name)
        }
    }
}

/// The same, or null.
fn is_null_or_of(guest: &Guest, heap: &[Object], value: Value, name: &[u8]) -> bool
    ensures { result ≡ (is_no_object value || is_of guest.now heap.now value name.now) }
{
    is_no_object(value) || is_of(guest, heap, value, name)
}

/// Whether a new object of the class fits a result of this one.
fn takes_new(guest: &Guest, name: &[u8], class: &[u8]) -> bool
    ensures { result ≡ ((is_interface guest.now name.now || is_below guest.now class.now name.now) && is_listed_class guest.now class.now) }
{
    (guest.is_interface(name) || guest.is_below(class, name)) && guest.is_fresh(class)
}

/// Whether what the answer gives, which is no number, fits a result of this class.
fn object_fits(
    guest: &Guest,
    heap: &[Object],
    name: &Bytes,
    receiver: Option<Value>,
    args: &[Value],
    answer: &ApiAnswer,
) -> bool
    ensures { result ≡ object_fits guest.now heap.now name.now receiver args.now answer.now }
{
    let name = name.as_slice();
    match answer {
        ApiAnswer::Nothing | ApiAnswer::Int(_) | ApiAnswer::Null | ApiAnswer::Throws(_) => true,
        ApiAnswer::Text(text) => takes_text(guest, name) && text.len() <= 65535,
        ApiAnswer::Fresh(class) => takes_new(guest, name, class.as_slice()),
        ApiAnswer::Arg(i) => match args.get(*i as usize) {
            Some(value) => is_null_or_of(guest, heap, *value, name),
            None => false,
        },
        ApiAnswer::Receiver => match receiver {
            Some(value) => is_of(guest, heap, value, name),
            None => false,
        },
    }
}
