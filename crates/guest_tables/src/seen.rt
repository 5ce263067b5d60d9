//! What the library sees of values, and the texts of objects. (docs/RECORDS.md)

ghost use Rattle.std.specs.Prelude.{IfOk, ◌≡◌};
ghost use Rattle.guest_model.specs.Builtins.{characters, continues};
ghost use Rattle.guest_model.specs.Seen.{bytes_shown, literal_at, object_bytes, object_shown};
ghost use Rattle.guest_model.specs.Seen.{string_of, text_in, value_shown, values_shown};

use crate::guest::Guest;
use api_listing::ApiValue;
use guest_heap::{Object, Value};
use guest_model::STRING;
use mon_base::{Bytes, List, NoMemory};
use std::alloc::Global;

/// Whether a byte goes on with a character that another began.
fn continues(byte: u8) -> bool
    ensures { result ≡ continues byte }
{
    128 <= byte && byte < 192
}

/// How many characters a text has.
pub fn characters(text: &[u8]) -> usize
    ensures { result ≡ characters text.now }
{
    let mut count = 0;
    let mut left = text;
    while let [byte, rest @ ..] = left {
        if !continues(*byte) {
            count += 1;
        }
        left = rest;
    }
    count
}

/// The text of a string; empty of what is none.
pub fn string_of<'a>(guest: &'a Guest, heap: &'a [Object], value: Value) -> &'a [u8]
    ensures { result.now ≡ string_of guest.now heap.now value }
{
    match value {
        Value::Int(_) | Value::Null | Value::Class(_) => b"".as_slice(),
        Value::Ref(at) => match heap.get(at as usize) {
            Some(object) => text_in(object),
            None => b"".as_slice(),
        },
        Value::Lit(index) => literal_at(guest, index),
    }
}

/// The text in an object; empty of what is none.
fn text_in(object: &Object) -> &[u8]
    ensures { result.now ≡ text_in object.now }
{
    match object {
        Object::Plain { .. } | Object::Array { .. } => b"".as_slice(),
        Object::Text(text) => text.as_slice(),
    }
}

/// The text of the program's literal with this index.
fn literal_at(guest: &Guest, index: u32) -> &[u8]
    ensures { result.now ≡ literal_at guest.now index }
{
    match guest.program().literals.as_slice().get(index as usize) {
        Some(text) => text.as_slice(),
        None => b"".as_slice(),
    }
}

/// What the library sees of the values.
pub fn values_shown(
    alloc: Global,
    guest: &Guest,
    heap: &[Object],
    values: &[Value],
) -> Result<List<ApiValue>, NoMemory>
    ensures { IfOk result (λ shown. shown ≡ values_shown guest.now heap.now values.now) }
{
    let mut shown = List::new(alloc);
    for value in values {
        shown.push(value_shown(alloc, guest, heap, *value)?)?;
    }
    Ok(shown)
}

/// What the library sees of a value.
pub fn value_shown(
    alloc: Global,
    guest: &Guest,
    heap: &[Object],
    value: Value,
) -> Result<ApiValue, NoMemory>
    ensures { IfOk result (λ shown. shown ≡ value_shown guest.now heap.now value) }
{
    let copy = Bytes::from_slice(alloc, bytes_shown(guest, heap, value))?;
    Ok(shown_with(guest, heap, value, copy))
}

/// The bytes in what the library sees of a value: a text, or the name of a class. They are copied for it.
pub fn bytes_shown<'a>(guest: &'a Guest, heap: &'a [Object], value: Value) -> &'a [u8]
    ensures { result.now ≡ bytes_shown guest.now heap.now value }
{
    match value {
        Value::Int(_) | Value::Null => b"".as_slice(),
        Value::Ref(at) => match heap.get(at as usize) {
            Some(object) => object_bytes(guest, object),
            None => b"".as_slice(),
        },
        Value::Class(index) => guest.class_name(index),
        Value::Lit(index) => literal_at(guest, index),
    }
}

/// The bytes in what the library sees of an object.
fn object_bytes<'a>(guest: &'a Guest, object: &'a Object) -> &'a [u8]
    ensures { result.now ≡ object_bytes guest.now object.now }
{
    match object {
        Object::Plain { class, .. } => {
            if guest.is_below(class.as_slice(), STRING) {
                return b"".as_slice();
            }
            class.as_slice()
        }
        Object::Array { desc, .. } => desc.as_slice(),
        Object::Text(text) => text.as_slice(),
    }
}

/// What the library sees of a value, of which these bytes are copied. It takes no memory.
pub fn shown_with(guest: &Guest, heap: &[Object], value: Value, copy: Bytes) -> ApiValue
    requires { copy ≡ bytes_shown guest.now heap.now value }
    ensures { result ≡ value_shown guest.now heap.now value }
{
    match value {
        Value::Int(n) => ApiValue::Int(n),
        Value::Null => ApiValue::Null,
        Value::Ref(at) => match heap.get(at as usize) {
            Some(object) => object_with(guest, at, object, copy),
            None => ApiValue::Null,
        },
        Value::Class(_) => ApiValue::Class(copy),
        Value::Lit(_) => ApiValue::Text(copy),
    }
}

/// What the library sees of the object with this index, of which these bytes are copied.
fn object_with(guest: &Guest, at: u32, object: &Object, copy: Bytes) -> ApiValue
    requires { copy ≡ object_bytes guest.now object.now }
    ensures { result ≡ object_shown guest.now at object.now }
{
    match object {
        Object::Plain { class, .. } => {
            if guest.is_below(class.as_slice(), STRING) {
                return ApiValue::Text(copy);
            }
            ApiValue::Obj { class: copy, at }
        }
        Object::Array { .. } => ApiValue::Obj { class: copy, at },
        Object::Text(_) => ApiValue::Text(copy),
    }
}
