//! Arrays.

ghost use Rattle.std.specs.Prelude.{IfOk, IfSome, List, Ok, drop, ◌<◌, ◌≡◌};
ghost use Rattle.guest_heap.specs.declared.object.Monitor.{Monitor};
ghost use Rattle.guest_heap.specs.declared.value.Value.{Value};
ghost use Rattle.guest_model.specs.Changes.{World};
ghost use Rattle.guest_model.specs.HeapOperations.{
  ArrayAt,
  HeapResult,
  has_items,
  item_kind,
  kept,
  kept_number,
  length_told,
  on_array,
  on_items,
  place_among,
  reads_item,
};
ghost use Rattle.guest_operations.specs.Led.{IsOf, led};
ghost use Rattle.guest_operations.specs.Operates.{Operates, at, comes, with_monitors};

use crate::completion::{Comes, Completion};
use crate::operands::{number_operand, replace};
use bytecode_model::is_text;
use guest_frames::made_of_one;
use guest_heap::{Object, Stack, Value};
use guest_model::{Thrown, is_of_references};
use insn_codec::{Item, One, ValueKind};
use mon_base::{List, NoMemory};

/// Where a reference leads that is to be an array.
#[derive(Clone, Copy)]
pub enum Led<'a> {
    /// To no such array.
    Nowhere,
    Null,
    /// To the array at this index of the heap.
    Array {
        at: u32,
        desc: &'a [u8],
        items: &'a [Value],
    },
}

/// The array that the value leads to.
fn on_array<'a>(heap: &'a List<Object>, value: Value) -> Led<'a>
    ensures led { (f : ArrayAt → HeapResult) → on_array heap.now value f ≡ led result f }
    ensures there { IsOf heap.now result }
{
    match value {
        Value::Null => Led::Null,
        Value::Ref(at) => {
            match heap.as_slice().get(at as usize) {
                Some(Object::Array { desc, items }) => Led::Array {
                    at,
                    desc: desc.as_slice(),
                    items: items.as_slice(),
                },
                _ => Led::Nowhere,
            }
        }
        Value::Int(_) | Value::Class(_) | Value::Lit(_) => Led::Nowhere,
    }
}

/// The same, where the array has such items.
pub fn on_items<'a>(item: Item, heap: &'a List<Object>, value: Value) -> Led<'a>
    ensures led { (f : ArrayAt → HeapResult) → on_items item heap.now value f ≡ led result f }
    ensures there { IsOf heap.now result }
{
    match on_array(heap, value) {
        Led::Array { at, desc, items } => {
            if has_items(item, desc) {
                Led::Array { at, desc, items }
            } else {
                Led::Nowhere
            }
        }
        Led::Null => Led::Null,
        Led::Nowhere => Led::Nowhere,
    }
}

/// Whether an array of this descriptor has such items.
fn has_items(item: Item, desc: &[u8]) -> bool
    ensures { result ≡ has_items item desc.now }
{
    match item {
        Item::Int => is_text(desc, "[I"),
        Item::Reference => match desc {
            [] => false,
            [_, item @ ..] => is_of_references(item),
        },
        Item::Byte => is_text(desc, "[B") || is_text(desc, "[Z"),
        Item::Char => is_text(desc, "[C"),
        Item::Short => is_text(desc, "[S"),
    }
}

/// The place that a number names, if it is one of so many.
pub fn place_among(count: usize, index: i32) -> Option<u32>
    ensures place { result ≡ place_among count index }
    ensures within { IfSome result (λ place. place < count) }
{
    if index < 0 {
        return None;
    }
    let place = index as u32;
    if (place as usize) < count {
        Some(place)
    } else {
        None
    }
}

/// Reads the item of an array.
pub fn read_item(item: Item, heap: &List<Object>, stack: &mut Stack) -> Option<Completion>
    ensures { (statics : List (List Value)) → Operates (Ok result) (at heap.now statics stack.old) (at heap.now statics stack.new)
        (λ (world : World). reads_item item world stack.old.items) }
{
    let came = item_read(item, heap, stack);
    replace(stack, 2, came)
}

/// What comes of reading the item of an array.
fn item_read(item: Item, heap: &List<Object>, stack: &Stack) -> Option<Comes>
    ensures { (statics : List (List Value)) (monitors : List Monitor)
        → reads_item item (with_monitors (at heap.now statics stack.now) monitors) stack.now.items
        ≡ comes (with_monitors (at heap.now statics stack.now) monitors) (drop 2 stack.now.items) result }
{
    let index = number_operand(stack, 0)?;
    let array = stack.get(1)?;
    match on_items(item, heap, array) {
        Led::Nowhere => None,
        Led::Null => Some(Comes::Throws(Thrown::NullPointer)),
        Led::Array { items, .. } => match place_among(items.len(), index) {
            None => Some(Comes::Throws(Thrown::Bounds)),
            Some(place) => Some(Comes::Value(items[place as usize])),
        },
    }
}

/// Tells the length of an array. It wants memory where that is no number of 31 bits.
pub fn tell_length(heap: &List<Object>, stack: &mut Stack) -> Result<Option<Completion>, NoMemory>
    ensures { (statics : List (List Value)) → Operates result (at heap.now statics stack.old) (at heap.now statics stack.new)
        (λ (world : World). length_told world stack.old.items) }
{
    let came = length_of(heap, stack)?;
    Ok(replace(stack, 1, came))
}

/// What comes of telling the length of an array.
fn length_of(heap: &List<Object>, stack: &Stack) -> Result<Option<Comes>, NoMemory>
    ensures { IfOk result (λ came. (statics : List (List Value)) (monitors : List Monitor)
        → length_told (with_monitors (at heap.now statics stack.now) monitors) stack.now.items
        ≡ comes (with_monitors (at heap.now statics stack.now) monitors) (drop 1 stack.now.items) came) }
{
    let Some(array) = stack.get(0) else {
        return Ok(None);
    };
    match on_array(heap, array) {
        Led::Nowhere => Ok(None),
        Led::Null => Ok(Some(Comes::Throws(Thrown::NullPointer))),
        Led::Array { items, .. } => {
            if items.len() > i32::MAX as usize {
                return Err(NoMemory);
            }
            Ok(Some(Comes::Value(Value::Int(items.len() as i32))))
        }
    }
}

/// What such an item is: a reference, or a number.
pub fn item_kind(item: Item) -> ValueKind
    ensures { result ≡ item_kind item }
{
    match item {
        Item::Reference => ValueKind::Reference,
        Item::Int | Item::Byte | Item::Char | Item::Short => ValueKind::Int,
    }
}

/// What the items of an array keep of a value.
pub fn kept(desc: &[u8], value: Value) -> Value
    ensures { result ≡ kept desc.now value }
{
    match value {
        Value::Int(n) => Value::Int(kept_number(desc, n)),
        _ => value,
    }
}

/// What the items of an array keep of a number: its low bits, with or without a sign.
fn kept_number(desc: &[u8], n: i32) -> i32
    ensures { result ≡ kept_number desc.now n }
{
    if is_text(desc, "[Z") {
        n & 1
    } else if is_text(desc, "[B") {
        made_of_one(One::ToByte, n)
    } else if is_text(desc, "[C") {
        made_of_one(One::ToChar, n)
    } else if is_text(desc, "[S") {
        made_of_one(One::ToShort, n)
    } else {
        n
    }
}
