//! What is written into arrays of references.

ghost use Rattle.std.specs.Prelude.{List, Ok, Some, drop, option_copied, ◌≡◌};
ghost use Rattle.bytecode_model.specs.Assigning.{reference_of};
ghost use Rattle.guest_heap.specs.Heap.{HasPlace};
ghost use Rattle.guest_heap.specs.Stack.{Operands};
ghost use Rattle.guest_heap.specs.declared.object.Monitor.{Monitor};
ghost use Rattle.guest_heap.specs.declared.value.Value.{Value};
ghost use Rattle.guest_model.specs.Changes.{World};
ghost use Rattle.guest_model.specs.HeapOperations.{item_written, may_hold, writes_item};
ghost use Rattle.guest_step.specs.Writing.{IsPlaced, comes_of};
ghost use Rattle.guest_operations.specs.Operates.{Operates, at, with_monitors};

use guest_heap::{Object, Stack, Value, put};
use guest_model::Thrown;
use guest_operations::{
    Completion, Led, item_kind, kept, number_operand, on_items, operand_of, place_among,
};
use guest_tables::{Guest, is_instance};
use insn_codec::Item;
use mon_base::List;
use type_lattice::reference_of;

/// What comes of operands that tell where something is written.
#[derive(Clone, Copy)]
pub enum Writes {
    /// The value is written into this place of the array at this index of the heap.
    Into { at: u32, place: usize, value: Value },
    /// It throws.
    Throws(Thrown),
}

/// Whether an array may hold the value: a number, null, or an object of the class or the array of its items.
fn may_hold(guest: &Guest, heap: &List<Object>, desc: &[u8], value: Value) -> bool
    ensures { result ≡ may_hold guest.now heap.now desc.now value }
{
    match value {
        Value::Null | Value::Int(_) => true,
        Value::Ref(_) | Value::Class(_) | Value::Lit(_) => match item_reference(desc) {
            Some(class) => is_instance(guest, heap.as_slice(), value, class),
            None => false,
        },
    }
}

/// The class or the array that the items of an array are.
fn item_reference<'a>(desc: &'a [u8]) -> Option<&'a [u8]>
    ensures { option_copied result ≡ reference_of (drop 1 desc.now) }
{
    match desc {
        [] => None,
        [_, item @ ..] => reference_of(item),
    }
}

/// Writes the top operand into an array.
pub fn write_item(
    guest: &Guest,
    item: Item,
    heap: &mut List<Object>,
    stack: &mut Stack,
) -> Option<Completion>
    ensures { (statics : List (List Value)) → Operates (Ok result) (at heap.old statics stack.old) (at heap.new statics stack.new)
        (λ (world : World). writes_item item guest.now world stack.old.items) }
{
    let writes = array_written(guest, item, heap, stack);
    write(writes, 3, heap, stack)
}

/// What comes of writing the top operand into an array.
fn array_written(guest: &Guest, item: Item, heap: &List<Object>, stack: &Stack) -> Option<Writes>
    ensures comes { (statics : List (List Value)) (monitors : List Monitor)
        → writes_item item guest.now (with_monitors (at heap.now statics stack.now) monitors) stack.now.items
        ≡ comes_of (with_monitors (at heap.now statics stack.now) monitors) (drop 3 stack.now.items) result }
    ensures there { IsPlaced heap.now result }
{
    let value = operand_of(item_kind(item), stack, 0)?;
    let index = number_operand(stack, 1)?;
    let array = stack.get(2)?;
    match on_items(item, heap, array) {
        Led::Nowhere => None,
        Led::Null => Some(Writes::Throws(Thrown::NullPointer)),
        Led::Array { at, desc, items } => match place_among(items.len(), index) {
            None => Some(Writes::Throws(Thrown::Bounds)),
            Some(place) => Some(item_written(guest, heap, at, desc, place, value)),
        },
    }
}

/// What comes of writing the value into this place of an array.
fn item_written(
    guest: &Guest,
    heap: &List<Object>,
    array: u32,
    desc: &[u8],
    place: u32,
    value: Value,
) -> Writes
    requires { HasPlace heap.now array place }
    ensures comes { (statics : List (List Value)) (monitors : List Monitor) (stack : Operands) (items left : List Value)
        → item_written guest.now (with_monitors (at heap.now statics stack) monitors)
        (record { at = array; desc = desc.now; items = items }) place value left
        ≡ comes_of (with_monitors (at heap.now statics stack) monitors) left (Some result) }
    ensures there { IsPlaced heap.now (Some result) }
{
    if may_hold(guest, heap, desc, value) {
        Writes::Into {
            at: array,
            place: place as usize,
            value: kept(desc, value),
        }
    } else {
        Writes::Throws(Thrown::Item)
    }
}

/// Takes so many operands, and writes what comes of them.
fn write(
    writes: Option<Writes>,
    taken: usize,
    heap: &mut List<Object>,
    stack: &mut Stack,
) -> Option<Completion>
    requires { IsPlaced heap.old writes }
    ensures { (statics : List (List Value)) → Operates (Ok result) (at heap.old statics stack.old) (at heap.new statics stack.new)
        (λ (world : World). comes_of world (drop taken stack.old.items) writes) }
{
    match writes {
        None => None,
        Some(Writes::Throws(thrown)) => Some(Completion::Throws(thrown)),
        Some(Writes::Into { at, place, value }) => {
            put(heap, at, place, value);
            stack.drop_top(taken);
            Some(Completion::Goes)
        }
    }
}
