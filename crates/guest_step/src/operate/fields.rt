//! Fields.

ghost use Rattle.std.specs.Prelude.{List, Ok, drop, ◌≡◌};
ghost use Rattle.guest_heap.specs.declared.object.Monitor.{Monitor};
ghost use Rattle.guest_heap.specs.declared.value.Value.{Value};
ghost use Rattle.guest_model.specs.Changes.{World};
ghost use Rattle.guest_model.specs.HeapOperations.{place_named, reads_field, writes_field};
ghost use Rattle.guest_operations.specs.Operates.{Operates, at, comes, with_monitors};

use bytecode_model::Target;
use guest_heap::{Object, Stack, Value, places, put};
use guest_model::Thrown;
use guest_operations::{Comes, Completion, replace};
use guest_tables::Guest;
use mon_base::List;

/// The place of a field in the objects that have it.
fn place_named(guest: &Guest, target: &Target) -> Option<usize>
    ensures { result ≡ place_named guest.now target.now }
{
    match target {
        Target::Field { class, field } => guest.place_of_field(*class, *field),
        Target::None
        | Target::ApiMethod(_)
        | Target::Builtin(_)
        | Target::Method { .. }
        | Target::ApiField(_)
        | Target::ClassName(_)
        | Target::Number(_)
        | Target::Literal(_) => None,
    }
}

/// Reads the field of the top object.
pub fn read_field(
    guest: &Guest,
    target: &Target,
    heap: &List<Object>,
    stack: &mut Stack,
) -> Option<Completion>
    ensures { (statics : List (List Value)) → Operates (Ok result) (at heap.now statics stack.old) (at heap.now statics stack.new)
        (λ (world : World). reads_field guest.now world target.now stack.old.items) }
{
    let came = field_read(guest, target, heap, stack);
    replace(stack, 1, came)
}

/// What comes of reading the field of the top object.
fn field_read(guest: &Guest, target: &Target, heap: &List<Object>, stack: &Stack) -> Option<Comes>
    ensures { (statics : List (List Value)) (monitors : List Monitor)
        → reads_field guest.now (with_monitors (at heap.now statics stack.now) monitors) target.now stack.now.items
        ≡ comes (with_monitors (at heap.now statics stack.now) monitors) (drop 1 stack.now.items) result }
{
    let place = place_named(guest, target)?;
    match stack.get(0)? {
        Value::Null => Some(Comes::Throws(Thrown::NullPointer)),
        Value::Ref(at) => {
            let object = heap.as_slice().get(at as usize)?;
            match places(object).get(place) {
                Some(value) => Some(Comes::Value(*value)),
                None => None,
            }
        }
        Value::Int(_) | Value::Class(_) | Value::Lit(_) => None,
    }
}

/// Writes the top operand into the field of the object below it.
pub fn write_field(
    guest: &Guest,
    target: &Target,
    heap: &mut List<Object>,
    stack: &mut Stack,
) -> Option<Completion>
    ensures { (statics : List (List Value)) → Operates (Ok result) (at heap.old statics stack.old) (at heap.new statics stack.new)
        (λ (world : World). writes_field guest.now world target.now stack.old.items) }
{
    let place = place_named(guest, target)?;
    let value = stack.get(0)?;
    match stack.get(1)? {
        Value::Null => Some(Completion::Throws(Thrown::NullPointer)),
        Value::Ref(at) => {
            let object = heap.as_slice().get(at as usize)?;
            if place >= places(object).len() {
                return None;
            }
            put(heap, at, place, value);
            stack.drop_top(2);
            Some(Completion::Goes)
        }
        Value::Int(_) | Value::Class(_) | Value::Lit(_) => None,
    }
}
