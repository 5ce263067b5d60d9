//! New objects, and of which classes objects are.

ghost use Rattle.std.specs.Prelude.{List, Ok, drop, option_and_then, ◌≡◌};
ghost use Rattle.bytecode_model.specs.SearchOrder.{Name};
ghost use Rattle.guest_heap.specs.declared.object.Monitor.{Monitor};
ghost use Rattle.guest_heap.specs.declared.value.Value.{Value};
ghost use Rattle.guest_model.specs.Changes.{World};
ghost use Rattle.guest_model.specs.HeapOperations.{casts, is_cast, makes_object, name_named, tells_instance};
ghost use Rattle.guest_operations.specs.Operates.{Operates, at, comes, with_monitors};

use bytecode_model::Target;
use guest_heap::{Object, Stack, Value};
use guest_model::Thrown;
use guest_operations::{Comes, Completion, name_named, operand_of, push_object, replace, truth};
use guest_tables::{Guest, is_instance, new_of};
use insn_codec::ValueKind;
use mon_base::{List, NoMemory};
use std::alloc::Global;

/// Makes an object of the class that is named.
pub fn make_object(
    alloc: Global,
    guest: &Guest,
    target: &Target,
    heap: &mut List<Object>,
    stack: &mut Stack,
) -> Result<Option<Completion>, NoMemory>
    ensures { (statics : List (List Value)) → Operates result (at heap.old statics stack.old) (at heap.new statics stack.new)
        (λ (world : World). option_and_then (λ (name : Name). makes_object guest.now world name stack.old.items) (name_named target.now)) }
{
    let Some(name) = name_named(target) else {
        return Ok(None);
    };
    let object = new_of(alloc, guest, name)?;
    push_object(object, 0, heap, stack)
}

/// Throws unless the top operand is null, or an object of the class or the array that is named.
pub fn cast(
    guest: &Guest,
    target: &Target,
    heap: &List<Object>,
    stack: &Stack,
) -> Option<Completion>
    ensures { (statics : List (List Value)) → Operates (Ok result) (at heap.now statics stack.now) (at heap.now statics stack.now)
        (λ (world : World). option_and_then (λ (name : Name). casts guest.now world name stack.now.items) (name_named target.now)) }
{
    let name = name_named(target)?;
    let value = operand_of(ValueKind::Reference, stack, 0)?;
    if is_cast(guest, heap, value, name.as_slice()) {
        Some(Completion::Goes)
    } else {
        Some(Completion::Throws(Thrown::Cast))
    }
}

/// Whether the value may be cast to the class or the array; null may be to each.
fn is_cast(guest: &Guest, heap: &List<Object>, value: Value, name: &[u8]) -> bool
    ensures { result ≡ is_cast guest.now heap.now value name.now }
{
    match value {
        Value::Null => true,
        Value::Int(_) => false,
        Value::Ref(_) | Value::Class(_) | Value::Lit(_) => is_instance(
            guest,
            heap.as_slice(),
            value,
            name,
        ),
    }
}

/// Tells whether the top operand is an object of the class or the array that is named.
pub fn tell_instance(
    guest: &Guest,
    target: &Target,
    heap: &List<Object>,
    stack: &mut Stack,
) -> Option<Completion>
    ensures { (statics : List (List Value)) → Operates (Ok result) (at heap.now statics stack.old) (at heap.now statics stack.new)
        (λ (world : World). option_and_then (λ (name : Name). tells_instance guest.now world name stack.old.items)
        (name_named target.now)) }
{
    let came = instance_told(guest, target, heap, stack);
    replace(stack, 1, came)
}

/// What comes of telling whether the top operand is such an object.
fn instance_told(
    guest: &Guest,
    target: &Target,
    heap: &List<Object>,
    stack: &Stack,
) -> Option<Comes>
    ensures { (statics : List (List Value)) (monitors : List Monitor)
        → option_and_then (λ (name : Name). tells_instance guest.now
        (with_monitors (at heap.now statics stack.now) monitors) name stack.now.items) (name_named target.now)
        ≡ comes (with_monitors (at heap.now statics stack.now) monitors) (drop 1 stack.now.items) result }
{
    let name = name_named(target)?;
    let value = operand_of(ValueKind::Reference, stack, 0)?;
    let test = is_instance(guest, heap.as_slice(), value, name.as_slice());
    Some(Comes::Value(truth(test)))
}
