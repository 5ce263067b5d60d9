//! New objects and arrays.

ghost use Rattle.std.specs.Prelude.{IfOk, List, Ok, Some, drop, length, option_and_then, option_copied, replicate, ◌∷◌, ◌≡◌};
ghost use Rattle.bytecode_model.specs.Arrays.{array_of};
ghost use Rattle.bytecode_model.specs.Makes.{array_named};
ghost use Rattle.bytecode_model.specs.SearchOrder.{Name};
ghost use Rattle.guest_heap.specs.declared.value.Value.{Value};
ghost use Rattle.guest_heap.specs.declared.value.Value.TheVariants as values;
ghost use Rattle.guest_model.specs.Changes.{World, with_object};
ghost use Rattle.guest_model.specs.Layout.{first_value};
ghost use Rattle.guest_model.specs.HeapOperations.{makes_array, name_named, truth};
ghost use Rattle.guest_operations.specs.Operates.{Operates, at};

use crate::completion::Completion;
use crate::operands::number_operand;
use bytecode_model::{Target, push_described};
use guest_heap::{Object, Stack, Value, new_object};
use guest_model::{Thrown, first_value};
use mon_base::{Bytes, List, NoMemory};
use std::alloc::Global;

/// The class or the array that is named.
pub fn name_named<'a>(target: &'a Target) -> Option<&'a Bytes>
    ensures { option_copied result ≡ name_named target.now }
{
    match target {
        Target::ClassName(name) => Some(name),
        Target::None
        | Target::ApiMethod(_)
        | Target::Builtin(_)
        | Target::Method { .. }
        | Target::Field { .. }
        | Target::ApiField(_)
        | Target::Number(_)
        | Target::Literal(_) => None,
    }
}

/// Takes so many operands, and puts a reference to the object on top, which is the last of the heap now. It wants memory where
/// the heap has as many objects as there are references.
pub fn push_object(
    object: Object,
    taken: usize,
    heap: &mut List<Object>,
    stack: &mut Stack,
) -> Result<Option<Completion>, NoMemory>
    ensures { (statics : List (List Value)) → Operates result (at heap.old statics stack.old) (at heap.new statics stack.new)
        (λ (world : World). Some (Ok (with_object world object, values.Ref (length world.heap) ∷ drop taken stack.old.items))) }
{
    if stack.len().saturating_sub(taken) >= stack.size() as usize {
        return Ok(None);
    }
    if heap.len() >= u32::MAX as usize {
        return Err(NoMemory);
    }
    let at = new_object(heap, object)?;
    stack.drop_top(taken);
    stack.push(Value::Ref(at));
    Ok(Some(Completion::Goes))
}

/// Makes an array of numbers, as many as the top operand tells.
pub fn make_numbers(
    alloc: Global,
    kind: u8,
    heap: &mut List<Object>,
    stack: &mut Stack,
) -> Result<Option<Completion>, NoMemory>
    ensures { (statics : List (List Value)) → Operates result (at heap.old statics stack.old) (at heap.new statics stack.new)
        (λ (world : World). makes_array world (array_named kind) stack.old.items) }
{
    let desc = Bytes::from_slice(alloc, array_named(kind))?;
    make_array(alloc, desc, heap, stack)
}

/// Makes an array of the references that are named, as many as the top operand tells.
pub fn make_references(
    alloc: Global,
    target: &Target,
    heap: &mut List<Object>,
    stack: &mut Stack,
) -> Result<Option<Completion>, NoMemory>
    ensures { (statics : List (List Value)) → Operates result (at heap.old statics stack.old) (at heap.new statics stack.new)
        (λ (world : World). option_and_then (λ (name : Name). makes_array world (array_of name) stack.old.items) (name_named target.now)) }
{
    let Some(name) = name_named(target) else {
        return Ok(None);
    };
    let desc = array_of(alloc, name.as_slice())?;
    make_array(alloc, desc, heap, stack)
}

/// The descriptor of an array of numbers.
fn array_named(kind: u8) -> &'static [u8]
    ensures { result.now ≡ array_named kind }
{
    match kind {
        4 => b"[Z",
        5 => b"[C",
        8 => b"[B",
        9 => b"[S",
        _ => b"[I",
    }
}

/// The descriptor of an array of these.
fn array_of(alloc: Global, item: &[u8]) -> Result<Bytes, NoMemory>
    ensures { IfOk result (λ desc. desc ≡ array_of item.now) }
{
    let mut desc = Bytes::new(alloc);
    desc.push(b'[')?;
    push_described(&mut desc, item)?;
    Ok(desc)
}

/// Makes an array of this descriptor, whose items are 0 or null.
fn make_array(
    alloc: Global,
    desc: Bytes,
    heap: &mut List<Object>,
    stack: &mut Stack,
) -> Result<Option<Completion>, NoMemory>
    ensures { (statics : List (List Value)) → Operates result (at heap.old statics stack.old) (at heap.new statics stack.new)
        (λ (world : World). makes_array world desc stack.old.items) }
{
    let Some(count) = number_operand(stack, 0) else {
        return Ok(None);
    };
    if count < 0 {
        return Ok(Some(Completion::Throws(Thrown::Size)));
    }
    let items = first_items(alloc, desc.as_slice(), count as usize)?;
    push_object(Object::Array { desc, items }, 1, heap, stack)
}

/// So many items of an array of this descriptor, before they are written.
fn first_items(alloc: Global, desc: &[u8], count: usize) -> Result<List<Value>, NoMemory>
    ensures { IfOk result (λ items. items ≡ replicate count (first_value (drop 1 desc.now))) }
{
    let first = match desc {
        [] => first_value(b""),
        [_, item @ ..] => first_value(item),
    };
    let items = vec![in alloc; first; count]?;
    Ok(List::from_vec(items))
}

/// A truth value as a number.
pub fn truth(test: bool) -> Value
    ensures { result ≡ truth test }
{
    if test {
        return Value::Int(1);
    }
    Value::Int(0)
}
