//! What is left on the operand stack.

ghost use Rattle.std.specs.Prelude.{List, Ok, drop, length, ◌≡◌, ◌≤◌};
ghost use Rattle.guest_heap.specs.declared.object.Object.{Object};
ghost use Rattle.guest_heap.specs.declared.value.Value.{Value};
ghost use Rattle.guest_model.specs.Changes.{World};
ghost use Rattle.guest_model.specs.HeapOperations.{number_operand, operand_of};
ghost use Rattle.guest_operations.specs.Operates.{Operates, at, comes};

use crate::completion::{Comes, Completion};
use guest_frames::fits;
use guest_heap::{Stack, Value};
use insn_codec::ValueKind;

/// Takes so many operands, and puts on top what comes of them, where there is room.
pub fn replace(stack: &mut Stack, taken: usize, came: Option<Comes>) -> Option<Completion>
    ensures { (heap : List Object) (statics : List (List Value))
        → Operates (Ok result) (at heap statics stack.old) (at heap statics stack.new)
        (λ (world : World). comes world (drop taken stack.old.items) came) }
{
    match came {
        None => None,
        Some(Comes::Throws(thrown)) => Some(Completion::Throws(thrown)),
        Some(Comes::Value(value)) => {
            if stack.len().saturating_sub(taken) >= stack.size() as usize {
                return None;
            }
            stack.drop_top(taken);
            stack.push(value);
            Some(Completion::Goes)
        }
    }
}

/// The number at this depth.
pub fn number_operand(stack: &Stack, depth: u8) -> Option<i32>
    ensures { result ≡ number_operand stack.now.items depth }
{
    let value = stack.get(depth)?;
    match value {
        Value::Int(n) => Some(n),
        Value::Null | Value::Ref(_) | Value::Class(_) | Value::Lit(_) => None,
    }
}

/// The operand at this depth, where it is of the kind.
pub fn operand_of(kind: ValueKind, stack: &Stack, depth: u8) -> Option<Value>
    ensures operand { result ≡ operand_of kind stack.now.items depth }
    ensures few { length stack.now.items ≤ stack.now.size }
{
    let value = stack.get(depth)?;
    if fits(kind, value) {
        return Some(value);
    }
    None
}
