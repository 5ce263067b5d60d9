//! Static fields.

ghost use Rattle.std.specs.Prelude.{List, Ok, ◌≡◌};
ghost use Rattle.guest_heap.specs.Stack.{Operands};
ghost use Rattle.guest_heap.specs.declared.object.Monitor.{Monitor};
ghost use Rattle.guest_heap.specs.declared.object.Object.{Object};
ghost use Rattle.guest_model.specs.Changes.{World};
ghost use Rattle.guest_model.specs.HeapOperations.{reads_static, writes_static};
ghost use Rattle.guest_operations.specs.Operates.{Operates, at, comes, with_monitors};

use crate::completion::{Comes, Completion};
use crate::operands::replace;
use bytecode_model::{Program, Target};
use guest_heap::{Stack, Value};
use mon_base::List;

/// Reads a static field. A listed one is an object of its own, which stands in the heap from the start.
pub fn read_static(
    program: &Program,
    target: &Target,
    statics: &List<List<Value>>,
    stack: &mut Stack,
) -> Option<Completion>
    ensures { (heap : List Object) → Operates (Ok result) (at heap statics.now stack.old) (at heap statics.now stack.new)
        (λ (world : World). reads_static program.now world target.now stack.old.items) }
{
    let came = static_read(program, target, statics);
    replace(stack, 0, came)
}

/// What comes of reading a static field.
fn static_read(program: &Program, target: &Target, statics: &List<List<Value>>) -> Option<Comes>
    ensures { (heap : List Object) (monitors : List Monitor) (stack : Operands)
        → reads_static program.now (with_monitors (at heap statics.now stack) monitors) target.now stack.items
        ≡ comes (with_monitors (at heap statics.now stack) monitors) stack.items result }
{
    match target {
        Target::ApiField(index) => {
            if (*index as usize) < program.listing.fields.len() {
                Some(Comes::Value(Value::Ref(*index)))
            } else {
                None
            }
        }
        Target::Field { class, field } => {
            let fields = statics.as_slice().get(*class as usize)?;
            match fields.as_slice().get(*field as usize) {
                Some(value) => Some(Comes::Value(*value)),
                None => None,
            }
        }
        Target::None
        | Target::ApiMethod(_)
        | Target::Builtin(_)
        | Target::Method { .. }
        | Target::ClassName(_)
        | Target::Number(_)
        | Target::Literal(_) => None,
    }
}

/// Writes the top operand into a static field.
pub fn write_static(
    target: &Target,
    statics: &mut List<List<Value>>,
    stack: &mut Stack,
) -> Option<Completion>
    ensures { (heap : List Object) → Operates (Ok result) (at heap statics.old stack.old) (at heap statics.new stack.new)
        (λ (world : World). writes_static world target.now stack.old.items) }
{
    match target {
        Target::Field { class, field } => {
            let value = stack.get(0)?;
            let fields = statics.as_slice().get(*class as usize)?;
            if *field as usize >= fields.len() {
                return None;
            }
            *statics.item_mut(*class as usize).item_mut(*field as usize) = value;
            stack.drop_top(1);
            Some(Completion::Goes)
        }
        Target::None
        | Target::ApiMethod(_)
        | Target::Builtin(_)
        | Target::Method { .. }
        | Target::ApiField(_)
        | Target::ClassName(_)
        | Target::Number(_)
        | Target::Literal(_) => None,
    }
}
