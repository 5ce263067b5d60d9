//! Constants.

ghost use Rattle.std.specs.Prelude.{List, Ok, option_map, ◌∷◌, ◌≡◌};
ghost use Rattle.guest_heap.specs.declared.object.Object.{Object};
ghost use Rattle.guest_heap.specs.declared.value.Value.{Value};
ghost use Rattle.guest_model.specs.Changes.{World};
ghost use Rattle.guest_model.specs.Parts.{constant_value};
ghost use Rattle.guest_operations.specs.Operates.{Operates, at, comes};

use bytecode_model::Target;
use guest_heap::{Stack, Value};
use guest_operations::{Comes, Completion, replace};
use guest_tables::Guest;

/// Puts what a constant names on top.
pub fn constant(guest: &Guest, target: &Target, stack: &mut Stack) -> Option<Completion>
    ensures { (heap : List Object) (statics : List (List Value))
        → Operates (Ok result) (at heap statics stack.old) (at heap statics stack.new)
        (λ (world : World). option_map (λ (v : Value). Ok (world, v ∷ stack.old.items)) (constant_value guest.now target.now)) }
{
    let came = constant_named(guest, target);
    replace(stack, 0, came)
}

/// What a constant names.
fn constant_named(guest: &Guest, target: &Target) -> Option<Comes>
    ensures { (world : World) (items : List Value) → option_map (λ (v : Value). Ok (world, v ∷ items))
        (constant_value guest.now target.now) ≡ comes world items result }
{
    match target {
        Target::Number(n) => Some(Comes::Value(Value::Int(*n))),
        Target::Literal(index) => Some(Comes::Value(Value::Lit(*index))),
        Target::ClassName(name) => match guest.class_index(name.as_slice()) {
            Some(index) => Some(Comes::Value(Value::Class(index))),
            None => None,
        },
        Target::None
        | Target::ApiMethod(_)
        | Target::Builtin(_)
        | Target::Method { .. }
        | Target::Field { .. }
        | Target::ApiField(_) => None,
    }
}
