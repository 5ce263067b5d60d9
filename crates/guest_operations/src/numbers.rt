//! Division.

ghost use Rattle.std.specs.Prelude.{List, Ok, drop, pos, ◌≡◌, ◌≢◌};
ghost use Rattle.guest_heap.specs.declared.object.Object.{Object};
ghost use Rattle.guest_heap.specs.declared.value.Value.{Value};
ghost use Rattle.guest_model.specs.Changes.{World};
ghost use Rattle.guest_model.specs.HeapOperations.{divides, quotient};
ghost use Rattle.guest_operations.specs.Operates.{Operates, at, comes};

use crate::completion::{Comes, Completion};
use crate::operands::{number_operand, replace};
use guest_heap::{Stack, Value};
use guest_model::Thrown;

/// Divides the number below the top one by that, and leaves the quotient or the remainder.
pub fn divide(remainder: bool, stack: &mut Stack) -> Option<Completion>
    ensures { (heap : List Object) (statics : List (List Value))
        → Operates (Ok result) (at heap statics stack.old) (at heap statics stack.new)
        (λ (world : World). divides world remainder stack.old.items) }
{
    let came = divided(remainder, stack);
    replace(stack, 2, came)
}

/// What comes of dividing.
fn divided(remainder: bool, stack: &Stack) -> Option<Comes>
    ensures { (world : World) → divides world remainder stack.now.items ≡ comes world (drop 2 stack.now.items) result }
{
    let y = number_operand(stack, 0)?;
    let x = number_operand(stack, 1)?;
    if y == 0 {
        return Some(Comes::Throws(Thrown::Division));
    }
    Some(Comes::Value(Value::Int(quotient(remainder, x, y))))
}

/// The quotient or the remainder. The least number divided by -1 gives itself, and the remainder 0.
fn quotient(remainder: bool, x: i32, y: i32) -> i32
    requires { y ≢ pos 0 }
    ensures { result ≡ quotient remainder x y }
{
    if remainder {
        x.wrapping_rem(y)
    } else {
        x.wrapping_div(y)
    }
}
