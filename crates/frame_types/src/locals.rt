//! The locals that an instruction asks for, and the one that it stores into.

ghost use Rattle.std.specs.Prelude.{◌≡◌, ◌≤◌, ℕ, List, false, true};
ghost use Rattle.cert_format.specs.declared.typing.VType.{VType};
ghost use Rattle.bytecode_model.specs.declared.program.Method.{Method};
ghost use Rattle.bytecode_model.specs.Makes.{stores, type_at};
ghost use Rattle.bytecode_model.specs.Rules.{uses_local};
ghost use Rattle.bytecode_model.specs.Wants.{of_kind};

use crate::kinds::of_kind;
use bytecode_model::Method;
use cert_format::VType;
use insn_codec::{Shape, ValueKind};

/// Whether the local in the place is of the kind.
fn holds_kind(kind: ValueKind, locals: &[VType], slot: u16) -> bool
    ensures { result ≡ of_kind kind (type_at locals.now slot) }
{
    let Some(t) = locals.get(usize::from(slot)) else {
        return false;
    };
    of_kind(kind, t)
}

/// Whether a method has the local that is used, and this holds what is wanted.
pub fn uses_local(method: &Method, locals: &[VType], shape: Shape) -> bool
    ensures { result ≡ uses_local method.now locals.now shape }
{
    match shape {
        Shape::Load { kind, slot } => slot < method.max_locals && holds_kind(kind, locals, slot),
        Shape::Store { slot, .. } => slot < method.max_locals,
        Shape::Increment { slot, .. } => {
            slot < method.max_locals && holds_kind(ValueKind::Int, locals, slot)
        }
        _ => true,
    }
}

/// Whether an instruction of the shape stores into the local.
pub fn stores(shape: Shape, j: usize) -> bool
    ensures { result ≡ stores shape j }
{
    match shape {
        Shape::Store { slot, .. } => j == usize::from(slot),
        _ => false,
    }
}

/// How many locals there may be after an instruction that finds so many.
pub fn count_after(shape: Shape, count: usize) -> usize
    ensures stored { (j : ℕ) → result ≤ j → stores shape j ≡ false }
    ensures found { count ≤ result }
    ensures within { (method : Method) (locals : List VType) → count ≤ method.max_locals → uses_local method locals shape ≡ true
        → result ≤ method.max_locals }
{
    match shape {
        Shape::Store { slot, .. } => count.max(usize::from(slot) + 1),
        _ => count,
    }
}
