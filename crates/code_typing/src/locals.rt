//! Rule 4, and what the locals are afterwards.

ghost use Rattle.std.specs.Prelude.{◌≡◌, IsTrue, List, ℕ};
ghost use Rattle.cert_format.specs.declared.typing.VType.{VType};
ghost use Rattle.insn_codec.specs.Shapes.{shape_of};
ghost use Rattle.bytecode_model.specs.Assigning.{assignable};
ghost use Rattle.bytecode_model.specs.Borrowing.{type_borrowed};
ghost use Rattle.code_typing.specs.Changing.{local_told};
ghost use Rattle.bytecode_model.specs.Makes.{stores, type_at};
ghost use Rattle.bytecode_model.specs.Rules.{Local, uses_local, locals_fit};

use crate::change::{Change, change_told};
use crate::place::PlaceRef;
use bytecode_model::TypeRef;
use cert_format::{FrameType, VType};
use frame_types::{stores, type_at, uses_local};
use insn_codec::Shape;
use type_lattice::{Indexed, assignable, borrowed_fits};

/// Rule 4.
pub fn has_locals(place: &PlaceRef, frame: &FrameType) -> bool
    ensures { result ≡ Local place.now frame.now }
{
    frame.locals.len() <= usize::from(place.method.max_locals)
        && uses_local(place.method, frame.locals.as_slice(), place.shape())
}

/// The type of a local afterwards.
pub fn local_told<'a>(
    shape: Shape,
    change: Change<'a>,
    locals: &'a [VType],
    taken: &'a [VType],
    j: usize,
) -> TypeRef<'a>
    ensures { type_borrowed result ≡ local_told shape change.entry locals.now taken.now j }
{
    if stores(shape, j) {
        return type_at(taken, 0);
    }
    match locals.get(j) {
        Some(t) => change_told(change, t),
        None => TypeRef::Top,
    }
}

/// Whether the local in this place is assignable to the type; one that is absent holds nothing.
fn local_fits(program: &Indexed, from: &[VType], j: usize, to: &VType) -> bool
    ensures { result ≡ assignable program.now (type_at from.now j) to.now }
{
    let Some(t) = from.get(j) else {
        return borrowed_fits(program, TypeRef::Top, to);
    };
    assignable(program, t, to)
}

/// Whether locals are assignable to these.
fn locals_fit(program: &Indexed, from: &[VType], to: &[VType]) -> bool
    ensures { result ≡ locals_fit program.now (type_at from.now) 0 to.now }
{
    let mut j: usize = 0;
    let mut left = to;
    while let [first, rest @ ..] = left {
        if !local_fits(program, from, j, first) {
            return false;
        }
        j += 1;
        left = rest;
    }
    true
}

/// Whether the locals afterwards are those before.
fn stays(shape: Shape, change: Change) -> bool
    ensures { IsTrue result → (locals taken : List VType) (j : ℕ) → local_told shape change.entry locals taken j ≡ type_at locals j }
{
    !matches!(shape, Shape::Store { .. }) && matches!(change, Change::Nothing)
}

/// Whether the locals afterwards are assignable to these.
pub fn locals_take(
    program: &Indexed,
    shape: Shape,
    change: Change,
    locals: &[VType],
    taken: &[VType],
    to: &[VType],
) -> bool
    ensures { result ≡ locals_fit program.now (local_told shape change.entry locals.now taken.now) 0 to.now }
{
    if stays(shape, change) {
        locals_fit(program, locals, to)
    } else {
        changed_fit(program, shape, change, locals, taken, to)
    }
}

/// The same, where one is stored or the types that stay are changed.
fn changed_fit(
    program: &Indexed,
    shape: Shape,
    change: Change,
    locals: &[VType],
    taken: &[VType],
    to: &[VType],
) -> bool
    ensures { result ≡ locals_fit program.now (local_told shape change.entry locals.now taken.now) 0 to.now }
{
    let mut j: usize = 0;
    let mut left = to;
    while let [first, rest @ ..] = left {
        if !borrowed_fits(program, local_told(shape, change, locals, taken, j), first) {
            return false;
        }
        j += 1;
        left = rest;
    }
    true
}
