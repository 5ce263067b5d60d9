//! Rule 1: a method begins with its arguments.

ghost use Rattle.std.specs.Prelude.{◌≡◌, ◌∷◌, [], length, map, option_copied};
ghost use Rattle.code_typing.specs.Steps.{after_fit};
ghost use Rattle.bytecode_model.specs.Described.{types_at, type_described};
ghost use Rattle.bytecode_model.specs.Makes.{type_at};
ghost use Rattle.bytecode_model.specs.Rules.{Entry, entry_locals, locals_fit, this_type};
ghost use Rattle.bytecode_model.specs.Borrowing.{type_borrowed};

use crate::place::PlaceRef;
use bytecode_model::{TypeRef, is_static};
use cert_format::{FrameType, VType};
use frame_types::{arguments_text, arity, is_maker, next_type, type_described};
use type_lattice::{Indexed, borrowed_fits};

/// Whether locals that hold nothing are assignable to these.
fn are_top(program: &Indexed, to: &[VType]) -> bool
    ensures { result ≡ locals_fit program.now (type_at []) 0 to.now }
{
    let mut j: usize = 0;
    let mut left = to;
    while let [first, rest @ ..] = left {
        if !borrowed_fits(program, TypeRef::Top, first) {
            return false;
        }
        j += 1;
        left = rest;
    }
    true
}

/// The locals after the first, where the type is assignable to that or there is none.
fn after_fit<'a>(program: &Indexed, from: TypeRef, to: &'a [VType]) -> Option<&'a [VType]>
    ensures { option_copied result ≡ after_fit program.now (type_borrowed from.entry) to.now }
{
    let [first, others @ ..] = to else {
        return Some(to);
    };
    if borrowed_fits(program, from, first) {
        return Some(others);
    }
    None
}

/// Whether arguments of these types, and locals that hold nothing after them, are assignable to these.
fn arguments_fit(program: &Indexed, text: &[u8], to: &[VType]) -> bool
    ensures { result ≡ locals_fit program.now (type_at (map type_described (types_at 255 text.now))) 0 to.now }
{
    let mut text = text;
    let mut to = to;
    for _ in 0..255usize {
        let Some((desc, following)) = next_type(text) else {
            return are_top(program, to);
        };
        let Some(others) = after_fit(program, type_described(desc), to) else {
            return false;
        };
        to = others;
        text = following;
    }
    are_top(program, to)
}

/// What an instance method finds in local 0.
pub fn this_type<'a>(place: &PlaceRef<'a>) -> TypeRef<'a>
    ensures { type_borrowed result ≡ this_type place.now }
{
    if is_maker(place.method) {
        TypeRef::UninitThis
    } else {
        TypeRef::Ref(place.class.name.as_slice())
    }
}

/// Whether this first type, and arguments of these types after it, are assignable to these.
fn first_fits(program: &Indexed, from: TypeRef, text: &[u8], to: &[VType]) -> bool
    ensures { result ≡ locals_fit program.now (type_at (type_borrowed from.entry ∷ map type_described (types_at 255 text.now))) 0 to.now }
{
    match after_fit(program, from, to) {
        None => false,
        Some(others) => arguments_fit(program, text, others),
    }
}

/// Whether the locals at the beginning are assignable to these.
fn entry_fits(place: &PlaceRef, to: &[VType]) -> bool
    ensures { result ≡ locals_fit place.now.program (type_at (entry_locals place.now)) 0 to.now }
{
    let text = arguments_text(place.method.desc.as_slice());
    if is_static(place.method.flags) {
        return arguments_fit(place.program, text, to);
    }
    first_fits(place.program, this_type(place), text, to)
}

/// How many locals there are at the beginning.
fn count_entry(place: &PlaceRef) -> usize
    ensures { result ≡ length (entry_locals place.now) }
{
    let count = arity(place.method.desc.as_slice());
    if is_static(place.method.flags) {
        return count;
    }
    count + 1
}

/// Rule 1, of a frame that is there.
pub fn is_entered(place: &PlaceRef, frame: &FrameType) -> bool
    ensures { result ≡ Entry place.now frame.now }
{
    count_entry(place) <= usize::from(place.method.max_locals)
        && entry_fits(place, frame.locals.as_slice())
        && frame.stack.is_empty()
}
