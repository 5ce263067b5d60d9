//! The operands that an instruction takes: how many, and whether each is what is wanted.

ghost use Rattle.std.specs.Prelude.{◌≡◌, ◌∷◌, ◌&&◌, [], length, map, replicate, option_map, option_copied};
ghost use Rattle.code_typing.specs.Steps.{after_met};
ghost use Rattle.insn_codec.specs.Shapes.{shape_of};
ghost use Rattle.bytecode_model.specs.Described.{types_at};
ghost use Rattle.bytecode_model.specs.Wants.{
  all_met,
  anything,
  takes,
  takes_of,
  heap_takes,
  call_takes,
  to_class,
  to_written,
  to_own,
  to_receiver,
  to_result,
  to_arguments,
  to_described,
  returns_well,
  is_result_of,
};
ghost use Rattle.bytecode_model.specs.Described.{result_type};
ghost use Rattle.bytecode_model.specs.InsnPlace.{class_referred, desc_referred};
ghost use Rattle.insn_codec.specs.declared.shape.Heap.TheVariants as heap;
ghost use Rattle.bytecode_model.specs.Borrowing.{type_borrowed};

use crate::place::{PlaceRef, is_own_field};
use crate::wanted::{Wanted, one_is, three_are, to_class, to_described, two_are};
use bytecode_model::TypeRef;
use cert_format::VType;
use frame_types::{
    arguments_text, arity, calls_maker, class_referred, desc_referred, has_receiver, is_this,
    next_type, result_text, result_type,
};
use insn_codec::{Heap, How, Item, Shape, ValueKind, depth_of};
use type_lattice::Indexed;

// ---- how many

fn call_count(place: &PlaceRef, how: How) -> usize
    ensures { result ≡ length (call_takes place.now how) }
{
    let count = arity(desc_referred(&place.insn_ref()));
    if has_receiver(how) {
        return count + 1;
    }
    count
}

fn heap_count(place: &PlaceRef, what: Heap) -> usize
    ensures { result ≡ length (heap_takes place.now what) }
{
    match what {
        Heap::Constant | Heap::ReadStatic | Heap::New | Heap::Return(None) => 0,
        Heap::ReadItem(_) | Heap::Divide { .. } | Heap::WriteField => 2,
        Heap::WriteItem(_) => 3,
        Heap::Call(how) => call_count(place, how),
        _ => 1,
    }
}

/// How many operands the instruction takes.
pub fn count_taken(place: &PlaceRef) -> usize
    ensures { result ≡ length (takes place.now) }
{
    match place.shape() {
        Shape::Store { .. } | Shape::One(_) | Shape::Test { .. } | Shape::TestNull { .. } => 1,
        Shape::Switch => 1,
        Shape::Two(_) | Shape::Compare { .. } | Shape::CompareReferences { .. } => 2,
        Shape::Move(form) => usize::from(depth_of(form)),
        Shape::Heap(what) => heap_count(place, what),
        _ => 0,
    }
}

// ---- whether each is what is wanted

fn none_wanted(types: &[VType]) -> bool
    ensures { result ≡ all_met [] types.now }
{
    types.is_empty()
}

/// The operands after the first, where that is what is described.
fn after_met<'a>(program: &Indexed, desc: &[u8], types: &'a [VType]) -> Option<&'a [VType]>
    ensures { option_copied result ≡ after_met program.now desc.now types.now }
{
    let [first, others @ ..] = types else {
        return None;
    };
    if to_described(program, desc, first) {
        return Some(others);
    }
    None
}

/// Whether each type is what the argument in its place is told to be.
fn arguments_met(program: &Indexed, text: &[u8], types: &[VType]) -> bool
    ensures { result ≡ all_met (map (to_described program.now) (types_at 255 text.now)) types.now }
{
    let mut text = text;
    let mut types = types;
    for _ in 0..255usize {
        let Some((desc, following)) = next_type(text) else {
            return none_wanted(types);
        };
        let Some(others) = after_met(program, desc, types) else {
            return false;
        };
        types = others;
        text = following;
    }
    none_wanted(types)
}

fn call_arguments_met(place: &PlaceRef, types: &[VType]) -> bool
    ensures { result ≡ all_met (to_arguments place.now) types.now }
{
    arguments_met(
        place.program,
        arguments_text(desc_referred(&place.insn_ref())),
        types,
    )
}

/// Whether the type is of the class of the code, where the call begins there or above it.
fn to_own(place: &PlaceRef, how: How, t: &VType) -> bool
    ensures { result ≡ to_own place.now how t.now }
{
    match how {
        How::Special => to_class(place.program, place.class.name.as_slice(), t),
        How::Virtual | How::Static | How::Interface => true,
    }
}

/// Whether the type is of the class of the field or method that is referred to.
fn to_referred(place: &PlaceRef, t: &VType) -> bool
    ensures { result ≡ to_class place.now.program (class_referred place.now) t.now }
{
    to_class(place.program, class_referred(&place.insn_ref()), t)
}

fn to_receiver(place: &PlaceRef, how: How, t: &VType) -> bool
    ensures { result ≡ to_receiver place.now how t.now }
{
    calls_maker(&place.insn_ref()) || (to_referred(place, t) && to_own(place, how, t))
}

fn call_met(place: &PlaceRef, how: How, types: &[VType]) -> bool
    ensures { result ≡ all_met (call_takes place.now how) types.now }
{
    if !has_receiver(how) {
        return call_arguments_met(place, types);
    }
    match types {
        [] => false,
        [first, rest @ ..] => to_receiver(place, how, first) && call_arguments_met(place, rest),
    }
}

/// Whether it is one value, as the field that is referred to holds.
fn value_met(place: &PlaceRef, types: &[VType]) -> bool
    ensures { result ≡ all_met (to_described place.now.program (desc_referred place.now) ∷ []) types.now }
{
    let desc = desc_referred(&place.insn_ref());
    one_is(place.program, Wanted::Described(desc), types)
}

/// Whether the type is of an object whose field is written.
fn to_written(place: &PlaceRef, t: &VType) -> bool
    ensures { result ≡ to_written place.now t.now }
{
    is_own_field(place) && is_this(t) || to_referred(place, t)
}

fn write_met(place: &PlaceRef, types: &[VType]) -> bool
    ensures { result ≡ all_met (to_written place.now ∷ to_described place.now.program (desc_referred place.now) ∷ []) types.now }
{
    match types {
        [] => false,
        [first, rest @ ..] => to_written(place, first) && value_met(place, rest),
    }
}

/// Whether the type is what the method gives back.
fn to_result(place: &PlaceRef, t: &VType) -> bool
    ensures { result ≡ to_result place.now t.now }
{
    let text = result_text(place.method.desc.as_slice());
    text != b"V".as_slice() && to_described(place.program, text, t)
}

fn result_met(place: &PlaceRef, types: &[VType]) -> bool
    ensures { result ≡ all_met (to_result place.now ∷ []) types.now }
{
    match types {
        [] => false,
        [first, rest @ ..] => to_result(place, first) && rest.is_empty(),
    }
}

fn throw_met(place: &PlaceRef, types: &[VType]) -> bool
    ensures { result ≡ all_met (heap_takes place.now heap.Throw) types.now }
{
    one_is(place.program, Wanted::Class(b"java/lang/Throwable"), types)
}

/// The shapes that read or write fields, items or constants, or compute.
fn heap_met(place: &PlaceRef, what: Heap, types: &[VType]) -> bool
    ensures { result ≡ all_met (heap_takes place.now what) types.now }
{
    let program = place.program;
    match what {
        Heap::Constant | Heap::ReadStatic | Heap::New | Heap::Return(None) => types.is_empty(),
        Heap::ReadItem(item) => two_are(program, Wanted::Items(item), Wanted::Number, types),
        Heap::WriteItem(item) => three_are(
            program,
            Wanted::Items(item),
            Wanted::Number,
            Wanted::Item(item),
            types,
        ),
        Heap::Divide { .. } => two_are(program, Wanted::Number, Wanted::Number, types),
        Heap::WriteStatic => value_met(place, types),
        Heap::ReadField => one_is(
            program,
            Wanted::Class(class_referred(&place.insn_ref())),
            types,
        ),
        Heap::WriteField => write_met(place, types),
        Heap::Call(how) => call_met(place, how, types),
        Heap::NewArray(_) | Heap::NewArrayOf => one_is(program, Wanted::Number, types),
        Heap::Length => one_is(program, Wanted::Array, types),
        Heap::Throw => throw_met(place, types),
        Heap::Cast | Heap::IsInstance => one_is(program, Wanted::Made, types),
        Heap::Enter | Heap::Exit => one_is(program, Wanted::Made, types),
        Heap::Return(Some(_)) => result_met(place, types),
    }
}

fn any_met(count: u8, types: &[VType]) -> bool
    ensures { result ≡ all_met (replicate count anything) types.now }
{
    types.len() == usize::from(count)
}

fn operands_met(place: &PlaceRef, shape: Shape, types: &[VType]) -> bool
    ensures { result ≡ all_met (takes_of place.now shape) types.now }
{
    let program = place.program;
    match shape {
        Shape::Store { kind, .. } => one_is(program, Wanted::Kind(kind), types),
        Shape::Move(form) => any_met(depth_of(form), types),
        Shape::Two(_) | Shape::Compare { .. } => two_are(
            program,
            Wanted::Number,
            Wanted::Number,
            types,
        ),
        Shape::One(_) | Shape::Test { .. } | Shape::Switch => one_is(
            program,
            Wanted::Number,
            types,
        ),
        Shape::CompareReferences { .. } => two_are(program, Wanted::Made, Wanted::Made, types),
        Shape::TestNull { .. } => one_is(program, Wanted::Made, types),
        Shape::Heap(what) => heap_met(place, what, types),
        _ => types.is_empty(),
    }
}

fn is_result_of(kind: Option<ValueKind>, result_type: Option<TypeRef>) -> bool
    ensures { result ≡ is_result_of kind (option_map type_borrowed result_type.entry) }
{
    let Some(kind) = kind else {
        return result_type.is_none();
    };
    let Some(t) = result_type else {
        return false;
    };
    match kind {
        ValueKind::Int => matches!(t, TypeRef::Int),
        ValueKind::Reference => {
            matches!(
                t,
                TypeRef::Ref(_) | TypeRef::Shared(_) | TypeRef::ArrayOf(_)
            )
        }
    }
}

fn returns_well(place: &PlaceRef, shape: Shape) -> bool
    ensures { result ≡ returns_well place.now shape }
{
    match shape {
        Shape::Heap(Heap::Return(kind)) => {
            is_result_of(kind, result_type(place.method.desc.as_slice()))
        }
        _ => true,
    }
}

/// Rule 3: each operand is what is wanted.
pub fn are_operands(place: &PlaceRef, taken: &[VType]) -> bool
    ensures { result ≡ (all_met (takes place.now) taken.now && returns_well place.now (shape_of place.now.insn)) }
{
    let shape = place.shape();
    operands_met(place, shape, taken) && returns_well(place, shape)
}
