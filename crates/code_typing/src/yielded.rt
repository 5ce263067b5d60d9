//! What an instruction pushes. (The Java Virtual Machine Specification, section 6.5.)

ghost use Rattle.std.specs.Prelude.{◌≡◌, ◌≤◌, ◌∷◌, [], List, length, map};
ghost use Rattle.bytecode_model.specs.Borrowing.{type_borrowed};
ghost use Rattle.bytecode_model.specs.Makes.{moved_from, call_yields, heap_yields, yields, yields_of};
ghost use Rattle.bytecode_model.specs.Rules.{stack_fits};
ghost use Rattle.cert_format.specs.declared.typing.VType.{VType};
ghost use Rattle.bytecode_model.specs.Described.{result_type};
ghost use Rattle.bytecode_model.specs.InsnPlace.{desc_referred};

use crate::place::PlaceRef;
use bytecode_model::TypeRef;
use cert_format::VType;
use frame_types::{
    array_named, class_of, constant_type, desc_referred, moved_from, put_back, read_type,
    result_type, type_at, type_described,
};
use insn_codec::{Heap, Shape, depth_of};
use type_lattice::{Indexed, borrowed_fits};

// ---- whether the pushed are assignable

fn one_fits(program: &Indexed, from: TypeRef, to: &[VType]) -> bool
    ensures { result ≡ stack_fits program.now (type_borrowed from.entry ∷ []) to.now }
{
    match to {
        [] => false,
        [first, rest @ ..] => borrowed_fits(program, from, first) && rest.is_empty(),
    }
}

fn form_fits(program: &Indexed, depth: u8, taken: &[VType], order: &[u8], to: &[VType]) -> bool
    ensures { result ≡ stack_fits program.now (map (moved_from depth taken.now) order.now) to.now }
{
    let mut order = order;
    let mut to = to;
    while let [place, places @ ..] = order {
        let [first, others @ ..] = to else {
            return false;
        };
        if !borrowed_fits(program, moved_from(depth, taken, *place), first) {
            return false;
        }
        order = places;
        to = others;
    }
    to.is_empty()
}

fn call_fits(program: &Indexed, desc: &[u8], to: &[VType]) -> bool
    ensures { result ≡ stack_fits program.now (call_yields (result_type desc.now)) to.now }
{
    let Some(t) = result_type(desc) else {
        return to.is_empty();
    };
    one_fits(program, t, to)
}

fn heap_fits(place: &PlaceRef, taken: &[VType], what: Heap, to: &[VType]) -> bool
    ensures { result ≡ stack_fits place.now.program (heap_yields place.now taken.now what) to.now }
{
    let program = place.program;
    match what {
        Heap::Constant => one_fits(program, constant_type(place.target), to),
        Heap::ReadItem(item) => one_fits(program, read_type(item, taken), to),
        Heap::ReadStatic | Heap::ReadField => {
            one_fits(
                program,
                type_described(desc_referred(&place.insn_ref())),
                to,
            )
        }
        Heap::Call(_) => call_fits(program, desc_referred(&place.insn_ref()), to),
        Heap::New => one_fits(program, TypeRef::Uninit(place.at), to),
        Heap::NewArray(kind) => one_fits(program, TypeRef::Ref(array_named(kind)), to),
        Heap::NewArrayOf => one_fits(program, TypeRef::ArrayOf(class_of(place.target)), to),
        Heap::Cast => one_fits(program, TypeRef::Ref(class_of(place.target)), to),
        Heap::Divide { .. } | Heap::Length | Heap::IsInstance => {
            one_fits(program, TypeRef::Int, to)
        }
        _ => to.is_empty(),
    }
}

fn shape_fits(
    place: &PlaceRef,
    locals: &[VType],
    taken: &[VType],
    shape: Shape,
    to: &[VType],
) -> bool
    ensures { result ≡ stack_fits place.now.program (yields_of place.now locals.now taken.now shape) to.now }
{
    let program = place.program;
    match shape {
        Shape::Push(_) | Shape::Two(_) | Shape::One(_) => one_fits(program, TypeRef::Int, to),
        Shape::PushNull => one_fits(program, TypeRef::Null, to),
        Shape::Load { slot, .. } => one_fits(program, type_at(locals, usize::from(slot)), to),
        Shape::Move(form) => form_fits(program, depth_of(form), taken, put_back(form), to),
        Shape::Heap(what) => heap_fits(place, taken, what, to),
        _ => to.is_empty(),
    }
}

/// Whether what the instruction pushes is assignable to these operands.
pub fn yields_fit(place: &PlaceRef, locals: &[VType], taken: &[VType], to: &[VType]) -> bool
    ensures { result ≡ stack_fits place.now.program (yields place.now locals.now taken.now) to.now }
{
    shape_fits(place, locals, taken, place.shape(), to)
}

// ---- how many are pushed

fn call_count(place: &PlaceRef) -> usize
    ensures few { result ≤ 1 }
    ensures value { result ≡ length (call_yields (result_type (desc_referred place.now))) }
{
    let pushed = result_type(desc_referred(&place.insn_ref()));
    if pushed.is_none() {
        return 0;
    }
    1
}

fn heap_count(place: &PlaceRef, what: Heap) -> usize
    ensures few { result ≤ 1 }
    ensures value { (taken : List VType) → result ≡ length (heap_yields place.now taken what) }
{
    match what {
        Heap::Call(_) => call_count(place),
        Heap::WriteItem(_) | Heap::WriteStatic | Heap::WriteField | Heap::Throw => 0,
        Heap::Enter | Heap::Exit | Heap::Return(_) => 0,
        _ => 1,
    }
}

/// How many operands the instruction pushes.
pub fn count_yielded(place: &PlaceRef) -> usize
    ensures few { result ≤ 6 }
    ensures value { (locals taken : List VType) → result ≡ length (yields place.now locals taken) }
{
    match place.shape() {
        Shape::Push(_) | Shape::Two(_) | Shape::One(_) | Shape::PushNull => 1,
        Shape::Load { .. } => 1,
        Shape::Move(form) => put_back(form).len(),
        Shape::Heap(what) => heap_count(place, what),
        _ => 0,
    }
}
