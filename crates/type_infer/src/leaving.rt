//! The locals that an instruction leaves to the next, and those that a handler finds. Where each is left as it is, all are
//! shared.

ghost use Rattle.std.specs.Prelude.{◌≡◌, ◌≤◌, ℕ, length, IfOk, IsTrue};
ghost use Rattle.std.specs.List.{list_any};
ghost use Rattle.bytecode_model.specs.InsnPlace.{calls_maker};
ghost use Rattle.bytecode_model.specs.Makes.{local_after, topmost, type_at};
ghost use Rattle.bytecode_model.specs.Rules.{Local, local_caught, taken};
ghost use Rattle.type_infer.specs.Unmade.{is_unmade};

use crate::told::{Locals, Told};
use crate::types::is_same_type;
use cert_format::{FrameType, VType};
use code_typing::{PlaceRef, locals_after};
use frame_types::{InsnRef, calls_maker, has_new, locals_thrown, split_top};
use insn_codec::{Heap, Shape, shape_of};
use mon_base::NoMemory;
use std::alloc::Global;

fn is_unmade(t: &VType) -> bool
    ensures { result ≡ is_unmade t.now }
{
    matches!(t, VType::UninitThis | VType::Uninit(_))
}

/// Whether an object that is not made yet is among these.
fn has_unmade(types: &[VType]) -> bool
    ensures { result ≡ list_any is_unmade types.now }
{
    let mut left = types;
    while let [first, rest @ ..] = left {
        if is_unmade(first) {
            return true;
        }
        left = rest;
    }
    false
}

/// Whether the instruction calls the method that makes an object.
fn makes_object(place: &PlaceRef) -> bool
    ensures { result ≡ calls_maker place.now }
{
    calls_maker(&InsnRef {
        program: place.program.program(),
        own: place.own,
        class: place.class,
        method: place.method,
        at: place.at,
        insn: place.insn,
        target: place.target,
    })
}

/// Whether the topmost operand is of the type that the local has.
fn is_stored(frame: &FrameType, slot: usize) -> bool
    ensures { IsTrue result → type_at (topmost 1 frame.now.stack) 0 ≡ type_at frame.now.locals slot }
{
    let (_, taken) = split_top(frame.stack.as_slice(), 1);
    let [first, ..] = taken else {
        return false;
    };
    match frame.locals.as_slice().get(slot) {
        Some(local) => is_same_type(first, local),
        None => false,
    }
}

/// Whether each local is left as it is.
fn keeps_locals(place: &PlaceRef, frame: &FrameType) -> bool
    ensures { IsTrue result → (j : ℕ)
        → local_after place.now frame.now.locals (taken place.now frame.now) j ≡ type_at frame.now.locals j }
{
    match shape_of(place.insn) {
        Shape::Store { slot, .. } => is_stored(frame, usize::from(slot)),
        Shape::Heap(Heap::New) => !has_new(place.at, frame.locals.as_slice()),
        Shape::Heap(Heap::Call(_)) => {
            !makes_object(place) || !has_unmade(frame.locals.as_slice())
        }
        _ => true,
    }
}

/// The locals after the instruction.
pub fn locals_left(alloc: Global, place: &PlaceRef, told: &Told) -> Result<Locals, NoMemory>
    ensures are { IfOk result (λ locals. (j : ℕ) → type_at locals j
        ≡ local_after place.now told.now.locals (taken place.now told.now) j) }
    // They are as many as the method has, where rule 4 is met.
    ensures within { IfOk result (λ locals. IsTrue (Local place.now told.now) → length locals ≤ place.now.method.max_locals) }
{
    let frame = told.frame();
    if keeps_locals(place, frame) {
        return told.locals();
    }
    let locals = locals_after(alloc, place, frame)?;
    Locals::new(alloc, locals)
}

/// The locals that a handler finds.
pub fn locals_caught(alloc: Global, told: &Told) -> Result<Locals, NoMemory>
    ensures are { IfOk result (λ locals. (j : ℕ) → type_at locals j ≡ local_caught told.now.locals j) }
    ensures within { IfOk result (λ locals. length locals ≤ length told.now.locals) }
{
    let types = told.frame().locals.as_slice();
    if !has_unmade(types) {
        return told.locals();
    }
    let locals = locals_thrown(alloc, types)?;
    Locals::new(alloc, locals)
}
