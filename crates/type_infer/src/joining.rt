//! Frames that come to one instruction.

ghost use Rattle.std.specs.Prelude.{◌≡◌, ◌≤◌, ℕ, true, Some, length, map, min, option_copied, IfOk, IfSome, IsSome, IsTrue};
ghost use Rattle.cert_format.specs.declared.typing.VType.TheVariants.{UninitThis};
ghost use Rattle.insn_codec.specs.Shapes.{shape_of};
ghost use Rattle.bytecode_model.specs.Assigning.{assignable};
ghost use Rattle.bytecode_model.specs.Order.{IsInOrder};
ghost use Rattle.type_lattice.specs.Merging.{merged};
ghost use Rattle.bytecode_model.specs.Makes.{type_at};
ghost use Rattle.code_typing.specs.Order.{IsFrameBelow, LocalsBelow};
ghost use Rattle.type_infer.specs.Solving.{IsKept, IsOfHeight, IsRaisedBy, IsUnlessBelow, local_settled, operand_settled, unless};

use crate::told::{Locals, Told};
use crate::types::{is_same_type, type_joined};
use cert_format::{FrameType, VType};
use code_typing::{PlaceRef, rows_follow_the_order};
use frame_types::{has_this, is_maker, is_same_object};
use insn_codec::{Heap, Shape, shape_of};
use mon_base::{List, NoMemory};
use std::alloc::Global;
use type_lattice::{Indexed, assignable, assignable_is_an_order, merge_is_the_least};

/// The least types above both, in each place that both lists have.
fn types_joined(
    alloc: Global,
    program: &Indexed,
    a: &[VType],
    b: &[VType],
) -> Result<List<VType>, NoMemory>
    ensures merged { IfOk result (λ joined. (j : ℕ) → type_at joined j ≡ merged program.now (type_at a.now j) (type_at b.now j)) }
    ensures count { IfOk result (λ joined. length joined ≡ min (length a.now) (length b.now)) }
{
    let mut joined = List::new(alloc);
    for i in 0..a.len().min(b.len()) {
        let one = type_joined(alloc, program, &a[i], &b[i])?;
        joined.push(one)?;
    }
    Ok(joined)
}

/// Whether these are the least types above both, in each place.
fn are_joined(
    alloc: Global,
    program: &Indexed,
    a: &[VType],
    b: &[VType],
    joined: &[VType],
) -> Result<bool, NoMemory>
    ensures { IfOk result (λ are. IsTrue are → (j : ℕ) → type_at joined.now j ≡ merged program.now (type_at a.now j) (type_at b.now j)) }
{
    if joined.len() != a.len().min(b.len()) {
        return Ok(false);
    }
    for i in 0..joined.len() {
        let one = type_joined(alloc, program, &a[i], &b[i])?;
        if !is_same_type(&one, &joined[i]) {
            return Ok(false);
        }
    }
    Ok(true)
}

/// The least locals above both. Where those that come are such, or those that stand there, they are shared.
fn locals_joined(
    alloc: Global,
    program: &Indexed,
    old: &Told,
    locals: Locals,
) -> Result<Locals, NoMemory>
    ensures merged { IfOk result (λ joined. (j : ℕ) → type_at joined j ≡ merged program.now (type_at old.now.locals j) (type_at locals j)) }
    ensures few { IfOk result (λ joined. length joined ≤ length locals) }
{
    let standing = old.locals()?;
    let a = standing.as_slice();
    let b = locals.as_slice();
    if are_joined(alloc, program, a, b, b)? {
        return Ok(locals);
    }
    if are_joined(alloc, program, a, b, a)? {
        return Ok(standing);
    }
    let joined = types_joined(alloc, program, a, b)?;
    Locals::new(alloc, joined)
}

/// The type, which is Top if it is of an object that is not made yet.
fn unless(object: &VType, t: &VType) -> Result<VType, NoMemory>
    ensures { IfOk result (λ left. left ≡ unless object.now t.now) }
{
    if is_same_object(object, t) {
        Ok(VType::Top)
    } else {
        t.share()
    }
}

/// The types, where those of an object that is not made yet are Top.
fn without(alloc: Global, object: &VType, types: &[VType]) -> Result<List<VType>, NoMemory>
    ensures { IfOk result (λ left. left ≡ map (unless object.now) types.now) }
{
    let mut left = List::new(alloc);
    for t in types {
        let one = unless(object, t)?;
        left.push(one)?;
    }
    Ok(left)
}

/// The frame with these locals and operands before the instruction: where a rule lets an object that is not made yet
/// pass as Top alone, it is Top.
fn settled(
    alloc: Global,
    place: &PlaceRef,
    locals: Locals,
    stack: List<VType>,
) -> Result<Option<Told>, NoMemory>
    ensures some { length locals ≤ place.now.method.max_locals → length stack ≤ place.now.method.max_stack → IfOk result IsSome }
    ensures within { IfOk result (λ made. IfSome made (λ told. length told.locals ≤ place.now.method.max_locals)) }
    ensures locals { IfOk result (λ made. IfSome made (λ told. (j : ℕ)
        → type_at told.locals j ≡ local_settled place.now (shape_of place.now.insn) (type_at locals j))) }
    ensures height { IfOk result (λ made. IfSome made (λ told. length told.stack ≡ length stack)) }
    ensures stack { IfOk result (λ made. IfSome made (λ told. (j : ℕ)
        → type_at told.stack j ≡ operand_settled place.now (shape_of place.now.insn) (type_at stack j))) }
{
    let shape = shape_of(place.insn);
    let locals = locals_settled(alloc, place, shape, locals)?;
    let stack = operands_settled(alloc, place, shape, stack)?;
    Ok(Told::new(place.method, locals, stack))
}

/// The locals of such a frame, before an instruction of this shape.
fn locals_settled(
    alloc: Global,
    place: &PlaceRef,
    shape: Shape,
    locals: Locals,
) -> Result<Locals, NoMemory>
    ensures few { IfOk result (λ settled. length settled ≤ length locals) }
    ensures types { IfOk result (λ settled. (j : ℕ) → type_at settled j ≡ local_settled place.now shape (type_at locals j)) }
{
    match shape {
        Shape::Heap(Heap::Return(None)) => {
            if is_maker(place.method) {
                locals_made(alloc, locals)
            } else {
                Ok(locals)
            }
        }
        _ => Ok(locals),
    }
}

/// The locals, where those of the object that a constructor makes are Top.
fn locals_made(alloc: Global, locals: Locals) -> Result<Locals, NoMemory>
    ensures few { IfOk result (λ made. length made ≤ length locals) }
    ensures types { IfOk result (λ made. (j : ℕ) → type_at made j ≡ unless UninitThis (type_at locals j)) }
{
    if !has_this(locals.as_slice()) {
        return Ok(locals);
    }
    let types = without(alloc, &VType::UninitThis, locals.as_slice())?;
    Locals::new(alloc, types)
}

/// The operands of such a frame.
fn operands_settled(
    alloc: Global,
    place: &PlaceRef,
    shape: Shape,
    stack: List<VType>,
) -> Result<List<VType>, NoMemory>
    ensures count { IfOk result (λ settled. length settled ≡ length stack) }
    ensures types { IfOk result (λ settled. (j : ℕ) → type_at settled j ≡ operand_settled place.now shape (type_at stack j)) }
{
    match shape {
        Shape::Heap(Heap::New) => without(alloc, &VType::Uninit(place.at), stack.as_slice()),
        Shape::Heap(Heap::Return(None)) => {
            if is_maker(place.method) {
                without(alloc, &VType::UninitThis, stack.as_slice())
            } else {
                Ok(stack)
            }
        }
        _ => Ok(stack),
    }
}

/// Whether the type in this place, Top where it is absent, is assignable to the other.
fn type_below(program: &Indexed, from: &[VType], j: usize, to: &VType) -> bool
    ensures { IsTrue result → assignable program.now (type_at from.now j) to.now ≡ true }
{
    match from.get(j) {
        None => matches!(to, VType::Top),
        Some(t) => assignable(program, t, to),
    }
}

/// Whether each type is assignable to the one in its place; one that is absent is Top.
fn types_below(program: &Indexed, from: &[VType], to: &[VType]) -> bool
    ensures { IsTrue result → LocalsBelow program.now (type_at from.now) (type_at to.now) }
{
    for j in 0..to.len() {
        if !type_below(program, from, j, &to[j]) {
            return false;
        }
    }
    true
}

/// Whether the one frame may stand in the place of the other.
fn is_below(program: &Indexed, from: &FrameType, to: &FrameType) -> bool
    ensures { IsTrue result → IsFrameBelow program.now from.now to.now }
{
    if from.stack.len() != to.stack.len() {
        return false;
    }
    if !types_below(program, from.stack.as_slice(), to.stack.as_slice()) {
        return false;
    }
    types_below(program, from.locals.as_slice(), to.locals.as_slice())
}

/// The frame, unless it may stand in the place of the one that stands there.
fn unless_below(program: &Indexed, old: &FrameType, told: Option<Told>) -> Option<Told>
    ensures { IsUnlessBelow program.now old.now told result }
{
    match told {
        None => None,
        Some(told) => if is_below(program, told.frame(), old) {
            None
        } else {
            Some(told)
        },
    }
}

/// The frame that is to stand before the instruction, where these locals and operands come to it and another stands
/// there already. There is none where that one stays, and where the operands are not as many as those of that one.
fn merged(
    alloc: Global,
    place: &PlaceRef,
    old: &Told,
    locals: Locals,
    stack: &[VType],
) -> Result<Option<Told>, NoMemory>
    ensures kept { IfOk result (λ told. IsInOrder place.now.program → IsKept place.now.program (Some old.now) told) }
    ensures raised { IfOk result (λ told. IsInOrder place.now.program
        → length locals ≤ place.now.method.max_locals → length stack.now ≤ place.now.method.max_stack
        → IsOfHeight (Some old.now) (length stack.now)
        → IsRaisedBy place.now (Some old.now) (record { locals = type_at locals; operands = stack.now }) told) }
{
    assignable_is_an_order();
    merge_is_the_least();
    rows_follow_the_order();
    let standing = old.frame();
    if standing.stack.len() != stack.len() {
        return Ok(None);
    }
    let program = place.program;
    let locals = locals_joined(alloc, program, old, locals)?;
    let stack = types_joined(alloc, program, standing.stack.as_slice(), stack)?;
    let told = settled(alloc, place, locals, stack)?;
    Ok(unless_below(program, standing, told))
}

/// The frame that is to stand before the instruction, where these locals and operands come to it. There is none where
/// the frame that stands there stays, and where the operands are not as many as those of that frame.
pub fn joined(
    alloc: Global,
    place: &PlaceRef,
    old: Option<&Told>,
    locals: Locals,
    stack: List<VType>,
) -> Result<Option<Told>, NoMemory>
    ensures kept { IfOk result (λ told. IsInOrder place.now.program → IsKept place.now.program (option_copied old.entry) told) }
    ensures raised { IfOk result (λ told. IsInOrder place.now.program
        → length locals ≤ place.now.method.max_locals → length stack ≤ place.now.method.max_stack
        → IsOfHeight (option_copied old.entry) (length stack)
        → IsRaisedBy place.now (option_copied old.entry) (record { locals = type_at locals; operands = stack }) told) }
{
    assignable_is_an_order();
    rows_follow_the_order();
    match old {
        None => {
            let told = settled(alloc, place, locals, stack)?;
            Ok(told)
        }
        Some(old) => merged(alloc, place, old, locals, stack.as_slice()),
    }
}
