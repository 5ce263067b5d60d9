//! The frame after an instruction that is reached, and the one that a method begins with.

ghost use Rattle.std.specs.Prelude.{◌≡◌, ◌++◌, ◌≤◌, ℕ, length, option_map, IfOk, IsTrue, OnOk};
ghost use Rattle.std.specs.Option.{option_to_list};
ghost use Rattle.bytecode_model.specs.Borrowing.{type_borrowed};
ghost use Rattle.bytecode_model.specs.Described.{type_described};
ghost use Rattle.bytecode_model.specs.Makes.{form_yields, heap_yields, yields, stack_after, local_after, type_at};
ghost use Rattle.bytecode_model.specs.Rules.{arguments_typed, entry_locals, taken, Local};
ghost use Rattle.bytecode_model.specs.Wants.{takes};

use crate::change::{change_of, change_told};
use crate::entry::this_type;
use crate::locals::local_told;
use crate::operands::count_taken;
use crate::place::PlaceRef;
use bytecode_model::{Method, TypeRef, is_static, own};
use cert_format::{FrameType, VType};
use frame_types::{
    arguments_text, array_named, class_of, constant_type, count_after, desc_referred, moved_from,
    next_type, put_back, read_type, result_type, split_top, type_at, type_described,
};
use insn_codec::{Heap, Shape, StackForm, depth_of};
use mon_base::{List, NoMemory};
use std::alloc::Global;

// ---- what is pushed

/// What an instruction pushes that works on more than its frame.
fn heap_yielded<'a>(place: &PlaceRef<'a>, taken: &'a [VType], what: Heap) -> Option<TypeRef<'a>>
    ensures { option_to_list (option_map type_borrowed result) ≡ heap_yields place.now taken.now what }
{
    match what {
        Heap::Constant => Some(constant_type(place.target)),
        Heap::ReadItem(item) => Some(read_type(item, taken)),
        Heap::ReadStatic | Heap::ReadField => Some(type_described(desc_referred(
            &place.insn_ref(),
        ))),
        Heap::Call(_) => result_type(desc_referred(&place.insn_ref())),
        Heap::New => Some(TypeRef::Uninit(place.at)),
        Heap::NewArray(kind) => Some(TypeRef::Ref(array_named(kind))),
        Heap::NewArrayOf => Some(TypeRef::ArrayOf(class_of(place.target))),
        Heap::Cast => Some(TypeRef::Ref(class_of(place.target))),
        Heap::Divide { .. } | Heap::Length | Heap::IsInstance => Some(TypeRef::Int),
        _ => None,
    }
}

/// Appends what a stack form puts back.
fn push_moved(
    alloc: Global,
    out: &mut List<VType>,
    form: StackForm,
    taken: &[VType],
) -> Result<(), NoMemory>
    ensures { OnOk result (out.new ≡ out.old ++ form_yields form taken.now) }
{
    let depth = depth_of(form);
    let order = put_back(form);
    for place in order {
        let moved = own(alloc, moved_from(depth, taken, *place))?;
        out.push(moved)?;
    }
    Ok(())
}

/// Appends the type, if there is one.
fn push_one(alloc: Global, out: &mut List<VType>, borrowed: Option<TypeRef>) -> Result<(), NoMemory>
    ensures { OnOk result (out.new ≡ out.old ++ option_to_list (option_map type_borrowed borrowed.entry)) }
{
    let Some(t) = borrowed else {
        return Ok(());
    };
    let one = own(alloc, t)?;
    out.push(one)
}

/// Appends what the instruction pushes.
fn push_yields(
    alloc: Global,
    out: &mut List<VType>,
    place: &PlaceRef,
    locals: &[VType],
    taken: &[VType],
) -> Result<(), NoMemory>
    ensures { OnOk result (out.new ≡ out.old ++ yields place.now locals.now taken.now) }
{
    match place.shape() {
        Shape::Push(_) | Shape::Two(_) | Shape::One(_) => out.push(VType::Int),
        Shape::PushNull => out.push(VType::Null),
        Shape::Load { slot, .. } => {
            let local = own(alloc, type_at(locals, usize::from(slot)))?;
            out.push(local)
        }
        Shape::Move(form) => push_moved(alloc, out, form, taken),
        Shape::Heap(what) => push_one(alloc, out, heap_yielded(place, taken, what)),
        _ => Ok(()),
    }
}

// ---- the frame afterwards

/// The operands after an instruction that is reached with the frame.
pub fn stack_after(
    alloc: Global,
    place: &PlaceRef,
    frame: &FrameType,
) -> Result<List<VType>, NoMemory>
    ensures { IfOk result (λ stack. stack ≡ stack_after place.now frame.now.locals (length (takes place.now)) frame.now.stack) }
{
    let (below, taken) = split_top(frame.stack.as_slice(), count_taken(place));
    let change = change_of(place, taken);
    let mut stack = List::new(alloc);
    for t in below {
        let told = own(alloc, change_told(change, t))?;
        stack.push(told)?;
    }
    push_yields(alloc, &mut stack, place, frame.locals.as_slice(), taken)?;
    Ok(stack)
}

/// The locals after it; one that is absent is Top.
pub fn locals_after(
    alloc: Global,
    place: &PlaceRef,
    frame: &FrameType,
) -> Result<List<VType>, NoMemory>
    ensures are { IfOk result (λ locals. (j : ℕ) → type_at locals j
        ≡ local_after place.now frame.now.locals (taken place.now frame.now) j) }
    // They are as many as the method has, where rule 4 is met.
    ensures within { IfOk result (λ locals. IsTrue (Local place.now frame.now) → length locals ≤ place.now.method.max_locals) }
{
    let (_, taken) = split_top(frame.stack.as_slice(), count_taken(place));
    let change = change_of(place, taken);
    let shape = place.shape();
    let found = frame.locals.as_slice();
    let mut locals = List::new(alloc);
    for j in 0..count_after(shape, found.len()) {
        let local = own(alloc, local_told(shape, change, found, taken, j))?;
        locals.push(local)?;
    }
    Ok(locals)
}

// ---- the frame that a method begins with

/// Appends the types of a method's arguments.
fn push_arguments(alloc: Global, out: &mut List<VType>, method: &Method) -> Result<(), NoMemory>
    ensures { OnOk result (out.new ≡ out.old ++ arguments_typed method.now) }
{
    let mut text = arguments_text(method.desc.as_slice());
    for _ in 0..255usize {
        let Some((desc, following)) = next_type(text) else {
            return Ok(());
        };
        let argument = own(alloc, type_described(desc))?;
        out.push(argument)?;
        text = following;
    }
    Ok(())
}

/// The locals with which a method begins.
pub fn entry_locals(alloc: Global, place: &PlaceRef) -> Result<List<VType>, NoMemory>
    ensures { IfOk result (λ locals. locals ≡ entry_locals place.now) }
{
    let mut locals = List::new(alloc);
    if !is_static(place.method.flags) {
        let this = own(alloc, this_type(place))?;
        locals.push(this)?;
    }
    push_arguments(alloc, &mut locals, place.method)?;
    Ok(locals)
}
