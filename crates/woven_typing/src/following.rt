//! The types after a call.

ghost use Rattle.std.specs.Prelude.{◌≡◌, ◌++◌, IfOk, OnOk};
ghost use Rattle.woven_typing.specs.Following.{
  count_called,
  count_taken,
  frame_after,
  given,
  stack_following,
  types_after,
};

use bytecode_model::own;
use cert_format::{FrameType, VType};
use code_typing::{change_told, when_called};
use frame_types::{InsnRef, arity, desc_referred, has_receiver, result_type, split_top};
use insn_codec::{Heap, How, Shape, shape_of};
use mon_base::{List, NoMemory, SharedList};
use std::alloc::Global;

// ---- what it takes

fn count_called(place: &InsnRef, how: How) -> usize
    ensures { result ≡ count_called place.now how }
{
    let arguments = arity(desc_referred(place));
    if has_receiver(how) {
        arguments + 1
    } else {
        arguments
    }
}

/// How many operands the call takes.
fn count_taken(place: &InsnRef) -> usize
    ensures { result ≡ count_taken place.now }
{
    match shape_of(place.insn) {
        Shape::Heap(Heap::Call(how)) => count_called(place, how),
        _ => 0,
    }
}

// ---- what it leaves

/// Appends what becomes of these types.
fn put_after(
    alloc: Global,
    out: &mut List<VType>,
    place: &InsnRef,
    taken: &[VType],
    stay: &[VType],
) -> Result<(), NoMemory>
    ensures { OnOk result (out.new ≡ out.old ++ types_after place.now taken.now stay.now) }
{
    let change = when_called(place, taken);
    for t in stay {
        let one = own(alloc, change_told(change, t))?;
        out.push(one)?;
    }
    Ok(())
}

/// Appends what the call gives.
fn put_given(alloc: Global, out: &mut List<VType>, place: &InsnRef) -> Result<(), NoMemory>
    ensures { OnOk result (out.new ≡ out.old ++ given place.now) }
{
    match result_type(desc_referred(place)) {
        None => Ok(()),
        Some(t) => out.push(own(alloc, t)?),
    }
}

// ---- the frame

fn stack_following(alloc: Global, place: &InsnRef, stack: &[VType]) -> Result<List<VType>, NoMemory>
    ensures { IfOk result (λ made. made ≡ stack_following place.now stack.now) }
{
    let (below, taken) = split_top(stack, count_taken(place));
    let mut made = List::with_room(alloc, below.len().saturating_add(1))?;
    put_after(alloc, &mut made, place, taken, below)?;
    put_given(alloc, &mut made, place)?;
    Ok(made)
}

fn locals_after(alloc: Global, place: &InsnRef, frame: &FrameType) -> Result<List<VType>, NoMemory>
    ensures { IfOk result (λ made. made ≡ (frame_after place.now frame.now).locals) }
{
    let (_, taken) = split_top(frame.stack.as_slice(), count_taken(place));
    let mut made = List::with_room(alloc, frame.locals.len())?;
    put_after(alloc, &mut made, place, taken, frame.locals.as_slice())?;
    Ok(made)
}

/// The types after the call, where these are before it.
pub fn frame_after(alloc: Global, place: &InsnRef, frame: &FrameType) -> Result<FrameType, NoMemory>
    ensures { IfOk result (λ made. made ≡ frame_after place.now frame.now) }
{
    let following = locals_after(alloc, place, frame)?;
    let locals = SharedList::new(alloc, following)?;
    let stack = stack_following(alloc, place, frame.stack.as_slice())?;
    Ok(FrameType { locals, stack })
}
