//! What flows from an instruction to those to which control can go from it.

ghost use Rattle.std.specs.Prelude.{◌≡◌, ◌∷◌, [], option_copied, IfOk, OnOk};
ghost use Rattle.insn_codec.specs.Control.{jump_targets};
ghost use Rattle.bytecode_model.specs.Rules.{Frames};
ghost use Rattle.type_infer.specs.Sending.{
  HasEach,
  KeepsOld,
  RaisesLeft,
  RaisesThrown,
  SendsTo,
  StandsIn,
  ThrowsTo,
  ThrowsToAll,
};
ghost use Rattle.type_infer.specs.Solving.{AreFound, Grows, IsDone, IsReady, RowIsMet, StaysFound, next_of};

use crate::body::Body;
use crate::joining::joined;
use crate::laws::laws_hold;
use crate::leaving::{locals_caught, locals_left};
use crate::told::Told;
use crate::worklist::Worklist;
use bytecode_model::Handler;
use code_typing::{
    PlaceRef, catches_well, goes_well, is_alone_met, rows_follow_the_order, stack_after,
};
use frame_types::stack_thrown;
use insn_codec::{Insn, goes_on};
use mon_base::NoMemory;
use std::alloc::Global;
use type_lattice::assignable_is_an_order;

/// The frame that is to stand where control goes to, if another does.
fn left(
    alloc: Global,
    place: &PlaceRef,
    told: &Told,
    to: &PlaceRef,
    old: Option<&Told>,
) -> Result<Option<Told>, NoMemory>
    requires program { to.now.program ≡ place.now.program }
    requires method { to.now.method ≡ place.now.method }
    ensures kept { IfOk result (KeepsOld place.now (option_copied old.entry)) }
    ensures raised { IfOk result (RaisesLeft place.now told.now to.now (option_copied old.entry)) }
{
    let locals = locals_left(alloc, place, told)?;
    let stack = stack_after(alloc, place, told.frame())?;
    joined(alloc, to, old, locals, stack)
}

/// The frame that is to stand where control goes to, if that which stands there does not take what is left.
fn sent(
    alloc: Global,
    place: &PlaceRef,
    told: &Told,
    to: &PlaceRef,
    old: Option<&Told>,
) -> Result<Option<Told>, NoMemory>
    requires program { to.now.program ≡ place.now.program }
    requires method { to.now.method ≡ place.now.method }
    ensures kept { IfOk result (KeepsOld place.now (option_copied old.entry)) }
    ensures raised { IfOk result (RaisesLeft place.now told.now to.now (option_copied old.entry)) }
{
    assignable_is_an_order();
    rows_follow_the_order();
    match old {
        None => left(alloc, place, told, to, None),
        Some(standing) => {
            if goes_well(place, told.frame(), standing.frame()) {
                Ok(None)
            } else {
                left(alloc, place, told, to, old)
            }
        }
    }
}

/// The frame that is to stand at the handler, if another does.
fn caught(
    alloc: Global,
    place: &PlaceRef,
    told: &Told,
    handler: &Handler,
    to: &PlaceRef,
    old: Option<&Told>,
) -> Result<Option<Told>, NoMemory>
    requires program { to.now.program ≡ place.now.program }
    requires method { to.now.method ≡ place.now.method }
    ensures kept { IfOk result (KeepsOld place.now (option_copied old.entry)) }
    ensures raised { IfOk result (RaisesThrown handler.now place.now told.now to.now (option_copied old.entry)) }
{
    let locals = locals_caught(alloc, told)?;
    let stack = stack_thrown(alloc, handler)?;
    joined(alloc, to, old, locals, stack)
}

/// The frame that is to stand at the handler, if that which stands there does not take what is thrown.
fn thrown(
    alloc: Global,
    place: &PlaceRef,
    told: &Told,
    handler: &Handler,
    to: &PlaceRef,
    old: Option<&Told>,
) -> Result<Option<Told>, NoMemory>
    requires program { to.now.program ≡ place.now.program }
    requires method { to.now.method ≡ place.now.method }
    ensures kept { IfOk result (KeepsOld place.now (option_copied old.entry)) }
    ensures raised { IfOk result (RaisesThrown handler.now place.now told.now to.now (option_copied old.entry)) }
{
    assignable_is_an_order();
    rows_follow_the_order();
    match old {
        None => caught(alloc, place, told, handler, to, None),
        Some(standing) => {
            if catches_well(place, told.frame(), handler, standing.frame()) {
                Ok(None)
            } else {
                caught(alloc, place, told, handler, to, old)
            }
        }
    }
}

/// Sends what the instruction leaves to another.
fn send(
    alloc: Global,
    body: &Body,
    worklist: &mut Worklist,
    place: &PlaceRef,
    to: u32,
) -> Result<(), NoMemory>
    requires { StandsIn body.now place.now worklist.old }
    ensures each { HasEach body.now worklist.new }
    ensures sends { OnOk result (IsReady body.now → SendsTo body.now place.now (to ∷ []) worklist.old worklist.new) }
{
    laws_hold();
    let Some(there) = body.place(to) else {
        return Ok(());
    };
    let Some(frame) = worklist.frame(place.at) else {
        return Ok(());
    };
    let new = sent(alloc, place, frame, &there, worklist.frame(to))?;
    worklist.put(to, new);
    Ok(())
}

/// Sends what the instruction leaves to each of these.
fn send_all(
    alloc: Global,
    body: &Body,
    worklist: &mut Worklist,
    place: &PlaceRef,
    targets: &[u32],
) -> Result<(), NoMemory>
    requires { StandsIn body.now place.now worklist.old }
    ensures each { HasEach body.now worklist.new }
    ensures sends { OnOk result (IsReady body.now → SendsTo body.now place.now targets.now worklist.old worklist.new) }
{
    laws_hold();
    for to in targets {
        send(alloc, body, worklist, place, *to)?;
    }
    Ok(())
}

/// Sends what the instruction leaves to one and to each of others.
fn send_each(
    alloc: Global,
    body: &Body,
    worklist: &mut Worklist,
    place: &PlaceRef,
    first: u32,
    others: &[u32],
) -> Result<(), NoMemory>
    requires { StandsIn body.now place.now worklist.old }
    ensures each { HasEach body.now worklist.new }
    ensures sends { OnOk result (IsReady body.now → SendsTo body.now place.now (first ∷ others.now) worklist.old worklist.new) }
{
    laws_hold();
    send(alloc, body, worklist, place, first)?;
    send_all(alloc, body, worklist, place, others)
}

/// Sends what the instruction leaves to the targets of its jumps.
fn send_to_targets(
    alloc: Global,
    body: &Body,
    worklist: &mut Worklist,
    place: &PlaceRef,
) -> Result<(), NoMemory>
    requires { StandsIn body.now place.now worklist.old }
    ensures each { HasEach body.now worklist.new }
    ensures sends { OnOk result (IsReady body.now → SendsTo body.now place.now (jump_targets place.now.insn) worklist.old worklist.new) }
{
    laws_hold();
    match place.insn {
        Insn::Branch { to, .. } => send(alloc, body, worklist, place, *to),
        Insn::GotoW { to } => send(alloc, body, worklist, place, *to),
        Insn::Table { other, targets, .. } => {
            send_each(alloc, body, worklist, place, *other, targets.as_slice())
        }
        Insn::Lookup { other, targets, .. } => {
            send_each(alloc, body, worklist, place, *other, targets.as_slice())
        }
        _ => Ok(()),
    }
}

/// Sends what the instruction leaves to the next, where control can go on to it.
fn send_on(
    alloc: Global,
    body: &Body,
    worklist: &mut Worklist,
    place: &PlaceRef,
) -> Result<(), NoMemory>
    requires { StandsIn body.now place.now worklist.old }
    ensures each { HasEach body.now worklist.new }
    ensures sends { OnOk result (IsReady body.now
        → SendsTo body.now place.now (next_of place.now.at place.now.insn) worklist.old worklist.new) }
{
    laws_hold();
    if !goes_on(place.insn.opcode()) {
        return Ok(());
    }
    match place.at.checked_add(1) {
        None => Ok(()),
        Some(next) => send(alloc, body, worklist, place, next),
    }
}

/// Sends the locals to the handler, where it covers the instruction.
fn throw(
    alloc: Global,
    body: &Body,
    worklist: &mut Worklist,
    place: &PlaceRef,
    handler: &Handler,
) -> Result<(), NoMemory>
    requires { StandsIn body.now place.now worklist.old }
    ensures each { HasEach body.now worklist.new }
    ensures sends { OnOk result (IsReady body.now → ThrowsTo body.now place.now handler.now worklist.old worklist.new) }
{
    laws_hold();
    if !handler.covers(place.at) {
        return Ok(());
    }
    let Some(there) = body.place(handler.at) else {
        return Ok(());
    };
    let Some(frame) = worklist.frame(place.at) else {
        return Ok(());
    };
    let new = thrown(
        alloc,
        place,
        frame,
        handler,
        &there,
        worklist.frame(handler.at),
    )?;
    worklist.put(handler.at, new);
    Ok(())
}

/// Sends the locals to each handler that covers the instruction.
fn throw_to_handlers(
    alloc: Global,
    body: &Body,
    worklist: &mut Worklist,
    place: &PlaceRef,
) -> Result<(), NoMemory>
    requires { StandsIn body.now place.now worklist.old }
    ensures each { HasEach body.now worklist.new }
    ensures sends { OnOk result (IsReady body.now → ThrowsToAll body.now place.now worklist.old worklist.new) }
{
    laws_hold();
    let mut near = body.method.handlers.near(place.at);
    while let Some(handler) = near.next() {
        throw(alloc, body, worklist, place, handler)?;
    }
    Ok(())
}

/// Looks at an instruction: where its frame meets the rules that ask nothing of other instructions, what it leaves and
/// what it throws flow on.
pub fn look_at(alloc: Global, body: &Body, worklist: &mut Worklist, at: u32) -> Result<(), NoMemory>
    requires { HasEach body.now worklist.old }
    ensures each { HasEach body.now worklist.new }
    ensures grows { OnOk result (IsReady body.now → Grows body.now.program worklist.old worklist.new) }
    ensures found { OnOk result (IsReady body.now → StaysFound body.now at worklist.old worklist.new) }
    ensures done { OnOk result (IsReady body.now → (above : Frames) → RowIsMet body.now above at → AreFound body.now above worklist.old
        → IsDone body.now worklist.new at) }
{
    laws_hold();
    let Some(place) = body.place(at) else {
        return Ok(());
    };
    let Some(told) = worklist.frame(at) else {
        return Ok(());
    };
    if !is_alone_met(&place, told.frame()) {
        return Ok(());
    }
    send_on(alloc, body, worklist, &place)?;
    send_to_targets(alloc, body, worklist, &place)?;
    throw_to_handlers(alloc, body, worklist, &place)
}
