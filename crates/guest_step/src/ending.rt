//! How a run ended.

ghost use Rattle.std.specs.Option.{option_map_or};
ghost use Rattle.std.specs.Prelude.{false, not, slice_get, ◌&&◌, ◌≡◌};
ghost use Rattle.guest_frames.specs.Values.{is_null};
ghost use Rattle.guest_heap.specs.declared.value.Value.{Value};
ghost use Rattle.guest_model.specs.Enabled.{heap_waits, is_held_by_other, waits};
ghost use Rattle.guest_model.specs.Ending.{can_step, end_of, have_ended, some_can_step};

use crate::answering::is_on_null;
use crate::stepping::{heap_in, insn_at};
use crate::waiting::call_waits;
use bytecode_model::Target;
use guest_frames::is_null;
use guest_heap::{Doing, Frame, Frames, Thread};
use guest_model::End;
use guest_tables::Guest;
use guest_threads::{MachineView, is_ended};
use insn_codec::{Heap, shape_of};

/// How the run ended; nothing while a thread can make a step. It takes no memory.
pub fn ended(guest: &Guest, machine: &MachineView) -> Option<End>
    ensures { result ≡ end_of guest.now machine.now }
{
    if let Some(value) = machine.stopped() {
        return Some(End::Stopped(value));
    }
    if have_ended(machine.threads()) {
        return Some(End::Finished);
    }
    if some_can_step(guest, machine) {
        return None;
    }
    Some(End::Deadlock)
}

/// Whether each of the threads has ended.
fn have_ended(threads: &[Thread]) -> bool
    ensures { result ≡ have_ended threads.now }
{
    threads.iter().all(|thread| is_ended(&thread.doing))
}

/// Whether some thread can make a step.
fn some_can_step(guest: &Guest, machine: &MachineView) -> bool
    ensures { result ≡ some_can_step guest.now machine.now 0 machine.now.threads }
{
    let mut number = 0;
    let mut left = machine.threads();
    while let [thread, rest @ ..] = left {
        if can_step(guest, machine, number, thread) {
            return true;
        }
        number += 1;
        left = rest;
    }
    false
}

/// Whether the thread of this number can make a step.
pub fn can_step(guest: &Guest, machine: &MachineView, number: usize, thread: &Thread) -> bool
    ensures { result ≡ can_step guest.now machine.now number thread.now.frames thread.now.doing }
{
    match &thread.doing {
        Doing::Running => !waits(guest, machine, number, &thread.frames),
        Doing::InCall {
            method,
            receiver,
            ..
        } => {
            let methods = guest.program().listing.methods.as_slice();
            is_on_null(*receiver) || methods.get(*method as usize).is_some()
        }
        Doing::Ended => false,
    }
}

/// Whether the next instruction of a thread with these frames waits.
fn waits(guest: &Guest, machine: &MachineView, number: usize, frames: &Frames) -> bool
    ensures { result ≡ waits guest.now machine.now number frames.now }
{
    let Some(frame) = frames.top() else {
        return false;
    };
    let Some((insn, target)) = insn_at(guest, frame) else {
        return false;
    };
    match heap_in(shape_of(insn)) {
        Some(what) => heap_waits(guest, machine, number, frame, what, target),
        None => false,
    }
}

/// Whether an instruction that works on more than its frame waits.
fn heap_waits(
    guest: &Guest,
    machine: &MachineView,
    number: usize,
    frame: &Frame,
    what: Heap,
    target: &Target,
) -> bool
    ensures { result ≡ heap_waits guest.now machine.now number frame.now what target.now }
{
    match what {
        Heap::Call(how) => call_waits(guest, machine, number, frame, how, target),
        Heap::Enter => enter_waits(machine, number, frame),
        Heap::Exit
        | Heap::Throw
        | Heap::Return(_)
        | Heap::Constant
        | Heap::ReadItem(_)
        | Heap::WriteItem(_)
        | Heap::Divide { .. }
        | Heap::ReadStatic
        | Heap::WriteStatic
        | Heap::ReadField
        | Heap::WriteField
        | Heap::New
        | Heap::NewArray(_)
        | Heap::NewArrayOf
        | Heap::Length
        | Heap::Cast
        | Heap::IsInstance => false,
    }
}

/// Whether the monitor of what is on top is held by another thread.
fn enter_waits(machine: &MachineView, number: usize, frame: &Frame) -> bool
    ensures { result ≡ option_map_or (λ (on : Value). not (is_null on) && is_held_by_other machine.now.monitors number on)
        (slice_get frame.now.stack.items 0) false }
{
    match frame.stack.get(0) {
        Some(on) => !is_null(on) && machine.monitors().is_held_by_other(number, on),
        None => false,
    }
}
