//! What the built-in methods do. (docs/MACHINE.md)

ghost use Rattle.std.specs.Option.{option_or};
ghost use Rattle.std.specs.Prelude.{None, ◌≡◌};
ghost use Rattle.guest_heap.specs.declared.value.Value.{Value};
ghost use Rattle.guest_model.specs.Calling.{Calling, built_in, on_receiver, run_of, started, starts, target_of};
ghost use Rattle.guest_model.specs.Changes.{world_of};
ghost use Rattle.guest_step.specs.Built.{built_on, tells_length};
ghost use Rattle.guest_threads.specs.Acts.{ActsIn};
ghost use Rattle.guest_threads.specs.Calls.{calling};

use crate::running::{run_object, run_of};
use api_listing::Event;
use guest_frames::is_null;
use guest_heap::{Object, Thread, Value};
use guest_model::{Builtin, StepFault, Thrown};
use guest_tables::{Guest, characters, string_of};
use guest_threads::{
    Call, RunningMachine, begin_beside, begun_thread, call_throws, exit, go_past, join, make_on,
    mark_started, target_of, thread_of_value,
};
use insn_codec::How;
use mon_base::List;
use std::alloc::Global;

/// What a thread runs that the object starts: the object's own `run`, or else that of its target.
fn run_started(guest: &Guest, heap: &List<Object>, on: Value) -> Option<((u32, u32), Value)>
    ensures { result ≡ option_or (run_of guest.now heap.now on) (run_of guest.now heap.now (target_of heap.now on)) }
{
    match run_of(guest, heap, on) {
        Some(run) => Some(run),
        None => run_of(guest, heap, target_of(heap, on)),
    }
}

/// A thread begins that the object starts, and gets the next number.
fn start_first(
    alloc: Global,
    guest: &Guest,
    machine: &mut RunningMachine,
    thread: &mut Thread,
    call: &Call,
    on: Value,
) -> Result<Option<Event>, StepFault>
    ensures { ActsIn result machine.old machine.new thread.old thread.new
        (calling call.now thread.old thread.old.frames (λ (c : Calling). started guest.now machine.old c on None)) }
{
    let count = machine.threads.len();
    if count >= u32::MAX as usize {
        return Err(StepFault::Memory);
    }
    let run = run_started(guest, &machine.heap, on);
    let begun = begun_thread(alloc, guest.indexed(), run)?;
    begin_beside(&mut machine.threads, begun, thread, call.taken)?;
    mark_started(&mut machine.heap, on, count as u32);
    Ok(None)
}

/// Starts a thread; a second start throws.
fn start(
    alloc: Global,
    guest: &Guest,
    machine: &mut RunningMachine,
    thread: &mut Thread,
    call: &Call,
    on: Value,
) -> Result<Option<Event>, StepFault>
    ensures { ActsIn result machine.old machine.new thread.old thread.new
        (calling call.now thread.old thread.old.frames (λ (c : Calling). starts guest.now machine.old c on)) }
{
    match thread_of_value(&machine.heap, on) {
        None => Err(StepFault::NotEnabled),
        Some(None) => start_first(alloc, guest, machine, thread, call, on),
        Some(Some(_)) => {
            call_throws(
                alloc,
                guest.indexed(),
                machine,
                thread,
                call,
                Thrown::SecondStart.name(),
            )
        }
    }
}

/// Counts the characters of a text.
fn tell_length(
    guest: &Guest,
    machine: &mut RunningMachine,
    thread: &mut Thread,
    call: &Call,
    on: Value,
) -> Result<Option<Event>, StepFault>
    ensures { ActsIn result machine.old machine.new thread.old thread.new
        (calling call.now thread.old thread.old.frames (λ (c : Calling). tells_length guest.now machine.old c on)) }
{
    let count = characters(string_of(guest, machine.heap.as_slice(), on));
    if count > i32::MAX as usize {
        return Err(StepFault::Memory);
    }
    go_past(machine, thread, call, Some(Value::Int(count as i32)))
}

/// What a built-in method does on an object.
fn build_on(
    alloc: Global,
    guest: &Guest,
    machine: &mut RunningMachine,
    thread: &mut Thread,
    call: &Call,
    how: How,
    builtin: Builtin,
    on: Value,
) -> Result<Option<Event>, StepFault>
    ensures { ActsIn result machine.old machine.new thread.old thread.new
        (calling call.now thread.old thread.old.frames (λ (c : Calling). built_on guest.now machine.old c how on builtin)) }
{
    match builtin {
        Builtin::MakeOn => make_on(machine, thread, call, on),
        Builtin::Start => start(alloc, guest, machine, thread, call, on),
        Builtin::Run => run_object(alloc, guest, machine, thread, call, how, on),
        Builtin::Join => join(machine, thread, call, on),
        Builtin::Length => tell_length(guest, machine, thread, call, on),
        Builtin::Make | Builtin::Exit => Err(StepFault::NotEnabled),
    }
}

/// What a built-in method does on its receiver; null throws.
fn build_on_receiver(
    alloc: Global,
    guest: &Guest,
    machine: &mut RunningMachine,
    thread: &mut Thread,
    call: &Call,
    how: How,
    builtin: Builtin,
) -> Result<Option<Event>, StepFault>
    ensures { ActsIn result machine.old machine.new thread.old thread.new
        (calling call.now thread.old thread.old.frames
        (λ (c : Calling). on_receiver guest.now (world_of machine.old) c
        (λ (on : Value). built_on guest.now machine.old c how on builtin))) }
{
    let Some(on) = call.receiver else {
        return Err(StepFault::NotEnabled);
    };
    if is_null(on) {
        return call_throws(
            alloc,
            guest.indexed(),
            machine,
            thread,
            call,
            Thrown::NullPointer.name(),
        );
    }
    build_on(alloc, guest, machine, thread, call, how, builtin, on)
}

/// Calls a built-in method.
pub fn call_builtin(
    alloc: Global,
    guest: &Guest,
    machine: &mut RunningMachine,
    thread: &mut Thread,
    call: &Call,
    how: How,
    builtin: Builtin,
) -> Result<Option<Event>, StepFault>
    ensures { ActsIn result machine.old machine.new thread.old thread.new
        (calling call.now thread.old thread.old.frames (λ (c : Calling). built_in guest.now machine.old c how builtin)) }
{
    match builtin {
        Builtin::Make => go_past(machine, thread, call, None),
        Builtin::Exit => exit(machine, thread, call),
        Builtin::MakeOn | Builtin::Start | Builtin::Run | Builtin::Join | Builtin::Length => {
            build_on_receiver(alloc, guest, machine, thread, call, how, builtin)
        }
    }
}
