//! What objects run: the `run` of their class, and that of the target of a Thread. (docs/MACHINE.md)

ghost use Rattle.std.specs.Option.{option_map_or};
ghost use Rattle.std.specs.Prelude.{false, ◌≡◌};
ghost use Rattle.guest_model.specs.Calling.{Calling, run_of, runs, runs_object, runs_target};
ghost use Rattle.guest_model.specs.Changes.{world_of};
ghost use Rattle.guest_model.specs.Kinds.{class_of_value, is_thread};
ghost use Rattle.guest_threads.specs.Acts.{ActsIn};
ghost use Rattle.guest_threads.specs.Calls.{calling};

use api_listing::Event;
use guest_heap::{Object, Thread, Value};
use guest_model::{StepFault, class_of_value};
use guest_tables::{Guest, client_run, is_thread};
use guest_threads::{Call, RunningMachine, enter_method, go_past, target_of};
use insn_codec::How;
use mon_base::List;
use std::alloc::Global;

/// What an object that is to be run gives: its own `run`, with the object.
pub fn run_of(guest: &Guest, heap: &List<Object>, on: Value) -> Option<((u32, u32), Value)>
    ensures { result ≡ run_of guest.now heap.now on }
{
    match class_of_value(heap.as_slice(), on) {
        Some(class) => match client_run(guest, class) {
            Some(to) => Some((to, on)),
            None => None,
        },
        None => None,
    }
}

/// Whether the value is a Thread.
fn is_thread_on(guest: &Guest, heap: &List<Object>, on: Value) -> bool
    ensures { result ≡ option_map_or (is_thread guest.now) (class_of_value heap.now on) false }
{
    match class_of_value(heap.as_slice(), on) {
        Some(class) => is_thread(guest, class),
        None => false,
    }
}

/// Calls a `run`, or goes past where there is none.
fn call_run(
    alloc: Global,
    guest: &Guest,
    machine: &mut RunningMachine,
    thread: &mut Thread,
    call: &Call,
    run: Option<((u32, u32), Value)>,
) -> Result<Option<Event>, StepFault>
    ensures { ActsIn result machine.old machine.new thread.old thread.new
        (calling call.now thread.old thread.old.frames (λ (c : Calling). runs guest.now (world_of machine.old) c run)) }
{
    match run {
        Some((to, on)) => enter_method(
            alloc,
            guest.indexed(),
            machine,
            thread,
            call,
            to,
            Some(on),
            &[],
        ),
        None => go_past(machine, thread, call, None),
    }
}

/// Thread's own `run`: that of its target; of an object that is no Thread nothing.
pub fn run_target(
    alloc: Global,
    guest: &Guest,
    machine: &mut RunningMachine,
    thread: &mut Thread,
    call: &Call,
    on: Value,
) -> Result<Option<Event>, StepFault>
    ensures { ActsIn result machine.old machine.new thread.old thread.new
        (calling call.now thread.old thread.old.frames (λ (c : Calling). runs_target guest.now (world_of machine.old) c on)) }
{
    if !is_thread_on(guest, &machine.heap, on) {
        return go_past(machine, thread, call, None);
    }
    let run = run_of(guest, &machine.heap, target_of(&machine.heap, on));
    call_run(alloc, guest, machine, thread, call, run)
}

/// A call of `run` that names no given method: the object's own, or else Thread's; of the very method Thread's.
pub fn run_object(
    alloc: Global,
    guest: &Guest,
    machine: &mut RunningMachine,
    thread: &mut Thread,
    call: &Call,
    how: How,
    on: Value,
) -> Result<Option<Event>, StepFault>
    ensures { ActsIn result machine.old machine.new thread.old thread.new
        (calling call.now thread.old thread.old.frames (λ (c : Calling). runs_object guest.now (world_of machine.old) c how on)) }
{
    match how {
        How::Special => run_target(alloc, guest, machine, thread, call, on),
        How::Virtual | How::Interface => match run_of(guest, &machine.heap, on) {
            Some(run) => call_run(alloc, guest, machine, thread, call, Some(run)),
            None => run_target(alloc, guest, machine, thread, call, on),
        },
        How::Static => Err(StepFault::NotEnabled),
    }
}
