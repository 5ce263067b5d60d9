//! What the built-in methods do that work on threads and monitors alone. (docs/MACHINE.md)

ghost use Rattle.std.specs.Prelude.{option_and_then, slice_get, ◌≡◌};
ghost use Rattle.guest_model.specs.Calling.{Calling, aims, exits, joins};
ghost use Rattle.guest_model.specs.Changes.{world_of};
ghost use Rattle.guest_model.specs.Parts.{number_in};
ghost use Rattle.guest_threads.specs.Acts.{ActsIn};
ghost use Rattle.guest_threads.specs.Calls.{calling};

use crate::going::{go_past, pass_by};
use crate::machine::RunningMachine;
use crate::passing::Call;
use crate::threads::{aim, has_ended, thread_of_value};
use api_listing::Event;
use guest_heap::{Thread, Value};
use guest_model::StepFault;

/// Waits for a thread: that is not enabled while it is started and has not ended.
pub fn join(
    machine: &mut RunningMachine,
    thread: &mut Thread,
    call: &Call,
    on: Value,
) -> Result<Option<Event>, StepFault>
    ensures { ActsIn result machine.old machine.new thread.old thread.new
        (calling call.now thread.old thread.old.frames (λ (c : Calling). joins machine.old c on)) }
{
    match thread_of_value(&machine.heap, on) {
        None => Err(StepFault::NotEnabled),
        Some(None) => go_past(machine, thread, call, None),
        Some(Some(number)) => {
            if has_ended(&machine.view(), number) {
                go_past(machine, thread, call, None)
            } else {
                Err(StepFault::NotEnabled)
            }
        }
    }
}

/// The first argument, if there is one.
fn first_of(call: &Call) -> Option<Value>
    ensures { result ≡ slice_get call.now.arguments 0 }
{
    match call.arguments.as_slice() {
        [] => None,
        [first, ..] => Some(*first),
    }
}

/// The number that the first argument is, if it is one.
fn first_number(call: &Call) -> Option<i32>
    ensures { result ≡ option_and_then number_in (slice_get call.now.arguments 0) }
{
    match first_of(call) {
        Some(Value::Int(n)) => Some(n),
        Some(Value::Null | Value::Ref(_) | Value::Class(_) | Value::Lit(_)) | None => None,
    }
}

/// Stops the program with the argument.
pub fn exit(
    machine: &mut RunningMachine,
    thread: &mut Thread,
    call: &Call,
) -> Result<Option<Event>, StepFault>
    ensures { ActsIn result machine.old machine.new thread.old thread.new
        (calling call.now thread.old thread.old.frames (λ (c : Calling). exits (world_of machine.old) c)) }
{
    let Some(n) = first_number(call) else {
        return Err(StepFault::NotEnabled);
    };
    pass_by(thread, call.taken, None)?;
    machine.stopped = Some(n);
    Ok(None)
}

/// Keeps the argument as the target of the Thread.
pub fn make_on(
    machine: &mut RunningMachine,
    thread: &mut Thread,
    call: &Call,
    on: Value,
) -> Result<Option<Event>, StepFault>
    ensures { ActsIn result machine.old machine.new thread.old thread.new
        (calling call.now thread.old thread.old.frames (λ (c : Calling). aims (world_of machine.old) c on)) }
{
    let Some(to) = first_of(call) else {
        return Err(StepFault::NotEnabled);
    };
    pass_by(thread, call.taken, None)?;
    aim(&mut machine.heap, on, to);
    Ok(None)
}
