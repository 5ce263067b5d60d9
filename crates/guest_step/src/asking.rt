//! What is asked of a machine before a step is made. (docs/MACHINE.md)

ghost use Rattle.std.specs.Option.{option_map_or};
ghost use Rattle.std.specs.Prelude.{IfOk, List, false, slice_get, ◌≡◌};
ghost use Rattle.guest_heap.specs.declared.thread.Doing.TheVariants as doings;
ghost use Rattle.guest_heap.specs.declared.value.Value.{Value};
ghost use Rattle.guest_heap.specs.declared.thread.Thread.{Thread};
ghost use Rattle.guest_model.specs.Asking.{doing_takes, is_enabled, takes_answer};
ghost use Rattle.guest_model.specs.Ending.{can_step};
ghost use Rattle.guest_model.specs.LibraryCalls.{call_asked, call_of_doing};
ghost use Rattle.guest_step.specs.Rooms.{with_objects};

use crate::answering::is_on_null;
use crate::ending::can_step;
use crate::fitting::fits_call;
use api_listing::{ApiAnswer, ApiCall};
use guest_heap::{Doing, Object, Value};
use guest_tables::{Guest, values_shown};
use guest_threads::MachineView;
use mon_base::NoMemory;
use std::alloc::Global;

/// Whether the thread with this number can make a step: some choice of it is enabled by the rules. It takes no memory.
pub fn enabled(guest: &Guest, machine: &MachineView, thread: u32) -> bool
    ensures { result ≡ is_enabled guest.now machine.now thread }
{
    !machine.stopped().is_some() && can_act(guest, machine, thread as usize)
}

/// Whether there is a thread with this number that can make a step while the program goes on.
fn can_act(guest: &Guest, machine: &MachineView, number: usize) -> bool
    ensures { result ≡ option_map_or (λ (t : Thread). can_step guest.now machine.now number t.frames t.doing)
        (slice_get machine.now.threads number) false }
{
    match machine.threads().get(number) {
        Some(acting) => can_step(guest, machine, number, acting),
        None => false,
    }
}

/// Whether the answer fits the call that the thread with this number is in, so that the step which takes it is enabled by the
/// rules. It takes no memory.
pub fn answer_fits(guest: &Guest, machine: &MachineView, thread: u32, answer: &ApiAnswer) -> bool
    ensures { result ≡ takes_answer guest.now machine.now thread answer.now }
{
    answer_fits_apart(guest, machine, machine.heap().as_slice(), thread, answer)
}

/// The same where the heap stands apart.
pub fn answer_fits_apart(
    guest: &Guest,
    machine: &MachineView,
    heap: &[Object],
    thread: u32,
    answer: &ApiAnswer,
) -> bool
    ensures { result ≡ takes_answer guest.now (with_objects machine.now heap.now) thread answer.now }
{
    if machine.stopped().is_some() {
        return false;
    }
    match machine.threads().get(thread as usize) {
        Some(acting) => doing_takes(guest, heap, &acting.doing, answer),
        None => false,
    }
}

/// Whether what a thread does takes the answer.
fn doing_takes(guest: &Guest, heap: &[Object], doing: &Doing, answer: &ApiAnswer) -> bool
    ensures { result ≡ doing_takes guest.now heap.now doing.now answer.now }
{
    match doing {
        Doing::Running | Doing::Ended => false,
        Doing::InCall {
            method,
            receiver,
            args,
        } => {
            let (method, receiver, args) = (*method, *receiver, args.as_slice());
            !is_on_null(receiver) && fits_call(guest, heap, method, receiver, args, answer)
        }
    }
}

/// The call to which the thread with this number waits for an answer, if it does.
pub fn call_asked(
    alloc: Global,
    guest: &Guest,
    machine: &MachineView,
    thread: u32,
) -> Result<Option<ApiCall>, NoMemory>
    ensures { IfOk result (λ call. call ≡ call_asked guest.now machine.now thread) }
{
    match machine.threads().get(thread as usize) {
        Some(acting) => call_of_doing(alloc, guest, machine.heap().as_slice(), &acting.doing),
        None => Ok(None),
    }
}

/// The call that a thread with this doing waits in.
fn call_of_doing(
    alloc: Global,
    guest: &Guest,
    heap: &[Object],
    doing: &Doing,
) -> Result<Option<ApiCall>, NoMemory>
    ensures { IfOk result (λ call. call ≡ call_of_doing guest.now heap.now doing.now) }
{
    match doing {
        Doing::Running | Doing::Ended => Ok(None),
        Doing::InCall {
            method,
            receiver,
            args,
        } => call_of(alloc, guest, heap, *method, *receiver, args.as_slice()),
    }
}

/// The call of the listed method with this index, unless it is on null.
fn call_of(
    alloc: Global,
    guest: &Guest,
    heap: &[Object],
    method: u32,
    receiver: Option<Value>,
    args: &[Value],
) -> Result<Option<ApiCall>, NoMemory>
    ensures { IfOk result (λ call. (list : List Value) → list ≡ args.now → call
        ≡ call_of_doing guest.now heap.now (doings.InCall method receiver list)) }
{
    if is_on_null(receiver) {
        return Ok(None);
    }
    match guest
        .program()
        .listing
        .methods
        .as_slice()
        .get(method as usize)
    {
        Some(listed) => Ok(Some(ApiCall {
            method: listed.id.copy(alloc)?,
            instance: receiver.is_some(),
            args: values_shown(alloc, guest, heap, args)?,
        })),
        None => Ok(None),
    }
}
