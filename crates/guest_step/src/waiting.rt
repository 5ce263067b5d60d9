//! What a call waits for: the monitor of a synchronized method, or the end of a thread. (docs/MACHINE.md)

ghost use Rattle.std.specs.Prelude.{[], option_map, ◌≡◌};
ghost use Rattle.guest_model.specs.Calls.{Taken, taken};
ghost use Rattle.guest_model.specs.Enabled.{
  call_waits,
  heap_waits,
  lock_of_call,
  lock_wanted,
  thread_awaited,
  waits_for_monitor,
  waits_for_thread,
};
ghost use Rattle.insn_codec.specs.declared.shape.Heap.TheVariants as heap;

use bytecode_model::{Method, Target};
use guest_frames::is_null;
use guest_heap::{Frame, Object, Stack, Value};
use guest_model::{Builtin, builtin_at, class_of_value, is_static_call};
use guest_tables::{Guest, method_run};
use guest_threads::{MachineView, has_ended, lock_of, method_of, thread_of_value};
use insn_codec::How;
use mon_base::List;

/// Whether the call that comes next in the frame waits.
pub fn call_waits(
    guest: &Guest,
    machine: &MachineView,
    number: usize,
    frame: &Frame,
    how: How,
    target: &Target,
) -> bool
    ensures { result ≡ heap_waits guest.now machine.now number frame.now (heap.Call how) target.now }
{
    let Some(count) = guest.arity(target) else {
        return false;
    };
    let Some(receiver) = receiver_of(&frame.stack, is_static_call(how), count) else {
        return false;
    };
    target_waits(guest, machine, number, frame.class, how, target, receiver)
}

/// The receiver of a call with so many arguments, where what it takes is there.
fn receiver_of(stack: &Stack, is_static: bool, count: u8) -> Option<Option<Value>>
    ensures { result ≡ option_map (λ (t : Taken). t.receiver) (taken is_static count stack.now.items) }
{
    if is_static {
        if stack.len() < count as usize {
            return None;
        }
        return Some(None);
    }
    let receiver = stack.get(count)?;
    Some(Some(receiver))
}

/// Whether a call of what is named waits.
fn target_waits(
    guest: &Guest,
    machine: &MachineView,
    number: usize,
    own: u32,
    how: How,
    target: &Target,
    receiver: Option<Value>,
) -> bool
    ensures { result ≡ call_waits guest.now machine.now number own how target.now
        (record { receiver = receiver; arguments = []; beneath = [] }) }
{
    match target {
        Target::Method { class, method } => {
            let to = (*class, *method);
            match guest.method(*class, *method) {
                Some(method) => {
                    let lock = lock_of_call(guest, machine.heap(), own, how, to, method, receiver);
                    waits_for_monitor(machine, number, lock)
                }
                None => false,
            }
        }
        Target::Builtin(index) => match builtin_at(*index) {
            Some(builtin) => {
                waits_for_thread(machine, thread_awaited(machine.heap(), builtin, receiver))
            }
            None => false,
        },
        Target::None
        | Target::ApiMethod(_)
        | Target::Field { .. }
        | Target::ApiField(_)
        | Target::ClassName(_)
        | Target::Number(_)
        | Target::Literal(_) => false,
    }
}

/// Whether another thread holds the monitor that is wanted.
fn waits_for_monitor(machine: &MachineView, number: usize, wanted: Option<Value>) -> bool
    ensures { result ≡ waits_for_monitor machine.now number wanted }
{
    match wanted {
        Some(on) => machine.monitors().is_held_by_other(number, on),
        None => false,
    }
}

/// Whether the thread that is waited for has not ended.
fn waits_for_thread(machine: &MachineView, awaited: Option<u32>) -> bool
    ensures { result ≡ waits_for_thread machine.now awaited }
{
    match awaited {
        Some(number) => !has_ended(machine, number),
        None => false,
    }
}

/// The monitor that a call of a given method takes: of what runs on the receiver, where that is no null.
fn lock_of_call(
    guest: &Guest,
    heap: &List<Object>,
    own: u32,
    how: How,
    to: (u32, u32),
    method: &Method,
    receiver: Option<Value>,
) -> Option<Value>
    ensures { result ≡ lock_of_call guest.now heap.now own how to method.now receiver }
{
    let Some(on) = receiver else {
        return lock_wanted(guest, to, None);
    };
    if is_null(on) {
        return None;
    }
    let class = class_of_value(heap.as_slice(), on)?;
    let found = method_run(guest, own, how, to, method, class)?;
    lock_wanted(guest, found, Some(on))
}

/// The monitor that a method takes as it is called.
fn lock_wanted(guest: &Guest, to: (u32, u32), receiver: Option<Value>) -> Option<Value>
    ensures { result ≡ lock_wanted guest.now to receiver }
{
    let (class, index) = to;
    let method = method_of(guest.indexed(), class, index)?;
    lock_of(guest.indexed(), class, method, receiver)
}

/// The thread that a built-in method waits for.
fn thread_awaited(heap: &List<Object>, builtin: Builtin, receiver: Option<Value>) -> Option<u32>
    ensures { result ≡ thread_awaited heap.now builtin receiver }
{
    match builtin {
        Builtin::Join => {
            let on = receiver?;
            thread_of_value(heap, on)?
        }
        Builtin::Make
        | Builtin::MakeOn
        | Builtin::Start
        | Builtin::Run
        | Builtin::Exit
        | Builtin::Length => None,
    }
}
