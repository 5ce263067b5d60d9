//! Threads that begin, and those that have ended; and the objects that start them. (docs/MACHINE.md)

ghost use Rattle.std.specs.Prelude.{IfOk, [], option_map, ◌++◌, ◌∷◌, ◌≡◌};
ghost use Rattle.guest_heap.specs.declared.thread.Thread.{Thread};
ghost use Rattle.guest_model.specs.Calling.{
  aimed_at,
  begun_thread,
  has_ended,
  is_ended,
  started_as,
  thread_in,
  thread_of_value,
  with_changed,
};
ghost use Rattle.guest_model.specs.Changes.{ended_thread};
ghost use Rattle.guest_model.specs.Ready.{IsReady};
ghost use Rattle.guest_threads.specs.Calls.{gone_past};
ghost use Rattle.guest_threads.specs.Becomes.{Becomes};

use crate::frames::{frame_of, method_of};
use crate::going::pass_by;
use crate::machine::MachineView;
use guest_heap::{Doing, Frames, Object, Thread, Value};
use guest_model::StepFault;
use mon_base::{List, NoMemory};
use std::alloc::Global;
use type_lattice::Indexed;

/// Whether the thread has ended.
pub fn is_ended(doing: &Doing) -> bool
    ensures { result ≡ is_ended doing.now }
{
    match doing {
        Doing::Ended => true,
        Doing::Running | Doing::InCall { .. } => false,
    }
}

/// Whether the thread of this number has ended.
pub fn has_ended(machine: &MachineView, number: u32) -> bool
    ensures { result ≡ has_ended machine.now number }
{
    match machine.threads().get(number as usize) {
        Some(thread) => is_ended(&thread.doing),
        None => false,
    }
}

/// The number of the thread that was started by the object, if one was.
fn thread_in(object: &Object) -> Option<u32>
    ensures { result ≡ thread_in object.now }
{
    match object {
        Object::Plain { thread, .. } => *thread,
        Object::Array { .. } | Object::Text(_) => None,
    }
}

/// The same of a reference; nothing of a number, of null, and of no object of the heap.
pub fn thread_of_value(heap: &List<Object>, on: Value) -> Option<Option<u32>>
    ensures { result ≡ thread_of_value heap.now on }
{
    match on {
        Value::Int(_) | Value::Null => None,
        Value::Ref(at) => match heap.as_slice().get(at as usize) {
            Some(object) => Some(thread_in(object)),
            None => None,
        },
        Value::Class(_) | Value::Lit(_) => Some(None),
    }
}

/// The object becomes that of the thread with this number.
pub fn mark_started(heap: &mut List<Object>, on: Value, number: u32)
    ensures { heap.new ≡ with_changed heap.old on (started_as number) }
{
    if let Value::Ref(at) = on {
        if (at as usize) < heap.len() {
            mark_object(heap.item_mut(at as usize), number);
        }
    }
}

/// The same of the object itself.
fn mark_object(object: &mut Object, number: u32)
    ensures { object.new ≡ started_as number object.old }
{
    if let Object::Plain { thread, .. } = object {
        *thread = Some(number);
    }
}

/// The object gets this target.
pub fn aim(heap: &mut List<Object>, on: Value, to: Value)
    ensures { heap.new ≡ with_changed heap.old on (aimed_at to) }
{
    if let Value::Ref(at) = on {
        if (at as usize) < heap.len() {
            aim_object(heap.item_mut(at as usize), to);
        }
    }
}

/// The same of the object itself.
fn aim_object(object: &mut Object, to: Value)
    ensures { object.new ≡ aimed_at to object.old }
{
    if let Object::Plain { target, .. } = object {
        *target = to;
    }
}

/// The thread that begins with this `run`, or has ended at once.
pub fn begun_thread(
    alloc: Global,
    program: &Indexed,
    run: Option<((u32, u32), Value)>,
) -> Result<Thread, NoMemory>
    requires { IsReady program.now }
    ensures { IfOk result (λ thread. thread ≡ begun_thread program.now run) }
{
    let Some((to, on)) = run else {
        return Ok(ended(alloc));
    };
    let Some(method) = method_of(program, to.0, to.1) else {
        return Ok(ended(alloc));
    };
    let frame = frame_of(alloc, program, to.0, to.1, method, Some(on), &[])?;
    let mut frames = Frames::new(alloc);
    frames.push(frame)?;
    Ok(Thread {
        frames,
        to_begin: List::new(alloc),
        doing: Doing::Running,
    })
}

/// A thread that has ended.
fn ended(alloc: Global) -> Thread
    ensures { result ≡ ended_thread }
{
    Thread {
        frames: Frames::new(alloc),
        to_begin: List::new(alloc),
        doing: Doing::Ended,
    }
}

/// The thread is put after the others, while this one goes past its call, which took so many operands.
pub fn begin_beside(
    threads: &mut List<Thread>,
    begun: Thread,
    thread: &mut Thread,
    taken: usize,
) -> Result<(), StepFault>
    ensures threads { Becomes result threads.old threads.new
        (option_map (λ (t : Thread). threads.old ++ begun ∷ []) (gone_past thread.old thread.old.frames taken [])) }
    ensures thread { Becomes result thread.old thread.new (gone_past thread.old thread.old.frames taken []) }
{
    threads.push(begun)?;
    let gone = pass_by(thread, taken, None);
    if gone.is_err() {
        threads.pop();
    }
    gone
}
