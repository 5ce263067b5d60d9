//! Calls that go on at once, enter a given method, or end the thread. (The Java Virtual Machine Specification, section 6.5,
//! invokevirtual to invokeinterface.)

ghost use Rattle.std.specs.Option.{option_to_list};
ghost use Rattle.std.specs.Prelude.{List, Some, option_map, ◌∷◌, ◌≡◌};
ghost use Rattle.guest_heap.specs.declared.object.Monitor.{Monitor};
ghost use Rattle.guest_model.specs.Calling.{Calling, call_throws, goes_past, waiting};
ghost use Rattle.guest_model.specs.Changes.{ends_thread, enters_method, lock_taken, locks_of, world_of};
ghost use Rattle.guest_model.specs.Monitors.{all_given_up};
ghost use Rattle.guest_model.specs.Ready.{IsReady};
ghost use Rattle.guest_threads.specs.Acts.{ActsIn};
ghost use Rattle.guest_threads.specs.Calls.{calling, entered_in, gone_past, waiting_in};
ghost use Rattle.guest_threads.specs.Becomes.{Becomes};

use crate::beginning::end;
use crate::frames::{frame_of, go_on, method_of};
use crate::machine::RunningMachine;
use crate::monitors::Monitors;
use crate::passing::Call;
use crate::throwing::{leave_top, throw_new};
use api_listing::Event;
use guest_heap::{Doing, Frame, Frames, Thread, Value};
use guest_model::StepFault;
use std::alloc::Global;
use type_lattice::Indexed;

/// The top frame goes on after its call, which took so many operands, with the result above the others.
pub fn pass_by(thread: &mut Thread, taken: usize, value: Option<Value>) -> Result<(), StepFault>
    ensures { Becomes result thread.old thread.new (gone_past thread.old thread.old.frames taken (option_to_list value)) }
{
    if thread.frames.top().is_none() {
        return Err(StepFault::NotEnabled);
    }
    go_on(thread.frames.top_mut(), taken, value)?;
    thread.doing = Doing::Running;
    Ok(())
}

/// The call is over at once, and leaves this result.
pub fn go_past(
    machine: &mut RunningMachine,
    thread: &mut Thread,
    call: &Call,
    value: Option<Value>,
) -> Result<Option<Event>, StepFault>
    ensures { ActsIn result machine.old machine.new thread.old thread.new
        (calling call.now thread.old thread.old.frames (λ (c : Calling). goes_past (world_of machine.old) c (option_to_list value))) }
{
    pass_by(thread, call.taken, value)?;
    Ok(None)
}

/// A new object of the class is thrown.
pub fn call_throws(
    alloc: Global,
    program: &Indexed,
    machine: &mut RunningMachine,
    thread: &mut Thread,
    call: &Call,
    class: &[u8],
) -> Result<Option<Event>, StepFault>
    ensures { ActsIn result machine.old machine.new thread.old thread.new
        (calling call.now thread.old thread.old.frames
        (λ (c : Calling). Some (call_throws program.now (world_of machine.old) c class.now))) }
{
    if thread.frames.top().is_none() {
        return Err(StepFault::NotEnabled);
    }
    throw_new(alloc, program, machine, call.number, thread, class, None)
}

/// The frame that calls is left without what the call takes.
pub fn wait(frames: &mut Frames, taken: usize)
    ensures { frames.new ≡ waiting_in frames.old taken }
{
    if frames.top().is_some() {
        frames.top_mut().stack.drop_top(taken);
    }
}

/// The frame is put on top, and its lock is taken.
fn push_locked(
    monitors: &mut Monitors,
    number: u32,
    frames: &mut Frames,
    frame: Frame,
) -> Result<(), StepFault>
    ensures monitors { Becomes result monitors.old monitors.new (lock_taken monitors.old number frame.lock) }
    ensures frames { Becomes result frames.old frames.new
        (option_map (λ (held : List Monitor). frame ∷ frames.old) (lock_taken monitors.old number frame.lock)) }
{
    let lock = frame.lock;
    frames.push(frame)?;
    let taken = monitors.take_lock(number, lock);
    if taken.is_err() {
        frames.pop();
    }
    taken
}

/// The frame that calls, which is below the top one, is left without what the call takes.
fn wait_below(frames: &mut Frames, taken: usize)
    ensures { frames.new ≡ entered_in frames.old taken }
{
    if frames.caller().is_some() {
        frames.caller_mut().stack.drop_top(taken);
    }
}

/// The given method is called with these arguments.
pub fn enter_method(
    alloc: Global,
    program: &Indexed,
    machine: &mut RunningMachine,
    thread: &mut Thread,
    call: &Call,
    to: (u32, u32),
    receiver: Option<Value>,
    arguments: &[Value],
) -> Result<Option<Event>, StepFault>
    requires { IsReady program.now }
    ensures { ActsIn result machine.old machine.new thread.old thread.new
        (calling call.now thread.old thread.old.frames
        (λ (c : Calling). enters_method program.now (world_of machine.old) c.number c.thread (waiting c) to receiver arguments.now)) }
{
    if thread.frames.top().is_none() {
        return Err(StepFault::NotEnabled);
    }
    let (class, index) = to;
    let Some(method) = method_of(program, class, index) else {
        return Err(StepFault::NotEnabled);
    };
    let frame = frame_of(alloc, program, class, index, method, receiver, arguments)?;
    push_locked(
        &mut machine.monitors,
        call.number,
        &mut thread.frames,
        frame,
    )?;
    wait_below(&mut thread.frames, call.taken);
    thread.doing = Doing::Running;
    Ok(None)
}

/// The thread ends as by an exception that no handler takes.
pub fn end_thread(
    alloc: Global,
    machine: &mut RunningMachine,
    thread: &mut Thread,
    call: &Call,
) -> Result<Option<Event>, StepFault>
    ensures { ActsIn result machine.old machine.new thread.old thread.new
        (calling call.now thread.old thread.old.frames
        (λ (c : Calling). Some (ends_thread (world_of machine.old) c.number (c.frame ∷ c.below)))) }
{
    if thread.frames.top().is_none() {
        return Err(StepFault::NotEnabled);
    }
    give_up_all(&mut machine.monitors, call.number, &mut thread.frames);
    end(alloc, thread);
    Ok(None)
}

/// The frames are left, and their locks are given up.
fn give_up_all(monitors: &mut Monitors, number: u32, frames: &mut Frames)
    ensures { monitors.new ≡ all_given_up monitors.old number (locks_of frames.old) }
{
    while frames.top().is_some() {
        leave_top(monitors, number, frames);
    }
}
