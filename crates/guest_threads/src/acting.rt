//! Instructions that throw, and those that enter and leave monitors. (The Java Virtual Machine Specification, section 6.5, athrow,
//! monitorenter and monitorexit.)

ghost use Rattle.std.specs.Prelude.{length, option_and_then, slice_get, ◌<◌, ◌≡◌};
ghost use Rattle.guest_heap.specs.declared.frame.Frame.{Frame};
ghost use Rattle.guest_model.specs.Changes.{world_of};
ghost use Rattle.guest_model.specs.Monitors.{entered, left};
ghost use Rattle.guest_model.specs.Stepping.{Acting, left_with};
ghost use Rattle.guest_threads.specs.Acts.{ActsIn, acting, past};
ghost use Rattle.guest_threads.specs.Becomes.{Becomes};
ghost use Rattle.guest_threads.specs.OnTop.{acts_on_top, goes_past, throws_object};

use crate::frames::{go_to, place_after};
use crate::machine::RunningMachine;
use crate::monitors::Monitors;
use crate::throwing::{throw, throw_new};
use api_listing::Event;
use guest_frames::is_null;
use guest_heap::{Doing, Frame, Frames, Thread, Value};
use guest_model::{StepFault, Thrown, class_of_value};
use std::alloc::Global;
use type_lattice::Indexed;

/// The topmost operand of the top frame.
fn top_operand(frames: &Frames) -> Option<Value>
    ensures { result ≡ option_and_then (λ (f : Frame). slice_get f.stack.items 0) (slice_get frames.now 0) }
{
    let frame = frames.top()?;
    frame.stack.get(0)
}

/// What is done with what is on top: it is thrown, or its monitor is entered or left.
#[derive(Clone, Copy)]
pub enum OnTop {
    Throw,
    Enter,
    Leave,
}

/// It is done with what is on top; null throws.
pub fn act_on_top(
    alloc: Global,
    program: &Indexed,
    machine: &mut RunningMachine,
    number: u32,
    thread: &mut Thread,
    what: OnTop,
) -> Result<Option<Event>, StepFault>
    ensures { ActsIn result machine.old machine.new thread.old thread.new (acting number thread.old thread.old.frames
        (λ (a : Acting). option_and_then (acts_on_top what program.now (world_of machine.old) a) (slice_get a.frame.stack.items 0))) }
{
    let Some(value) = top_operand(&thread.frames) else {
        return Err(StepFault::NotEnabled);
    };
    if is_null(value) {
        let class = Thrown::NullPointer.name();
        return throw_new(alloc, program, machine, number, thread, class, None);
    }
    match what {
        OnTop::Throw => throw_value(alloc, program, machine, number, thread, value),
        OnTop::Enter => enter_monitor(machine, number, thread, value),
        OnTop::Leave => leave_monitor(alloc, program, machine, number, thread, value),
    }
}

/// The value is thrown, which is an object.
fn throw_value(
    alloc: Global,
    program: &Indexed,
    machine: &mut RunningMachine,
    number: u32,
    thread: &mut Thread,
    value: Value,
) -> Result<Option<Event>, StepFault>
    requires { 0 < length thread.old.frames }
    ensures { ActsIn result machine.old machine.new thread.old thread.new (acting number thread.old thread.old.frames
        (λ (a : Acting). throws_object program.now (world_of machine.old) a value)) }
{
    let Some(class) = class_of_value(machine.heap.as_slice(), value) else {
        return Err(StepFault::NotEnabled);
    };
    throw(
        alloc,
        program,
        &mut machine.monitors,
        number,
        thread,
        value,
        class,
    );
    Ok(None)
}

/// The monitor of the value is entered, and the thread goes on.
fn enter_monitor(
    machine: &mut RunningMachine,
    number: u32,
    thread: &mut Thread,
    value: Value,
) -> Result<Option<Event>, StepFault>
    requires { 0 < length thread.old.frames }
    ensures { ActsIn result machine.old machine.new thread.old thread.new (acting number thread.old thread.old.frames
        (λ (a : Acting). goes_past (world_of machine.old) a (entered machine.old.monitors number value))) }
{
    let frame = thread.frames.top_mut();
    enter_past(&mut machine.monitors, number, frame, value)?;
    thread.doing = Doing::Running;
    Ok(None)
}

/// The monitor of the value is left, and the thread goes on; it throws where it does not hold the monitor.
fn leave_monitor(
    alloc: Global,
    program: &Indexed,
    machine: &mut RunningMachine,
    number: u32,
    thread: &mut Thread,
    value: Value,
) -> Result<Option<Event>, StepFault>
    requires { 0 < length thread.old.frames }
    ensures { ActsIn result machine.old machine.new thread.old thread.new (acting number thread.old thread.old.frames
        (λ (a : Acting). left_with program.now (world_of machine.old) a (left machine.old.monitors number value))) }
{
    if !machine.monitors.is_held_by(number, value) {
        let class = Thrown::Monitor.name();
        return throw_new(alloc, program, machine, number, thread, class, None);
    }
    let frame = thread.frames.top_mut();
    leave_past(&mut machine.monitors, number, frame, value)?;
    thread.doing = Doing::Running;
    Ok(None)
}

/// The monitor of the value is entered, and the frame, whose top operand it is, goes on.
fn enter_past(
    monitors: &mut Monitors,
    number: u32,
    frame: &mut Frame,
    value: Value,
) -> Result<(), StepFault>
    ensures { Becomes result (monitors.old, frame.old) (monitors.new, frame.new) (past frame.old (entered monitors.old number value)) }
{
    let at = place_after(frame, 1, None)?;
    monitors.enter(number, value)?;
    go_to(frame, at, 1, None);
    Ok(())
}

/// The monitor of the value is left, and the frame, whose top operand it is, goes on.
fn leave_past(
    monitors: &mut Monitors,
    number: u32,
    frame: &mut Frame,
    value: Value,
) -> Result<(), StepFault>
    ensures { Becomes result (monitors.old, frame.old) (monitors.new, frame.new) (past frame.old (left monitors.old number value)) }
{
    let at = place_after(frame, 1, None)?;
    if !monitors.leave(number, value) {
        return Err(StepFault::NotEnabled);
    }
    go_to(frame, at, 1, None);
    Ok(())
}
