//! Returns: the caller goes on after its call, or the thread rests. (The Java Virtual Machine Specification, section 2.6.4.)

ghost use Rattle.std.specs.Prelude.{drop, length, ◌<◌, ◌≡◌};
ghost use Rattle.bytecode_model.specs.declared.program.Program.{Program};
ghost use Rattle.guest_frames.specs.Became.{Became};
ghost use Rattle.guest_model.specs.Changes.{world_of};
ghost use Rattle.guest_model.specs.Parts.{result_of};
ghost use Rattle.guest_model.specs.Ready.{IsReady};
ghost use Rattle.guest_model.specs.Stepping.{Acting, returns};
ghost use Rattle.guest_threads.specs.Acts.{ActsIn, StandsLow, acting, thread_returned};
ghost use Rattle.guest_threads.specs.Becomes.{Becomes};

use crate::beginning::rest;
use crate::frames::go_on;
use crate::machine::RunningMachine;
use api_listing::Event;
use guest_frames::fits;
use guest_heap::{Doing, Stack, Thread, Value};
use guest_model::StepFault;
use insn_codec::ValueKind;
use std::alloc::Global;
use type_lattice::Indexed;

/// The result of a return, where it is of the kind that the instruction returns.
fn result_of(kind: Option<ValueKind>, stack: &Stack) -> Option<Option<Value>>
    ensures { result ≡ result_of kind stack.now.items }
{
    let Some(kind) = kind else {
        return Some(None);
    };
    let value = stack.get(0)?;
    if fits(kind, value) {
        Some(Some(value))
    } else {
        None
    }
}

/// The thread goes on in its frames with the result above the operands of the first, or else rests.
pub fn resume(
    alloc: Global,
    program: &Indexed,
    thread: &mut Thread,
    value: Option<Value>,
) -> Result<(), StepFault>
    requires { IsReady program.now }
    ensures { Becomes result thread.old thread.new (thread_returned program.now thread.old thread.old.frames value) }
{
    if thread.frames.top().is_none() {
        rest(alloc, program, thread)?;
        return Ok(());
    }
    go_on(thread.frames.top_mut(), 0, value)?;
    thread.doing = Doing::Running;
    Ok(())
}

/// The thread, which has a frame, goes on in it with the result above its operands; and whether it does, since that is not enabled
/// where there is no place for the result. It takes no memory.
pub fn resume_in_frame(thread: &mut Thread, value: Option<Value>) -> bool
    requires framed { 0 < length thread.old.frames }
    requires stands { StandsLow thread.old.frames }
    ensures { (program : Program) → Became result thread.old thread.new (thread_returned program thread.old thread.old.frames value) }
{
    match go_on(thread.frames.top_mut(), 0, value) {
        Ok(()) => {
            thread.doing = Doing::Running;
            true
        }
        Err(StepFault::NotEnabled) => false,
        Err(StepFault::Memory) => unreachable!(),
    }
}

/// The top frame is left, and the thread goes on in those below it with the result, or else rests.
fn hand_back(
    alloc: Global,
    program: &Indexed,
    thread: &mut Thread,
    value: Option<Value>,
) -> Result<(), StepFault>
    requires { IsReady program.now }
    ensures { Becomes result thread.old thread.new (thread_returned program.now thread.old (drop 1 thread.old.frames) value) }
{
    if thread.frames.caller().is_none() {
        rest(alloc, program, thread)?;
        return Ok(());
    }
    go_on(thread.frames.caller_mut(), 0, value)?;
    thread.frames.pop();
    thread.doing = Doing::Running;
    Ok(())
}

/// The top frame returns, and its lock is given up.
pub fn return_from(
    alloc: Global,
    program: &Indexed,
    machine: &mut RunningMachine,
    number: u32,
    thread: &mut Thread,
    kind: Option<ValueKind>,
) -> Result<Option<Event>, StepFault>
    requires { IsReady program.now }
    ensures { ActsIn result machine.old machine.new thread.old thread.new
        (acting number thread.old thread.old.frames (λ (a : Acting). returns program.now (world_of machine.old) a kind)) }
{
    let Some(frame) = thread.frames.top() else {
        return Err(StepFault::NotEnabled);
    };
    let Some(value) = result_of(kind, &frame.stack) else {
        return Err(StepFault::NotEnabled);
    };
    let lock = frame.lock;
    hand_back(alloc, program, thread, value)?;
    machine.monitors.give_up(number, lock);
    Ok(None)
}
