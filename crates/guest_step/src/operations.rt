//! Instructions that work on the heap or on static fields, or divide, in the frame of a thread.

ghost use Rattle.std.specs.Prelude.{◌<◌, ◌^◌, ◌≡◌};
ghost use Rattle.guest_model.specs.Changes.{World, world_of};
ghost use Rattle.guest_model.specs.Parts.{running};
ghost use Rattle.guest_model.specs.Stepping.{Acting, operates};
ghost use Rattle.guest_model.specs.HeapOperations.{heap_result};
ghost use Rattle.guest_step.specs.InFrame.{OperatesIn, at_after, inside};
ghost use Rattle.guest_step.specs.Turns.{StandsInCode};
ghost use Rattle.guest_threads.specs.Acts.{ActsIn, acting};

use crate::operate::operate;
use api_listing::Event;
use bytecode_model::Target;
use guest_heap::{Doing, Frame, Object, Thread, Value};
use guest_model::StepFault;
use guest_operations::Completion;
use guest_tables::Guest;
use guest_threads::{RunningMachine, throw_new};
use insn_codec::Heap;
use mon_base::{List, NoMemory};
use std::alloc::Global;

/// The instruction does its work on what is shared and on the top frame, which goes on after it; or it throws.
pub fn run_operation(
    alloc: Global,
    guest: &Guest,
    machine: &mut RunningMachine,
    number: u32,
    thread: &mut Thread,
    what: Heap,
    target: &Target,
) -> Result<Option<Event>, StepFault>
    requires { StandsInCode thread.old.frames }
    ensures { ActsIn result machine.old machine.new thread.old thread.new (acting number thread.old thread.old.frames
        (λ (a : Acting). operates guest.now (world_of machine.old) a what target.now)) }
{
    if thread.frames.top().is_none() {
        return Err(StepFault::NotEnabled);
    }
    let frame = thread.frames.top_mut();
    match operation_in(
        alloc,
        guest,
        &mut machine.heap,
        &mut machine.statics,
        frame,
        what,
        target,
    )? {
        None => Err(StepFault::NotEnabled),
        Some(Completion::Goes) => {
            keep_running(thread);
            Ok(None)
        }
        Some(Completion::Throws(thrown)) => {
            throw_new(
                alloc,
                guest.indexed(),
                machine,
                number,
                thread,
                thrown.name(),
                None,
            )
        }
    }
}

/// The thread runs on in its frames.
fn keep_running(thread: &mut Thread)
    ensures { thread.new ≡ running thread.old.frames thread.old.to_begin }
{
    thread.doing = Doing::Running;
}

/// The same in a frame, which stays where the instruction does not go on.
fn operation_in(
    alloc: Global,
    guest: &Guest,
    heap: &mut List<Object>,
    statics: &mut List<List<Value>>,
    frame: &mut Frame,
    what: Heap,
    target: &Target,
) -> Result<Option<Completion>, NoMemory>
    requires { frame.old.at < 2 ^ 16 }
    ensures { OperatesIn result (inside heap.old statics.old frame.old) (inside heap.new statics.new frame.new)
        (λ (world : World). heap_result guest.now world what target.now frame.old.stack.items) }
{
    let completion = operate(alloc, guest, what, target, heap, statics, &mut frame.stack)?;
    frame.at = at_after(completion, frame.at);
    Ok(completion)
}

/// Where a frame stands afterwards: after its instruction where that went on.
fn at_after(completion: Option<Completion>, at: u32) -> u32
    requires { at < 2 ^ 16 }
    ensures { result ≡ at_after completion at }
{
    match completion {
        Some(Completion::Goes) => at + 1,
        Some(Completion::Throws(_)) | None => at,
    }
}
