//! Steps.

ghost use Rattle.std.specs.Borrow.{Bor};
ghost use Rattle.std.specs.Prelude.{IfOk, IfSome, if◌then◌else◌, option_map, ◌<◌, ◌^◌, ◌≡◌, ◌≢◌};
ghost use Rattle.bytecode_model.specs.declared.program.Target.{Target};
ghost use Rattle.guest_frames.specs.Stepping.{frame_stepped};
ghost use Rattle.guest_heap.specs.declared.thread.Doing.TheVariants as doings;
ghost use Rattle.guest_model.specs.declared.fault.StepFault.TheVariants as faults;
ghost use Rattle.guest_model.specs.declared.machine.Choice.TheVariants as choices;
ghost use Rattle.guest_model.specs.Changes.{world_of};
ghost use Rattle.guest_model.specs.Did.{Did};
ghost use Rattle.guest_model.specs.Places.{insn_at};
ghost use Rattle.guest_model.specs.Seeing.{thread_of};
ghost use Rattle.guest_model.specs.Stepping.{Acting, doing_stepped, frames_stepped, heap_in, heap_stepped, running_stepped, stepped};
ghost use Rattle.guest_step.specs.Rooms.{IsPrepared, IsReadyFor, TakesOne, with_objects};
ghost use Rattle.guest_step.specs.Turns.{StandsInCode, doing_this, thread_stepped, unseen};
ghost use Rattle.guest_threads.specs.Acts.{ActsIn, acting};
ghost use Rattle.guest_threads.specs.Becomes.{Becomes};
ghost use Rattle.insn_codec.specs.declared.insn.Insn.{Insn};

use crate::answering::{InCall, step_in_call, take_if_fit};
use crate::calling::call;
use crate::operations::run_operation;
use crate::rooms::Rooms;
use api_listing::{ApiAnswer, Event};
use bytecode_model::Target;
use guest_frames::local_step;
use guest_heap::{Doing, Frame, Frames, Object, Thread};
use guest_model::{Choice, Step, StepFault, events_are_of_their_thread};
use guest_tables::Guest;
use guest_threads::{OnTop, RunningMachine, act_on_top, method_of, return_from};
use insn_codec::{Heap, Insn, Shape, shape_of};
use mon_base::List;
use std::alloc::Global;

/// Makes the step, and answers what the library sees of it. Where it is refused, the machine is as it was.
pub fn step(
    alloc: Global,
    guest: &Guest,
    machine: &mut RunningMachine,
    step: &Step,
) -> Result<Option<Event>, StepFault>
    ensures did { Did result machine.old machine.new (stepped guest.now machine.old step.now) }
    ensures own { IfOk result (λ seen. IfSome seen (λ event. thread_of event ≡ step.now.thread)) }
{
    events_are_of_their_thread();
    let place = step.thread as usize;
    if machine.stopped.is_some() || place >= machine.threads.len() {
        return Err(StepFault::NotEnabled);
    }
    let mut thread = machine.threads.replace(place, idle(alloc));
    let made = act(
        alloc,
        guest,
        machine,
        step.thread,
        &mut thread,
        &step.choice,
    );
    machine.threads.replace(place, thread);
    made
}

/// What stands in the place of the thread that acts.
fn idle(alloc: Global) -> Thread
    ensures { result.doing ≡ doings.Running }
{
    Thread {
        frames: Frames::new(alloc),
        to_begin: List::new(alloc),
        doing: Doing::Running,
    }
}

/// What the thread does by this choice.
fn act(
    alloc: Global,
    guest: &Guest,
    machine: &mut RunningMachine,
    number: u32,
    thread: &mut Thread,
    choice: &Choice,
) -> Result<Option<Event>, StepFault>
    ensures { ActsIn result machine.old machine.new thread.old thread.new
        (doing_stepped guest.now machine.old number thread.old thread.old.doing choice.now) }
{
    let doing = std::mem::replace(&mut thread.doing, Doing::Running);
    let made = act_as(alloc, guest, machine, number, thread, &doing, choice);
    give_back(thread, doing, made.is_err());
    made
}

/// The thread does again what it did, where its step is refused.
fn give_back(thread: &mut Thread, doing: Doing, is_refused: bool)
    ensures { thread.new ≡ (if is_refused then doing_this thread.old doing else thread.old) }
{
    if is_refused {
        thread.doing = doing;
    }
}

/// The same of a thread whose doing stands apart.
fn act_as(
    alloc: Global,
    guest: &Guest,
    machine: &mut RunningMachine,
    number: u32,
    thread: &mut Thread,
    doing: &Doing,
    choice: &Choice,
) -> Result<Option<Event>, StepFault>
    ensures { ActsIn result machine.old machine.new thread.old thread.new
        (doing_stepped guest.now machine.old number thread.old doing.now choice.now) }
{
    match doing {
        Doing::Running => run(alloc, guest, machine, number, thread, choice),
        Doing::InCall {
            method,
            receiver,
            args,
        } => {
            let call = InCall {
                number,
                method: *method,
                receiver: *receiver,
                args: args.as_slice(),
            };
            step_in_call(alloc, guest, machine, thread, &call, choice)
        }
        Doing::Ended => Err(StepFault::NotEnabled),
    }
}

/// A thread that runs makes a plain step.
fn run(
    alloc: Global,
    guest: &Guest,
    machine: &mut RunningMachine,
    number: u32,
    thread: &mut Thread,
    choice: &Choice,
) -> Result<Option<Event>, StepFault>
    ensures { ActsIn result machine.old machine.new thread.old thread.new
        (running_stepped guest.now machine.old number thread.old choice.now) }
{
    match choice {
        Choice::Plain => run_next(alloc, guest, machine, number, thread),
        Choice::Answer(_) => Err(StepFault::NotEnabled),
    }
}

/// The instruction that comes next in the frame, and what its operand names.
pub fn insn_at<'a>(guest: &'a Guest, frame: &Frame) -> Option<(&'a Insn, &'a Target)>
    ensures is { option_map (λ (next : Bor Insn × Bor Target). (next.0.now, next.1.now)) result ≡ insn_at guest.now frame.now }
    ensures few { IfSome result (λ (next : Bor Insn × Bor Target). frame.now.at < 2 ^ 16) }
{
    let method = method_of(guest.indexed(), frame.class, frame.method)?;
    let insn = method.insns.as_slice().get(frame.at as usize)?;
    let target = method.refs.as_slice().get(frame.at as usize)?;
    Some((insn, target))
}

/// What an instruction does with more than its frame.
pub fn heap_in(shape: Shape) -> Option<Heap>
    ensures { result ≡ heap_in shape }
{
    match shape {
        Shape::Heap(what) => Some(what),
        Shape::Nothing
        | Shape::Push(_)
        | Shape::PushNull
        | Shape::Load { .. }
        | Shape::Store { .. }
        | Shape::Move(_)
        | Shape::Two(_)
        | Shape::One(_)
        | Shape::Increment { .. }
        | Shape::Test { .. }
        | Shape::Compare { .. }
        | Shape::CompareReferences { .. }
        | Shape::TestNull { .. }
        | Shape::Goto { .. }
        | Shape::Switch => None,
    }
}

/// The next instruction of the top frame.
fn run_next(
    alloc: Global,
    guest: &Guest,
    machine: &mut RunningMachine,
    number: u32,
    thread: &mut Thread,
) -> Result<Option<Event>, StepFault>
    ensures { ActsIn result machine.old machine.new thread.old thread.new
        (frames_stepped guest.now machine.old number thread.old thread.old.frames) }
{
    let Some(frame) = thread.frames.top() else {
        return Err(StepFault::NotEnabled);
    };
    let Some((insn, target)) = insn_at(guest, frame) else {
        return Err(StepFault::NotEnabled);
    };
    match heap_in(shape_of(insn)) {
        Some(what) => run_heap(alloc, guest, machine, number, thread, what, target),
        None => unseen(run_alone(thread, insn)),
    }
}

/// The same answer, of what the library does not see.
fn unseen(made: Result<(), StepFault>) -> Result<Option<Event>, StepFault>
    ensures { result ≡ unseen made }
{
    match made {
        Ok(()) => Ok(None),
        Err(fault) => Err(fault),
    }
}

/// The instruction changes the top frame alone.
fn run_alone(thread: &mut Thread, insn: &Insn) -> Result<(), StepFault>
    requires { StandsInCode thread.old.frames }
    ensures { Becomes result thread.old thread.new (thread_stepped thread.old thread.old.frames insn.now) }
{
    if thread.frames.top().is_none() {
        return Err(StepFault::NotEnabled);
    }
    step_frame(thread.frames.top_mut(), insn)?;
    thread.doing = Doing::Running;
    Ok(())
}

/// The instruction changes the frame alone.
fn step_frame(frame: &mut Frame, insn: &Insn) -> Result<(), StepFault>
    requires { frame.old.at < 2 ^ 16 }
    ensures { Becomes result frame.old frame.new (frame_stepped insn.now frame.old) }
{
    if local_step(frame, insn) {
        Ok(())
    } else {
        Err(StepFault::NotEnabled)
    }
}

/// The instruction works on more than its frame.
fn run_heap(
    alloc: Global,
    guest: &Guest,
    machine: &mut RunningMachine,
    number: u32,
    thread: &mut Thread,
    what: Heap,
    target: &Target,
) -> Result<Option<Event>, StepFault>
    requires { StandsInCode thread.old.frames }
    ensures { ActsIn result machine.old machine.new thread.old thread.new (acting number thread.old thread.old.frames
        (λ (a : Acting). heap_stepped guest.now machine.old a what target.now)) }
{
    let program = guest.indexed();
    match what {
        Heap::Throw => act_on_top(alloc, program, machine, number, thread, OnTop::Throw),
        Heap::Enter => act_on_top(alloc, program, machine, number, thread, OnTop::Enter),
        Heap::Exit => act_on_top(alloc, program, machine, number, thread, OnTop::Leave),
        Heap::Return(kind) => return_from(alloc, program, machine, number, thread, kind),
        Heap::Call(how) => call(alloc, guest, machine, number, thread, how, target),
        Heap::Constant
        | Heap::ReadItem(_)
        | Heap::WriteItem(_)
        | Heap::Divide { .. }
        | Heap::ReadStatic
        | Heap::WriteStatic
        | Heap::ReadField
        | Heap::WriteField
        | Heap::New
        | Heap::NewArray(_)
        | Heap::NewArrayOf
        | Heap::Length
        | Heap::Cast
        | Heap::IsInstance => run_operation(alloc, guest, machine, number, thread, what, target),
    }
}

/// The thread with this number takes the answer, for which there is memory. The heap stands apart.
pub fn step_prepared(
    alloc: Global,
    guest: &Guest,
    machine: &mut RunningMachine,
    heap: &mut Vec<Object>,
    number: u32,
    answer: &ApiAnswer,
    rooms: &mut Rooms,
) -> Result<Option<Event>, StepFault>
    requires place { TakesOne heap.old }
    requires prepared { IsPrepared guest.now (with_objects machine.old heap.old.items) number rooms.old }
    ensures did { Did result (with_objects machine.old heap.old.items) (with_objects machine.new heap.new.items)
        (stepped guest.now (with_objects machine.old heap.old.items) (record { thread = number; choice = choices.Answer answer.now })) }
    ensures surely { result ≢ Err faults.Memory }
{
    let place = number as usize;
    if machine.stopped.is_some() || place >= machine.threads.len() {
        return Err(StepFault::NotEnabled);
    }
    let mut thread = machine.threads.replace(place, idle(alloc));
    let made = act_prepared(
        alloc,
        guest,
        machine,
        heap,
        number,
        &mut thread,
        answer,
        rooms,
    );
    machine.threads.replace(place, thread);
    made
}

/// What the thread does by this answer.
fn act_prepared(
    alloc: Global,
    guest: &Guest,
    machine: &mut RunningMachine,
    heap: &mut Vec<Object>,
    number: u32,
    thread: &mut Thread,
    answer: &ApiAnswer,
    rooms: &mut Rooms,
) -> Result<Option<Event>, StepFault>
    requires place { TakesOne heap.old }
    requires ready { IsReadyFor guest.now (world_of (with_objects machine.old heap.old.items)) thread.old thread.old.doing rooms.old }
    ensures acts { ActsIn result (with_objects machine.old heap.old.items) (with_objects machine.new heap.new.items) thread.old thread.new
        (doing_stepped guest.now (with_objects machine.old heap.old.items) number thread.old thread.old.doing (choices.Answer answer.now)) }
    ensures surely { result ≢ Err faults.Memory }
{
    let doing = std::mem::replace(&mut thread.doing, Doing::Running);
    let made = answer_prepared(
        alloc, guest, machine, heap, number, thread, &doing, answer, rooms,
    );
    give_back(thread, doing, made.is_err());
    made
}

/// The same of a thread whose doing stands apart.
fn answer_prepared(
    alloc: Global,
    guest: &Guest,
    machine: &mut RunningMachine,
    heap: &mut Vec<Object>,
    number: u32,
    thread: &mut Thread,
    doing: &Doing,
    answer: &ApiAnswer,
    rooms: &mut Rooms,
) -> Result<Option<Event>, StepFault>
    requires place { TakesOne heap.old }
    requires ready { IsReadyFor guest.now (world_of (with_objects machine.old heap.old.items)) thread.old doing.now rooms.old }
    ensures acts { ActsIn result (with_objects machine.old heap.old.items) (with_objects machine.new heap.new.items) thread.old thread.new
        (doing_stepped guest.now (with_objects machine.old heap.old.items) number thread.old doing.now (choices.Answer answer.now)) }
    ensures surely { result ≢ Err faults.Memory }
{
    match doing {
        Doing::InCall {
            method,
            receiver,
            args,
        } => {
            let call = InCall {
                number,
                method: *method,
                receiver: *receiver,
                args: args.as_slice(),
            };
            take_if_fit(alloc, guest, machine, heap, thread, &call, answer, rooms)
        }
        Doing::Running | Doing::Ended => Err(StepFault::NotEnabled),
    }
}
