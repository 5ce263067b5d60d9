//! Calls: what they take, and how they go on. (The Java Virtual Machine Specification, section 6.5, invokevirtual to
//! invokeinterface.)

ghost use Rattle.std.specs.Prelude.{Some, option_map, ◌≡◌};
ghost use Rattle.bytecode_model.specs.SearchOrder.{Name};
ghost use Rattle.guest_model.specs.Calling.{Calling, calls, calls_given, calls_library, calls_named, enters_on, lacked, lacking};
ghost use Rattle.guest_model.specs.Changes.{world_of};
ghost use Rattle.guest_model.specs.Finding.{method_run};
ghost use Rattle.guest_model.specs.Kinds.{class_of_value};
ghost use Rattle.guest_model.specs.Stepping.{Acting};
ghost use Rattle.guest_threads.specs.Acts.{ActsIn, acting};
ghost use Rattle.guest_threads.specs.Calls.{calling};

use crate::builtins::call_builtin;
use crate::running::run_target;
use api_listing::Event;
use bytecode_model::{Method, Target};
use guest_heap::{Doing, Object, Thread, Value};
use guest_model::{StepFault, Thrown, builtin_at, class_of_value, is_static_call};
use guest_tables::{Guest, is_run, method_run, values_shown};
use guest_threads::{Call, RunningMachine, call_throws, end_thread, enter_method, pass, wait};
use insn_codec::How;
use mon_base::List;
use std::alloc::Global;

/// The thread waits for the answer of the library, which sees the call.
pub fn call_library(
    alloc: Global,
    guest: &Guest,
    machine: &mut RunningMachine,
    thread: &mut Thread,
    call: Call,
    method: u32,
) -> Result<Option<Event>, StepFault>
    ensures { ActsIn result machine.old machine.new thread.old thread.new
        (calling call thread.old thread.old.frames (λ (c : Calling). Some (calls_library guest.now (world_of machine.old) c method))) }
{
    if thread.frames.top().is_none() {
        return Err(StepFault::NotEnabled);
    }
    let args = values_shown(
        alloc,
        guest,
        machine.heap.as_slice(),
        call.arguments.as_slice(),
    )?;
    wait(&mut thread.frames, call.taken);
    let Call {
        number,
        receiver,
        arguments,
        ..
    } = call;
    thread.doing = Doing::InCall {
        method,
        receiver,
        args: arguments,
    };
    Ok(Some(Event::Call {
        thread: number,
        method,
        args,
    }))
}

/// A class that lacks the method: of `run` what Thread does; of any other the thread ends.
fn call_lacking(
    alloc: Global,
    guest: &Guest,
    machine: &mut RunningMachine,
    thread: &mut Thread,
    call: &Call,
    method: &Method,
    on: Value,
) -> Result<Option<Event>, StepFault>
    ensures { ActsIn result machine.old machine.new thread.old thread.new
        (calling call.now thread.old thread.old.frames (λ (c : Calling). lacking guest.now (world_of machine.old) c method.now on)) }
{
    if is_run(method) {
        run_target(alloc, guest, machine, thread, call, on)
    } else {
        end_thread(alloc, machine, thread, call)
    }
}

/// What is done where the class has no such method.
fn call_lacked(
    alloc: Global,
    guest: &Guest,
    machine: &mut RunningMachine,
    thread: &mut Thread,
    call: &Call,
    how: How,
    method: &Method,
    on: Value,
) -> Result<Option<Event>, StepFault>
    ensures { ActsIn result machine.old machine.new thread.old thread.new
        (calling call.now thread.old thread.old.frames (λ (c : Calling). lacked guest.now (world_of machine.old) c how method.now on)) }
{
    match how {
        How::Virtual | How::Interface => {
            call_lacking(alloc, guest, machine, thread, call, method, on)
        }
        How::Special => end_thread(alloc, machine, thread, call),
        How::Static => Err(StepFault::NotEnabled),
    }
}

/// The given method that a call on the object runs, if its class has one; nothing of what is no object.
fn method_on(
    guest: &Guest,
    heap: &List<Object>,
    own: u32,
    how: How,
    to: (u32, u32),
    method: &Method,
    on: Value,
) -> Option<Option<(u32, u32)>>
    ensures { result ≡ option_map (λ (class : Name). method_run guest.now own how to method.now class) (class_of_value heap.now on) }
{
    match class_of_value(heap.as_slice(), on) {
        Some(class) => Some(method_run(guest, own, how, to, method, class)),
        None => None,
    }
}

/// The call of a given method on an object.
fn call_on(
    alloc: Global,
    guest: &Guest,
    machine: &mut RunningMachine,
    thread: &mut Thread,
    call: &Call,
    how: How,
    to: (u32, u32),
    method: &Method,
    on: Value,
) -> Result<Option<Event>, StepFault>
    ensures { ActsIn result machine.old machine.new thread.old thread.new
        (calling call.now thread.old thread.old.frames
        (λ (c : Calling). enters_on guest.now (world_of machine.old) c how to method.now on)) }
{
    let Some(frame) = thread.frames.top() else {
        return Err(StepFault::NotEnabled);
    };
    let own = frame.class;
    match method_on(guest, &machine.heap, own, how, to, method, on) {
        Some(Some(found)) => {
            let arguments = call.arguments.as_slice();
            enter_method(
                alloc,
                guest.indexed(),
                machine,
                thread,
                call,
                found,
                call.receiver,
                arguments,
            )
        }
        Some(None) => call_lacked(alloc, guest, machine, thread, call, how, method, on),
        None => Err(StepFault::NotEnabled),
    }
}

/// The call of a given method.
fn call_given(
    alloc: Global,
    guest: &Guest,
    machine: &mut RunningMachine,
    thread: &mut Thread,
    call: &Call,
    how: How,
    to: (u32, u32),
    method: &Method,
) -> Result<Option<Event>, StepFault>
    ensures { ActsIn result machine.old machine.new thread.old thread.new
        (calling call.now thread.old thread.old.frames
        (λ (c : Calling). calls_given guest.now (world_of machine.old) c how to method.now)) }
{
    match how {
        How::Static => {
            let arguments = call.arguments.as_slice();
            enter_method(
                alloc,
                guest.indexed(),
                machine,
                thread,
                call,
                to,
                None,
                arguments,
            )
        }
        How::Special | How::Virtual | How::Interface => match call.receiver {
            None => Err(StepFault::NotEnabled),
            Some(Value::Null) => {
                call_throws(
                    alloc,
                    guest.indexed(),
                    machine,
                    thread,
                    call,
                    Thrown::NullPointer.name(),
                )
            }
            Some(on) => call_on(alloc, guest, machine, thread, call, how, to, method, on),
        },
    }
}

/// The call of the method that is named.
fn call_named(
    alloc: Global,
    guest: &Guest,
    machine: &mut RunningMachine,
    thread: &mut Thread,
    call: Call,
    how: How,
    target: &Target,
) -> Result<Option<Event>, StepFault>
    ensures { ActsIn result machine.old machine.new thread.old thread.new
        (calling call thread.old thread.old.frames (λ (c : Calling). calls_named guest.now machine.old c how target.now)) }
{
    match target {
        Target::ApiMethod(index) => call_library(alloc, guest, machine, thread, call, *index),
        Target::Builtin(index) => match builtin_at(*index) {
            Some(builtin) => call_builtin(alloc, guest, machine, thread, &call, how, builtin),
            None => Err(StepFault::NotEnabled),
        },
        Target::Method {
            class,
            method: index,
        } => match guest.method(*class, *index) {
            Some(method) => {
                let to = (*class, *index);
                call_given(alloc, guest, machine, thread, &call, how, to, method)
            }
            None => Err(StepFault::NotEnabled),
        },
        Target::None
        | Target::Field { .. }
        | Target::ApiField(_)
        | Target::ClassName(_)
        | Target::Number(_)
        | Target::Literal(_) => Err(StepFault::NotEnabled),
    }
}

/// The call that the top frame makes, of the method that is named.
pub fn call(
    alloc: Global,
    guest: &Guest,
    machine: &mut RunningMachine,
    number: u32,
    thread: &mut Thread,
    how: How,
    target: &Target,
) -> Result<Option<Event>, StepFault>
    ensures { ActsIn result machine.old machine.new thread.old thread.new
        (acting number thread.old thread.old.frames
        (λ (a : Acting). calls guest.now machine.old a.number a.thread a.frame a.below how target.now)) }
{
    let Some(count) = guest.arity(target) else {
        return Err(StepFault::NotEnabled);
    };
    let Some(frame) = thread.frames.top() else {
        return Err(StepFault::NotEnabled);
    };
    let Some(call) = pass(alloc, number, is_static_call(how), count, &frame.stack)? else {
        return Err(StepFault::NotEnabled);
    };
    call_named(alloc, guest, machine, thread, call, how, target)
}
