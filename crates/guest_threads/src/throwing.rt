//! What throwing does: frames are left until one has a handler. (The Java Virtual Machine Specification, section 2.10.)

ghost use Rattle.std.specs.Option.{option_map_or};
ghost use Rattle.std.specs.Prelude.{IfOk, List, OnErr, OnOk, Some, [], drop, find, length, option_map, true, ℕ, ◌++◌, ◌∷◌, ◌≡◌};
ghost use Rattle.bytecode_model.specs.Classes.{is_below};
ghost use Rattle.bytecode_model.specs.declared.program.Handler.{Handler};
ghost use Rattle.guest_frames.specs.Became.{Became};
ghost use Rattle.guest_model.specs.Changes.{throws_new, world_of};
ghost use Rattle.guest_model.specs.Monitors.{all_given_up};
ghost use Rattle.guest_model.specs.Parts.{thrown_thread};
ghost use Rattle.guest_model.specs.Throwing.{bare_object, catches, caught_in, handler_of, locks_left, unwound};
ghost use Rattle.guest_threads.specs.Acts.{ActsIn, lock_on_top};

use crate::frames::method_at;
use crate::machine::RunningMachine;
use crate::monitors::Monitors;
use api_listing::Event;
use bytecode_model::{Handler, Handlers};
use guest_heap::{Doing, Frame, Frames, Object, Thread, Value, new_object};
use guest_model::StepFault;
use mon_base::{Bytes, List, NoMemory};
use std::alloc::Global;
use type_lattice::{Indexed, is_below};

/// Whether the handler catches an exception of the class that is thrown at this instruction.
fn catches(program: &Indexed, at: u32, class: &[u8], handler: &Handler) -> bool
    ensures { result ≡ catches program.now at class.now handler.now }
{
    handler.covers(at) && is_of_class(program, class, &handler.class)
}

/// Whether the class is below the one that is caught, if one is told.
fn is_of_class(program: &Indexed, class: &[u8], caught: &Option<Bytes>) -> bool
    ensures { result ≡ option_map_or (λ (name : List ℕ). is_below program.now class.now name) caught.now true }
{
    let Some(name) = caught else {
        return true;
    };
    is_below(program, class, name.as_slice())
}

/// Where the first of the handlers begins that catches an exception of the class, thrown at this instruction.
fn first_catching(program: &Indexed, handlers: &Handlers, at: u32, class: &[u8]) -> Option<u32>
    ensures { result ≡ option_map (λ (h : Handler). h.at) (find (catches program.now at class.now) handlers.now) }
{
    let mut near = handlers.near(at);
    while let Some(handler) = near.next() {
        if catches(program, at, class, handler) {
            return Some(handler.at);
        }
    }
    None
}

/// Where the frame goes on if an exception of the class is thrown in it.
fn handler_at(program: &Indexed, frame: &Frame, class: &[u8]) -> Option<u32>
    ensures { result ≡ option_map (λ (h : Handler). h.at) (handler_of program.now frame.now class.now) }
{
    let method = method_at(program.program(), frame.class, frame.method)?;
    first_catching(program, &method.handlers, frame.at, class)
}

/// The frame goes on at its handler, with the exception alone on its stack, where it has one; and whether it has.
fn catch_in(program: &Indexed, frame: &mut Frame, thrown: Value, class: &[u8]) -> bool
    ensures { Became result frame.old frame.new (caught_in program.now thrown class.now frame.old) }
{
    let Some(at) = handler_at(program, frame, class) else {
        return false;
    };
    if frame.stack.size() == 0 {
        return false;
    }
    frame.at = at;
    frame.stack.drop_top(frame.stack.len());
    frame.stack.push(thrown);
    true
}

/// The top frame is left, and its lock is given up.
pub fn leave_top(monitors: &mut Monitors, number: u32, frames: &mut Frames)
    ensures left { frames.new ≡ drop 1 frames.old }
    ensures given { monitors.new ≡ all_given_up monitors.old number (lock_on_top frames.old) }
{
    if let Some(frame) = frames.pop() {
        monitors.give_up(number, frame.lock);
    }
}

/// Frames are left, and their locks are given up, until one has a handler.
fn unwind(
    program: &Indexed,
    monitors: &mut Monitors,
    number: u32,
    frames: &mut Frames,
    thrown: Value,
    class: &[u8],
)
    ensures frames { frames.new ≡ unwound program.now thrown class.now frames.old }
    ensures locks { monitors.new ≡ all_given_up monitors.old number (locks_left program.now thrown class.now frames.old) }
{
    while frames.top().is_some() {
        if catch_in(program, frames.top_mut(), thrown, class) {
            return;
        }
        leave_top(monitors, number, frames);
    }
}

/// The object, which is of the class, is thrown. A thread without a handler has ended.
pub fn throw(
    alloc: Global,
    program: &Indexed,
    monitors: &mut Monitors,
    number: u32,
    thread: &mut Thread,
    thrown: Value,
    class: &[u8],
)
    ensures monitors { monitors.new ≡ all_given_up monitors.old number (locks_left program.now thrown class.now thread.old.frames) }
    ensures thread { thread.new ≡ thrown_thread (unwound program.now thrown class.now thread.old.frames) thread.old.to_begin }
{
    unwind(program, monitors, number, &mut thread.frames, thrown, class);
    if thread.frames.top().is_some() {
        thread.doing = Doing::Running;
    } else {
        thread.to_begin = List::new(alloc);
        thread.doing = Doing::Ended;
    }
}

/// A new object of the class is thrown.
pub fn throw_new(
    alloc: Global,
    program: &Indexed,
    machine: &mut RunningMachine,
    number: u32,
    thread: &mut Thread,
    class: &[u8],
    event: Option<Event>,
) -> Result<Option<Event>, StepFault>
    ensures { ActsIn result machine.old machine.new thread.old thread.new
        (Some (throws_new program.now (world_of machine.old) number thread.old thread.old.frames class.now event)) }
{
    let at = push_object(alloc, &mut machine.heap, class)?;
    throw(
        alloc,
        program,
        &mut machine.monitors,
        number,
        thread,
        Value::Ref(at),
        class,
    );
    Ok(event)
}

/// A new object of the class, without fields, and its index.
pub fn push_object(alloc: Global, heap: &mut List<Object>, class: &[u8]) -> Result<u32, NoMemory>
    ensures index { IfOk result (λ at. at ≡ length heap.old) }
    ensures ok { OnOk result (heap.new ≡ heap.old ++ bare_object class.now ∷ []) }
    ensures err { OnErr result (heap.new ≡ heap.old) }
{
    if heap.len() >= u32::MAX as usize {
        return Err(NoMemory);
    }
    let object = bare_object(alloc, class)?;
    new_object(heap, object)
}

/// An object of the class without fields.
fn bare_object(alloc: Global, class: &[u8]) -> Result<Object, NoMemory>
    ensures { IfOk result (λ object. object ≡ bare_object class.now) }
{
    let class = Bytes::from_slice(alloc, class)?;
    Ok(Object::Plain {
        class,
        fields: List::new(alloc),
        target: Value::Null,
        thread: None,
    })
}
