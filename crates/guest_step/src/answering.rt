//! The library's answers to calls: which fit, and what they give. (docs/MACHINE.md)

ghost use Rattle.std.specs.Option.{option_map_or};
ghost use Rattle.std.specs.Prelude.{Some, [], length, option_map, true, vec_capacity, vec_len, ◌<◌, ◌≡◌, ◌≢◌, ◌≤◌};
ghost use Rattle.bytecode_model.specs.declared.program.Program.{Program};
ghost use Rattle.guest_frames.specs.Became.{Became};
ghost use Rattle.guest_heap.specs.declared.thread.Thread.{Thread};
ghost use Rattle.guest_heap.specs.declared.value.Value.TheVariants as values;
ghost use Rattle.guest_model.specs.declared.fault.StepFault.TheVariants as faults;
ghost use Rattle.guest_model.specs.declared.machine.Choice.TheVariants as choices;
ghost use Rattle.guest_model.specs.Answering.{answered, answered_well, method_takes, returned_by, thrown_by_library};
ghost use Rattle.guest_model.specs.Changes.{with_heap, with_object, world_of};
ghost use Rattle.guest_model.specs.Seen.{bytes_shown, value_shown};
ghost use Rattle.guest_model.specs.Stepping.{call_stepped, is_on_null};
ghost use Rattle.guest_model.specs.Throwing.{bare_object};
ghost use Rattle.guest_step.specs.Rooms.{CanReturn, HaveRoom, TakesOne, bytes_of_result, value_given, with_objects};
ghost use Rattle.guest_threads.specs.Acts.{Acted, ActsIn, StandsLow, thread_returned};

use crate::fitting::fits_call;
use crate::making_room::{make_room, put_objects, take_objects};
use crate::rooms::{Rooms, Spare};
use api_listing::{ApiAnswer, ApiValue, Event};
use guest_frames::is_null;
use guest_heap::{Object, Thread, Value};
use guest_model::{Choice, StepFault, Thrown};
use guest_tables::{Guest, bytes_shown, shown_with};
use guest_threads::{RunningMachine, resume_in_frame, throw, throw_new};
use mon_base::{Bytes, List};
use std::alloc::Global;

/// A call of the library by the thread with this number, which is in it: the method, its receiver and its arguments.
#[derive(Clone, Copy)]
pub struct InCall<'a> {
    pub number: u32,
    pub method: u32,
    pub receiver: Option<Value>,
    pub args: &'a [Value],
}

/// The caller goes on with what is given, and the library sees the return. The heap stands apart.
fn finish(
    alloc: Global,
    guest: &Guest,
    machine: &RunningMachine,
    heap: &[Object],
    thread: &mut Thread,
    call: &InCall,
    value: Option<Value>,
    rooms: &mut Rooms,
) -> Option<Option<Event>>
    requires event { length (bytes_of_result guest.now (with_heap (world_of machine.now) heap.now, value))
        ≤ vec_capacity rooms.old.event.bytes }
    requires returns { CanReturn guest.now thread.old rooms.old }
    ensures { Acted result (with_objects machine.now heap.now) (with_objects machine.now heap.now) thread.old thread.new
        (returned_by guest.now call.now.number thread.old call.now.method (with_heap (world_of machine.now) heap.now, value)) }
{
    let shown = shown_if_any(alloc, guest, heap, value, &mut rooms.event);
    if !return_to(thread, value, &mut rooms.rested) {
        return None;
    }
    Some(Some(Event::Return {
        thread: call.number,
        method: call.method,
        value: shown,
    }))
}

/// What the library sees of a result, for whose bytes there is memory.
fn shown_if_any(
    alloc: Global,
    guest: &Guest,
    heap: &[Object],
    value: Option<Value>,
    room: &mut Spare,
) -> Option<ApiValue>
    requires { length (option_map_or (bytes_shown guest.now heap.now) value []) ≤ vec_capacity room.old.bytes }
    ensures { result ≡ option_map (value_shown guest.now heap.now) value }
{
    match value {
        Some(value) => {
            let copy = room.copy(alloc, bytes_shown(guest, heap, value));
            Some(shown_with(guest, heap, value, copy))
        }
        None => None,
    }
}

/// The thread goes on in its top frame with the result, or rests where it has none; and whether it does.
fn return_to(thread: &mut Thread, value: Option<Value>, rested: &mut Option<Thread>) -> bool
    requires stands { StandsLow thread.old.frames }
    ensures framed { 0 < length thread.old.frames
        → (program : Program) → Became result thread.old thread.new (thread_returned program thread.old thread.old.frames value) }
    ensures rests { (after : Thread) → thread.old.frames ≡ [] → rested.old ≡ Some after → (result ≡ true) × (thread.new ≡ after) }
{
    if thread.frames.top().is_some() {
        return resume_in_frame(thread, value);
    }
    if let Some(after) = rested.take() {
        *thread = after;
    }
    true
}

/// The same with a new object, which is taken back where the caller does not go on.
fn finish_with(
    alloc: Global,
    guest: &Guest,
    machine: &RunningMachine,
    heap: &mut Vec<Object>,
    thread: &mut Thread,
    call: &InCall,
    object: Object,
    rooms: &mut Rooms,
) -> Option<Option<Event>>
    requires one { TakesOne heap.old }
    requires event { length (bytes_of_result guest.now (
      with_object (with_heap (world_of machine.now) heap.old.items) object,
      Some (values.Ref (vec_len heap.old)),
    )) ≤ vec_capacity rooms.old.event.bytes }
    requires returns { CanReturn guest.now thread.old rooms.old }
    ensures { Acted result (with_objects machine.now heap.old.items) (with_objects machine.now heap.new.items) thread.old thread.new
        (returned_by guest.now call.now.number thread.old call.now.method
        (with_object (with_heap (world_of machine.now) heap.old.items) object, Some (values.Ref (vec_len heap.old)))) }
{
    let at = heap.len() as u32;
    heap.push(object).unwrap();
    let value = Some(Value::Ref(at));
    let objects = heap.as_slice();
    let made = finish(alloc, guest, machine, objects, thread, call, value, rooms);
    if made.is_none() {
        heap.pop();
    }
    made
}

/// The library throws an object of the class, whose name this is, and sees that it did.
fn throw_made(
    alloc: Global,
    guest: &Guest,
    machine: &mut RunningMachine,
    heap: &mut Vec<Object>,
    thread: &mut Thread,
    call: &InCall,
    class: &[u8],
    name: Bytes,
) -> Option<Option<Event>>
    requires one { TakesOne heap.old }
    requires named { name ≡ class.now }
    ensures { Acted result (with_objects machine.old heap.old.items) (with_objects machine.new heap.new.items) thread.old thread.new
        (thrown_by_library guest.now (with_heap (world_of machine.old) heap.old.items) call.now.number thread.old call.now.method
        class.now) }
{
    let at = heap.len() as u32;
    heap.push(bare_object(alloc, name)).unwrap();
    throw(
        alloc,
        guest.indexed(),
        &mut machine.monitors,
        call.number,
        thread,
        Value::Ref(at),
        class,
    );
    Some(Some(Event::Except {
        thread: call.number,
        method: call.method,
    }))
}

/// The answer, which fits, is taken. What it makes finds memory, so that want of memory refuses nothing.
pub fn take(
    alloc: Global,
    guest: &Guest,
    machine: &mut RunningMachine,
    heap: &mut Vec<Object>,
    thread: &mut Thread,
    call: &InCall,
    answer: &ApiAnswer,
    rooms: &mut Rooms,
) -> Option<Option<Event>>
    requires one { TakesOne heap.old }
    requires returns { CanReturn guest.now thread.old rooms.old }
    requires room { HaveRoom guest.now (with_heap (world_of machine.old) heap.old.items) call.now.receiver call.now.args.now
        rooms.old answer.now }
    ensures { Acted result (with_objects machine.old heap.old.items) (with_objects machine.new heap.new.items) thread.old thread.new
        (answered_well guest.now (with_heap (world_of machine.old) heap.old.items) call.now.number thread.old call.now.method
        call.now.receiver call.now.args.now answer.now) }
{
    match answer {
        ApiAnswer::Text(text) => {
            let object = Object::Text(rooms.object.copy(alloc, text.as_slice()));
            finish_with(alloc, guest, machine, heap, thread, call, object, rooms)
        }
        ApiAnswer::Fresh(class) => {
            let object = bare_object(alloc, rooms.object.copy(alloc, class.as_slice()));
            finish_with(alloc, guest, machine, heap, thread, call, object, rooms)
        }
        ApiAnswer::Throws(class) => {
            let name = rooms.object.copy(alloc, class.as_slice());
            throw_made(
                alloc,
                guest,
                machine,
                heap,
                thread,
                call,
                class.as_slice(),
                name,
            )
        }
        ApiAnswer::Nothing
        | ApiAnswer::Int(_)
        | ApiAnswer::Null
        | ApiAnswer::Arg(_)
        | ApiAnswer::Receiver => {
            let Some(value) = given(call, answer) else {
                return None;
            };
            finish(
                alloc,
                guest,
                machine,
                heap.as_slice(),
                thread,
                call,
                value,
                rooms,
            )
        }
    }
}

/// The answer is taken where it fits and the receiver is not null; what it makes finds memory.
pub fn take_if_fit(
    alloc: Global,
    guest: &Guest,
    machine: &mut RunningMachine,
    heap: &mut Vec<Object>,
    thread: &mut Thread,
    call: &InCall,
    answer: &ApiAnswer,
    rooms: &mut Rooms,
) -> Result<Option<Event>, StepFault>
    requires one { TakesOne heap.old }
    requires returns { CanReturn guest.now thread.old rooms.old }
    requires room { method_takes guest.now heap.old.items call.now.method call.now.receiver call.now.args.now answer.now ≡ true
        → HaveRoom guest.now (with_heap (world_of machine.old) heap.old.items) call.now.receiver call.now.args.now rooms.old answer.now }
    ensures acts { ActsIn result (with_objects machine.old heap.old.items) (with_objects machine.new heap.new.items) thread.old thread.new
        (call_stepped guest.now (with_heap (world_of machine.old) heap.old.items) call.now.number thread.old call.now.method
        call.now.receiver call.now.args.now (choices.Answer answer.now)) }
    ensures surely { result ≢ Err faults.Memory }
{
    if is_on_null(call.receiver) {
        return Err(StepFault::NotEnabled);
    }
    let objects = heap.as_slice();
    if !fits_call(
        guest,
        objects,
        call.method,
        call.receiver,
        call.args,
        answer,
    ) {
        return Err(StepFault::NotEnabled);
    }
    match take(alloc, guest, machine, heap, thread, call, answer, rooms) {
        Some(event) => Ok(event),
        None => Err(StepFault::NotEnabled),
    }
}

/// The result that an answer gives without a new object.
fn given(call: &InCall, answer: &ApiAnswer) -> Option<Option<Value>>
    ensures { result ≡ value_given call.now.receiver call.now.args.now answer.now }
{
    match answer {
        ApiAnswer::Int(n) => Some(Some(Value::Int(*n))),
        ApiAnswer::Null => Some(Some(Value::Null)),
        ApiAnswer::Arg(i) => match call.args.get(*i as usize) {
            Some(value) => Some(Some(*value)),
            None => None,
        },
        ApiAnswer::Receiver => match call.receiver {
            Some(value) => Some(Some(value)),
            None => None,
        },
        ApiAnswer::Nothing | ApiAnswer::Text(_) | ApiAnswer::Fresh(_) | ApiAnswer::Throws(_) =>
            Some(None),
    }
}

/// An object that was just made of the class with this name, without fields.
fn bare_object(alloc: Global, class: Bytes) -> Object
    ensures { result ≡ bare_object class }
{
    Object::Plain {
        class,
        fields: List::new(alloc),
        target: Value::Null,
        thread: None,
    }
}

/// The library throws, and sees that it did.
fn throw_in_call(
    alloc: Global,
    guest: &Guest,
    machine: &mut RunningMachine,
    thread: &mut Thread,
    call: &InCall,
    class: &[u8],
) -> Result<Option<Event>, StepFault>
    ensures { ActsIn result machine.old machine.new thread.old thread.new
        (thrown_by_library guest.now (world_of machine.old) call.now.number thread.old call.now.method class.now) }
{
    let event = Event::Except {
        thread: call.number,
        method: call.method,
    };
    throw_new(
        alloc,
        guest.indexed(),
        machine,
        call.number,
        thread,
        class,
        Some(event),
    )
}

/// Memory for this answer is taken, and then the answer.
fn take_at_once(
    alloc: Global,
    guest: &Guest,
    machine: &mut RunningMachine,
    thread: &mut Thread,
    call: &InCall,
    answer: &ApiAnswer,
) -> Result<Option<Event>, StepFault>
    ensures { ActsIn result machine.old machine.new thread.old thread.new
        (answered_well guest.now (world_of machine.old) call.now.number thread.old call.now.method call.now.receiver
        call.now.args.now answer.now) }
{
    let mut heap = take_objects(alloc, machine);
    let made = take_apart(alloc, guest, machine, &mut heap, thread, call, answer);
    put_objects(machine, heap);
    made
}

/// The same where the heap stands apart.
fn take_apart(
    alloc: Global,
    guest: &Guest,
    machine: &mut RunningMachine,
    heap: &mut Vec<Object>,
    thread: &mut Thread,
    call: &InCall,
    answer: &ApiAnswer,
) -> Result<Option<Event>, StepFault>
    ensures { ActsIn result (with_objects machine.old heap.old.items) (with_objects machine.new heap.new.items) thread.old thread.new
        (answered_well guest.now (with_heap (world_of machine.old) heap.old.items) call.now.number thread.old call.now.method
        call.now.receiver call.now.args.now answer.now) }
{
    let mut rooms = Rooms::new(alloc);
    make_room(alloc, guest, heap, thread, call, answer, &mut rooms)?;
    match take(
        alloc, guest, machine, heap, thread, call, answer, &mut rooms,
    ) {
        Some(event) => Ok(event),
        None => Err(StepFault::NotEnabled),
    }
}

/// A thread in a call throws where the receiver is null, and else takes an answer that fits.
pub fn step_in_call(
    alloc: Global,
    guest: &Guest,
    machine: &mut RunningMachine,
    thread: &mut Thread,
    call: &InCall,
    choice: &Choice,
) -> Result<Option<Event>, StepFault>
    ensures { ActsIn result machine.old machine.new thread.old thread.new
        (call_stepped guest.now (world_of machine.old) call.now.number thread.old call.now.method call.now.receiver
        call.now.args.now choice.now) }
{
    let is_on_null = is_on_null(call.receiver);
    match choice {
        Choice::Plain => {
            if !is_on_null {
                return Err(StepFault::NotEnabled);
            }
            let class = Thrown::NullPointer.name();
            throw_in_call(alloc, guest, machine, thread, call, class)
        }
        Choice::Answer(answer) => {
            if is_on_null {
                return Err(StepFault::NotEnabled);
            }
            answer_call(alloc, guest, machine, thread, call, answer)
        }
    }
}

/// Whether the receiver is null.
pub fn is_on_null(receiver: Option<Value>) -> bool
    ensures { result ≡ is_on_null receiver }
{
    match receiver {
        Some(value) => is_null(value),
        None => false,
    }
}

/// The answer of the library, where it fits.
fn answer_call(
    alloc: Global,
    guest: &Guest,
    machine: &mut RunningMachine,
    thread: &mut Thread,
    call: &InCall,
    answer: &ApiAnswer,
) -> Result<Option<Event>, StepFault>
    ensures { ActsIn result machine.old machine.new thread.old thread.new
        (answered guest.now (world_of machine.old) call.now.number thread.old call.now.method call.now.receiver
        call.now.args.now answer.now) }
{
    let fits = fits_call(
        guest,
        machine.heap.as_slice(),
        call.method,
        call.receiver,
        call.args,
        answer,
    );
    if !fits {
        return Err(StepFault::NotEnabled);
    }
    take_at_once(alloc, guest, machine, thread, call, answer)
}
