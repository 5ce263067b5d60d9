//! Taking memory for an answer of the library before it is taken.

ghost use Rattle.std.specs.Option.{option_map_or};
ghost use Rattle.std.specs.Prelude.{IfOk, OnOk, Some, [], length, ◌≡◌, ◌≤◌};
ghost use Rattle.guest_model.specs.Changes.{World, rests};
ghost use Rattle.guest_model.specs.Seen.{bytes_shown};
ghost use Rattle.guest_step.specs.Rooms.{
  CanReturn,
  EachShowsAtMost,
  HaveRoom,
  IsPrepared,
  ShowsAtMost,
  TakesOne,
  bytes_given,
  bytes_made,
  longest_name,
  with_objects,
};
ghost use Rattle.guest_threads.specs.Acts.{StandsLow};

use crate::answering::InCall;
use crate::rooms::Rooms;
use api_listing::{ApiAnswer, ListedClass};
use guest_heap::{Doing, Frames, Object, Thread, Value};
use guest_model::answers_are_permitted;
use guest_tables::{Guest, bytes_shown};
use guest_threads::{MachineView, RunningMachine, rest};
use mon_base::{List, NoMemory};
use std::alloc::Global;

/// The most bytes of a text that the library may answer.
const LONGEST_TEXT: usize = 65535;

/// Takes memory for this answer.
pub fn make_room(
    alloc: Global,
    guest: &Guest,
    heap: &mut Vec<Object>,
    thread: &Thread,
    call: &InCall,
    answer: &ApiAnswer,
    rooms: &mut Rooms,
) -> Result<(), NoMemory>
    ensures heap { heap.new.items ≡ heap.old.items }
    ensures one { OnOk result (TakesOne heap.new) }
    ensures returns { OnOk result (CanReturn guest.now thread.now rooms.new) }
    ensures room { OnOk result ((world : World) → world.heap ≡ heap.old.items
        → HaveRoom guest.now world call.now.receiver call.now.args.now rooms.new answer.now) }
{
    rooms.object.reserve(length_made(answer))?;
    rooms
        .event
        .reserve(length_given(guest, heap.as_slice(), call, answer))?;
    make_place(heap)?;
    rooms.rested = ready_to_return(alloc, guest, thread)?;
    Ok(())
}

/// Takes memory for whatever the library answers to the call of the thread with this number.
pub fn make_rooms(
    alloc: Global,
    guest: &Guest,
    machine: &MachineView,
    number: u32,
    longest: usize,
    rooms: &mut Rooms,
) -> Result<(), NoMemory>
    requires { longest ≡ longest_name guest.now.listing.classes }
    ensures { OnOk result (IsPrepared guest.now machine.now number rooms.new) }
{
    answers_are_permitted();
    let Some(thread) = machine.threads().get(number as usize) else {
        return Ok(());
    };
    rooms.rested = ready_to_return(alloc, guest, thread)?;
    let most = longest.max(LONGEST_TEXT);
    rooms.object.reserve(most)?;
    rooms.event.reserve(most_shown(guest, machine.heap().as_slice(), &thread.doing, most))?;
    Ok(())
}

/// The most bytes in what the library sees of an object with so many, or of the receiver and the arguments of the thread's call.
fn most_shown(guest: &Guest, heap: &[Object], doing: &Doing, least: usize) -> usize
    ensures least { least ≤ result }
    ensures most { ShowsAtMost guest.now heap.now doing.now result }
{
    match doing {
        Doing::Running | Doing::Ended => least,
        Doing::InCall { receiver, args, .. } => {
            let most = least.max(length_shown(guest, heap, *receiver));
            most_of_all(guest, heap, args.as_slice(), most)
        }
    }
}

/// The same of the arguments.
fn most_of_all(guest: &Guest, heap: &[Object], args: &[Value], least: usize) -> usize
    ensures least { least ≤ result }
    ensures most { EachShowsAtMost guest.now heap.now args.now result }
{
    let mut most = least;
    for value in args {
        most = most.max(bytes_shown(guest, heap, *value).len());
    }
    most
}

/// The length of the longest name among the classes of a listing.
pub fn longest_name(classes: &[ListedClass]) -> usize
    ensures { result ≡ longest_name classes.now }
{
    let mut longest = 0usize;
    let mut left = classes;
    while let [class, rest @ ..] = left {
        longest = longest.max(class.name.len());
        left = rest;
    }
    longest
}

/// The number of bytes in the object that the answer makes.
fn length_made(answer: &ApiAnswer) -> usize
    ensures { result ≡ length (bytes_made answer.now) }
{
    match answer {
        ApiAnswer::Text(text) => text.len(),
        ApiAnswer::Fresh(class) | ApiAnswer::Throws(class) => class.len(),
        ApiAnswer::Nothing
        | ApiAnswer::Int(_)
        | ApiAnswer::Null
        | ApiAnswer::Arg(_)
        | ApiAnswer::Receiver => 0,
    }
}

/// The most bytes in what the library sees of what the answer gives.
fn length_given(guest: &Guest, heap: &[Object], call: &InCall, answer: &ApiAnswer) -> usize
    ensures { (world : World) → world.heap ≡ heap.now
        → length (bytes_given guest.now world call.now.receiver call.now.args.now answer.now) ≤ result }
{
    match answer {
        ApiAnswer::Text(text) => text.len(),
        ApiAnswer::Fresh(class) => class.len(),
        ApiAnswer::Arg(i) => length_shown(guest, heap, call.args.get(*i as usize).copied()),
        ApiAnswer::Receiver => length_shown(guest, heap, call.receiver),
        ApiAnswer::Nothing | ApiAnswer::Int(_) | ApiAnswer::Null | ApiAnswer::Throws(_) => 0,
    }
}

/// The number of bytes in what the library sees of the value, if there is one.
fn length_shown(guest: &Guest, heap: &[Object], value: Option<Value>) -> usize
    ensures { result ≡ length (option_map_or (bytes_shown guest.now heap.now) value []) }
{
    match value {
        Some(value) => bytes_shown(guest, heap, value).len(),
        None => 0,
    }
}

/// Takes the objects out of the machine. It takes no memory.
pub fn take_objects(alloc: Global, machine: &mut RunningMachine) -> Vec<Object>
    ensures heap { result.items ≡ machine.old.heap }
    ensures left { machine.new ≡ with_objects machine.old [] }
{
    std::mem::replace(&mut machine.heap, List::new(alloc)).into_vec()
}

/// Puts these objects into the machine, in the place of its own. It takes no memory.
pub fn put_objects(machine: &mut RunningMachine, heap: Vec<Object>)
    ensures { machine.new ≡ with_objects machine.old heap.items }
{
    machine.heap = List::from_vec(heap);
}

/// Takes memory for one object more.
pub fn make_place(heap: &mut Vec<Object>) -> Result<(), NoMemory>
    ensures heap { heap.new.items ≡ heap.old.items }
    ensures one { OnOk result (TakesOne heap.new) }
{
    if heap.len() >= u32::MAX as usize {
        return Err(NoMemory);
    }
    heap.reserve(1)?;
    Ok(())
}

/// The thread once it rests, where it has no frame to return to; nothing where it has one.
pub fn ready_to_return(
    alloc: Global,
    guest: &Guest,
    thread: &Thread,
) -> Result<Option<Thread>, NoMemory>
    ensures { IfOk result (λ rested. (StandsLow thread.now.frames) × (thread.now.frames ≡ [] → rested
        ≡ Some (rests guest.now thread.now.to_begin))) }
{
    match thread.frames.top() {
        Some(frame) => {
            if frame.at >= u32::MAX {
                return Err(NoMemory);
            }
            Ok(None)
        }
        None => Ok(Some(rested(alloc, guest, thread.to_begin.as_slice())?)),
    }
}

/// A thread that begins the first of these methods, or has ended.
fn rested(alloc: Global, guest: &Guest, to_begin: &[(u32, u32)]) -> Result<Thread, NoMemory>
    ensures { IfOk result (λ thread. thread ≡ rests guest.now to_begin.now) }
{
    let mut thread = Thread {
        frames: Frames::new(alloc),
        to_begin: List::from_vec(Vec::from_slice(alloc, to_begin)?),
        doing: Doing::Running,
    };
    rest(alloc, guest.indexed(), &mut thread)?;
    Ok(thread)
}
