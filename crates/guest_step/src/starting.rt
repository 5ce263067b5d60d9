//! The machine before the first step.

ghost use Rattle.std.specs.Option.{option_to_list};
ghost use Rattle.std.specs.Prelude.{IfOk, OnOk, [], length, map, ◌++◌, ◌∷◌, ◌≡◌};
ghost use Rattle.guest_model.specs.Changes.{rests};
ghost use Rattle.guest_model.specs.Runs.{first_heap, initialisers, inner, start_of};
ghost use Rattle.guest_model.specs.Throwing.{bare_object};
ghost use Rattle.guest_step.specs.Start.{initialiser_at};
ghost use Rattle.mon_base.specs.declared.method.MethodId.{MethodId};

use guest_heap::{Doing, Frames, Object, Thread};
use guest_operations::statics_of;
use guest_tables::Guest;
use guest_threads::{Monitors, RunningMachine, push_object, rest};
use mon_base::{Bytes, List, MethodId, NoMemory};
use std::alloc::Global;

/// The machine before the first step: its one thread runs the initialisers of the classes, in their order, and then main.
pub fn start(alloc: Global, guest: &Guest) -> Result<RunningMachine, NoMemory>
    ensures { IfOk result (λ machine. machine ≡ start_of guest.now) }
{
    let threads = first_threads(alloc, guest)?;
    let heap = first_heap(alloc, guest)?;
    let statics = statics_of(alloc, guest.program())?;
    Ok(RunningMachine {
        heap,
        statics,
        monitors: Monitors::new(alloc),
        threads,
        stopped: None,
    })
}

/// The one thread.
fn first_threads(alloc: Global, guest: &Guest) -> Result<List<Thread>, NoMemory>
    ensures { IfOk result (λ threads. threads ≡ rests guest.now
        (initialisers guest.now ++ (guest.now.main_class, guest.now.main_method) ∷ []) ∷ []) }
{
    let mut threads = List::new(alloc);
    threads.push(first_thread(alloc, guest)?)?;
    Ok(threads)
}

/// The thread that runs the initialisers, and then main.
fn first_thread(alloc: Global, guest: &Guest) -> Result<Thread, NoMemory>
    ensures { IfOk result (λ thread. thread ≡ rests guest.now
        (initialisers guest.now ++ (guest.now.main_class, guest.now.main_method) ∷ [])) }
{
    let mut to_begin = initialisers(alloc, guest)?;
    to_begin.push((guest.program().main_class, guest.program().main_method))?;
    let mut thread = Thread {
        frames: Frames::new(alloc),
        to_begin,
        doing: Doing::Running,
    };
    rest(alloc, guest.indexed(), &mut thread)?;
    Ok(thread)
}

/// The initialisers of the classes that have one, in their order.
fn initialisers(alloc: Global, guest: &Guest) -> Result<List<(u32, u32)>, NoMemory>
    ensures { IfOk result (λ found. found ≡ initialisers guest.now) }
{
    let mut found = List::new(alloc);
    for class in 0..class_count(guest) {
        push_initialiser(&mut found, guest, class)?;
    }
    Ok(found)
}

/// How many given classes there are.
fn class_count(guest: &Guest) -> u32
    ensures { result ≡ length guest.now.classes }
{
    guest.program().classes.len() as u32
}

/// Appends the initialiser of the class with this index, if it has one.
fn push_initialiser(found: &mut List<(u32, u32)>, guest: &Guest, class: u32) -> Result<(), NoMemory>
    ensures { OnOk result (found.new ≡ found.old ++ option_to_list (initialiser_at guest.now class)) }
{
    match guest.declared(class, b"<clinit>", b"()V") {
        Some(method) => found.push((class, method)),
        None => Ok(()),
    }
}

/// An object for each field of the listing, and then the array of no strings that main takes.
fn first_heap(alloc: Global, guest: &Guest) -> Result<List<Object>, NoMemory>
    ensures { IfOk result (λ heap. heap ≡ first_heap guest.now) }
{
    let mut heap = List::new(alloc);
    push_fields(alloc, &mut heap, guest.program().listing.fields.as_slice())?;
    heap.push(Object::Array {
        desc: Bytes::from_slice(alloc, b"[Ljava/lang/String;")?,
        items: List::new(alloc),
    })?;
    Ok(heap)
}

/// Appends an object for each of the fields.
fn push_fields(alloc: Global, heap: &mut List<Object>, fields: &[MethodId]) -> Result<(), NoMemory>
    ensures { OnOk result (heap.new ≡ heap.old ++ map (λ (f : MethodId). bare_object (inner f.desc)) fields.now) }
{
    for field in fields {
        push_object(alloc, heap, inner(field.desc.as_slice()))?;
    }
    Ok(())
}

/// The text without its first and last byte: the class in a field's descriptor.
fn inner(text: &[u8]) -> &[u8]
    ensures { result.now ≡ inner text.now }
{
    match text {
        [] => b"".as_slice(),
        [_, rest @ ..] => &rest[..rest.len().saturating_sub(1)],
    }
}
