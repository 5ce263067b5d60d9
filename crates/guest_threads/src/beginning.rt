//! Frames that begin without a call: of main, of an initialiser, of `run`.

ghost use Rattle.std.specs.Option.{option_to_list};
ghost use Rattle.std.specs.Prelude.{IfOk, None, OnErr, OnOk, [], drop, if◌then◌else◌, length, ◌<◌, ◌==◌, ◌^◌, ◌∷◌, ◌≡◌};
ghost use Rattle.guest_model.specs.Calls.{arity};
ghost use Rattle.guest_model.specs.Changes.{ended_thread, frame_begun, frame_of, rests};
ghost use Rattle.guest_model.specs.Parts.{main_argument, running};
ghost use Rattle.guest_model.specs.Ready.{IsReady};

use crate::frames::{frame_of, method_of};
use bytecode_model::Method;
use guest_heap::{Doing, Frame, Frames, Thread, Value};
use guest_model::arity;
use mon_base::{List, NoMemory};
use std::alloc::Global;
use type_lattice::Indexed;

/// The argument of main: the array of no strings.
fn main_argument(program: &Indexed) -> Value
    requires { IsReady program.now }
    ensures { result ≡ main_argument program.now }
{
    Value::Ref(program.program().listing.fields.len() as u32)
}

/// The frame of a static method: main has one argument, an initialiser none.
fn frame_begun(alloc: Global, program: &Indexed, to: (u32, u32)) -> Result<Option<Frame>, NoMemory>
    requires { IsReady program.now }
    ensures { IfOk result (λ frame. frame ≡ frame_begun program.now to) }
{
    let (class, index) = to;
    let Some(method) = method_of(program, class, index) else {
        return Ok(None);
    };
    let frame = frame_of_main(alloc, program, class, index, method)?;
    Ok(Some(frame))
}

fn frame_of_main(
    alloc: Global,
    program: &Indexed,
    class: u32,
    index: u32,
    method: &Method,
) -> Result<Frame, NoMemory>
    requires ready { IsReady program.now }
    requires few { class < 2 ^ 16 }
    ensures { IfOk result (λ frame. frame ≡ frame_of program.now (class, index) method.now None
        (if arity method.now.desc == 0 then [] else main_argument program.now ∷ [])) }
{
    let count = arity(alloc, method.desc.as_slice())?;
    if count == 0 {
        return frame_of(alloc, program, class, index, method, None, &[]);
    }
    let arguments = [main_argument(program)];
    frame_of(alloc, program, class, index, method, None, &arguments)
}

/// The thread, which leaves its frames, begins the next method, or has ended.
pub fn rest(alloc: Global, program: &Indexed, thread: &mut Thread) -> Result<(), NoMemory>
    requires { IsReady program.now }
    ensures ok { OnOk result (thread.new ≡ rests program.now thread.old.to_begin) }
    ensures err { OnErr result (thread.new ≡ thread.old) }
{
    match thread.to_begin.as_slice() {
        [] => end(alloc, thread),
        [next, ..] => {
            let frames = frames_begun(alloc, program, *next)?;
            begin(thread, frames);
        }
    }
    Ok(())
}

/// The thread has ended, and what it had still to begin is dropped.
pub fn end(alloc: Global, thread: &mut Thread)
    ensures { thread.new ≡ ended_thread }
{
    thread.frames = Frames::new(alloc);
    thread.to_begin = List::new(alloc);
    thread.doing = Doing::Ended;
}

/// The thread stands in these frames, and the first of what it had to begin is begun.
fn begin(thread: &mut Thread, frames: Frames)
    requires { 0 < length thread.old.to_begin }
    ensures { thread.new ≡ running frames (drop 1 thread.old.to_begin) }
{
    thread.frames = frames;
    thread.to_begin.remove(0);
    thread.doing = Doing::Running;
}

/// The frame of a method that begins, if there is the method.
fn frames_begun(alloc: Global, program: &Indexed, to: (u32, u32)) -> Result<Frames, NoMemory>
    requires { IsReady program.now }
    ensures { IfOk result (λ frames. frames ≡ option_to_list (frame_begun program.now to)) }
{
    let mut frames = Frames::new(alloc);
    let begun = frame_begun(alloc, program, to)?;
    if let Some(frame) = begun {
        frames.push(frame)?;
    }
    Ok(frames)
}
