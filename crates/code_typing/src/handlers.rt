//! Rule 7: the handlers that cover an instruction. (The Java Virtual Machine Specification, section 4.10.1.6.)

ghost use Rattle.std.specs.Prelude.{◌≡◌, IsTrue, true};
ghost use Rattle.std.specs.List.{list_all};
ghost use Rattle.api_listing.specs.BuiltIn.{throwable};
ghost use Rattle.bytecode_model.specs.Classes.{is_below};
ghost use Rattle.code_typing.specs.Catching.{all_take_thrown, takes_thrown};
ghost use Rattle.bytecode_model.specs.Rules.{
  Caught,
  is_handled,
  covers,
  class_caught,
  local_caught,
  is_alone,
  catches_well,
  locals_fit,
};

use crate::following::frame_of;
use crate::place::PlaceRef;
use bytecode_model::Handler;
use cert_format::{FrameType, VType};
use frame_types::{THROWABLE, class_caught, is_alone, local_caught};
use type_lattice::{Indexed, borrowed_fits, is_below};

/// Whether the locals that a handler finds are assignable to these.
fn locals_caught(program: &Indexed, locals: &[VType], to: &[VType]) -> bool
    ensures { result ≡ locals_fit program.now (local_caught locals.now) 0 to.now }
{
    let mut j: usize = 0;
    let mut left = to;
    while let [first, rest @ ..] = left {
        if !borrowed_fits(program, local_caught(locals, j), first) {
            return false;
        }
        j += 1;
        left = rest;
    }
    true
}

/// Whether the handler's frame takes what is caught and the locals.
pub fn catches_well(place: &PlaceRef, frame: &FrameType, handler: &Handler, to: &FrameType) -> bool
    ensures { result ≡ catches_well place.now frame.now handler.now to.now }
{
    is_alone(class_caught(handler), to.stack.as_slice())
        && locals_caught(place.program, frame.locals.as_slice(), to.locals.as_slice())
}

/// Whether the handler takes what may be thrown: its class is Throwable or below it.
fn takes_thrown(program: &Indexed, handler: &Handler) -> bool
    ensures { result ≡ takes_thrown program.now handler.now }
{
    let class = class_caught(handler);
    is_below(program, class, THROWABLE)
}

/// The same, where it is known whether one that takes any class does.
fn takes_thrown_by(program: &Indexed, any: bool, handler: &Handler) -> bool
    requires { any ≡ is_below program.now throwable throwable }
    ensures { result ≡ takes_thrown program.now handler.now }
{
    let Some(class) = &handler.class else {
        return any;
    };
    is_below(program, class.as_slice(), THROWABLE)
}

/// Whether each of the handlers takes what may be thrown.
pub fn all_take_thrown(program: &Indexed, handlers: &[Handler]) -> bool
    ensures { result ≡ all_take_thrown program.now handlers.now }
{
    if handlers.is_empty() {
        return true;
    }
    let any = is_below(program, THROWABLE, THROWABLE);
    for handler in handlers {
        if !takes_thrown_by(program, any, handler) {
            return false;
        }
    }
    true
}

/// Whether the handler is right, if it covers the instruction. It may be known that it takes what may be thrown.
fn is_handled(
    frames: &[Option<FrameType>],
    place: &PlaceRef,
    frame: &FrameType,
    handler: &Handler,
    known: bool,
) -> bool
    requires { IsTrue known → takes_thrown place.now.program handler.now ≡ true }
    ensures { result ≡ is_handled frames.now place.now frame.now handler.now }
{
    if !handler.covers(place.at) {
        return true;
    }
    if place.method.max_stack < 1 {
        return false;
    }
    if !known && !takes_thrown(place.program, handler) {
        return false;
    }
    match frame_of(frames, handler.at as usize) {
        Some(to) => catches_well(place, frame, handler, to),
        None => false,
    }
}

/// Rule 7.
pub fn is_caught(frames: &[Option<FrameType>], place: &PlaceRef, frame: &FrameType) -> bool
    ensures { result ≡ Caught frames.now place.now frame.now }
{
    let known = place.handlers_known();
    let mut near = place.method.handlers.near(place.at);
    while let Some(handler) = near.next() {
        if !is_handled(frames, place, frame, handler, known) {
            return false;
        }
    }
    true
}
