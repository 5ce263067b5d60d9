//! The typing of a program.

ghost use Rattle.std.specs.Prelude.{◌≡◌, ◌<◌, ◌≤◌, ◌+◌, ◌^◌, ◌↔◌, ℕ, List, Option, Some, None, true};
ghost use Rattle.std.specs.Prelude.{IsOk, IsTrue, MatchResult, length, take};
ghost use Rattle.std.specs.List.{AllByRecursion};
ghost use Rattle.bytecode_model.specs.Sound.{IsSound, IsSoundClass, IsSoundMethod};
ghost use Rattle.bytecode_model.specs.Rules.{Frames};
ghost use Rattle.code_typing.specs.First.{first_row, method_fault, methods_fault, classes_fault, typing_fault};
ghost use Rattle.bytecode_model.specs.Typed.{IsTyped, row_in, row_fault, frames_in, frames_told};
ghost use Rattle.bytecode_model.specs.Layout.{coded};
ghost use Rattle.code_typing.specs.Catching.{all_take_thrown};

use crate::fault::TypeFault;
use crate::following::frame_of;
use crate::handlers::all_take_thrown;
use crate::place::PlaceRef;
use crate::row::row_failing;
use bytecode_model::{LinkedClass, Method, after_first, list_at};
use cert_format::{FrameType, Typing};
use mon_base::List;
use type_lattice::Indexed;

/// The first rule that fails at an instruction of a method with these frames.
pub fn row_in(
    program: &Indexed,
    own: u32,
    class: &LinkedClass,
    method: &Method,
    frames: &[Option<FrameType>],
    at: u32,
) -> Option<u8>
    ensures { result ≡ row_in program.now own class.now method.now frames.now at }
{
    row_known(program, own, class, method, frames, at, false)
}

/// The same. It may be known that each handler of the method takes what may be thrown.
fn row_known(
    program: &Indexed,
    own: u32,
    class: &LinkedClass,
    method: &Method,
    frames: &[Option<FrameType>],
    at: u32,
    known: bool,
) -> Option<u8>
    requires { IsTrue known → all_take_thrown program.now method.now.handlers ≡ true }
    ensures { result ≡ row_in program.now own class.now method.now frames.now at }
{
    match PlaceRef::known(program, own, class, method, at, known) {
        None => None,
        Some(place) => row_failing(frames, &place, frame_of(frames, at as usize)),
    }
}

/// How many of the first n methods have code.
pub fn count_coded(methods: &[Method], n: u32) -> usize
    ensures { result ≡ length (coded (take n methods.now)) }
{
    let mut count: usize = 0;
    let mut left = methods;
    for _ in 0..n {
        let [method, rest @ ..] = left else {
            return count;
        };
        if !method.insns.is_empty() {
            count += 1;
        }
        left = rest;
    }
    count
}

/// The first rule that fails at an instruction, by the place of its method among all methods of the class; none where
/// there is no such instruction. It takes no memory.
pub fn check_row(program: &Indexed, typing: &Typing, class: u32, method: u32, at: u32) -> Option<u8>
    ensures { result ≡ row_fault program.now typing.now class method at }
{
    let given = program.program().classes.as_slice().get(class as usize)?;
    let methods = given.methods.as_slice();
    let found = methods.get(method as usize)?;
    let told = list_at(typing.frames.as_slice(), class as usize);
    let frames = list_at(told, count_coded(methods, method));
    row_in(program, class, given, found, frames, at)
}

/// The first instruction of a method whose row fails.
fn method_fault(
    program: &Indexed,
    own: u32,
    class: &LinkedClass,
    method: &Method,
    frames: &[Option<FrameType>],
    index: u32,
) -> Option<TypeFault>
    requires { length method.now.insns < 2 ^ 32 }
    ensures { result ≡ method_fault program.now own class.now method.now frames.now index }
{
    let known = all_take_thrown(program, method.handlers.as_slice());
    for at in 0..method.insns.len() as u32 {
        if let Some(rule) = row_known(program, own, class, method, frames, at, known) {
            return Some(TypeFault {
                class: own,
                method: index,
                at,
                rule,
            });
        }
    }
    None
}

/// The first instruction of the class whose row fails.
fn methods_fault(
    program: &Indexed,
    own: u32,
    class: &LinkedClass,
    told: &[List<Option<FrameType>>],
) -> Option<TypeFault>
    requires { IsSoundClass class.now }
    ensures { result ≡ methods_fault program.now own class.now 0 class.now.methods told.now }
{
    let mut index: u32 = 0;
    let mut told = told;
    let mut left = class.methods.as_slice();
    while let [method, later @ ..] = left {
        if !method.insns.is_empty() {
            let frames = list_at(told, 0);
            if let Some(fault) = method_fault(program, own, class, method, frames, index) {
                return Some(fault);
            }
            told = after_first(told);
        }
        index += 1;
        left = later;
    }
    None
}

/// The first instruction of the program whose row fails.
fn typing_fault(program: &Indexed, typing: &Typing) -> Option<TypeFault>
    requires { IsSound program.now }
    ensures { result ≡ typing_fault program.now typing.now }
{
    let mut own: u32 = 0;
    let mut told = typing.frames.as_slice();
    let mut left = program.program().classes.as_slice();
    while let [class, later @ ..] = left {
        if let Some(fault) = methods_fault(program, own, class, list_at(told, 0)) {
            return Some(fault);
        }
        told = after_first(told);
        own += 1;
        left = later;
    }
    None
}

/// Whether the types that are told are right, or the first instruction, by class, method and its index, at which a rule
/// fails. It takes no memory.
pub fn check_typing(program: &Indexed, typing: &Typing) -> Result<(), TypeFault>
    requires { IsSound program.now }
    ensures ok { IsOk result ↔ IsTyped program.now typing.now }
    ensures exact { MatchResult result (λ u. typing_fault program.now typing.now ≡ None)
        (λ fault. typing_fault program.now typing.now ≡ Some fault) }
{
    match typing_fault(program, typing) {
        Some(fault) => Err(fault),
        None => Ok(()),
    }
}
