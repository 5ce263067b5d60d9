//! The typing of a program.

ghost use Rattle.std.specs.Prelude.{◌≡◌, length, map, IfOk, IfErr};
ghost use Rattle.std.specs.List.{AllByRecursion};
ghost use Rattle.bytecode_model.specs.Sound.{IsSound, IsSoundClass};
ghost use Rattle.bytecode_model.specs.Layout.{IsLaidOut};
ghost use Rattle.bytecode_model.specs.Typed.{IsTyped};
ghost use Rattle.type_infer.specs.Fits.{FitFrames, FitsTyping};
ghost use Rattle.type_infer.specs.Shape.{class_shape};
ghost use Rattle.type_infer.specs.Solving.{ClassesAreSolved, MethodsAreSolved};
ghost use Rattle.type_infer.specs.Untyped.{AreMetBefore, CannotBeMetAt, HasPlace, FirstUntyped, IsLeast, IsUntypable};
ghost use Rattle.bytecode_model.specs.Order.{IsInOrder};

use crate::body::Body;
use crate::failing::first_failing;
use crate::fault::InferFault;
use crate::solving::solve;
use bytecode_model::LinkedClass;
use cert_format::{FrameType, Typing};
use code_typing::{TypeFault, check_typing};
use mon_base::{List, NoMemory};
use std::alloc::Global;
use type_lattice::Indexed;

/// The frames of the class's methods with code.
fn class_frames(
    alloc: Global,
    program: &Indexed,
    own: u32,
    class: &LinkedClass,
) -> Result<List<List<Option<FrameType>>>, NoMemory>
    requires { IsSoundClass class.now }
    ensures shaped { IfOk result (λ told. map length told ≡ class_shape class.now) }
    ensures fits { IfOk result (λ told. AllByRecursion FitFrames told) }
    ensures solved { IfOk result (λ told. MethodsAreSolved program.now own class.now class.now.methods told) }
{
    let mut told = List::new(alloc);
    let mut left = class.methods.as_slice();
    while let [method, later @ ..] = left {
        if !method.insns.is_empty() {
            let body = Body {
                program,
                own,
                class,
                method,
            };
            let frames = solve(alloc, &body, method.insns.len() as u32)?;
            told.push(frames)?;
        }
        left = later;
    }
    Ok(told)
}

/// The frames of the program, which may fail the rules.
fn program_frames(alloc: Global, program: &Indexed) -> Result<Typing, NoMemory>
    requires { IsSound program.now }
    ensures shaped { IfOk result (λ typing. IsLaidOut program.now typing.frames) }
    ensures fits { IfOk result (λ typing. FitsTyping typing) }
    ensures solved { IfOk result (λ typing. ClassesAreSolved program.now 0 program.now.classes typing.frames) }
{
    let mut own: u32 = 0;
    let mut frames = List::new(alloc);
    let mut left = program.program().classes.as_slice();
    while let [class, later @ ..] = left {
        frames.push(class_frames(alloc, program, own, class)?)?;
        own += 1;
        left = later;
    }
    Ok(Typing { frames })
}

/// Where no types are found for the method in which the rules fail.
fn untyped(alloc: Global, program: &Indexed, fault: TypeFault) -> Result<InferFault, NoMemory>
    requires sound { IsSound program.now }
    requires order { IsInOrder program.now }
    requires placed { HasPlace program.now fault }
    requires earlier { AreMetBefore program.now fault.class fault.method }
    requires unmet { CannotBeMetAt program.now fault }
    ensures { IfOk result (λ f. FirstUntyped program.now f) }
{
    let TypeFault {
        class: own,
        method: index,
        at,
        ..
    } = fault;
    let untyped = InferFault::Untyped {
        class: own,
        method: index,
        at,
    };
    let Some(class) = program.program().classes.as_slice().get(own as usize) else {
        return Ok(untyped);
    };
    let Some(method) = class.methods.as_slice().get(index as usize) else {
        return Ok(untyped);
    };
    let body = Body {
        program,
        own,
        class,
        method,
    };
    let at = first_failing(alloc, &body, method.insns.len() as u32)?;
    Ok(InferFault::Untyped {
        class: own,
        method: index,
        at,
    })
}

/// A typing of the program, by class, method with code and instruction.
pub fn infer(alloc: Global, program: &Indexed) -> Result<Typing, InferFault>
    requires sound { IsSound program.now }
    requires order { IsInOrder program.now }
    // The rules are met.
    ensures typed { IfOk result (λ typing. IsTyped program.now typing) }
    // There is a frame, or none, for each instruction.
    ensures shaped { IfOk result (λ typing. IsLaidOut program.now typing.frames) }
    // A certificate can tell each frame.
    ensures encoded { IfOk result (λ typing. FitsTyping typing) }
    // It is the least typing that meets the rules.
    ensures least { IfOk result (λ typing. IsLeast program.now typing) }
    // Else no typing meets them, unless memory ran out.
    ensures untypable { IfErr result (λ fault. IsUntypable program.now fault) }
    // The first instruction is told up to which no frames meet them, of the first method without a typing.
    ensures first { IfErr result (λ fault. FirstUntyped program.now fault) }
{
    let typing = program_frames(alloc, program)?;
    match check_typing(program, &typing) {
        Ok(()) => Ok(typing),
        Err(fault) => Err(untyped(alloc, program, fault)?),
    }
}
