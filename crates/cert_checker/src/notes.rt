//! The first note of a certificate that is wrong.

ghost use Rattle.std.specs.Prelude.{◌≡◌, is_some};
ghost use Rattle.bytecode_model.specs.Sound.{IsSound, IsSoundClass, IsSoundMethod};
ghost use Rattle.bytecode_model.specs.Rules.{frame_of};
ghost use Rattle.block_logic.specs.Accepted.{note_fault_at, reached_fault, rules_of};
ghost use Rattle.block_logic.specs.Annotations.{annotations_of};
ghost use Rattle.cert_checker.specs.Acceptance.{in_classes, in_method, in_methods, notes_fault};

use crate::note_rules::note_fault;
use crate::state::state_at;
use block_logic::{HeldCalls, Rules};
use bytecode_model::{LinkedClass, Method, Program, after_first, list_at};
use cert_format::{Certificate, FrameType, Note};
use code_typing::count_coded;
use conspec_automaton::Policy;
use mon_base::List;

/// Class, method, instruction and rule of the first note that is wrong.
pub fn notes_fault(
    program: &Program,
    policy: &Policy,
    certificate: &Certificate,
) -> Option<(u32, (u32, (u32, u8)))>
    requires { IsSound program.now }
    ensures { result ≡ notes_fault program.now policy.now certificate.now }
{
    let rules = rules_of(program, policy, certificate);
    in_classes(&rules, program, certificate)
}

/// The first rule of the notes that fails at an instruction, by the place of its method among all methods of the class; none
/// where there is no such instruction, and where none is reached. It takes no memory.
pub fn check_note(
    program: &Program,
    policy: &Policy,
    certificate: &Certificate,
    class: u32,
    method: u32,
    at: u32,
) -> Option<u8>
    requires { IsSound program.now }
    ensures { result ≡ note_fault_at program.now policy.now (annotations_of certificate.now) class method at }
{
    let rules = rules_of(program, policy, certificate);
    let given = program.classes.as_slice().get(class as usize)?;
    let methods = given.methods.as_slice();
    let found = methods.get(method as usize)?;
    let index = count_coded(methods, method);
    let frames = list_at(certificate.typing.frames.as_slice(), class as usize);
    let notes = list_at(certificate.notes.as_slice(), class as usize);
    reached_fault(
        &rules,
        list_at(frames, index),
        list_at(notes, index),
        found,
        at,
    )
}

/// What the rules are told. Where the program has no class of the policy's variables, the number after its classes
/// names none.
fn rules_of<'a>(program: &Program, policy: &'a Policy, certificate: &Certificate) -> Rules<'a>
    requires { IsSound program.now }
    ensures { result ≡ rules_of program.now policy.now (annotations_of certificate.now) }
{
    let classes = program.classes.as_slice();
    let state = match state_at(classes) {
        Some(at) => at,
        None => classes.len() as u32,
    };
    Rules {
        held: HeldCalls::of(certificate.mode),
        policy,
        state,
    }
}

/// Class, method, instruction and rule of the first note that is wrong, by the rules.
fn in_classes(
    rules: &Rules<'_>,
    program: &Program,
    certificate: &Certificate,
) -> Option<(u32, (u32, (u32, u8)))>
    requires { IsSound program.now }
    ensures { result ≡ in_classes rules.now 0 program.now.classes certificate.now.typing.frames certificate.now.notes }
{
    let mut at = 0u32;
    let mut frames = certificate.typing.frames.as_slice();
    let mut notes = certificate.notes.as_slice();
    let mut classes = program.classes.as_slice();
    while let [class, later @ ..] = classes {
        if let Some(found) = in_methods(rules, class, list_at(frames, 0), list_at(notes, 0)) {
            return Some((at, found));
        }
        classes = later;
        frames = after_first(frames);
        notes = after_first(notes);
        at += 1;
    }
    None
}

/// Method, instruction and rule of the first note of a class that is wrong.
fn in_methods(
    rules: &Rules<'_>,
    class: &LinkedClass,
    frames: &[List<Option<FrameType>>],
    notes: &[List<Note>],
) -> Option<(u32, (u32, u8))>
    requires { IsSoundClass class.now }
    ensures { result ≡ in_methods rules.now 0 class.now.methods frames.now notes.now }
{
    let mut at = 0u32;
    let mut frames = frames;
    let mut notes = notes;
    let mut methods = class.methods.as_slice();
    while let [method, later @ ..] = methods {
        if !method.insns.is_empty() {
            if let Some(found) = in_method(rules, list_at(frames, 0), list_at(notes, 0), method) {
                return Some((at, found));
            }
            frames = after_first(frames);
            notes = after_first(notes);
        }
        methods = later;
        at += 1;
    }
    None
}

/// Instruction and rule of the first note of a method that is wrong.
fn in_method(
    rules: &Rules<'_>,
    frames: &[Option<FrameType>],
    told: &[Note],
    method: &Method,
) -> Option<(u32, u8)>
    requires { IsSoundMethod method.now }
    ensures { result ≡ in_method rules.now frames.now told.now method.now }
{
    let mut at = 0u32;
    let mut left = method.insns.len();
    while left > 0 {
        if let Some(rule) = reached_fault(rules, frames, told, method, at) {
            return Some((at, rule));
        }
        at += 1;
        left -= 1;
    }
    None
}

fn reached_fault(
    rules: &Rules<'_>,
    frames: &[Option<FrameType>],
    told: &[Note],
    method: &Method,
    at: u32,
) -> Option<u8>
    ensures { result ≡ reached_fault rules.now frames.now told.now method.now at }
{
    if has_frame(frames, at) {
        note_fault(rules, told, method, at)
    } else {
        None
    }
}

/// Whether the instruction of this index has a frame.
fn has_frame(frames: &[Option<FrameType>], at: u32) -> bool
    ensures { result ≡ is_some (frame_of frames.now at) }
{
    match frames.get(at as usize) {
        Some(frame) => frame.is_some(),
        None => false,
    }
}
