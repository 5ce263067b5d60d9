//! Whether a program and what a certificate tells of it have one shape.

ghost use Rattle.std.specs.Prelude.{◌≡◌, ◌<◌, ◌^◌, length};
ghost use Rattle.bytecode_model.specs.Sound.{IsSound};
ghost use Rattle.cert_checker.specs.Acceptance.{methods_differ, shape_fault};

use bytecode_model::{Method, Program};
use cert_format::{Certificate, FrameType, Note};
use mon_base::List;

/// The first class, and in it the first method with code, of which not all three have the same number of instructions.
pub fn shape_fault(program: &Program, certificate: &Certificate) -> Option<(u32, u32)>
    requires { IsSound program.now }
    ensures { result ≡ shape_fault program.now certificate.now }
{
    let mut frames = certificate.typing.frames.as_slice();
    let mut notes = certificate.notes.as_slice();
    let mut at = 0u32;
    let mut classes = program.classes.as_slice();
    while let [class, later @ ..] = classes {
        let [of_class, other_frames @ ..] = frames else {
            return Some((at, 0));
        };
        let [told, other_notes @ ..] = notes else {
            return Some((at, 0));
        };
        let methods = class.methods.as_slice();
        if let Some(method) = methods_differ(methods, of_class.as_slice(), told.as_slice()) {
            return Some((at, method));
        }
        classes = later;
        frames = other_frames;
        notes = other_notes;
        at += 1;
    }
    if frames.is_empty() && notes.is_empty() {
        None
    } else {
        Some((at, 0))
    }
}

/// The first method with code of which not all three have the same number of instructions.
fn methods_differ(
    methods: &[Method],
    frames: &[List<Option<FrameType>>],
    notes: &[List<Note>],
) -> Option<u32>
    requires { length methods.now < 2 ^ 16 }
    ensures { result ≡ methods_differ methods.now frames.now notes.now }
{
    let mut frames = frames;
    let mut notes = notes;
    let mut at = 0u32;
    let mut methods = methods;
    while let [method, later @ ..] = methods {
        methods = later;
        if method.insns.is_empty() {
            continue;
        }
        let [of_method, other_frames @ ..] = frames else {
            return Some(at);
        };
        let [told, other_notes @ ..] = notes else {
            return Some(at);
        };
        if of_method.len() != method.insns.len() || told.len() != method.insns.len() {
            return Some(at);
        }
        frames = other_frames;
        notes = other_notes;
        at += 1;
    }
    if frames.is_empty() && notes.is_empty() {
        None
    } else {
        Some(at)
    }
}
