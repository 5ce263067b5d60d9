//! The certificate as a whole.

ghost use Rattle.std.specs.Prelude.{◌≡◌, IfOk};
ghost use Rattle.conspec_automaton.specs.Sound.{IsPolicy};
ghost use Rattle.cert_maker.specs.Noting.{certificate_of, class_notes, notes_of};

use crate::methods::method_notes;
use block_template::PolicyItems;
use bytecode_model::{LinkedClass, Method, after_first, list_at};
use cert_format::{Certificate, FrameType, Mode, Note, Typing};
use conspec_automaton::Policy;
use mon_base::{List, NoMemory};
use std::alloc::Global;

/// The certificate of the program that these classes are woven to in this mode, by its types.
pub fn make(
    alloc: Global,
    classes: &[LinkedClass],
    policy: &Policy,
    mode: Mode,
    typing: Typing,
) -> Result<Certificate, NoMemory>
    requires policy { IsPolicy policy.now }
    ensures { IfOk result (λ made. made ≡ certificate_of classes.now policy.now mode typing) }
{
    let items = PolicyItems::new(alloc, policy, mode)?;
    let notes = notes_of(alloc, &items, classes, typing.frames.as_slice())?;
    Ok(Certificate {
        mode,
        typing,
        notes,
    })
}

fn notes_of(
    alloc: Global,
    items: &PolicyItems,
    classes: &[LinkedClass],
    frames: &[List<List<Option<FrameType>>>],
) -> Result<List<List<List<Note>>>, NoMemory>
    requires policy { IsPolicy items.now.policy }
    ensures { IfOk result (λ notes. notes ≡ notes_of items.now.policy items.now.mode classes.now frames.now) }
{
    let mut notes = List::with_room(alloc, classes.len().saturating_add(1))?;
    let mut classes = classes;
    let mut frames = frames;
    while let [class, later @ ..] = classes {
        let methods = class.methods.as_slice();
        let one = class_notes(alloc, items, methods, list_at(frames, 0))?;
        notes.push(one)?;
        classes = later;
        frames = after_first(frames);
    }
    notes.push(List::new(alloc))?;
    Ok(notes)
}

/// The notes of the methods with code.
fn class_notes(
    alloc: Global,
    items: &PolicyItems,
    methods: &[Method],
    frames: &[List<Option<FrameType>>],
) -> Result<List<List<Note>>, NoMemory>
    requires policy { IsPolicy items.now.policy }
    ensures { IfOk result (λ notes. notes ≡ class_notes items.now.policy items.now.mode methods.now frames.now) }
{
    let mut notes = List::with_room(alloc, frames.len())?;
    let mut methods = methods;
    let mut frames = frames;
    while let [method, later @ ..] = methods {
        if !method.insns.is_empty() {
            let one = method_notes(alloc, items, method, list_at(frames, 0))?;
            notes.push(one)?;
            frames = after_first(frames);
        }
        methods = later;
    }
    Ok(notes)
}
