//! The notes of a method: of each instruction, or of its block.

ghost use Rattle.std.specs.Prelude.{◌≡◌, ◌++◌, ◌∷◌, [], drop, IfOk, length, map, OnOk};
ghost use Rattle.bytecode_model.specs.declared.program.Target.TheVariants as target;
ghost use Rattle.cert_format.specs.declared.note.Note.TheVariants.{Free};
ghost use Rattle.conspec_automaton.specs.Sound.{IsPolicy};
ghost use Rattle.block_template.specs.Blocks.{bools_of, clauses_of, items};
ghost use Rattle.block_template.specs.declared.item.Item.{Item as SpecItem};
ghost use Rattle.cert_maker.specs.Noting.{block_notes, if_typed, method_notes, note_of, part_notes, parts_notes, where_typed};

use crate::called::Called;
use crate::notes::note_of;
use block_template::{Item, PolicyItems, Role};
use bytecode_model::{Method, Target};
use cert_format::{FrameType, Note};
use conspec_automaton::Policy;
use mon_base::{List, NoMemory};
use std::alloc::Global;

/// The notes of the instructions that a method is woven to, by their frames.
pub fn method_notes(
    alloc: Global,
    items: &PolicyItems,
    method: &Method,
    frames: &[Option<FrameType>],
) -> Result<List<Note>, NoMemory>
    requires policy { IsPolicy items.now.policy }
    ensures { IfOk result (λ notes. notes ≡ method_notes items.now.policy items.now.mode method.now frames.now) }
{
    let mut notes = List::with_room(alloc, frames.len())?;
    let mut refs = method.refs.as_slice();
    let mut left = frames;
    while let [target, others @ ..] = refs {
        let count = put_part(alloc, &mut notes, items, method.max_locals, target, left)?;
        left = following(left, count);
        refs = others;
    }
    Ok(notes)
}

/// Appends the notes of what stands for an instruction, and tells how many instructions that are.
fn put_part(
    alloc: Global,
    notes: &mut List<Note>,
    items: &PolicyItems,
    base: u16,
    target: &Target,
    frames: &[Option<FrameType>],
) -> Result<usize, NoMemory>
    requires policy { IsPolicy items.now.policy }
    ensures notes { OnOk result (notes.new
        ≡ notes.old ++ where_typed (part_notes items.now.policy items.now.mode base target.now) frames.now) }
    ensures count { IfOk result (λ count. count ≡ length (part_notes items.now.policy items.now.mode base target.now)) }
{
    match target {
        Target::ApiMethod(callee) => {
            let call = Called {
                callee: *callee,
                base,
            };
            put_call(alloc, notes, items, call, frames)
        }
        _ => put_alone(notes, frames),
    }
}

fn put_call(
    alloc: Global,
    notes: &mut List<Note>,
    items: &PolicyItems,
    call: Called,
    frames: &[Option<FrameType>],
) -> Result<usize, NoMemory>
    requires policy { IsPolicy items.now.policy }
    ensures notes { OnOk result (notes.new ≡ notes.old
        ++ where_typed (part_notes items.now.policy items.now.mode call.base (target.ApiMethod call.callee)) frames.now) }
    ensures count { IfOk result (λ count. count
        ≡ length (part_notes items.now.policy items.now.mode call.base (target.ApiMethod call.callee))) }
{
    match items.of(call.callee) {
        Some(block) => {
            put_items(alloc, notes, items.policy(), call, block, frames)?;
            Ok(block.len())
        }
        None => put_alone(notes, frames),
    }
}

/// Appends the note of an instruction without a block.
fn put_alone(notes: &mut List<Note>, frames: &[Option<FrameType>]) -> Result<usize, NoMemory>
    ensures notes { OnOk result (notes.new ≡ notes.old ++ where_typed (Free ∷ []) frames.now) }
    ensures count { IfOk result (λ count. count ≡ 1) }
{
    if !frames.is_empty() {
        notes.push(Note::Free)?;
    }
    Ok(1)
}

/// Appends the notes of the items of a block.
fn put_items(
    alloc: Global,
    notes: &mut List<Note>,
    policy: &Policy,
    call: Called,
    items: &[Item],
    frames: &[Option<FrameType>],
) -> Result<(), NoMemory>
    requires policy { IsPolicy policy.now }
    ensures { OnOk result (notes.new ≡ notes.old
        ++ where_typed (map (λ (i : SpecItem). note_of policy.now call i.role) items.now) frames.now) }
{
    let mut items = items;
    let mut frames = frames;
    while let [item, others @ ..] = items {
        let [frame, later @ ..] = frames else {
            return Ok(());
        };
        let one = typed_note(alloc, policy, call, item.role, frame)?;
        notes.push(one)?;
        items = others;
        frames = later;
    }
    Ok(())
}

/// The note of an instruction of this role; one without a frame is not reached.
fn typed_note(
    alloc: Global,
    policy: &Policy,
    call: Called,
    role: Role,
    frame: &Option<FrameType>,
) -> Result<Note, NoMemory>
    requires policy { IsPolicy policy.now }
    ensures { IfOk result (λ note. note ≡ if_typed frame.now (note_of policy.now call role)) }
{
    match frame {
        None => Ok(Note::Free),
        Some(_) => note_of(alloc, policy, call, role),
    }
}

/// The frames after so many.
fn following(frames: &[Option<FrameType>], count: usize) -> &[Option<FrameType>]
    ensures { result.now ≡ drop count frames.now }
{
    if count < frames.len() {
        &frames[count..]
    } else {
        &[]
    }
}
