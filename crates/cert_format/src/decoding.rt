//! Reading certificates.

ghost use Rattle.std.specs.Prelude.{◌≡◌, [], Ok, Err, IfOk};
ghost use Rattle.cert_format.specs.declared.certificate.Certificate.{Certificate};
ghost use Rattle.cert_format.specs.Fits as fits;
ghost use Rattle.cert_format.specs.Fits.{EncodesCertificate};
ghost use Rattle.mon_base.specs.Answer.{Reads, ReadsAs, Answers};
ghost use Rattle.cert_format.specs.Reading.{Uses, reference_at, type_of_kind, told_type, types_at, locals_at};
ghost use Rattle.cert_format.specs.Reading.{frame_at, not_reached_at, reached_at, instruction_at, several_at, as_lists};
ghost use Rattle.cert_format.specs.Reading.{told_method, told_class, classes_at, head_at, body_at, certificate_at, certificate_of};

use crate::certificate::{Certificate, Mode};
use crate::fault::CertForm;
use crate::items::{Item, Table, room_for, short_list};
use crate::name::Name;
use crate::names::read_names;
use crate::note::Note;
use crate::note_reading::{free, note};
use crate::pairs::unzip;
use crate::place::{flag, u1, u2, u4};
use crate::sharing::push_frame;
use crate::typing::{FrameType, Typing, VType};
use mon_base::{Cursor, List, SharedList};
use std::alloc::Global;

/// The first bytes of each certificate, "CSPC".
const MAGIC: u32 = 0x4353_5043;

/// The one version of the format.
const VERSION: u16 = 1;

/// The reference of a type that begins at `at`. It uses a name that was used before, or the next one.
#[tactic(auto, unfolding(crate::specs::Reading::reference_at))]
fn reference(
    alloc: Global,
    names: &[Name],
    at: u64,
    used: &mut usize,
    from: &mut Cursor,
) -> Result<VType, CertForm>
    ensures { Uses result (reference_at names.now at used.old from.old) used.new from.new }
{
    let number = u4(from)?;
    let place = number as usize;
    if place > *used || place >= names.len() {
        return Err(CertForm::Form { at });
    }
    let name = names[place].share()?;
    if place == *used {
        *used += 1;
    }
    Ok(VType::Ref(name))
}

/// A type that begins at `at`, after its kind.
#[tactic(auto, unfolding(crate::specs::Reading::type_of_kind))]
fn type_of_kind(
    alloc: Global,
    names: &[Name],
    at: u64,
    used: &mut usize,
    kind: u8,
    from: &mut Cursor,
) -> Result<VType, CertForm>
    ensures { Uses result (type_of_kind names.now at used.old kind from.old) used.new from.new }
{
    match kind {
        0 => Ok(VType::Top),
        1 => Ok(VType::Int),
        2 => Ok(VType::Null),
        3 => reference(alloc, names, at, used, from),
        4 => Ok(VType::UninitThis),
        5 => Ok(VType::Uninit(u4(from)?)),
        _ => Err(CertForm::Form { at }),
    }
}

impl Item for VType {
    ghost item_at = { λ vars names used p. told_type names used p };

    #[tactic(auto, unfolding(crate::specs::Reading::told_type))]
    fn read(
        alloc: Global,
        table: &Table,
        used: &mut usize,
        from: &mut Cursor,
    ) -> Result<VType, CertForm> {
        let at = from.position();
        let kind = u1(from)?;
        type_of_kind(alloc, table.names, at, used, kind, from)
    }
}

/// The types that two bytes count.
#[tactic(auto, unfolding(crate::specs::Reading::types_at))]
fn types(
    alloc: Global,
    table: &Table,
    used: &mut usize,
    from: &mut Cursor,
) -> Result<List<VType>, CertForm>
    ensures { Uses result (types_at table.now.names.now used.old from.old) used.new from.new }
{
    short_list(alloc, table, used, from)
}

/// Whether the last of the types, if there is one, is Top.
fn ends_with_top(types: &[VType]) -> bool
    ensures { result ≡ fits.ends_with_top types.now }
{
    matches!(types.last(), Some(VType::Top))
}

/// The types of the locals, the last of which is not Top.
#[tactic(auto, unfolding(crate::specs::Reading::locals_at))]
fn locals(
    alloc: Global,
    table: &Table,
    used: &mut usize,
    from: &mut Cursor,
) -> Result<List<VType>, CertForm>
    ensures { Uses result (locals_at table.now.names.now used.old from.old) used.new from.new }
{
    let locals = types(alloc, table, used, from)?;
    if ends_with_top(locals.as_slice()) {
        return Err(CertForm::Form {
            at: from.position().saturating_sub(1),
        });
    }
    Ok(locals)
}

/// A frame.
#[tactic(auto, unfolding(crate::specs::Reading::frame_at))]
fn frame(
    alloc: Global,
    table: &Table,
    used: &mut usize,
    from: &mut Cursor,
) -> Result<FrameType, CertForm>
    ensures { Uses result (frame_at table.now.names.now used.old from.old) used.new from.new }
{
    let locals = SharedList::new(alloc, locals(alloc, table, used, from)?)?;
    let stack = types(alloc, table, used, from)?;
    Ok(FrameType { locals, stack })
}

/// The frame and the note of an instruction that is reached.
#[tactic(auto, unfolding(crate::specs::Reading::reached_at))]
fn reached(
    alloc: Global,
    table: &Table,
    used: &mut usize,
    from: &mut Cursor,
) -> Result<(Option<FrameType>, Note), CertForm>
    ensures { Uses result (reached_at table.now.vars table.now.names.now used.old from.old) used.new from.new }
{
    let frame = frame(alloc, table, used, from)?;
    let note = note(alloc, table.vars, from)?;
    Ok((Some(frame), note))
}

/// The frame and the note of an instruction, where it is reached, and else Free.
#[tactic(auto, unfolding(crate::specs::Reading::instruction_at, crate::specs::Reading::not_reached_at))]
fn instruction(
    alloc: Global,
    table: &Table,
    used: &mut usize,
    from: &mut Cursor,
) -> Result<(Option<FrameType>, Note), CertForm>
    ensures { Uses result (instruction_at table.now.vars table.now.names.now used.old from.old) used.new from.new }
{
    if flag(from)? {
        reached(alloc, table, used, from)
    } else {
        Ok((None, free(from)?))
    }
}

/// Reads the frames and the notes of that many instructions onto the lists, which have none.
fn fill(
    frames: &mut List<Option<FrameType>>,
    notes: &mut List<Note>,
    alloc: Global,
    table: &Table,
    count: u32,
    used: &mut usize,
    from: &mut Cursor,
) -> Result<(), CertForm>
    requires frames { frames.old ≡ [] }
    requires notes { notes.old ≡ [] }
    ensures { ReadsAs CertForm.Memory (λ _. ((frames.new, notes.new), used.new)) result
        (as_lists (several_at (instruction_at table.now.vars table.now.names.now) count used.old from.old)) from.new }
{
    for _ in 0..count {
        let (frame, note) = instruction(alloc, table, used, from)?;
        push_frame(frames, frame)?;
        notes.push(note)?;
    }
    Ok(())
}

/// The frames and the notes of that many instructions.
fn instructions(
    alloc: Global,
    table: &Table,
    count: u32,
    used: &mut usize,
    from: &mut Cursor,
) -> Result<(List<Option<FrameType>>, List<Note>), CertForm>
    ensures { Uses result (as_lists (several_at (instruction_at table.now.vars table.now.names.now) count used.old from.old))
        used.new from.new }
{
    let room = room_for(count);
    let mut frames = List::with_room(alloc, room)?;
    let mut notes = List::with_room(alloc, room)?;
    fill(&mut frames, &mut notes, alloc, table, count, used, from)?;
    Ok((frames, notes))
}

impl Item for (List<Option<FrameType>>, List<Note>) {
    ghost item_at = { told_method };

    #[tactic(auto, unfolding(crate::specs::Reading::told_method, crate::specs::Reading::long_list_at))]
    fn read(
        alloc: Global,
        table: &Table,
        used: &mut usize,
        from: &mut Cursor,
    ) -> Result<(List<Option<FrameType>>, List<Note>), CertForm> {
        let count = u4(from)?;
        instructions(alloc, table, count, used, from)
    }
}

impl Item for (List<List<Option<FrameType>>>, List<List<Note>>) {
    ghost item_at = { told_class };

    #[tactic(auto, unfolding(crate::specs::Reading::told_class))]
    fn read(
        alloc: Global,
        table: &Table,
        used: &mut usize,
        from: &mut Cursor,
    ) -> Result<(List<List<Option<FrameType>>>, List<List<Note>>), CertForm> {
        let pairs = short_list(alloc, table, used, from)?;
        Ok(unzip(alloc, pairs)?)
    }
}

/// The frames and the notes of the classes.
#[tactic(auto, unfolding(crate::specs::Reading::classes_at))]
fn classes(
    alloc: Global,
    table: &Table,
    used: &mut usize,
    from: &mut Cursor,
) -> Result<(List<List<List<Option<FrameType>>>>, List<List<List<Note>>>), CertForm>
    ensures { Uses result (classes_at table.now.vars table.now.names.now used.old from.old) used.new from.new }
{
    let pairs = short_list(alloc, table, used, from)?;
    Ok(unzip(alloc, pairs)?)
}

/// The mode, from the first bytes.
#[tactic(auto, unfolding(crate::specs::Reading::head_at, crate::specs::Reading::mode_of))]
fn head(from: &mut Cursor) -> Result<Mode, CertForm>
    ensures { Reads CertForm.Memory result (head_at from.old) from.new }
{
    let at = from.position();
    if u4(from)? != MAGIC {
        return Err(CertForm::Form { at });
    }
    let at = from.position();
    if u2(from)? != VERSION {
        return Err(CertForm::Form { at });
    }
    let at = from.position();
    match u1(from)? {
        0 => Ok(Mode::Hold),
        1 => Ok(Mode::Release),
        _ => Err(CertForm::Form { at }),
    }
}

/// The certificate of this mode, whose types use each of the names.
#[tactic(auto, unfolding(crate::specs::Reading::body_at))]
fn body(
    alloc: Global,
    mode: Mode,
    table: &Table,
    from: &mut Cursor,
) -> Result<Certificate, CertForm>
    ensures { Reads CertForm.Memory result (body_at table.now.vars mode table.now.names.now from.old) from.new }
{
    let mut used = 0;
    let (frames, notes) = classes(alloc, table, &mut used, from)?;
    if used != table.names.len() {
        return Err(CertForm::Form {
            at: from.position(),
        });
    }
    Ok(Certificate {
        mode,
        typing: Typing { frames },
        notes,
    })
}

/// A certificate.
#[tactic(auto, unfolding(crate::specs::Reading::certificate_at))]
fn certificate(alloc: Global, vars: u32, from: &mut Cursor) -> Result<Certificate, CertForm>
    ensures { Reads CertForm.Memory result (certificate_at vars from.old) from.new }
{
    let mode = head(from)?;
    let names = read_names(alloc, from)?;
    let table = Table {
        names: names.as_slice(),
        vars,
    };
    body(alloc, mode, &table, from)
}

/// The certificate that all the bytes are.
#[tactic(auto, unfolding(crate::specs::Reading::certificate_of))]
fn all(alloc: Global, bytes: &[u8], vars: u32) -> Result<Certificate, CertForm>
    ensures { Answers CertForm.Memory result (certificate_of vars bytes.now) }
{
    let mut from = Cursor::new(bytes);
    let certificate = certificate(alloc, vars, &mut from)?;
    if !from.is_at_end() {
        return Err(CertForm::Form {
            at: from.position(),
        });
    }
    Ok(certificate)
}

/// The certificate that the bytes are, for a policy of so many variables.
///
/// `Form` tells where the first item begins that fits none.
pub fn decode(alloc: Global, bytes: &[u8], vars: u32) -> Result<Certificate, CertForm>
    // What is read is encoded so.
    ensures found { IfOk result (λ c. EncodesCertificate bytes.now vars c) }
    // What is encoded so is read, unless memory runs out.
    ensures only { (c : Certificate) → EncodesCertificate bytes.now vars c → Answers CertForm.Memory result (Ok c) }
    // Which fault it is: the first that reading meets.
    ensures exact { Answers CertForm.Memory result (certificate_of vars bytes.now) }
{
    all(alloc, bytes, vars)
}
