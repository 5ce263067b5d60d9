//! Writing certificates.

ghost use Rattle.std.specs.Prelude.{◌≡◌, ◌≤◌, ◌<◌, ◌++◌, ℕ, List as Items, [], length, OnOk, IfOk, IfErr};
ghost use Rattle.std.specs.List.{flat_map, zip};
ghost use Rattle.cert_format.specs.declared.certificate.Certificate.{Certificate};
ghost use Rattle.cert_format.specs.Names.{with_names, type_names, frame_names, method_names, class_names};
ghost use Rattle.cert_format.specs.Encoding.{encode_type, encode_types, encode_frame, encode_instruction, encode_method};
ghost use Rattle.cert_format.specs.Encoding.{encode_class, encode_head, encode_certificate};
ghost use Rattle.cert_format.specs.Fits.{IsEncodable, EncodesCertificate};
ghost use Rattle.cert_format.specs.Writing.{IsTooLong};

use crate::certificate::{Certificate, Mode};
use crate::fault::CertLong;
use crate::index::Index;
use crate::note::Note;
use crate::note_writing::put_note;
use crate::typing::{FrameType, VType};
use crate::writing::{put_u2, put_u4};
use mon_base::{Bytes, List, NoMemory};
use std::alloc::Global;

/// How many bytes a certificate may have that is written.
pub const MAX_LEN: usize = 67_108_864;

/// What uses names.
trait Named {
    ghost use Rattle.std.specs.Prelude.{ℕ, List as Items};

    /// The names that it uses, in order.
    ghost names_in: { Self → Items (Items ℕ) };

    /// Adds those that are new.
    fn add_names<'a>(&'a self, index: &mut Index<'a>) -> Result<(), NoMemory>
        ensures { OnOk result (index.new ≡ with_names index.old (names_in self.now)) };
}

/// Adds the names of all that are new.
fn add_all<'a, T: Named>(items: &'a [T], index: &mut Index<'a>) -> Result<(), NoMemory>
    ensures { OnOk result (index.new ≡ with_names index.old (flat_map T.names_in items.now)) }
{
    for item in items {
        item.add_names(index)?;
    }
    Ok(())
}

impl Named for VType {
    ghost names_in = { type_names };

    fn add_names<'a>(&'a self, index: &mut Index<'a>) -> Result<(), NoMemory> {
        match self {
            VType::Ref(name) => index.add(name.as_slice()),
            _ => Ok(()),
        }
    }
}

impl Named for Option<FrameType> {
    ghost names_in = { frame_names };

    fn add_names<'a>(&'a self, index: &mut Index<'a>) -> Result<(), NoMemory> {
        match self {
            None => Ok(()),
            Some(frame) => {
                add_all(frame.locals.as_slice(), index)?;
                add_all(frame.stack.as_slice(), index)
            }
        }
    }
}

impl Named for List<Option<FrameType>> {
    ghost names_in = { method_names };

    fn add_names<'a>(&'a self, index: &mut Index<'a>) -> Result<(), NoMemory> {
        add_all(self.as_slice(), index)
    }
}

impl Named for List<List<Option<FrameType>>> {
    ghost names_in = { class_names };

    fn add_names<'a>(&'a self, index: &mut Index<'a>) -> Result<(), NoMemory> {
        add_all(self.as_slice(), index)
    }
}

/// Appends a type.
fn put_type(out: &mut Bytes, index: &Index, held: &VType) -> Result<(), NoMemory>
    ensures { OnOk result (out.new ≡ out.old ++ encode_type index.now held.now) }
{
    match held {
        VType::Top => out.push(0),
        VType::Int => out.push(1),
        VType::Null => out.push(2),
        VType::Ref(name) => {
            out.push(3)?;
            put_u4(out, index.place(name.as_slice()))
        }
        VType::UninitThis => out.push(4),
        VType::Uninit(at) => {
            out.push(5)?;
            put_u4(out, *at as usize)
        }
    }
}

/// Appends two bytes of count, and the types.
fn put_types(out: &mut Bytes, index: &Index, types: &[VType]) -> Result<(), NoMemory>
    ensures { OnOk result (out.new ≡ out.old ++ encode_types index.now types.now) }
{
    put_u2(out, types.len())?;
    for held in types {
        put_type(out, index, held)?;
    }
    Ok(())
}

/// Appends whether an instruction is reached, and its frame if so.
fn put_frame(out: &mut Bytes, index: &Index, frame: &Option<FrameType>) -> Result<(), NoMemory>
    ensures { OnOk result (out.new ≡ out.old ++ encode_frame index.now frame.now) }
{
    match frame {
        None => out.push(0),
        Some(frame) => {
            out.push(1)?;
            put_types(out, index, frame.locals.as_slice())?;
            put_types(out, index, frame.stack.as_slice())
        }
    }
}

/// Frames and the notes that belong to them.
trait Paired {
    ghost use Rattle.std.specs.Prelude.{ℕ, List as Items};

    type Notes;

    /// Their bytes, with the table of names.
    ghost encoded: { Items (Items ℕ) → Self × Self.Notes → Items ℕ };

    /// Appends them.
    fn put(&self, notes: &Self::Notes, index: &Index, out: &mut Bytes) -> Result<(), NoMemory>
        ensures { OnOk result (out.new ≡ out.old ++ encoded index.now (self.now, notes.now)) };
}

/// Appends each with its notes.
fn put_all<T: Paired>(
    out: &mut Bytes,
    index: &Index,
    frames: &[T],
    notes: &[T::Notes],
) -> Result<(), NoMemory>
    ensures { OnOk result (out.new ≡ out.old ++ flat_map (T.encoded index.now) (zip frames.now notes.now)) }
{
    for i in 0..frames.len().min(notes.len()) {
        frames[i].put(&notes[i], index, out)?;
    }
    Ok(())
}

impl Paired for Option<FrameType> {
    type Notes = Note;

    ghost encoded = { encode_instruction };

    fn put(&self, note: &Note, index: &Index, out: &mut Bytes) -> Result<(), NoMemory> {
        put_frame(out, index, self)?;
        put_note(out, note)
    }
}

impl Paired for List<Option<FrameType>> {
    type Notes = List<Note>;

    ghost encoded = { encode_method };

    fn put(&self, notes: &List<Note>, index: &Index, out: &mut Bytes) -> Result<(), NoMemory> {
        put_u4(out, self.len())?;
        put_all(out, index, self.as_slice(), notes.as_slice())
    }
}

impl Paired for List<List<Option<FrameType>>> {
    type Notes = List<List<Note>>;

    ghost encoded = { encode_class };

    fn put(
        &self,
        notes: &List<List<Note>>,
        index: &Index,
        out: &mut Bytes,
    ) -> Result<(), NoMemory> {
        put_u2(out, self.len())?;
        put_all(out, index, self.as_slice(), notes.as_slice())
    }
}

/// Appends what each certificate begins with, and the mode.
fn put_head(out: &mut Bytes, mode: Mode) -> Result<(), NoMemory>
    ensures { OnOk result (out.new ≡ out.old ++ encode_head mode) }
{
    put_u4(out, 0x4353_5043)?;
    put_u2(out, 1)?;
    match mode {
        Mode::Hold => out.push(0),
        Mode::Release => out.push(1),
    }
}

/// Appends the certificate, with its table of names.
fn put_certificate(out: &mut Bytes, index: &Index, cert: &Certificate) -> Result<(), NoMemory>
    requires { index.now ≡ with_names [] (flat_map class_names cert.now.typing.frames) }
    ensures { OnOk result (out.new ≡ out.old ++ encode_certificate cert.now) }
{
    let frames = cert.typing.frames.as_slice();
    put_head(out, cert.mode)?;
    index.put_names(out)?;
    put_u2(out, frames.len())?;
    put_all(out, index, frames, cert.notes.as_slice())
}

/// Appends the certificate.
fn put_with_names(alloc: Global, out: &mut Bytes, cert: &Certificate) -> Result<(), NoMemory>
    ensures { OnOk result (out.new ≡ out.old ++ encode_certificate cert.now) }
{
    let mut index = Index::new(alloc)?;
    add_all(cert.typing.frames.as_slice(), &mut index)?;
    put_certificate(out, &index, cert)
}

/// The bytes of the certificate, of whatever length.
fn written(alloc: Global, cert: &Certificate) -> Result<Bytes, NoMemory>
    ensures { IfOk result (λ bytes. bytes ≡ encode_certificate cert.now) }
{
    let mut out = Bytes::new(alloc);
    put_with_names(alloc, &mut out, cert)?;
    Ok(out)
}

/// The bytes of the certificate.
///
/// Where a count or a number of names is larger than its bytes can tell, its lowest bytes are written, and where there
/// are more frames than notes or fewer, what has no partner is left out. Such a certificate has no encoding.
pub fn encode(alloc: Global, cert: &Certificate) -> Result<Bytes, CertLong>
    // The bytes are the certificate's, and there are no more of them than it may have.
    ensures is { IfOk result (λ bytes. (bytes ≡ encode_certificate cert.now) × (length bytes ≤ 67108864)) }
    // They encode the certificate, if it can be encoded.
    ensures encodes { (vars : ℕ) → IsEncodable vars cert.now → IfOk result (λ bytes. EncodesCertificate bytes vars cert.now) }
    // It is refused for its length exactly where it has more bytes, unless memory runs out, and this is their number.
    ensures too_long { IfErr result (λ fault. IsTooLong fault (length (encode_certificate cert.now))) }
{
    let bytes = written(alloc, cert)?;
    if bytes.len() > MAX_LEN {
        return Err(CertLong::Certificate {
            value: bytes.len() as u64,
        });
    }
    Ok(bytes)
}

/// A text is of one certificate, and a certificate has one text. (Nothing to run: the clauses are laws.)
pub fn one_encoding()
    ensures certificate { (b : Items ℕ) (v : ℕ) (c d : Certificate) → EncodesCertificate b v c → EncodesCertificate b v d → c ≡ d }
    ensures bytes { (a b : Items ℕ) (v : ℕ) (c : Certificate) → EncodesCertificate a v c → EncodesCertificate b v c → a ≡ b }
{}
