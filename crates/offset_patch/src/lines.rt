//! The line numbers of a code with blocks.

ghost use Rattle.std.specs.Prelude.{◌≡◌, ◌∷◌, [], ◌<◌, ◌^◌, ◌++◌, IfOk, OnOk, IfSome, IfNone, length};
ghost use Rattle.std.specs.List.{AllByRecursion};
ghost use Rattle.byteorder.specs.Endian.{big_bytes};
ghost use Rattle.mon_base.specs.Widths.{IsU2};
ghost use Rattle.insn_codec.specs.Encoding.{len_from};
ghost use Rattle.offset_patch.specs.Lines.{table, lines_in, lines_of, line_moved, lines_moved};
ghost use Rattle.offset_patch.specs.Lines.{table_moved, attr_kept, each_kept, attrs_kept};
ghost use Rattle.offset_patch.specs.Lines.{are_within, start_moved, moved_in};
ghost use Rattle.offset_patch.specs.Splicing.{begins};

use crate::entries::Entries;
use crate::moves::Moves;
use bytecode_model::is_text;
use byteorder::{BigEndian, ByteOrder};
use class_codec::Other;
use insn_codec::{Insn, starts};
use mon_base::{Bytes, List, NoMemory};
use std::alloc::Global;

/// Where a line begins, and its number.
type Line = (u16, u16);

/// How many bytes line numbers have at most.
const MOST: u64 = 1 << 31;

// ---- attributes

/// The line numbers of a code of these instructions, where those of the code with blocks begin at `news`.
pub fn attrs_spliced(
    alloc: Global,
    entries: &Entries,
    insns: &[Insn],
    fronts: &[u32],
    news: &[u32],
    attrs: &[Other],
) -> Result<List<Other>, NoMemory>
    requires few { length insns.now < 2 ^ 16 }
    requires short { len_from 0 insns.now < 2 ^ 32 }
    requires news { AllByRecursion IsU2 news.now }
    ensures { IfOk result (λ kept. kept
        ≡ attrs_kept entries.now (start_moved (begins insns.now) fronts.now news.now) attrs.now) }
{
    let olds = starts(alloc, insns)?;
    let moves = Moves::new(&olds.as_slice()[..insns.len()], fronts, news);
    attrs_kept(alloc, entries, &moves, attrs)
}

/// The line numbers among the attributes of a code.
fn attrs_kept(
    alloc: Global,
    entries: &Entries,
    moves: &Moves,
    attrs: &[Other],
) -> Result<List<Other>, NoMemory>
    ensures { IfOk result (λ kept. kept ≡ attrs_kept entries.now (moved_in moves.now) attrs.now) }
{
    let kept = each_kept(alloc, entries, moves, attrs)?;
    if are_within(MOST, kept.as_slice()) {
        Ok(kept)
    } else {
        Ok(List::new(alloc))
    }
}

fn each_kept(
    alloc: Global,
    entries: &Entries,
    moves: &Moves,
    attrs: &[Other],
) -> Result<List<Other>, NoMemory>
    ensures { IfOk result (λ kept. kept ≡ each_kept entries.now (moved_in moves.now) attrs.now) }
{
    let mut kept = List::with_room(alloc, attrs.len())?;
    let mut left = attrs;
    while let [attr, rest @ ..] = left {
        if let Some(attr) = attr_kept(alloc, entries, moves, attr)? {
            kept.push(attr)?;
        }
        left = rest;
    }
    Ok(kept)
}

/// Whether the attributes have at most so many bytes, each with its name and length.
fn are_within(most: u64, attrs: &[Other]) -> bool
    ensures { result ≡ are_within most attrs.now }
{
    let mut room = most;
    let mut left = attrs;
    while let [attr, rest @ ..] = left {
        let size = 6 + attr.bytes.as_slice().len() as u64;
        if room < size {
            return false;
        }
        room -= size;
        left = rest;
    }
    true
}

/// The attribute with its lines where they begin now, if it has lines.
fn attr_kept(
    alloc: Global,
    entries: &Entries,
    moves: &Moves,
    attr: &Other,
) -> Result<Option<Other>, NoMemory>
    ensures { IfOk result (λ kept. kept ≡ attr_kept entries.now (moved_in moves.now) attr.now) }
{
    if !is_text(entries.text_at(attr.name), "LineNumberTable") {
        return Ok(None);
    }
    match table_moved(alloc, moves, attr.bytes.as_slice())? {
        Some(bytes) => Ok(Some(Other {
            name: attr.name,
            bytes,
        })),
        None => Ok(None),
    }
}

// ---- lines

/// The bytes of a table with its lines where they begin now.
fn table_moved(alloc: Global, moves: &Moves, bytes: &[u8]) -> Result<Option<Bytes>, NoMemory>
    ensures { IfOk result (λ made. made ≡ table_moved (moved_in moves.now) bytes.now) }
{
    let Some(lines) = lines_of(alloc, bytes)? else {
        return Ok(None);
    };
    let Some(lines) = lines_moved(alloc, moves, lines.as_slice())? else {
        return Ok(None);
    };
    let made = table(alloc, lines.as_slice())?;
    Ok(Some(made))
}

/// The lines of a table that is whole.
fn lines_of(alloc: Global, bytes: &[u8]) -> Result<Option<List<Line>>, NoMemory>
    ensures { IfOk result (λ lines. lines ≡ lines_of bytes.now) }
{
    let [high, low, rest @ ..] = bytes else {
        return Ok(None);
    };
    let count = BigEndian::read_u16(&[*high, *low]);
    if rest.len() != usize::from(count) * 4 {
        return Ok(None);
    }
    let lines = lines_in(alloc, rest)?;
    Ok(Some(lines))
}

fn lines_in(alloc: Global, bytes: &[u8]) -> Result<List<Line>, NoMemory>
    ensures { IfOk result (λ lines. lines ≡ lines_in bytes.now) }
{
    let mut lines = List::with_room(alloc, bytes.len() / 4)?;
    let mut left = bytes;
    while let Some((line, rest)) = first_line(left) {
        lines.push(line)?;
        left = rest;
    }
    Ok(lines)
}

/// The first line, and the bytes after it.
fn first_line(bytes: &[u8]) -> Option<(Line, &[u8])>
    ensures some { IfSome result (λ first. lines_in bytes.now ≡ first.0 ∷ lines_in first.1.now) }
    ensures shorter { IfSome result (λ first. length first.1.now < length bytes.now) }
    ensures none { IfNone result (lines_in bytes.now ≡ []) }
{
    match bytes {
        [a, b, c, d, rest @ ..] => {
            let start = BigEndian::read_u16(&[*a, *b]);
            let number = BigEndian::read_u16(&[*c, *d]);
            Some(((start, number), rest))
        }
        _ => None,
    }
}

/// The lines where they begin now, if each begins at an instruction.
fn lines_moved(alloc: Global, moves: &Moves, lines: &[Line]) -> Result<Option<List<Line>>, NoMemory>
    ensures { IfOk result (λ made. made ≡ lines_moved (moved_in moves.now) lines.now) }
{
    let mut made = List::with_room(alloc, lines.len())?;
    let mut left = lines;
    while let [line, rest @ ..] = left {
        let Some(line) = line_moved(moves, line) else {
            return Ok(None);
        };
        made.push(line)?;
        left = rest;
    }
    Ok(Some(made))
}

/// The line where it begins now, if it begins at an instruction.
fn line_moved(moves: &Moves, line: &Line) -> Option<Line>
    ensures { result ≡ line_moved (moved_in moves.now) line.now }
{
    let start = moves.at(u32::from(line.0))?;
    Some((start, line.1))
}

/// The bytes of a table of the lines.
fn table(alloc: Global, lines: &[Line]) -> Result<Bytes, NoMemory>
    ensures { IfOk result (λ bytes. bytes ≡ table lines.now) }
{
    let mut bytes = Bytes::new(alloc);
    put_number(&mut bytes, lines.len() as u64)?;
    let mut left = lines;
    while let [line, rest @ ..] = left {
        put_number(&mut bytes, u64::from(line.0))?;
        put_number(&mut bytes, u64::from(line.1))?;
        left = rest;
    }
    Ok(bytes)
}

/// Appends the lowest two bytes of the number.
fn put_number(out: &mut Bytes, n: u64) -> Result<(), NoMemory>
    ensures { OnOk result (out.new ≡ out.old ++ big_bytes 2 n) }
{
    let mut bytes = [0u8; 8];
    BigEndian::write_u64(&mut bytes, n);
    out.extend(&bytes[6..])
}
