//! The pieces of a text.

ghost use Rattle.std.specs.Prelude.{◌≡◌, IfOk, map};
ghost use Rattle.api_listing.specs.Words.{pieces};

use mon_base::{Bytes, List, NoMemory};
use std::alloc::{AllocError, Global};

/// The pieces of the text before, between and after the places of the byte.
pub fn pieces(alloc: Global, text: &[u8], byte: u8) -> Result<List<Bytes>, NoMemory>
    ensures { IfOk result (λ ps. ps ≡ pieces byte text.now) }
{
    let parts = parts_of(alloc, text, byte)?;
    copies_of(alloc, parts.as_slice())
}

/// The same as places of the text, not copied.
pub fn parts_of(alloc: Global, text: &[u8], byte: u8) -> Result<Vec<&[u8]>, AllocError>
    ensures { IfOk result (λ v. map (λ p. p.now) v.items ≡ pieces byte text.now) }
{
    text.split(|b| *b == byte).collect(alloc)
}

fn copies_of(alloc: Global, parts: &[&[u8]]) -> Result<List<Bytes>, NoMemory>
    ensures { IfOk result (λ ps. ps ≡ map (λ p. p.now) parts.now) }
{
    let mut copies = List::new(alloc);
    for part in parts {
        let copy = Bytes::from_slice(alloc, part)?;
        copies.push(copy)?;
    }
    Ok(copies)
}
