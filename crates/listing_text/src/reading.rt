//! A listing out of its text.

ghost use Rattle.std.specs.Prelude.{◌≡◌, ◌||◌, ℕ, List, map, IfOk, OnOk, MatchResult};
ghost use Rattle.listing_text.specs.declared.fault.ListFault.TheVariants as faults;
ghost use Rattle.api_listing.specs.declared.types.Listing.{Listing};
ghost use Rattle.mon_base.specs.Answer.{Answers};
ghost use Rattle.api_listing.specs.Seen.{has_name};
ghost use Rattle.api_listing.specs.Listing.{is_known, EncodesListing, IsFew};
ghost use Rattle.listing_text.specs.Reading.{is_named, class_said, classes_in, read_lines, reading};
ghost use Rattle.listing_text.specs.Saying.{said_lines};

use crate::draft::listing_of;
use crate::fault::ListFault;
use crate::lines::{Said, count_lines, said_lines};
use crate::seen::{add_name, names_of};
use crate::words::parts_of;
use api_listing::{Declaration, Listing, built_in_classes};
use mon_base::{Bytes, NoMemory};
use std::alloc::Global;
use std::collections::BTreeSet;

/// The listing that the text encodes, or what is wrong with its first line that is wrong.
pub fn read(alloc: Global, text: &[u8]) -> Result<Listing, ListFault>
    // What is read decides the answer, and of several faults which one.
    ensures exact { Answers ListFault.Memory result (reading text.now) }
    // What is read is encoded so.
    ensures found { IfOk result (λ l. EncodesListing text.now l) }
    // What is encoded so is read, unless memory runs out.
    ensures only { (l : Listing) → EncodesListing text.now l
        → MatchResult result (λ r. r ≡ l) (λ e. e ≡ faults.Memory) }
    // It is few, so that an index of a method fits 32 bits.
    ensures few { IfOk result (λ l. IsFew l) }
{
    read_text(alloc, text)
}

#[tactic(auto, unfolding(crate::specs::Reading::reading))]
fn read_text(alloc: Global, text: &[u8]) -> Result<Listing, ListFault>
    ensures { Answers ListFault.Memory result (reading text.now) }
{
    let pieces = parts_of(alloc, text, b'\n')?;
    read_pieces(alloc, pieces.as_slice())
}

/// The listing of which these are the pieces. They are counted first, since a line takes more memory once it is read.
fn read_pieces(alloc: Global, pieces: &[&[u8]]) -> Result<Listing, ListFault>
    ensures { Answers ListFault.Memory result (read_lines (said_lines (map (λ p. p.now) pieces.now))) }
{
    let count = count_lines(pieces);
    if count > 20_000 {
        return Err(ListFault::TooMany {
            count: count as u64,
        });
    }
    let lines = said_lines(alloc, pieces)?;
    let known = names_in(alloc, lines.as_slice())?;
    listing_of(alloc, &known, lines.as_slice())
}

/// The names of all classes: those built in, and those that a line declares.
fn names_in(alloc: Global, lines: &[Said]) -> Result<BTreeSet<Bytes>, NoMemory>
    ensures { IfOk result (λ names. (q : List ℕ) → has_name names q ≡ is_known (classes_in lines.now) q) }
{
    let classes = built_in_classes(alloc)?;
    let mut names = names_of(alloc, classes.as_slice())?;
    for line in lines {
        add_class(alloc, &mut names, line)?;
    }
    Ok(names)
}

fn add_class(alloc: Global, names: &mut BTreeSet<Bytes>, line: &Said) -> Result<(), NoMemory>
    ensures { OnOk result ((q : List ℕ) → has_name names.new q
        ≡ (is_named q (class_said line.now) || has_name names.old q)) }
{
    let Said::Says(Declaration::Class(class)) = line else {
        return Ok(());
    };
    add_name(alloc, names, &class.name)
}
