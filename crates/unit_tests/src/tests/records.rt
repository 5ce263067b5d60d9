//! Records that are written, over a small listing, which no command does. What is read of a record, and what is none, is told in
//! tests/texts, tests/policies and tests/replay, through the built program.

mod answers;
mod writing;

ghost use Rattle.std.specs.Prelude.{◌<◌, ◌^◌, length, IfOk};

use api_listing::Listing;
use event_record::{Record, read_record};
use listing_text::read;
use std::alloc::Global;
use std::test::Fail;

const LISTING: &[u8] =
    b"class api/Net extends java/lang/Object\nclass api/Broken extends java/lang/Exception\n\
    static api/Net send ()V\nstatic api/Net read ()I\nmethod api/Net push (I)V\n\
    method api/Net find (ILjava/lang/String;)[Ljava/lang/String;\n";

/// The listing that the records are over.
pub fn listing(alloc: Global) -> Result<Listing, Fail>
    ensures { IfOk result (λ listing. length listing.methods < 2 ^ 32) }
{
    match read(alloc, LISTING) {
        Ok(listing) => Ok(listing),
        Err(_) => Err("the listing".into()),
    }
}

/// What is read of the text.
pub fn record_of(alloc: Global, text: &[u8]) -> Result<Record, Fail> {
    let listing = listing(alloc)?;
    match read_record(alloc, text, &listing) {
        Ok(record) => Ok(record),
        Err(_) => Err("the text is a record".into()),
    }
}
