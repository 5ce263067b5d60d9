//! The files of a program and of a run of it, read in their order.

ghost use Rattle.std.specs.Prelude.{◌≡◌, ◌≤◌, IfOk};
ghost use Rattle.std.specs.List.{AllByRecursion};
ghost use Rattle.api_listing.specs.Listing.{IsFew};
ghost use Rattle.class_codec.specs.Fits.{IsEncodable};
ghost use Rattle.command_inputs.specs.Forms.{since};
ghost use Rattle.command_inputs.specs.Kinds.{record_form};
ghost use Rattle.command_inputs.specs.Named.{ReadsBefore};
ghost use Rattle.command_inputs.specs.ReplayInputs.{ReadsReplay, ReplaySound};
ghost use Rattle.command_inputs.specs.ReplayWords.{replay_named};

use crate::files::Stop;
use crate::named::{ReadClasses, classes_of, listing_of, record_of};
use crate::replay_words::ReplayWords;
use api_listing::Listing;
use event_record::Record;
use mon_base::Bytes;
use mon_store::Store;
use std::alloc::Global;

/// What the files of a program and of a run of it are.
#[derive(Drop)]
pub struct ReplayInputs {
    pub listing: Listing,
    pub recorded: Record,
    pub classes: ReadClasses,
}

/// Reads a record, over the listing, and then classes.
pub fn recorded_classes<S: Store>(
    alloc: Global,
    store: &mut S,
    listing: &Listing,
    recorded: &Bytes,
    classes: &[Bytes],
) -> Result<(Record, ReadClasses), Stop>
    requires { IsFew listing.now }
    ensures read { ReadsBefore (S.files store.old) (since (S.faults store.old) (S.faults store.new) (S.last store.new))
        recorded.now (record_form listing.now) classes.now result }
    ensures fits { IfOk result (λ r. AllByRecursion IsEncodable r.1.files) }
    ensures files { S.files store.new ≡ S.files store.old }
    ensures faults { S.faults store.old ≤ S.faults store.new }
{
    let recorded = record_of(alloc, store, recorded, listing)?;
    let classes = classes_of(alloc, store, classes)?;
    Ok((recorded, classes))
}

/// Reads the files of a program and of a run of it in their order: listing, record, classes.
pub fn read_replay<S: Store>(
    alloc: Global,
    store: &mut S,
    words: &ReplayWords,
) -> Result<ReplayInputs, Stop>
    ensures read { ReadsReplay (S.files store.old) (since (S.faults store.old) (S.faults store.new) (S.last store.new))
        (replay_named words.now) result }
    ensures sound { IfOk result ReplaySound }
    ensures files { S.files store.new ≡ S.files store.old }
    ensures faults { S.faults store.old ≤ S.faults store.new }
{
    let listing = listing_of(alloc, store, words.listing)?;
    let (recorded, classes) = recorded_classes(
        alloc,
        store,
        &listing,
        words.recorded,
        words.classes,
    )?;
    Ok(ReplayInputs {
        listing,
        recorded,
        classes,
    })
}
