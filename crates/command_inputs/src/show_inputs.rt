//! The files that are shown, read in their order.

ghost use Rattle.std.specs.Prelude.{◌≡◌, ◌≤◌, IfOk};
ghost use Rattle.command_inputs.specs.Forms.{since};
ghost use Rattle.std.specs.List.{AllByRecursion};
ghost use Rattle.class_codec.specs.Fits.{IsEncodable};
ghost use Rattle.command_inputs.specs.ShowInputs.{ReadsShow};
ghost use Rattle.command_inputs.specs.Words.{show_named};

use crate::files::Stop;
use crate::named::{ReadClasses, classes_of, listing_of};
use crate::words::ShowWords;
use api_listing::Listing;
use mon_store::Store;
use std::alloc::Global;

/// What the files that are shown are.
#[derive(Drop)]
pub struct ShowInputs {
    pub listing: Listing,
    pub classes: ReadClasses,
}

/// Reads the files that are shown in their order: listing, classes.
pub fn read_show<S: Store>(
    alloc: Global,
    store: &mut S,
    words: &ShowWords,
) -> Result<ShowInputs, Stop>
    ensures read { ReadsShow (S.files store.old) (since (S.faults store.old) (S.faults store.new) (S.last store.new))
        (show_named words.now) result }
    ensures fits { IfOk result (λ inputs. AllByRecursion IsEncodable inputs.classes.files) }
    ensures files { S.files store.new ≡ S.files store.old }
    ensures faults { S.faults store.old ≤ S.faults store.new }
{
    let listing = listing_of(alloc, store, words.listing)?;
    let classes = classes_of(alloc, store, words.classes)?;
    Ok(ShowInputs { listing, classes })
}
