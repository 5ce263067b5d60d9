//! The files of which a program is woven, read in their order.

ghost use Rattle.std.specs.Prelude.{◌≡◌, ◌≤◌, length, IfOk};
ghost use Rattle.command_inputs.specs.Forms.{since};
ghost use Rattle.command_inputs.specs.InlineInputs.{InlineSound, ReadsInline};
ghost use Rattle.command_inputs.specs.InlineWords.{inline_named};

use crate::files::Stop;
use crate::inline_words::InlineWords;
use crate::named::{ReadClasses, classes_of};
use crate::race_inputs::listed_policy;
use api_listing::Listing;
use conspec_tree::PolicyTree;
use mon_store::Store;
use std::alloc::Global;

/// What the files of which a program is woven are.
#[derive(Drop)]
pub struct InlineInputs {
    pub listing: Listing,
    pub policy: PolicyTree,
    pub classes: ReadClasses,
}

/// Reads the files in their order: listing, policy, classes.
pub fn read_inline<S: Store>(
    alloc: Global,
    store: &mut S,
    words: &InlineWords,
) -> Result<InlineInputs, Stop>
    ensures read { ReadsInline (S.files store.old) (since (S.faults store.old) (S.faults store.new) (S.last store.new))
        (inline_named words.now) result }
    ensures sound { IfOk result InlineSound }
    ensures files { S.files store.new ≡ S.files store.old }
    ensures faults { S.faults store.old ≤ S.faults store.new }
{
    let inputs = listed_policy(alloc, store, words.listing, words.policy)?;
    let classes = classes_of(alloc, store, words.classes)?;
    Ok(InlineInputs {
        listing: inputs.listing,
        policy: inputs.policy,
        classes,
    })
}
