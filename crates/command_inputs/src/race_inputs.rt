//! The files of a policy by itself, read in their order.

ghost use Rattle.std.specs.Prelude.{◌≡◌, ◌≤◌, IfOk};
ghost use Rattle.conspec_tree.specs.Tree.{IsPolicyTree};
ghost use Rattle.command_inputs.specs.Forms.{since};
ghost use Rattle.command_inputs.specs.RaceInputs.{RaceSound, ReadsRace, texts_read};
ghost use Rattle.mon_base.specs.Answer.{Answers};
ghost use Rattle.command_inputs.specs.Encoded.{PolicyEncoded};
ghost use Rattle.command_inputs.specs.Words.{race_named};

use crate::fault::InputFault;
use crate::files::Stop;
use crate::forms::{listing_read, policy_read};
use crate::named::{listing_of, policy_of};
use crate::words::RaceWords;
use api_listing::Listing;
use conspec_tree::PolicyTree;
use mon_base::Bytes;
use mon_store::Store;
use std::alloc::Global;

/// What the files of a policy by itself are.
#[derive(Drop)]
pub struct RaceInputs {
    pub listing: Listing,
    pub policy: PolicyTree,
}

/// Reads a listing, and then a policy over it.
pub fn listed_policy<S: Store>(
    alloc: Global,
    store: &mut S,
    listing: &Bytes,
    policy: &Bytes,
) -> Result<RaceInputs, Stop>
    ensures read { ReadsRace (S.files store.old) (since (S.faults store.old) (S.faults store.new) (S.last store.new))
        (record { policy = policy.now; listing = listing.now }) result }
    ensures sound { IfOk result RaceSound }
    ensures encodes { IfOk result (PolicyEncoded (S.files store.old) listing.now policy.now) }
    ensures files { S.files store.new ≡ S.files store.old }
    ensures faults { S.faults store.old ≤ S.faults store.new }
{
    let listing = listing_of(alloc, store, listing)?;
    let policy = policy_of(alloc, store, policy, &listing)?;
    Ok(RaceInputs { listing, policy })
}

/// Reads the files of a policy by itself in their order: listing, policy.
pub fn read_race<S: Store>(
    alloc: Global,
    store: &mut S,
    words: &RaceWords,
) -> Result<RaceInputs, Stop>
    ensures read { ReadsRace (S.files store.old) (since (S.faults store.old) (S.faults store.new) (S.last store.new))
        (race_named words.now) result }
    ensures sound { IfOk result (λ inputs. IsPolicyTree inputs.listing inputs.policy) }
    ensures files { S.files store.new ≡ S.files store.old }
    ensures faults { S.faults store.old ≤ S.faults store.new }
{
    listed_policy(alloc, store, words.listing, words.policy)
}

/// A listing, and a policy over it, of these texts.
pub fn policy_of_texts(
    alloc: Global,
    listing: &[u8],
    policy: &[u8],
) -> Result<RaceInputs, InputFault>
    ensures read { Answers InputFault.Memory result (texts_read listing.now policy.now) }
    ensures sound { IfOk result RaceSound }
{
    let listing = listing_read(alloc, listing)?;
    let policy = policy_read(alloc, policy, &listing)?;
    Ok(RaceInputs { listing, policy })
}
