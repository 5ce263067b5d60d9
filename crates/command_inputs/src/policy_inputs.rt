//! The files of a policy and of a run, read in their order.

ghost use Rattle.std.specs.Prelude.{◌≡◌, ◌≤◌, IfOk};
ghost use Rattle.command_inputs.specs.Forms.{Yields, ReadsForm, Then, since};
ghost use Rattle.command_inputs.specs.Kinds.{policy_form, record_form};
ghost use Rattle.command_inputs.specs.declared.policy_inputs.PolicyInputs.{PolicyInputs};
ghost use Rattle.api_listing.specs.Listing.{IsFew};
ghost use Rattle.conspec_tree.specs.Tree.{IsPolicyTree};
ghost use Rattle.command_inputs.specs.PolicyInputs.{IsOfListing, ReadsPolicy};
ghost use Rattle.command_inputs.specs.Words.{policy_named};

use crate::files::Stop;
use crate::named::{listing_of, policy_of, record_of};
use crate::words::PolicyWords;
use api_listing::Listing;
use conspec_tree::PolicyTree;
use event_record::Record;
use mon_store::Store;
use std::alloc::Global;

/// What the files of a policy and of a run are.
#[derive(Drop)]
pub struct PolicyInputs {
    pub policy: PolicyTree,
    pub recorded: Record,
}

/// Reads the policy, and then the record, over the listing.
fn read_over<S: Store>(
    alloc: Global,
    store: &mut S,
    words: &PolicyWords,
    listing: &Listing,
) -> Result<PolicyInputs, Stop>
    requires { IsFew listing.now }
    ensures read { Then {B = PolicyInputs}
        (ReadsForm (S.files store.old) (since (S.faults store.old) (S.faults store.new) (S.last store.new))
        (policy_named words.now).policy (policy_form listing.now)) (λ policy.
        Then (ReadsForm (S.files store.old) (since (S.faults store.old) (S.faults store.new) (S.last store.new))
        (policy_named words.now).recorded (record_form listing.now)) (λ recorded.
        Yields (record { policy = policy; recorded = recorded }))) result }
    ensures sound { IfOk result (λ inputs. IsPolicyTree listing.now inputs.policy) }
    ensures files { S.files store.new ≡ S.files store.old }
    ensures faults { S.faults store.old ≤ S.faults store.new }
{
    let policy = policy_of(alloc, store, words.policy, listing)?;
    let recorded = record_of(alloc, store, words.recorded, listing)?;
    Ok(PolicyInputs { policy, recorded })
}

/// Reads the files of a policy and of a run in their order: listing, policy, record.
pub fn read_policy<S: Store>(
    alloc: Global,
    store: &mut S,
    words: &PolicyWords,
) -> Result<PolicyInputs, Stop>
    ensures read { ReadsPolicy (S.files store.old) (since (S.faults store.old) (S.faults store.new) (S.last store.new))
        (policy_named words.now) result }
    ensures sound { IfOk result (λ inputs. IsOfListing inputs.policy) }
    ensures files { S.files store.new ≡ S.files store.old }
    ensures faults { S.faults store.old ≤ S.faults store.new }
{
    let listing = listing_of(alloc, store, words.listing)?;
    read_over(alloc, store, words, &listing)
}
