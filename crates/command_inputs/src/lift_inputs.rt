//! The files of a program, of a policy and of a run that is lifted, read in their order.

ghost use Rattle.std.specs.Prelude.{◌≡◌, ◌≤◌, IfOk};
ghost use Rattle.command_inputs.specs.Forms.{since};
ghost use Rattle.command_inputs.specs.LiftInputs.{LiftSound, ReadsLift};
ghost use Rattle.command_inputs.specs.LiftWords.{lift_named};

use crate::files::Stop;
use crate::lift_words::LiftWords;
use crate::named::ReadClasses;
use crate::race_inputs::listed_policy;
use crate::replay_inputs::recorded_classes;
use api_listing::Listing;
use conspec_tree::PolicyTree;
use event_record::Record;
use mon_store::Store;
use std::alloc::Global;

/// What the files of a program, of a policy and of a run that is lifted are.
#[derive(Drop)]
pub struct LiftInputs {
    pub listing: Listing,
    pub policy: PolicyTree,
    pub recorded: Record,
    pub classes: ReadClasses,
}

/// Reads the files in their order: listing, policy, record, classes.
pub fn read_lift<S: Store>(
    alloc: Global,
    store: &mut S,
    words: &LiftWords,
) -> Result<LiftInputs, Stop>
    ensures read { ReadsLift (S.files store.old) (since (S.faults store.old) (S.faults store.new) (S.last store.new))
        (lift_named words.now) result }
    ensures sound { IfOk result LiftSound }
    ensures files { S.files store.new ≡ S.files store.old }
    ensures faults { S.faults store.old ≤ S.faults store.new }
{
    let inputs = listed_policy(alloc, store, words.listing, words.policy)?;
    let (recorded, classes) = recorded_classes(
        alloc,
        store,
        &inputs.listing,
        words.recorded,
        words.classes,
    )?;
    Ok(LiftInputs {
        listing: inputs.listing,
        policy: inputs.policy,
        recorded,
        classes,
    })
}
