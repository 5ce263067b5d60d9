//! The command `race`: its inputs, and what is decided of the policy.

ghost use Rattle.std.specs.Prelude.{◌≡◌, ◌≤◌, ◌⊎◌, IfOk, IsOk, Ok};
ghost use Rattle.cert_format.specs.declared.certificate.Mode.TheVariants as modes;
ghost use Rattle.command_inputs.specs.Words.{Race, race_named};
ghost use Rattle.conspec_automaton.specs.Sound.{IsPolicy};
ghost use Rattle.conspec_tree.specs.Tree.{IsPolicyTree};
ghost use Rattle.inliner_tool.specs.Decision.{RaceDecides};
ghost use Rattle.inliner_tool.specs.Race.{Races, race_step, racy, undecided};
ghost use Rattle.inliner_tool.specs.Commands.{Makes, readings_of};
ghost use Rattle.inliner_tool.specs.Seen.{seen};
ghost use Rattle.inliner_tool.specs.Steps.{Equals, UnlessMemory};
ghost use Rattle.inliner_tool.specs.Weaving.{IsFreeOfRaces, auto_mode};
ghost use Rattle.inliner_tool.specs.declared.refusal.Ended.TheVariants as ends;
ghost use Rattle.race_free_check.specs.Deciding.{decided};

use crate::answer::{Answer, Made};
use crate::refusal::{Ended, Refusal, stopped};
use api_listing::{Event, Listing};
use cert_format::Mode;
use command_inputs::{RaceInputs, RaceWords, read_race};
use command_outputs::example_text;
use conspec_automaton::{Policy, State, build};
use conspec_tree::PolicyTree;
use mon_base::NoMemory;
use mon_store::Store;
use race_free_check::{RaceFault, RaceVerdict, decide};
use std::alloc::Global;

/// What `race` makes of its files.
pub fn make_race<S: Store>(alloc: Global, words: &RaceWords, store: &mut S) -> Result<Made, Ended>
    ensures makes { UnlessMemory (Makes (readings_of (seen S.files S.faults S.last store.old store.new))
        (Race (race_named words.now))) result }
    ensures files { S.files store.new ≡ S.files store.old }
    ensures faults { S.faults store.old ≤ S.faults store.new }
{
    match read_race(alloc, store, words) {
        Ok(inputs) => {
            let made = race_made(alloc, &inputs);
            drop(inputs);
            made
        }
        Err(stop) => Err(stopped(stop)),
    }
}

/// What is decided of the policy.
fn race_made(alloc: Global, inputs: &RaceInputs) -> Result<Made, Ended>
    requires { IsPolicyTree inputs.now.listing inputs.now.policy }
    ensures { UnlessMemory (Races inputs.now) result }
{
    let policy = match build(alloc, &inputs.policy) {
        Ok(policy) => policy,
        Err(NoMemory) => return Err(Ended::Memory),
    };
    match race_step(alloc, &inputs.policy, &inputs.listing, &policy) {
        Ok(()) => Ok(Made::just(alloc, Answer::RaceFree)),
        Err(ended) => Err(ended),
    }
}

/// That the policy of a tree is race-free, or why it is denied.
pub fn race_step(
    alloc: Global,
    tree: &PolicyTree,
    listing: &Listing,
    policy: &Policy,
) -> Result<(), Ended>
    requires { IsPolicy policy.now }
    ensures is { UnlessMemory (Equals (race_step tree.now listing.now (decided policy.now))) result }
    ensures free { IsOk result → IsFreeOfRaces policy.now }
{
    match decide(alloc, policy) {
        Ok(RaceVerdict::Free) => Ok(()),
        Ok(
            RaceVerdict::Racy {
                condition,
                state,
                first,
                second,
            },
        ) => Err(racy(alloc, tree, listing, condition, &state, &first, &second)),
        Err(fault) => Err(undecided(fault)),
    }
}

/// That the condition of this number is broken, as the state and the events show.
pub fn racy(
    alloc: Global,
    tree: &PolicyTree,
    listing: &Listing,
    condition: u8,
    state: &State,
    first: &Event,
    second: &Option<Event>,
) -> Ended
    ensures { (result ≡ ends.Refused (racy tree.now listing.now condition state.now first.now second.now)) ⊎ (result ≡ ends.Memory) }
{
    match example_text(alloc, tree, listing, state, first, second) {
        Ok(example) => Ended::Refused(Refusal::Racy { condition, example }),
        Err(NoMemory) => Ended::Memory,
    }
}

/// The mode in which the policy is woven where none is named: the lock is let go where it is decided that the policy is race-free,
/// and held elsewhere.
pub fn auto_mode(alloc: Global, policy: &Policy) -> Result<Mode, NoMemory>
    requires { IsPolicy policy.now }
    ensures is { IfOk result (λ mode. mode ≡ auto_mode (decided policy.now)) }
    ensures free { IfOk result (λ mode. mode ≡ modes.Release → IsFreeOfRaces policy.now) }
{
    match decide(alloc, policy) {
        Ok(RaceVerdict::Free) => Ok(Mode::Release),
        Ok(RaceVerdict::Racy { .. }) => Ok(Mode::Hold),
        Err(RaceFault::CellLimit { .. }) => Ok(Mode::Hold),
        Err(RaceFault::Memory) => Err(NoMemory),
    }
}

/// Why it is not decided.
fn undecided(fault: RaceFault) -> Ended
    ensures { result ≡ undecided fault }
{
    match fault {
        RaceFault::CellLimit {
            first,
            second,
            count,
        } => Ended::Refused(Refusal::CellLimit {
            first,
            second,
            count,
        }),
        RaceFault::Memory => Ended::Memory,
    }
}

/// To files that are a listing and a policy, where the store tells them and counts no fault, `race` answers yes or no,
/// unless memory runs out: its status is 0, 1 or 7.
pub fn race_decides()
    ensures { RaceDecides }
{}
