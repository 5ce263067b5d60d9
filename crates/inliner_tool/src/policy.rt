//! The command `policy`: its inputs, and what the policy says of the run.

ghost use Rattle.std.specs.Prelude.{◌≡◌, ◌≤◌};
ghost use Rattle.command_inputs.specs.Words.{Policy, policy_named};
ghost use Rattle.command_inputs.specs.PolicyInputs.{IsOfListing};
ghost use Rattle.inliner_tool.specs.Policy.{Judges};
ghost use Rattle.inliner_tool.specs.Commands.{Makes, readings_of};
ghost use Rattle.inliner_tool.specs.Seen.{seen};
ghost use Rattle.inliner_tool.specs.Steps.{UnlessMemory};

use crate::answer::{Answer, Made};
use crate::refusal::{Ended, stopped};
use command_inputs::{PolicyInputs, PolicyWords, read_policy};
use conspec_automaton::{accept, build};
use mon_base::NoMemory;
use mon_store::Store;
use std::alloc::Global;

/// What `policy` makes of its files.
pub fn make_policy<S: Store>(
    alloc: Global,
    words: &PolicyWords,
    store: &mut S,
) -> Result<Made, Ended>
    ensures makes { UnlessMemory (Makes (readings_of (seen S.files S.faults S.last store.old store.new))
        (Policy (policy_named words.now))) result }
    ensures files { S.files store.new ≡ S.files store.old }
    ensures faults { S.faults store.old ≤ S.faults store.new }
{
    match read_policy(alloc, store, words) {
        Ok(inputs) => {
            let made = policy_made(alloc, &inputs);
            drop(inputs);
            made
        }
        Err(stop) => Err(stopped(stop)),
    }
}

/// What the policy says of the events of the run.
fn policy_made(alloc: Global, inputs: &PolicyInputs) -> Result<Made, Ended>
    requires { IsOfListing inputs.now.policy }
    ensures { UnlessMemory (Judges inputs.now) result }
{
    match build(alloc, &inputs.policy) {
        Ok(policy) => {
            let verdict = accept(&policy, inputs.recorded.events.as_slice());
            Ok(Made::just(alloc, Answer::Judged(verdict)))
        }
        Err(NoMemory) => Err(Ended::Memory),
    }
}
