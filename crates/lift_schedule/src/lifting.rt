//! The steps of a client, lifted one after another.

ghost use Rattle.std.specs.Prelude.{◌≡◌, IfOk, IsTrue, length};
ghost use Rattle.block_template.specs.Blocks.{plan_of};
ghost use Rattle.class_weaving.specs.Woven.{AllLocalsFit};
ghost use Rattle.conspec_automaton.specs.Range.{in_range};
ghost use Rattle.conspec_automaton.specs.Sound.{IsPolicy};
ghost use Rattle.lift_schedule.specs.Lifting.{after_step, blocks_in, lift_from, lift_of, lift_start};
ghost use Rattle.lift_schedule.specs.Running.{lifted_stepped};
ghost use Rattle.lift_schedule.specs.Standing.{table_of};
ghost use Rattle.mon_base.specs.Answer.{Answers, AnswersAs};

use crate::client::{ClientRun, client_start, step_client};
use crate::fault::LiftFault;
use crate::standing::Standings;
use crate::woven::{WovenRun, step_lifted, woven_start};
use block_template::PolicyPlan;
use bytecode_model::Program;
use cert_format::Mode;
use conspec_automaton::Policy;
use guest_model::{Step, Steps};
use mon_base::{List, NoMemory};
use std::alloc::Global;
use std::collections::VecDeque;

/// The run of the client, and the lifted one.
#[derive(Drop)]
pub struct Lifted {
    pub client: ClientRun,
    pub woven: WovenRun,
}

/// What is lifted: a client and what the policy is woven to in the mode, and where blocks stand in that.
#[derive(Drop)]
pub struct Lifting<'a, S: Steps> {
    pub client: &'a S,
    pub woven: &'a S,
    pub policy: &'a Policy,
    pub mode: Mode,
}

/// Makes the client's steps and those to which they are lifted, from the start: both runs, or the first step that is not lifted.
/// (`lifts_are_told`)
pub fn lift<S: Steps>(
    alloc: Global,
    of: &Lifting<S>,
    standings: &Standings,
    steps: List<Step>,
) -> Result<Lifted, LiftFault>
    requires policy { IsPolicy of.now.policy.now }
    requires standings { standings.now ≡ table_of (blocks_in of.now.policy.now of.now.mode) (S.program of.now.client.now) }
    ensures { Answers LiftFault.Memory result
        (lift_of of.now.policy.now of.now.mode (S.program of.now.client.now) (S.program of.now.woven.now) steps) }
{
    let mut run = Lifted {
        client: client_start(alloc, of.client, of.policy)?,
        woven: woven_start(alloc, of.woven)?,
    };
    let mut index = 0u64;
    let mut left = VecDeque::from_vec(steps.into_vec());
    while let Some(step) = left.pop_front() {
        step_both(alloc, of, standings, index, step, &mut run)?;
        index += 1;
    }
    Ok(run)
}

/// One more step of the client, which has this index, and those to which it is lifted.
fn step_both<S: Steps>(
    alloc: Global,
    of: &Lifting<S>,
    standings: &Standings,
    index: u64,
    step: Step,
    run: &mut Lifted,
) -> Result<(), LiftFault>
    requires policy { IsPolicy of.now.policy.now }
    requires ranged { IsTrue (in_range of.now.policy.now run.old.client.state) }
    requires standings { standings.now ≡ table_of (blocks_in of.now.policy.now of.now.mode) (S.program of.now.client.now) }
    ensures step { AnswersAs LiftFault.Memory (λ done. run.new) result
        (after_step of.now.policy.now of.now.mode (S.program of.now.client.now) (S.program of.now.woven.now) index run.old step) }
    ensures ranged { IsTrue (in_range of.now.policy.now run.new.client.state) }
{
    step_client(
        alloc,
        of.client,
        of.policy,
        of.mode,
        index,
        &step,
        &mut run.client,
    )?;
    step_woven(alloc, of, standings, index, step, &mut run.woven)
}

/// The steps of the woven program for the client's of this index.
fn step_woven<S: Steps>(
    alloc: Global,
    of: &Lifting<S>,
    standings: &Standings,
    index: u64,
    step: Step,
    run: &mut WovenRun,
) -> Result<(), LiftFault>
    requires { standings.now ≡ table_of (blocks_in of.now.policy.now of.now.mode) (S.program of.now.client.now) }
    ensures { AnswersAs LiftFault.Memory (λ done. run.new) result (lifted_stepped (blocks_in of.now.policy.now of.now.mode)
        (S.program of.now.client.now) (S.program of.now.woven.now) index step run.old) }
{
    match step_lifted(alloc, of.woven, standings, index, step, run) {
        Ok(()) => Ok(()),
        Err(fault) => Err(fault),
    }
}

/// How the instructions of what the policy is woven to stand to their blocks.
pub fn standings_of(
    alloc: Global,
    client: &Program,
    policy: &Policy,
    mode: Mode,
) -> Result<Standings, NoMemory>
    requires policy { IsPolicy policy.now }
    requires locals { AllLocalsFit (plan_of policy.now mode) client.now }
    ensures { IfOk result (λ table. table ≡ table_of (blocks_in policy.now mode) client.now) }
{
    let plan = PolicyPlan::new(policy, mode);
    Standings::new(alloc, &plan, client)
}
