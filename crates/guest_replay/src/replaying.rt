//! The steps of a run, made one after the other from the start.

ghost use Rattle.std.specs.Prelude.{◌≡◌};
ghost use Rattle.guest_replay.specs.Replaying.{ReplaysAreRuns, after_step, replayed, replayed_from};
ghost use Rattle.guest_replay.specs.declared.replaying.ReplayFault.TheVariants as faults;
ghost use Rattle.mon_base.specs.Answer.{Answers, AnswersAs};

use api_listing::Event;
use guest_model::{Machine, Step, StepFault, Steps};
use mon_base::{List, NoMemory};
use std::alloc::Global;
use thiserror::Error;

/// What the library saw of a run, and where it left the machine.
#[derive(Drop)]
pub struct Replayed {
    pub events: List<Event>,
    pub machine: Machine,
}

/// Why a run is not made.
#[derive(Clone, Copy, Debug, Error)]
pub enum ReplayFault {
    /// The step of this index, from 0, is not enabled in its place.
    #[error("step {index} is not enabled")]
    NotEnabled { index: u64 },
    #[error("out of memory")]
    Memory,
}

impl From<NoMemory> for ReplayFault {
    ghost from_gives = { λ _ e. e ≡ faults.Memory };

    fn from(_error: NoMemory) -> ReplayFault {
        ReplayFault::Memory
    }
}

/// Makes these steps from the start, or tells the first that is not enabled in its place. Nothing is copied but the events.
pub fn replay<S: Steps>(alloc: Global, guest: &S, steps: &[Step]) -> Result<Replayed, ReplayFault>
    ensures { Answers ReplayFault.Memory result (replayed (S.program guest.now) steps.now) }
{
    let mut run = Replayed {
        events: List::new(alloc),
        machine: guest.start(alloc)?,
    };
    make_all(alloc, guest, &mut run, steps)?;
    Ok(run)
}

/// Makes these steps in the run, of which the first has the index 0.
fn make_all<S: Steps>(
    alloc: Global,
    guest: &S,
    run: &mut Replayed,
    steps: &[Step],
) -> Result<(), ReplayFault>
    ensures { AnswersAs ReplayFault.Memory (λ done. run.new) result (replayed_from (S.program guest.now) 0 run.old steps.now) }
{
    let mut index = 0u64;
    let mut left = steps;
    while let [next, rest @ ..] = left {
        make_next(alloc, guest, index, run, next)?;
        index += 1;
        left = rest;
    }
    Ok(())
}

/// Makes one more step in the run, which has this index.
fn make_next<S: Steps>(
    alloc: Global,
    guest: &S,
    index: u64,
    run: &mut Replayed,
    next: &Step,
) -> Result<(), ReplayFault>
    ensures { AnswersAs ReplayFault.Memory (λ done. run.new) result (after_step (S.program guest.now) index run.old next.now) }
{
    match guest.step(alloc, &mut run.machine, next) {
        Ok(Some(event)) => {
            run.events.push(event)?;
            Ok(())
        }
        Ok(None) => Ok(()),
        Err(StepFault::NotEnabled) => Err(ReplayFault::NotEnabled { index }),
        Err(StepFault::Memory) => Err(ReplayFault::Memory),
    }
}

/// Where all steps of a list are made, each was enabled in its place, and the events and the machine are those of the run;
/// else the step that is told is the first that is not.
pub fn replays_are_runs()
    ensures runs { ReplaysAreRuns }
{}
