//! The run of the woven program: its machine, and its lines.

ghost use Rattle.std.specs.Prelude.{◌≡◌, ◌<◌, IfOk};
ghost use Rattle.mon_base.specs.Answer.{AnswersAs};
ghost use Rattle.guest_erasing.specs.Lifting.{plain_step};
ghost use Rattle.lift_schedule.specs.Running.{HasGoneOn, climbed, gone, lifted_by, woven_start, woven_stepped};
ghost use Rattle.lift_schedule.specs.Standing.{table_goes, thread_count};

use crate::fault::LiftFault;
use crate::standing::{Standings, Way};
use event_record::Line;
use guest_model::{Choice, Machine, Step, StepFault, Steps};
use mon_base::{List, NoMemory};
use std::alloc::Global;

/// A run of the woven program, and its lines.
#[derive(Drop)]
pub struct WovenRun {
    pub machine: Machine,
    pub lines: List<Line>,
}

/// The run of no steps.
pub fn woven_start<S: Steps>(alloc: Global, woven: &S) -> Result<WovenRun, NoMemory>
    ensures { IfOk result (λ run. run ≡ woven_start (S.program woven.now)) }
{
    let machine = woven.start(alloc)?;
    Ok(WovenRun {
        machine,
        lines: List::new(alloc),
    })
}

/// Makes one more step, which stands for the client's of this index.
fn step_woven<S: Steps>(
    alloc: Global,
    woven: &S,
    index: u64,
    step: Step,
    run: &mut WovenRun,
) -> Result<(), LiftFault>
    ensures { AnswersAs LiftFault.Memory (λ done. run.new) result (woven_stepped (S.program woven.now) index step run.old) }
{
    match woven.step(alloc, &mut run.machine, &step) {
        Ok(event) => {
            run.lines.push(Line { step, event })?;
            Ok(())
        }
        Err(StepFault::NotEnabled) => Err(LiftFault::NotEnabled { index }),
        Err(StepFault::Memory) => Err(LiftFault::Memory),
    }
}

fn plain_step(thread: u32) -> Step
    ensures { result ≡ plain_step thread }
{
    Step {
        thread,
        choice: Choice::Plain,
    }
}

/// Makes plain steps of the thread while it goes this way.
fn go<S: Steps>(
    alloc: Global,
    woven: &S,
    standings: &Standings,
    way: Way,
    index: u64,
    number: u32,
    run: &mut WovenRun,
) -> Result<(), LiftFault>
    ensures { AnswersAs LiftFault.Memory (λ done. run.new) result
        (gone (S.program woven.now) (λ way. table_goes way standings.now) (thread_count standings.now) way index number run.old) }
{
    let mut left = standings.count(&run.machine, number);
    while left > 0 {
        if !goes_on(alloc, woven, standings, way, index, number, left, run)? {
            return Ok(());
        }
        left -= 1;
    }
    Ok(())
}

/// Makes a plain step of the thread, if it goes this way, and tells whether it did.
fn goes_on<S: Steps>(
    alloc: Global,
    woven: &S,
    standings: &Standings,
    way: Way,
    index: u64,
    number: u32,
    left: usize,
    run: &mut WovenRun,
) -> Result<bool, LiftFault>
    requires { 0 < left }
    ensures { HasGoneOn (climbed (S.program woven.now) (table_goes way standings.now) index number) left run.old run.new result }
{
    if !standings.goes(way, &run.machine, number) {
        return Ok(false);
    }
    match step_woven(alloc, woven, index, plain_step(number), run) {
        Ok(()) => Ok(true),
        Err(fault) => Err(fault),
    }
}

/// Makes the client's step of this index, lifted: the thread goes up to its call, makes it, and leaves its block.
pub fn step_lifted<S: Steps>(
    alloc: Global,
    woven: &S,
    standings: &Standings,
    index: u64,
    step: Step,
    run: &mut WovenRun,
) -> Result<(), LiftFault>
    ensures { AnswersAs LiftFault.Memory (λ done. run.new) result
        (lifted_by (S.program woven.now) (λ way. table_goes way standings.now) (thread_count standings.now) index step run.old) }
{
    let number = step.thread;
    go(alloc, woven, standings, Way::Up, index, number, run)?;
    step_woven(alloc, woven, index, step, run)?;
    go(alloc, woven, standings, Way::Out, index, number, run)
}
