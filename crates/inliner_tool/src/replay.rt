//! The command `replay`: its inputs, and what is told of the run.

ghost use Rattle.std.specs.Prelude.{◌≡◌, ◌≤◌, IfOk};
ghost use Rattle.cert_format.specs.declared.typing.Typing.{Typing};
ghost use Rattle.command_inputs.specs.ReplayWords.{replay_named};
ghost use Rattle.command_inputs.specs.Words.{Replay};
ghost use Rattle.guest_model.specs.Ready.{IsReady};
ghost use Rattle.inliner_tool.specs.Commands.{Makes, readings_of};
ghost use Rattle.inliner_tool.specs.Seen.{seen};
ghost use Rattle.inliner_tool.specs.Programs.{Types};
ghost use Rattle.inliner_tool.specs.Replay.{InputsRun, ReplayedRuns, Replays, Tells, end_told, run_text, steps_told};
ghost use Rattle.inliner_tool.specs.ReplayDecision.{ReplayDecides};
ghost use Rattle.inliner_tool.specs.Running.{RunsTyped};
ghost use Rattle.inliner_tool.specs.Steps.{Equals, UnlessMemory};
ghost use Rattle.command_inputs.specs.Forms.{Then};
ghost use Rattle.command_inputs.specs.ReplayInputs.{ReplaySound};
ghost use Rattle.typed_runs.specs.Programs.{IsLinkedProgram};

use crate::answer::{Answer, Made};
use crate::programs::{program_of, types_of};
use crate::refusal::{Ended, stopped};
use crate::running::linked_programs_run_typed;
use bytecode_model::Side;
use command_inputs::{ReplayInputs, ReplayWords, read_replay};
use event_record::{EndLine, events_text};
use guest_model::{End, Step, Steps};
use guest_replay::{Replayed, replay};
use guest_step::Stepper;
use mon_base::{Bytes, NoMemory};
use mon_store::Store;
use std::alloc::Global;
use type_lattice::Indexed;

/// What `replay` makes of its files.
pub fn make_replay<S: Store>(
    alloc: Global,
    words: &ReplayWords,
    store: &mut S,
) -> Result<Made, Ended>
    ensures makes { UnlessMemory (Makes (readings_of (seen S.files S.faults S.last store.old store.new))
        (Replay (replay_named words.now))) result }
    ensures runs { IfOk result (λ made.
        ReplayedRuns (seen S.files S.faults S.last store.old store.new) (replay_named words.now)) }
    ensures files { S.files store.new ≡ S.files store.old }
    ensures faults { S.faults store.old ≤ S.faults store.new }
{
    match read_replay(alloc, store, words) {
        Ok(inputs) => replay_made(alloc, inputs, words.main),
        Err(stop) => Err(stopped(stop)),
    }
}

/// The run, told.
fn replay_made(alloc: Global, inputs: ReplayInputs, main: &Bytes) -> Result<Made, Ended>
    requires { ReplaySound inputs }
    ensures replays { UnlessMemory (Replays main.now inputs) result }
    ensures runs { IfOk result (λ made. InputsRun main.now inputs) }
{
    match told(alloc, inputs, main) {
        Ok(text) => Ok(Made::just(alloc, Answer::Replayed(text))),
        Err(ended) => Err(ended),
    }
}

/// Links and types the class files, makes the steps of the record, and tells the run.
fn told(alloc: Global, inputs: ReplayInputs, main: &Bytes) -> Result<Bytes, Ended>
    requires { ReplaySound inputs }
    ensures tells { UnlessMemory (Tells main.now inputs) result }
    ensures runs { IfOk result (λ text. InputsRun main.now inputs) }
{
    let ReplayInputs {
        listing,
        recorded,
        classes,
    } = inputs;
    let program = program_of(alloc, listing, classes, main, Side::Inlined)?;
    let told = typed_told(alloc, program, recorded.steps.as_slice());
    drop(recorded);
    told
}

/// What is told of the run that these steps are, of a program that has types.
fn typed_told(alloc: Global, program: Indexed, steps: &[Step]) -> Result<Bytes, Ended>
    requires ready { IsReady program }
    requires linked { IsLinkedProgram program }
    ensures tells { UnlessMemory (Then (Types program) (λ typing. Equals (steps_told program steps.now))) result }
    ensures runs { IfOk result (λ text. (typing : Typing) × RunsTyped program typing) }
{
    linked_programs_run_typed();
    match types_of(alloc, &program) {
        Ok(_) => steps_told(alloc, program, steps),
        Err(ended) => {
            drop(program);
            Err(ended)
        }
    }
}

/// What is told of the run that these steps are.
fn steps_told(alloc: Global, program: Indexed, steps: &[Step]) -> Result<Bytes, Ended>
    requires { IsReady program }
    ensures { UnlessMemory (Equals (steps_told program steps.now)) result }
{
    let stepper = Stepper::new(alloc, program)?;
    let told = run_told(alloc, &stepper, steps);
    drop(stepper);
    told
}

/// What is told of the run that these steps are of the stepper's program.
fn run_told(alloc: Global, stepper: &Stepper, steps: &[Step]) -> Result<Bytes, Ended>
    ensures { UnlessMemory (Equals (steps_told stepper.now steps.now)) result }
{
    let run = replay(alloc, stepper, steps)?;
    let text = run_text(alloc, stepper, steps.len() as u64, &run);
    drop(run);
    Ok(text?)
}

/// The lines of the events of a run of so many steps, and its end line.
fn run_text(alloc: Global, stepper: &Stepper, count: u64, run: &Replayed) -> Result<Bytes, NoMemory>
    ensures { IfOk result (λ text. text ≡ run_text stepper.now count run.now) }
{
    let end = end_told(stepper.ended(&run.machine));
    events_text(
        alloc,
        &stepper.program().listing,
        run.events.as_slice(),
        end,
        count,
    )
}

/// How a record tells the end, or that there was none.
pub fn end_told(end: Option<End>) -> EndLine
    ensures { result ≡ end_told end }
{
    let Some(end) = end else {
        return EndLine::Running;
    };
    match end {
        End::Finished => EndLine::Finished,
        End::Deadlock => EndLine::Deadlock,
        End::Stopped(value) => EndLine::Stopped(value),
    }
}

/// To files in their grammars and limits that link to a program with types, where the store tells them and counts no fault,
/// `replay` tells the run, or the first step that is not enabled, unless memory runs out: its status is 0, 1 or 7.
pub fn replay_decides()
    ensures { ReplayDecides }
{}
