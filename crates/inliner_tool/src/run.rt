//! The command `run`: its inputs are checked, as by `check`, and the program is run.

ghost use Rattle.std.specs.Prelude.{◌≡◌, ◌≤◌, ℕ, Err, FitsSigned, IfSome, None, Ok};
ghost use Rattle.std.specs.Int.{w32};
ghost use Rattle.api_shelf.specs.Shelf.{AllAreSilent, views};
ghost use Rattle.command_inputs.specs.Words.{Run, run_named};
ghost use Rattle.event_record.specs.Encoding.{IsStopValue};
ghost use Rattle.event_record.specs.Writing.{ending_of};
ghost use Rattle.guest_model.specs.Ready.{IsReady};
ghost use Rattle.guest_model.specs.Turns.{MakesWhatIsEnabled};
ghost use Rattle.guest_runner.specs.Book.{identity, new_book};
ghost use Rattle.guest_runner.specs.PlainAnswers.{PlainAnswersFit};
ghost use Rattle.command_inputs.specs.CheckInputs.{AreSound};
ghost use Rattle.inliner_tool.specs.Commands.{Makes, readings_of};
ghost use Rattle.inliner_tool.specs.Run.{
  Executes,
  HasBook,
  HasBookOrNone,
  HasStopValue,
  IsKept,
  IsRunAs,
  IsRunOfInputs,
  IsWithin,
  RunsAreReplayed,
  KeepsRun,
  Runs,
  TellsBook,
  interpreted,
  record_made,
  told_by,
  told_of,
};
ghost use Rattle.inliner_tool.specs.RunDecision.{RunDecides};
ghost use Rattle.inliner_tool.specs.Seen.{seen};
ghost use Rattle.inliner_tool.specs.Steps.{Equals, UnlessMemory};

use crate::answer::{Answer, Made};
use crate::check::{Checked, inputs_checked};
use crate::refusal::{Ended, stopped};
use api_shelf::{ApiDevice, SlotOf, plain_answers_are_by_type};
use command_inputs::{CheckInputs, RunWords, read_check};
use event_record::{EndLine, lines_of_runs_are_told, record_text};
use guest_replay::replays_are_runs;
use guest_runner::{Gate, RunBook, RunStop, run, runs_are_traces};
use guest_step::Interpreter;
use mon_base::{Bytes, NoMemory};
use mon_store::Store;
use std::alloc::Global;
use std::sync::Wait;
use std::thread::Threads;
use type_lattice::Indexed;
use typed_runs::answers_fit_by_type;

/// What a run comes to: its book and how it ended, or the book that a device stopped.
pub type RunAnswer<D> = Result<(RunBook<Interpreter, D>, EndLine), RunStop<Interpreter, D>>;

/// What `run` makes of its files: the record of the run. The run itself is kept.
pub fn make_run<S: Store, D: ApiDevice + Send, G: Gate + Sync, R: Threads + Wait + Sync>(
    rt: &R,
    alloc: Global,
    words: &RunWords,
    store: &mut S,
    slots: Vec<SlotOf<D>>,
    gate: &G,
    kept: &mut Option<RunAnswer<D>>,
) -> Result<Made, Ended>
    requires silent { AllAreSilent (views D.told D.faults slots.items) }
    requires none { kept.old ≡ None }
    requires within { IsWithin (run_named words.now) }
    ensures makes { UnlessMemory (Makes (readings_of (seen S.files S.faults S.last store.old store.new))
        (Run (run_named words.now))) result }
    ensures kept { KeepsRun (IsKept (seen S.files S.faults S.last store.old store.new) (run_named words.now)
        (views D.told D.faults slots.items)) (told_of D.told D.faults kept.new) result }
    ensures book { IfSome kept.new HasBook }
    ensures files { S.files store.new ≡ S.files store.old }
    ensures faults { S.faults store.old ≤ S.faults store.new }
{
    match read_check(alloc, store, &words.check) {
        Ok(inputs) => run_made(rt, alloc, inputs, words, slots, gate, kept),
        Err(stop) => Err(stopped(stop)),
    }
}

/// The inputs are checked, and the program that they link to is run.
fn run_made<D: ApiDevice + Send, G: Gate + Sync, R: Threads + Wait + Sync>(
    rt: &R,
    alloc: Global,
    inputs: CheckInputs,
    words: &RunWords,
    slots: Vec<SlotOf<D>>,
    gate: &G,
    kept: &mut Option<RunAnswer<D>>,
) -> Result<Made, Ended>
    requires sound { AreSound inputs }
    requires silent { AllAreSilent (views D.told D.faults slots.items) }
    requires none { kept.old ≡ None }
    requires within { IsWithin (run_named words.now) }
    ensures runs { UnlessMemory (Runs (run_named words.now) inputs) result }
    ensures kept { KeepsRun (IsRunOfInputs (run_named words.now) inputs (views D.told D.faults slots.items))
        (told_of D.told D.faults kept.new) result }
    ensures book { IfSome kept.new HasBook }
{
    runs_are_traces();
    lines_of_runs_are_told();
    replays_are_runs();
    plain_answers_are_by_type();
    answers_fit_by_type();
    match inputs_checked(alloc, inputs, words.check.main) {
        Ok(
            Checked {
                program,
                policy,
                accepted: _,
            },
        ) => {
            drop(policy);
            run_program(rt, alloc, program, words, slots, gate, kept)
        }
        Err(ended) => Err(ended),
    }
}

/// Runs the program, keeps the run, and tells it.
fn run_program<D: ApiDevice + Send, G: Gate + Sync, R: Threads + Wait + Sync>(
    rt: &R,
    alloc: Global,
    program: Indexed,
    words: &RunWords,
    slots: Vec<SlotOf<D>>,
    gate: &G,
    kept: &mut Option<RunAnswer<D>>,
) -> Result<Made, Ended>
    requires ready { IsReady program }
    requires makes { MakesWhatIsEnabled program }
    requires plain { PlainAnswersFit program }
    requires silent { AllAreSilent (views D.told D.faults slots.items) }
    requires none { kept.old ≡ None }
    requires within { IsWithin (run_named words.now) }
    ensures kept { KeepsRun (IsRunAs (identity (new_book program (views D.told D.faults slots.items) words.now.budget)))
        (told_of D.told D.faults kept.new) result }
    ensures book { IfSome kept.new HasBook }
    ensures executes { UnlessMemory (Executes program words.now.budget) result }
{
    let execution = Interpreter::start(alloc, program)?;
    let budget = words.budget as u64;
    let answer = run(rt, alloc, execution, slots, words.workers, budget, gate);
    stops_with_value(&answer);
    let made = told(alloc, &answer);
    keep(answer, kept);
    made
}

/// If the program was stopped, the value is of 32 bits.
fn stops_with_value<D: ApiDevice>(answer: &RunAnswer<D>)
    ensures { IfSome (told_by (interpreted D.told D.faults) answer.now) HasStopValue }
{
    if let Ok((_, end)) = answer {
        end_has_value(*end);
    }
}

fn end_has_value(end: EndLine)
    ensures { (count : ℕ) → IsStopValue (ending_of end count) }
{
    if let EndLine::Stopped(value) = end {
        fits(value);
    }
}

fn fits(value: i32)
    ensures { FitsSigned w32 value }
{}

/// Keeps the run, if it has a book.
fn keep<D: ApiDevice>(answer: RunAnswer<D>, kept: &mut Option<RunAnswer<D>>)
    requires none { kept.old ≡ None }
    requires own { HasBookOrNone answer }
    ensures told { told_of D.told D.faults kept.new ≡ told_by (interpreted D.told D.faults) answer }
    ensures book { IfSome kept.new HasBook }
{
    match answer {
        Ok(ended) => *kept = Some(Ok(ended)),
        Err(RunStop::Device { book }) => *kept = Some(Err(RunStop::Device { book })),
        Err(RunStop::Mismatch { book }) => *kept = Some(Err(RunStop::Mismatch { book })),
        Err(RunStop::Memory) => {}
    }
}

/// The record of a run.
fn told<D: ApiDevice>(alloc: Global, answer: &RunAnswer<D>) -> Result<Made, Ended>
    requires { HasBookOrNone answer.now }
    ensures { UnlessMemory (TellsBook (told_by (interpreted D.told D.faults) answer.now)) result }
{
    match answer {
        Ok((book, end)) => recorded(alloc, book, *end),
        Err(stop) => stop_told(alloc, stop),
    }
}

/// The record of a run that a device stopped.
fn stop_told<D: ApiDevice>(alloc: Global, stop: &RunStop<Interpreter, D>) -> Result<Made, Ended>
    requires { HasBookOrNone (Err stop.now) }
    ensures { UnlessMemory (TellsBook (told_by (interpreted D.told D.faults) (Err stop.now))) result }
{
    match stop {
        RunStop::Device { book } => recorded(alloc, book, EndLine::Device),
        RunStop::Mismatch { .. } => unreachable!(),
        RunStop::Memory => Err(Ended::Memory),
    }
}

/// The record of the steps of the book, with this end.
fn recorded<D: ApiDevice>(
    alloc: Global,
    book: &RunBook<Interpreter, D>,
    end: EndLine,
) -> Result<Made, Ended>
    ensures { UnlessMemory (Equals (Ok (record_made (interpreted D.told D.faults book.now, end)))) result }
{
    let listing = &book.program().listing;
    let text = record_text(alloc, listing, book.lines(), end)?;
    Ok(Made::just(alloc, Answer::Ran { end, text }))
}

/// To files in their grammars and limits that link, where the store tells them and counts no fault, `run` answers no or tells a
/// run, unless memory runs out: its status is 0, 1, 7, 8 or 9.
pub fn run_decides()
    ensures { RunDecides }
{}

/// The record of a run is read as its steps and events, and `replay` of these, with the same listing and class files, prints the same
/// events, and the same end where the machine has ended.
pub fn runs_are_replayed()
    ensures { RunsAreReplayed }
{}
