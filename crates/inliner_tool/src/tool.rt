//! The top call: the words of a command, the answer over a store, and the output that a sink takes.

ghost use Rattle.std.specs.Prelude.{◌≡◌, ◌≢◌, ◌≤◌, ℕ, List, None, Some, IfOk, IfSome};
ghost use Rattle.api_shelf.specs.Shelf.{AllAreSilent, views};
ghost use Rattle.command_inputs.specs.GenWords.{IsGen, IsLoad, NamedGen};
ghost use Rattle.command_inputs.specs.InlineWords.{IsInline, NamedInline};
ghost use Rattle.command_inputs.specs.ReplayWords.{IsReplay, NamedReplay};
ghost use Rattle.command_inputs.specs.Words.{
  Check,
  Inline,
  IsCheck,
  IsOverFiles,
  IsRunCommand,
  Load,
  NamedCheck,
  NamedRun,
  Replay,
  Run,
  files_named,
  named_by,
  run_named,
};
ghost use Rattle.command_inputs.specs.Contents.{Contents};
ghost use Rattle.inliner_tool.specs.Commands.{Makes, readings_of};
ghost use Rattle.inliner_tool.specs.Decides.{Decides, GivesOnce};
ghost use Rattle.inliner_tool.specs.Generate.{IsGenerated};
ghost use Rattle.inliner_tool.specs.Headline.{Obeyed};
ghost use Rattle.inliner_tool.specs.Inline.{IsInlined, IsReadyToWrite};
ghost use Rattle.inliner_tool.specs.Load.{IsLoaded, IsReadyToLoad};
ghost use Rattle.inliner_tool.specs.Replay.{ReplayedRuns};
ghost use Rattle.inliner_tool.specs.Run.{AreWithin, HasBook, IsKept, IsRunStatus, IsWithin, PrintsRun, TellsKept, run_status, told_of};
ghost use Rattle.inliner_tool.specs.Seen.{seen};
ghost use Rattle.inliner_tool.specs.Status.{code_of};
ghost use Rattle.inliner_tool.specs.Steps.{UnlessMemory};
ghost use Rattle.inliner_tool.specs.Tool.{
  CheckedRuns,
  Holds,
  IsOutcomeStatus,
  Puts,
  Replies,
  answer_status,
  judged_status,
  refusal_status,
};
ghost use Rattle.inliner_tool.specs.Writing.{Begins, CarriesOut, Leaves};
ghost use Rattle.mon_store.specs.Store.{Rose};

use crate::answer::{Answer, Made};
use crate::check::make_check;
use crate::generate::make_gen;
use crate::inline::make_inline;
use crate::lift::make_lift;
use crate::load::make_load;
use crate::policy::make_policy;
use crate::race::make_race;
use crate::refusal::{Ended, Refusal};
use crate::replay::make_replay;
use crate::replies::{answer_encoded, refusal_encoded, usage_encoded};
use crate::run::{RunAnswer, make_run};
use crate::show::make_show;
use crate::writing::write_made;
use api_shelf::{ApiDevice, SlotOf};
use command_inputs::{Command, FileCommand, RunWords, command_of, told_files_are_read};
use conspec_automaton::Verdict;
use event_record::EndLine;
use guest_runner::Gate;
use mon_base::{Bytes, NoMemory};
use mon_store::{Sink, SinkFault, Store};
use std::alloc::Global;
use std::sync::Wait;
use std::thread::Threads;

/// How a command ended.
#[derive(Clone, Copy)]
pub enum Status {
    /// The command's answer was printed.
    Done,
    /// The input was read, and the answer is no.
    Denied,
    /// The words are no command's.
    Usage,
    /// A named file is not what it is named for, or the files do not link.
    Input,
    /// A size of what was to be woven does not fit.
    Overflow,
    /// The store failed at a named file or an output, or lacks a named file.
    StoreFault,
    /// The sink failed.
    SinkFault,
    /// Memory ran out. Nothing is printed.
    Memory,
    /// A device stopped the run. The record up to there was printed.
    Device,
    /// The run has as many steps as it may have, and could go on. The record was printed.
    Budget,
    /// The book that came back from the workers is of another run. This never comes.
    Mismatch,
}

impl Status {
    /// The exit status of the program.
    pub fn code(&self) -> u8
        ensures { result ≡ code_of self.now }
    {
        match self {
            Status::Done => 0,
            Status::Denied => 1,
            Status::Usage => 2,
            Status::Input => 3,
            Status::Overflow => 4,
            Status::StoreFault => 5,
            Status::SinkFault => 6,
            Status::Memory => 7,
            Status::Device => 8,
            Status::Budget => 9,
            Status::Mismatch => 10,
        }
    }
}

/// A command: `check POLICY LISTING CERT MAIN CLASS..` links the classes and checks the program with its certificate;
/// `show LISTING CLASS..` gives the text of class files; `policy POLICY LISTING RECORD` says of the events of a run whether
/// they obey the policy; `race POLICY LISTING` says of a policy whether its events race;
/// `inline POLICY LISTING MAIN OUTDIR MODE CLASS..` weaves blocks into the classes, checks the program that they make with
/// its certificate, and writes all of it; `replay LISTING MAIN RECORD CLASS..` links and types the classes, makes the steps of
/// a recorded run, and gives the events that the library sees and the end; `lift POLICY LISTING MAIN RECORD CLASS..` makes the
/// steps of a recorded run and those of what the policy is woven to, and gives the record of these (`lifts_are_runs`);
/// `gen SEED CLASSES SITES OUTDIR` makes a program from a number, with a listing and a policy, and writes all of it;
/// `load SEED CLASSES SITES OUTDIR` makes the same, and writes what `inline` makes of it;
/// `run POLICY LISTING CERT MAIN WORKERS BUDGET CLASS..` checks the program, and has so many worker threads run it, in at most
/// so many steps, and gives the record of the run.
///
/// Other commands than `inline`, `gen` and `load` change no file. One output is put into the sink, which says the answer. The
/// devices answer the calls of the library in a run, the workers pass the gate, and the run is kept. The other commands have no part
/// in threads ([`carry_out_files`]), so they end.
pub fn run_tool<S: Store, K: Sink, D: ApiDevice + Send, G: Gate + Sync, R: Threads + Wait + Sync>(
    rt: &R,
    alloc: Global,
    words: &[Bytes],
    store: &mut S,
    out: &mut K,
    slots: Vec<SlotOf<D>>,
    gate: &G,
    kept: &mut Option<RunAnswer<D>>,
) -> Status
    requires silent { AllAreSilent (views D.told D.faults slots.items) }
    requires none { kept.old ≡ None }
    // Whoever made the files: where the check ends well, the program that they link to obeys the policy for every list
    // of guest steps.
    ensures headline { (named : NamedCheck) → IsCheck words.now named → result ≡ Status.Done → Obeyed (S.files store.old) named }

    // It is accepted with the certificate.
    ensures accepted { (named : NamedCheck) → IsCheck words.now named → result ≡ Status.Done
        → Holds (seen S.files S.faults S.last store.old store.new) named }

    // That program, and one whose run is replayed, runs as its types say: after every list of steps no operand is missing and none is
    // of a wrong kind, a step is made exactly where the rules enable it, and the events are well formed for the policies of its
    // listing.
    ensures runs { (named : NamedCheck) → IsCheck words.now named → result ≡ Status.Done
        → CheckedRuns (seen S.files S.faults S.last store.old store.new) named }
    ensures replay_runs { (named : NamedReplay) → IsReplay words.now named → result ≡ Status.Done
        → ReplayedRuns (seen S.files S.faults S.last store.old store.new) named }

    // Where a run was made, its record is printed: that of the book that is kept. The book is of one run of the program that the files
    // link to, which `check` accepts, so that what is recorded obeys the policy; it is over the devices that were handed in, which
    // tell what they answered in it; and it ended as the record says. The record is read as the steps and events of the book, and
    // `replay` of these steps prints the same events, and the same end where the machine has ended.
    ensures ran { (named : NamedRun) → IsRunCommand words.now named → IsRunStatus result
        → PrintsRun (IsKept (seen S.files S.faults S.last store.old store.new) named (views D.told D.faults slots.items))
        (told_of D.told D.faults kept.new) (K.text out.old) (K.text out.new) result }
    // Whatever is kept is such a run.
    ensures kept { IfSome (told_of D.told D.faults kept.new) (λ told. (named : NamedRun) × IsRunCommand words.now named
        × IsKept (seen S.files S.faults S.last store.old store.new) named (views D.told D.faults slots.items) told) }
    // It has a book: want of memory is not kept, and no book of another run.
    ensures book { IfSome kept.new HasBook }

    // Where weaving ends well, what is written is the program with its blocks, and is accepted with its certificate; and each run of the
    // client that the policy accepts is one of it, with the monitor's steps put to it (`IsTransparent`).
    ensures inlined { (named : NamedInline) → IsInline words.now named → result ≡ Status.Done
        → IsInlined (seen S.files S.faults S.last store.old store.new) named }

    // Where `gen` ends well, what is written is the program of its number.
    ensures generated { (named : NamedGen) → IsGen words.now named → result ≡ Status.Done
        → IsGenerated (seen S.files S.faults S.last store.old store.new) named }

    // Where `load` ends well, what `inline` makes of that program is written.
    ensures loaded { (named : NamedGen) → IsLoad words.now named → result ≡ Status.Done
        → IsLoaded (seen S.files S.faults S.last store.old store.new) named }

    // The status is that of the command's outcome, and the output is for it; of words that are no command's, the usage line.
    ensures answer { Replies (seen S.files S.faults S.last store.old store.new) words.now
        (K.text out.old) (K.text out.new) (Rose (K.faults out.old) (K.faults out.new)) result }

    // Where the store tells its files, and neither it nor the sink has a fault, status and output are those that the command's
    // definition gives for the files, or that of memory.
    ensures decides { (contents : Contents) → S.files store.old ≡ Some contents
        → (Rose (S.faults store.old) (S.faults store.new) → ⊥) → (Rose (K.faults out.old) (K.faults out.new) → ⊥)
        → result ≢ Status.Memory → Decides contents words.now (K.text out.old) (K.text out.new) result }

    // What stands.
    ensures files { Leaves (seen S.files S.faults S.last store.old store.new) words.now }
    ensures faults { S.faults store.old ≤ S.faults store.new }
    ensures sink_faults { K.faults out.old ≤ K.faults out.new }
{
    told_files_are_read();
    let Some(command) = command_of(words) else {
        return put(out, Status::Usage, usage_encoded(alloc));
    };
    match carry_out(rt, alloc, &command, store, slots, gate, kept) {
        Ok(answer) => put(out, answer_status(&answer), answer_encoded(alloc, answer)),
        Err(Ended::Refused(refusal)) => {
            put(
                out,
                refusal_status(&refusal),
                refusal_encoded(alloc, refusal),
            )
        }
        Err(Ended::Memory) => Status::Memory,
    }
}

/// A command comes to one outcome over the same files; but of `inline` and `load` it is left open which of the least typings a certificate
/// tells, and of `run` which thread makes which step.
pub fn answers_are_one()
    ensures { GivesOnce }
{}

// ---- commands

/// What a command makes of its files is written, and then answered. A run is kept.
fn carry_out<S: Store, D: ApiDevice + Send, G: Gate + Sync, R: Threads + Wait + Sync>(
    rt: &R,
    alloc: Global,
    command: &Command,
    store: &mut S,
    slots: Vec<SlotOf<D>>,
    gate: &G,
    kept: &mut Option<RunAnswer<D>>,
) -> Result<Answer, Ended>
    requires silent { AllAreSilent (views D.told D.faults slots.items) }
    requires none { kept.old ≡ None }
    requires within { AreWithin (named_by command.now) }
    ensures carries { UnlessMemory
        (CarriesOut (seen S.files S.faults S.last store.old store.new) (named_by command.now)) result }
    ensures holds { (named : NamedCheck) → named_by command.now ≡ Check named
        → IfOk result (λ answer. Holds (seen S.files S.faults S.last store.old store.new) named) }
    ensures replay_runs { (named : NamedReplay) → named_by command.now ≡ Replay named
        → IfOk result (λ answer. ReplayedRuns (seen S.files S.faults S.last store.old store.new) named) }
    ensures inlined { (named : NamedInline) → named_by command.now ≡ Inline named
        → IfOk result (λ answer. IsInlined (seen S.files S.faults S.last store.old store.new) named) }
    ensures loaded { (named : NamedGen) → named_by command.now ≡ Load named
        → IfOk result (λ answer. IsLoaded (seen S.files S.faults S.last store.old store.new) named) }
    ensures ran { (named : NamedRun) → named_by command.now ≡ Run named
        → IfOk result (TellsKept (told_of D.told D.faults kept.new)) }
    ensures kept { IfSome (told_of D.told D.faults kept.new) (λ told. (named : NamedRun) × (named_by command.now ≡ Run named)
        × IsKept (seen S.files S.faults S.last store.old store.new) named (views D.told D.faults slots.items) told) }
    ensures book { IfSome kept.new HasBook }
    ensures files { Begins (seen S.files S.faults S.last store.old store.new) (named_by command.now) }
    ensures faults { S.faults store.old ≤ S.faults store.new }
{
    match command {
        Command::Files(command) => carry_out_files(alloc, command, store),
        Command::Run(words) => carry_out_run(rt, alloc, words, store, slots, gate, kept),
    }
}

/// What a command over files makes of them is written, and then answered.
fn carry_out_files<S: Store>(
    alloc: Global,
    command: &FileCommand,
    store: &mut S,
) -> Result<Answer, Ended>
    requires within { AreWithin (files_named command.now) }
    ensures carries { UnlessMemory
        (CarriesOut (seen S.files S.faults S.last store.old store.new) (files_named command.now)) result }
    ensures holds { (named : NamedCheck) → files_named command.now ≡ Check named
        → IfOk result (λ answer. Holds (seen S.files S.faults S.last store.old store.new) named) }
    ensures replay_runs { (named : NamedReplay) → files_named command.now ≡ Replay named
        → IfOk result (λ answer. ReplayedRuns (seen S.files S.faults S.last store.old store.new) named) }
    ensures inlined { (named : NamedInline) → files_named command.now ≡ Inline named
        → IfOk result (λ answer. IsInlined (seen S.files S.faults S.last store.old store.new) named) }
    ensures loaded { (named : NamedGen) → files_named command.now ≡ Load named
        → IfOk result (λ answer. IsLoaded (seen S.files S.faults S.last store.old store.new) named) }
    ensures over { IsOverFiles (files_named command.now) }
    ensures files { Begins (seen S.files S.faults S.last store.old store.new) (files_named command.now) }
    ensures faults { S.faults store.old ≤ S.faults store.new }
{
    match make(alloc, command, store) {
        Ok(made) => write_made(alloc, made, store),
        Err(ended) => Err(ended),
    }
}

/// What the command `run` makes of its files is answered, and the run is kept.
fn carry_out_run<S: Store, D: ApiDevice + Send, G: Gate + Sync, R: Threads + Wait + Sync>(
    rt: &R,
    alloc: Global,
    words: &RunWords,
    store: &mut S,
    slots: Vec<SlotOf<D>>,
    gate: &G,
    kept: &mut Option<RunAnswer<D>>,
) -> Result<Answer, Ended>
    requires silent { AllAreSilent (views D.told D.faults slots.items) }
    requires none { kept.old ≡ None }
    requires within { IsWithin (run_named words.now) }
    ensures carries { UnlessMemory
        (CarriesOut (seen S.files S.faults S.last store.old store.new) (Run (run_named words.now))) result }
    ensures ran { IfOk result (TellsKept (told_of D.told D.faults kept.new)) }
    ensures kept { IfSome (told_of D.told D.faults kept.new) (IsKept (seen S.files S.faults S.last store.old store.new)
        (run_named words.now) (views D.told D.faults slots.items)) }
    ensures book { IfSome kept.new HasBook }
    ensures files { Begins (seen S.files S.faults S.last store.old store.new) (Run (run_named words.now)) }
    ensures faults { S.faults store.old ≤ S.faults store.new }
{
    match make_run(rt, alloc, words, store, slots, gate, kept) {
        Ok(made) => write_made(alloc, made, store),
        Err(ended) => Err(ended),
    }
}

/// What a command over files makes of them.
fn make<S: Store>(alloc: Global, command: &FileCommand, store: &mut S) -> Result<Made, Ended>
    requires within { AreWithin (files_named command.now) }
    ensures makes { UnlessMemory
        (Makes (readings_of (seen S.files S.faults S.last store.old store.new)) (files_named command.now)) result }
    ensures holds { (named : NamedCheck) → files_named command.now ≡ Check named
        → IfOk result (λ made. Holds (seen S.files S.faults S.last store.old store.new) named) }
    ensures replay_runs { (named : NamedReplay) → files_named command.now ≡ Replay named
        → IfOk result (λ made. ReplayedRuns (seen S.files S.faults S.last store.old store.new) named) }
    ensures ready { (named : NamedInline) → files_named command.now ≡ Inline named
        → IfOk result (IsReadyToWrite (seen S.files S.faults S.last store.old store.new) named) }
    ensures loading { (named : NamedGen) → files_named command.now ≡ Load named → IfOk result (IsReadyToLoad named) }
    ensures files { S.files store.new ≡ S.files store.old }
    ensures faults { S.faults store.old ≤ S.faults store.new }
{
    match command {
        FileCommand::Check(words) => make_check(alloc, words, store),
        FileCommand::Show(words) => make_show(alloc, words, store),
        FileCommand::Policy(words) => make_policy(alloc, words, store),
        FileCommand::Race(words) => make_race(alloc, words, store),
        FileCommand::Inline(words) => make_inline(alloc, words, store),
        FileCommand::Replay(words) => make_replay(alloc, words, store),
        FileCommand::Lift(words) => make_lift(alloc, words, store),
        FileCommand::Gen(words) => make_gen(alloc, words),
        FileCommand::Load(words) => make_load(alloc, words),
    }
}

// ---- the reply

/// Puts an output into the sink: the status that it is to end with, or that of a fault of the sink, or that of memory.
fn put<K: Sink>(out: &mut K, status: Status, output: Result<Bytes, NoMemory>) -> Status
    ensures puts { (printed : List ℕ) → IfOk output (λ text. text ≡ printed)
        → Puts (K.text out.old) (K.text out.new) (Rose (K.faults out.old) (K.faults out.new)) printed status result }
    ensures faults { K.faults out.old ≤ K.faults out.new }
{
    let Ok(text) = output else {
        return Status::Memory;
    };
    match out.put(text.as_slice()) {
        Ok(()) => status,
        Err(SinkFault::Failed) => Status::SinkFault,
        Err(SinkFault::Memory) => Status::Memory,
    }
}

/// The status that an answer ends with.
fn answer_status(answer: &Answer) -> Status
    ensures is { result ≡ answer_status answer.now }
    ensures kind { IsOutcomeStatus result }
{
    match answer {
        Answer::Accepted(_) => Status::Done,
        Answer::Shown(_) => Status::Done,
        Answer::Judged(verdict) => judged_status(*verdict),
        Answer::RaceFree => Status::Done,
        Answer::Inlined { .. } => Status::Done,
        Answer::Generated { .. } => Status::Done,
        Answer::Loaded { .. } => Status::Done,
        Answer::Replayed(_) => Status::Done,
        Answer::Ran { end, .. } => run_status(*end),
        Answer::Lifted(_) => Status::Done,
    }
}

/// The status of a run that ended so.
fn run_status(end: EndLine) -> Status
    ensures is { result ≡ run_status end }
    ensures kind { IsOutcomeStatus result }
{
    match end {
        EndLine::Finished => Status::Done,
        EndLine::Deadlock => Status::Done,
        EndLine::Stopped(_) => Status::Done,
        EndLine::Budget => Status::Budget,
        EndLine::Device => Status::Device,
        EndLine::Running => Status::Done,
    }
}

/// The status where a policy says this of the events of a run.
fn judged_status(verdict: Verdict) -> Status
    ensures is { result ≡ judged_status verdict }
    ensures kind { IsOutcomeStatus result }
{
    match verdict {
        Verdict::Accepted => Status::Done,
        Verdict::StoppedAt { .. } => Status::Done,
        Verdict::Refused { .. } => Status::Denied,
    }
}

/// The status where a command ended before its answer.
fn refusal_status(refusal: &Refusal) -> Status
    ensures is { result ≡ refusal_status refusal.now }
    ensures kind { IsOutcomeStatus result }
    ensures no { IsRunStatus result → ⊥ }
{
    match refusal {
        Refusal::Input(_, _) => Status::Input,
        Refusal::Unread(_) => Status::StoreFault,
        Refusal::TotalLong { .. } => Status::Input,
        Refusal::Link(_) => Status::Input,
        Refusal::Untyped { .. } => Status::Input,
        Refusal::Denied(_, _) => Status::Denied,
        Refusal::Racy { .. } => Status::Denied,
        Refusal::CellLimit { .. } => Status::Denied,
        Refusal::Overflow { .. } => Status::Overflow,
        Refusal::LongCertificate { .. } => Status::Overflow,
        Refusal::NotEnabled { .. } => Status::Denied,
        Refusal::Disobeys { .. } => Status::Denied,
        Refusal::Overlaps { .. } => Status::Denied,
        Refusal::Unwritten(_) => Status::StoreFault,
    }
}
