//! The book of a run.

ghost use Rattle.std.specs.Prelude.{◌≡◌, ◌≤◌, ◌<◌, ◌∷◌, [], true, length, map, vec_len, vec_capacity, None, Some, IsSome, IfOk, OnErr};
ghost use Rattle.std.specs.List.{AllByRecursion};
ghost use Rattle.api_listing.specs.declared.events.ApiAnswer.{ApiAnswer};
ghost use Rattle.api_shelf.specs.Shelf.{AllAreSilent, IsLater, first_of, views};
ghost use Rattle.event_record.specs.RunLines.{AnswersBytes};
ghost use Rattle.guest_model.specs.declared.machine.Choice.TheVariants as choices;
ghost use Rattle.guest_model.specs.Asking.{is_enabled, takes_answer};
ghost use Rattle.guest_model.specs.LibraryCalls.{answered_by, call_asked};
ghost use Rattle.guest_model.specs.Runs.{start_of};
ghost use Rattle.guest_model.specs.Turns.{MakesWhatIsEnabled};
ghost use Rattle.guest_runner.specs.Advancing.{Advances, AnswersPlainly, Came, HasStepped, IsUnchanged, Turned};
ghost use Rattle.guest_runner.specs.Asking.{Awaits, HasAsked};
ghost use Rattle.guest_runner.specs.Book.{HasFailed, IsRun, Keeps, book_view, identity, new_book};
ghost use Rattle.guest_runner.specs.PlainAnswers.{PlainAnswersFit, plain_or_null};
ghost use Rattle.guest_runner.specs.Running.{HasEnded, end_line};

use api_listing::{ApiAnswer, ApiCall};
use api_shelf::{ApiDevice, Asked, DeviceFault, SlotOf, ask_first, devices_tell, plain_answer};
use bytecode_model::Program;
use event_record::{EndLine, Line};
use guest_model::{Choice, End, Execution, Step, asks_what_the_rules_say, turns_find_the_enabled};
use mon_base::{List, NoMemory};
use std::alloc::Global;

/// Why a book takes no more steps.
#[derive(Drop)]
pub enum DeviceStop {
    /// The device failed that was asked for the answer to this call of the thread.
    Failed {
        thread: u32,
        call: ApiCall,
    },
    /// It answered what does not fit the call.
    Kind {
        thread: u32,
        call: ApiCall,
        answer: ApiAnswer,
    },
}

/// What came of a turn.
#[derive(Clone, Copy)]
pub enum Advance {
    /// A thread made a step.
    Stepped,
    /// No thread can make a step any more.
    Ended(End),
    /// A thread could, and the book has as many steps as it may have.
    Budget,
    /// A device failed, or its answer does not fit; the book takes no more steps.
    Device,
}

/// What came of some turns.
#[derive(Clone, Copy)]
pub enum Turns {
    /// Each made a step.
    Made,
    /// The book takes no more steps: the run has ended, it has as many as it may have, or a device stopped it.
    Over,
    /// Memory ran out.
    Memory,
}

/// The steps of a program that runs, so far, with what the library saw of each, and the devices that answered.
#[derive(Drop)]
pub struct RunBook<E, D> {
    execution: E,
    lines: Vec<Line>,
    slots: Vec<SlotOf<D>>,
    /// How many faults each device had counted when the book was made.
    counts: List<u64>,
    budget: u64,
    stop: Option<DeviceStop>,
}

impl<E: Execution, D: ApiDevice> RunBook<E, D> {
    /// The book of a program that has made no step yet. The devices have told nothing.
    pub fn new(
        alloc: Global,
        execution: E,
        slots: Vec<SlotOf<D>>,
        budget: u64,
    ) -> Result<RunBook<E, D>, NoMemory>
        requires ready { E.is_ready execution }
        requires start { E.machine execution ≡ start_of (E.program execution) }
        requires makes { MakesWhatIsEnabled (E.program execution) }
        requires plain { PlainAnswersFit (E.program execution) }
        requires silent { AllAreSilent (views D.told D.faults slots.items) }
        requires budget { budget ≤ 1000000000 }
        ensures run { IfOk result (λ book. IsRun (book_view E.program E.machine D.told D.faults book)) }
        ensures ready { IfOk result (λ book. E.is_ready book.execution) }
        ensures begun { IfOk result (λ book. book_view E.program E.machine D.told D.faults book
            ≡ new_book (E.program execution) (views D.told D.faults slots.items) budget) }
    {
        devices_tell();
        let counts = fault_counts(alloc, slots.as_slice())?;
        Ok(RunBook {
            execution,
            lines: Vec::new(alloc),
            slots,
            counts,
            budget,
            stop: None,
        })
    }

    /// The next thread from this number on that can makes a step. A call of the library that it waits in is answered by the first
    /// device of its class, which is asked once, or plainly where there is none.
    pub fn advance(&mut self, alloc: Global, first: u32) -> Result<Advance, NoMemory>
        requires run { IsRun (book_view E.program E.machine D.told D.faults self.old) }
        requires ready { E.is_ready self.old.execution }
        ensures run { IsRun (book_view E.program E.machine D.told D.faults self.new) }
        ensures ready { E.is_ready self.new.execution }
        ensures made { IfOk result (λ answer. Advances first (book_view E.program E.machine D.told D.faults self.old)
            (book_view E.program E.machine D.told D.faults self.new) answer) }
        // Without memory for a step the book is as it was.
        ensures memory { OnErr result (IsUnchanged (book_view E.program E.machine D.told D.faults self.old)
            (book_view E.program E.machine D.told D.faults self.new)) }
        ensures same { identity (book_view E.program E.machine D.told D.faults self.new)
            ≡ identity (book_view E.program E.machine D.told D.faults self.old) }
        ensures later { IsLater (views D.told D.faults self.old.slots.items) (views D.told D.faults self.new.slots.items) }
    {
        turns_find_the_enabled();
        if self.stop.is_some() {
            return Ok(Advance::Device);
        }
        let Some(thread) = self.execution.next_enabled(first) else {
            return Ok(Advance::Ended(self.execution.ended().unwrap()));
        };
        if self.lines.len() as u64 >= self.budget {
            return Ok(Advance::Budget);
        }
        self.turn(alloc, thread)
    }

    /// Makes so many steps, the first of the first thread from this number on, and the others by turns; or as many as there may be.
    pub fn advance_some(&mut self, alloc: Global, first: u32, steps: u32) -> Turns
        requires run { IsRun (book_view E.program E.machine D.told D.faults self.old) }
        requires ready { E.is_ready self.old.execution }
        ensures run { IsRun (book_view E.program E.machine D.told D.faults self.new) }
        ensures ready { E.is_ready self.new.execution }
        ensures came { Came steps (book_view E.program E.machine D.told D.faults self.old)
            (book_view E.program E.machine D.told D.faults self.new) result }
        ensures same { identity (book_view E.program E.machine D.told D.faults self.new)
            ≡ identity (book_view E.program E.machine D.told D.faults self.old) }
    {
        let mut next = first;
        for _turn in 0..steps {
            match self.advance(alloc, next) {
                Ok(Advance::Stepped) => next = self.next_turn(),
                Ok(Advance::Ended(_) | Advance::Budget | Advance::Device) => return Turns::Over,
                Err(NoMemory) => return Turns::Memory,
            }
        }
        Turns::Made
    }

    /// Makes steps until the book takes no more, and answers how it ended, or nothing where a device stopped it.
    pub fn finish(&mut self, alloc: Global) -> Result<Option<EndLine>, NoMemory>
        requires run { IsRun (book_view E.program E.machine D.told D.faults self.old) }
        requires ready { E.is_ready self.old.execution }
        ensures run { IsRun (book_view E.program E.machine D.told D.faults self.new) }
        ensures ready { E.is_ready self.new.execution }
        ensures same { identity (book_view E.program E.machine D.told D.faults self.new)
            ≡ identity (book_view E.program E.machine D.told D.faults self.old) }
        ensures ended { IfOk result (λ end. HasEnded (book_view E.program E.machine D.told D.faults self.new) end) }
    {
        let mut next = 0;
        loop {
            match self.advance(alloc, next)? {
                Advance::Stepped => next = self.next_turn(),
                Advance::Ended(end) => return Ok(Some(end_line(end))),
                Advance::Budget => return Ok(Some(EndLine::Budget)),
                Advance::Device => return Ok(None),
            }
        }
    }

    /// The number after that of the thread which made the last step.
    fn next_turn(&self) -> u32 {
        match self.lines.last() {
            Some(line) => line.step.thread.wrapping_add(1),
            None => 0,
        }
    }

    /// This thread, which can, makes a step.
    fn turn(&mut self, alloc: Global, thread: u32) -> Result<Advance, NoMemory>
        requires run { IsRun (book_view E.program E.machine D.told D.faults self.old) }
        requires ready { E.is_ready self.old.execution }
        requires unstopped { self.old.stop ≡ None }
        requires room { length self.old.lines.items < self.old.budget }
        requires can { is_enabled (E.program self.old.execution) (E.machine self.old.execution) thread ≡ true }
        ensures run { IsRun (book_view E.program E.machine D.told D.faults self.new) }
        ensures ready { E.is_ready self.new.execution }
        ensures made { IfOk result (λ answer. Turned thread (book_view E.program E.machine D.told D.faults self.old)
            (book_view E.program E.machine D.told D.faults self.new) answer) }
        ensures memory { OnErr result (IsUnchanged (book_view E.program E.machine D.told D.faults self.old)
            (book_view E.program E.machine D.told D.faults self.new)) }
        ensures same { identity (book_view E.program E.machine D.told D.faults self.new)
            ≡ identity (book_view E.program E.machine D.told D.faults self.old) }
        ensures later { IsLater (views D.told D.faults self.old.slots.items) (views D.told D.faults self.new.slots.items) }
    {
        match self.execution.call_asked(alloc, thread)? {
            None => self.go(alloc, thread),
            Some(call) => self.ask(alloc, thread, call),
        }
    }

    /// This thread, which asks the library nothing, makes a plain step.
    fn go(&mut self, alloc: Global, thread: u32) -> Result<Advance, NoMemory>
        requires run { IsRun (book_view E.program E.machine D.told D.faults self.old) }
        requires ready { E.is_ready self.old.execution }
        requires unstopped { self.old.stop ≡ None }
        requires room { length self.old.lines.items < self.old.budget }
        requires can { is_enabled (E.program self.old.execution) (E.machine self.old.execution) thread ≡ true }
        requires plain { call_asked (E.program self.old.execution) (E.machine self.old.execution) thread ≡ None }
        ensures run { IsRun (book_view E.program E.machine D.told D.faults self.new) }
        ensures ready { E.is_ready self.new.execution }
        ensures made { IfOk result (λ answer. Turned thread (book_view E.program E.machine D.told D.faults self.old)
            (book_view E.program E.machine D.told D.faults self.new) answer) }
        ensures memory { OnErr result (book_view E.program E.machine D.told D.faults self.new
            ≡ book_view E.program E.machine D.told D.faults self.old) }
        ensures same { identity (book_view E.program E.machine D.told D.faults self.new)
            ≡ identity (book_view E.program E.machine D.told D.faults self.old) }
        ensures slots { self.new.slots ≡ self.old.slots }
    {
        turns_find_the_enabled();
        self.lines.reserve(1)?;
        let event = self.execution.go(alloc, thread)?;
        let step = Step {
            thread,
            choice: Choice::Plain,
        };
        self.lines.push(Line { step, event }).unwrap();
        Ok(Advance::Stepped)
    }

    /// The library is asked for the answer to this call of the thread. All memory is taken before a device is asked.
    fn ask(&mut self, alloc: Global, thread: u32, call: ApiCall) -> Result<Advance, NoMemory>
        requires run { IsRun (book_view E.program E.machine D.told D.faults self.old) }
        requires ready { E.is_ready self.old.execution }
        requires awaits { Awaits thread call (book_view E.program E.machine D.told D.faults self.old) }
        ensures run { IsRun (book_view E.program E.machine D.told D.faults self.new) }
        ensures ready { E.is_ready self.new.execution }
        ensures made { IfOk result (λ answer. Turned thread (book_view E.program E.machine D.told D.faults self.old)
            (book_view E.program E.machine D.told D.faults self.new) answer) }
        ensures memory { OnErr result (IsUnchanged (book_view E.program E.machine D.told D.faults self.old)
            (book_view E.program E.machine D.told D.faults self.new)) }
        ensures same { identity (book_view E.program E.machine D.told D.faults self.new)
            ≡ identity (book_view E.program E.machine D.told D.faults self.old) }
        ensures later { IsLater (views D.told D.faults self.old.slots.items) (views D.told D.faults self.new.slots.items) }
    {
        self.lines.reserve(1)?;
        self.execution.prepare(alloc, thread)?;
        match self.ask_device(thread, &call) {
            Asked::Nobody => Ok(self.answer_plainly(alloc, thread, call)),
            Asked::Answered(answer) => Ok(self.answer(alloc, thread, call, answer)),
            Asked::Refused(DeviceFault::Memory) => {
                self.execution.release(thread);
                Err(NoMemory)
            }
            Asked::Refused(DeviceFault::Failed) => Ok(self.fail(thread, call)),
        }
    }

    /// Asks the first device of the class for the answer to this call of the thread, if there is one.
    fn ask_device(&mut self, thread: u32, call: &ApiCall) -> Asked
        requires run { IsRun (book_view E.program E.machine D.told D.faults self.old) }
        requires awaits { Awaits thread call.now (book_view E.program E.machine D.told D.faults self.old) }
        requires spare { vec_len self.old.lines < vec_capacity self.old.lines }
        requires prepared { E.is_prepared self.old.execution thread }
        ensures asked { HasAsked call.now result (book_view E.program E.machine D.told D.faults self.old)
            (book_view E.program E.machine D.told D.faults self.new) }
        ensures awaits { Awaits thread call.now (book_view E.program E.machine D.told D.faults self.new) }
        ensures spare { vec_len self.new.lines < vec_capacity self.new.lines }
        ensures prepared { E.is_prepared self.new.execution thread }
        ensures same { identity (book_view E.program E.machine D.told D.faults self.new)
            ≡ identity (book_view E.program E.machine D.told D.faults self.old) }
    {
        ask_first(self.slots.as_mut_slice(), call)
    }

    /// The thread takes the plain answer to its call, whose class has no device.
    fn answer_plainly(&mut self, alloc: Global, thread: u32, call: ApiCall) -> Advance
        requires keeps { (given : ApiAnswer) → Keeps ((call, given) ∷ []) (book_view E.program E.machine D.told D.faults self.old) }
        requires awaits { Awaits thread call (book_view E.program E.machine D.told D.faults self.old) }
        requires spare { vec_len self.old.lines < vec_capacity self.old.lines }
        requires prepared { E.is_prepared self.old.execution thread }
        ensures run { IsRun (book_view E.program E.machine D.told D.faults self.new) }
        ensures ready { E.is_ready self.new.execution }
        ensures made { Turned thread (book_view E.program E.machine D.told D.faults self.old)
            (book_view E.program E.machine D.told D.faults self.new) result }
        ensures same { identity (book_view E.program E.machine D.told D.faults self.new)
            ≡ identity (book_view E.program E.machine D.told D.faults self.old) }
        ensures slots { self.new.slots ≡ self.old.slots }
    {
        let answer = self.plain_or_null(alloc, thread, &call);
        self.take(alloc, thread, answer);
        Advance::Stepped
    }

    /// The plain answer to this call, or null where that does not fit.
    fn plain_or_null(&self, alloc: Global, thread: u32, call: &ApiCall) -> ApiAnswer
        requires prepared { E.is_prepared self.now.execution thread }
        ensures { result ≡ plain_or_null (E.program self.now.execution) (E.machine self.now.execution) thread call.now }
    {
        let answer = plain_answer(alloc, call);
        if self.execution.answer_fits(thread, &answer) {
            return answer;
        }
        ApiAnswer::Null
    }

    /// The thread takes this answer of a device to its call, if it fits.
    fn answer(&mut self, alloc: Global, thread: u32, call: ApiCall, answer: ApiAnswer) -> Advance
        requires keeps { Keeps ((call, answer) ∷ []) (book_view E.program E.machine D.told D.faults self.old) }
        requires somebody { IsSome (first_of call.method.class (views D.told D.faults self.old.slots.items)) }
        requires awaits { Awaits thread call (book_view E.program E.machine D.told D.faults self.old) }
        requires spare { vec_len self.old.lines < vec_capacity self.old.lines }
        requires prepared { E.is_prepared self.old.execution thread }
        ensures run { IsRun (book_view E.program E.machine D.told D.faults self.new) }
        ensures ready { E.is_ready self.new.execution }
        ensures made { Turned thread (book_view E.program E.machine D.told D.faults self.old)
            (book_view E.program E.machine D.told D.faults self.new) result }
        ensures same { identity (book_view E.program E.machine D.told D.faults self.new)
            ≡ identity (book_view E.program E.machine D.told D.faults self.old) }
        ensures slots { self.new.slots ≡ self.old.slots }
    {
        if !self.execution.answer_fits(thread, &answer) {
            self.execution.release(thread);
            self.stop = Some(DeviceStop::Kind {
                thread,
                call,
                answer,
            });
            return Advance::Device;
        }
        self.take(alloc, thread, answer);
        Advance::Stepped
    }

    /// The thread takes this answer, which fits its call.
    fn take(&mut self, alloc: Global, thread: u32, answer: ApiAnswer)
        requires keeps { Keeps (answered_by (E.program self.old.execution) (E.machine self.old.execution) thread (choices.Answer answer))
            (book_view E.program E.machine D.told D.faults self.old) }
        requires unstopped { self.old.stop ≡ None }
        requires room { length self.old.lines.items < self.old.budget }
        requires spare { vec_len self.old.lines < vec_capacity self.old.lines }
        requires prepared { E.is_prepared self.old.execution thread }
        requires fits { takes_answer (E.program self.old.execution) (E.machine self.old.execution) thread answer ≡ true }
        requires plain { AnswersPlainly (book_view E.program E.machine D.told D.faults self.old)
            (record { thread = thread; choice = choices.Answer answer }) }
        ensures run { IsRun (book_view E.program E.machine D.told D.faults self.new) }
        ensures ready { E.is_ready self.new.execution }
        ensures made { HasStepped thread (book_view E.program E.machine D.told D.faults self.old)
            (book_view E.program E.machine D.told D.faults self.new) }
        ensures same { identity (book_view E.program E.machine D.told D.faults self.new)
            ≡ identity (book_view E.program E.machine D.told D.faults self.old) }
        ensures slots { self.new.slots ≡ self.old.slots }
    {
        asks_what_the_rules_say();
        answers_bytes(&answer);
        let event = self.execution.take(alloc, thread, &answer);
        let step = Step {
            thread,
            choice: Choice::Answer(answer),
        };
        self.lines.push(Line { step, event }).unwrap();
    }

    /// The device failed that was asked for the answer to this call of the thread.
    fn fail(&mut self, thread: u32, call: ApiCall) -> Advance
        requires keeps { Keeps [] (book_view E.program E.machine D.told D.faults self.old) }
        requires awaits { Awaits thread call (book_view E.program E.machine D.told D.faults self.old) }
        requires prepared { E.is_prepared self.old.execution thread }
        requires failed { HasFailed (views D.told D.faults self.old.slots.items) self.old.counts call.method.class }
        ensures run { IsRun (book_view E.program E.machine D.told D.faults self.new) }
        ensures ready { E.is_ready self.new.execution }
        ensures made { Turned thread (book_view E.program E.machine D.told D.faults self.old)
            (book_view E.program E.machine D.told D.faults self.new) result }
        ensures same { identity (book_view E.program E.machine D.told D.faults self.new)
            ≡ identity (book_view E.program E.machine D.told D.faults self.old) }
        ensures slots { self.new.slots ≡ self.old.slots }
    {
        self.execution.release(thread);
        self.stop = Some(DeviceStop::Failed { thread, call });
        Advance::Device
    }

    /// The steps so far, each with what the library saw of it. It takes no memory.
    pub fn lines(&self) -> &[Line]
        ensures { result.now ≡ (book_view E.program E.machine D.told D.faults self.now).lines }
    {
        self.lines.as_slice()
    }

    /// The program that runs. It takes no memory.
    pub fn program(&self) -> &Program
        ensures { result.now ≡ (book_view E.program E.machine D.told D.faults self.now).program }
    {
        self.execution.program()
    }

    /// Why the book takes no more steps, if so. It takes no memory.
    pub fn stop(&self) -> &Option<DeviceStop>
        ensures { result.now ≡ (book_view E.program E.machine D.told D.faults self.now).stop }
    {
        &self.stop
    }
}

/// A text that is answered is made of bytes.
fn answers_bytes(answer: &ApiAnswer)
    ensures { AnswersBytes answer.now }
{
    match answer {
        ApiAnswer::Text(text) => are_bytes(text.as_slice()),
        ApiAnswer::Nothing => {}
        ApiAnswer::Int(_) => {}
        ApiAnswer::Null => {}
        ApiAnswer::Fresh(_) => {}
        ApiAnswer::Arg(_) => {}
        ApiAnswer::Receiver => {}
        ApiAnswer::Throws(_) => {}
    }
}

fn are_bytes(text: &[u8])
    ensures { AllByRecursion (λ b. b < 256) text.now }
{}

/// The end line of a machine's end.
fn end_line(end: End) -> EndLine
    ensures { result ≡ end_line end }
{
    match end {
        End::Finished => EndLine::Finished,
        End::Deadlock => EndLine::Deadlock,
        End::Stopped(value) => EndLine::Stopped(value),
    }
}

/// How many faults each device has counted.
fn fault_counts<D: ApiDevice>(alloc: Global, slots: &[SlotOf<D>]) -> Result<List<u64>, NoMemory>
    ensures { IfOk result (λ counts. counts ≡ map (λ slot. D.faults slot.device) slots.now) }
{
    let mut counts = List::new(alloc);
    for slot in slots {
        counts.push(slot.device.fault_count())?;
    }
    Ok(counts)
}
