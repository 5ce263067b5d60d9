//! A record out of its text.

ghost use Rattle.std.specs.Prelude.{◌≡◌, ◌<◌, ◌≤◌, ◌+◌, ◌++◌, ◌^◌, false, nat_lt, length, replicate, IfOk, MatchResult, OnOk};
ghost use Rattle.api_listing.specs.Words.{pieces};
ghost use Rattle.event_record.specs.declared.fault.RecordFault.TheVariants.{Memory};
ghost use Rattle.event_record.specs.declared.reading.Record.{Record};
ghost use Rattle.mon_base.specs.Answer.{Answers};
ghost use Rattle.event_record.specs.Library.{library_in, library_of};
ghost use Rattle.event_record.specs.Record.{
  after_line,
  after_lines,
  empty_record,
  is_over,
  more_steps,
  over,
  plain,
  reading,
  with_entry,
};
ghost use Rattle.event_record.specs.Encoding.{EncodesRecord};

use crate::entry::{Entry, entry_of};
use crate::fault::RecordFault;
use crate::names::{Names, names_of};
use crate::words::Pieces;
use api_listing::{Event, FormFault, Listing};
use guest_model::{Choice, Step};
use mon_base::{List, NoMemory};
use std::alloc::Global;

/// The steps and the events of a record, each in their order.
#[derive(Drop)]
pub struct Record {
    pub steps: List<Step>,
    pub events: List<Event>,
}

/// The record after a line, and whether that was the end line.
#[derive(Drop)]
pub struct Told {
    pub after: Record,
    pub is_last: bool,
}

/// The record that the text encodes over the classes and methods of the listing, or its first line that is wrong.
pub fn read_record(alloc: Global, text: &[u8], listing: &Listing) -> Result<Record, RecordFault>
    requires listed { length listing.now.methods < 2 ^ 32 }
    // What is read decides the answer, and which line is the first that is wrong.
    ensures exact { Answers RecordFault.Memory result (reading text.now listing.now) }
    // What is read is encoded so.
    ensures found { IfOk result (λ r. EncodesRecord listing.now text.now r) }
    // What is encoded so is read, unless memory runs out.
    ensures only { (told : Record) → EncodesRecord listing.now text.now told
        → MatchResult result (λ read. read ≡ told) (λ e. e ≡ Memory) }
{
    read_text(alloc, text, listing)
}

fn read_text<'a>(alloc: Global, text: &'a [u8], listing: &'a Listing) -> Result<Record, RecordFault>
    requires { length listing.now.methods < 2 ^ 32 }
    ensures { Answers RecordFault.Memory result (reading text.now listing.now) }
{
    let names = names_of(alloc, listing)?;
    let mut lines = Pieces::lines(text);
    read_lines(alloc, &names, &mut lines)
}

fn read_lines<'a>(
    alloc: Global,
    names: &Names<'a>,
    lines: &mut Pieces<'a>,
) -> Result<Record, RecordFault>
    requires { length lines.old ≤ 2 ^ 63 }
    ensures { Answers RecordFault.Memory result (after_lines (library_in names.now) 1 empty_record lines.old) }
{
    let mut so_far = empty_record(alloc);
    let mut number: u64 = 1;
    while let Some(line) = lines.next() {
        if lines.is_empty() {
            return Err(RecordFault::Line { line: number });
        }
        let told = after_line(alloc, names, number, so_far, line)?;
        if told.is_last {
            return over(number, told.after, lines);
        }
        so_far = told.after;
        number += 1;
    }
    Err(RecordFault::Line { line: number })
}

fn empty_record(alloc: Global) -> Record
    ensures { result ≡ empty_record }
{
    Record {
        steps: List::new(alloc),
        events: List::new(alloc),
    }
}

/// What the end line gives, with what stands after its newline.
fn over(number: u64, so_far: Record, rest: &mut Pieces) -> Result<Record, RecordFault>
    requires { number + 1 < 2 ^ 64 }
    ensures { Answers RecordFault.Memory result (over number so_far rest.old) }
{
    if is_over(rest) {
        Ok(so_far)
    } else {
        Err(RecordFault::Line { line: number + 1 })
    }
}

fn is_over(rest: &mut Pieces) -> bool
    ensures { result ≡ is_over rest.old }
{
    match rest.next() {
        None => true,
        Some(last) => last.is_empty() && rest.is_empty(),
    }
}

/// The record after the line with this number.
#[tactic(auto, unfolding(crate::specs::Record::after_line))]
fn after_line<'a>(
    alloc: Global,
    names: &Names<'a>,
    number: u64,
    so_far: Record,
    line: &'a [u8],
) -> Result<Told, RecordFault>
    ensures { Answers RecordFault.Memory result (after_line (library_in names.now) number so_far line.now) }
{
    let mut words = Pieces::words(line);
    match entry_of(alloc, names, &mut words) {
        Ok(entry) => with_entry(number, so_far, entry),
        Err(FormFault::NoForm) => Err(RecordFault::Line { line: number }),
        Err(FormFault::Memory) => Err(RecordFault::Memory),
    }
}

fn with_entry(number: u64, so_far: Record, entry: Entry) -> Result<Told, RecordFault>
    ensures { Answers RecordFault.Memory result (with_entry number so_far entry) }
{
    match entry {
        Entry::Go { thread, count } => plain_steps(number, so_far, thread, count),
        Entry::Answer { thread, answer } => {
            let choice = Choice::Answer(answer);
            one_step(number, so_far, Step { thread, choice })
        }
        Entry::Seen(event) => {
            let Record { steps, mut events } = so_far;
            events.push(event)?;
            Ok(goes_on(steps, events))
        }
        Entry::End => {
            Ok(Told {
                after: so_far,
                is_last: true,
            })
        }
    }
}

fn goes_on(steps: List<Step>, events: List<Event>) -> Told
    ensures { result ≡ record { after = record { steps = steps; events = events }; is_last = false } }
{
    Told {
        after: Record { steps, events },
        is_last: false,
    }
}

/// So many plain steps of a thread more.
fn plain_steps(number: u64, so_far: Record, thread: u32, count: u32) -> Result<Told, RecordFault>
    ensures { Answers RecordFault.Memory result (more_steps number so_far count (plain thread)) }
{
    let Record { mut steps, events } = so_far;
    if too_many(steps.len(), count) {
        return Err(RecordFault::Line { line: number });
    }
    push_plain(&mut steps, thread, count)?;
    Ok(goes_on(steps, events))
}

/// A step more.
fn one_step(number: u64, so_far: Record, step: Step) -> Result<Told, RecordFault>
    ensures { Answers RecordFault.Memory result (more_steps number so_far 1 step) }
{
    let Record { mut steps, events } = so_far;
    if too_many(steps.len(), 1) {
        return Err(RecordFault::Line { line: number });
    }
    steps.push(step)?;
    Ok(goes_on(steps, events))
}

fn too_many(steps: usize, more: u32) -> bool
    ensures { result ≡ nat_lt 1000000 (steps + more) }
{
    steps > 1_000_000 || steps as u64 + u64::from(more) > 1_000_000
}

fn push_plain(steps: &mut List<Step>, thread: u32, count: u32) -> Result<(), NoMemory>
    ensures { OnOk result (steps.new ≡ steps.old ++ replicate count (plain thread)) }
{
    for _ in 0..count {
        steps.push(Step {
            thread,
            choice: Choice::Plain,
        })?;
    }
    Ok(())
}
