//! A run as the text of a record.

ghost use Rattle.std.specs.Prelude.{◌≡◌, ◌<◌, ◌≤◌, ◌+◌, ◌++◌, ◌^◌, decimal, IfOk, List as Items, OnOk};
ghost use Rattle.std.specs.Fmt.{signed_decimal};
ghost use Rattle.std.specs.List.{flat_map};
ghost use Rattle.api_listing.specs.declared.types.ListedMethod.{ListedMethod};
ghost use Rattle.event_record.specs.Again.{end_line};
ghost use Rattle.event_record.specs.Joined.{WritesOn, end_head, joined_line};
ghost use Rattle.event_record.specs.Printing.{following, event_line};
ghost use Rattle.event_record.specs.RunLines.{LinesOfRunsAreTold, RecordsOfRunsAreReadAgain};
ghost use Rattle.event_record.specs.Encoding.{answer_words};
ghost use Rattle.event_record.specs.Value.{hex};
ghost use Rattle.event_record.specs.Writing.{
  RecordsAreReadAgain,
  answer_line,
  choice_before,
  ending_of,
  entries_of,
  entry_line,
  event_before,
  events_text,
  plain_before,
  record_text,
};

use crate::printing::{push_event, push_hex};
use api_listing::{ApiAnswer, Event, Listing};
use guest_model::{
    Choice, Step, events_are_of_their_thread, numbers_are_of_32_bits, sees_numbers_in_range,
    sees_what_is_given, steps_add_one, steps_are_enabled,
};
use mon_base::{Bytes, NoMemory, push_count, push_number};
use std::alloc::Global;

/// A step of a run, and what the library saw of it.
#[derive(Drop)]
pub struct Line {
    pub step: Step,
    pub event: Option<Event>,
}

/// How a record ends.
#[derive(Clone, Copy)]
pub enum EndLine {
    /// Each thread ended.
    Finished,
    /// No thread could make a step.
    Deadlock,
    /// The program was stopped with this value.
    Stopped(i32),
    /// The run had no more steps to make.
    Budget,
    /// A device of the library failed.
    Device,
    /// The record ends before the run does.
    Running,
}

/// Plain steps of a thread that are not written yet.
#[derive(Clone, Copy)]
pub struct Joined {
    pub thread: u32,
    pub count: u64,
}

/// The record of these steps, each with what was seen of it. Plain steps of a thread are joined into one line up to the next
/// event, answer or step of another thread.
pub fn record_text(
    alloc: Global,
    listing: &Listing,
    lines: &[Line],
    end: EndLine,
) -> Result<Bytes, NoMemory>
    ensures { IfOk result (λ text. text ≡ record_text listing.now lines.now end) }
{
    let mut out = Bytes::new(alloc);
    push_lines(&mut out, listing, lines)?;
    push_end(&mut out, end, lines.len() as u64)?;
    Ok(out)
}

/// The lines of these events, and the end line with this number. (`events_are_read_again`)
pub fn events_text(
    alloc: Global,
    listing: &Listing,
    events: &[Event],
    end: EndLine,
    count: u64,
) -> Result<Bytes, NoMemory>
    ensures { IfOk result (λ text. text ≡ events_text listing.now events.now end count) }
{
    let mut out = Bytes::new(alloc);
    push_events(&mut out, listing, events)?;
    push_end(&mut out, end, count)?;
    Ok(out)
}

/// What is written of a run is read as that run, where a record can tell its steps and its events.
pub fn records_are_read_again()
    ensures { RecordsAreReadAgain }
{}

/// A record can tell each line of a run of a linked program that has fewer than some 4,000,000,000 steps, where the texts that
/// the library answers are made of bytes.
pub fn lines_of_runs_are_told()
    ensures told { LinesOfRunsAreTold }
    // So the record of a run of at most 1,000,000 steps is read as that run.
    ensures again { RecordsOfRunsAreReadAgain }
{
    steps_are_enabled();
    steps_add_one();
    events_are_of_their_thread();
    numbers_are_of_32_bits();
    sees_numbers_in_range();
    sees_what_is_given();
}

fn push_events(out: &mut Bytes, listing: &Listing, events: &[Event]) -> Result<(), NoMemory>
    ensures { OnOk result (out.new ≡ out.old ++ flat_map (event_line listing.now.methods) events.now) }
{
    for event in events {
        push_event(out, listing, event)?;
    }
    Ok(())
}

fn push_lines(out: &mut Bytes, listing: &Listing, lines: &[Line]) -> Result<(), NoMemory>
    ensures { OnOk result (out.new ≡ out.old ++ flat_map (entry_line listing.now.methods) (entries_of lines.now)) }
{
    let mut joined = Joined {
        thread: 0,
        count: 0,
    };
    let mut left = lines;
    while let [line, rest @ ..] = left {
        let stepped = push_step(out, joined, &line.step)?;
        joined = push_seen(out, listing, stepped, &line.event)?;
        left = rest;
    }
    push_joined(out, joined)
}

/// Joins a plain step to the joined ones, or writes these and the answer.
fn push_step(out: &mut Bytes, joined: Joined, step: &Step) -> Result<Joined, NoMemory>
    requires { joined.count + 1 < 2 ^ 64 }
    ensures text { IfOk result (λ now. (methods : Items ListedMethod)
        → WritesOn methods out.old joined (choice_before step.now.thread step.now.choice) out.new now) }
    ensures count { IfOk result (λ now. now.count ≤ joined.count + 1) }
{
    match &step.choice {
        Choice::Plain => push_plain(out, joined, step.thread),
        Choice::Answer(answer) => {
            push_joined(out, joined)?;
            push_answer(out, step.thread, answer)?;
            Ok(none_of(step.thread))
        }
    }
}

fn push_plain(out: &mut Bytes, joined: Joined, thread: u32) -> Result<Joined, NoMemory>
    requires { joined.count + 1 < 2 ^ 64 }
    ensures text { IfOk result (λ now. (methods : Items ListedMethod) → WritesOn methods out.old joined (plain_before thread) out.new now) }
    ensures count { IfOk result (λ now. now.count ≤ joined.count + 1) }
{
    if joined.thread == thread {
        let count = joined.count + 1;
        return Ok(Joined { thread, count });
    }
    push_joined(out, joined)?;
    Ok(Joined { thread, count: 1 })
}

/// Writes the joined steps and the event, where there is one.
fn push_seen(
    out: &mut Bytes,
    listing: &Listing,
    joined: Joined,
    event: &Option<Event>,
) -> Result<Joined, NoMemory>
    ensures text { IfOk result (λ now. WritesOn listing.now.methods out.old joined (event_before event.now) out.new now) }
    ensures count { IfOk result (λ now. now.count ≤ joined.count) }
{
    match event {
        Some(event) => {
            push_joined(out, joined)?;
            push_event(out, listing, event)?;
            Ok(none_of(joined.thread))
        }
        None => Ok(joined),
    }
}

fn none_of(thread: u32) -> Joined
    ensures { result ≡ record { thread = thread; count = 0 } }
{
    Joined { thread, count: 0 }
}

/// The line of the joined steps, where there are any.
fn push_joined(out: &mut Bytes, joined: Joined) -> Result<(), NoMemory>
    ensures { OnOk result (out.new ≡ out.old ++ joined_line joined.thread joined.count) }
{
    if joined.count == 0 {
        return Ok(());
    }
    out.extend(b"go")?;
    push_count_after(out, u64::from(joined.thread))?;
    push_count_after(out, joined.count)?;
    out.extend(b"\n")
}

fn push_answer(out: &mut Bytes, thread: u32, answer: &ApiAnswer) -> Result<(), NoMemory>
    ensures { OnOk result (out.new ≡ out.old ++ answer_line thread answer.now) }
{
    out.extend(b"answer")?;
    push_count_after(out, u64::from(thread))?;
    push_answer_words(out, answer)?;
    out.extend(b"\n")
}

fn push_answer_words(out: &mut Bytes, answer: &ApiAnswer) -> Result<(), NoMemory>
    ensures { OnOk result (out.new ≡ out.old ++ flat_map following (answer_words answer.now)) }
{
    match answer {
        ApiAnswer::Nothing => push_word(out, b"nothing"),
        ApiAnswer::Int(n) => {
            push_word(out, b"int")?;
            push_int_after(out, *n)
        }
        ApiAnswer::Null => push_word(out, b"null"),
        ApiAnswer::Text(bytes) => {
            push_word(out, b"text")?;
            push_hex_after(out, bytes.as_slice())
        }
        ApiAnswer::Fresh(class) => push_words(out, b"fresh", class.as_slice()),
        ApiAnswer::Arg(place) => {
            push_word(out, b"arg")?;
            push_count_after(out, u64::from(*place))
        }
        ApiAnswer::Receiver => push_word(out, b"receiver"),
        ApiAnswer::Throws(class) => push_words(out, b"throws", class.as_slice()),
    }
}

/// The end line, with the number of the steps.
fn push_end(out: &mut Bytes, end: EndLine, count: u64) -> Result<(), NoMemory>
    ensures { OnOk result (out.new ≡ out.old ++ end_line (ending_of end count)) }
{
    push_end_head(out, end)?;
    push_count_after(out, count)?;
    out.extend(b"\n")
}

fn push_end_head(out: &mut Bytes, end: EndLine) -> Result<(), NoMemory>
    ensures { OnOk result (out.new ≡ out.old ++ end_head end) }
{
    match end {
        EndLine::Finished => out.extend(b"end finished"),
        EndLine::Deadlock => out.extend(b"end deadlock"),
        EndLine::Stopped(value) => {
            out.extend(b"end stopped")?;
            push_int_after(out, value)
        }
        EndLine::Budget => out.extend(b"end budget"),
        EndLine::Device => out.extend(b"end device"),
        EndLine::Running => out.extend(b"end running"),
    }
}

// ---- words after a space

fn push_word(out: &mut Bytes, word: &[u8]) -> Result<(), NoMemory>
    ensures { OnOk result (out.new ≡ out.old ++ following word.now) }
{
    out.push(b' ')?;
    out.extend(word)
}

fn push_words(out: &mut Bytes, first: &[u8], second: &[u8]) -> Result<(), NoMemory>
    ensures { OnOk result (out.new ≡ out.old ++ (following first.now ++ following second.now)) }
{
    push_word(out, first)?;
    push_word(out, second)
}

fn push_count_after(out: &mut Bytes, n: u64) -> Result<(), NoMemory>
    ensures { OnOk result (out.new ≡ out.old ++ following (decimal n)) }
{
    out.push(b' ')?;
    push_count(out, n)
}

fn push_int_after(out: &mut Bytes, n: i32) -> Result<(), NoMemory>
    ensures { OnOk result (out.new ≡ out.old ++ following (signed_decimal n)) }
{
    out.push(b' ')?;
    push_number(out, i64::from(n))
}

fn push_hex_after(out: &mut Bytes, bytes: &[u8]) -> Result<(), NoMemory>
    ensures { OnOk result (out.new ≡ out.old ++ following (hex bytes.now)) }
{
    out.push(b' ')?;
    push_hex(out, bytes)
}
