//! Records that are written: how steps are joined, each answer, each end, and a run that is read again.

use super::{answers, listing, record_of};
use api_listing::{ApiAnswer, ApiValue, Event};
use event_record::{EndLine, Line, record_text};
use guest_model::{Choice, Step};
use mon_base::{Bytes, List, NoMemory};
use std::alloc::Global;
use std::test::Fail;

/// Whether the record of the lines is this text.
fn is_written(alloc: Global, lines: &[Line], end: EndLine, text: &[u8]) -> Result<bool, Fail> {
    let listing = listing(alloc)?;
    match record_text(alloc, &listing, lines, end) {
        Ok(written) => Ok(written.as_slice() == text),
        Err(_) => Err("memory is left".into()),
    }
}

fn line(thread: u32, choice: Choice, event: Option<Event>) -> Line {
    Line {
        step: Step { thread, choice },
        event,
    }
}

fn go(lines: &mut List<Line>, thread: u32, count: u32) -> Result<(), NoMemory> {
    for _ in 0..count {
        lines.push(line(thread, Choice::Plain, None))?;
    }
    Ok(())
}

fn call(alloc: Global, thread: u32, method: u32) -> Event {
    Event::Call {
        thread,
        method,
        args: List::new(alloc),
    }
}

/// Plain steps of two threads.
fn put_in_turn(lines: &mut List<Line>) -> Result<(), NoMemory> {
    go(lines, 0, 3)?;
    go(lines, 1, 2)?;
    go(lines, 0, 1)
}

#[test]
fn plain_steps_of_a_thread_are_joined(rt: HostRuntime) -> Result<(), Fail> {
    let mut lines = List::new(rt.alloc());
    put_in_turn(&mut lines)?;
    let text = b"go 0 3\ngo 1 2\ngo 0 1\nend finished 6\n";
    assert!(&rt; is_written(rt.alloc(), lines.as_slice(), EndLine::Finished, text)?);
    Ok(())
}

/// Plain steps of a thread, the second of which is a call.
fn put_around(lines: &mut List<Line>, event: Event) -> Result<(), NoMemory> {
    let call = line(4, Choice::Plain, Some(event));
    go(lines, 4, 1)?;
    lines.push(call)?;
    go(lines, 4, 2)
}

#[test]
fn no_steps_are_joined_over_an_event(rt: HostRuntime) -> Result<(), Fail> {
    let mut lines = List::new(rt.alloc());
    put_around(&mut lines, call(rt.alloc(), 4, 0))?;
    let text = b"go 4 2\ncall 4 api/Net send ()V\ngo 4 2\nend budget 4\n";
    assert!(&rt; is_written(rt.alloc(), lines.as_slice(), EndLine::Budget, text)?);
    Ok(())
}

/// A plain step of the thread 7, the answer of the line in this place, and a plain step.
fn put_answer(lines: &mut List<Line>, alloc: Global, place: usize) -> Result<(), NoMemory> {
    go(lines, 7, 1)?;
    let answer = answers::answer(alloc, place)?;
    lines.push(line(7, Choice::Answer(answer), None))?;
    go(lines, 7, 1)
}

/// Their text, with the line of the answer.
fn text_around(alloc: Global, words: &str) -> Result<Bytes, NoMemory> {
    let mut text = answers::bytes(alloc, b"go 7 1\n")?;
    text.extend(words.as_bytes())?;
    text.extend(b"\ngo 7 1\nend running 3\n")?;
    Ok(text)
}

/// Whether the answer in this place is written as these words.
fn is_written_as(alloc: Global, place: usize, words: &str) -> Result<bool, Fail> {
    let text = text_around(alloc, words)?;
    let mut lines = List::new(alloc);
    put_answer(&mut lines, alloc, place)?;
    is_written(alloc, lines.as_slice(), EndLine::Running, text.as_slice())
}

#[test]
fn answers_stand_between_plain_steps(rt: HostRuntime) -> Result<(), Fail> {
    for (place, words) in answers::ANSWERS.iter().enumerate() {
        assert!(&rt; is_written_as(rt.alloc(), place, words)?, "{words}");
    }
    Ok(())
}

/// Each end of a run of two steps.
static ENDS: [(EndLine, &str); 6] = [
    (EndLine::Finished, "go 0 2\nend finished 2\n"),
    (EndLine::Deadlock, "go 0 2\nend deadlock 2\n"),
    (EndLine::Stopped(-7), "go 0 2\nend stopped -7 2\n"),
    (EndLine::Budget, "go 0 2\nend budget 2\n"),
    (EndLine::Device, "go 0 2\nend device 2\n"),
    (EndLine::Running, "go 0 2\nend running 2\n"),
];

#[test]
fn each_end_has_its_line(rt: HostRuntime) -> Result<(), Fail> {
    let mut lines = List::new(rt.alloc());
    go(&mut lines, 0, 2)?;
    for (end, text) in &ENDS {
        assert!(&rt;
            is_written(rt.alloc(), lines.as_slice(), *end, text.as_bytes())?,
            "{text}"
        );
    }
    Ok(())
}

/// A call without arguments, and the return of a number.
fn put_number_call(lines: &mut List<Line>, alloc: Global) -> Result<(), NoMemory> {
    go(lines, 0, 4)?;
    lines.push(line(0, Choice::Plain, Some(call(alloc, 0, 1))))?;
    let back = Event::Return {
        thread: 0,
        method: 1,
        value: Some(ApiValue::Int(7)),
    };
    lines.push(line(0, Choice::Answer(ApiAnswer::Int(7)), Some(back)))?;
    go(lines, 0, 1)
}

/// The arguments of a call, a number and a text.
fn put_args(args: &mut List<ApiValue>, alloc: Global) -> Result<(), NoMemory> {
    args.push(ApiValue::Int(-5))?;
    args.push(ApiValue::Text(answers::bytes(alloc, b"hi")?))
}

/// A call with arguments.
fn put_text_call(lines: &mut List<Line>, alloc: Global) -> Result<(), NoMemory> {
    let mut args = List::new(alloc);
    put_args(&mut args, alloc)?;
    let call = Event::Call {
        thread: 1,
        method: 3,
        args,
    };
    lines.push(line(1, Choice::Plain, Some(call)))
}

/// An exception, and an answer that is nothing.
fn put_throw(lines: &mut List<Line>, alloc: Global) -> Result<(), NoMemory> {
    let broken = answers::bytes(alloc, b"api/Broken")?;
    let thrown = Event::Except {
        thread: 1,
        method: 3,
    };
    lines.push(line(1, Choice::Answer(ApiAnswer::Throws(broken)), Some(thrown)))?;
    lines.push(line(0, Choice::Answer(ApiAnswer::Nothing), None))
}

/// A run with each kind of line.
fn put_run(lines: &mut List<Line>, alloc: Global) -> Result<(), NoMemory> {
    put_number_call(lines, alloc)?;
    put_text_call(lines, alloc)?;
    put_throw(lines, alloc)
}

/// The text of the run.
const RUN: &[u8] =
    b"go 0 5\ncall 0 api/Net read ()I\nanswer 0 int 7\nreturn 0 api/Net read ()I 7\ngo 0 1\n\
    go 1 1\ncall 1 api/Net find (ILjava/lang/String;)[Ljava/lang/String; -5 text:6869\n\
    answer 1 throws api/Broken\nexcept 1 api/Net find (ILjava/lang/String;)[Ljava/lang/String;\n\
    answer 0 nothing\nend stopped 77 10\n";

#[test]
fn a_run_is_written(rt: HostRuntime) -> Result<(), Fail> {
    let mut lines = List::new(rt.alloc());
    put_run(&mut lines, rt.alloc())?;
    assert!(&rt; is_written(rt.alloc(), lines.as_slice(), EndLine::Stopped(77), RUN)?);
    Ok(())
}

#[test]
fn a_run_is_read_again(rt: HostRuntime) -> Result<(), Fail> {
    let record = record_of(rt.alloc(), RUN)?;
    assert!(&rt; record.steps.len() == 10);
    assert!(&rt; end_with_a_throw(record.events.as_slice()));
    Ok(())
}

/// Whether there are four events, the last of which is the exception of the run.
fn end_with_a_throw(events: &[Event]) -> bool {
    match events {
        [_, _, _, Event::Except { thread, method }] => *thread == 1 && *method == 3,
        _ => false,
    }
}
