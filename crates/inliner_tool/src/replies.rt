//! What is printed for an outcome.

ghost use Rattle.std.specs.Prelude.{◌≡◌, None, Some, IfOk, Ok, Err};
ghost use Rattle.inliner_tool.specs.declared.answer.Answer.TheVariants as answers;
ghost use Rattle.inliner_tool.specs.Replies.{
  answer_reply,
  denied,
  input,
  mode_name,
  outcome_encoded,
  overflow,
  refusal_reply,
  usage_encoded,
  verdict_reply,
};

use crate::answer::Answer;
use crate::numbers::{
    cells_report, check_report, disobeying_report, event_report, input_report, length_report,
    link_report, overlapping_report, race_report, size_report, step_report, total_report,
    untyped_report,
};
use crate::refusal::Refusal;
use cert_checker::Accepted;
use cert_format::Mode;
use command_outputs::{Line, Reply, Report, text_of};
use conspec_automaton::Verdict;
use mon_base::{Bytes, NoMemory};
use std::alloc::Global;

/// The whole output for an answer.
pub fn answer_encoded(alloc: Global, answer: Answer) -> Result<Bytes, NoMemory>
    ensures { IfOk result (λ text. text ≡ outcome_encoded (Ok answer)) }
{
    let reply = answer_reply(alloc, answer)?;
    text_of(alloc, reply)
}

/// The whole output where a command ended before its answer.
pub fn refusal_encoded(alloc: Global, refusal: Refusal) -> Result<Bytes, NoMemory>
    ensures { IfOk result (λ text. text ≡ outcome_encoded (Err refusal)) }
{
    let reply = refusal_reply(alloc, refusal)?;
    text_of(alloc, reply)
}

/// The output for words that are no command's.
pub fn usage_encoded(alloc: Global) -> Result<Bytes, NoMemory>
    ensures { IfOk result (λ text. text ≡ usage_encoded) }
{
    text_of(alloc, Reply::Line(Line::Usage))
}

/// What is printed for an answer.
fn answer_reply(alloc: Global, answer: Answer) -> Result<Reply, NoMemory>
    ensures { IfOk result (λ reply. reply ≡ answer_reply answer) }
{
    match answer {
        Answer::Accepted(accepted) => accepted_reply(alloc, accepted),
        Answer::Shown(text) => Ok(Reply::Text(text)),
        Answer::Judged(verdict) => verdict_reply(alloc, verdict),
        Answer::RaceFree => Ok(Reply::Line(Line::Free)),
        Answer::Inlined { accepted, classes } => inlined_reply(alloc, accepted, classes),
        Answer::Generated {
            classes,
            sites,
            bytes,
        } => Ok(Reply::Line(Line::Generated {
            classes,
            sites,
            bytes,
        })),
        Answer::Loaded {
            accepted,
            classes,
            sites,
        } => loaded_reply(alloc, accepted, classes, sites),
        Answer::Replayed(text) => Ok(Reply::Text(text)),
        Answer::Ran { end: _, text } => Ok(Reply::Text(text)),
        Answer::Lifted(text) => Ok(Reply::Text(text)),
    }
}

fn accepted_reply(alloc: Global, accepted: Accepted) -> Result<Reply, NoMemory>
    ensures { IfOk result (λ reply. reply ≡ answer_reply (answers.Accepted accepted)) }
{
    let mode = Bytes::from_slice(alloc, mode_name(accepted.mode))?;
    Ok(Reply::Line(Line::Accepted {
        mode,
        sites: accepted.sites,
    }))
}

fn inlined_reply(alloc: Global, accepted: Accepted, classes: u64) -> Result<Reply, NoMemory>
    ensures { IfOk result (λ reply. reply ≡ answer_reply (answers.Inlined accepted classes)) }
{
    let mode = Bytes::from_slice(alloc, mode_name(accepted.mode))?;
    Ok(Reply::Line(Line::Inlined {
        mode,
        sites: accepted.sites,
        classes,
    }))
}

fn loaded_reply(
    alloc: Global,
    accepted: Accepted,
    classes: u64,
    sites: u64,
) -> Result<Reply, NoMemory>
    ensures { IfOk result (λ reply. reply ≡ answer_reply (answers.Loaded accepted classes sites)) }
{
    let mode = Bytes::from_slice(alloc, mode_name(accepted.mode))?;
    Ok(Reply::Line(Line::Loaded {
        classes,
        sites,
        mode,
    }))
}

fn mode_name(mode: Mode) -> &'static [u8]
    ensures { result.now ≡ mode_name mode }
{
    match mode {
        Mode::Hold => b"hold",
        Mode::Release => b"release",
    }
}

fn verdict_reply(alloc: Global, verdict: Verdict) -> Result<Reply, NoMemory>
    ensures { IfOk result (λ reply. reply ≡ verdict_reply verdict) }
{
    match verdict {
        Verdict::Accepted => Ok(Reply::Line(Line::Obeyed)),
        Verdict::StoppedAt { index } => Ok(Reply::Line(Line::Stopped { index })),
        Verdict::Refused { index } => {
            let report = event_report(alloc, index)?;
            Ok(denied(report))
        }
    }
}

/// What is printed where a command ended before its answer.
fn refusal_reply(alloc: Global, refusal: Refusal) -> Result<Reply, NoMemory>
    ensures { IfOk result (λ reply. reply ≡ refusal_reply refusal) }
{
    match refusal {
        Refusal::Input(name, fault) => {
            let report = input_report(alloc, fault)?;
            Ok(input(Some(name), report))
        }
        Refusal::Unread(name) => Ok(Reply::Line(Line::Store(name))),
        Refusal::TotalLong { len } => {
            let report = total_report(alloc, len)?;
            Ok(input(None, report))
        }
        Refusal::Link(fault) => {
            let report = link_report(alloc, fault)?;
            Ok(input(None, report))
        }
        Refusal::Untyped { class, method, at } => {
            let report = untyped_report(alloc, class, method, at)?;
            Ok(input(None, report))
        }
        Refusal::Denied(fault, label) => {
            let report = check_report(alloc, fault, label)?;
            Ok(denied(report))
        }
        Refusal::Racy { condition, example } => {
            let report = race_report(alloc, condition, example)?;
            Ok(denied(report))
        }
        Refusal::CellLimit {
            first,
            second,
            count,
        } => {
            let report = cells_report(alloc, first, second, count)?;
            Ok(denied(report))
        }
        Refusal::Overflow {
            class,
            method,
            what,
            value,
        } => {
            let report = size_report(alloc, class, method, what, value)?;
            Ok(overflow(report))
        }
        Refusal::LongCertificate { value } => {
            let report = length_report(alloc, value)?;
            Ok(overflow(report))
        }
        Refusal::NotEnabled { index } => Ok(denied(step_report(alloc, index)?)),
        Refusal::Disobeys { index } => Ok(denied(disobeying_report(alloc, index)?)),
        Refusal::Overlaps { index } => Ok(denied(overlapping_report(alloc, index)?)),
        Refusal::Unwritten(name) => Ok(Reply::Line(Line::Store(name))),
    }
}

/// The answer no.
fn denied(report: Report) -> Reply
    ensures { result ≡ denied report }
{
    Reply::Line(Line::Denied(report))
}

/// The file of this name is wrong, or none alone is.
fn input(name: Option<Bytes>, report: Report) -> Reply
    ensures { result ≡ input name report }
{
    Reply::Line(Line::Input { name, report })
}

/// A size that does not fit.
fn overflow(report: Report) -> Reply
    ensures { result ≡ overflow report }
{
    Reply::Line(Line::Overflow(report.fields))
}
