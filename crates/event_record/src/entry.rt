//! The lines of a record, each by itself.

ghost use Rattle.std.specs.Prelude.{◌≡◌, [], ◌∷◌, MatchResult};
ghost use Rattle.mon_base.specs.Answer.{Answers};
ghost use Rattle.event_record.specs.Library.{id_in, library_in};
ghost use Rattle.event_record.specs.Entry.{
  answer_line,
  answer_of,
  answer_with,
  arg_answer,
  bare_answer,
  call_event,
  end_line,
  ends,
  entry_of,
  event_line,
  event_of,
  except_event,
  fresh_answer,
  gives_nothing,
  go_line,
  listed_index,
  int_answer,
  is_count,
  is_end,
  is_int,
  line_of,
  method_event,
  result_of,
  return_event,
  text_answer,
  throws_answer,
  values_from,
};

use crate::names::{MethodName, Names};
use crate::number::{index_of, int_of, number_of};
use crate::value::{hex_at, value_at};
use crate::words::{Pieces, is_text};
use api_listing::{ApiAnswer, ApiValue, Event, FormFault};
use mon_base::{Bytes, List};
use std::alloc::Global;

/// What a line of a record tells.
#[derive(Drop)]
pub enum Entry {
    /// So many plain steps of the thread, at least one.
    Go { thread: u32, count: u32 },
    /// A step of the thread that takes this answer.
    Answer { thread: u32, answer: ApiAnswer },
    Seen(Event),
    /// The last line: how the run ended.
    End,
}

/// What the words of a line tell, over the names of a listing.
#[tactic(auto, unfolding(crate::specs::Entry::entry_of))]
pub fn entry_of<'a>(
    alloc: Global,
    names: &Names<'a>,
    words: &mut Pieces<'a>,
) -> Result<Entry, FormFault>
    ensures { Answers FormFault.Memory result (entry_of (library_in names.now) words.old) }
{
    let verb = next_word(words)?;
    let second = next_word(words)?;
    let third = next_word(words)?;
    line_of(alloc, names, verb, second, third, words)
}

/// The first word, which is taken off.
fn next_word<'a>(words: &mut Pieces<'a>) -> Result<&'a [u8], FormFault>
    ensures { MatchResult result (λ word. words.old ≡ word.now ∷ words.new) (λ e. (e ≡ FormFault.NoForm) × (words.old ≡ [])) }
{
    let Some(word) = words.next() else {
        return Err(FormFault::NoForm);
    };
    Ok(word)
}

#[tactic(auto, unfolding(crate::specs::Entry::line_of))]
fn line_of<'a>(
    alloc: Global,
    names: &Names<'a>,
    verb: &[u8],
    second: &[u8],
    third: &'a [u8],
    rest: &mut Pieces<'a>,
) -> Result<Entry, FormFault>
    ensures { Answers FormFault.Memory result (line_of (library_in names.now) verb.now second.now third.now rest.old) }
{
    if is_text(verb, "go") {
        go_line(second, third, rest)
    } else if is_text(verb, "answer") {
        answer_line(alloc, names, second, third, rest)
    } else if is_text(verb, "end") {
        end_line(second, third, rest)
    } else {
        event_line(alloc, names, verb, second, third, rest)
    }
}

fn listed_index(word: &[u8]) -> Result<u32, FormFault>
    ensures { Answers FormFault.Memory result (listed_index word.now) }
{
    let Some(index) = index_of(word) else {
        return Err(FormFault::NoForm);
    };
    Ok(index)
}

// ---- steps

#[tactic(auto, unfolding(crate::specs::Entry::go_line))]
fn go_line(thread: &[u8], count: &[u8], rest: &mut Pieces) -> Result<Entry, FormFault>
    ensures { Answers FormFault.Memory result (go_line thread.now count.now rest.old) }
{
    let thread = listed_index(thread)?;
    let count = listed_index(count)?;
    if count == 0 || !rest.is_empty() {
        return Err(FormFault::NoForm);
    }
    Ok(Entry::Go { thread, count })
}

#[tactic(auto, unfolding(crate::specs::Entry::answer_line))]
fn answer_line<'a>(
    alloc: Global,
    names: &Names<'a>,
    thread: &[u8],
    kind: &[u8],
    rest: &mut Pieces<'a>,
) -> Result<Entry, FormFault>
    ensures { Answers FormFault.Memory result (answer_line (library_in names.now) thread.now kind.now rest.old) }
{
    let thread = listed_index(thread)?;
    let answer = answer_of(alloc, names, kind, rest)?;
    Ok(Entry::Answer { thread, answer })
}

#[tactic(auto, unfolding(crate::specs::Entry::answer_of))]
fn answer_of<'a>(
    alloc: Global,
    names: &Names<'a>,
    kind: &[u8],
    rest: &mut Pieces<'a>,
) -> Result<ApiAnswer, FormFault>
    ensures { Answers FormFault.Memory result (answer_of (library_in names.now) kind.now rest.old) }
{
    let Some(word) = rest.next() else {
        return bare_answer(kind);
    };
    if !rest.is_empty() {
        return Err(FormFault::NoForm);
    }
    answer_with(alloc, names, kind, word)
}

/// An answer of one word.
#[tactic(auto, unfolding(crate::specs::Entry::bare_answer))]
fn bare_answer(kind: &[u8]) -> Result<ApiAnswer, FormFault>
    ensures { Answers FormFault.Memory result (bare_answer kind.now) }
{
    if is_text(kind, "nothing") {
        Ok(ApiAnswer::Nothing)
    } else if is_text(kind, "null") {
        Ok(ApiAnswer::Null)
    } else if is_text(kind, "receiver") {
        Ok(ApiAnswer::Receiver)
    } else {
        Err(FormFault::NoForm)
    }
}

/// An answer with a word after it.
#[tactic(auto, unfolding(crate::specs::Entry::answer_with))]
fn answer_with<'a>(
    alloc: Global,
    names: &Names<'a>,
    kind: &[u8],
    word: &'a [u8],
) -> Result<ApiAnswer, FormFault>
    ensures { Answers FormFault.Memory result (answer_with (library_in names.now) kind.now word.now) }
{
    if is_text(kind, "int") {
        int_answer(word)
    } else if is_text(kind, "text") {
        text_answer(alloc, word)
    } else if is_text(kind, "fresh") {
        fresh_answer(alloc, names, word)
    } else if is_text(kind, "arg") {
        arg_answer(word)
    } else if is_text(kind, "throws") {
        throws_answer(alloc, names, word)
    } else {
        Err(FormFault::NoForm)
    }
}

#[tactic(auto, unfolding(crate::specs::Entry::int_answer))]
fn int_answer(word: &[u8]) -> Result<ApiAnswer, FormFault>
    ensures { Answers FormFault.Memory result (int_answer word.now) }
{
    let Some(n) = int_of(word) else {
        return Err(FormFault::NoForm);
    };
    Ok(ApiAnswer::Int(n))
}

#[tactic(auto, unfolding(crate::specs::Entry::text_answer))]
fn text_answer(alloc: Global, word: &[u8]) -> Result<ApiAnswer, FormFault>
    ensures { Answers FormFault.Memory result (text_answer word.now) }
{
    let bytes = hex_at(alloc, word)?;
    Ok(ApiAnswer::Text(bytes))
}

#[tactic(auto, unfolding(crate::specs::Entry::fresh_answer))]
fn fresh_answer<'a>(
    alloc: Global,
    names: &Names<'a>,
    word: &'a [u8],
) -> Result<ApiAnswer, FormFault>
    ensures { Answers FormFault.Memory result (fresh_answer (library_in names.now) word.now) }
{
    if !names.classes.contains(word) {
        return Err(FormFault::NoForm);
    }
    let class = Bytes::from_slice(alloc, word)?;
    Ok(ApiAnswer::Fresh(class))
}

#[tactic(auto, unfolding(crate::specs::Entry::throws_answer))]
fn throws_answer<'a>(
    alloc: Global,
    names: &Names<'a>,
    word: &'a [u8],
) -> Result<ApiAnswer, FormFault>
    ensures { Answers FormFault.Memory result (throws_answer (library_in names.now) word.now) }
{
    if !names.classes.contains(word) {
        return Err(FormFault::NoForm);
    }
    let class = Bytes::from_slice(alloc, word)?;
    Ok(ApiAnswer::Throws(class))
}

#[tactic(auto, unfolding(crate::specs::Entry::arg_answer))]
fn arg_answer(word: &[u8]) -> Result<ApiAnswer, FormFault>
    ensures { Answers FormFault.Memory result (arg_answer word.now) }
{
    let place = listed_index(word)?;
    Ok(ApiAnswer::Arg(place))
}

// ---- events

#[tactic(auto, unfolding(crate::specs::Entry::event_line))]
fn event_line<'a>(
    alloc: Global,
    names: &Names<'a>,
    verb: &[u8],
    thread: &[u8],
    class: &'a [u8],
    rest: &mut Pieces<'a>,
) -> Result<Entry, FormFault>
    ensures { Answers FormFault.Memory result (event_line (library_in names.now) verb.now thread.now class.now rest.old) }
{
    let name = next_word(rest)?;
    let desc = next_word(rest)?;
    let id = MethodName { class, name, desc };
    method_event(alloc, names, verb, thread, &id, rest)
}

#[tactic(auto, unfolding(crate::specs::Entry::method_event))]
fn method_event<'a>(
    alloc: Global,
    names: &Names<'a>,
    verb: &[u8],
    thread: &[u8],
    id: &MethodName<'a>,
    values: &mut Pieces<'a>,
) -> Result<Entry, FormFault>
    ensures { Answers FormFault.Memory result (method_event (library_in names.now) verb.now thread.now (id_in id.now) values.old) }
{
    let thread = listed_index(thread)?;
    let Some(method) = names.methods.get(id) else {
        return Err(FormFault::NoForm);
    };
    let void = gives_nothing(id.desc);
    event_of(alloc, verb, thread, *method, void, values)
}

/// Whether the descriptor is that of a method without a result.
fn gives_nothing(desc: &[u8]) -> bool
    ensures { result ≡ gives_nothing desc.now }
{
    is_text(&desc[desc.len().saturating_sub(2)..], ")V")
}

#[tactic(auto, unfolding(crate::specs::Entry::event_of))]
fn event_of(
    alloc: Global,
    verb: &[u8],
    thread: u32,
    method: u32,
    void: bool,
    values: &mut Pieces,
) -> Result<Entry, FormFault>
    ensures { Answers FormFault.Memory result (event_of verb.now thread method void values.old) }
{
    if is_text(verb, "call") {
        call_event(alloc, thread, method, values)
    } else if is_text(verb, "return") {
        return_event(alloc, thread, method, void, values)
    } else if is_text(verb, "except") {
        except_event(thread, method, values)
    } else {
        Err(FormFault::NoForm)
    }
}

#[tactic(auto, unfolding(crate::specs::Entry::call_event))]
fn call_event(
    alloc: Global,
    thread: u32,
    method: u32,
    values: &mut Pieces,
) -> Result<Entry, FormFault>
    ensures { Answers FormFault.Memory result (call_event thread method values.old) }
{
    let args = values_of(alloc, values)?;
    Ok(Entry::Seen(Event::Call {
        thread,
        method,
        args,
    }))
}

fn values_of(alloc: Global, words: &mut Pieces) -> Result<List<ApiValue>, FormFault>
    ensures { Answers FormFault.Memory result (values_from [] words.old) }
{
    let mut values = List::new(alloc);
    while let Some(word) = words.next() {
        let value = value_at(alloc, word)?;
        values.push(value)?;
    }
    Ok(values)
}

#[tactic(auto, unfolding(crate::specs::Entry::return_event))]
fn return_event(
    alloc: Global,
    thread: u32,
    method: u32,
    void: bool,
    values: &mut Pieces,
) -> Result<Entry, FormFault>
    ensures { Answers FormFault.Memory result (return_event thread method void values.old) }
{
    let value = result_of(alloc, void, values)?;
    Ok(Entry::Seen(Event::Return {
        thread,
        method,
        value,
    }))
}

#[tactic(auto, unfolding(crate::specs::Entry::result_of))]
fn result_of(alloc: Global, void: bool, values: &mut Pieces) -> Result<Option<ApiValue>, FormFault>
    ensures { Answers FormFault.Memory result (result_of void values.old) }
{
    let Some(word) = values.next() else {
        return if void {
            Ok(None)
        } else {
            Err(FormFault::NoForm)
        };
    };
    if void || !values.is_empty() {
        return Err(FormFault::NoForm);
    }
    let value = value_at(alloc, word)?;
    Ok(Some(value))
}

#[tactic(auto, unfolding(crate::specs::Entry::except_event))]
fn except_event(thread: u32, method: u32, values: &mut Pieces) -> Result<Entry, FormFault>
    ensures { Answers FormFault.Memory result (except_event thread method values.old) }
{
    if !values.is_empty() {
        return Err(FormFault::NoForm);
    }
    Ok(Entry::Seen(Event::Except { thread, method }))
}

// ---- the end

#[tactic(auto, unfolding(crate::specs::Entry::end_line))]
fn end_line(kind: &[u8], second: &[u8], rest: &mut Pieces) -> Result<Entry, FormFault>
    ensures { Answers FormFault.Memory result (end_line kind.now second.now rest.old) }
{
    if ends(kind, second, rest) {
        Ok(Entry::End)
    } else {
        Err(FormFault::NoForm)
    }
}

fn ends(kind: &[u8], second: &[u8], rest: &mut Pieces) -> bool
    ensures { result ≡ ends kind.now second.now rest.old }
{
    let Some(third) = rest.next() else {
        return is_end(kind) && is_count(second);
    };
    if !rest.is_empty() {
        return false;
    }
    is_text(kind, "stopped") && is_int(second) && is_count(third)
}

fn is_end(kind: &[u8]) -> bool
    ensures { result ≡ is_end kind.now }
{
    is_text(kind, "finished")
        || is_text(kind, "deadlock")
        || is_text(kind, "budget")
        || is_text(kind, "device")
        || is_text(kind, "running")
}

/// Whether the word is a number of steps, at most 2^63 - 1.
fn is_count(word: &[u8]) -> bool
    ensures { result ≡ is_count word.now }
{
    match number_of(word) {
        Some(n) => 0 <= n,
        None => false,
    }
}

fn is_int(word: &[u8]) -> bool
    ensures { result ≡ is_int word.now }
{
    int_of(word).is_some()
}
