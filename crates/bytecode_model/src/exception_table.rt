//! The exception table of a method, in which the handlers near an instruction are found without a search.
//! (The Java Virtual Machine Specification, section 4.7.3.)

ghost use Rattle.std.specs.Prelude.{◌≡◌, ◌+◌, ◌≤◌, ◌<◌, ◌^◌, length, ◌∷◌, ◌++◌, ◌&&◌, [], ℕ, Contains, IfOk, MatchOption, OnOk};
ghost use Rattle.std.specs.Prelude.{filter, get_or, if◌then◌else◌, nat_le, nat_lt, option_copied, vec_len};
ghost use Rattle.bytecode_model.specs.Rules.{covers};
ghost use Rattle.bytecode_model.specs.Spans.{AreListed, IsAdded, handlers_at, places_near};
ghost use Rattle.bytecode_model.specs.declared.program.Handler.{Handler};

use crate::program::Handler;
use class_codec::copy_list;
use mon_base::{List, NoMemory};
use std::alloc::Global;
use std::marker::Model;

/// How many instructions are looked up together.
const SPAN: usize = 64;

/// The exception table of a method. For each span of instructions it keeps the places of the handlers that cover one of
/// them. A contract sees the list of all handlers.
#[derive(Drop)]
pub struct Handlers {
    list: List<Handler>,
    spans: Vec<List<u32>>,
}

impl Model for Handlers {
    ghost use Rattle.std.specs.Prelude.{List};
    ghost use Rattle.bytecode_model.specs.declared.program.Handler.{Handler};

    ghost Value = { List Handler };

    ghost use Rattle.bytecode_model.specs.Spans.{IsTable};

    ghost view = { λ h. h.list };

    ghost invariant = { λ h. IsTable h.spans.items h.list };
}

impl Handlers {
    /// The table without handlers. It takes no memory.
    pub fn none(alloc: Global) -> Handlers
        ensures { result ≡ [] }
    {
        Handlers {
            list: List::new(alloc),
            spans: Vec::new(alloc),
        }
    }

    /// The table of these handlers.
    pub fn new(alloc: Global, list: List<Handler>) -> Result<Handlers, NoMemory>
        requires { length list < 2 ^ 32 }
        ensures { IfOk result (λ table. table ≡ list) }
    {
        let spans = spans_of(alloc, list.as_slice())?;
        Ok(Handlers { list, spans })
    }

    /// An equal table.
    pub fn copy(&self, alloc: Global) -> Result<Handlers, NoMemory>
        ensures { IfOk result (λ copy. copy ≡ self.now) }
    {
        Handlers::new(alloc, copy_list(alloc, &self.list)?)
    }

    /// The handlers in the table's order.
    pub fn as_slice(&self) -> &[Handler]
        ensures { result.now ≡ self.now }
    {
        self.list.as_slice()
    }

    /// Those near the instruction of this index, in the table's order: all that cover it, and perhaps others.
    pub fn near(&self, at: u32) -> NearHandlers<'_>
        ensures covering { filter (covers at) result ≡ filter (covers at) self.now }
        ensures among { (handler : Handler) → Contains result handler → Contains self.now handler }
    {
        NearHandlers {
            table: self.list.as_slice(),
            places: places_near(self.spans.as_slice(), at),
        }
    }
}

/// Some handlers of a table, in its order. A contract sees the list of those to come.
#[derive(Drop)]
pub struct NearHandlers<'a> {
    table: &'a [Handler],
    places: &'a [u32],
}

impl<'a> Model for NearHandlers<'a> {
    ghost use Rattle.std.specs.Prelude.{List};
    ghost use Rattle.bytecode_model.specs.declared.program.Handler.{Handler};

    ghost Value = { List Handler };

    ghost use Rattle.bytecode_model.specs.Spans.{handlers_at};

    ghost view = { λ n. handlers_at n.table.now n.places.now };
}

impl<'a> NearHandlers<'a> {
    /// The next of them.
    pub fn next(&mut self) -> Option<&'a Handler>
        ensures { MatchOption (option_copied result) (self.old ≡ []) (λ handler. self.old ≡ handler ∷ self.new) }
    {
        let (handler, later) = first_at(self.table, self.places);
        self.places = later;
        handler
    }
}

/// The handler at the first of the places that the table has, and the places after it.
fn first_at<'a>(table: &'a [Handler], places: &'a [u32]) -> (Option<&'a Handler>, &'a [u32])
    ensures { MatchOption (option_copied result.0) (handlers_at table.now places.now ≡ [])
        (λ handler. handlers_at table.now places.now ≡ handler ∷ handlers_at table.now result.1.now) }
{
    let mut left = places;
    while let [place, rest @ ..] = left {
        left = rest;
        if let Some(handler) = table.get(*place as usize) {
            return (Some(handler), left);
        }
    }
    (None, left)
}

/// The places that are listed for the span of the instruction.
fn places_near(spans: &[List<u32>], at: u32) -> &[u32]
    ensures { result.now ≡ places_near spans.now at }
{
    let Some(places) = spans.get(at as usize / SPAN) else {
        return &[];
    };
    places.as_slice()
}

/// For each span of instructions the places of the handlers that cover one of them.
fn spans_of(alloc: Global, table: &[Handler]) -> Result<Vec<List<u32>>, NoMemory>
    requires { length table.now < 2 ^ 32 }
    ensures { IfOk result (λ spans. AreListed spans.items table.now) }
{
    let mut spans = Vec::new(alloc);
    let mut place: u32 = 0;
    for handler in table {
        add_handler(alloc, &mut spans, handler, place)?;
        place += 1;
    }
    Ok(spans)
}

/// Adds the handler's place to each span that has an instruction which the handler covers.
fn add_handler(
    alloc: Global,
    spans: &mut Vec<List<u32>>,
    handler: &Handler,
    place: u32,
) -> Result<(), NoMemory>
    ensures { OnOk result (IsAdded handler.now place spans.old.items spans.new.items) }
{
    if handler.to <= handler.from {
        return Ok(());
    }
    let end = (handler.to as usize - 1) / SPAN + 1;
    lengthen(alloc, spans, end)?;
    add_place(spans, handler.from as usize / SPAN, end, place)
}

/// Appends spans without places, until there are so many.
fn lengthen(alloc: Global, spans: &mut Vec<List<u32>>, count: usize) -> Result<(), NoMemory>
    ensures same { OnOk result ((k : ℕ) → get_or spans.new.items k [] ≡ get_or spans.old.items k []) }
    ensures count { OnOk result (count ≤ vec_len spans.new) }
{
    while spans.len() < count {
        let span = List::new(alloc);
        spans.push(span)?;
    }
    Ok(())
}

/// Appends the place to each of the spans from one to another.
fn add_place(
    spans: &mut Vec<List<u32>>,
    from: usize,
    end: usize,
    place: u32,
) -> Result<(), NoMemory>
    requires order { from ≤ end }
    requires within { end ≤ vec_len spans.old }
    ensures { OnOk result ((k : ℕ) → get_or spans.new.items k []
        ≡ (if nat_le from k && nat_lt k end then get_or spans.old.items k [] ++ place ∷ [] else get_or spans.old.items k [])) }
{
    for span in from..end {
        spans[span].push(place)?;
    }
    Ok(())
}
