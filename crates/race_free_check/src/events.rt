//! The events that a clause's points make.

ghost use Rattle.std.specs.Prelude.{◌≡◌, ◌≤◌, [], length, slice_get, IfOk, OnOk};
ghost use Rattle.conspec_automaton.specs.Points.{arguments_of, events_count, made, results_of};
ghost use Rattle.conspec_automaton.specs.Trying.{capped};
ghost use Rattle.conspec_tree.specs.declared.types.Phase.TheVariants as phases;
ghost use Rattle.race_free_check.specs.Choosing.{event_choices, with_values};

use crate::choices::Choosing;
use crate::clauses::Clauses;
use crate::points::{BaseRef, points_at};
use api_listing::{ApiValue, Event};
use conspec_automaton::Clause;
use conspec_tree::Phase;
use mon_base::{List, NoMemory};
use std::alloc::Global;
use std::mem::replace;

/// The points of each argument of the clause, of its result, or of nothing.
pub fn event_choices(alloc: Global, clause: &Clause) -> Result<List<List<ApiValue>>, NoMemory>
    requires { length clause.now.args ≤ 255 }
    ensures { IfOk result (λ lists. lists ≡ event_choices clause.now) }
{
    match clause.phase {
        Phase::Before => arguments_of(alloc, clause),
        Phase::After => results_of(alloc, clause),
        Phase::Exceptional => Ok(List::new(alloc)),
    }
}

fn arguments_of(alloc: Global, clause: &Clause) -> Result<List<List<ApiValue>>, NoMemory>
    requires { length clause.now.args ≤ 255 }
    ensures { IfOk result (λ lists. lists ≡ arguments_of clause.now) }
{
    let clauses = Clauses::alone(clause);
    let mut lists = List::new(alloc);
    let mut place: u32 = 0;
    let mut left = clause.args.as_slice();
    while let [kind, rest @ ..] = left {
        let base = BaseRef::Argument { place, kind: *kind };
        lists.push(points_at(alloc, &clauses, base)?)?;
        place += 1;
        left = rest;
    }
    Ok(lists)
}

fn results_of(alloc: Global, clause: &Clause) -> Result<List<List<ApiValue>>, NoMemory>
    ensures { IfOk result (λ lists. lists ≡ results_of clause.now) }
{
    let clauses = Clauses::alone(clause);
    let mut lists = List::new(alloc);
    if let Some(kind) = clause.result {
        lists.push(points_at(alloc, &clauses, BaseRef::Result(kind))?)?;
    }
    Ok(lists)
}

/// How many events the clause's points make, alike ones too. It takes memory for the points of one argument at a time.
pub fn events_count(alloc: Global, clause: &Clause) -> Result<u64, NoMemory>
    requires { length clause.now.args ≤ 255 }
    ensures { IfOk result (λ count. count ≡ capped (events_count clause.now clause.now.phase)) }
{
    match clause.phase {
        Phase::Before => arguments_count(alloc, clause),
        Phase::After => results_count(alloc, clause),
        Phase::Exceptional => Ok(1),
    }
}

fn arguments_count(alloc: Global, clause: &Clause) -> Result<u64, NoMemory>
    requires { length clause.now.args ≤ 255 }
    ensures { IfOk result (λ count. count ≡ capped (events_count clause.now phases.Before)) }
{
    let clauses = Clauses::alone(clause);
    let mut count: u64 = 1;
    let mut place: u32 = 0;
    let mut left = clause.args.as_slice();
    while let [kind, rest @ ..] = left {
        let points = points_at(alloc, &clauses, BaseRef::Argument { place, kind: *kind })?;
        count = count.saturating_mul(points.len() as u64);
        place += 1;
        left = rest;
    }
    Ok(count)
}

fn results_count(alloc: Global, clause: &Clause) -> Result<u64, NoMemory>
    ensures { IfOk result (λ count. count ≡ capped (events_count clause.now phases.After)) }
{
    let clauses = Clauses::alone(clause);
    match clause.result {
        Some(kind) => Ok(points_at(alloc, &clauses, BaseRef::Result(kind))?.len() as u64),
        None => Ok(1),
    }
}

/// An event of the clause, which has no values yet.
pub fn event_of(alloc: Global, clause: &Clause) -> Event
    ensures { result ≡ made clause.now [] }
{
    let method = clause.method;
    match clause.phase {
        Phase::Before => Event::Call {
            thread: 0,
            method,
            args: List::new(alloc),
        },
        Phase::After => Event::Return {
            thread: 0,
            method,
            value: None,
        },
        Phase::Exceptional => Event::Except { thread: 0, method },
    }
}

/// Gives the event the values of the choice, in the place of those that it has.
pub fn set_values(alloc: Global, event: &mut Event, choice: Choosing) -> Result<(), NoMemory>
    ensures { OnOk result (event.new ≡ with_values event.old choice.entry) }
{
    match event {
        Event::Call { args, .. } => set_arguments(alloc, args, choice),
        Event::Return { value, .. } => set_result(alloc, value, choice),
        Event::Except { .. } => Ok(()),
    }
}

/// It takes no memory for the list where there are as many arguments as before.
fn set_arguments(alloc: Global, args: &mut List<ApiValue>, choice: Choosing) -> Result<(), NoMemory>
    ensures { OnOk result (args.new ≡ choice.entry) }
{
    let mut choice = choice;
    let mut values = replace(args, List::new(alloc)).into_vec();
    values.clear();
    while let Some(value) = choice.next() {
        values.push(copied(alloc, value)?)?;
    }
    *args = List::from_vec(values);
    Ok(())
}

fn set_result(alloc: Global, value: &mut Option<ApiValue>, choice: Choosing) -> Result<(), NoMemory>
    ensures { OnOk result (value.new ≡ slice_get choice.entry 0) }
{
    let mut choice = choice;
    *value = match choice.next() {
        Some(chosen) => Some(copied(alloc, chosen)?),
        None => None,
    };
    Ok(())
}

/// An equal value. It takes memory for texts and names alone.
pub fn copied(alloc: Global, value: &ApiValue) -> Result<ApiValue, NoMemory>
    ensures { IfOk result (λ copy. copy ≡ value.now) }
{
    match value {
        ApiValue::Int(n) => Ok(ApiValue::Int(*n)),
        ApiValue::Null => Ok(ApiValue::Null),
        ApiValue::Text(text) => text.copy(alloc).map(ApiValue::Text),
        ApiValue::Obj { class, at } => {
            let class = class.copy(alloc)?;
            Ok(ApiValue::Obj { class, at: *at })
        }
        ApiValue::Class(class) => class.copy(alloc).map(ApiValue::Class),
    }
}
