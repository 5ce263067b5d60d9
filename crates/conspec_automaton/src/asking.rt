//! What the clauses of a policy ask of an event.

ghost use Rattle.std.specs.Prelude.{◌≡◌, find};
ghost use Rattle.std.specs.List.{list_any};
ghost use Rattle.std.specs.Option.{option_copied};
ghost use Rattle.conspec_automaton.specs.Next.{
  argument,
  clause_of,
  has_clause,
  holds,
  is_phase_of,
  is_taken,
  method_of,
  moment,
  number_in,
  relates,
  returned,
  speaks_of,
  value_of,
};
ghost use Rattle.conspec_automaton.specs.Obeys.{is_return};

use crate::policy::{Branch, Clause, Policy};
use crate::state::State;
use api_listing::{ApiValue, Event};
use conspec_tree::{Atom, Base, Phase, Rel};

/// The clause that speaks of the event.
pub fn clause_of<'a>(policy: &'a Policy, event: &Event) -> Option<&'a Clause>
    ensures { option_copied result ≡ clause_of policy.now event.now }
{
    let mut left = policy.clauses.as_slice();
    while let [clause, rest @ ..] = left {
        if speaks_of(event, clause) {
            return Some(clause);
        }
        left = rest;
    }
    None
}

/// Whether the policy has a clause for one of the events.
pub fn any_has_clause(policy: &Policy, events: &[Event]) -> bool
    ensures { result ≡ list_any (has_clause policy.now) events.now }
{
    events.iter().any(|event| has_clause(policy, event))
}

/// Whether the policy has a clause for the event.
pub fn has_clause(policy: &Policy, event: &Event) -> bool
    ensures { result ≡ has_clause policy.now event.now }
{
    clause_of(policy, event).is_some()
}

/// Whether the event is the end of a call: a return, or an exception.
pub fn is_return(event: &Event) -> bool
    ensures { result ≡ is_return event.now }
{
    match event {
        Event::Call { .. } => false,
        Event::Return { .. } => true,
        Event::Except { .. } => true,
    }
}

fn speaks_of(event: &Event, clause: &Clause) -> bool
    ensures { result ≡ speaks_of event.now clause.now }
{
    clause.method == method_of(event) && is_phase_of(event, clause.phase)
}

fn method_of(event: &Event) -> u32
    ensures { result ≡ method_of event.now }
{
    match event {
        Event::Call { method, .. } => *method,
        Event::Return { method, .. } => *method,
        Event::Except { method, .. } => *method,
    }
}

fn is_phase_of(event: &Event, phase: Phase) -> bool
    ensures { result ≡ is_phase_of event.now phase }
{
    match event {
        Event::Call { .. } => matches!(phase, Phase::Before),
        Event::Return { .. } => matches!(phase, Phase::After),
        Event::Except { .. } => matches!(phase, Phase::Exceptional),
    }
}

/// The first of the branches of which all atoms hold.
pub fn branch_of<'a>(branches: &'a [Branch], state: &State, event: &Event) -> Option<&'a Branch>
    ensures { option_copied result ≡ find (is_taken (moment state.now event.now)) branches.now }
{
    let mut left = branches;
    while let [branch, rest @ ..] = left {
        if is_taken(state, event, branch) {
            return Some(branch);
        }
        left = rest;
    }
    None
}

fn is_taken(state: &State, event: &Event, branch: &Branch) -> bool
    ensures { result ≡ is_taken (moment state.now event.now) branch.now }
{
    branch
        .atoms
        .as_slice()
        .iter()
        .all(|atom| holds(state, event, *atom))
}

fn holds(state: &State, event: &Event, atom: Atom) -> bool
    ensures { result ≡ holds (moment state.now event.now) atom }
{
    match value_of(state, event, atom.base) {
        Some(n) => relates(atom.rel, n, atom.value),
        None => false,
    }
}

/// What an atom compares, where it is there and is a number.
fn value_of(state: &State, event: &Event, base: Base) -> Option<i32>
    ensures { result ≡ value_of (moment state.now event.now) base }
{
    match base {
        Base::Var(i) => state.get(i),
        Base::Arg(i) => argument(event, i),
        Base::Result => returned(event),
    }
}

fn argument(event: &Event, i: u32) -> Option<i32>
    ensures { result ≡ argument event.now i }
{
    match event {
        Event::Call { args, .. } => {
            match args.as_slice().get(i as usize) {
                Some(value) => number_in(value),
                None => None,
            }
        }
        _ => None,
    }
}

fn returned(event: &Event) -> Option<i32>
    ensures { result ≡ returned event.now }
{
    match event {
        Event::Return { value, .. } => {
            match value {
                Some(value) => number_in(value),
                None => None,
            }
        }
        _ => None,
    }
}

/// The number, where the value is one.
pub fn number_in(value: &ApiValue) -> Option<i32>
    ensures { result ≡ number_in value.now }
{
    match value {
        ApiValue::Int(n) => Some(*n),
        _ => None,
    }
}

fn relates(rel: Rel, x: i32, y: i32) -> bool
    ensures { result ≡ relates rel x y }
{
    match rel {
        Rel::Eq => x == y,
        Rel::Ne => x != y,
        Rel::Lt => x < y,
        Rel::Le => x <= y,
        Rel::Gt => x > y,
        Rel::Ge => x >= y,
    }
}
