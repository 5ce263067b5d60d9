//! A policy's automaton, run on events.

ghost use Rattle.std.specs.Prelude.{◌≡◌, ◌<◌, length, IsSome, IsTrue, MatchBool, Some, None, List, false};
ghost use Rattle.api_listing.specs.declared.events.Event.{Event};
ghost use Rattle.conspec_tree.specs.Updates.{target};
ghost use Rattle.conspec_automaton.specs.declared.policy.Policy.{Policy};
ghost use Rattle.conspec_automaton.specs.Next.{initial, moment, next, next_by, updated, updated_once};
ghost use Rattle.conspec_automaton.specs.Obeys.{IsFollowed, after};
ghost use Rattle.conspec_automaton.specs.Range.{MayUpdate, SumFits, in_range};
ghost use Rattle.conspec_automaton.specs.Sound.{IsPolicy, IsClauseIn};
ghost use Rattle.conspec_automaton.specs.Turning.{Keeps};
ghost use Rattle.conspec_automaton.specs.Verdict.{IsVerdict, is_refused, refusal, verdict};

use crate::asking::{any_has_clause, branch_of, clause_of, is_return};
use crate::policy::{Clause, Policy};
use crate::state::State;
use api_listing::Event;
use conspec_tree::Update;

/// What is said of a list of events. The indices count all events, from 0.
#[derive(Clone, Copy)]
pub enum Verdict {
    /// Each event is accepted.
    Accepted,
    /// The event of this index is a return, or an end by an exception, and is refused; no later event has a clause.
    StoppedAt { index: u64 },
    /// The event of this index is the first that is refused, and the events do not end so.
    Refused { index: u64 },
}

/// The first state of the policy.
pub fn initial(policy: &Policy) -> State
    requires { IsPolicy policy.now }
    ensures is { result ≡ initial policy.now }
    ensures ranged { IsTrue (in_range policy.now result) }
{
    let mut state = State::empty();
    for var in policy.vars.as_slice() {
        state.push(var.first);
    }
    state
}

/// Takes an event, and answers whether it is accepted. A refused event leaves the state as it was.
pub fn next(policy: &Policy, state: &mut State, event: &Event) -> bool
    requires policy { IsPolicy policy.now }
    requires ranged { IsTrue (in_range policy.now state.old) }
    // The state after the event, or that there is none.
    ensures is { MatchBool result (next policy.now state.old event.now ≡ Some state.new) (next policy.now state.old event.now ≡ None) }
    ensures same { result ≡ false → state.new ≡ state.old }
    ensures ranged { IsTrue (in_range policy.now state.new) }
{
    match clause_of(policy, event) {
        Some(clause) => next_by(policy, clause, state, event),
        None => true,
    }
}

/// Takes an event that the clause speaks of.
fn next_by(policy: &Policy, clause: &Clause, state: &mut State, event: &Event) -> bool
    requires policy { IsPolicy policy.now }
    requires clause { IsClauseIn policy.now.vars policy.now.maxint clause.now }
    requires ranged { IsTrue (in_range policy.now state.old) }
    ensures is { MatchBool result (next_by clause.now (moment state.old event.now) ≡ Some state.new)
        (next_by clause.now (moment state.old event.now) ≡ None) }
    ensures same { result ≡ false → state.new ≡ state.old }
    ensures ranged { IsTrue (in_range policy.now state.new) }
{
    match branch_of(clause.branches.as_slice(), state, event) {
        Some(branch) => {
            update(policy, state, event, branch.updates.as_slice());
            true
        }
        None => false,
    }
}

/// Updates the variables of a state that leaves room for it.
fn update(policy: &Policy, state: &mut State, event: &Event, updates: &[Update])
    requires policy { IsPolicy policy.now }
    requires room { MayUpdate policy.now.vars policy.now.maxint (moment state.old event.now) updates.now }
    ensures is { state.new ≡ updated (moment state.old event.now) updates.now }
    ensures ranged { IsTrue (in_range policy.now state.new) }
{
    let mut left = updates;
    while let [first, rest @ ..] = left {
        update_once(state, event, *first);
        left = rest;
    }
}

/// Makes one update. None reads the event so far.
fn update_once(state: &mut State, event: &Event, update: Update)
    requires there { target update < length state.old }
    requires fits { SumFits (moment state.old event.now) update }
    ensures { state.new ≡ updated_once (moment state.old event.now) update }
{
    match update {
        Update::Set { var, value } => state.set(var, value),
        Update::Add { var, by } => {
            if let Some(n) = state.get(var) {
                state.set(var, n + by);
            }
        }
    }
}

/// Runs the policy on the events from its first state.
pub fn accept(policy: &Policy, events: &[Event]) -> Verdict
    requires { IsPolicy policy.now }
    ensures is { result ≡ verdict policy.now events.now }
    // The events before an index that is told are accepted, and that of the index is refused in the state that they lead to.
    ensures means { IsVerdict policy.now events.now result }
    ensures accepted { IsSome (after (next policy.now) (initial policy.now) events.now) → result ≡ Verdict.Accepted }
    // It is not refused exactly where the events are accepted, or all but a return that comes last.
    ensures followed { is_refused result ≡ false → IsFollowed policy.now events.now }
    ensures refused { IsTrue (is_refused result) → IsFollowed policy.now events.now → ⊥ }
{
    run(policy, events)
}

fn run(policy: &Policy, events: &[Event]) -> Verdict
    requires { IsPolicy policy.now }
    ensures { result ≡ verdict policy.now events.now }
{
    let mut state = initial(policy);
    let mut index: u64 = 0;
    let mut left = events;
    while let [event, later @ ..] = left {
        if !next(policy, &mut state, event) {
            return refusal(policy, index, event, later);
        }
        index += 1;
        left = later;
    }
    Verdict::Accepted
}

/// What is said where the event of this index is refused.
fn refusal(policy: &Policy, index: u64, event: &Event, later: &[Event]) -> Verdict
    ensures { result ≡ refusal policy.now index event.now later.now }
{
    if is_return(event) && !any_has_clause(policy, later) {
        Verdict::StoppedAt { index }
    } else {
        Verdict::Refused { index }
    }
}

/// What is true of a policy's automaton: accepted events lead from states in range to states in range.
pub fn stays_in_range()
    ensures { (policy : Policy) → IsPolicy policy → Keeps (next policy) (in_range policy) }
{}
