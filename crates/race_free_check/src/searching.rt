//! The search for the first point that breaks a condition. A point of numbers takes no memory.

ghost use Rattle.std.specs.Prelude.{◌≡◌, ◌≢◌, ◌≤◌, ◌<◌, Some, None, true, length, IfOk, IfSome, IsTrue, MatchBool, OnOk};
ghost use Rattle.conspec_automaton.specs.Points.{made, size_of, states_of};
ghost use Rattle.conspec_automaton.specs.Range.{in_range};
ghost use Rattle.conspec_automaton.specs.Sound.{IsPolicy};
ghost use Rattle.conspec_automaton.specs.Trying.{clauses_of, is_small};
ghost use Rattle.race_free_check.specs.Choosing.{IsMade, chosen};
ghost use Rattle.race_free_check.specs.Deciding.{AreClausesOf, broken_in};
ghost use Rattle.race_free_check.specs.Distinct.{distinct_choices, distinct_events, distinct_seconds};
ghost use Rattle.race_free_check.specs.Searching.{IsSecond, broken_among, broken_in_state, broken_with};

use crate::choices::{Choosing, count_of};
use crate::distinct::distinct_choices;
use crate::events::{event_of, set_values};
use crate::states::{choices_of, state_at};
use crate::trial::TrialRef;
use crate::trying::breaks;
use api_listing::{ApiValue, Event};
use conspec_automaton::{Clause, Policy, State};
use mon_base::{List, NoMemory};
use std::alloc::Global;
use std::marker::Model;

/// A state, and an event or two in this order.
#[derive(Drop)]
pub struct Point {
    pub state: State,
    pub first: Event,
    pub second: Option<Event>,
}

impl Model for Point {
    ghost use Rattle.conspec_automaton.specs.Trying.{Point as Seen};

    ghost Value = { Seen };

    ghost view = { λ p. record { state = p.state; first = p.first; second = p.second } };
}

/// The distinct events of a clause, by the points of which each has one of each list. A contract sees the clause.
#[derive(Drop)]
struct Events<'a> {
    clause: &'a Clause,
    lists: List<List<ApiValue>>,
    count: u64,
}

impl<'a> Model for Events<'a> {
    ghost use Rattle.std.specs.Prelude.{◌≡◌};
    ghost use Rattle.conspec_automaton.specs.declared.policy.Clause.{Clause};
    ghost use Rattle.conspec_automaton.specs.Points.{size_of};
    ghost use Rattle.race_free_check.specs.Distinct.{distinct_choices};

    ghost Value = { Clause };

    ghost view = { λ e. e.clause.now };

    ghost invariant = { λ e. (e.lists ≡ distinct_choices e.clause.now) × (e.count ≡ size_of e.lists) };
}

impl<'a> Events<'a> {
    /// How many there are.
    fn count(&self) -> u64
        ensures { result ≡ size_of (distinct_choices self.now) }
    {
        self.count
    }
}

/// What is tried of a trial: states, first events, and second ones if there are any. A contract sees the policy and the
/// trial.
#[derive(Drop)]
struct Search<'a> {
    policy: &'a Policy,
    trial: TrialRef<'a>,
    states: List<List<ApiValue>>,
    count: u64,
    firsts: Events<'a>,
    seconds: Option<Events<'a>>,
}

impl<'a> Model for Search<'a> {
    ghost use Rattle.std.specs.Prelude.{◌≡◌, option_map};
    ghost use Rattle.conspec_automaton.specs.Points.{choices_of, size_of};
    ghost use Rattle.conspec_automaton.specs.Trying.{Placed, clauses_of};
    ghost use Rattle.race_free_check.specs.Searching.{Searched};

    ghost Value = { Searched };

    ghost view = { λ s. record { policy = s.policy.now; trial = s.trial } };

    ghost invariant = { λ s. (s.states ≡ choices_of s.policy.now (clauses_of s.trial)) × (s.count ≡ size_of s.states)
        × (s.firsts ≡ s.trial.first.1) × (s.seconds ≡ option_map (λ (c : Placed). c.1) s.trial.second) };
}

/// The first point of the trial that breaks its condition.
pub fn broken_in(
    alloc: Global,
    policy: &Policy,
    trial: &TrialRef,
) -> Result<Option<Point>, NoMemory>
    requires policy { IsPolicy policy.now }
    requires clauses { AreClausesOf policy.now trial.now }
    requires small { is_small policy.now trial.now ≡ true }
    ensures { IfOk result (λ found. found ≡ broken_in policy.now trial.now) }
{
    let search = search_of(alloc, policy, trial)?;
    found_by(alloc, &search)
}

/// The first point of the search that breaks the condition.
fn found_by(alloc: Global, search: &Search) -> Result<Option<Point>, NoMemory>
    requires { IsPolicy search.now.policy }
    ensures { IfOk result (λ found. found ≡ broken_among search.now.policy
        (states_of search.now.policy (clauses_of search.now.trial))
        (distinct_events search.now.trial.first.1) (distinct_seconds search.now.trial.second)) }
{
    let mut point = point_of(alloc, &search.trial);
    if breaks_somewhere(alloc, search, &mut point)? {
        return Ok(Some(point));
    }
    Ok(None)
}

fn search_of<'a>(
    alloc: Global,
    policy: &'a Policy,
    trial: &TrialRef<'a>,
) -> Result<Search<'a>, NoMemory>
    requires policy { IsPolicy policy.now }
    requires clauses { AreClausesOf policy.now trial.now }
    requires small { is_small policy.now trial.now ≡ true }
    ensures { IfOk result (λ search. search ≡ record { policy = policy.now; trial = trial.now }) }
{
    let states = choices_of(alloc, policy, &trial.clauses())?;
    let count = count_of(states.as_slice());
    let firsts = events_of(alloc, trial.first.clause)?;
    let seconds = match &trial.second {
        Some(second) => Some(events_of(alloc, second.clause)?),
        None => None,
    };
    Ok(Search {
        policy,
        trial: trial.again(),
        states,
        count,
        firsts,
        seconds,
    })
}

fn events_of<'a>(alloc: Global, clause: &'a Clause) -> Result<Events<'a>, NoMemory>
    requires args { length clause.now.args ≤ 255 }
    requires few { size_of (distinct_choices clause.now) ≤ 1000000 }
    ensures { IfOk result (λ events. events ≡ clause.now) }
{
    let lists = distinct_choices(alloc, clause)?;
    let count = count_of(lists.as_slice());
    Ok(Events {
        clause,
        lists,
        count,
    })
}

/// A point with events of the trial's clauses, which have no values yet.
fn point_of(alloc: Global, trial: &TrialRef) -> Point
    ensures first { IsMade trial.now.first.1 result.first }
    ensures second { IsSecond trial.now.second result.second }
{
    let second = match &trial.second {
        Some(second) => Some(event_of(alloc, second.clause)),
        None => None,
    };
    Point {
        state: State::empty(),
        first: event_of(alloc, trial.first.clause),
        second,
    }
}

/// Whether a point breaks the condition; then the first that does is left.
fn breaks_somewhere(alloc: Global, search: &Search, point: &mut Point) -> Result<bool, NoMemory>
    requires policy { IsPolicy search.now.policy }
    requires first { IsMade search.now.trial.first.1 point.old.first }
    requires second { IsSecond search.now.trial.second point.old.second }
    ensures { IfOk result (λ broken. MatchBool broken
        (broken_among search.now.policy (states_of search.now.policy (clauses_of search.now.trial))
        (distinct_events search.now.trial.first.1) (distinct_seconds search.now.trial.second) ≡ Some point.new)
        (broken_among search.now.policy (states_of search.now.policy (clauses_of search.now.trial))
        (distinct_events search.now.trial.first.1) (distinct_seconds search.now.trial.second) ≡ None)) }
{
    for number in 0..search.count {
        point.state = state_at(search.states.as_slice(), number, search.count);
        if breaks_in_state(alloc, search, point)? {
            return Ok(true);
        }
    }
    Ok(false)
}

/// The same of the points in the state of this one.
fn breaks_in_state(alloc: Global, search: &Search, point: &mut Point) -> Result<bool, NoMemory>
    requires policy { IsPolicy search.now.policy }
    requires ranged { IsTrue (in_range search.now.policy point.old.state) }
    requires first { IsMade search.now.trial.first.1 point.old.first }
    requires second { IsSecond search.now.trial.second point.old.second }
    ensures broken { IfOk result (λ broken. MatchBool broken
        (broken_in_state search.now.policy point.old.state (distinct_events search.now.trial.first.1)
        (distinct_seconds search.now.trial.second) ≡ Some point.new)
        (broken_in_state search.now.policy point.old.state (distinct_events search.now.trial.first.1)
        (distinct_seconds search.now.trial.second) ≡ None)) }
    ensures first { OnOk result (IsMade search.now.trial.first.1 point.new.first) }
    ensures second { OnOk result (IsSecond search.now.trial.second point.new.second) }
{
    for number in 0..search.firsts.count() {
        set_event(alloc, &search.firsts, number, &mut point.first)?;
        if breaks_with_first(alloc, search, point)? {
            return Ok(true);
        }
    }
    Ok(false)
}

/// The same of the points that have the state and the first event of this one.
fn breaks_with_first(alloc: Global, search: &Search, point: &mut Point) -> Result<bool, NoMemory>
    requires policy { IsPolicy search.now.policy }
    requires ranged { IsTrue (in_range search.now.policy point.old.state) }
    requires second { IsSecond search.now.trial.second point.old.second }
    ensures broken { IfOk result (λ broken. MatchBool broken
        (broken_with search.now.policy point.old.state point.old.first (distinct_seconds search.now.trial.second) ≡ Some point.new)
        (broken_with search.now.policy point.old.state point.old.first (distinct_seconds search.now.trial.second) ≡ None)) }
    ensures state { OnOk result (point.new.state ≡ point.old.state) }
    ensures first { OnOk result (point.new.first ≡ point.old.first) }
    ensures second { OnOk result (IsSecond search.now.trial.second point.new.second) }
{
    let Some(seconds) = &search.seconds else {
        return Ok(breaks(search.policy, point));
    };
    for number in 0..seconds.count() {
        set_second(alloc, seconds, number, &mut point.second)?;
        if breaks(search.policy, point) {
            return Ok(true);
        }
    }
    Ok(false)
}

/// Makes the event the one of this number.
fn set_event(alloc: Global, events: &Events, number: u64, event: &mut Event) -> Result<(), NoMemory>
    requires made { IsMade events.now event.old }
    requires there { number < size_of (distinct_choices events.now) }
    ensures { OnOk result (event.new ≡ made events.now (chosen (distinct_choices events.now) number)) }
{
    let choice = Choosing::new(events.lists.as_slice(), number, events.count);
    set_values(alloc, event, choice)
}

fn set_second(
    alloc: Global,
    events: &Events,
    number: u64,
    second: &mut Option<Event>,
) -> Result<(), NoMemory>
    requires made { IfSome second.old (IsMade events.now) }
    requires some { second.old ≢ None }
    requires there { number < size_of (distinct_choices events.now) }
    ensures { OnOk result (second.new ≡ Some (made events.now (chosen (distinct_choices events.now) number))) }
{
    match second {
        Some(event) => set_event(alloc, events, number, event),
        None => Ok(()),
    }
}
