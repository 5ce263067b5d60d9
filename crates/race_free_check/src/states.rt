//! The states at which clauses are tried.

ghost use Rattle.std.specs.Prelude.{◌≡◌, ◌≤◌, ◌<◌, length, IfOk};
ghost use Rattle.conspec_automaton.specs.Points.{choices_of, held, size_of, state_of, states_count};
ghost use Rattle.conspec_automaton.specs.Sound.{IsPolicy};
ghost use Rattle.conspec_automaton.specs.Trying.{capped};
ghost use Rattle.race_free_check.specs.Choosing.{chosen};

use crate::choices::Choosing;
use crate::clauses::Clauses;
use crate::points::{BaseRef, points_at};
use api_listing::ApiValue;
use conspec_automaton::{Policy, State, number_in};
use mon_base::{List, NoMemory};
use std::alloc::Global;

/// The points of each variable.
pub fn choices_of(
    alloc: Global,
    policy: &Policy,
    clauses: &Clauses,
) -> Result<List<List<ApiValue>>, NoMemory>
    requires { IsPolicy policy.now }
    ensures { IfOk result (λ lists. lists ≡ choices_of policy.now clauses.now) }
{
    let maxint = policy.maxint;
    let mut lists = List::new(alloc);
    let mut place: u32 = 0;
    let mut left = policy.vars.as_slice();
    while let [var, rest @ ..] = left {
        let base = BaseRef::Variable { maxint, place, var };
        lists.push(points_at(alloc, clauses, base)?)?;
        place += 1;
        left = rest;
    }
    Ok(lists)
}

/// How many states are tried. It takes memory for the points of one variable at a time.
pub fn states_count(alloc: Global, policy: &Policy, clauses: &Clauses) -> Result<u64, NoMemory>
    requires { IsPolicy policy.now }
    ensures { IfOk result (λ count. count ≡ capped (states_count policy.now clauses.now)) }
{
    let maxint = policy.maxint;
    let mut count: u64 = 1;
    let mut place: u32 = 0;
    let mut left = policy.vars.as_slice();
    while let [var, rest @ ..] = left {
        let points = points_at(alloc, clauses, BaseRef::Variable { maxint, place, var })?;
        count = count.saturating_mul(points.len() as u64);
        place += 1;
        left = rest;
    }
    Ok(count)
}

/// The state in which the variables have the values of the choice.
pub fn state_at(lists: &[List<ApiValue>], number: u64, count: u64) -> State
    requires few { length lists.now ≤ 16 }
    requires count { count ≡ size_of lists.now }
    requires there { number < count }
    ensures { result ≡ state_of (chosen lists.now number) }
{
    let mut state = State::empty();
    let mut choice = Choosing::new(lists, number, count);
    while let Some(value) = choice.next() {
        state.push(held(value));
    }
    state
}

/// What a variable that has the value holds.
fn held(value: &ApiValue) -> i32
    ensures { result ≡ held value.now }
{
    match number_in(value) {
        Some(number) => number,
        None => 0,
    }
}
