//! Whether a point breaks a condition.

ghost use Rattle.std.specs.Prelude.{◌≡◌, ◌∷◌, [], IsTrue, is_none};
ghost use Rattle.conspec_automaton.specs.Next.{next};
ghost use Rattle.conspec_automaton.specs.Obeys.{after};
ghost use Rattle.conspec_automaton.specs.Range.{in_range};
ghost use Rattle.conspec_automaton.specs.Sound.{IsPolicy};
ghost use Rattle.conspec_automaton.specs.Trying.{breaks, is_turned};

use crate::searching::Point;
use api_listing::Event;
use conspec_automaton::{Policy, State, next};

/// Whether the event alone is refused, or two events cannot be turned.
pub fn breaks(policy: &Policy, point: &Point) -> bool
    requires policy { IsPolicy policy.now }
    requires ranged { IsTrue (in_range policy.now point.now.state) }
    ensures { result ≡ breaks policy.now point.now }
{
    match &point.second {
        Some(second) => !is_turned(policy, &point.state, &point.first, second),
        None => is_refused(policy, &point.state, &point.first),
    }
}

fn is_refused(policy: &Policy, state: &State, event: &Event) -> bool
    requires policy { IsPolicy policy.now }
    requires ranged { IsTrue (in_range policy.now state.now) }
    ensures { result ≡ is_none (next policy.now state.now event.now) }
{
    let mut state = state.copy();
    !next(policy, &mut state, event)
}

/// Whether the second event may come first, where both are accepted, with the same end state.
fn is_turned(policy: &Policy, state: &State, first: &Event, second: &Event) -> bool
    requires policy { IsPolicy policy.now }
    requires ranged { IsTrue (in_range policy.now state.now) }
    ensures { result ≡ is_turned policy.now state.now first.now second.now }
{
    let Some(end) = after(policy, state, first, second) else {
        return true;
    };
    match after(policy, state, second, first) {
        Some(other) => end.values() == other.values(),
        None => false,
    }
}

/// The state after both events, where neither is refused.
fn after(policy: &Policy, state: &State, first: &Event, second: &Event) -> Option<State>
    requires policy { IsPolicy policy.now }
    requires ranged { IsTrue (in_range policy.now state.now) }
    ensures { result ≡ after (next policy.now) state.now (first.now ∷ second.now ∷ []) }
{
    let mut state = state.copy();
    if next(policy, &mut state, first) && next(policy, &mut state, second) {
        Some(state)
    } else {
        None
    }
}
