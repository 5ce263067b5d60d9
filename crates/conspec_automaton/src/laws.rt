//! What holds of every automaton, over any type of states and any type of events, and of every policy's.

ghost use Rattle.std.specs.Prelude.{◌≡◌, ◌++◌, ◌∷◌, [], ℕ, List, Bool, Option, Some, option_and_then, IsTrue};
ghost use Rattle.api_listing.specs.declared.events.ApiValue.TheVariants as api;
ghost use Rattle.api_listing.specs.declared.events.Event.{Event};
ghost use Rattle.api_listing.specs.declared.events.Event.TheVariants as events;
ghost use Rattle.conspec_automaton.specs.declared.policy.Policy.{Policy};
ghost use Rattle.conspec_automaton.specs.Next.{Values, next};
ghost use Rattle.conspec_automaton.specs.Obeys.{after};
ghost use Rattle.conspec_automaton.specs.Refused.{RefusedCallsDisobey, RefusedReturnsDiffer};
ghost use Rattle.conspec_automaton.specs.Sight.{sight_of};
ghost use Rattle.conspec_automaton.specs.Turning.{Keeps};

/// The events of two lists are run one after the other.
pub fn runs_join<S, E>()
    ensures { (next : S → E → Option S) (state : S) (first second : List E)
        → after next state (first ++ second) ≡ option_and_then (λ reached. after next reached second) (after next state first) }
{}

/// A range that each event keeps is kept by all.
pub fn ranges_are_kept<S, E>()
    ensures { (next : S → E → Option S) (in_range : S → Bool) → Keeps next in_range
        → (state end : S) (events : List E) → IsTrue (in_range state) → after next state events ≡ Some end → IsTrue (in_range end) }
{}

/// Of an event a policy reads the method, the phase and the numbers alone: not which thread it is of, and no object.
pub fn seen_is_enough()
    ensures seen { (policy : Policy) (state : Values) (e f : Event) → sight_of e ≡ sight_of f
        → next policy state e ≡ next policy state f }
    // So calls of two threads, or with two objects, are the same to it.
    ensures alike { (method thread other object another : ℕ) (class next : List ℕ)
        → sight_of (events.Call thread method (api.Obj class object ∷ []))
        ≡ sight_of (events.Call other method (api.Obj next another ∷ [])) }
{}

/// The modes differ: where the events are accepted and then a return is refused, which comes last, they obey in mode hold
/// and do not obey in mode release; where a call is refused, they obey in neither.
pub fn modes_differ()
    ensures returns { RefusedReturnsDiffer }
    ensures calls { RefusedCallsDisobey }
{}
