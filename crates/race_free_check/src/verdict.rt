//! What is decided of a policy.

use api_listing::Event;
use conspec_automaton::State;

/// What is decided of a policy.
#[derive(Drop)]
pub enum RaceVerdict {
    /// The policy is race-free.
    Free,
    /// The first condition that a state and events break, by its number.
    Racy {
        /// 0: the end of a call is refused. 1: two calls cannot be turned. 2: two ends of calls cannot. 3: a call and the
        /// end of another cannot.
        condition: u8,
        state: State,
        first: Event,
        /// `None` where one event alone breaks the condition.
        second: Option<Event>,
    },
}
