//! Whether the events of a policy race: whether a monitor may let go of its lock while the library runs.
//!
//! [`decide`] tries the conditions of race-freeness at few states and events, and finds that none breaks one, or the first
//! that does. [`decide_pairs`] tries them of some pairs of methods alone. It takes memory for the points of one pair of
//! clauses, and none for each point. (docs/RACES.md)
#![tactic(auto)]

mod apart;
mod choices;
mod clauses;
mod deciding;
mod distinct;
mod events;
mod fault;
mod laws;
mod naming;
mod numbers;
mod pairs;
mod points;
mod searching;
mod states;
mod trial;
mod trying;
mod verdict;

pub use deciding::{MAX_POINTS, decide, decide_pairs};
pub use fault::RaceFault;
pub use laws::{broken_points_race, broken_points_show, points_are_enough};
pub use pairs::{AllPairs, PairTest};
pub use verdict::RaceVerdict;
