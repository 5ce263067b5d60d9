//! The automaton of a policy: its states, the clause that speaks of an event, and the state after it.
//!
//! [`build`] makes it out of the tree of a policy: a branch for each list of atoms, with the atoms that keep its updates
//! in range after them. [`initial`] gives its first [`State`], [`next`] takes an event, and [`accept`] says of a list of
//! events whether they are accepted in order. What it is for events to obey a policy is said by specs/Obeys.antt.
//! (docs/POLICIES.md)
#![tactic(auto)]

mod asking;
mod building;
mod laws;
mod policy;
mod running;
mod state;

pub use asking::{clause_of, has_clause, is_return, number_in};
pub use building::build;
pub use laws::{modes_differ, ranges_are_kept, runs_join, seen_is_enough};
pub use policy::{Branch, Clause, Policy, has_clauses};
pub use running::{Verdict, accept, initial, next, stays_in_range};
pub use state::State;
