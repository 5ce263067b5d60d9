//! Policies as automata.

ghost use Rattle.std.specs.Prelude.{◌≡◌};
ghost use Rattle.conspec_automaton.specs.Next.{has_clauses};

use conspec_tree::{Atom, Kind, Phase, Update, Var};
use mon_base::List;

/// What is done where all atoms hold.
#[derive(Drop)]
pub struct Branch {
    /// The atoms that were written, and after them those that keep the updates in range.
    pub atoms: List<Atom>,
    pub updates: List<Update>,
}

/// What is asked and done at one kind of event of a method. An event that no branch takes is refused.
#[derive(Drop)]
pub struct Clause {
    /// The index of the method in its listing.
    pub method: u32,
    pub phase: Phase,
    pub args: List<Kind>,
    /// `None` where the method gives nothing.
    pub result: Option<Kind>,
    pub branches: List<Branch>,
}

/// A policy. Its states are the values of its variables, in their order.
#[derive(Drop)]
pub struct Policy {
    /// The greatest value of an int variable, from 1 to 1,000,000,000.
    pub maxint: i32,
    pub vars: List<Var>,
    pub clauses: List<Clause>,
}

/// Whether the policy has a clause for an event of the method, by the method's index in the listing.
pub fn has_clauses(policy: &Policy, method: u32) -> bool
    ensures { result ≡ has_clauses policy.now method }
{
    policy
        .clauses
        .as_slice()
        .iter()
        .any(|clause| clause.method == method)
}
