//! Clauses of which neither changes what the other names.

ghost use Rattle.std.specs.Prelude.{◌≡◌, ◌∷◌, []};
ghost use Rattle.conspec_automaton.specs.Points.{is_named};
ghost use Rattle.conspec_automaton.specs.Sound.{IsPolicy};
ghost use Rattle.race_free_check.specs.Apart.{disturbs, is_apart, meet_at, meet_from};

use crate::naming::{is_asked, is_changed};
use crate::trial::TrialRef;
use conspec_automaton::{Clause, Policy};

/// Whether the trial is of two clauses of which neither changes what the other names. Then their events turn.
pub fn is_apart(policy: &Policy, trial: &TrialRef) -> bool
    requires { IsPolicy policy.now }
    ensures { result ≡ is_apart policy.now trial.now }
{
    match &trial.second {
        Some(second) => !meet(policy, trial.first.clause, second.clause),
        None => false,
    }
}

/// Whether the clauses meet at a variable of the policy.
fn meet(policy: &Policy, first: &Clause, second: &Clause) -> bool
    requires { IsPolicy policy.now }
    ensures { result ≡ meet_from 0 policy.now.vars first.now second.now }
{
    let mut place: u32 = 0;
    let mut left = policy.vars.as_slice();
    while let [_, rest @ ..] = left {
        if meet_at(place, first, second) {
            return true;
        }
        place += 1;
        left = rest;
    }
    false
}

fn meet_at(var: u32, first: &Clause, second: &Clause) -> bool
    ensures { result ≡ meet_at var first.now second.now }
{
    disturbs(var, first, second) || disturbs(var, second, first)
}

/// Whether the one clause changes the variable, and the other names it.
fn disturbs(var: u32, clause: &Clause, other: &Clause) -> bool
    ensures { result ≡ disturbs var clause.now other.now }
{
    is_changed(clause, var) && names(other, var)
}

fn names(clause: &Clause, var: u32) -> bool
    ensures { result ≡ is_named var (clause.now ∷ []) }
{
    is_asked(clause, var) || is_changed(clause, var)
}
