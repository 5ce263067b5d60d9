//! What is tried of a policy: each condition for each clause or pair of clauses that it is about, in order.

ghost use Rattle.std.specs.Prelude.{◌≡◌, ◌≤◌, ◌++◌, length, map, filter, IfOk, OnOk};
ghost use Rattle.std.specs.List.{enumerate_from};
ghost use Rattle.conspec_automaton.specs.Trying.{Placed, alone, both, clauses_of, is_of_calls, is_tested, pairs, trials};
ghost use Rattle.race_free_check.specs.Deciding.{is_wanted};

use crate::clauses::Clauses;
use crate::pairs::PairTest;
use conspec_automaton::{Clause, Policy};
use conspec_tree::Phase;
use mon_base::NoMemory;
use std::alloc::Global;
use std::marker::Model;

/// A clause with its place in the policy.
#[derive(Drop)]
pub struct PlacedClause<'a> {
    pub place: u32,
    pub clause: &'a Clause,
}

impl<'a> Model for PlacedClause<'a> {
    ghost use Rattle.conspec_automaton.specs.Trying.{Placed};

    ghost Value = { Placed };

    ghost view = { λ c. (c.place, c.clause.now) };
}

impl<'a> PlacedClause<'a> {
    /// The same once more.
    pub fn again(&self) -> PlacedClause<'a>
        ensures { result ≡ self.now }
    {
        PlacedClause {
            place: self.place,
            clause: self.clause,
        }
    }
}

/// A condition, by its number, that is tried of one clause or of two in this order.
#[derive(Drop)]
pub struct TrialRef<'a> {
    pub condition: u8,
    pub first: PlacedClause<'a>,
    pub second: Option<PlacedClause<'a>>,
}

impl<'a> Model for TrialRef<'a> {
    ghost use Rattle.conspec_automaton.specs.Trying.{Trial};

    ghost Value = { Trial };

    ghost view = { λ t. record { condition = t.condition; first = t.first; second = t.second } };
}

impl<'a> TrialRef<'a> {
    /// The same once more.
    pub fn again(&self) -> TrialRef<'a>
        ensures { result ≡ self.now }
    {
        let second = match &self.second {
            Some(second) => Some(second.again()),
            None => None,
        };
        TrialRef {
            condition: self.condition,
            first: self.first.again(),
            second,
        }
    }

    /// Its clauses.
    pub fn clauses(&self) -> Clauses<'a>
        ensures { result ≡ clauses_of self.now }
    {
        let second = match &self.second {
            Some(second) => Some(second.clause),
            None => None,
        };
        Clauses {
            first: self.first.clause,
            second,
        }
    }
}

/// What is tried of the policy: that ends of calls are taken, and of the pairs that are tested that calls turn, that ends
/// turn, and that ends may come first.
pub fn trials<'a, P: PairTest>(
    alloc: Global,
    policy: &'a Policy,
    test: &P,
) -> Result<Vec<TrialRef<'a>>, NoMemory>
    requires { length policy.now.clauses ≤ 64 }
    ensures { IfOk result (λ found. found.items ≡ trials (P.pairs test.now) policy.now) }
{
    let calls = clauses_where(alloc, policy, true)?;
    let ends = clauses_where(alloc, policy, false)?;
    let mut trials = Vec::new(alloc);
    add_trials(&mut trials, test, calls.as_slice(), ends.as_slice())?;
    Ok(trials)
}

/// Adds what is tried of the clauses for calls and of those for ends of calls, in the order of the conditions.
fn add_trials<'a, P: PairTest>(
    trials: &mut Vec<TrialRef<'a>>,
    test: &P,
    calls: &[PlacedClause<'a>],
    ends: &[PlacedClause<'a>],
) -> Result<(), NoMemory>
    ensures { OnOk result (trials.new.items ≡ (((trials.old.items ++ map (alone 0) ends.now)
        ++ pairs (P.pairs test.now) 1 calls.now calls.now) ++ pairs (P.pairs test.now) 2 ends.now ends.now)
        ++ pairs (P.pairs test.now) 3 calls.now ends.now) }
{
    add_alone(trials, 0, ends)?;
    add_pairs(trials, test, 1, calls, calls)?;
    add_pairs(trials, test, 2, ends, ends)?;
    add_pairs(trials, test, 3, calls, ends)
}

/// The clauses for calls, or those for ends of calls.
fn clauses_where<'a>(
    alloc: Global,
    policy: &'a Policy,
    of_calls: bool,
) -> Result<Vec<PlacedClause<'a>>, NoMemory>
    requires { length policy.now.clauses ≤ 64 }
    ensures { IfOk result (λ found. found.items
        ≡ filter (λ (c : Placed). is_wanted of_calls c.1.phase) (enumerate_from 0 policy.now.clauses)) }
{
    let mut found = Vec::new(alloc);
    let mut place: u32 = 0;
    let mut left = policy.clauses.as_slice();
    while let [clause, rest @ ..] = left {
        if is_wanted(of_calls, clause.phase) {
            found.push(PlacedClause { place, clause })?;
        }
        place += 1;
        left = rest;
    }
    Ok(found)
}

/// Whether the phase is that of calls, or whether it is not.
fn is_wanted(of_calls: bool, phase: Phase) -> bool
    ensures { result ≡ is_wanted of_calls phase }
{
    if of_calls {
        return is_of_calls(phase);
    }
    !is_of_calls(phase)
}

fn is_of_calls(phase: Phase) -> bool
    ensures { result ≡ is_of_calls phase }
{
    match phase {
        Phase::Before => true,
        Phase::After => false,
        Phase::Exceptional => false,
    }
}

fn add_alone<'a>(
    trials: &mut Vec<TrialRef<'a>>,
    condition: u8,
    firsts: &[PlacedClause<'a>],
) -> Result<(), NoMemory>
    ensures { OnOk result (trials.new.items ≡ trials.old.items ++ map (alone condition) firsts.now) }
{
    for first in firsts {
        trials.push(TrialRef {
            condition,
            first: first.again(),
            second: None,
        })?;
    }
    Ok(())
}

fn add_pairs<'a, P: PairTest>(
    trials: &mut Vec<TrialRef<'a>>,
    test: &P,
    condition: u8,
    firsts: &[PlacedClause<'a>],
    seconds: &[PlacedClause<'a>],
) -> Result<(), NoMemory>
    ensures { OnOk result (trials.new.items ≡ trials.old.items ++ pairs (P.pairs test.now) condition firsts.now seconds.now) }
{
    for first in firsts {
        add_pairs_with(trials, test, condition, first, seconds)?;
    }
    Ok(())
}

fn add_pairs_with<'a, P: PairTest>(
    trials: &mut Vec<TrialRef<'a>>,
    test: &P,
    condition: u8,
    first: &PlacedClause<'a>,
    seconds: &[PlacedClause<'a>],
) -> Result<(), NoMemory>
    ensures { OnOk result (trials.new.items
        ≡ trials.old.items ++ map (both condition first.now) (filter (is_tested (P.pairs test.now) first.now) seconds.now)) }
{
    let mut left = seconds;
    while let [second, rest @ ..] = left {
        if test.is_tested(first.clause.method, second.clause.method) {
            trials.push(TrialRef {
                condition,
                first: first.again(),
                second: Some(second.again()),
            })?;
        }
        left = rest;
    }
    Ok(())
}
