//! The decision: counts first, then points.

ghost use Rattle.std.specs.Prelude.{◌≡◌, ◌≢◌, true, Ok, IfErr, IfOk, IsOk};
ghost use Rattle.std.specs.List.{AllByRecursion};
ghost use Rattle.mon_base.specs.Answer.{Answers};
ghost use Rattle.conspec_automaton.specs.Racing.{IsRaceFree, IsRaceFreeFor, all_pairs};
ghost use Rattle.conspec_automaton.specs.Sound.{IsPolicy};
ghost use Rattle.conspec_automaton.specs.Trying.{is_small, point_count};
ghost use Rattle.race_free_check.specs.Deciding.{AreClausesOf, broken_in, all_small, decided, decided_for, judged};
ghost use Rattle.race_free_check.specs.Deciding.{second_place, small_or_told};
ghost use Rattle.race_free_check.specs.Limit.{AllHaveFewPoints, TellsLimit};
ghost use Rattle.race_free_check.specs.Shown.{ShowsRace};

use crate::apart::is_apart;
use crate::events::events_count;
use crate::fault::RaceFault;
use crate::laws::{broken_points_show, points_are_enough};
use crate::pairs::{AllPairs, PairTest};
use crate::searching::{Point, broken_in};
use crate::states::states_count;
use crate::trial::{TrialRef, trials};
use crate::verdict::RaceVerdict;
use conspec_automaton::Policy;
use mon_base::NoMemory;
use std::alloc::Global;

/// The greatest number of points of a trial.
pub const MAX_POINTS: u64 = 1_000_000;

/// Whether the policy is race-free, or the first condition and point that break it.
///
/// It is not decided where a trial has more than 1,000,000 points, or where memory ran out.
pub fn decide(alloc: Global, policy: &Policy) -> Result<RaceVerdict, RaceFault>
    requires { IsPolicy policy.now }
    ensures exact { Answers RaceFault.Memory result (decided policy.now) }
    ensures free { IfOk result (λ verdict. verdict ≡ RaceVerdict.Free → IsRaceFree policy.now) }
    ensures racy { IfOk result (λ verdict. verdict ≢ RaceVerdict.Free → IsRaceFree policy.now → ⊥) }
    // The state that is shown is in range, a program can make the events, and they break the condition of the number.
    ensures shown { IfOk result (ShowsRace all_pairs policy.now) }
    // It is decided only where no trial has too many points, and else the first that has too many is told.
    ensures small { IsOk result → AllHaveFewPoints all_pairs policy.now }
    ensures limit { IfErr result (TellsLimit all_pairs policy.now) }
{
    decide_pairs(alloc, policy, &AllPairs)
}

/// The same of the pairs of methods that are tested: whether the policy is race-free but for the others.
pub fn decide_pairs<P: PairTest>(
    alloc: Global,
    policy: &Policy,
    test: &P,
) -> Result<RaceVerdict, RaceFault>
    requires { IsPolicy policy.now }
    ensures exact { Answers RaceFault.Memory result (decided_for (P.pairs test.now) policy.now) }
    ensures free { IfOk result (λ verdict. verdict ≡ RaceVerdict.Free → IsRaceFreeFor (P.pairs test.now) policy.now) }
    ensures racy { IfOk result (λ verdict. verdict ≢ RaceVerdict.Free → IsRaceFreeFor (P.pairs test.now) policy.now → ⊥) }
    ensures shown { IfOk result (ShowsRace (P.pairs test.now) policy.now) }
    ensures small { IsOk result → AllHaveFewPoints (P.pairs test.now) policy.now }
    ensures limit { IfErr result (TellsLimit (P.pairs test.now) policy.now) }
{
    points_are_enough();
    broken_points_show();
    decided(alloc, policy, test)
}

fn decided<P: PairTest>(alloc: Global, policy: &Policy, test: &P) -> Result<RaceVerdict, RaceFault>
    requires { IsPolicy policy.now }
    ensures { Answers RaceFault.Memory result (decided_for (P.pairs test.now) policy.now) }
{
    let trials = trials(alloc, policy, test)?;
    all_small(alloc, policy, trials.as_slice())?;
    judged(alloc, policy, trials.as_slice())
}

/// Tells the first trial that has too many points.
fn all_small(alloc: Global, policy: &Policy, trials: &[TrialRef]) -> Result<(), RaceFault>
    requires policy { IsPolicy policy.now }
    requires clauses { AllByRecursion (AreClausesOf policy.now) trials.now }
    ensures exact { Answers RaceFault.Memory result (all_small policy.now trials.now) }
    ensures small { IsOk result → AllByRecursion (λ trial. is_small policy.now trial ≡ true) trials.now }
{
    let mut left = trials;
    while let [trial, rest @ ..] = left {
        is_small(alloc, policy, trial)?;
        left = rest;
    }
    Ok(())
}

fn is_small(alloc: Global, policy: &Policy, trial: &TrialRef) -> Result<(), RaceFault>
    requires policy { IsPolicy policy.now }
    requires clauses { AreClausesOf policy.now trial.now }
    ensures { Answers RaceFault.Memory result (small_or_told policy.now trial.now) }
{
    let count = point_count(alloc, policy, trial)?;
    if count > MAX_POINTS {
        return Err(RaceFault::CellLimit {
            first: trial.first.place,
            second: second_place(trial),
            count,
        });
    }
    Ok(())
}

/// The place of the second clause, or of the one that is tried alone.
fn second_place(trial: &TrialRef) -> u32
    ensures { result ≡ second_place trial.now }
{
    match &trial.second {
        Some(second) => second.place,
        None => trial.first.place,
    }
}

/// How many points the trial has.
fn point_count(alloc: Global, policy: &Policy, trial: &TrialRef) -> Result<u64, NoMemory>
    requires policy { IsPolicy policy.now }
    requires clauses { AreClausesOf policy.now trial.now }
    ensures { IfOk result (λ count. count ≡ point_count policy.now trial.now) }
{
    let states = states_count(alloc, policy, &trial.clauses())?;
    let firsts = events_count(alloc, trial.first.clause)?;
    let seconds = match &trial.second {
        Some(second) => events_count(alloc, second.clause)?,
        None => 1,
    };
    Ok(states.saturating_mul(firsts.saturating_mul(seconds)))
}

/// The first trial with a point that breaks its condition, or that there is none.
fn judged(alloc: Global, policy: &Policy, trials: &[TrialRef]) -> Result<RaceVerdict, RaceFault>
    requires policy { IsPolicy policy.now }
    requires clauses { AllByRecursion (AreClausesOf policy.now) trials.now }
    requires small { AllByRecursion (λ trial. is_small policy.now trial ≡ true) trials.now }
    ensures { Answers RaceFault.Memory result (Ok (judged policy.now trials.now)) }
{
    let mut left = trials;
    while let [trial, rest @ ..] = left {
        if let Some(point) = first_broken(alloc, policy, trial)? {
            return Ok(RaceVerdict::Racy {
                condition: trial.condition,
                state: point.state,
                first: point.first,
                second: point.second,
            });
        }
        left = rest;
    }
    Ok(RaceVerdict::Free)
}

/// The first point of the trial that breaks its condition. Where neither clause changes what the other names none does, and
/// none is tried.
fn first_broken(alloc: Global, policy: &Policy, trial: &TrialRef) -> Result<Option<Point>, NoMemory>
    requires policy { IsPolicy policy.now }
    requires clauses { AreClausesOf policy.now trial.now }
    requires small { is_small policy.now trial.now ≡ true }
    ensures { IfOk result (λ found. found ≡ broken_in policy.now trial.now) }
{
    if is_apart(policy, trial) {
        return Ok(None);
    }
    broken_in(alloc, policy, trial)
}
