//! The check as a whole: a program is examined with its certificate, and where the lock is let go round calls its policy has to be
//! race-free.

ghost use Rattle.std.specs.Prelude.{◌≡◌, IfErr, IsOk, length};
ghost use Rattle.std.specs.List.{AllByRecursion};
ghost use Rattle.block_logic.specs.Annotations.{annotations_of};
ghost use Rattle.block_logic.specs.Obeying.{EventsAreLocked};
ghost use Rattle.block_logic.specs.Outside.{LeavesBlocks};
ghost use Rattle.cert_checker.specs.Judging.{IsAllowed, judged, race_denied, races_denied};
ghost use Rattle.cert_checker.specs.Secure.{Secure};
ghost use Rattle.cert_checker.specs.declared.judging.Denial.TheVariants as denials;
ghost use Rattle.cert_format.specs.declared.certificate.Mode.TheVariants as modes;
ghost use Rattle.conspec_automaton.specs.Racing.{IsRaceFree, all_pairs};
ghost use Rattle.conspec_automaton.specs.Sound.{IsPolicy, NamesMethods};
ghost use Rattle.mon_base.specs.Answer.{Answers};
ghost use Rattle.race_free_check.specs.Limit.{AllHaveFewPoints};
ghost use Rattle.typed_runs.specs.Formed.{TellsTypes};
ghost use Rattle.typed_runs.specs.Programs.{IsLinkedProgram};

use crate::checking::{Accepted, examine};
use crate::fault::CheckFault;
use api_listing::Event;
use cert_format::{Certificate, Mode};
use conspec_automaton::{Policy, State};
use race_free_check::{RaceFault, RaceVerdict, decide};
use std::alloc::Global;
use type_lattice::Indexed;

/// Why a program is denied.
#[derive(Drop)]
pub enum Denial {
    /// A test of the program and its certificate fails.
    Fault(CheckFault),
    /// So many points of two clauses would have to be tried to decide whether the policy is race-free, which is too many.
    CellLimit {
        first: u32,
        second: u32,
        count: u64,
    },
    /// The policy is not race-free: the condition that a state and events break, as `decide` tells it.
    Racy {
        condition: u8,
        state: State,
        first: Event,
        second: Option<Event>,
    },
    /// Memory ran out.
    Memory,
}

impl From<CheckFault> for Denial {
    ghost from_gives = { λ fault denial. denial ≡ denials.Fault fault };

    fn from(fault: CheckFault) -> Denial {
        Denial::Fault(fault)
    }
}

/// Checks a program with its certificate. Where the lock is let go round calls it is decided besides whether the policy is
/// race-free, which takes memory. It runs nothing.
///
/// What it asks is what the calls that read its inputs give: the program is one that `link` gives of files, over a listing that was
/// read, and the policy is one that `build` gives of a policy that was read over it, whose clauses then tell the types of their
/// methods (`policies_tell_types` of typed_runs).
pub fn check(
    alloc: Global,
    program: &Indexed,
    policy: &Policy,
    certificate: &Certificate,
) -> Result<Accepted, Denial>
    requires linked { IsLinkedProgram program.now }
    requires policy { IsPolicy policy.now }
    requires named { NamesMethods (length program.now.listing.methods) policy.now }
    requires told { AllByRecursion (TellsTypes program.now.listing) policy.now.clauses }
    // Which answer it is: the first test that fails, with its first place, and then what is decided of races.
    ensures exact { Answers Denial.Memory result (judged program.now policy.now certificate.now) }
    // It is accepted exactly where it is allowed, if memory is there.
    ensures allowed { IsOk result → IsAllowed program.now policy.now certificate.now }
    ensures only { IsAllowed program.now policy.now certificate.now → IfErr result (λ denial. denial ≡ denials.Memory) }
    // Then every list of steps obeys, as the mode promises. In mode release this stands on runs being formed, as those of a linked
    // program are that its certificate types.
    ensures secure { IsOk result → Secure certificate.now.mode program.now policy.now }
    // In mode hold each step whose event has a clause is of the thread that holds the lock: the lock's order is that of the events.
    ensures locked { IsOk result → certificate.now.mode ≡ modes.Hold → EventsAreLocked program.now policy.now }
    // In either mode an error that a Java machine throws in a block leads out of it: where it is caught no lock is held, no call
    // with a clause before it is granted, and nothing is owed.
    ensures leaves_blocks { IsOk result → LeavesBlocks program.now policy.now (annotations_of certificate.now) }
{
    let accepted = examine(program, policy, certificate)?;
    judge_races(alloc, policy, certificate.mode)?;
    Ok(accepted)
}

/// Whether the policy is race-free, where the lock is let go round calls.
fn judge_races(alloc: Global, policy: &Policy, mode: Mode) -> Result<(), Denial>
    requires { IsPolicy policy.now }
    ensures exact { Answers Denial.Memory result (races_denied mode policy.now) }
    ensures race { IsOk result → mode ≡ modes.Release → IsRaceFree policy.now }
    ensures few { IsOk result → mode ≡ modes.Release → AllHaveFewPoints all_pairs policy.now }
    ensures only { (mode ≡ modes.Release → IsRaceFree policy.now) → (mode ≡ modes.Release → AllHaveFewPoints all_pairs policy.now)
        → IfErr result (λ denial. denial ≡ denials.Memory) }
{
    match mode {
        Mode::Hold => Ok(()),
        Mode::Release => race_denied(decide(alloc, policy)),
    }
}

/// The denial for what is decided of races.
fn race_denied(decided: Result<RaceVerdict, RaceFault>) -> Result<(), Denial>
    ensures { result ≡ race_denied decided }
{
    match decided {
        Ok(RaceVerdict::Free) => Ok(()),
        Ok(
            RaceVerdict::Racy {
                condition,
                state,
                first,
                second,
            },
        ) => Err(Denial::Racy {
            condition,
            state,
            first,
            second,
        }),
        Err(
            RaceFault::CellLimit {
                first,
                second,
                count,
            },
        ) => Err(Denial::CellLimit {
            first,
            second,
            count,
        }),
        Err(RaceFault::Memory) => Err(Denial::Memory),
    }
}
