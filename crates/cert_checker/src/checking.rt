//! The tests of a program with its certificate, one after the other.

ghost use Rattle.std.specs.Prelude.{◌≡◌, ◌↔◌, ◌<◌, ◌^◌, IsOk, length, count_by, sum_by};
ghost use Rattle.std.specs.List.{AllByRecursion};
ghost use Rattle.bytecode_model.specs.declared.program.Method.{Method as AMethod};
ghost use Rattle.bytecode_model.specs.Sound.{IsSound, IsSoundClass};
ghost use Rattle.cert_format.specs.declared.certificate.Mode.TheVariants as modes;
ghost use Rattle.conspec_automaton.specs.Racing.{IsRaceFree};
ghost use Rattle.conspec_automaton.specs.Sound.{IsPolicy, NamesMethods};
ghost use Rattle.block_logic.specs.Accepted.{IsAccepted};
ghost use Rattle.block_logic.specs.Obeying.{EventsAreLocked};
ghost use Rattle.block_logic.specs.Operands.{has_clause};
ghost use Rattle.block_logic.specs.Annotations.{annotations_of};
ghost use Rattle.block_logic.specs.Outside.{LeavesBlocks};
ghost use Rattle.cert_checker.specs.Acceptance.{sites_of, verdict};
ghost use Rattle.cert_checker.specs.Secure.{Secure};
ghost use Rattle.typed_runs.specs.Formed.{TellsTypes};
ghost use Rattle.typed_runs.specs.Programs.{IsLinkedProgram};

use crate::fault::CheckFault;
use crate::notes::notes_fault;
use crate::shape::shape_fault;
use crate::state::state_fault;
use block_logic::{accepted_obeys, errors_leave_blocks, has_clause};
use bytecode_model::{LinkedClass, Method, Program};
use cert_format::{Certificate, Mode};
use code_typing::{check_typing, typed_is_closed};
use conspec_automaton::Policy;
use guest_model::sees_numbers_in_range;
use type_lattice::Indexed;
use typed_runs::events_are_well_formed;

/// The answer yes.
#[derive(Clone, Copy)]
pub struct Accepted {
    /// How the blocks of the program use the lock.
    pub mode: Mode,
    /// The number of calls of methods that the policy has clauses for.
    pub sites: u64,
}

/// Examines a program with its certificate: its shape, its types, the class of the policy's variables, and its notes. It runs
/// nothing, and takes no memory.
pub fn examine(
    program: &Indexed,
    policy: &Policy,
    certificate: &Certificate,
) -> Result<Accepted, CheckFault>
    requires linked { IsLinkedProgram program.now }
    requires policy { IsPolicy policy.now }
    requires named { NamesMethods (length program.now.listing.methods) policy.now }
    requires told { AllByRecursion (TellsTypes program.now.listing) policy.now.clauses }
    // It passes exactly where the conditions hold. Then every list of steps obeys: in mode hold, and in mode release where the policy
    // is race-free.
    ensures ok { IsOk result ↔ IsAccepted program.now policy.now certificate.now }
    ensures secure { IsOk result → (certificate.now.mode ≡ modes.Release → IsRaceFree policy.now)
        → Secure certificate.now.mode program.now policy.now }

    // In mode hold each step whose event has a clause is of the thread that holds the lock: the lock's order is that of the events.
    ensures locked { IsOk result → certificate.now.mode ≡ modes.Hold → EventsAreLocked program.now policy.now }

    // In either mode an error that a Java machine throws in a block leads out of it: where it is caught no lock is held, no call
    // with a clause before it is granted, and nothing is owed.
    ensures leaves_blocks { IsOk result → LeavesBlocks program.now policy.now (annotations_of certificate.now) }

    // Which answer it is: the first test that fails, with its first place.
    ensures exact { result ≡ verdict program.now policy.now certificate.now }
{
    let linked = program.program();
    if let Some((class, method)) = shape_fault(linked, certificate) {
        return Err(CheckFault::Shape { class, method });
    }
    if let Err(fault) = check_typing(program, &certificate.typing) {
        return Err(CheckFault::Typing {
            class: fault.class,
            method: fault.method,
            at: fault.at,
            rule: fault.rule,
        });
    }
    if let Some(field) = state_fault(linked.classes.as_slice(), policy) {
        return Err(CheckFault::StateClass { field });
    }
    if let Some((class, (method, (at, rule)))) = notes_fault(linked, policy, certificate) {
        return Err(CheckFault::Local {
            class,
            method,
            at,
            rule,
        });
    }
    typed_is_closed();
    events_are_well_formed();
    sees_numbers_in_range();
    accepted_obeys();
    errors_leave_blocks();
    Ok(Accepted {
        mode: certificate.mode,
        sites: sites_of(linked, policy),
    })
}

/// How many calls of methods that the policy has clauses for stand in the code.
fn sites_of(program: &Program, policy: &Policy) -> u64
    requires { IsSound program.now }
    ensures { result ≡ sites_of program.now policy.now }
{
    let mut sites = 0u64;
    for class in program.classes.as_slice() {
        sites += sites_in_class(class, policy);
    }
    sites
}

fn sites_in_class(class: &LinkedClass, policy: &Policy) -> u64
    requires { IsSoundClass class.now }
    ensures is { result ≡ sum_by (λ (m : AMethod). count_by (has_clause policy.now) m.refs) class.now.methods }
    ensures few { result < 2 ^ 32 }
{
    let mut sites = 0u64;
    for method in class.methods.as_slice() {
        sites += sites_in_method(method, policy);
    }
    sites
}

fn sites_in_method(method: &Method, policy: &Policy) -> u64
    requires { length method.now.refs < 2 ^ 16 }
    ensures is { result ≡ count_by (has_clause policy.now) method.now.refs }
    ensures few { result < 2 ^ 16 }
{
    let mut sites = 0u64;
    for target in method.refs.as_slice() {
        if has_clause(policy, target) {
            sites += 1;
        }
    }
    sites
}
