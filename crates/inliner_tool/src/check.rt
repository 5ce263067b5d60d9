//! The command `check`: its inputs, what they link to, and what is made of it.

ghost use Rattle.std.specs.Prelude.{◌≡◌, ◌≤◌, ◌⊎◌, Err, IfErr, IfOk, Ok};
ghost use Rattle.bytecode_model.specs.declared.program.Program.{Program};
ghost use Rattle.command_inputs.specs.Words.{Check, check_named};
ghost use Rattle.command_inputs.specs.CheckInputs.{AreSound};
ghost use Rattle.command_inputs.specs.Named.{IsPolicyOf};
ghost use Rattle.inliner_tool.specs.Check.{
  Checks,
  ChecksLinked,
  IsChecked,
  IsCheckedAs,
  ProgramIsCheckedAs,
  denied,
  faulty_class,
  judged_step,
  label_for,
};
ghost use Rattle.inliner_tool.specs.CheckDecision.{CheckDecides};
ghost use Rattle.inliner_tool.specs.Commands.{Makes, readings_of};
ghost use Rattle.inliner_tool.specs.Seen.{seen};
ghost use Rattle.inliner_tool.specs.Steps.{Equals, Step, UnlessMemory};
ghost use Rattle.inliner_tool.specs.Tool.{Holds};
ghost use Rattle.inliner_tool.specs.declared.refusal.Ended.TheVariants as ends;
ghost use Rattle.inliner_tool.specs.declared.refusal.Refusal.TheVariants as refusals;
ghost use Rattle.typed_runs.specs.Programs.{IsLinkedProgram};

use crate::answer::{Answer, Made};
use crate::classes::label_of;
use crate::programs::program_of;
use crate::race::racy;
use crate::refusal::{Ended, Refusal, stopped};
use crate::running::linked_programs_run_typed;
use bytecode_model::{Program, Side};
use cert_checker::{Accepted, CheckFault, Denial, check};
use cert_format::Certificate;
use command_inputs::{CheckInputs, CheckWords, read_check};
use conspec_automaton::{Policy, build};
use conspec_parse::kinds_are_told;
use conspec_tree::PolicyTree;
use mon_base::{Bytes, NoMemory};
use mon_store::Store;
use std::alloc::Global;
use type_lattice::Indexed;
use typed_runs::policies_tell_types;

/// A program that was accepted, the policy, and what it was accepted as.
#[derive(Drop)]
pub struct Checked {
    pub program: Indexed,
    pub policy: Policy,
    pub accepted: Accepted,
}

/// What `check` makes of its files.
pub fn make_check<S: Store>(alloc: Global, words: &CheckWords, store: &mut S) -> Result<Made, Ended>
    ensures makes { UnlessMemory (Makes (readings_of (seen S.files S.faults S.last store.old store.new))
        (Check (check_named words.now))) result }
    ensures holds { IfOk result (λ made. Holds (seen S.files S.faults S.last store.old store.new) (check_named words.now)) }
    ensures files { S.files store.new ≡ S.files store.old }
    ensures faults { S.faults store.old ≤ S.faults store.new }
{
    match read_check(alloc, store, words) {
        Ok(inputs) => check_made(alloc, inputs, words.main),
        Err(stop) => Err(stopped(stop)),
    }
}

/// What is made of these inputs.
fn check_made(alloc: Global, inputs: CheckInputs, main: &Bytes) -> Result<Made, Ended>
    requires { AreSound inputs }
    ensures checks { UnlessMemory (Checks main.now inputs) result }
    ensures checked { IfOk result (λ made. IsChecked main.now inputs) }
{
    match inputs_checked(alloc, inputs, main) {
        Ok(
            Checked {
                program,
                policy,
                accepted,
            },
        ) => {
            drop(policy);
            drop(program);
            Ok(Made::just(alloc, Answer::Accepted(accepted)))
        }
        Err(ended) => Err(ended),
    }
}

/// Links the class files of these inputs and checks the program: what was accepted, or why nothing was.
pub fn inputs_checked(alloc: Global, inputs: CheckInputs, main: &Bytes) -> Result<Checked, Ended>
    requires { AreSound inputs }
    ensures checked { IfOk result (IsCheckedAs main.now inputs) }
    ensures linked { IfOk result (λ checked. IsLinkedProgram checked.program) }
    ensures ends { IfErr result (λ ended. UnlessMemory (Checks main.now inputs) (Err ended)) }
{
    let CheckInputs {
        listing,
        policy,
        certificate,
        classes,
    } = inputs;
    let linked = program_of(alloc, listing, classes, main, Side::Inlined);
    let checked = linked_checked(alloc, linked, &policy, &certificate);
    drop(certificate);
    drop(policy);
    checked
}

/// The same of what class files link to.
fn linked_checked(
    alloc: Global,
    linked: Result<Indexed, Ended>,
    policy: &PolicyTree,
    certificate: &Certificate,
) -> Result<Checked, Ended>
    requires linked { IfOk linked IsLinkedProgram }
    requires policy { IfOk linked (λ program. IsPolicyOf program.listing policy.now) }
    ensures program { IfOk result (λ checked. linked ≡ Ok checked.program) }
    ensures linked { IfOk result (λ checked. IsLinkedProgram checked.program) }
    ensures checked { IfOk result (λ checked.
        ProgramIsCheckedAs policy.now certificate.now checked.program checked.policy checked.accepted) }
    ensures ends { (step : Step Program) → UnlessMemory (Equals step) linked
        → IfErr result (λ ended. UnlessMemory (ChecksLinked policy.now certificate.now step) (Err ended)) }
{
    match linked {
        Ok(program) => match program_checked(alloc, &program, policy, certificate) {
            Ok((policy, accepted)) => Ok(Checked {
                program,
                policy,
                accepted,
            }),
            Err(ended) => {
                drop(program);
                Err(ended)
            }
        },
        Err(ended) => Err(ended),
    }
}

/// The policy, and what the program was accepted as, of a linked program; or why it was not.
fn program_checked(
    alloc: Global,
    program: &Indexed,
    policy: &PolicyTree,
    certificate: &Certificate,
) -> Result<(Policy, Accepted), Ended>
    requires linked { IsLinkedProgram program.now }
    requires policy { IsPolicyOf program.now.listing policy.now }
    ensures checked { IfOk result (λ r. ProgramIsCheckedAs policy.now certificate.now program.now r.0 r.1) }
    ensures ends { IfErr result (λ ended.
        UnlessMemory (Equals (judged_step policy.now certificate.now program.now)) (Err ended)) }
{
    let Ok(automaton) = build(alloc, policy) else {
        return Err(Ended::Memory);
    };
    kinds_are_told();
    policies_tell_types();
    linked_programs_run_typed();
    match check(alloc, program, &automaton, certificate) {
        Ok(accepted) => Ok((automaton, accepted)),
        Err(denial) => Err(denied(alloc, policy, program.program(), denial)),
    }
}

/// Why a program is not accepted, with the name of the class that it is told of, or with what shows a race.
fn denied(alloc: Global, policy: &PolicyTree, program: &Program, denial: Denial) -> Ended
    ensures { (result ≡ denied policy.now program.now denial) ⊎ (result ≡ ends.Memory) }
{
    match denial {
        Denial::Fault(fault) => at_fault(alloc, program, fault),
        Denial::CellLimit {
            first,
            second,
            count,
        } => Ended::Refused(Refusal::CellLimit {
            first,
            second,
            count,
        }),
        Denial::Racy {
            condition,
            state,
            first,
            second,
        } => {
            let listing = &program.listing;
            racy(alloc, policy, listing, condition, &state, &first, &second)
        }
        Denial::Memory => Ended::Memory,
    }
}

/// The same, with the name of the class that the fault is told of.
fn at_fault(alloc: Global, program: &Program, fault: CheckFault) -> Ended
    ensures { (result ≡ ends.Refused (refusals.Denied fault (label_for program.now fault))) ⊎ (result ≡ ends.Memory) }
{
    match label_for(alloc, program, &fault) {
        Ok(label) => Ended::Refused(Refusal::Denied(fault, label)),
        Err(NoMemory) => Ended::Memory,
    }
}

fn label_for(alloc: Global, program: &Program, fault: &CheckFault) -> Result<Bytes, NoMemory>
    ensures { IfOk result (λ label. label ≡ label_for program.now fault.now) }
{
    match faulty_class(fault) {
        Some(class) => label_of(alloc, program, class),
        None => Bytes::from_slice(alloc, b"-"),
    }
}

/// The number of the class that a fault is told of, if it is of one.
fn faulty_class(fault: &CheckFault) -> Option<u32>
    ensures { result ≡ faulty_class fault.now }
{
    match fault {
        CheckFault::Shape { class, .. } => Some(*class),
        CheckFault::Typing { class, .. } => Some(*class),
        CheckFault::StateClass { .. } => None,
        CheckFault::Local { class, .. } => Some(*class),
    }
}

/// To files in their grammars and limits that link, where the store tells them and counts no fault, `check` answers yes or no,
/// unless memory runs out: its status is 0, 1 or 7.
pub fn check_decides()
    ensures { CheckDecides }
{}
