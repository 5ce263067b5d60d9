//! The run of the client: its machine, and what the policy says of what is seen.

ghost use Rattle.std.specs.Prelude.{◌≡◌, IfOk, IsTrue, Err, Ok};
ghost use Rattle.std.specs.Option.{option_map_or};
ghost use Rattle.guest_model.specs.Stepping.{stepped};
ghost use Rattle.lift_schedule.specs.declared.fault.LiftFault.TheVariants as faults;
ghost use Rattle.mon_base.specs.Answer.{AnswersAs};
ghost use Rattle.conspec_automaton.specs.Range.{in_range};
ghost use Rattle.conspec_automaton.specs.Sound.{IsPolicy};
ghost use Rattle.lift_schedule.specs.Running.{
  client_start,
  client_stepped,
  is_call,
  is_held,
  judged,
  of_clauses,
  overlaps,
  under_way_after,
};

use crate::fault::LiftFault;
use api_listing::Event;
use cert_format::Mode;
use conspec_automaton::{Policy, State, has_clauses, initial, next};
use guest_model::{Machine, Step, StepFault, Steps};
use mon_base::NoMemory;
use std::alloc::Global;

/// A run of the client, the policy's state after it, and whether a call of a method with clauses is under way.
#[derive(Drop)]
pub struct ClientRun {
    pub machine: Machine,
    pub state: State,
    pub under_way: bool,
}

/// The run of no steps.
pub fn client_start<S: Steps>(
    alloc: Global,
    client: &S,
    policy: &Policy,
) -> Result<ClientRun, NoMemory>
    requires { IsPolicy policy.now }
    ensures start { IfOk result (λ run. run ≡ client_start policy.now (S.program client.now)) }
    ensures ranged { IfOk result (λ run. IsTrue (in_range policy.now run.state)) }
{
    let machine = client.start(alloc)?;
    Ok(ClientRun {
        machine,
        state: initial(policy),
        under_way: false,
    })
}

/// Makes the step of this index, whose event the policy has to accept; in mode hold no call of a method with clauses may begin by it
/// while another is under way.
pub fn step_client<S: Steps>(
    alloc: Global,
    client: &S,
    policy: &Policy,
    mode: Mode,
    index: u64,
    step: &Step,
    run: &mut ClientRun,
) -> Result<(), LiftFault>
    requires policy { IsPolicy policy.now }
    requires ranged { IsTrue (in_range policy.now run.old.state) }
    ensures step { AnswersAs LiftFault.Memory (λ done. run.new) result
        (client_stepped policy.now mode (S.program client.now) index step.now run.old) }
    ensures ranged { IsTrue (in_range policy.now run.new.state) }
{
    let seen = make(alloc, client, index, step, &mut run.machine)?;
    judge(policy, index, &mut run.state, &seen)?;
    if overlaps(policy, mode, run.under_way, &seen) {
        return Err(LiftFault::Overlaps { index });
    }
    run.under_way = under_way_after(policy, run.under_way, &seen);
    Ok(())
}

/// Makes the step, and answers what is seen of it.
fn make<S: Steps>(
    alloc: Global,
    client: &S,
    index: u64,
    step: &Step,
    machine: &mut Machine,
) -> Result<Option<Event>, LiftFault>
    ensures { AnswersAs LiftFault.Memory (λ seen. (machine.new, seen)) result
        (option_map_or Ok (stepped (S.program client.now) machine.old step.now) (Err (faults.NotEnabled index))) }
{
    match client.step(alloc, machine, step) {
        Ok(seen) => Ok(seen),
        Err(StepFault::NotEnabled) => Err(LiftFault::NotEnabled { index }),
        Err(StepFault::Memory) => Err(LiftFault::Memory),
    }
}

/// Takes the policy to its state after what is seen.
fn judge(
    policy: &Policy,
    index: u64,
    state: &mut State,
    seen: &Option<Event>,
) -> Result<(), LiftFault>
    requires policy { IsPolicy policy.now }
    requires ranged { IsTrue (in_range policy.now state.old) }
    ensures judged { AnswersAs LiftFault.Memory (λ done. state.new) result (judged policy.now index state.old seen.now) }
    ensures ranged { IsTrue (in_range policy.now state.new) }
{
    let Some(event) = seen else {
        return Ok(());
    };
    if next(policy, state, event) {
        Ok(())
    } else {
        Err(LiftFault::Disobeys { index })
    }
}

fn overlaps(policy: &Policy, mode: Mode, under_way: bool, seen: &Option<Event>) -> bool
    ensures { result ≡ overlaps policy.now mode under_way seen.now }
{
    match seen {
        Some(event) => is_held(mode) && under_way && of_clauses(policy, event) && is_call(event),
        None => false,
    }
}

fn under_way_after(policy: &Policy, under_way: bool, seen: &Option<Event>) -> bool
    ensures { result ≡ under_way_after policy.now under_way seen.now }
{
    match seen {
        Some(event) => if of_clauses(policy, event) {
            is_call(event)
        } else {
            under_way
        },
        None => under_way,
    }
}

fn is_held(mode: Mode) -> bool
    ensures { result ≡ is_held mode }
{
    match mode {
        Mode::Release => false,
        Mode::Hold => true,
    }
}

/// Whether the event is of a method with clauses.
fn of_clauses(policy: &Policy, event: &Event) -> bool
    ensures { result ≡ of_clauses policy.now event.now }
{
    let method = match event {
        Event::Call { method, .. } => *method,
        Event::Return { method, .. } => *method,
        Event::Except { method, .. } => *method,
    };
    has_clauses(policy, method)
}

fn is_call(event: &Event) -> bool
    ensures { result ≡ is_call event.now }
{
    match event {
        Event::Call { .. } => true,
        Event::Return { .. } => false,
        Event::Except { .. } => false,
    }
}
