//! The command `lift`: its inputs, and the record of the lifted run.

ghost use Rattle.std.specs.Prelude.{◌≡◌, ◌≤◌, IfOk};
ghost use Rattle.command_inputs.specs.LiftInputs.{LiftSound};
ghost use Rattle.command_inputs.specs.LiftWords.{lift_named};
ghost use Rattle.command_inputs.specs.Words.{Lift};
ghost use Rattle.conspec_automaton.specs.Sound.{IsPolicy};
ghost use Rattle.guest_model.specs.Ready.{IsReady};
ghost use Rattle.inliner_tool.specs.Commands.{Makes, readings_of};
ghost use Rattle.inliner_tool.specs.Lift.{CanBeLifted, CanLift, Lifts, LiftsAreRuns, LiftsOver, LiftsText, lift_told, lifted_text};
ghost use Rattle.inliner_tool.specs.Seen.{seen};
ghost use Rattle.inliner_tool.specs.Steps.{Equals, UnlessMemory};
ghost use Rattle.lift_schedule.specs.Lifting.{blocks_in, lift_of};
ghost use Rattle.lift_schedule.specs.Standing.{table_of};

use crate::answer::{Answer, Made};
use crate::inline::{Given, given_of, unfit, woven_is_expected};
use crate::programs::program_of;
use crate::refusal::{Ended, stopped};
use crate::replay::end_told;
use block_runs::woven_clients_are_known;
use bytecode_model::{Program, Side};
use class_linking::{linked_is_in_order, linked_programs_are_named};
use command_inputs::{LiftInputs, LiftWords, Weaving, read_lift};
use conspec_automaton::Policy;
use conspec_parse::kinds_are_told;
use event_record::{Record, record_text};
use guest_model::{Step, Steps};
use guest_replay::replays_are_runs;
use guest_step::Stepper;
use lift_schedule::{Lifted, Lifting, Standings, lift, lifts_are_told, standings_of};
use mon_base::{Bytes, List, NoMemory};
use mon_store::Store;
use std::alloc::Global;
use type_lattice::Indexed;
use typed_runs::policies_tell_types;
use woven_linking::{Inlined, inline_beside};

/// What `lift` makes of its files.
pub fn make_lift<S: Store>(alloc: Global, words: &LiftWords, store: &mut S) -> Result<Made, Ended>
    ensures makes { UnlessMemory (Makes (readings_of (seen S.files S.faults S.last store.old store.new))
        (Lift (lift_named words.now))) result }
    ensures files { S.files store.new ≡ S.files store.old }
    ensures faults { S.faults store.old ≤ S.faults store.new }
{
    match read_lift(alloc, store, words) {
        Ok(inputs) => lift_made(alloc, inputs, words.main),
        Err(stop) => Err(stopped(stop)),
    }
}

/// The record of the lifted run, told.
fn lift_made(alloc: Global, inputs: LiftInputs, main: &Bytes) -> Result<Made, Ended>
    requires { LiftSound inputs }
    ensures { UnlessMemory (Lifts main.now inputs) result }
{
    match told(alloc, inputs, main) {
        Ok(text) => Ok(Made::just(alloc, Answer::Lifted(text))),
        Err(ended) => Err(ended),
    }
}

/// Links the class files, and lifts the steps of the record.
fn told(alloc: Global, inputs: LiftInputs, main: &Bytes) -> Result<Bytes, Ended>
    requires { LiftSound inputs }
    ensures { UnlessMemory (LiftsText main.now inputs) result }
{
    let LiftInputs {
        listing,
        policy,
        recorded,
        classes,
    } = inputs;
    let client = program_of(alloc, listing, classes, main, Side::Original)?;
    let Record { steps, events } = recorded;
    drop(events);
    let given = given_of(alloc, Weaving::Auto, policy, client)?;
    kinds_are_told();
    policies_tell_types();
    woven_is_expected();
    woven_clients_are_known();
    linked_is_in_order();
    linked_programs_are_named();
    given_told(alloc, given, steps)
}

/// Weaves the policy into the client, and lifts the steps.
fn given_told(alloc: Global, given: Given, steps: List<Step>) -> Result<Bytes, Ended>
    requires ready { IsReady given.client }
    requires policy { IsPolicy given.policy }
    requires lifts { CanBeLifted given }
    ensures { UnlessMemory (LiftsOver given.client given.policy given.mode steps) result }
{
    let Given {
        client,
        typing,
        policy,
        mode,
    } = given;
    drop(typing);
    let inlined = match inline_beside(alloc, &client, &policy, mode) {
        Ok(inlined) => inlined,
        Err(fault) => return Err(unfit(fault)),
    };
    let told = inlined_told(alloc, client, inlined, &policy, steps);
    drop(policy);
    told
}

/// Lifts the steps of the client to the program with blocks.
fn inlined_told(
    alloc: Global,
    client: Program,
    inlined: Inlined,
    policy: &Policy,
    steps: List<Step>,
) -> Result<Bytes, Ended>
    requires ready { IsReady client }
    requires policy { IsPolicy policy.now }
    requires lifts { CanLift policy.now inlined.mode client inlined.program }
    ensures { UnlessMemory (Equals (lift_told inlined.program (lift_of policy.now inlined.mode client inlined.program steps))) result }
{
    let Inlined {
        program,
        mode,
        origins,
    } = inlined;
    drop(origins);
    let standings = standings_of(alloc, &client, policy, mode)?;
    let client = stepper_of(alloc, client)?;
    let woven = stepper_of(alloc, program)?;
    let lifting = Lifting {
        client: &client,
        woven: &woven,
        policy,
        mode,
    };
    lifted_told(alloc, &lifting, &standings, steps)
}

/// The steps of a program.
fn stepper_of(alloc: Global, program: Program) -> Result<Stepper, NoMemory>
    requires { IsReady program }
    ensures { IfOk result (λ stepper. stepper ≡ program) }
{
    let program = Indexed::new(alloc, program)?;
    Stepper::new(alloc, program)
}

/// The record of the lifted run.
fn lifted_told(
    alloc: Global,
    lifting: &Lifting<Stepper>,
    standings: &Standings,
    steps: List<Step>,
) -> Result<Bytes, Ended>
    requires policy { IsPolicy lifting.now.policy.now }
    requires standings { standings.now ≡ table_of (blocks_in lifting.now.policy.now lifting.now.mode) lifting.now.client.now }
    ensures { UnlessMemory (Equals (lift_told lifting.now.woven.now
        (lift_of lifting.now.policy.now lifting.now.mode lifting.now.client.now lifting.now.woven.now steps))) result }
{
    let run = lift(alloc, lifting, standings, steps)?;
    Ok(lifted_text(alloc, lifting.woven, &run)?)
}

fn lifted_text(alloc: Global, woven: &Stepper, run: &Lifted) -> Result<Bytes, NoMemory>
    ensures { IfOk result (λ text. text ≡ lifted_text woven.now run.now) }
{
    let end = end_told(woven.ended(&run.woven.machine));
    record_text(
        alloc,
        &woven.program().listing,
        run.woven.lines.as_slice(),
        end,
    )
}

/// The record that `lift` prints is that of a lifted run: the recorded steps are a run of the client that the policy accepts, and the
/// lines are those of the steps to which it is lifted. `replay` of these steps on the woven program tells the same events and end.
pub fn lifts_are_runs()
    ensures { LiftsAreRuns }
{
    lifts_are_told();
    replays_are_runs();
}
