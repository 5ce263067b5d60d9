//! The machine of guest threads, as code. (docs/MACHINE.md)

ghost use Rattle.std.specs.Prelude.{IfOk, IfSome, ◌≡◌};
ghost use Rattle.guest_model.specs.Asking.{is_enabled, takes_answer};
ghost use Rattle.guest_model.specs.Did.{Did};
ghost use Rattle.guest_model.specs.Ending.{end_of};
ghost use Rattle.guest_model.specs.Runs.{start_of};
ghost use Rattle.guest_model.specs.Seeing.{thread_of};
ghost use Rattle.guest_model.specs.Stepping.{stepped};

use crate::fault::StepFault;
use crate::machine::{End, Machine, Step};
use api_listing::{ApiAnswer, Event};
use mon_base::NoMemory;
use std::alloc::Global;

/// The steps of a program, as code. The machine that they change stands apart, so that several may be stepped.
pub trait Steps: Drop {
    ghost use Rattle.bytecode_model.specs.declared.program.Program.{Program};

    /// The program whose steps they are.
    ghost program: { Self → Program };

    /// The machine before the first step.
    fn start(&self, alloc: Global) -> Result<Machine, NoMemory>
        ensures { IfOk result (λ machine. machine ≡ start_of (program self.now)) };

    /// Makes the step, and answers what the library sees of it. Where it is refused, the machine is as it was.
    fn step(
        &self,
        alloc: Global,
        machine: &mut Machine,
        step: &Step,
    ) -> Result<Option<Event>, StepFault>
        ensures did { Did result machine.old machine.new (stepped (program self.now) machine.old step.now) }
        ensures own { IfOk result (λ seen. IfSome seen (λ event. thread_of event ≡ step.now.thread)) };

    /// Whether the thread with this number can make a step: some choice of it is enabled by the rules. It takes no memory.
    fn enabled(&self, machine: &Machine, thread: u32) -> bool
        ensures { result ≡ is_enabled (program self.now) machine.now thread };

    /// Whether the answer fits the call that the thread with this number is in, so that the step which takes it is enabled
    /// by the rules. It takes no memory.
    fn answer_fits(&self, machine: &Machine, thread: u32, answer: &ApiAnswer) -> bool
        ensures { result ≡ takes_answer (program self.now) machine.now thread answer.now };

    /// How the run ended; nothing while a thread can make a step. It takes no memory.
    fn ended(&self, machine: &Machine) -> Option<End>
        ensures { result ≡ end_of (program self.now) machine.now };
}
