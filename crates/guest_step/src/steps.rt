//! The machine of guest threads, as code. (docs/MACHINE.md)

ghost use Rattle.std.specs.Prelude.{IfOk, ◌≡◌};
ghost use Rattle.guest_model.specs.Ready.{IsReady};

use crate::asking::{answer_fits, enabled};
use crate::ending::ended;
use crate::starting::start;
use crate::stepping::step as make_step;
use api_listing::{ApiAnswer, Event};
use bytecode_model::Program;
use guest_model::{End, Machine, Step, StepFault, Steps};
use guest_tables::Guest;
use guest_threads::{MachineView, RunningMachine};
use mon_base::NoMemory;
use std::alloc::Global;
use std::marker::Model;
use type_lattice::Indexed;

/// The steps of a linked program that is ready to run. A contract sees the program.
#[derive(Drop)]
pub struct Stepper {
    guest: Guest,
}

impl Model for Stepper {
    ghost use Rattle.bytecode_model.specs.declared.program.Program.{Program};

    ghost Value = { Program };

    ghost view = { λ s. s.guest };
}

impl Stepper {
    /// The steps of the program, whose tables are made here.
    pub fn new(alloc: Global, program: Indexed) -> Result<Stepper, NoMemory>
        requires { IsReady program }
        ensures { IfOk result (λ stepper. stepper ≡ program) }
    {
        let guest = Guest::new(alloc, program)?;
        Ok(Stepper { guest })
    }

    /// The program.
    pub fn program(&self) -> &Program
        ensures { result.now ≡ self.now }
    {
        self.guest.program()
    }
}

impl Steps for Stepper {
    ghost program = { λ program. program };

    fn start(&self, alloc: Global) -> Result<Machine, NoMemory> {
        Ok(start(alloc, &self.guest)?.into_machine())
    }

    fn step(
        &self,
        alloc: Global,
        machine: &mut Machine,
        step: &Step,
    ) -> Result<Option<Event>, StepFault> {
        let mut taken = RunningMachine::taken(alloc, machine);
        let made = make_step(alloc, &self.guest, &mut taken, step);
        *machine = taken.into_machine();
        made
    }

    fn enabled(&self, machine: &Machine, thread: u32) -> bool {
        enabled(&self.guest, &MachineView::of(machine), thread)
    }

    fn answer_fits(&self, machine: &Machine, thread: u32, answer: &ApiAnswer) -> bool {
        answer_fits(&self.guest, &MachineView::of(machine), thread, answer)
    }

    fn ended(&self, machine: &Machine) -> Option<End> {
        ended(&self.guest, &MachineView::of(machine))
    }
}
