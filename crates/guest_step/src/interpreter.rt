//! A program that runs: its steps, and the machine that they have come to, in one value. (docs/MACHINE.md)

ghost use Rattle.std.specs.Prelude.{IfOk, None, ◌≡◌};
ghost use Rattle.guest_model.specs.Ready.{IsReady};
ghost use Rattle.guest_model.specs.Runs.{start_of};

use crate::asking::{answer_fits_apart, call_asked};
use crate::living::{add_living, bring_up_to_date, make_place_for_thread};
use crate::making_room::{longest_name, make_place, make_rooms, put_objects, take_objects};
use crate::rooms::Rooms;
use crate::starting::start;
use crate::stepping::{step, step_prepared};
use crate::turns::{end_among, next_enabled};
use api_listing::{ApiAnswer, ApiCall, Event};
use bytecode_model::Program;
use guest_heap::Object;
use guest_model::{Choice, End, Execution, Step, StepFault, steps_add_one};
use guest_tables::Guest;
use guest_threads::RunningMachine;
use mon_base::NoMemory;
use std::alloc::Global;
use std::marker::Model;
use type_lattice::Indexed;

/// A linked program that runs. A contract sees the program, the machine, and what is there for an answer. Threads that have ended
/// cost no time: whose turn it is and how the run ended are sought among those that live.
#[derive(Drop)]
pub struct Interpreter {
    guest: Guest,
    machine: RunningMachine,
    /// The numbers of the threads that live, ascending.
    living: Vec<u32>,
    /// The objects of the machine, and a place for one more, while an answer is waited for.
    apart: Option<Vec<Object>>,
    rooms: Rooms,
    /// The length of the longest name of a class in the listing.
    longest: usize,
}

impl Model for Interpreter {
    ghost use Rattle.guest_step.specs.Rooms.{IsSound, Run, machine_with};

    ghost Value = { Run };

    ghost view = { λ i. record { program = i.guest; machine = machine_with i.machine i.apart; apart = i.apart; rooms = i.rooms } };

    ghost invariant = { λ i. IsSound i.guest i.machine i.living i.apart i.longest };
}

impl Interpreter {
    /// The program before its first step.
    pub fn start(alloc: Global, program: Indexed) -> Result<Interpreter, NoMemory>
        requires { IsReady program }
        ensures program { IfOk result (λ run. run.program ≡ program) }
        ensures machine { IfOk result (λ run. run.machine ≡ start_of program) }
        ensures ready { IfOk result (λ run. run.apart ≡ None) }
    {
        let guest = Guest::new(alloc, program)?;
        let machine = start(alloc, &guest)?;
        let mut living = Vec::new(alloc);
        make_place_for_thread(&mut living, 0)?;
        add_living(&mut living, machine.view().threads(), 0);
        let longest = longest_name(guest.program().listing.classes.as_slice());
        Ok(Interpreter {
            guest,
            machine,
            living,
            apart: None,
            rooms: Rooms::new(alloc),
            longest,
        })
    }
}

impl Execution for Interpreter {
    ghost use Rattle.std.specs.Prelude.{◌≡◌, None};
    ghost use Rattle.guest_step.specs.Rooms.{WaitsFor};

    ghost program = { λ run. run.program };

    ghost machine = { λ run. run.machine };

    ghost is_ready = { λ run. run.apart ≡ None };

    ghost is_prepared = { λ run number. WaitsFor run number };

    fn program(&self) -> &Program {
        self.guest.program()
    }

    fn next_enabled(&self, first: u32) -> Option<u32> {
        next_enabled(
            &self.guest,
            &self.machine.view(),
            self.living.as_slice(),
            first,
        )
    }

    fn ended(&self) -> Option<End> {
        end_among(&self.guest, &self.machine.view(), self.living.as_slice())
    }

    fn call_asked(&self, alloc: Global, thread: u32) -> Result<Option<ApiCall>, NoMemory> {
        call_asked(alloc, &self.guest, &self.machine.view(), thread)
    }

    fn go(&mut self, alloc: Global, thread: u32) -> Result<Option<Event>, NoMemory> {
        steps_add_one();
        let count = self.machine.view().threads().len();
        make_place_for_thread(&mut self.living, count)?;
        let next = Step {
            thread,
            choice: Choice::Plain,
        };
        match step(alloc, &self.guest, &mut self.machine, &next) {
            Ok(event) => {
                bring_up_to_date(&mut self.living, &self.machine.view(), thread, count);
                Ok(event)
            }
            Err(StepFault::Memory) => Err(NoMemory),
            Err(StepFault::NotEnabled) => unreachable!(),
        }
    }

    fn prepare(&mut self, alloc: Global, thread: u32) -> Result<(), NoMemory> {
        make_place_for_thread(&mut self.living, self.machine.view().threads().len())?;
        make_rooms(
            alloc,
            &self.guest,
            &self.machine.view(),
            thread,
            self.longest,
            &mut self.rooms,
        )?;
        let mut heap = take_objects(alloc, &mut self.machine);
        match make_place(&mut heap) {
            Ok(()) => {
                self.apart = Some(heap);
                Ok(())
            }
            Err(NoMemory) => {
                put_objects(&mut self.machine, heap);
                Err(NoMemory)
            }
        }
    }

    fn answer_fits(&self, thread: u32, answer: &ApiAnswer) -> bool {
        match &self.apart {
            Some(heap) => answer_fits_apart(
                &self.guest,
                &self.machine.view(),
                heap.as_slice(),
                thread,
                answer,
            ),
            None => unreachable!(),
        }
    }

    fn take(&mut self, alloc: Global, thread: u32, answer: &ApiAnswer) -> Option<Event> {
        steps_add_one();
        let Some(mut heap) = self.apart.take() else {
            unreachable!();
        };
        let count = self.machine.view().threads().len();
        let rooms = &mut self.rooms;
        let made = step_prepared(
            alloc,
            &self.guest,
            &mut self.machine,
            &mut heap,
            thread,
            answer,
            rooms,
        );
        put_objects(&mut self.machine, heap);
        match made {
            Ok(event) => {
                bring_up_to_date(&mut self.living, &self.machine.view(), thread, count);
                event
            }
            Err(_) => unreachable!(),
        }
    }

    fn release(&mut self, _thread: u32) {
        if let Some(heap) = self.apart.take() {
            put_objects(&mut self.machine, heap);
        }
    }
}
