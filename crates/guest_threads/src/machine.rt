//! Machines as steps are made of them.

ghost use Rattle.std.specs.Prelude.{◌≡◌};

use crate::monitors::{Monitors, MonitorsView};
use guest_heap::{Object, Thread, Value};
use guest_model::Machine;
use mon_base::List;
use std::alloc::Global;
use std::marker::Model;

/// A machine whose monitors may be found without a search. A contract sees the machine.
#[derive(Drop)]
pub struct RunningMachine {
    pub heap: List<Object>,
    pub statics: List<List<Value>>,
    pub monitors: Monitors,
    pub threads: List<Thread>,
    pub stopped: Option<i32>,
}

impl Model for RunningMachine {
    ghost use Rattle.guest_model.specs.declared.machine.Machine.{Machine};

    ghost Value = { Machine };

    ghost view = { λ m. record {
      heap = m.heap;
      statics = m.statics;
      monitors = m.monitors;
      threads = m.threads;
      stopped = m.stopped;
    } };
}

/// A machine, to be asked. A contract sees the machine.
#[derive(Drop)]
pub struct MachineView<'a> {
    heap: &'a List<Object>,
    statics: &'a List<List<Value>>,
    monitors: MonitorsView<'a>,
    threads: &'a List<Thread>,
    stopped: Option<i32>,
}

impl<'a> Model for MachineView<'a> {
    ghost use Rattle.guest_model.specs.declared.machine.Machine.{Machine};

    ghost Value = { Machine };

    ghost view = { λ m. record {
      heap = m.heap.now;
      statics = m.statics.now;
      monitors = m.monitors;
      threads = m.threads.now;
      stopped = m.stopped;
    } };
}

impl RunningMachine {
    /// Takes the machine, whose place is left without anything. It takes no memory.
    pub fn taken(alloc: Global, machine: &mut Machine) -> RunningMachine
        ensures { result ≡ machine.old }
    {
        let monitors = std::mem::replace(&mut machine.monitors, List::new(alloc));
        RunningMachine {
            heap: std::mem::replace(&mut machine.heap, List::new(alloc)),
            statics: std::mem::replace(&mut machine.statics, List::new(alloc)),
            monitors: Monitors::from_list(monitors),
            threads: std::mem::replace(&mut machine.threads, List::new(alloc)),
            stopped: machine.stopped,
        }
    }

    /// The machine.
    pub fn into_machine(self) -> Machine
        ensures { result ≡ self }
    {
        let RunningMachine {
            heap,
            statics,
            monitors,
            threads,
            stopped,
        } = self;
        Machine {
            heap,
            statics,
            monitors: monitors.into_list(),
            threads,
            stopped,
        }
    }

    /// The machine, to be asked.
    pub fn view(&self) -> MachineView<'_>
        ensures { result ≡ self.now }
    {
        MachineView {
            heap: &self.heap,
            statics: &self.statics,
            monitors: self.monitors.view(),
            threads: &self.threads,
            stopped: self.stopped,
        }
    }
}

impl<'a> MachineView<'a> {
    /// The machine, whose monitors are gone through for each that is sought.
    pub fn of(machine: &'a Machine) -> MachineView<'a>
        ensures { result ≡ machine.now }
    {
        MachineView {
            heap: &machine.heap,
            statics: &machine.statics,
            monitors: MonitorsView::of_list(&machine.monitors),
            threads: &machine.threads,
            stopped: machine.stopped,
        }
    }

    /// The objects.
    pub fn heap(&self) -> &'a List<Object>
        ensures { result.now ≡ self.now.heap }
    {
        self.heap
    }

    /// The threads.
    pub fn threads(&self) -> &'a [Thread]
        ensures { result.now ≡ self.now.threads }
    {
        self.threads.as_slice()
    }

    /// The monitors that are held.
    pub fn monitors(&self) -> &MonitorsView<'a>
        ensures { result.now ≡ self.now.monitors }
    {
        &self.monitors
    }

    /// What the program was stopped with.
    pub fn stopped(&self) -> Option<i32>
        ensures { result ≡ self.now.stopped }
    {
        self.stopped
    }
}
