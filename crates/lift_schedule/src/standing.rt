//! How the instructions of woven code stand to the calls of their blocks.

ghost use Rattle.std.specs.Prelude.{◌≡◌, ◌≤◌, ◌<◌, ◌+◌, ◌^◌, ◌++◌, ℕ, true, length, map, option_copied, IfOk, OnOk};
ghost use Rattle.std.specs.List.{AllByRecursion};
ghost use Rattle.bytecode_model.specs.declared.program.LinkedClass.{LinkedClass};
ghost use Rattle.bytecode_model.specs.declared.program.Method.{Method};
ghost use Rattle.class_weaving.specs.Woven.{AllLocalsFit, LocalsFit, plan_sites};
ghost use Rattle.guest_erasing.specs.Lifting.{frame_run_by};
ghost use Rattle.offset_patch.specs.Splicing.{call_place, is_call, part_of};
ghost use Rattle.lift_schedule.specs.Standing.{
  part_standings,
  standings,
  table_goes,
  TellsBlocks,
  class_standings,
  frame_standing,
  method_standings,
  table_of,
  tells,
  thread_count,
  thread_standing,
};

use bytecode_model::{LinkedClass, Method, Program, Target};
use guest_heap::{Doing, Frame};
use guest_model::Machine;
use mon_base::{List, NoMemory};
use offset_patch::{BlockInsn, Planner};
use std::alloc::Global;
use std::marker::Model;

/// How an instruction of woven code stands to its block.
#[derive(Clone, Copy)]
pub struct Standing {
    /// It is of a block, and before its call.
    pub before_call: bool,
    /// It is of a block, and not its first.
    pub inside: bool,
}

/// Which way a thread goes in a block.
#[derive(Clone, Copy)]
pub enum Way {
    /// Up to the call.
    Up,
    /// Out of the block.
    Out,
}

/// The standings of the instructions of each method of each class.
#[derive(Drop)]
pub struct Standings {
    classes: List<List<List<Standing>>>,
}

impl Model for Standings {
    ghost use Rattle.lift_schedule.specs.Standing.{Table};

    ghost Value = { Table };

    ghost view = { λ s. s.classes };
}

impl Standings {
    /// Those of what the plan makes of the program.
    pub fn new<P: Planner>(
        alloc: Global,
        planner: &P,
        client: &Program,
    ) -> Result<Standings, NoMemory>
        requires blocks { TellsBlocks (P.plan planner.now) }
        requires locals { AllLocalsFit (P.plan planner.now) client.now }
        ensures { IfOk result (λ table. table ≡ table_of (plan_sites (P.plan planner.now)) client.now) }
    {
        let classes = of_classes(alloc, planner, client.classes.as_slice())?;
        Ok(Standings { classes })
    }

    /// Whether the thread of this number has still to go this way. It takes no memory.
    pub fn goes(&self, way: Way, machine: &Machine, number: u32) -> bool
        ensures { result ≡ table_goes way self.now machine.now number }
    {
        let Some(frame) = frame_run_by(machine, number) else {
            return false;
        };
        match self.standing(frame) {
            Some(standing) => tells(way, standing),
            None => false,
        }
    }

    /// How many instructions the method has that the thread of this number runs. It takes no memory.
    pub fn count(&self, machine: &Machine, number: u32) -> usize
        ensures { result ≡ thread_count self.now machine.now number }
    {
        let Some(frame) = frame_run_by(machine, number) else {
            return 0;
        };
        match self.of_method(frame) {
            Some(standings) => standings.len(),
            None => 0,
        }
    }

    fn standing(&self, frame: &Frame) -> Option<Standing>
        ensures { result ≡ frame_standing self.now frame.now }
    {
        let standings = self.of_method(frame)?;
        standings.get(frame.at as usize).copied()
    }

    fn of_method(&self, frame: &Frame) -> Option<&[Standing]>
        ensures { option_copied result ≡ method_standings self.now frame.now }
    {
        let methods = self.classes.as_slice().get(frame.class as usize)?;
        let standings = methods.as_slice().get(frame.method as usize)?;
        Some(standings.as_slice())
    }
}

/// The frame that the thread of this number runs; one that waits for an answer, or has ended, runs none.
fn frame_run_by(machine: &Machine, number: u32) -> Option<&Frame>
    ensures { option_copied result ≡ frame_run_by machine.now number }
{
    let thread = machine.threads.as_slice().get(number as usize)?;
    match &thread.doing {
        Doing::Running => thread.frames.top(),
        Doing::InCall { .. } => None,
        Doing::Ended => None,
    }
}

fn tells(way: Way, standing: Standing) -> bool
    ensures { result ≡ tells way standing }
{
    match way {
        Way::Up => standing.before_call,
        Way::Out => standing.inside,
    }
}

/// The standings of the methods of these classes.
fn of_classes<P: Planner>(
    alloc: Global,
    planner: &P,
    classes: &[LinkedClass],
) -> Result<List<List<List<Standing>>>, NoMemory>
    requires blocks { TellsBlocks (P.plan planner.now) }
    requires locals { AllByRecursion (λ (c : LinkedClass). AllByRecursion (LocalsFit (P.plan planner.now)) c.methods) classes.now }
    ensures { IfOk result (λ told. told ≡ map (class_standings (plan_sites (P.plan planner.now))) classes.now) }
{
    let mut told = List::new(alloc);
    let mut left = classes;
    while let [class, rest @ ..] = left {
        told.push(of_class(alloc, planner, class)?)?;
        left = rest;
    }
    Ok(told)
}

/// The standings of the methods of a class.
fn of_class<P: Planner>(
    alloc: Global,
    planner: &P,
    class: &LinkedClass,
) -> Result<List<List<Standing>>, NoMemory>
    requires blocks { TellsBlocks (P.plan planner.now) }
    requires locals { AllByRecursion (LocalsFit (P.plan planner.now)) class.now.methods }
    ensures { IfOk result (λ told. told ≡ class_standings (plan_sites (P.plan planner.now)) class.now) }
{
    let mut methods = List::new(alloc);
    let mut left = class.methods.as_slice();
    while let [method, rest @ ..] = left {
        methods.push(of_method(alloc, planner, method)?)?;
        left = rest;
    }
    Ok(methods)
}

/// The standings of the instructions of a method.
fn of_method<P: Planner>(
    alloc: Global,
    planner: &P,
    method: &Method,
) -> Result<List<Standing>, NoMemory>
    requires blocks { TellsBlocks (P.plan planner.now) }
    requires locals { LocalsFit (P.plan planner.now) method.now }
    ensures { IfOk result (λ told. told ≡ standings (plan_sites (P.plan planner.now) method.now)) }
{
    let mut told = List::new(alloc);
    let mut left = method.refs.as_slice();
    while let [target, rest @ ..] = left {
        push_site(alloc, planner, method.max_locals, target, &mut told)?;
        left = rest;
    }
    Ok(told)
}

/// Appends the standings of the instructions that stand for one of the client.
fn push_site<P: Planner>(
    alloc: Global,
    planner: &P,
    base: u16,
    target: &Target,
    told: &mut List<Standing>,
) -> Result<(), NoMemory>
    requires blocks { TellsBlocks (P.plan planner.now) }
    requires locals { (P.plan planner.now).has_block target.now ≡ true → base + (P.plan planner.now).locals target.now < 2 ^ 16 }
    ensures { OnOk result (told.new
        ≡ told.old ++ part_standings (part_of ((P.plan planner.now).block base target.now))) }
{
    if planner.has_block(target) {
        if let Some(block) = planner.block(alloc, base, target)? {
            return push_part(told, block.insns.as_slice());
        }
    }
    push_part(told, &[BlockInsn::Call])
}

fn push_part(told: &mut List<Standing>, part: &[BlockInsn]) -> Result<(), NoMemory>
    ensures { OnOk result (told.new ≡ told.old ++ part_standings part.now) }
{
    let call = call_place(part);
    let mut place = 0usize;
    let mut left = part;
    while let [_, rest @ ..] = left {
        told.push(Standing {
            before_call: place < call,
            inside: place != 0,
        })?;
        place += 1;
        left = rest;
    }
    Ok(())
}

/// Where the call stands in the part.
fn call_place(part: &[BlockInsn]) -> usize
    ensures { result ≡ call_place part.now }
{
    let mut place = 0usize;
    let mut left = part;
    while let [insn, rest @ ..] = left {
        if is_call(insn) {
            return place;
        }
        place += 1;
        left = rest;
    }
    place
}

fn is_call(insn: &BlockInsn) -> bool
    ensures { result ≡ is_call insn.now }
{
    match insn {
        BlockInsn::Call => true,
        _ => false,
    }
}
