//! What comparisons and updates do, step by step. Sizes, instructions, types and notes are all told of these steps.

ghost use Rattle.std.specs.Prelude.{◌≡◌, IfOk, length};
ghost use Rattle.conspec_tree.specs.declared.types.Update.TheVariants.{Add, Set};
ghost use Rattle.block_template.specs.Flow.{asking, updating};
ghost use Rattle.block_template.specs.Pushing.{bools_in};
ghost use Rattle.block_template.specs.Room.{ActHasLocal};
ghost use Rattle.block_template.specs.Steps.{act_insn, ask_size, ask_steps, stack_before, step, update_size, update_steps};

use crate::clauses::{MethodClauses, branch_at};
use crate::pushing::{field, negated, push, push_base};
use conspec_tree::{Atom, Base, Phase, Rel, Update, Var};
use insn_codec::opcodes::{IADD, PUTSTATIC};
use mon_base::{List, NoMemory};
use offset_patch::BlockInsn;
use std::alloc::Global;

/// What an instruction of a comparison or an update does.
#[derive(Clone, Copy)]
pub enum Act {
    /// It pushes what an atom compares, or a variable that is changed.
    PushBase(Base),
    /// It pushes a number.
    PushNumber(i32),
    /// It takes two numbers, and jumps where the relation does not hold.
    JumpUnless(Rel),
    /// It takes two numbers and pushes their sum.
    AddNumbers,
    /// It takes a number and writes it to the variable of this number.
    WriteVar(u32),
}

/// A value that a comparison or an update has pushed.
#[derive(Clone, Copy)]
pub enum Operand {
    /// What an atom compares, or a variable that is changed.
    Base(Base),
    /// A number.
    Number(i32),
    /// The variable of this number and the addend.
    Sum(u32, i32),
}

/// A step of a comparison or an update: an instruction, and what it finds on the operand stack of what was pushed, the last on top.
#[derive(Drop)]
pub struct Step {
    pub act: Act,
    pub stack: List<Operand>,
}

fn made_step(alloc: Global, act: Act, stack: &[Operand]) -> Result<Step, NoMemory>
    ensures { IfOk result (λ made. made ≡ step act stack.now) }
{
    let stack = List::from_vec(Vec::from_slice(alloc, stack)?);
    Ok(Step { act, stack })
}

/// The steps of an atom's comparison.
pub fn ask_steps(alloc: Global, atom: Atom) -> Result<List<Step>, NoMemory>
    ensures { IfOk result (λ steps. steps ≡ ask_steps atom) }
{
    let base = Operand::Base(atom.base);
    let number = Operand::Number(atom.value);
    let mut steps = List::new(alloc);
    steps.push(made_step(alloc, Act::PushBase(atom.base), &[])?)?;
    steps.push(made_step(alloc, Act::PushNumber(atom.value), &[base])?)?;
    steps.push(made_step(alloc, Act::JumpUnless(atom.rel), &[base, number])?)?;
    Ok(steps)
}

/// The steps of an update.
pub fn update_steps(alloc: Global, update: Update) -> Result<List<Step>, NoMemory>
    ensures { IfOk result (λ steps. steps ≡ update_steps update) }
{
    match update {
        Update::Set { var, value } => set_steps(alloc, var, value),
        Update::Add { var, by } => add_steps(alloc, var, by),
    }
}

fn set_steps(alloc: Global, var: u32, value: i32) -> Result<List<Step>, NoMemory>
    ensures { IfOk result (λ steps. steps ≡ update_steps (Set var value)) }
{
    let number = Operand::Number(value);
    let mut steps = List::new(alloc);
    steps.push(made_step(alloc, Act::PushNumber(value), &[])?)?;
    steps.push(made_step(alloc, Act::WriteVar(var), &[number])?)?;
    Ok(steps)
}

fn add_steps(alloc: Global, var: u32, by: i32) -> Result<List<Step>, NoMemory>
    ensures { IfOk result (λ steps. steps ≡ update_steps (Add var by)) }
{
    let base = Operand::Base(Base::Var(var));
    let number = Operand::Number(by);
    let sum = Operand::Sum(var, by);
    let mut steps = List::new(alloc);
    steps.push(made_step(alloc, Act::PushBase(Base::Var(var)), &[])?)?;
    steps.push(made_step(alloc, Act::PushNumber(by), &[base])?)?;
    steps.push(made_step(alloc, Act::AddNumbers, &[base, number])?)?;
    steps.push(made_step(alloc, Act::WriteVar(var), &[sum])?)?;
    Ok(steps)
}

/// The steps of the atom that a role names.
pub fn asking(
    alloc: Global,
    clauses: &MethodClauses<'_>,
    phase: Phase,
    branch: u32,
    atom: u32,
) -> Result<List<Step>, NoMemory>
    ensures { IfOk result (λ steps. steps ≡ asking clauses.now phase branch atom) }
{
    let Some(of) = branch_at(clauses, phase, branch) else {
        return Ok(List::new(alloc));
    };
    match of.atoms.as_slice().get(atom as usize) {
        Some(asked) => ask_steps(alloc, *asked),
        None => Ok(List::new(alloc)),
    }
}

/// The steps of the update that a role names.
pub fn updating(
    alloc: Global,
    clauses: &MethodClauses<'_>,
    phase: Phase,
    branch: u32,
    update: u32,
) -> Result<List<Step>, NoMemory>
    ensures { IfOk result (λ steps. steps ≡ updating clauses.now phase branch update) }
{
    let Some(of) = branch_at(clauses, phase, branch) else {
        return Ok(List::new(alloc));
    };
    match of.updates.as_slice().get(update as usize) {
        Some(made) => update_steps(alloc, *made),
        None => Ok(List::new(alloc)),
    }
}

/// How many steps the comparison of an atom has.
pub fn ask_size(alloc: Global, atom: Atom) -> Result<u32, NoMemory>
    ensures { IfOk result (λ size. size ≡ ask_size atom) }
{
    Ok(ask_steps(alloc, atom)?.len() as u32)
}

/// How many steps an update has.
#[tactic(auto, using(crate::proofs::StepsLaid::update_few))]
pub fn update_size(alloc: Global, update: Update) -> Result<u32, NoMemory>
    ensures { IfOk result (λ size. size ≡ update_size update) }
{
    Ok(update_steps(alloc, update)?.len() as u32)
}

/// The instruction of a step. Arguments stand in locals from `base` on, and a jump goes to the place `to`.
pub fn act_insn(vars: &[Var], base: u16, to: u32, act: Act) -> BlockInsn
    requires { ActHasLocal base act }
    ensures { result ≡ act_insn (bools_in vars.now) base to act }
{
    match act {
        Act::PushBase(asked) => push_base(vars, base, asked),
        Act::PushNumber(number) => push(number),
        Act::JumpUnless(rel) => BlockInsn::Jump {
            op: negated(rel),
            place: to,
        },
        Act::AddNumbers => BlockInsn::Plain(IADD),
        Act::WriteVar(var) => BlockInsn::Want {
            op: PUTSTATIC,
            want: field(vars, var),
        },
    }
}

/// What stands on the stack before the step of this number.
pub fn stack_before(steps: &[Step], done: u32) -> &[Operand]
    ensures { result.now ≡ stack_before steps.now done }
{
    match steps.get(done as usize) {
        Some(step) => step.stack.as_slice(),
        None => &[],
    }
}
