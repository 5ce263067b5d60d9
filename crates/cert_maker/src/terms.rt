//! What stands on the stack in a check, and what the policy's variables are.

ghost use Rattle.std.specs.Prelude.{◌≡◌, ◌≤◌, ℕ, IfOk, length, map, take};
ghost use Rattle.std.specs.List.{AllByRecursion};
ghost use Rattle.conspec_tree.specs.Updates.{target};
ghost use Rattle.block_logic.specs.Terms.{after_updates, base_term, variable_after, written};
ghost use Rattle.block_template.specs.Steps.{ask_steps, update_steps};
ghost use Rattle.cert_maker.specs.Noting.{operand_term, terms_before};
ghost use Rattle.cert_maker.specs.Small.{IsSmallBase, IsSmallOperand, IsSmallUpdate};

use block_template::{Operand, ask_steps, stack_before, update_steps};
use cert_format::Term;
use conspec_automaton::Policy;
use conspec_tree::{Atom, Base, Update, target};
use mon_base::{List, NoMemory};
use std::alloc::Global;

/// What an atom compares.
fn base_term(base: Base) -> Term
    requires { IsSmallBase base }
    ensures { result ≡ base_term base }
{
    match base {
        Base::Var(var) => Term::Var(var as u8),
        Base::Arg(i) => Term::Arg(i as u8),
        Base::Result => Term::Result,
    }
}

/// What a note says of an operand.
fn operand_term(operand: Operand) -> Term
    requires { IsSmallOperand operand }
    ensures { result ≡ operand_term operand }
{
    match operand {
        Operand::Base(asked) => base_term(asked),
        Operand::Number(number) => Term::Const(number),
        Operand::Sum(var, by) => Term::VarAdd(var as u8, by),
    }
}

fn operand_terms(alloc: Global, operands: &[Operand]) -> Result<List<Term>, NoMemory>
    requires { AllByRecursion IsSmallOperand operands.now }
    ensures { IfOk result (λ terms. terms ≡ map operand_term operands.now) }
{
    let mut terms = List::with_room(alloc, operands.len())?;
    let mut left = operands;
    while let [operand, others @ ..] = left {
        terms.push(operand_term(*operand))?;
        left = others;
    }
    Ok(terms)
}

/// What stands on the stack where so many steps of an atom's comparison are done.
#[tactic(auto, using(crate::proofs::Small::ask_small))]
pub fn ask_terms(alloc: Global, atom: Atom, done: u32) -> Result<List<Term>, NoMemory>
    requires { IsSmallBase atom.base }
    ensures { IfOk result (λ terms. terms ≡ terms_before (ask_steps atom) done) }
{
    let steps = ask_steps(alloc, atom)?;
    operand_terms(alloc, stack_before(steps.as_slice(), done))
}

/// What stands on the stack where so many steps of an update are done.
#[tactic(auto, using(crate::proofs::Small::update_small))]
pub fn update_terms(alloc: Global, update: Update, done: u32) -> Result<List<Term>, NoMemory>
    requires { IsSmallUpdate update }
    ensures { IfOk result (λ terms. terms ≡ terms_before (update_steps update) done) }
{
    let steps = update_steps(alloc, update)?;
    operand_terms(alloc, stack_before(steps.as_slice(), done))
}

/// What the policy's variables are once these updates are made.
pub fn after_updates(
    alloc: Global,
    policy: &Policy,
    updates: &[Update],
) -> Result<List<Term>, NoMemory>
    requires { length policy.now.vars ≤ 16 }
    ensures { IfOk result (λ terms. terms ≡ after_updates policy.now updates.now) }
{
    let mut terms = List::with_room(alloc, policy.vars.len())?;
    let mut var: u8 = 0;
    let mut left = policy.vars.as_slice();
    while let [_, others @ ..] = left {
        terms.push(variable_after(updates, var))?;
        var += 1;
        left = others;
    }
    Ok(terms)
}

/// What a variable is once these updates are made.
fn variable_after(updates: &[Update], var: u8) -> Term
    ensures { result ≡ variable_after updates.now var }
{
    let mut left = updates;
    while let [update, later @ ..] = left {
        if target(*update) == u32::from(var) {
            return written(*update, var);
        }
        left = later;
    }
    Term::Var(var)
}

/// What an update of this variable writes.
fn written(update: Update, var: u8) -> Term
    requires { target update ≡ var }
    ensures { result ≡ written update }
{
    match update {
        Update::Set { value, .. } => Term::Const(value),
        Update::Add { by, .. } => Term::VarAdd(var, by),
    }
}

/// The first so many of these updates.
pub fn first_updates(updates: &[Update], count: usize) -> &[Update]
    ensures { result.now ≡ take count updates.now }
{
    if count < updates.len() {
        &updates[..count]
    } else {
        updates
    }
}
