//! The checks of blocks: the branches of a clause, each with its tests and updates.

ghost use Rattle.std.specs.Prelude.{◌≡◌, ◌+◌, ◌++◌, ◌∷◌, ◌<◌, ◌^◌, [], IfOk, OnOk, length};
ghost use Rattle.std.specs.List.{AllByRecursion};
ghost use Rattle.conspec_tree.specs.declared.types.Atom.{Atom};
ghost use Rattle.block_template.specs.Parts.{ask, asks, asks_size, branch_size, branches_size, check, tried};
ghost use Rattle.block_template.specs.Parts.{updates_size, write, writes};
ghost use Rattle.block_template.specs.Pushing.{bools_in};
ghost use Rattle.block_template.specs.Room.{HasLocal, HasLocals};

use crate::item::{Item, Role};
use crate::parts::{put, put_stop};
use crate::steps::{act_insn, ask_size, ask_steps, update_size, update_steps};
use conspec_automaton::{Branch, Clause};
use conspec_tree::{Atom, Phase, Update, Var};
use insn_codec::opcodes::GOTO;
use mon_base::{List, NoMemory};
use offset_patch::BlockInsn;
use std::alloc::Global;

/// Appends the check of a clause, which begins at `at`.
#[tactic(auto, using(crate::proofs::Sizes::branches_count))]
pub fn put_check(
    alloc: Global,
    items: &mut List<Item>,
    vars: &[Var],
    base: u16,
    at: u32,
    clause: &Clause,
) -> Result<(), NoMemory>
    requires short { at + branches_size clause.now.branches < 2 ^ 32 }
    requires locals { AllByRecursion (HasLocals base) clause.now.branches }
    ensures { OnOk result (items.new ≡ items.old ++ check (bools_in vars.now) base at clause.now) }
{
    let done = at + branches_size(alloc, clause.branches.as_slice())?;
    let mut branch = 0;
    let mut begin = at;
    let mut left = clause.branches.as_slice();
    while let [first, rest @ ..] = left {
        begin += branch_size(alloc, first)?;
        put_branch(
            alloc,
            items,
            vars,
            base,
            clause.phase,
            branch,
            begin,
            done,
            first,
        )?;
        branch += 1;
        left = rest;
    }
    put_stop(items, clause.phase)
}

/// Appends a branch, after which the next one begins at `next`. Where it is taken the check is left for `done`.
#[tactic(auto, using(crate::proofs::Sizes::asks_count, crate::proofs::Sizes::updates_count))]
fn put_branch(
    alloc: Global,
    items: &mut List<Item>,
    vars: &[Var],
    base: u16,
    phase: Phase,
    branch: u32,
    next: u32,
    done: u32,
    whole: &Branch,
) -> Result<(), NoMemory>
    requires short { branch_size whole.now < 2 ^ 32 }
    requires locals { HasLocals base whole.now }
    ensures { OnOk result (items.new ≡ items.old ++ tried (bools_in vars.now) base phase branch next done whole.now) }
{
    let atoms = whole.atoms.as_slice();
    put_asks(alloc, items, vars, base, phase, branch, next, atoms)?;
    put_writes(alloc, items, vars, phase, branch, whole.updates.as_slice())?;
    let leave = BlockInsn::Jump {
        op: GOTO,
        place: done,
    };
    put(items, leave, Role::Taken { phase, branch })
}

fn put_asks(
    alloc: Global,
    items: &mut List<Item>,
    vars: &[Var],
    base: u16,
    phase: Phase,
    branch: u32,
    next: u32,
    atoms: &[Atom],
) -> Result<(), NoMemory>
    requires few { length atoms.now < 2 ^ 32 }
    requires locals { AllByRecursion (λ (a : Atom). HasLocal base a.base) atoms.now }
    ensures { OnOk result (items.new ≡ items.old ++ asks (bools_in vars.now) base phase branch 0 next atoms.now) }
{
    let mut n = 0;
    let mut left = atoms;
    while let [atom, rest @ ..] = left {
        put_ask(alloc, items, vars, base, phase, branch, n, next, *atom)?;
        n += 1;
        left = rest;
    }
    Ok(())
}

/// The atom is compared; where it does not hold, the next branch is tried.
fn put_ask(
    alloc: Global,
    items: &mut List<Item>,
    vars: &[Var],
    base: u16,
    phase: Phase,
    branch: u32,
    atom: u32,
    next: u32,
    asked: Atom,
) -> Result<(), NoMemory>
    requires { HasLocal base asked.base }
    ensures { OnOk result (items.new ≡ items.old ++ ask (bools_in vars.now) base phase branch atom next asked) }
{
    let steps = ask_steps(alloc, asked)?;
    let mut done = 0;
    let mut left = steps.as_slice();
    while let [step, rest @ ..] = left {
        let role = Role::Ask {
            phase,
            branch,
            atom,
            done,
        };
        put(items, act_insn(vars, base, next, step.act), role)?;
        done += 1;
        left = rest;
    }
    Ok(())
}

fn put_writes(
    alloc: Global,
    items: &mut List<Item>,
    vars: &[Var],
    phase: Phase,
    branch: u32,
    updates: &[Update],
) -> Result<(), NoMemory>
    requires { length updates.now < 2 ^ 32 }
    ensures { OnOk result (items.new ≡ items.old ++ writes (bools_in vars.now) phase branch 0 updates.now) }
{
    let mut n = 0;
    let mut left = updates;
    while let [update, rest @ ..] = left {
        put_write(alloc, items, vars, phase, branch, n, *update)?;
        n += 1;
        left = rest;
    }
    Ok(())
}

/// A variable is set, or changed by a number.
#[tactic(auto, using(crate::proofs::StepsLaid::update_few, crate::proofs::StepsLaid::update_local))]
fn put_write(
    alloc: Global,
    items: &mut List<Item>,
    vars: &[Var],
    phase: Phase,
    branch: u32,
    update: u32,
    made: Update,
) -> Result<(), NoMemory>
    ensures { OnOk result (items.new ≡ items.old ++ write (bools_in vars.now) phase branch update made) }
{
    let steps = update_steps(alloc, made)?;
    let mut done = 0;
    let mut left = steps.as_slice();
    while let [step, rest @ ..] = left {
        let role = Role::Update {
            phase,
            branch,
            update,
            done,
        };
        put(items, act_insn(vars, 0, 0, step.act), role)?;
        done += 1;
        left = rest;
    }
    Ok(())
}

// ---- sizes

/// How many instructions stop the program.
const STOP_SIZE: u32 = 4;

/// How many instructions a check has.
pub fn branches_size(alloc: Global, branches: &[Branch]) -> Result<u32, NoMemory>
    requires { branches_size branches.now < 2 ^ 32 }
    ensures { IfOk result (λ size. size ≡ branches_size branches.now) }
{
    let mut size = 0;
    let mut left = branches;
    while let [branch, rest @ ..] = left {
        size += branch_size(alloc, branch)?;
        left = rest;
    }
    Ok(size + STOP_SIZE)
}

fn branch_size(alloc: Global, branch: &Branch) -> Result<u32, NoMemory>
    requires { branch_size branch.now < 2 ^ 32 }
    ensures { IfOk result (λ size. size ≡ branch_size branch.now) }
{
    let asks = asks_size(alloc, branch.atoms.as_slice())?;
    let updates = updates_size(alloc, branch.updates.as_slice())?;
    Ok(asks + updates + 1)
}

fn asks_size(alloc: Global, atoms: &[Atom]) -> Result<u32, NoMemory>
    requires { asks_size atoms.now < 2 ^ 32 }
    ensures { IfOk result (λ size. size ≡ asks_size atoms.now) }
{
    let mut size = 0;
    let mut left = atoms;
    while let [atom, rest @ ..] = left {
        size += ask_size(alloc, *atom)?;
        left = rest;
    }
    Ok(size)
}

fn updates_size(alloc: Global, updates: &[Update]) -> Result<u32, NoMemory>
    requires { updates_size updates.now < 2 ^ 32 }
    ensures { IfOk result (λ size. size ≡ updates_size updates.now) }
{
    let mut size = 0;
    let mut left = updates;
    while let [update, rest @ ..] = left {
        size += update_size(alloc, *update)?;
        left = rest;
    }
    Ok(size)
}
