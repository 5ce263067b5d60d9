//! The automaton of a policy, out of its tree.

ghost use Rattle.std.specs.Prelude.{◌≡◌, ◌++◌, map, length, IfOk, OnOk};
ghost use Rattle.conspec_automaton.specs.Building.{
  atoms_of,
  branch_of,
  branches_of,
  built,
  clause_built,
  compared,
  guard_branches,
  range_atoms,
};
ghost use Rattle.conspec_automaton.specs.Sound.{IsPolicy, NamesMethods};
ghost use Rattle.conspec_tree.specs.Tree.{IsPolicyTree};
ghost use Rattle.api_listing.specs.declared.types.Listing.{Listing};

use crate::policy::{Branch, Clause, Policy};
use conspec_tree::{Atom, Base, Guard, PolicyTree, Rel, TreeClause, Update, Var};
use mon_base::{List, NoMemory};
use std::alloc::Global;

/// The automaton of a policy.
pub fn build(alloc: Global, tree: &PolicyTree) -> Result<Policy, NoMemory>
    ensures is { IfOk result (λ policy. policy ≡ built tree.now) }
    // That of a tree that is read keeps the limits and ranges, its atoms ask numbers, and its methods are in the listing.
    ensures sound { IfOk result (λ policy. (listing : Listing) → IsPolicyTree listing tree.now
        → IsPolicy policy × NamesMethods (length listing.methods) policy) }
{
    let policy = built(alloc, tree)?;
    Ok(policy)
}

fn built(alloc: Global, tree: &PolicyTree) -> Result<Policy, NoMemory>
    ensures { IfOk result (λ policy. policy ≡ built tree.now) }
{
    Ok(Policy {
        maxint: tree.maxint,
        vars: copy_vars(alloc, tree.vars.as_slice())?,
        clauses: clauses_built(alloc, tree.maxint, tree.clauses.as_slice())?,
    })
}

fn copy_vars(alloc: Global, vars: &[Var]) -> Result<List<Var>, NoMemory>
    ensures { IfOk result (λ copy. copy ≡ vars.now) }
{
    let mut copy = List::new(alloc);
    for var in vars {
        copy.push(Var {
            name: var.name.copy(alloc)?,
            is_bool: var.is_bool,
            first: var.first,
        })?;
    }
    Ok(copy)
}

fn clauses_built(
    alloc: Global,
    maxint: i32,
    clauses: &[TreeClause],
) -> Result<List<Clause>, NoMemory>
    ensures { IfOk result (λ built. built ≡ map (clause_built maxint) clauses.now) }
{
    let mut built = List::new(alloc);
    for clause in clauses {
        let clause = clause_built(alloc, maxint, clause)?;
        built.push(clause)?;
    }
    Ok(built)
}

fn clause_built(alloc: Global, maxint: i32, clause: &TreeClause) -> Result<Clause, NoMemory>
    ensures { IfOk result (λ built. built ≡ clause_built maxint clause.now) }
{
    Ok(Clause {
        method: clause.method,
        phase: clause.phase,
        args: List::from_vec(Vec::from_slice(alloc, clause.args.as_slice())?),
        result: clause.result,
        branches: branches_of(alloc, maxint, clause.guards.as_slice())?,
    })
}

fn branches_of(alloc: Global, maxint: i32, guards: &[Guard]) -> Result<List<Branch>, NoMemory>
    ensures { IfOk result (λ branches. branches ≡ branches_of maxint guards.now) }
{
    let mut branches = List::new(alloc);
    for guard in guards {
        add_branches(alloc, maxint, guard, &mut branches)?;
    }
    Ok(branches)
}

/// A branch more for each list of atoms of the guard.
fn add_branches(
    alloc: Global,
    maxint: i32,
    guard: &Guard,
    branches: &mut List<Branch>,
) -> Result<(), NoMemory>
    ensures { OnOk result (branches.new ≡ branches.old ++ guard_branches maxint guard.now) }
{
    for atoms in guard.conjs.as_slice() {
        let branch = branch_of(alloc, maxint, atoms.as_slice(), guard.updates.as_slice())?;
        branches.push(branch)?;
    }
    Ok(())
}

fn branch_of(
    alloc: Global,
    maxint: i32,
    atoms: &[Atom],
    updates: &[Update],
) -> Result<Branch, NoMemory>
    ensures { IfOk result (λ branch. branch ≡ branch_of maxint updates.now atoms.now) }
{
    Ok(Branch {
        atoms: atoms_of(alloc, maxint, atoms, updates)?,
        updates: List::from_vec(Vec::from_slice(alloc, updates)?),
    })
}

/// The atoms, and after them those that keep the updates in range.
fn atoms_of(
    alloc: Global,
    maxint: i32,
    atoms: &[Atom],
    updates: &[Update],
) -> Result<List<Atom>, NoMemory>
    ensures { IfOk result (λ all. all ≡ atoms_of maxint updates.now atoms.now) }
{
    let copy = Vec::from_slice(alloc, atoms)?;
    let mut all = List::from_vec(copy);
    for update in updates {
        add_range_atom(maxint, *update, &mut all)?;
    }
    Ok(all)
}

/// The atom that keeps an update in range, where it needs one.
fn add_range_atom(maxint: i32, update: Update, atoms: &mut List<Atom>) -> Result<(), NoMemory>
    ensures { OnOk result (atoms.new ≡ atoms.old ++ range_atoms maxint update) }
{
    match update {
        Update::Set { .. } => Ok(()),
        Update::Add { var, by } => {
            if by > 0 {
                atoms.push(compared(var, Rel::Le, maxint.wrapping_sub(by)))
            } else if by < 0 {
                atoms.push(compared(var, Rel::Ge, by.wrapping_neg()))
            } else {
                Ok(())
            }
        }
    }
}

fn compared(var: u32, rel: Rel, value: i32) -> Atom
    ensures { result ≡ compared var rel value }
{
    Atom {
        base: Base::Var(var),
        rel,
        value,
    }
}
