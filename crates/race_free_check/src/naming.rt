//! What clauses name: constants, values, addends.

ghost use Rattle.std.specs.Prelude.{◌≡◌, ◌==◌, ◌^◌, ◌++◌, ◌∷◌, [], OnOk};
ghost use Rattle.std.specs.List.{cons_option, filter_map, list_any};
ghost use Rattle.conspec_tree.specs.declared.types.Atom.{Atom};
ghost use Rattle.conspec_tree.specs.declared.types.Base.TheVariants as bases;
ghost use Rattle.conspec_tree.specs.declared.types.Update.{Update};
ghost use Rattle.conspec_tree.specs.Updates.{target};
ghost use Rattle.conspec_automaton.specs.Points.{
  added_to,
  assigned_to,
  atoms_in,
  compared_with,
  constants_of,
  is_named,
  is_same,
  updates_in,
};
ghost use Rattle.race_free_check.specs.Small.{AreSmall};

use crate::clauses::Clauses;
use conspec_automaton::Clause;
use conspec_tree::{Atom, Base, Update, target};
use mon_base::NoMemory;

/// Whether an atom or an update of the clauses names the variable.
pub fn is_named(clauses: &Clauses, var: u32) -> bool
    ensures { result ≡ is_named var clauses.now }
{
    let first = clauses.first;
    let Some(second) = clauses.second else {
        return is_asked(first, var) || is_changed(first, var);
    };
    is_asked(first, var)
        || is_asked(second, var)
        || is_changed(first, var)
        || is_changed(second, var)
}

/// Whether an atom of the clause asks for the variable.
pub fn is_asked(clause: &Clause, var: u32) -> bool
    ensures { result ≡ list_any (λ (a : Atom). is_same (bases.Var var) a.base) (atoms_in (clause.now ∷ [])) }
{
    let mut left = clause.branches.as_slice();
    while let [branch, rest @ ..] = left {
        if any_asks(branch.atoms.as_slice(), var) {
            return true;
        }
        left = rest;
    }
    false
}

fn any_asks(atoms: &[Atom], var: u32) -> bool
    ensures { result ≡ list_any (λ (a : Atom). is_same (bases.Var var) a.base) atoms.now }
{
    atoms.iter().any(|atom| is_same(Base::Var(var), atom.base))
}

/// Whether an update of the clause is of the variable.
pub fn is_changed(clause: &Clause, var: u32) -> bool
    ensures { result ≡ list_any (λ (u : Update). target u == var) (updates_in (clause.now ∷ [])) }
{
    let mut left = clause.branches.as_slice();
    while let [branch, rest @ ..] = left {
        if any_changes(branch.updates.as_slice(), var) {
            return true;
        }
        left = rest;
    }
    false
}

fn any_changes(updates: &[Update], var: u32) -> bool
    ensures { result ≡ list_any (λ (u : Update). target u == var) updates.now }
{
    updates.iter().any(|update| target(*update) == var)
}

/// Whether the bases are the same.
pub fn is_same(base: Base, other: Base) -> bool
    ensures { result ≡ is_same base other }
{
    match (base, other) {
        (Base::Var(i), Base::Var(j)) => i == j,
        (Base::Arg(i), Base::Arg(j)) => i == j,
        (Base::Result, Base::Result) => true,
        _ => false,
    }
}

/// Adds the numbers that atoms of the clauses compare the base with.
pub fn add_all_constants(
    numbers: &mut Vec<i64>,
    clauses: &Clauses,
    base: Base,
) -> Result<(), NoMemory>
    requires { AreSmall (2 ^ 31) numbers.old.items }
    ensures adds { OnOk result (numbers.new.items ≡ numbers.old.items ++ constants_of base clauses.now) }
    ensures small { OnOk result (AreSmall (2 ^ 31) numbers.new.items) }
{
    add_constants(numbers, clauses.first, base)?;
    match clauses.second {
        Some(second) => add_constants(numbers, second, base),
        None => Ok(()),
    }
}

/// Adds the numbers that atoms of the clause compare the base with.
pub fn add_constants(numbers: &mut Vec<i64>, clause: &Clause, base: Base) -> Result<(), NoMemory>
    requires { AreSmall (2 ^ 31) numbers.old.items }
    ensures adds { OnOk result (numbers.new.items ≡ numbers.old.items ++ constants_of base (clause.now ∷ [])) }
    ensures small { OnOk result (AreSmall (2 ^ 31) numbers.new.items) }
{
    for branch in clause.branches.as_slice() {
        add_compared(numbers, branch.atoms.as_slice(), base)?;
    }
    Ok(())
}

fn add_compared(numbers: &mut Vec<i64>, atoms: &[Atom], base: Base) -> Result<(), NoMemory>
    requires { AreSmall (2 ^ 31) numbers.old.items }
    ensures adds { OnOk result (numbers.new.items ≡ numbers.old.items ++ filter_map (compared_with base) atoms.now) }
    ensures small { OnOk result (AreSmall (2 ^ 31) numbers.new.items) }
{
    for atom in atoms {
        let number = compared_with(base, *atom);
        add_some(numbers, number)?;
    }
    Ok(())
}

/// Adds the number, if there is one.
fn add_some(numbers: &mut Vec<i64>, number: Option<i32>) -> Result<(), NoMemory>
    requires { AreSmall (2 ^ 31) numbers.old.items }
    ensures adds { OnOk result (numbers.new.items ≡ numbers.old.items ++ cons_option number []) }
    ensures small { OnOk result (AreSmall (2 ^ 31) numbers.new.items) }
{
    if let Some(n) = number {
        numbers.push(i64::from(n))?;
    }
    Ok(())
}

fn compared_with(base: Base, atom: Atom) -> Option<i32>
    ensures { result ≡ compared_with base atom }
{
    if !is_same(base, atom.base) {
        return None;
    }
    Some(atom.value)
}

/// Adds the numbers that the clauses set the variable to.
pub fn add_all_assigned(numbers: &mut Vec<i64>, clauses: &Clauses, var: u32) -> Result<(), NoMemory>
    requires { AreSmall (2 ^ 31) numbers.old.items }
    ensures adds { OnOk result (numbers.new.items ≡ numbers.old.items ++ filter_map (assigned_to var) (updates_in clauses.now)) }
    ensures small { OnOk result (AreSmall (2 ^ 31) numbers.new.items) }
{
    add_assigned(numbers, clauses.first, var)?;
    match clauses.second {
        Some(second) => add_assigned(numbers, second, var),
        None => Ok(()),
    }
}

/// Adds the numbers that the clause sets the variable to.
fn add_assigned(numbers: &mut Vec<i64>, clause: &Clause, var: u32) -> Result<(), NoMemory>
    requires { AreSmall (2 ^ 31) numbers.old.items }
    ensures adds { OnOk result (numbers.new.items ≡ numbers.old.items ++ filter_map (assigned_to var) (updates_in (clause.now ∷ []))) }
    ensures small { OnOk result (AreSmall (2 ^ 31) numbers.new.items) }
{
    for branch in clause.branches.as_slice() {
        add_each_assigned(numbers, branch.updates.as_slice(), var)?;
    }
    Ok(())
}

fn add_each_assigned(numbers: &mut Vec<i64>, updates: &[Update], var: u32) -> Result<(), NoMemory>
    requires { AreSmall (2 ^ 31) numbers.old.items }
    ensures adds { OnOk result (numbers.new.items ≡ numbers.old.items ++ filter_map (assigned_to var) updates.now) }
    ensures small { OnOk result (AreSmall (2 ^ 31) numbers.new.items) }
{
    for update in updates {
        let number = assigned_to(var, *update);
        add_some(numbers, number)?;
    }
    Ok(())
}

fn assigned_to(var: u32, update: Update) -> Option<i32>
    ensures { result ≡ assigned_to var update }
{
    let Update::Set { var: i, value } = update else {
        return None;
    };
    if i != var {
        return None;
    }
    Some(value)
}

/// Adds the numbers that the clauses add to the variable.
pub fn add_all_addends(numbers: &mut Vec<i64>, clauses: &Clauses, var: u32) -> Result<(), NoMemory>
    requires { AreSmall (2 ^ 31) numbers.old.items }
    ensures adds { OnOk result (numbers.new.items ≡ numbers.old.items ++ filter_map (added_to var) (updates_in clauses.now)) }
    ensures small { OnOk result (AreSmall (2 ^ 31) numbers.new.items) }
{
    add_addends(numbers, clauses.first, var)?;
    match clauses.second {
        Some(second) => add_addends(numbers, second, var),
        None => Ok(()),
    }
}

/// Adds the numbers that the clause adds to the variable.
fn add_addends(numbers: &mut Vec<i64>, clause: &Clause, var: u32) -> Result<(), NoMemory>
    requires { AreSmall (2 ^ 31) numbers.old.items }
    ensures adds { OnOk result (numbers.new.items ≡ numbers.old.items ++ filter_map (added_to var) (updates_in (clause.now ∷ []))) }
    ensures small { OnOk result (AreSmall (2 ^ 31) numbers.new.items) }
{
    for branch in clause.branches.as_slice() {
        add_each_addend(numbers, branch.updates.as_slice(), var)?;
    }
    Ok(())
}

fn add_each_addend(numbers: &mut Vec<i64>, updates: &[Update], var: u32) -> Result<(), NoMemory>
    requires { AreSmall (2 ^ 31) numbers.old.items }
    ensures adds { OnOk result (numbers.new.items ≡ numbers.old.items ++ filter_map (added_to var) updates.now) }
    ensures small { OnOk result (AreSmall (2 ^ 31) numbers.new.items) }
{
    for update in updates {
        let number = added_to(var, *update);
        add_some(numbers, number)?;
    }
    Ok(())
}

fn added_to(var: u32, update: Update) -> Option<i32>
    ensures { result ≡ added_to var update }
{
    let Update::Add { var: i, by } = update else {
        return None;
    };
    if i != var {
        return None;
    }
    Some(by)
}
