//! The values of an argument or a result that a clause tells apart.

ghost use Rattle.std.specs.Prelude.{◌≡◌, ◌≤◌, ◌++◌, length, filter, map, IfOk, OnOk};
ghost use Rattle.std.specs.List.{list_any};
ghost use Rattle.conspec_tree.specs.declared.types.Atom.{Atom};
ghost use Rattle.conspec_automaton.specs.Next.{relates};
ghost use Rattle.conspec_automaton.specs.Points.{is_same};
ghost use Rattle.race_free_check.specs.Choosing.{event_choices};
ghost use Rattle.race_free_check.specs.Distinct.{
  are_alike,
  atoms_on,
  base_at,
  digest_of,
  distinct,
  distinct_choices,
  distinct_from,
  holds_of,
  mixed,
};

use crate::events::{copied, event_choices};
use crate::naming::is_same;
use api_listing::ApiValue;
use conspec_automaton::{Clause, number_in};
use conspec_tree::{Atom, Base, Phase, Rel};
use mon_base::{List, NoMemory};
use std::alloc::Global;

/// The points of each value of an event of the clause, without those that are like an earlier one.
pub fn distinct_choices(alloc: Global, clause: &Clause) -> Result<List<List<ApiValue>>, NoMemory>
    requires { length clause.now.args ≤ 255 }
    ensures { IfOk result (λ lists. lists ≡ distinct_choices clause.now) }
{
    let lists = event_choices(alloc, clause)?;
    distinct_lists(alloc, clause, lists.as_slice())
}

fn distinct_lists(
    alloc: Global,
    clause: &Clause,
    lists: &[List<ApiValue>],
) -> Result<List<List<ApiValue>>, NoMemory>
    requires { length lists.now ≤ 255 }
    ensures { IfOk result (λ found. found ≡ distinct_from clause.now 0 lists.now) }
{
    let mut found = List::new(alloc);
    let mut place: u32 = 0;
    let mut left = lists;
    while let [list, rest @ ..] = left {
        let base = base_at(clause.phase, place);
        found.push(distinct_at(alloc, clause, base, list.as_slice())?)?;
        place += 1;
        left = rest;
    }
    Ok(found)
}

/// What the value at the place is to an atom.
fn base_at(phase: Phase, place: u32) -> Base
    ensures { result ≡ base_at phase place }
{
    match phase {
        Phase::Before => Base::Arg(place),
        Phase::After => Base::Result,
        Phase::Exceptional => Base::Result,
    }
}

/// The first of the values of the base that the clause does not tell apart.
fn distinct_at(
    alloc: Global,
    clause: &Clause,
    base: Base,
    values: &[ApiValue],
) -> Result<List<ApiValue>, NoMemory>
    ensures { IfOk result (λ found. found ≡ distinct (atoms_on base clause.now) values.now) }
{
    let atoms = atoms_on(alloc, clause, base)?;
    distinct(alloc, atoms.as_slice(), values)
}

/// The atoms of the clause on the base.
fn atoms_on(alloc: Global, clause: &Clause, base: Base) -> Result<Vec<Atom>, NoMemory>
    ensures { IfOk result (λ found. found.items ≡ atoms_on base clause.now) }
{
    let mut found = Vec::new(alloc);
    let mut left = clause.branches.as_slice();
    while let [branch, rest @ ..] = left {
        add_atoms_on(&mut found, branch.atoms.as_slice(), base)?;
        left = rest;
    }
    Ok(found)
}

fn add_atoms_on(found: &mut Vec<Atom>, atoms: &[Atom], base: Base) -> Result<(), NoMemory>
    ensures { OnOk result (found.new.items ≡ found.old.items ++ filter (λ (a : Atom). is_same base a.base) atoms.now) }
{
    let mut left = atoms;
    while let [atom, rest @ ..] = left {
        if is_same(base, atom.base) {
            found.push(*atom)?;
        }
        left = rest;
    }
    Ok(())
}

/// The first of the values that the atoms do not tell apart.
fn distinct(alloc: Global, atoms: &[Atom], values: &[ApiValue]) -> Result<List<ApiValue>, NoMemory>
    ensures { IfOk result (λ found. found ≡ distinct atoms.now values.now) }
{
    let mut found = List::new(alloc);
    let mut digests = Vec::new(alloc);
    let mut left = values;
    while let [value, rest @ ..] = left {
        let digest = digest_of(atoms, value);
        if !any_alike(atoms, value, digest, found.as_slice(), digests.as_slice()) {
            found.push(copied(alloc, value)?)?;
            digests.push(digest)?;
        }
        left = rest;
    }
    Ok(found)
}

/// Whether the value, which has this digest, is like one of those that are seen, which have these.
fn any_alike(
    atoms: &[Atom],
    value: &ApiValue,
    digest: u64,
    seen: &[ApiValue],
    digests: &[u64],
) -> bool
    requires digest { digest ≡ digest_of atoms.now value.now }
    requires digests { digests.now ≡ map (digest_of atoms.now) seen.now }
    ensures { result ≡ list_any (are_alike atoms.now value.now) seen.now }
{
    let mut seen = seen;
    let mut digests = digests;
    while let [other, rest @ ..] = seen {
        let [known, later @ ..] = digests else {
            return false;
        };
        if is_like(atoms, value, digest, other, *known) {
            return true;
        }
        seen = rest;
        digests = later;
    }
    false
}

/// Whether the values, which have these digests, are alike.
fn is_like(atoms: &[Atom], value: &ApiValue, digest: u64, other: &ApiValue, known: u64) -> bool
    requires digest { digest ≡ digest_of atoms.now value.now }
    requires known { known ≡ digest_of atoms.now other.now }
    ensures { result ≡ are_alike atoms.now value.now other.now }
{
    known == digest && are_alike(atoms, value, other)
}

/// A number that alike values share.
fn digest_of(atoms: &[Atom], value: &ApiValue) -> u64
    ensures { result ≡ digest_of atoms.now value.now }
{
    let mut digest: u64 = 0;
    let mut left = atoms;
    while let [atom, rest @ ..] = left {
        digest = mixed(digest, holds_of(value, *atom));
        left = rest;
    }
    digest
}

/// The digest of one more answer.
#[tactic(auto, unfolding(crate::specs::Distinct::mixed))]
fn mixed(digest: u64, answer: bool) -> u64
    ensures { result ≡ mixed digest answer }
{
    digest.wrapping_mul(3).wrapping_add(u64::from(answer))
}

/// Whether each of the atoms holds of both values, or of neither.
fn are_alike(atoms: &[Atom], value: &ApiValue, other: &ApiValue) -> bool
    ensures { result ≡ are_alike atoms.now value.now other.now }
{
    atoms
        .iter()
        .all(|atom| holds_of(value, *atom) == holds_of(other, *atom))
}

/// Whether the atom holds where its base has the value.
fn holds_of(value: &ApiValue, atom: Atom) -> bool
    ensures { result ≡ holds_of value.now atom }
{
    match number_in(value) {
        Some(n) => relates(atom.rel, n, atom.value),
        None => false,
    }
}

fn relates(rel: Rel, x: i32, y: i32) -> bool
    ensures { result ≡ relates rel x y }
{
    match rel {
        Rel::Eq => x == y,
        Rel::Ne => x != y,
        Rel::Lt => x < y,
        Rel::Le => x <= y,
        Rel::Gt => x > y,
        Rel::Ge => x >= y,
    }
}
