//! Guards: atoms over the variables, the arguments and the result.

ghost use Rattle.std.specs.Prelude.{◌≡◌, ◌+◌, ◌≤◌, [], length, codes, IfOk, IsTrue};
ghost use Rattle.mon_base.specs.Answer.{AnswersAs};
ghost use Rattle.conspec_tokens.specs.Front.{is_next};
ghost use Rattle.conspec_parse.specs.Forms.{taken, each};
ghost use Rattle.conspec_parse.specs.Scope.{HasFewNames};
ghost use Rattle.conspec_parse.specs.Guards.{
  next_rel,
  truth_value,
  negative_at,
  positive_at,
  constant_at,
  atom_at,
  next_atom,
  no_atoms,
  atoms_at,
  conj_at,
  next_conj,
  conjs_at,
};

use crate::fault::PolicyFault;
use crate::forms::{following, name_at, number_at};
use crate::scope::Names;
use conspec_tokens::{Token, front_at, is_next, rest_of};
use conspec_tree::{Atom, Rel, is_equality, is_number, is_truth};
use mon_base::List;
use std::alloc::Global;

fn next_rel(tokens: &[Token]) -> Option<Rel>
    ensures { result ≡ next_rel tokens.now }
{
    if is_next("==", tokens) {
        Some(Rel::Eq)
    } else if is_next("!=", tokens) {
        Some(Rel::Ne)
    } else if is_next("<", tokens) {
        Some(Rel::Lt)
    } else if is_next("<=", tokens) {
        Some(Rel::Le)
    } else if is_next(">", tokens) {
        Some(Rel::Gt)
    } else if is_next(">=", tokens) {
        Some(Rel::Ge)
    } else {
        None
    }
}

#[tactic(auto, unfolding(crate::specs::Guards::truth_value))]
fn truth_value(value: u8, truth: bool, tokens: &[Token]) -> Result<(i32, &[Token]), PolicyFault>
    ensures { AnswersAs PolicyFault.Memory (λ r. (r.0, r.1.now)) result (truth_value value truth tokens.now) }
{
    if !truth {
        return Err(PolicyFault::Kind {
            at: front_at(tokens),
        });
    }
    Ok((value as i32, rest_of(tokens)))
}

#[tactic(auto, unfolding(crate::specs::Guards::negative_at))]
fn negative_at(truth: bool, tokens: &[Token]) -> Result<(i32, &[Token]), PolicyFault>
    ensures { AnswersAs PolicyFault.Memory (λ r. (r.0, r.1.now)) result (negative_at truth tokens.now) }
{
    if truth {
        return Err(PolicyFault::Kind {
            at: front_at(tokens),
        });
    }
    let (number, rest) = number_at(rest_of(tokens))?;
    if number > 2_147_483_648 {
        return Err(PolicyFault::Range {
            at: front_at(tokens),
        });
    }
    Ok(((-(number as i64)) as i32, rest))
}

#[tactic(auto, unfolding(crate::specs::Guards::positive_at))]
fn positive_at(truth: bool, tokens: &[Token]) -> Result<(i32, &[Token]), PolicyFault>
    ensures { AnswersAs PolicyFault.Memory (λ r. (r.0, r.1.now)) result (positive_at truth tokens.now) }
{
    let (number, rest) = number_at(tokens)?;
    if truth {
        return Err(PolicyFault::Kind {
            at: front_at(tokens),
        });
    }
    if number >= 2_147_483_648 {
        return Err(PolicyFault::Range {
            at: front_at(tokens),
        });
    }
    Ok((number as i32, rest))
}

/// The constant, for a bool or for a number, that has to stand first, and the tokens after it.
pub fn constant_at(truth: bool, tokens: &[Token]) -> Result<(i32, &[Token]), PolicyFault>
    ensures { AnswersAs PolicyFault.Memory (λ r. (r.0, r.1.now)) result (constant_at truth tokens.now) }
{
    if is_next("true", tokens) {
        truth_value(1, truth, tokens)
    } else if is_next("false", tokens) {
        truth_value(0, truth, tokens)
    } else if is_next("-", tokens) {
        negative_at(truth, tokens)
    } else {
        positive_at(truth, tokens)
    }
}

/// The relation that has to stand first, and the tokens after it.
fn rel_at(tokens: &[Token]) -> Result<(Rel, &[Token]), PolicyFault>
    ensures { AnswersAs PolicyFault.Memory (λ r. (r.0, r.1.now)) result (taken (next_rel tokens.now) tokens.now) }
{
    match next_rel(tokens) {
        Some(rel) => Ok((rel, rest_of(tokens))),
        None => Err(PolicyFault::Syntax {
            at: front_at(tokens),
        }),
    }
}

/// The atom that has to stand first, where there is room for one, and the tokens after it.
#[tactic(auto, unfolding(crate::specs::Guards::atom_at))]
fn atom_at<'a>(
    names: &Names<'_>,
    room: bool,
    tokens: &'a [Token],
) -> Result<(Atom, &'a [Token]), PolicyFault>
    requires { HasFewNames names.now }
    ensures exact { AnswersAs PolicyFault.Memory (λ r. (r.0, r.1.now)) result (atom_at names.now room tokens.now) }
    ensures room { IfOk result (λ r. IsTrue room) }
{
    let (name, compared) = name_at(tokens)?;
    let Some((base, kind)) = names.base_named(name) else {
        return Err(PolicyFault::Name {
            at: front_at(tokens),
        });
    };
    if !is_number(kind) {
        return Err(PolicyFault::Kind {
            at: front_at(tokens),
        });
    }
    if !room {
        return Err(PolicyFault::Limit {
            at: front_at(tokens),
        });
    }
    let truth = is_truth(kind);
    let (rel, left) = rel_at(compared)?;
    if truth && !is_equality(rel) {
        return Err(PolicyFault::Kind {
            at: front_at(compared),
        });
    }
    let (value, rest) = constant_at(truth, left)?;
    Ok((Atom { base, rel, value }, rest))
}

/// Puts onto the atoms of a branch, at most 16, the one that stands after `&&`, and gives the tokens after it.
#[tactic(auto, unfolding(crate::specs::Guards::next_atom))]
fn next_atom<'a>(
    names: &Names<'_>,
    atoms: &mut List<Atom>,
    tokens: &'a [Token],
) -> Result<&'a [Token], PolicyFault>
    requires { HasFewNames names.now }
    ensures { AnswersAs PolicyFault.Memory (λ rest. (atoms.new, rest.now)) result (next_atom names.now atoms.old tokens.now) }
{
    let room = atoms.len() < 16;
    let left = following("&&", tokens)?;
    let (atom, rest) = atom_at(names, room, left)?;
    atoms.push(atom)?;
    Ok(rest)
}

fn atoms_from<'a>(
    names: &Names<'_>,
    atoms: &mut List<Atom>,
    tokens: &'a [Token],
) -> Result<&'a [Token], PolicyFault>
    requires { HasFewNames names.now }
    ensures { AnswersAs PolicyFault.Memory (λ rest. (atoms.new, rest.now)) result
        (each (is_next (codes "&&")) (next_atom names.now) atoms.old tokens.now) }
{
    let mut left = tokens;
    for _ in 0..tokens.len() {
        if !is_next("&&", left) {
            return Ok(left);
        }
        left = next_atom(names, atoms, left)?;
    }
    Ok(left)
}

/// The tokens after `true`, a branch with no atoms.
#[tactic(auto, unfolding(crate::specs::Guards::no_atoms))]
fn no_atoms(room: bool, tokens: &[Token]) -> Result<&[Token], PolicyFault>
    ensures exact { AnswersAs PolicyFault.Memory (λ rest. ([], rest.now)) result (no_atoms room tokens.now) }
    ensures room { IfOk result (λ _. IsTrue room) }
{
    if !room {
        return Err(PolicyFault::Limit {
            at: front_at(tokens),
        });
    }
    Ok(rest_of(tokens))
}

#[tactic(auto, unfolding(crate::specs::Guards::atoms_at))]
fn atoms_at<'a>(
    names: &Names<'_>,
    room: bool,
    atoms: &mut List<Atom>,
    tokens: &'a [Token],
) -> Result<&'a [Token], PolicyFault>
    requires few { HasFewNames names.now }
    requires none { atoms.old ≡ [] }
    ensures exact { AnswersAs PolicyFault.Memory (λ rest. (atoms.new, rest.now)) result (atoms_at names.now room tokens.now) }
    ensures room { IfOk result (λ _. IsTrue room) }
{
    let (atom, rest) = atom_at(names, room, tokens)?;
    atoms.push(atom)?;
    atoms_from(names, atoms, rest)
}

/// Puts the atoms of the branch that has to stand first onto an empty list, and gives the tokens after it.
fn conj_at<'a>(
    names: &Names<'_>,
    room: bool,
    atoms: &mut List<Atom>,
    tokens: &'a [Token],
) -> Result<&'a [Token], PolicyFault>
    requires few { HasFewNames names.now }
    requires none { atoms.old ≡ [] }
    ensures exact { AnswersAs PolicyFault.Memory (λ rest. (atoms.new, rest.now)) result (conj_at names.now room tokens.now) }
    ensures room { IfOk result (λ _. IsTrue room) }
{
    if is_next("true", tokens) {
        no_atoms(room, tokens)
    } else {
        atoms_at(names, room, atoms, tokens)
    }
}

/// Puts onto the branches of a guard the one that stands after `||`, and gives the tokens after it. So many stand
/// before the guard.
#[tactic(auto, unfolding(crate::specs::Guards::next_conj))]
fn next_conj<'a>(
    alloc: Global,
    names: &Names<'_>,
    before: usize,
    conjs: &mut List<List<Atom>>,
    tokens: &'a [Token],
) -> Result<&'a [Token], PolicyFault>
    requires few { HasFewNames names.now }
    requires within { before + length conjs.old ≤ 64 }
    ensures exact { AnswersAs PolicyFault.Memory (λ rest. (conjs.new, rest.now)) result
        (next_conj names.now before conjs.old tokens.now) }
    ensures within { IfOk result (λ _. before + length conjs.new ≤ 64) }
{
    let room = before + conjs.len() < 64;
    let left = following("||", tokens)?;
    let mut conj = List::new(alloc);
    let rest = conj_at(names, room, &mut conj, left)?;
    conjs.push(conj)?;
    Ok(rest)
}

fn conjs_from<'a>(
    alloc: Global,
    names: &Names<'_>,
    before: usize,
    conjs: &mut List<List<Atom>>,
    tokens: &'a [Token],
) -> Result<&'a [Token], PolicyFault>
    requires few { HasFewNames names.now }
    requires within { before + length conjs.old ≤ 64 }
    ensures exact { AnswersAs PolicyFault.Memory (λ rest. (conjs.new, rest.now)) result
        (each (is_next (codes "||")) (next_conj names.now before) conjs.old tokens.now) }
    ensures within { IfOk result (λ _. before + length conjs.new ≤ 64) }
{
    let mut left = tokens;
    for _ in 0..tokens.len() {
        if !is_next("||", left) {
            return Ok(left);
        }
        left = next_conj(alloc, names, before, conjs, left)?;
    }
    Ok(left)
}

/// Puts the branches of the guard that has to stand first onto an empty list, and gives the tokens after them. So
/// many branches stand before it.
#[tactic(auto, unfolding(crate::specs::Guards::conjs_at))]
pub fn conjs_at<'a>(
    alloc: Global,
    names: &Names<'_>,
    before: usize,
    conjs: &mut List<List<Atom>>,
    tokens: &'a [Token],
) -> Result<&'a [Token], PolicyFault>
    requires few { HasFewNames names.now }
    requires within { before ≤ 64 }
    requires none { conjs.old ≡ [] }
    ensures exact { AnswersAs PolicyFault.Memory (λ rest. (conjs.new, rest.now)) result (conjs_at names.now before tokens.now) }
    ensures within { IfOk result (λ _. before + length conjs.new ≤ 64) }
{
    let mut conj = List::new(alloc);
    let rest = conj_at(names, before < 64, &mut conj, tokens)?;
    conjs.push(conj)?;
    conjs_from(alloc, names, before, conjs, rest)
}
