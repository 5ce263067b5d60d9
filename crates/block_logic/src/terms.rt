//! What stands on the stack above the client's operands while a check is made, and what the policy's variables are.

ghost use Rattle.std.specs.Prelude.{◌≡◌, ◌∷◌, ◌++◌, [], length, option_copied, option_map, slice_get, slice_set};
ghost use Rattle.block_logic.specs.Borrowed.{term_borrowed, terms_borrowed};
ghost use Rattle.block_logic.specs.Rows.{last_but_one, last_term, without};
ghost use Rattle.block_logic.specs.Terms.{after_updates, base_term, same_at, same_term, same_terms, update_of, variable_after, written};

use crate::borrowed::{TermsRef, WideTerm};
use cert_format::Term;
use conspec_automaton::Policy;
use conspec_tree::{Base, Update, target};

/// The term, with its numbers as they are.
pub fn widened(term: Term) -> WideTerm
    ensures { term_borrowed result ≡ term }
{
    match term {
        Term::Const(n) => WideTerm::Const(n),
        Term::Var(var) => WideTerm::Var(usize::from(var)),
        Term::VarAdd(var, n) => WideTerm::VarAdd(usize::from(var), n),
        Term::Arg(i) => WideTerm::Arg(usize::from(i)),
        Term::Result => WideTerm::Result,
        Term::Lock => WideTerm::Lock,
    }
}

/// Whether both are one term.
pub fn same_term(term: WideTerm, other: WideTerm) -> bool
    ensures { result ≡ same_term (term_borrowed term) (term_borrowed other) }
{
    match term {
        WideTerm::Const(n) => matches!(other, WideTerm::Const(m) if n == m),
        WideTerm::Var(var) => matches!(other, WideTerm::Var(i) if var == i),
        WideTerm::VarAdd(var, n) => {
            matches!(other, WideTerm::VarAdd(i, m) if var == i && n == m)
        }
        WideTerm::Arg(i) => matches!(other, WideTerm::Arg(j) if i == j),
        WideTerm::Result => matches!(other, WideTerm::Result),
        WideTerm::Lock => matches!(other, WideTerm::Lock),
    }
}

/// What an atom compares.
pub fn base_term(base: Base) -> WideTerm
    ensures { term_borrowed result ≡ base_term base }
{
    match base {
        Base::Var(var) => WideTerm::Var(var as usize),
        Base::Arg(i) => WideTerm::Arg(i as usize),
        Base::Result => WideTerm::Result,
    }
}

/// What an update writes.
fn written(update: Update) -> WideTerm
    ensures { term_borrowed result ≡ written update }
{
    match update {
        Update::Set { value, .. } => WideTerm::Const(value),
        Update::Add { var, by } => WideTerm::VarAdd(var as usize, by),
    }
}

/// What a variable is once the updates are made: each is of another variable.
fn variable_after(updates: &[Update], var: usize) -> WideTerm
    ensures { term_borrowed result ≡ variable_after updates.now var }
{
    match update_of(updates, var) {
        Some(update) => written(*update),
        None => WideTerm::Var(var),
    }
}

/// The first update of the variable.
fn update_of(updates: &[Update], var: usize) -> Option<&Update>
    ensures { option_copied result ≡ update_of updates.now var }
{
    updates
        .iter()
        .find(|update| target(**update) as usize == var)
}

// ---- lists

/// Whether a list is this one.
pub fn same_told(terms: &TermsRef<'_>, others: &[Term]) -> bool
    ensures { result ≡ same_terms (terms_borrowed terms.now) others.now }
{
    match terms {
        TermsRef::Told(told) => same_lists(*told, others),
        TermsRef::Pushed { below, top } => same_pushed(*below, *top, others),
        _ => same_terms(terms, &TermsRef::Told(others)),
    }
}

/// Whether both are one list.
fn same_lists(terms: &[Term], others: &[Term]) -> bool
    ensures { result ≡ same_terms terms.now others.now }
{
    let mut terms = terms;
    let mut others = others;
    while let [term, later @ ..] = terms {
        let [other, rest @ ..] = others else {
            return false;
        };
        if !same_term(widened(*term), widened(*other)) {
            return false;
        }
        terms = later;
        others = rest;
    }
    others.is_empty()
}

/// Whether terms with another one on top are this list.
fn same_pushed(below: &[Term], top: WideTerm, others: &[Term]) -> bool
    ensures { result ≡ same_terms (below.now ++ term_borrowed top ∷ []) others.now }
{
    let mut below = below;
    let mut others = others;
    while let [term, later @ ..] = below {
        let [other, rest @ ..] = others else {
            return false;
        };
        if !same_term(widened(*term), widened(*other)) {
            return false;
        }
        below = later;
        others = rest;
    }
    match others {
        [other, rest @ ..] => same_term(top, widened(*other)) && rest.is_empty(),
        [] => false,
    }
}

/// Whether both lists are one.
pub fn same_terms(terms: &TermsRef<'_>, others: &TermsRef<'_>) -> bool
    ensures { result ≡ same_terms (terms_borrowed terms.now) (terms_borrowed others.now) }
{
    let count = length_of(terms);
    if count != length_of(others) {
        return false;
    }
    for at in 0..count {
        if !same_at(terms, others, at) {
            return false;
        }
    }
    true
}

/// Whether one term stands in this place of both.
fn same_at(terms: &TermsRef<'_>, others: &TermsRef<'_>, at: usize) -> bool
    ensures { result ≡ same_at (terms_borrowed terms.now) (terms_borrowed others.now) at }
{
    let (Some(term), Some(other)) = (term_at(terms, at), term_at(others, at)) else {
        return false;
    };
    same_term(term, other)
}

/// The number of terms of a list.
pub fn length_of(terms: &TermsRef<'_>) -> usize
    ensures { result ≡ length (terms_borrowed terms.now) }
{
    match terms {
        TermsRef::Told(told) => told.len(),
        TermsRef::Pushed { below, .. } => below.len() + 1,
        TermsRef::Written { map, .. } => map.len(),
        TermsRef::After { policy, .. } => policy.vars.len(),
    }
}

/// The term in this place of a list.
fn term_at(terms: &TermsRef<'_>, at: usize) -> Option<WideTerm>
    ensures { option_map term_borrowed result ≡ slice_get (terms_borrowed terms.now) at }
{
    match terms {
        TermsRef::Told(told) => told_at(*told, at),
        TermsRef::Pushed { below, top } => pushed_at(*below, *top, at),
        TermsRef::Written { map, var, term } => written_at(*map, *var, *term, at),
        TermsRef::After { policy, updates } => after_at(*policy, *updates, at),
    }
}

fn told_at(told: &[Term], at: usize) -> Option<WideTerm>
    ensures { option_map term_borrowed result ≡ slice_get told.now at }
{
    match told.get(at) {
        Some(term) => Some(widened(*term)),
        None => None,
    }
}

fn pushed_at(below: &[Term], top: WideTerm, at: usize) -> Option<WideTerm>
    ensures { option_map term_borrowed result ≡ slice_get (below.now ++ term_borrowed top ∷ []) at }
{
    if at == below.len() {
        Some(top)
    } else {
        told_at(below, at)
    }
}

fn written_at(map: &[Term], var: usize, term: WideTerm, at: usize) -> Option<WideTerm>
    ensures { option_map term_borrowed result ≡ slice_get (slice_set map.now var (term_borrowed term)) at }
{
    if at == var && at < map.len() {
        Some(term)
    } else {
        told_at(map, at)
    }
}

fn after_at(policy: &Policy, updates: &[Update], at: usize) -> Option<WideTerm>
    ensures { option_map term_borrowed result ≡ slice_get (after_updates policy.now updates.now) at }
{
    if at < policy.vars.len() {
        Some(variable_after(updates, at))
    } else {
        None
    }
}

// ---- the topmost terms

/// The topmost term.
pub fn last_term(terms: &[Term]) -> Option<Term>
    ensures { result ≡ last_term terms.now }
{
    terms.get(terms.len().saturating_sub(1)).copied()
}

/// The one below it.
pub fn last_but_one(terms: &[Term]) -> Option<Term>
    ensures { result ≡ last_but_one terms.now }
{
    if terms.len() > 1 {
        terms.get(terms.len() - 2).copied()
    } else {
        None
    }
}

/// The terms below so many topmost ones.
pub fn without(n: usize, terms: &[Term]) -> &[Term]
    ensures { result.now ≡ without n terms.now }
{
    &terms[..terms.len().saturating_sub(n)]
}
