//! The rows of a check.

ghost use Rattle.std.specs.Prelude.{◌≡◌, ◌∷◌, [], ◌++◌, if◌then◌else◌, option_and_then, option_map};
ghost use Rattle.cert_format.specs.declared.note.Term.TheVariants as terms;
ghost use Rattle.block_logic.specs.Borrowed.{asked_borrowed, check_borrowed, note_borrowed, row_borrowed, term_borrowed};
ghost use Rattle.block_logic.specs.Operands.{loaded_number};
ghost use Rattle.block_logic.specs.Rows.{adding_row, all_hold, argument_in, asks_atom, check_row, comparing_row};
ghost use Rattle.block_logic.specs.Rows.{failing, field_term, gives, holding_on};
ghost use Rattle.block_logic.specs.Rows.{is_addend, is_negation, is_relation, leaves_done, left, local_term, next_atom};
ghost use Rattle.block_logic.specs.Rows.{pushing_row, result_in, sum_of, sum_on_top, term_pushed, tested};
ghost use Rattle.block_logic.specs.Rows.{tests, with_terms, writes, writing_row};
ghost use Rattle.block_logic.specs.Weakening.{is_done};
ghost use Rattle.block_logic.specs.Terms.{same_terms};

use crate::borrowed::{
    AskedRef, CheckRef, HeldRef, NoteRef, RowRef, TermsRef, WideTerm, gives, leads,
};
use crate::operands::{
    adds, compared, goes, leaves, loaded_number, number_pushed, pushes_state, reads_static,
    variable_named, writes_static,
};
use crate::rules::Rules;
use crate::terms::{base_term, last_but_one, last_term, same_term, same_terms, widened, without};
use crate::weakening::{branches_of, is_after, is_before, is_done};
use bytecode_model::Target;
use cert_format::{Site, Term};
use conspec_automaton::{Clause, Policy};
use conspec_tree::{Atom, Rel, is_number};
use insn_codec::{Relation, Shape};

// ---- what is pushed

/// The argument that stands in a local, where it is a number.
fn argument_in(clause: &Clause, base: u16, slot: u16) -> Option<WideTerm>
    ensures { option_map term_borrowed result ≡ argument_in clause.now base slot }
{
    if base > slot {
        return None;
    }
    let place = usize::from(slot - base);
    match clause.args.as_slice().get(place) {
        Some(kind) if is_number(*kind) => Some(WideTerm::Arg(place)),
        _ => None,
    }
}

/// The result, where it stands in the local and is a number.
fn result_in(clause: &Clause, base: u16, slot: u16) -> Option<WideTerm>
    ensures { option_map term_borrowed result ≡ result_in clause.now base slot }
{
    match clause.result {
        Some(kind) if slot == base && is_number(kind) => Some(WideTerm::Result),
        _ => None,
    }
}

/// What a local holds while a check is made.
fn local_term(site: Site, clause: &Clause, slot: u16) -> Option<WideTerm>
    ensures { option_map term_borrowed result ≡ local_term site clause.now slot }
{
    if is_before(site.phase) {
        argument_in(clause, site.base, slot)
    } else if is_after(site.phase) {
        result_in(clause, site.base, slot)
    } else {
        None
    }
}

/// The number that is loaded from a local.
fn number_loaded(site: Site, clause: &Clause, shape: Shape) -> Option<WideTerm>
    ensures { option_map term_borrowed result ≡ option_and_then (local_term site clause.now) (loaded_number shape) }
{
    local_term(site, clause, loaded_number(shape)?)
}

/// What a variable is.
fn field_term(rules: &Rules<'_>, map: &[Term], shape: Shape, target: &Target) -> Option<WideTerm>
    ensures { option_map term_borrowed result ≡ field_term rules.now map.now shape target.now }
{
    if !reads_static(shape) {
        return None;
    }
    let var = variable_named(rules.state, target)?;
    let term = map.get(var as usize)?;
    Some(widened(*term))
}

/// What an instruction pushes: the lock's class, a number, an argument or the result, or what a variable is.
fn term_pushed(
    rules: &Rules<'_>,
    check: CheckRef<'_>,
    shape: Shape,
    target: &Target,
) -> Option<WideTerm>
    ensures { option_map term_borrowed result
        ≡ term_pushed rules.now check.entry.site check.entry.clause.now check.entry.map.now shape target.now }
{
    if pushes_state(shape, target) {
        return Some(WideTerm::Lock);
    }
    if let Some(n) = number_pushed(shape, target) {
        return Some(WideTerm::Const(n));
    }
    if let Some(term) = number_loaded(check.site, check.clause, shape) {
        return Some(term);
    }
    field_term(rules, check.map, shape, target)
}

// ---- sums

/// The sum of a variable and a constant, in either order.
fn sum_of(term: Term, other: Term) -> Option<WideTerm>
    ensures { option_map term_borrowed result ≡ sum_of term other }
{
    match term {
        Term::Var(var) => match other {
            Term::Const(n) => sum(var, n),
            _ => None,
        },
        Term::Const(n) => match other {
            Term::Var(var) => sum(var, n),
            _ => None,
        },
        _ => None,
    }
}

/// The sum of a variable and a constant, where it may be added: one of at most 1,000,000,000, or that is taken away.
fn sum(var: u8, n: i32) -> Option<WideTerm>
    ensures { option_map term_borrowed result ≡ (if is_addend n then Some (terms.VarAdd var n) else None) }
{
    if -1_000_000_000 <= n && n <= 1_000_000_000 {
        Some(WideTerm::VarAdd(usize::from(var), n))
    } else {
        None
    }
}

fn sum_on_top(terms: &[Term]) -> Option<WideTerm>
    ensures { option_map term_borrowed result ≡ sum_on_top terms.now }
{
    sum_of(last_but_one(terms)?, last_term(terms)?)
}

// ---- atoms

/// The atom that is tried next.
fn next_atom(policy: &Policy, site: Site, failed: u8, holding: u8) -> Option<Atom>
    ensures { result ≡ next_atom policy.now site failed holding }
{
    let branch = branches_of(policy, site).get(usize::from(failed))?;
    branch.atoms.as_slice().get(usize::from(holding)).copied()
}

/// Whether what the atom compares, and its constant, are on top.
fn asks_atom(terms: &[Term], atom: Atom) -> bool
    ensures { result ≡ asks_atom terms.now atom }
{
    let (Some(base), Some(value)) = (last_but_one(terms), last_term(terms)) else {
        return false;
    };
    same_term(base_term(atom.base), widened(base))
        && same_term(WideTerm::Const(atom.value), widened(value))
}

fn is_relation(rel: Rel, relation: Relation) -> bool
    ensures { result ≡ is_relation rel relation }
{
    match rel {
        Rel::Eq => matches!(relation, Relation::Equal),
        Rel::Ne => matches!(relation, Relation::NotEqual),
        Rel::Lt => matches!(relation, Relation::Less),
        Rel::Le => matches!(relation, Relation::LessOrEqual),
        Rel::Gt => matches!(relation, Relation::Greater),
        Rel::Ge => matches!(relation, Relation::GreaterOrEqual),
    }
}

fn is_negation(rel: Rel, relation: Relation) -> bool
    ensures { result ≡ is_negation rel relation }
{
    match rel {
        Rel::Eq => matches!(relation, Relation::NotEqual),
        Rel::Ne => matches!(relation, Relation::Equal),
        Rel::Lt => matches!(relation, Relation::GreaterOrEqual),
        Rel::Le => matches!(relation, Relation::Greater),
        Rel::Gt => matches!(relation, Relation::LessOrEqual),
        Rel::Ge => matches!(relation, Relation::Less),
    }
}

/// The check once the atom holds.
pub fn holding_on(check: CheckRef<'_>) -> NoteRef<'_>
    ensures { note_borrowed result ≡ holding_on (check_borrowed check.entry) }
{
    NoteRef::Held(HeldRef {
        site: check.site,
        failed: usize::from(check.failed),
        holding: usize::from(check.holding) + 1,
        terms: TermsRef::Told(without(2, check.terms)),
        map: TermsRef::Told(check.map),
    })
}

/// The check once the atom does not hold.
pub fn failing(check: CheckRef<'_>) -> NoteRef<'_>
    ensures { note_borrowed result ≡ failing (check_borrowed check.entry) }
{
    NoteRef::Held(HeldRef {
        site: check.site,
        failed: usize::from(check.failed) + 1,
        holding: 0,
        terms: TermsRef::Told(without(2, check.terms)),
        map: TermsRef::Told(check.map),
    })
}

/// The row of a jump by the atom's relation, or by the other one.
fn tested(check: CheckRef<'_>, rel: Rel, relation: Relation) -> Option<RowRef<'_>>
    ensures { option_map row_borrowed result ≡ tested (check_borrowed check.entry) rel relation }
{
    if is_relation(rel, relation) {
        Some(RowRef::Tests { check, jumps: true })
    } else if is_negation(rel, relation) {
        Some(RowRef::Tests {
            check,
            jumps: false,
        })
    } else {
        None
    }
}

fn tests<'a>(policy: &Policy, check: CheckRef<'a>, relation: Relation) -> Option<RowRef<'a>>
    ensures { option_map row_borrowed result ≡ tests policy.now (check_borrowed check.entry) relation }
{
    let atom = next_atom(policy, check.site, check.failed, check.holding)?;
    if asks_atom(check.terms, atom) {
        tested(check, atom.rel, relation)
    } else {
        None
    }
}

// ---- updates

/// Whether all atoms of the branch hold.
fn all_hold(policy: &Policy, check: CheckRef<'_>) -> bool
    ensures { result ≡ all_hold policy.now (check_borrowed check.entry) }
{
    match branches_of(policy, check.site).get(usize::from(check.failed)) {
        Some(branch) => usize::from(check.holding) == branch.atoms.len(),
        None => false,
    }
}

/// The row where a variable is written.
fn writes<'a>(policy: &Policy, check: CheckRef<'a>, var: u32) -> Option<RowRef<'a>>
    ensures { option_map row_borrowed result ≡ writes policy.now (check_borrowed check.entry) var }
{
    let term = last_term(check.terms)?;
    if !all_hold(policy, check) {
        return None;
    }
    gives(NoteRef::Held(HeldRef {
        site: check.site,
        failed: usize::from(check.failed),
        holding: usize::from(check.holding),
        terms: TermsRef::Told(without(1, check.terms)),
        map: TermsRef::Written {
            map: check.map,
            var: var as usize,
            term: widened(term),
        },
    }))
}

/// What is asked once the lock is left.
fn left<'a>(site: Site) -> AskedRef<'a>
    ensures { asked_borrowed result ≡ left site }
{
    if is_before(site.phase) {
        AskedRef::Given(NoteRef::Granted {
            site,
            locked: false,
            loaded: 0,
            top: false,
        })
    } else {
        AskedRef::Open
    }
}

/// The row where the lock is left once the updates are made: its class is all that is pushed.
fn leaves_done<'a>(policy: &Policy, check: CheckRef<'a>) -> Option<RowRef<'a>>
    ensures { option_map row_borrowed result ≡ leaves_done policy.now (check_borrowed check.entry) }
{
    let failed = usize::from(check.failed);
    let holding = usize::from(check.holding);
    let map = TermsRef::Told(check.map);
    let pushed = TermsRef::Told(check.terms);
    let lock = TermsRef::Pushed {
        below: &[],
        top: WideTerm::Lock,
    };
    if is_done(policy, check.site, failed, holding, &map) && same_terms(&pushed, &lock) {
        leads(left(check.site))
    } else {
        None
    }
}

// ---- rows

/// The check with another term on top of some terms.
fn with_top<'a>(check: CheckRef<'a>, below: &'a [Term], top: WideTerm) -> Option<RowRef<'a>>
    ensures { option_map row_borrowed result ≡ gives (with_terms (check_borrowed check.entry) (below.now ++ term_borrowed top ∷ [])) }
{
    gives(NoteRef::Held(HeldRef {
        site: check.site,
        failed: usize::from(check.failed),
        holding: usize::from(check.holding),
        terms: TermsRef::Pushed { below, top },
        map: TermsRef::Told(check.map),
    }))
}

/// The check as it is.
fn unchanged(check: CheckRef<'_>) -> Option<RowRef<'_>>
    ensures { option_map row_borrowed result ≡ gives (with_terms (check_borrowed check.entry) check.entry.terms.now) }
{
    gives(NoteRef::Held(HeldRef {
        site: check.site,
        failed: usize::from(check.failed),
        holding: usize::from(check.holding),
        terms: TermsRef::Told(check.terms),
        map: TermsRef::Told(check.map),
    }))
}

fn pushing_row<'a>(
    rules: &Rules<'_>,
    check: CheckRef<'a>,
    shape: Shape,
    target: &Target,
) -> Option<RowRef<'a>>
    ensures { option_map row_borrowed result ≡ pushing_row rules.now (check_borrowed check.entry) shape target.now }
{
    let top = term_pushed(rules, check, shape, target)?;
    with_top(check, check.terms, top)
}

fn adding_row<'a>(check: CheckRef<'a>, shape: Shape) -> Option<RowRef<'a>>
    ensures { option_map row_borrowed result ≡ adding_row (check_borrowed check.entry) shape }
{
    if !adds(shape) {
        return None;
    }
    let top = sum_on_top(check.terms)?;
    with_top(check, without(2, check.terms), top)
}

fn comparing_row<'a>(policy: &Policy, check: CheckRef<'a>, shape: Shape) -> Option<RowRef<'a>>
    ensures { option_map row_borrowed result ≡ comparing_row policy.now (check_borrowed check.entry) shape }
{
    tests(policy, check, compared(shape)?)
}

fn writing_row<'a>(
    rules: &Rules<'_>,
    check: CheckRef<'a>,
    shape: Shape,
    target: &Target,
) -> Option<RowRef<'a>>
    ensures { option_map row_borrowed result ≡ writing_row rules.now (check_borrowed check.entry) shape target.now }
{
    if !writes_static(shape) {
        return None;
    }
    writes(rules.policy, check, variable_named(rules.state, target)?)
}

/// The row of a check by what its instruction does.
pub fn check_row<'a>(
    rules: &Rules<'_>,
    check: CheckRef<'a>,
    shape: Shape,
    target: &Target,
) -> Option<RowRef<'a>>
    ensures { option_map row_borrowed result ≡ check_row rules.now (check_borrowed check.entry) shape target.now }
{
    if let Some(row) = pushing_row(rules, check, shape, target) {
        return Some(row);
    }
    if let Some(row) = adding_row(check, shape) {
        return Some(row);
    }
    if goes(shape) {
        return unchanged(check);
    }
    if let Some(row) = comparing_row(rules.policy, check, shape) {
        return Some(row);
    }
    if let Some(row) = writing_row(rules, check, shape, target) {
        return Some(row);
    }
    if leaves(shape) {
        leaves_done(rules.policy, check)
    } else {
        None
    }
}
