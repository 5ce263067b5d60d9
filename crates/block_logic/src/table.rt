//! The table of the notes: what is asked of the notes of the instructions that may come next, by the note of an
//! instruction, what it does and what its operand names.

ghost use Rattle.std.specs.Bool.{beq};
ghost use Rattle.std.specs.Prelude.{◌≡◌, ◌+◌, ◌==◌, ◌&&◌, false, nat_lt, option_map};
ghost use Rattle.std.specs.Option.{option_map_or};
ghost use Rattle.cert_format.specs.declared.note.Note.TheVariants as notes;
ghost use Rattle.block_logic.specs.Annotations.{holds_round};
ghost use Rattle.block_logic.specs.Clauses.{needs};
ghost use Rattle.block_logic.specs.Borrowed.{asked_borrowed, due_borrowed, note_borrowed, row_borrowed};
ghost use Rattle.block_logic.specs.Operands.{loaded, stored};
ghost use Rattle.block_logic.specs.Rows.{Given, begins_owed, calls_of, free_row, gives, granted_row};
ghost use Rattle.block_logic.specs.Rows.{held_row, is_duty, is_on_way, may_keep};
ghost use Rattle.block_logic.specs.Rows.{may_leave, may_push, note_taken, owed_row, returned, row, stage_after, stop_row};
ghost use Rattle.block_logic.specs.Rows.{taking_row, thrown};

use crate::borrowed::{AskedRef, CheckRef, DueRef, NoteRef, RowRef, gives, leads};
use crate::checks::check_row;
use crate::clauses::{clause_at, clause_of, needs, result_kind};
use crate::held_calls::holds_round;
use crate::operands::{
    calls, enters, is_way_out, leaves, loaded, pushes, pushes_null, pushes_state, stored, throws,
    variable_named,
};
use crate::rules::Rules;
use crate::weakening::{asks_kept, begun, in_phase, is_after};
use bytecode_model::Target;
use cert_format::{Note, Phase8, Site, Term};
use conspec_automaton::Policy;
use insn_codec::Shape;

/// The row of an instruction, where the table has one.
pub fn row<'a>(
    rules: &Rules<'a>,
    note: &'a Note,
    shape: Shape,
    target: &Target,
) -> Option<RowRef<'a>>
    ensures { option_map row_borrowed result ≡ row rules.now note.now shape target.now }
{
    match note {
        Note::Free => free_row(rules, shape, target),
        Note::Taking(site) => taking_row(rules, *site, shape),
        Note::Held {
            site,
            failed,
            holding,
            terms,
            map,
        } => {
            let terms = terms.as_slice();
            held_row(
                rules,
                *site,
                *failed,
                *holding,
                terms,
                map.as_slice(),
                shape,
                target,
            )
        }
        Note::Granted {
            site,
            locked,
            loaded,
            top,
        } => granted_row(rules, *site, *locked, *loaded, *top, shape, target),
        Note::Owed {
            site,
            stage,
            kept,
            top,
        } => owed_row(rules, *site, *stage, *kept, *top, shape, target),
        Note::Stop { site, place } => stop_row(*site, *place, shape, target),
    }
}

// ---- Free

/// The object of the lock's class is pushed to take the lock. Any other instruction leaves the policy's variables alone.
fn free_row<'a>(rules: &Rules<'_>, shape: Shape, target: &Target) -> Option<RowRef<'a>>
    ensures { option_map row_borrowed result ≡ free_row rules.now shape target.now }
{
    if pushes_state(shape, target) {
        return leads(AskedRef::Taking);
    }
    if variable_named(rules.state, target).is_some() {
        return None;
    }
    leads(AskedRef::Open)
}

// ---- Taking

/// The lock is taken: the check begins, or there is none before the call.
fn note_taken(policy: &Policy, site: Site) -> NoteRef<'_>
    ensures { note_borrowed result ≡ note_taken policy.now site }
{
    if clause_at(policy, u32::from(site.method), Phase8::Before).is_some() {
        NoteRef::Held(begun(policy, site))
    } else {
        NoteRef::Granted {
            site,
            locked: true,
            loaded: 0,
            top: false,
        }
    }
}

fn taking_row<'a>(rules: &Rules<'a>, site: Site, shape: Shape) -> Option<RowRef<'a>>
    ensures { option_map row_borrowed result ≡ taking_row rules.now site shape }
{
    if enters(shape) {
        gives(note_taken(rules.policy, site))
    } else {
        None
    }
}

// ---- Held

/// A check without a clause has no row.
fn held_row<'a>(
    rules: &Rules<'a>,
    site: Site,
    failed: u8,
    holding: u8,
    terms: &'a [Term],
    map: &'a [Term],
    shape: Shape,
    target: &Target,
) -> Option<RowRef<'a>>
    ensures { option_map row_borrowed result ≡ held_row rules.now site failed holding terms.now map.now shape target.now }
{
    let check = CheckRef {
        site,
        clause: clause_of(rules.policy, site)?,
        failed,
        holding,
        terms,
        map,
    };
    check_row(rules, check, shape, target)
}

// ---- Granted

/// Whether the call names the method of the site.
fn calls_of(site: Site, shape: Shape, target: &Target) -> bool
    ensures { result ≡ calls_of site shape target.now }
{
    match target {
        Target::ApiMethod(method) => calls(shape) && *method == u32::from(site.method),
        _ => false,
    }
}

/// After the call its lock is still held, if it is held round the call; if not, an update is due where a clause is for the
/// return.
fn returned(rules: &Rules<'_>, site: Site) -> DueRef
    ensures { due_borrowed result ≡ returned rules.now site }
{
    let following = in_phase(Phase8::After, site);
    if holds_round(rules.held, u32::from(site.method)) {
        due(following, 1)
    } else if clause_of(rules.policy, following).is_some() {
        due(following, 0)
    } else {
        DueRef::Open
    }
}

/// An update is due at this stage, and nothing is done for it.
fn due(site: Site, stage: usize) -> DueRef
    ensures { due_borrowed result ≡ Given (notes.Owed site stage false false) }
{
    DueRef::Due { site, stage }
}

/// Whether what the call throws is a duty of its block.
pub fn is_duty(rules: &Rules<'_>, method: u32) -> bool
    ensures { result ≡ is_duty rules.now method }
{
    holds_round(rules.held, method)
        || clause_at(rules.policy, method, Phase8::Exceptional).is_some()
}

fn stage_after(held: bool) -> usize
    ensures { result ≡ stage_after held }
{
    if held { 1 } else { 0 }
}

/// What is asked where the call throws.
pub fn thrown(rules: &Rules<'_>, site: Site) -> DueRef
    ensures { due_borrowed result ≡ thrown rules.now site }
{
    if is_duty(rules, u32::from(site.method)) {
        due(
            in_phase(Phase8::Exceptional, site),
            stage_after(holds_round(rules.held, u32::from(site.method))),
        )
    } else {
        DueRef::Open
    }
}

fn granted_row<'a>(
    rules: &Rules<'_>,
    site: Site,
    locked: bool,
    count: u8,
    top: bool,
    shape: Shape,
    target: &Target,
) -> Option<RowRef<'a>>
    ensures { option_map row_borrowed result ≡ granted_row rules.now site locked count top shape target.now }
{
    if top {
        return if locked && leaves(shape) {
            granted(site, false, usize::from(count), false)
        } else {
            None
        };
    }
    if loads_next(rules.policy, site, count, shape) {
        return granted(site, locked, usize::from(count) + 1, false);
    }
    if locked && pushes_state(shape, target) {
        return granted(site, locked, usize::from(count), true);
    }
    if is_ready(rules, site, locked, count) && calls_of(site, shape, target) {
        return Some(RowRef::Calls {
            past: returned(rules, site),
            thrown: thrown(rules, site),
        });
    }
    None
}

fn granted<'a>(site: Site, locked: bool, loaded: usize, top: bool) -> Option<RowRef<'a>>
    ensures { option_map row_borrowed result ≡ gives (notes.Granted site locked loaded top) }
{
    gives(NoteRef::Granted {
        site,
        locked,
        loaded,
        top,
    })
}

/// Whether the next argument is loaded.
fn loads_next(policy: &Policy, site: Site, count: u8, shape: Shape) -> bool
    ensures { result ≡ (nat_lt count (needs policy.now site.method)
        && option_map_or (λ slot. slot == site.base + count) (loaded shape) false) }
{
    match loaded(shape) {
        Some(slot) => {
            usize::from(count) < needs(policy, u32::from(site.method))
                && u32::from(slot) == u32::from(site.base) + u32::from(count)
        }
        None => false,
    }
}

/// Whether all arguments are loaded, and the lock is held exactly where it is held round the call.
pub fn is_ready(rules: &Rules<'_>, site: Site, locked: bool, count: u8) -> bool
    ensures { result ≡ ((count == needs rules.now.policy site.method) && beq locked (holds_round rules.now.held site.method)) }
{
    usize::from(count) == needs(rules.policy, u32::from(site.method))
        && locked == holds_round(rules.held, u32::from(site.method))
}

// ---- Owed

/// Whether the lock's class may be pushed: nothing is due any more but to leave the lock, or to take it first.
fn may_push(policy: &Policy, site: Site, stage: u8) -> bool
    ensures { result ≡ may_push policy.now site stage }
{
    stage == 0 || may_leave(policy, site, stage)
}

/// Whether the lock may be left.
fn may_leave(policy: &Policy, site: Site, stage: u8) -> bool
    ensures { result ≡ may_leave policy.now site stage }
{
    stage == 1 && clause_of(policy, site).is_none() || stage == 2
}

/// Whether the result may be put into its local.
fn may_keep(policy: &Policy, site: Site, stage: u8, kept: bool, top: bool) -> bool
    ensures { result ≡ may_keep policy.now site stage kept top }
{
    is_after(site.phase)
        && stage < 2
        && !kept
        && !top
        && result_kind(policy, u32::from(site.method)).is_some()
}

/// The check of a return begins with the result kept.
fn begins_owed(policy: &Policy, site: Site, kept: bool) -> AskedRef<'_>
    ensures { asked_borrowed result ≡ begins_owed policy.now site kept }
{
    if kept == asks_kept(policy, site) {
        AskedRef::Given(NoteRef::Held(begun(policy, site)))
    } else {
        AskedRef::Nothing
    }
}

fn owed_row<'a>(
    rules: &Rules<'a>,
    site: Site,
    stage: u8,
    kept: bool,
    top: bool,
    shape: Shape,
    target: &Target,
) -> Option<RowRef<'a>>
    ensures { option_map row_borrowed result ≡ owed_row rules.now site stage kept top shape target.now }
{
    let policy = rules.policy;
    if may_keep(policy, site, stage, kept, top) && stores_first(site, shape) {
        return owed(site, stage, true, false);
    }
    if !top && may_push(policy, site, stage) && pushes_state(shape, target) {
        return owed(site, stage, kept, true);
    }
    if top && stage == 0 && enters(shape) {
        return leads(begins_owed(policy, site, kept));
    }
    if top && may_leave(policy, site, stage) && leaves(shape) {
        return leads(AskedRef::Open);
    }
    None
}

fn owed<'a>(site: Site, stage: u8, kept: bool, top: bool) -> Option<RowRef<'a>>
    ensures { option_map row_borrowed result ≡ gives (notes.Owed site stage kept top) }
{
    gives(NoteRef::Owed {
        site,
        stage: usize::from(stage),
        kept,
        top,
    })
}

/// Whether the first local of the block is stored into.
fn stores_first(site: Site, shape: Shape) -> bool
    ensures { result ≡ option_map_or (λ slot. slot == site.base) (stored shape) false }
{
    match stored(shape) {
        Some(slot) => slot == site.base,
        None => false,
    }
}

// ---- Stop

/// The number with which the way out ends the program.
const STATUS: i32 = 77;

/// Whether the instruction stands at this place of the way out.
fn is_on_way(place: u8, shape: Shape, target: &Target) -> bool
    ensures { result ≡ is_on_way place shape target.now }
{
    match place {
        0 => pushes(STATUS, shape, target),
        1 => calls(shape) && is_way_out(target),
        2 => pushes_null(shape),
        3 => throws(shape),
        _ => false,
    }
}

fn stop_row<'a>(site: Site, place: u8, shape: Shape, target: &Target) -> Option<RowRef<'a>>
    ensures { option_map row_borrowed result ≡ stop_row site place shape target.now }
{
    if !is_on_way(place, shape, target) {
        return None;
    }
    gives(NoteRef::Stop {
        site,
        place: usize::from(place) + 1,
    })
}
