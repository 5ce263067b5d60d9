//! Which notes may stand for one another.

ghost use Rattle.std.specs.Prelude.{◌≡◌, ◌&&◌};
ghost use Rattle.cert_format.specs.declared.note.Note.TheVariants as notes;
ghost use Rattle.block_logic.specs.Borrowed.{held_borrowed, note_borrowed, terms_borrowed};
ghost use Rattle.block_logic.specs.Weakening.{asks_kept, begun, branches_of, done, fails, in_phase, is_after, is_before, is_done};
ghost use Rattle.block_logic.specs.Weakening.{is_empty, is_exceptional, is_open, may_begin, may_stand, needs_no_grant};
ghost use Rattle.block_logic.specs.Weakening.{same_note, same_phase, same_site, stands_for_held, takes_for_call};
ghost use Rattle.block_logic.specs.Terms.{as_taken};

use crate::borrowed::{HeldRef, NoteRef, TermsRef};
use crate::clauses::{clause_at, clause_of, result_kind};
use crate::held_calls::holds_round;
use crate::rules::Rules;
use crate::terms::{length_of, same_terms, same_told};
use cert_format::{Note, Phase8, Site};
use conspec_automaton::{Branch, Policy, has_clauses};

// ---- sites

/// Whether the phase is before a call.
pub fn is_before(phase: Phase8) -> bool
    ensures { result ≡ is_before phase }
{
    matches!(phase, Phase8::Before)
}

/// Whether it is after a return.
pub fn is_after(phase: Phase8) -> bool
    ensures { result ≡ is_after phase }
{
    matches!(phase, Phase8::After)
}

/// Whether it is after an exception.
pub fn is_exceptional(phase: Phase8) -> bool
    ensures { result ≡ is_exceptional phase }
{
    matches!(phase, Phase8::Exceptional)
}

fn same_phase(phase: Phase8, other: Phase8) -> bool
    ensures { result ≡ same_phase phase other }
{
    match phase {
        Phase8::Before => is_before(other),
        Phase8::After => is_after(other),
        Phase8::Exceptional => is_exceptional(other),
    }
}

fn same_site(site: Site, other: Site) -> bool
    ensures { result ≡ same_site site other }
{
    site.method == other.method && same_phase(site.phase, other.phase) && site.base == other.base
}

/// The site of the same call in another phase.
pub fn in_phase(phase: Phase8, site: Site) -> Site
    ensures { result ≡ in_phase phase site }
{
    Site {
        method: site.method,
        phase,
        base: site.base,
    }
}

// ---- the same note

fn same_note(given: &NoteRef<'_>, note: &Note) -> bool
    ensures { result ≡ same_note (note_borrowed given.now) note.now }
{
    match given {
        NoteRef::Held(held) => same_held(held, note),
        NoteRef::Granted {
            site,
            locked,
            loaded,
            top,
        } => same_granted(*site, *locked, *loaded, *top, note),
        NoteRef::Owed {
            site,
            stage,
            kept,
            top,
        } => same_owed(*site, *stage, *kept, *top, note),
        NoteRef::Stop { site, place } => same_stop(*site, *place, note),
    }
}

fn same_held(held: &HeldRef<'_>, note: &Note) -> bool
    ensures { result ≡ same_note (held_borrowed held.now) note.now }
{
    match note {
        Note::Held {
            site,
            failed,
            holding,
            terms,
            map,
        } => {
            same_site(held.site, *site)
                && held.failed == usize::from(*failed)
                && held.holding == usize::from(*holding)
                && same_told(&held.terms, terms.as_slice())
                && same_told(&held.map, map.as_slice())
        }
        _ => false,
    }
}

fn same_granted(site: Site, locked: bool, loaded: usize, top: bool, note: &Note) -> bool
    ensures { result ≡ same_note (notes.Granted site locked loaded top) note.now }
{
    match note {
        Note::Granted {
            site: other,
            locked: holds,
            loaded: pushed,
            top: on,
        } => {
            same_site(site, *other)
                && locked == *holds
                && loaded == usize::from(*pushed)
                && top == *on
        }
        _ => false,
    }
}

fn same_owed(site: Site, stage: usize, kept: bool, top: bool, note: &Note) -> bool
    ensures { result ≡ same_note (notes.Owed site stage kept top) note.now }
{
    match note {
        Note::Owed {
            site: other,
            stage: due,
            kept: keeps,
            top: on,
        } => {
            same_site(site, *other) && stage == usize::from(*due) && kept == *keeps && top == *on
        }
        _ => false,
    }
}

fn same_stop(site: Site, place: usize, note: &Note) -> bool
    ensures { result ≡ same_note (notes.Stop site place) note.now }
{
    match note {
        Note::Stop {
            site: other,
            place: at,
        } => same_site(site, *other) && place == usize::from(*at),
        _ => false,
    }
}

// ---- a check

/// The branches of a site's clause.
pub fn branches_of(policy: &Policy, site: Site) -> &[Branch]
    ensures { result.now ≡ branches_of policy.now site }
{
    match clause_of(policy, site) {
        Some(clause) => clause.branches.as_slice(),
        None => &[],
    }
}

/// The variables before any of them is written.
fn as_taken(policy: &Policy) -> TermsRef<'_>
    ensures { terms_borrowed result ≡ as_taken policy.now }
{
    TermsRef::After {
        policy,
        updates: &[],
    }
}

/// The check of a site that has begun: no branch is tried, and no variable is written.
pub fn begun(policy: &Policy, site: Site) -> HeldRef<'_>
    ensures { held_borrowed result ≡ begun policy.now site }
{
    HeldRef {
        site,
        failed: 0,
        holding: 0,
        terms: TermsRef::Told(&[]),
        map: as_taken(policy),
    }
}

/// Whether all atoms of a branch hold, and its updates are made.
pub fn is_done(
    policy: &Policy,
    site: Site,
    failed: usize,
    holding: usize,
    map: &TermsRef<'_>,
) -> bool
    ensures { result ≡ is_done policy.now site failed holding (terms_borrowed map.now) }
{
    match branches_of(policy, site).get(failed) {
        Some(branch) => {
            let updates = branch.updates.as_slice();
            holding == branch.atoms.len() && same_terms(map, &TermsRef::After { policy, updates })
        }
        None => false,
    }
}

/// Whether each branch of the clause fails.
fn fails(policy: &Policy, site: Site, failed: usize) -> bool
    ensures { result ≡ fails policy.now site failed }
{
    clause_of(policy, site).is_some() && failed == branches_of(policy, site).len()
}

/// Whether the result is kept while a check is made: after a call that gave one.
pub fn asks_kept(policy: &Policy, site: Site) -> bool
    ensures { result ≡ asks_kept policy.now site }
{
    is_after(site.phase) && result_kind(policy, u32::from(site.method)).is_some()
}

/// What is so once the check is done, with the lock still held.
fn done(policy: &Policy, site: Site) -> NoteRef<'_>
    ensures { note_borrowed result ≡ done policy.now site }
{
    if is_before(site.phase) {
        NoteRef::Granted {
            site,
            locked: true,
            loaded: 0,
            top: false,
        }
    } else {
        NoteRef::Owed {
            site,
            stage: 2,
            kept: asks_kept(policy, site),
            top: false,
        }
    }
}

// ---- which may stand

/// For the note of a check that was made so far: itself; where it is done, and nothing is pushed, what comes then; where
/// each branch fails, the way out.
fn stands_for_held(policy: &Policy, held: &HeldRef<'_>, note: &Note) -> bool
    ensures { result ≡ stands_for_held policy.now held.now.site held.now.failed held.now.holding
        (terms_borrowed held.now.terms) (terms_borrowed held.now.map) note.now }
{
    same_held(held, note)
        || is_over(policy, held) && same_note(&done(policy, held.site), note)
        || fails(policy, held.site, held.failed) && same_stop(held.site, 0, note)
}

/// Whether the check is done, and nothing is pushed.
fn is_over(policy: &Policy, held: &HeldRef<'_>) -> bool
    ensures { result ≡ (is_done policy.now held.now.site held.now.failed held.now.holding (terms_borrowed held.now.map)
        && is_empty (terms_borrowed held.now.terms)) }
{
    is_done(policy, held.site, held.failed, held.holding, &held.map) && length_of(&held.terms) == 0
}

/// Whether the check of an update that is due with the lock held may have begun.
fn may_begin(policy: &Policy, site: Site, stage: usize, kept: bool, top: bool) -> bool
    ensures { result ≡ may_begin policy.now site stage kept top }
{
    stage == 1 && !top && clause_of(policy, site).is_some() && kept == asks_kept(policy, site)
}

/// Whether the note may stand at an instruction in the place of the one that is given.
pub fn may_stand(policy: &Policy, given: &NoteRef<'_>, note: &Note) -> bool
    ensures { result ≡ may_stand policy.now (note_borrowed given.now) note.now }
{
    match given {
        NoteRef::Held(held) => stands_for_held(policy, held, note),
        NoteRef::Owed {
            site,
            stage,
            kept,
            top,
        } => {
            same_owed(*site, *stage, *kept, *top, note)
                || may_begin(policy, *site, *stage, *kept, *top)
                    && stands_for_held(policy, &begun(policy, *site), note)
        }
        _ => same_note(given, note),
    }
}

// ---- no block

/// Whether a call needs no lock: one with clauses, of which none is before it, where the lock is not held round calls of its
/// method.
fn needs_no_grant(rules: &Rules<'_>, site: Site) -> bool
    ensures { result ≡ needs_no_grant rules.now.held rules.now.policy site }
{
    let method = u32::from(site.method);
    !holds_round(rules.held, method)
        && has_clauses(rules.policy, method)
        && clause_at(rules.policy, method, Phase8::Before).is_none()
}

/// Whether the thread is in no block: in the client's code, or before a call that needs no lock.
pub fn is_open(rules: &Rules<'_>, note: &Note) -> bool
    ensures { result ≡ is_open rules.now.held rules.now.policy note.now }
{
    match note {
        Note::Free => true,
        Note::Granted {
            site,
            locked,
            loaded,
            top,
        } => needs_no_grant(rules, *site) && !*locked && *loaded == 0 && !*top,
        _ => false,
    }
}

/// Whether the lock is about to be taken before a call that the policy has a clause for.
pub fn takes_for_call(policy: &Policy, note: &Note) -> bool
    ensures { result ≡ takes_for_call policy.now note.now }
{
    match note {
        Note::Taking(site) => {
            is_before(site.phase) && has_clauses(policy, u32::from(site.method))
        }
        _ => false,
    }
}
