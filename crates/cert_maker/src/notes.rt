//! The note of an instruction by its role in the block of a call.

ghost use Rattle.std.specs.Prelude.{◌≡◌, false, if◌then◌else◌, IfOk};
ghost use Rattle.cert_format.specs.declared.note.Note.TheVariants.{Granted, Owed};
ghost use Rattle.conspec_tree.specs.declared.types.Phase.TheVariants.{Before, After};
ghost use Rattle.block_template.specs.declared.item.Role.TheVariants as roles;
ghost use Rattle.conspec_automaton.specs.Sound.{IsPolicy};
ghost use Rattle.cert_maker.specs.Noting.{ask_note, atom_of, made_note, note_of, site_of, taken_note, update_note, updating_note};
ghost use Rattle.cert_maker.specs.Noting.{branch_at};
ghost use Rattle.cert_maker.specs.Small.{IsSmall};

use crate::called::{Called, byte, site_of};
use crate::clauses::branch_at;
use crate::locks::{lock_note, unlock_note};
use crate::terms::{after_updates, ask_terms, first_updates, update_terms};
use block_logic::needs;
use block_template::Role;
use cert_format::{Note, Site, Term};
use conspec_automaton::{Branch, Policy};
use conspec_tree::Phase;
use mon_base::{List, NoMemory};
use std::alloc::Global;

/// The note of an instruction of this role.
pub fn note_of(alloc: Global, policy: &Policy, call: Called, role: Role) -> Result<Note, NoMemory>
    requires policy { IsPolicy policy.now }
    ensures { IfOk result (λ note. note ≡ note_of policy.now call role) }
{
    match role {
        Role::Save { .. } | Role::Give | Role::Leave | Role::Rethrow | Role::Unreached => {
            Ok(Note::Free)
        }
        Role::Lock { phase, pushed } => Ok(lock_note(policy, call, phase, pushed)),
        Role::Ask {
            phase,
            branch,
            atom,
            done,
        } => ask_note(alloc, policy, site_of(call, phase), branch, atom, done),
        Role::Update {
            phase,
            branch,
            update,
            done,
        } => update_note(alloc, policy, site_of(call, phase), branch, update, done),
        Role::Taken { phase, branch } => taken_note(alloc, policy, site_of(call, phase), branch),
        Role::Stop { phase, done } => Ok(Note::Stop {
            site: site_of(call, phase),
            place: byte(done),
        }),
        Role::Unlock {
            phase,
            checked,
            pushed,
        } => Ok(unlock_note(policy, call, phase, checked, pushed)),
        Role::Load { loaded, locked } => Ok(granted(call, locked, byte(loaded))),
        Role::Call { locked } => Ok(called_note(policy, call, locked)),
        Role::Keep { locked } => Ok(kept_note(call, locked)),
    }
}

fn granted(call: Called, locked: bool, loaded: u8) -> Note
    ensures { result ≡ Granted (site_of call Before) locked loaded false }
{
    Note::Granted {
        site: site_of(call, Phase::Before),
        locked,
        loaded,
        top: false,
    }
}

/// Before the call, with all arguments loaded.
fn called_note(policy: &Policy, call: Called, locked: bool) -> Note
    ensures { result ≡ note_of policy.now call (roles.Call locked) }
{
    let site = site_of(call, Phase::Before);
    let loaded = needs(policy, u32::from(site.method)).min(255) as u8;
    granted(call, locked, loaded)
}

/// After the call, before its result is kept.
fn kept_note(call: Called, locked: bool) -> Note
    ensures { result ≡ Owed (site_of call After) (if locked then 1 else 0) false false }
{
    Note::Owed {
        site: site_of(call, Phase::After),
        stage: u8::from(locked),
        kept: false,
        top: false,
    }
}

// ---- a check

/// Of an atom's comparison so many steps are done.
fn ask_note(
    alloc: Global,
    policy: &Policy,
    site: Site,
    branch: u32,
    atom: u32,
    done: u32,
) -> Result<Note, NoMemory>
    requires policy { IsPolicy policy.now }
    ensures { IfOk result (λ note. note ≡ ask_note policy.now site branch atom done (atom_of (branch_at policy.now site branch) atom)) }
{
    let Some(of) = branch_at(policy, site, branch) else {
        return Ok(Note::Free);
    };
    let Some(asked) = of.atoms.as_slice().get(atom as usize) else {
        return Ok(Note::Free);
    };
    Ok(Note::Held {
        site,
        failed: byte(branch),
        holding: byte(atom),
        terms: ask_terms(alloc, *asked, done)?,
        map: after_updates(alloc, policy, &[])?,
    })
}

/// Of an update so many steps are done.
fn update_note(
    alloc: Global,
    policy: &Policy,
    site: Site,
    branch: u32,
    update: u32,
    done: u32,
) -> Result<Note, NoMemory>
    requires policy { IsPolicy policy.now }
    ensures { IfOk result (λ note. note ≡ update_note policy.now site branch update done) }
{
    match branch_at(policy, site, branch) {
        Some(of) => updating_note(alloc, policy, site, branch, update, done, of),
        None => Ok(Note::Free),
    }
}

fn updating_note(
    alloc: Global,
    policy: &Policy,
    site: Site,
    branch: u32,
    update: u32,
    done: u32,
    of: &Branch,
) -> Result<Note, NoMemory>
    requires policy { IsPolicy policy.now }
    requires small { IsSmall of.now }
    ensures { IfOk result (λ note. note ≡ updating_note policy.now site branch update done of.now) }
{
    let terms = match of.updates.as_slice().get(update as usize) {
        Some(next) => update_terms(alloc, *next, done)?,
        None => List::new(alloc),
    };
    made_note(alloc, policy, site, branch, update as usize, terms, of)
}

/// All updates of the branch are made.
fn taken_note(alloc: Global, policy: &Policy, site: Site, branch: u32) -> Result<Note, NoMemory>
    requires policy { IsPolicy policy.now }
    ensures { IfOk result (λ note. note ≡ taken_note policy.now site branch) }
{
    let Some(of) = branch_at(policy, site, branch) else {
        return Ok(Note::Free);
    };
    let made = of.updates.len();
    made_note(alloc, policy, site, branch, made, List::new(alloc), of)
}

/// All atoms of the branch hold, and so many of its updates are made.
fn made_note(
    alloc: Global,
    policy: &Policy,
    site: Site,
    branch: u32,
    made: usize,
    terms: List<Term>,
    of: &Branch,
) -> Result<Note, NoMemory>
    requires policy { IsPolicy policy.now }
    ensures { IfOk result (λ note. note ≡ made_note policy.now site branch made terms of.now) }
{
    let updates = first_updates(of.updates.as_slice(), made);
    Ok(Note::Held {
        site,
        failed: byte(branch),
        holding: of.atoms.len().min(255) as u8,
        terms,
        map: after_updates(alloc, policy, updates)?,
    })
}
