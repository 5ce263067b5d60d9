//! The notes where the lock is taken and left.

ghost use Rattle.std.specs.Prelude.{◌≡◌};
ghost use Rattle.cert_format.specs.declared.note.Note.TheVariants.{Owed};
ghost use Rattle.cert_maker.specs.Noting.{left_note, lock_note, unlock_note};

use crate::called::{Called, site_of};
use block_logic::asks_kept;
use cert_format::{Note, Site};
use conspec_automaton::Policy;
use conspec_tree::Phase;

/// Where the lock is to be taken; `pushed`, its class is on top.
pub fn lock_note(policy: &Policy, call: Called, phase: Phase, pushed: bool) -> Note
    ensures { result ≡ lock_note policy.now call phase pushed }
{
    let site = site_of(call, phase);
    if !matches!(phase, Phase::Before) {
        return owed(site, 0, asks_kept(policy, site), pushed);
    }
    if pushed {
        Note::Taking(site)
    } else {
        Note::Free
    }
}

/// Where the lock is to be left, after a check or where none was made.
pub fn unlock_note(policy: &Policy, call: Called, phase: Phase, checked: bool, pushed: bool) -> Note
    ensures { result ≡ unlock_note policy.now call phase checked pushed }
{
    let site = site_of(call, phase);
    if matches!(phase, Phase::Before) {
        return Note::Granted {
            site,
            locked: true,
            loaded: 0,
            top: pushed,
        };
    }
    left_note(policy, site, checked, pushed)
}

fn left_note(policy: &Policy, site: Site, checked: bool, pushed: bool) -> Note
    ensures { result ≡ left_note policy.now site checked pushed }
{
    if checked {
        owed(site, 2, asks_kept(policy, site), pushed)
    } else {
        owed(site, 1, false, pushed)
    }
}

fn owed(site: Site, stage: u8, kept: bool, top: bool) -> Note
    ensures { result ≡ Owed site stage kept top }
{
    Note::Owed {
        site,
        stage,
        kept,
        top,
    }
}
