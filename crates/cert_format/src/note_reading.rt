//! Reading notes.

ghost use Rattle.std.specs.Prelude.{◌≡◌, []};
ghost use Rattle.mon_base.specs.Reading.{counted};
ghost use Rattle.mon_base.specs.Answer.{Reads, ReadsAs};
ghost use Rattle.cert_format.specs.Reading.{pair_at, term_at, term_of_kind, terms_at, phase_at, site_at};
ghost use Rattle.cert_format.specs.Reading.{held_at, granted_at, owed_at, stop_at, note_of_kind, note_at, free_at};

use crate::fault::CertForm;
use crate::note::{Note, Phase8, Site, Term};
use crate::place::{flag, i4, u1, u2};
use mon_base::{Cursor, List};
use std::alloc::Global;

/// A term that begins at `at`, after its kind.
#[tactic(auto, unfolding(crate::specs::Reading::term_of_kind, crate::specs::Reading::pair_at))]
fn term_of_kind(at: u64, kind: u8, from: &mut Cursor) -> Result<Term, CertForm>
    ensures { Reads CertForm.Memory result (term_of_kind at kind from.old) from.new }
{
    match kind {
        0 => i4(from).map(Term::Const),
        1 => u1(from).map(Term::Var),
        2 => {
            let var = u1(from)?;
            Ok(Term::VarAdd(var, i4(from)?))
        }
        3 => u1(from).map(Term::Arg),
        4 => Ok(Term::Result),
        5 => Ok(Term::Lock),
        _ => Err(CertForm::Form { at }),
    }
}

/// A term.
#[tactic(auto, unfolding(crate::specs::Reading::term_at))]
fn term(from: &mut Cursor) -> Result<Term, CertForm>
    ensures { Reads CertForm.Memory result (term_at from.old) from.new }
{
    let at = from.position();
    let kind = u1(from)?;
    term_of_kind(at, kind, from)
}

/// How many terms there is room for at most before they are read.
const MOST_TERMS: usize = 256;

/// Reads that many terms onto the list, which has none.
fn fill(terms: &mut List<Term>, count: u32, from: &mut Cursor) -> Result<(), CertForm>
    requires { terms.old ≡ [] }
    ensures { ReadsAs CertForm.Memory (λ _. terms.new) result (counted term_at count from.old) from.new }
{
    for _ in 0..count {
        let next = term(from)?;
        terms.push(next)?;
    }
    Ok(())
}

/// That many terms.
fn several_terms(alloc: Global, count: u32, from: &mut Cursor) -> Result<List<Term>, CertForm>
    ensures { Reads CertForm.Memory result (counted term_at count from.old) from.new }
{
    let mut terms = List::with_room(alloc, (count as usize).min(MOST_TERMS))?;
    fill(&mut terms, count, from)?;
    Ok(terms)
}

/// The terms of the stack, which one byte counts, and those of the map, one for each variable.
#[tactic(auto, unfolding(crate::specs::Reading::pair_at))]
fn stack_and_map(
    alloc: Global,
    vars: u32,
    from: &mut Cursor,
) -> Result<(List<Term>, List<Term>), CertForm>
    ensures { Reads CertForm.Memory result (pair_at terms_at (counted term_at vars) from.old) from.new }
{
    let stack = terms(alloc, from)?;
    let map = several_terms(alloc, vars, from)?;
    Ok((stack, map))
}

/// The terms that one byte counts.
#[tactic(auto, unfolding(crate::specs::Reading::terms_at))]
fn terms(alloc: Global, from: &mut Cursor) -> Result<List<Term>, CertForm>
    ensures { Reads CertForm.Memory result (terms_at from.old) from.new }
{
    let count = u1(from)?;
    several_terms(alloc, count as u32, from)
}

/// A phase.
#[tactic(auto, unfolding(crate::specs::Reading::phase_at, crate::specs::Reading::phase_of))]
fn phase(from: &mut Cursor) -> Result<Phase8, CertForm>
    ensures { Reads CertForm.Memory result (phase_at from.old) from.new }
{
    let at = from.position();
    let number = u1(from)?;
    match number {
        0 => Ok(Phase8::Before),
        1 => Ok(Phase8::After),
        2 => Ok(Phase8::Exceptional),
        _ => Err(CertForm::Form { at }),
    }
}

/// A site.
#[tactic(auto, unfolding(crate::specs::Reading::site_at, crate::specs::Reading::pair_at))]
fn site(from: &mut Cursor) -> Result<Site, CertForm>
    ensures { Reads CertForm.Memory result (site_at from.old) from.new }
{
    let method = u2(from)?;
    let phase = phase(from)?;
    let base = u2(from)?;
    Ok(Site {
        method,
        phase,
        base,
    })
}

/// What follows the kind of Held, with a map of so many variables.
#[tactic(auto, unfolding(crate::specs::Reading::held_at, crate::specs::Reading::pair_at))]
fn held(alloc: Global, vars: u32, from: &mut Cursor) -> Result<Note, CertForm>
    ensures { Reads CertForm.Memory result (held_at vars from.old) from.new }
{
    let site = site(from)?;
    let failed = u1(from)?;
    let holding = u1(from)?;
    let (terms, map) = stack_and_map(alloc, vars, from)?;
    Ok(Note::Held {
        site,
        failed,
        holding,
        terms,
        map,
    })
}

/// What follows the kind of Granted.
#[tactic(auto, unfolding(crate::specs::Reading::granted_at, crate::specs::Reading::pair_at))]
fn granted(from: &mut Cursor) -> Result<Note, CertForm>
    ensures { Reads CertForm.Memory result (granted_at from.old) from.new }
{
    let site = site(from)?;
    let locked = flag(from)?;
    let loaded = u1(from)?;
    let top = flag(from)?;
    Ok(Note::Granted {
        site,
        locked,
        loaded,
        top,
    })
}

/// What follows the kind of Owed.
#[tactic(auto, unfolding(crate::specs::Reading::owed_at, crate::specs::Reading::pair_at))]
fn owed(from: &mut Cursor) -> Result<Note, CertForm>
    ensures { Reads CertForm.Memory result (owed_at from.old) from.new }
{
    let site = site(from)?;
    let stage = u1(from)?;
    let kept = flag(from)?;
    let top = flag(from)?;
    Ok(Note::Owed {
        site,
        stage,
        kept,
        top,
    })
}

/// What follows the kind of Stop.
#[tactic(auto, unfolding(crate::specs::Reading::stop_at, crate::specs::Reading::pair_at))]
fn stop(from: &mut Cursor) -> Result<Note, CertForm>
    ensures { Reads CertForm.Memory result (stop_at from.old) from.new }
{
    let site = site(from)?;
    let place = u1(from)?;
    Ok(Note::Stop { site, place })
}

/// A note that begins at `at`, after its kind.
#[tactic(auto, unfolding(crate::specs::Reading::note_of_kind))]
fn note_of_kind(
    alloc: Global,
    vars: u32,
    at: u64,
    kind: u8,
    from: &mut Cursor,
) -> Result<Note, CertForm>
    ensures { Reads CertForm.Memory result (note_of_kind vars at kind from.old) from.new }
{
    match kind {
        0 => Ok(Note::Free),
        1 => site(from).map(Note::Taking),
        2 => held(alloc, vars, from),
        3 => granted(from),
        4 => owed(from),
        5 => stop(from),
        _ => Err(CertForm::Form { at }),
    }
}

/// The note of an instruction that is reached.
#[tactic(auto, unfolding(crate::specs::Reading::note_at))]
pub fn note(alloc: Global, vars: u32, from: &mut Cursor) -> Result<Note, CertForm>
    ensures { Reads CertForm.Memory result (note_at vars from.old) from.new }
{
    let at = from.position();
    let kind = u1(from)?;
    note_of_kind(alloc, vars, at, kind, from)
}

/// The note of an instruction that is not reached, which is Free.
#[tactic(auto, unfolding(crate::specs::Reading::free_at))]
pub fn free(from: &mut Cursor) -> Result<Note, CertForm>
    ensures { Reads CertForm.Memory result (free_at from.old) from.new }
{
    let at = from.position();
    if u1(from)? != 0 {
        return Err(CertForm::Form { at });
    }
    Ok(Note::Free)
}
