//! Writing notes.

ghost use Rattle.std.specs.Prelude.{◌≡◌, ◌++◌, OnOk};
ghost use Rattle.std.specs.List.{flat_map};
ghost use Rattle.mon_base.specs.Widths.{u1};
ghost use Rattle.cert_format.specs.Encoding.{encode_term, encode_terms, encode_phase, encode_site, encode_note};

use crate::note::{Note, Phase8, Site, Term};
use crate::writing::{flag, put_i4, put_u1, put_u2};
use mon_base::{Bytes, NoMemory};

/// Appends a term.
fn put_term(out: &mut Bytes, term: &Term) -> Result<(), NoMemory>
    ensures { OnOk result (out.new ≡ out.old ++ encode_term term.now) }
{
    match term {
        Term::Const(n) => {
            out.push(0)?;
            put_i4(out, *n)
        }
        Term::Var(var) => out.extend(&[1, *var]),
        Term::VarAdd(var, n) => {
            out.extend(&[2, *var])?;
            put_i4(out, *n)
        }
        Term::Arg(arg) => out.extend(&[3, *arg]),
        Term::Result => out.push(4),
        Term::Lock => out.push(5),
    }
}

/// Appends the terms, without a count.
fn put_map(out: &mut Bytes, terms: &[Term]) -> Result<(), NoMemory>
    ensures { OnOk result (out.new ≡ out.old ++ flat_map encode_term terms.now) }
{
    for term in terms {
        put_term(out, term)?;
    }
    Ok(())
}

/// Appends one byte of count, and the terms.
fn put_terms(out: &mut Bytes, terms: &[Term]) -> Result<(), NoMemory>
    ensures { OnOk result (out.new ≡ out.old ++ encode_terms terms.now) }
{
    put_u1(out, terms.len())?;
    put_map(out, terms)
}

/// Appends a phase.
fn put_phase(out: &mut Bytes, phase: Phase8) -> Result<(), NoMemory>
    ensures { OnOk result (out.new ≡ out.old ++ encode_phase phase) }
{
    let number = match phase {
        Phase8::Before => 0,
        Phase8::After => 1,
        Phase8::Exceptional => 2,
    };
    out.push(number)
}

/// Appends the kind of a note and its site.
fn put_site(out: &mut Bytes, kind: u8, site: &Site) -> Result<(), NoMemory>
    ensures { OnOk result (out.new ≡ out.old ++ u1 kind ++ encode_site site.now) }
{
    out.push(kind)?;
    put_u2(out, site.method as usize)?;
    put_phase(out, site.phase)?;
    put_u2(out, site.base as usize)
}

/// Appends a note.
pub fn put_note(out: &mut Bytes, note: &Note) -> Result<(), NoMemory>
    ensures { OnOk result (out.new ≡ out.old ++ encode_note note.now) }
{
    match note {
        Note::Free => out.push(0),
        Note::Taking(site) => put_site(out, 1, site),
        Note::Held {
            site,
            failed,
            holding,
            terms,
            map,
        } => {
            put_site(out, 2, site)?;
            out.extend(&[*failed, *holding])?;
            put_terms(out, terms.as_slice())?;
            put_map(out, map.as_slice())
        }
        Note::Granted {
            site,
            locked,
            loaded,
            top,
        } => {
            put_site(out, 3, site)?;
            out.extend(&[flag(*locked), *loaded, flag(*top)])
        }
        Note::Owed {
            site,
            stage,
            kept,
            top,
        } => {
            put_site(out, 4, site)?;
            out.extend(&[*stage, flag(*kept), flag(*top)])
        }
        Note::Stop { site, place } => {
            put_site(out, 5, site)?;
            out.push(*place)
        }
    }
}
