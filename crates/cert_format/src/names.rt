//! The table of names of a certificate.

ghost use Rattle.std.specs.Prelude.{List as Items, [], ◌∷◌, ◌++◌, IfOk};
ghost use Rattle.cert_format.specs.Names.{Name as Text};
ghost use Rattle.cert_format.specs.Index.{HasNames};
ghost use Rattle.mon_base.specs.Answer.{Reads, ReadsAs};
ghost use Rattle.cert_format.specs.Reading.{told_name, more_names_at, names_at};

use crate::fault::CertForm;
use crate::name::Name;
use crate::place::{taken, u2, u4};
use mon_base::{Cursor, List};
use std::alloc::Global;
use std::collections::BTreeSet;

/// The names, each of which stands once.
#[tactic(auto, unfolding(crate::specs::Reading::names_at))]
pub fn read_names(alloc: Global, from: &mut Cursor) -> Result<List<Name>, CertForm>
    ensures { Reads CertForm.Memory result (names_at from.old) from.new }
{
    let count = u4(from)?;
    several_names(alloc, count, from)
}

/// Reads that many names onto the list. Those that were seen are the ones that stand in it.
fn fill<'a>(
    names: &mut List<Name>,
    seen: &mut BTreeSet<&'a [u8]>,
    alloc: Global,
    count: u32,
    from: &mut Cursor<'a>,
) -> Result<(), CertForm>
    requires { HasNames names.old seen.old }
    ensures { ReadsAs CertForm.Memory (λ _. names.new) result (more_names_at count names.old from.old) from.new }
{
    for _ in 0..count {
        let name = next_name(seen, from)?;
        names.push(Name::from_slice(alloc, name)?)?;
    }
    Ok(())
}

/// That many names.
fn several_names(alloc: Global, count: u32, from: &mut Cursor) -> Result<List<Name>, CertForm>
    ensures { Reads CertForm.Memory result (more_names_at count [] from.old) from.new }
{
    let mut seen = BTreeSet::new(alloc);
    let mut names = List::new(alloc);
    fill(&mut names, &mut seen, alloc, count, from)?;
    Ok(names)
}

/// The next name, which is none of those that were seen. It is one of them then.
#[tactic(auto, unfolding(crate::specs::Reading::told_name))]
fn next_name<'a>(seen: &mut BTreeSet<&'a [u8]>, from: &mut Cursor<'a>) -> Result<&'a [u8], CertForm>
    ensures reads { (before : Items Text) → HasNames before seen.old
        → ReadsAs CertForm.Memory (λ b. b.now) result (told_name before from.old) from.new }
    ensures seen { (before : Items Text) → HasNames before seen.old → IfOk result (λ name. HasNames (before ++ name.now ∷ []) seen.new) }
{
    let len = u2(from)?;
    let at = from.position();
    let name = taken(len as usize, from)?;
    if !seen.insert(name)? {
        return Err(CertForm::Form { at });
    }
    Ok(name)
}
