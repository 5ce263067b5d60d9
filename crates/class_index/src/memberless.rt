//! Classes that may have methods of the library, and quiet interfaces: none of these may have one, nor one above it.

ghost use Rattle.std.specs.Prelude.{◌≡◌, IfOk};
ghost use Rattle.std.specs.List.{list_all};
ghost use Rattle.api_listing.specs.Nearest.{interfaces_of};
ghost use Rattle.api_listing.specs.Seen.{has_name};
ghost use Rattle.bytecode_model.specs.SearchOrder.{interfaces_above};
ghost use Rattle.class_index.specs.Index.{NamesSeen};
ghost use Rattle.class_index.specs.Library.{may_own, is_of_java, is_memberless, AreMemberless};

use crate::classes::Classes;
use crate::places::add_name;
use crate::search::add_names;
use api_listing::ListedClass;
use bytecode_model::is_text;
use mon_base::{Bytes, List, NoMemory};
use std::alloc::Global;
use std::collections::BTreeSet;

/// The interfaces that the classes name, where all of them are quiet, and else none.
pub fn memberless_of(
    alloc: Global,
    classes: &Classes,
    owners: &BTreeSet<Bytes>,
    given: &[ListedClass],
) -> Result<BTreeSet<Bytes>, NoMemory>
    ensures { IfOk result (AreMemberless owners.now classes.now) }
{
    let names = interfaces_of(alloc, given)?;
    let memberless = set_of(alloc, names.as_slice())?;
    if are_memberless(classes, owners, &memberless, names.as_slice()) {
        Ok(memberless)
    } else {
        Ok(BTreeSet::new(alloc))
    }
}

/// The interfaces that the classes name.
pub fn interfaces_of(alloc: Global, classes: &[ListedClass]) -> Result<List<Bytes>, NoMemory>
    ensures { IfOk result (λ names. names ≡ interfaces_of classes.now) }
{
    let mut names = List::new(alloc);
    let mut left = classes;
    while let [class, rest @ ..] = left {
        add_names(alloc, &mut names, class.interfaces.as_slice())?;
        left = rest;
    }
    Ok(names)
}

/// The set of the names.
pub fn set_of(alloc: Global, names: &[Bytes]) -> Result<BTreeSet<Bytes>, NoMemory>
    ensures { IfOk result (λ set. NamesSeen set names.now) }
{
    let mut set = BTreeSet::new(alloc);
    for name in names {
        add_name(alloc, &mut set, name)?;
    }
    Ok(set)
}

fn are_memberless(
    classes: &Classes,
    owners: &BTreeSet<Bytes>,
    memberless: &BTreeSet<Bytes>,
    names: &[Bytes],
) -> bool
    ensures { result ≡ list_all (is_memberless owners.now classes.now memberless.now) names.now }
{
    names
        .iter()
        .all(|name| is_memberless(classes, owners, memberless, name))
}

fn is_memberless(
    classes: &Classes,
    owners: &BTreeSet<Bytes>,
    memberless: &BTreeSet<Bytes>,
    name: &Bytes,
) -> bool
    ensures { result ≡ is_memberless owners.now classes.now memberless.now name.now }
{
    !may_own(owners, name) && are_above_among(classes, memberless, name)
}

/// Whether the interfaces that the class of the name has itself are of the set.
fn are_above_among(classes: &Classes, set: &BTreeSet<Bytes>, name: &Bytes) -> bool
    ensures { result ≡ list_all (has_name set.now) (interfaces_above classes.now name.now) }
{
    match classes.named(name) {
        Some(class) => are_among(set, class.interfaces.as_slice()),
        None => true,
    }
}

/// Whether the names are of the set.
pub fn are_among(set: &BTreeSet<Bytes>, names: &[Bytes]) -> bool
    ensures { result ≡ list_all (has_name set.now) names.now }
{
    names.iter().all(|name| set.contains(name))
}

/// Whether the listing may give the class methods, or the class may have built-in ones that count.
pub fn may_own(owners: &BTreeSet<Bytes>, name: &Bytes) -> bool
    ensures { result ≡ may_own owners.now name.now }
{
    owners.contains(name) || is_of_java(name)
}

fn is_of_java(name: &Bytes) -> bool
    ensures { result ≡ is_of_java name.now }
{
    name.as_slice().starts_with(b"java/lang/".as_slice())
        && !is_text(name.as_slice(), "java/lang/Runnable")
}
