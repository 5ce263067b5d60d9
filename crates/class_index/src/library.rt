//! The classes above a class that may have methods of the library. Their list is made once for all given classes from
//! which the way up leads to one class by nothing but steps: by classes that may have none, and whose interfaces are
//! quiet.

ghost use Rattle.std.specs.Prelude.{◌≡◌, ◌+◌, ◌++◌, ◌∷◌, ◌&&◌, [], not, ℕ, List, length, IfOk, IfSome, OnOk};
ghost use Rattle.std.specs.List.{filter};
ghost use Rattle.api_listing.specs.declared.types.ListedClass.{ListedClass};
ghost use Rattle.mon_base.specs.declared.method.MethodId.{MethodId};
ghost use Rattle.api_listing.specs.BuiltIn.{is_built_in};
ghost use Rattle.api_listing.specs.Listing.{has_method};
ghost use Rattle.api_listing.specs.Seen.{has_id};
ghost use Rattle.bytecode_model.specs.Conditions.{is_of_library, is_run};
ghost use Rattle.bytecode_model.specs.SearchOrder.{search_order};
ghost use Rattle.class_index.specs.Library.{may_own, owners_up, AreMemberless, AreShared, IsShared, Owners};

use crate::classes::Classes;
use crate::memberless::{are_among, may_own, memberless_of};
use crate::search::{add_copy, add_names, search_order};
use api_listing::{ListedClass, Listing, is_built_in};
use bytecode_model::{ByName, is_text, note, noted};
use mon_base::{Bytes, List, MethodId, NoMemory};
use std::alloc::Global;
use std::collections::{BTreeMap, BTreeSet};

/// Which of the lists is that of a class, and how many classes up no more are found.
#[derive(Clone, Copy)]
pub struct Above {
    pub place: usize,
    pub height: usize,
}

/// Lists of classes, which of them is that of a class, and interfaces that are quiet.
#[derive(Drop)]
pub struct Shared {
    pub places: ByName<Above>,
    pub lists: List<List<Bytes>>,
    pub memberless: BTreeSet<Bytes>,
}

/// The lists of these classes, each made once.
pub fn shared_of(
    alloc: Global,
    classes: &Classes,
    owners: &BTreeSet<Bytes>,
    given: &[ListedClass],
) -> Result<Shared, NoMemory>
    ensures { IfOk result (AreShared owners.now classes.now) }
{
    let memberless = memberless_of(alloc, classes, owners, given)?;
    let mut shared = nothing_shared(alloc, memberless);
    add_given(alloc, classes, owners, &mut shared, given)?;
    Ok(shared)
}

/// No lists yet, with these quiet interfaces.
fn nothing_shared(alloc: Global, memberless: BTreeSet<Bytes>) -> Shared
    ensures { (owners : Owners) (classes : List ListedClass) → AreMemberless owners classes memberless → AreShared owners classes result }
{
    Shared {
        places: BTreeMap::new(alloc),
        lists: List::new(alloc),
        memberless,
    }
}

/// Adds which list is that of each of the given classes.
fn add_given(
    alloc: Global,
    classes: &Classes,
    owners: &BTreeSet<Bytes>,
    shared: &mut Shared,
    given: &[ListedClass],
) -> Result<(), NoMemory>
    requires { AreShared owners.now classes.now shared.old }
    ensures { OnOk result (AreShared owners.now classes.now shared.new) }
{
    for class in given {
        add_class(alloc, classes, owners, shared, &class.name)?;
    }
    Ok(())
}

/// Adds which list is that of the class, and of those up to the first that is known or is no mere step.
fn add_class(
    alloc: Global,
    classes: &Classes,
    owners: &BTreeSet<Bytes>,
    shared: &mut Shared,
    name: &Bytes,
) -> Result<(), NoMemory>
    requires { AreShared owners.now classes.now shared.old }
    ensures { OnOk result (AreShared owners.now classes.now shared.new) }
{
    let Some((end, steps)) = end_of(classes, owners, shared, name) else {
        return Ok(());
    };
    let Some(above) = above_of(alloc, classes, owners, shared, end)? else {
        return Ok(());
    };
    let Some(height) = above.height.checked_add(steps) else {
        return Ok(());
    };
    let place = above.place;
    add_steps(
        alloc,
        classes,
        owners,
        shared,
        name,
        steps,
        Above { place, height },
    )
}

/// The first class from this one upwards that is known or is no mere step, and how many steps lead there.
fn end_of<'a>(
    classes: &'a Classes,
    owners: &BTreeSet<Bytes>,
    shared: &Shared,
    name: &'a Bytes,
) -> Option<(&'a Bytes, usize)>
    requires { AreMemberless owners.now classes.now shared.now.memberless }
    ensures { IfSome result (λ end. (n : ℕ) → owners_up owners.now classes.now (n + end.1) name.now
        ≡ owners_up owners.now classes.now n end.0.now) }
{
    let mut at = name;
    for steps in 0..classes.len() {
        if shared.places.contains_key(at.as_slice()) {
            return Some((at, steps));
        }
        let Some(parent) = step_from(classes, owners, &shared.memberless, at) else {
            return Some((at, steps));
        };
        at = parent;
    }
    None
}

/// The superclass, where the class may have no method of the library and its interfaces are quiet.
fn step_from<'a>(
    classes: &'a Classes,
    owners: &BTreeSet<Bytes>,
    memberless: &BTreeSet<Bytes>,
    name: &Bytes,
) -> Option<&'a Bytes>
    requires { AreMemberless owners.now classes.now memberless.now }
    ensures { IfSome result (λ parent. (n : ℕ) → owners_up owners.now classes.now (n + 1) name.now
        ≡ owners_up owners.now classes.now n parent.now) }
{
    let class = classes.named(name)?;
    if are_among(memberless, class.interfaces.as_slice()) && !may_own(owners, &class.name) {
        Some(&class.parent)
    } else {
        None
    }
}

/// The list of the class, which is made if it is not there.
fn above_of(
    alloc: Global,
    classes: &Classes,
    owners: &BTreeSet<Bytes>,
    shared: &mut Shared,
    name: &Bytes,
) -> Result<Option<Above>, NoMemory>
    requires { AreShared owners.now classes.now shared.old }
    ensures shared { OnOk result (AreShared owners.now classes.now shared.new) }
    ensures is { IfOk result (λ found. IfSome found (IsShared owners.now classes.now shared.new.lists name.now)) }
{
    if let Some(above) = noted(&shared.places, name.as_slice()) {
        return Ok(Some(above));
    }
    let order = search_order(alloc, classes, name)?;
    if order.len() >= classes.len() {
        return Ok(None);
    }
    let above = Above {
        place: shared.lists.len(),
        height: order.len(),
    };
    add_list(alloc, owners, &mut shared.lists, order.as_slice())?;
    Ok(Some(above))
}

/// Adds the list of those of the classes that may have methods of the library.
fn add_list(
    alloc: Global,
    owners: &BTreeSet<Bytes>,
    lists: &mut List<List<Bytes>>,
    order: &[Bytes],
) -> Result<(), NoMemory>
    ensures { OnOk result (lists.new ≡ lists.old ++ filter (may_own owners.now) order.now ∷ []) }
{
    let names = owners_among(alloc, owners, order)?;
    lists.push(names)?;
    Ok(())
}

/// Notes that list for the class, and for those so many steps up.
fn add_steps(
    alloc: Global,
    classes: &Classes,
    owners: &BTreeSet<Bytes>,
    shared: &mut Shared,
    name: &Bytes,
    steps: usize,
    above: Above,
) -> Result<(), NoMemory>
    requires shared { AreShared owners.now classes.now shared.old }
    requires above { IsShared owners.now classes.now shared.old.lists name.now above }
    ensures { OnOk result (AreShared owners.now classes.now shared.new) }
{
    let mut at = name;
    let mut height = above.height;
    let place = above.place;
    for _ in 0..steps {
        note(alloc, &mut shared.places, at, Above { place, height })?;
        let Some(parent) = step_from(classes, owners, &shared.memberless, at) else {
            return Ok(());
        };
        let Some(less) = height.checked_sub(1) else {
            return Ok(());
        };
        height = less;
        at = parent;
    }
    note(alloc, &mut shared.places, at, Above { place, height })?;
    Ok(())
}

/// Those of the classes in which a member of the class is looked for that may have methods of the library.
pub fn owners_above(
    alloc: Global,
    classes: &Classes,
    owners: &BTreeSet<Bytes>,
    shared: &Shared,
    name: &Bytes,
) -> Result<List<Bytes>, NoMemory>
    requires { AreShared owners.now classes.now shared.now }
    ensures { IfOk result (λ above. above ≡ filter (may_own owners.now) (search_order classes.now name.now)) }
{
    if let Some(names) = known_above(classes, shared, name) {
        let mut above = List::new(alloc);
        add_names(alloc, &mut above, names.as_slice())?;
        return Ok(above);
    }
    let order = search_order(alloc, classes, name)?;
    owners_among(alloc, owners, order.as_slice())
}

/// The list of the class, where it is known and the way up leaves the classes.
fn known_above<'a>(classes: &Classes, shared: &'a Shared, name: &Bytes) -> Option<&'a List<Bytes>>
    ensures { IfSome result (λ names. (owners : Owners) → AreShared owners classes.now shared.now
        → owners_up owners classes.now (length classes.now) name.now ≡ names.now) }
{
    let above = noted(&shared.places, name.as_slice())?;
    if above.height > classes.len() {
        return None;
    }
    shared.lists.as_slice().get(above.place)
}

/// Those of the classes that may have methods of the library.
pub fn owners_among(
    alloc: Global,
    owners: &BTreeSet<Bytes>,
    order: &[Bytes],
) -> Result<List<Bytes>, NoMemory>
    ensures { IfOk result (λ some. some ≡ filter (may_own owners.now) order.now) }
{
    let mut some = List::new(alloc);
    let mut left = order;
    while let [name, rest @ ..] = left {
        add_owner(alloc, owners, &mut some, name)?;
        left = rest;
    }
    Ok(some)
}

/// Whether the library declares the method in this very class. That a Thread or a Runnable runs counts for nothing.
pub fn is_of_library(listing: &Listing, methods: &BTreeSet<MethodId>, id: &MethodId) -> bool
    requires { (q : MethodId) → has_id methods.now q ≡ has_method listing.now.methods q }
    ensures { result ≡ is_of_library listing.now id.now }
{
    methods.contains(id) || is_built_in_but_run(id)
}

fn is_built_in_but_run(id: &MethodId) -> bool
    ensures { result ≡ (is_built_in id.now.class id.now.name id.now.desc && not (is_run id.now.name id.now.desc)) }
{
    is_built_in(id.class.as_slice(), id.name.as_slice(), id.desc.as_slice()) && !is_run(id)
}

fn is_run(id: &MethodId) -> bool
    ensures { result ≡ is_run id.now.name id.now.desc }
{
    is_text(id.name.as_slice(), "run") && is_text(id.desc.as_slice(), "()V")
}

fn add_owner(
    alloc: Global,
    owners: &BTreeSet<Bytes>,
    some: &mut List<Bytes>,
    name: &Bytes,
) -> Result<(), NoMemory>
    ensures { OnOk result (some.new ≡ some.old ++ filter (may_own owners.now) (name.now ∷ [])) }
{
    if may_own(owners, name) {
        add_copy(alloc, some, name)?;
    }
    Ok(())
}
