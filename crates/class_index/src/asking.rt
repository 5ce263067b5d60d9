//! Interfaces of the files that ask for methods of the library. Where none above a class asks for a method of a class above it,
//! the class leaves none to the library.

ghost use Rattle.std.specs.Prelude.{◌≡◌, ◌++◌, ◌∷◌, [], map, IfOk, OnOk};
ghost use Rattle.std.specs.List.{list_any};
ghost use Rattle.mon_base.specs.declared.method.MethodId.{MethodId};
ghost use Rattle.api_listing.specs.Listing.{has_method};
ghost use Rattle.api_listing.specs.Seen.{has_id};
ghost use Rattle.bytecode_model.specs.LeftMethods.{is_asked};
ghost use Rattle.class_index.specs.Asking.{asks_of, is_asked_of, is_set_at, AreAsked};

use crate::library::is_of_library;
use crate::members::id_of;
use api_listing::Listing;
use bytecode_model::{is_interface, is_static, is_text, text_at};
use class_codec::{ClassFile, Const, Member};
use mon_base::{Bytes, List, MethodId, NoMemory};
use std::alloc::Global;
use std::collections::{BTreeMap, BTreeSet};

/// For classes of the library, whether each file is of an interface that asks for a method of the class.
pub type Asked = BTreeMap<Bytes, List<bool>>;

/// Adds what the files ask of these classes of the library.
pub fn add_asked(
    alloc: Global,
    files: &[ClassFile],
    listing: &Listing,
    methods: &BTreeSet<MethodId>,
    asked: &mut Asked,
    classes: &[Bytes],
) -> Result<(), NoMemory>
    requires methods { (q : MethodId) → has_id methods.now q ≡ has_method listing.now.methods q }
    requires asked { AreAsked files.now listing.now asked.old }
    ensures { OnOk result (AreAsked files.now listing.now asked.new) }
{
    for class in classes {
        if !asked.contains_key(class) {
            add_class(alloc, files, listing, methods, asked, class)?;
        }
    }
    Ok(())
}

fn add_class(
    alloc: Global,
    files: &[ClassFile],
    listing: &Listing,
    methods: &BTreeSet<MethodId>,
    asked: &mut Asked,
    class: &Bytes,
) -> Result<(), NoMemory>
    requires methods { (q : MethodId) → has_id methods.now q ≡ has_method listing.now.methods q }
    requires asked { AreAsked files.now listing.now asked.old }
    ensures { OnOk result (AreAsked files.now listing.now asked.new) }
{
    let flags = flags_of(alloc, files, listing, methods, class)?;
    asked.insert(class.copy(alloc)?, flags)?;
    Ok(())
}

/// Whether each file is of an interface that asks for a method of the class.
fn flags_of(
    alloc: Global,
    files: &[ClassFile],
    listing: &Listing,
    methods: &BTreeSet<MethodId>,
    class: &Bytes,
) -> Result<List<bool>, NoMemory>
    requires { (q : MethodId) → has_id methods.now q ≡ has_method listing.now.methods q }
    ensures { IfOk result (λ flags. flags ≡ map (asks_of listing.now class.now) files.now) }
{
    let mut flags = List::new(alloc);
    let mut left = files;
    while let [file, rest @ ..] = left {
        flags.push(asks_of(alloc, listing, methods, class, file)?)?;
        left = rest;
    }
    Ok(flags)
}

fn asks_of(
    alloc: Global,
    listing: &Listing,
    methods: &BTreeSet<MethodId>,
    class: &Bytes,
    file: &ClassFile,
) -> Result<bool, NoMemory>
    requires { (q : MethodId) → has_id methods.now q ≡ has_method listing.now.methods q }
    ensures { IfOk result (λ asks. asks ≡ asks_of listing.now class.now file.now) }
{
    if !is_interface(file.flags) {
        return Ok(false);
    }
    let members = file.methods.as_slice();
    any_asked(
        alloc,
        listing,
        methods,
        class,
        file.pool.as_slice(),
        members,
    )
}

/// Whether one of the methods is asked of the class.
fn any_asked(
    alloc: Global,
    listing: &Listing,
    methods: &BTreeSet<MethodId>,
    class: &Bytes,
    pool: &[Const],
    members: &[Member],
) -> Result<bool, NoMemory>
    requires { (q : MethodId) → has_id methods.now q ≡ has_method listing.now.methods q }
    ensures { IfOk result (λ asked. asked ≡ list_any (is_asked_of listing.now class.now pool.now) members.now) }
{
    let mut left = members;
    while let [member, rest @ ..] = left {
        if is_asked_of(alloc, listing, methods, class, pool, member)? {
            return Ok(true);
        }
        left = rest;
    }
    Ok(false)
}

fn is_asked_of(
    alloc: Global,
    listing: &Listing,
    methods: &BTreeSet<MethodId>,
    class: &Bytes,
    pool: &[Const],
    member: &Member,
) -> Result<bool, NoMemory>
    requires { (q : MethodId) → has_id methods.now q ≡ has_method listing.now.methods q }
    ensures { IfOk result (λ asked. asked ≡ is_asked_of listing.now class.now pool.now member.now) }
{
    if !is_asked(pool, member) {
        return Ok(false);
    }
    let (name, desc) = (text_at(pool, member.name), text_at(pool, member.desc));
    let id = id_of(alloc, class.as_slice(), name, desc)?;
    Ok(is_of_library(listing, methods, &id))
}

/// Whether an interface asks for the method: one of objects, other than the `run ()V` of a thread.
pub fn is_asked(pool: &[Const], member: &Member) -> bool
    ensures { result ≡ is_asked pool.now member.now }
{
    let name = text_at(pool, member.name);
    let desc = text_at(pool, member.desc);
    !is_static(member.flags) && !(is_text(name, "run") && is_text(desc, "()V"))
}

/// Whether one of the flags is set.
pub fn any_set(flags: &[bool]) -> bool
    ensures { result ≡ list_any (λ b. b) flags.now }
{
    flags.iter().any(|flag| *flag)
}

/// Whether the flag at the place is set, if there is one.
pub fn is_set_at(flags: &[bool], place: Option<usize>) -> bool
    ensures { result ≡ is_set_at flags.now place }
{
    match place {
        Some(at) => match flags.get(at) {
            Some(flag) => *flag,
            None => false,
        },
        None => false,
    }
}
