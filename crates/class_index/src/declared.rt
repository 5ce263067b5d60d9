//! What is declared, in ordered maps: by the files, by the listing, and built in.

ghost use Rattle.std.specs.Prelude.{◌≡◌, ◌||◌, ◌∷◌, [], ◌+◌, ◌<◌, ◌≤◌, ◌^◌, ℕ, List, length, IfOk, OnOk, map};
ghost use Rattle.std.specs.List.{AllByRecursion};
ghost use Rattle.mon_base.specs.declared.method.MethodId.{MethodId};
ghost use Rattle.class_codec.specs.Fits.{IsEncodable};
ghost use Rattle.api_listing.specs.BuiltIn.{is_method};
ghost use Rattle.api_listing.specs.Seen.{has_id, has_name};
ghost use Rattle.api_listing.specs.Listing.{has_method, IsFew};
ghost use Rattle.class_index.specs.Index.{AreFirst, Notes, declared_of};
ghost use Rattle.class_index.specs.Library.{is_owner};
ghost use Rattle.bytecode_model.specs.Members.{target_in, members_of, member_declared, file_members, given_from};
ghost use Rattle.bytecode_model.specs.Members.{listed_from, listed_fields_from, row_declared, rows_from};
ghost use Rattle.bytecode_model.specs.Members.{methods_declared, fields_declared};

use crate::members::id_of;
use crate::places::add_name;
use api_listing::{ListedMethod, Listing, METHODS};
use bytecode_model::{Found, MemberKind, Target, class_at, is_static, text_at};
use class_codec::{ClassFile, Const, Member};
use mon_base::{Bytes, MethodId, NoMemory};
use std::alloc::Global;
use std::collections::{BTreeMap, BTreeSet};

/// What the methods, or the fields, that are declared are found by: the first of each name counts.
pub fn first_declared(
    alloc: Global,
    kind: MemberKind,
    files: &[ClassFile],
    listing: &Listing,
) -> Result<BTreeMap<MethodId, Found>, NoMemory>
    requires count { length files.now ≤ 1001 }
    requires fits { AllByRecursion IsEncodable files.now }
    requires listed { IsFew listing.now }
    ensures { IfOk result (AreFirst (declared_of kind files.now listing.now)) }
{
    let mut found = BTreeMap::new(alloc);
    add_declared(alloc, &mut found, kind, files, listing)?;
    Ok(found)
}

/// Adds the methods, or the fields.
fn add_declared(
    alloc: Global,
    found: &mut BTreeMap<MethodId, Found>,
    kind: MemberKind,
    files: &[ClassFile],
    listing: &Listing,
) -> Result<(), NoMemory>
    requires count { length files.now ≤ 1001 }
    requires fits { AllByRecursion IsEncodable files.now }
    requires listed { IsFew listing.now }
    ensures { OnOk result (Notes (declared_of kind files.now listing.now) found.old found.new) }
{
    match kind {
        MemberKind::Method => add_methods(alloc, found, files, listing),
        MemberKind::Field => add_fields(alloc, found, files, listing),
    }
}

/// Adds the methods of the files, the listed and the built-in ones.
fn add_methods(
    alloc: Global,
    found: &mut BTreeMap<MethodId, Found>,
    files: &[ClassFile],
    listing: &Listing,
) -> Result<(), NoMemory>
    requires count { length files.now ≤ 1001 }
    requires fits { AllByRecursion IsEncodable files.now }
    requires listed { length listing.now.methods ≤ 20000 }
    ensures { OnOk result (Notes (methods_declared files.now listing.now) found.old found.new) }
{
    add_files(alloc, found, MemberKind::Method, files)?;
    add_listed(alloc, found, listing.methods.as_slice())?;
    add_rows(alloc, found, METHODS.as_slice())?;
    Ok(())
}

/// Adds the fields of the files and the listed ones.
fn add_fields(
    alloc: Global,
    found: &mut BTreeMap<MethodId, Found>,
    files: &[ClassFile],
    listing: &Listing,
) -> Result<(), NoMemory>
    requires count { length files.now ≤ 1001 }
    requires fits { AllByRecursion IsEncodable files.now }
    requires listed { length listing.now.fields ≤ 20000 }
    ensures { OnOk result (Notes (fields_declared files.now listing.now) found.old found.new) }
{
    add_files(alloc, found, MemberKind::Field, files)?;
    add_listed_fields(alloc, found, listing.fields.as_slice())?;
    Ok(())
}

/// Adds a declaration, if its name is new.
fn add_first(
    alloc: Global,
    found: &mut BTreeMap<MethodId, Found>,
    id: MethodId,
    first: Found,
) -> Result<(), NoMemory>
    ensures { OnOk result (Notes ((id, first) ∷ []) found.old found.new) }
{
    if found.contains_key(&id) {
        return Ok(());
    }
    found.insert(id, first)?;
    Ok(())
}

fn add_files(
    alloc: Global,
    found: &mut BTreeMap<MethodId, Found>,
    kind: MemberKind,
    files: &[ClassFile],
) -> Result<(), NoMemory>
    requires count { length files.now ≤ 1001 }
    requires fits { AllByRecursion IsEncodable files.now }
    ensures { OnOk result (Notes (given_from kind 0 files.now) found.old found.new) }
{
    let mut class: u32 = 0;
    let mut left = files;
    while let [file, rest @ ..] = left {
        add_file(alloc, found, kind, class, file)?;
        class += 1;
        left = rest;
    }
    Ok(())
}

fn members_of(kind: MemberKind, file: &ClassFile) -> &[Member]
    requires { IsEncodable file.now }
    ensures members { result.now ≡ members_of kind file.now }
    ensures count { length result.now < 2 ^ 16 }
{
    match kind {
        MemberKind::Method => file.methods.as_slice(),
        MemberKind::Field => file.fields.as_slice(),
    }
}

fn add_file(
    alloc: Global,
    found: &mut BTreeMap<MethodId, Found>,
    kind: MemberKind,
    class: u32,
    file: &ClassFile,
) -> Result<(), NoMemory>
    requires { IsEncodable file.now }
    ensures { OnOk result (Notes (file_members kind class file.now) found.old found.new) }
{
    let pool = file.pool.as_slice();
    let name = class_at(pool, file.this_class);
    let mut index: u32 = 0;
    let mut left = members_of(kind, file);
    while let [member, rest @ ..] = left {
        add_member(alloc, found, kind, name, pool, class, index, member)?;
        index += 1;
        left = rest;
    }
    Ok(())
}

fn target_in(kind: MemberKind, class: u32, index: u32) -> Target
    ensures { result ≡ target_in kind class index }
{
    match kind {
        MemberKind::Method => Target::Method {
            class,
            method: index,
        },
        MemberKind::Field => Target::Field {
            class,
            field: index,
        },
    }
}

fn add_member(
    alloc: Global,
    found: &mut BTreeMap<MethodId, Found>,
    kind: MemberKind,
    name: &[u8],
    pool: &[Const],
    class: u32,
    index: u32,
    member: &Member,
) -> Result<(), NoMemory>
    ensures { OnOk result (Notes (member_declared kind name.now pool.now class index member.now ∷ []) found.old found.new) }
{
    let desc = text_at(pool, member.desc);
    let id = id_of(alloc, name, text_at(pool, member.name), desc)?;
    let first = Found {
        target: target_in(kind, class, index),
        is_static: is_static(member.flags),
    };
    add_first(alloc, found, id, first)
}

fn add_listed(
    alloc: Global,
    found: &mut BTreeMap<MethodId, Found>,
    methods: &[ListedMethod],
) -> Result<(), NoMemory>
    requires { length methods.now ≤ 20000 }
    ensures { OnOk result (Notes (listed_from 0 methods.now) found.old found.new) }
{
    let mut index: u32 = 0;
    let mut left = methods;
    while let [method, rest @ ..] = left {
        let id = method.id.copy(alloc)?;
        let first = Found {
            target: Target::ApiMethod(index),
            is_static: method.is_static,
        };
        add_first(alloc, found, id, first)?;
        index += 1;
        left = rest;
    }
    Ok(())
}

fn add_listed_fields(
    alloc: Global,
    found: &mut BTreeMap<MethodId, Found>,
    fields: &[MethodId],
) -> Result<(), NoMemory>
    requires { length fields.now ≤ 20000 }
    ensures { OnOk result (Notes (listed_fields_from 0 fields.now) found.old found.new) }
{
    let mut index: u32 = 0;
    let mut left = fields;
    while let [id, rest @ ..] = left {
        let id = id.copy(alloc)?;
        let first = Found {
            target: Target::ApiField(index),
            is_static: true,
        };
        add_first(alloc, found, id, first)?;
        index += 1;
        left = rest;
    }
    Ok(())
}

fn add_rows(
    alloc: Global,
    found: &mut BTreeMap<MethodId, Found>,
    rows: &[(&str, &str, &str, bool)],
) -> Result<(), NoMemory>
    requires { length rows.now ≤ 20000 }
    ensures { OnOk result (Notes (rows_from 0 (map (λ r. (r.0.now, r.1.now, r.2.now, r.3)) rows.now)) found.old found.new) }
{
    let mut index: u32 = 0;
    let mut left = rows;
    while let [row, rest @ ..] = left {
        add_row(alloc, found, index, row)?;
        index += 1;
        left = rest;
    }
    Ok(())
}

fn add_row(
    alloc: Global,
    found: &mut BTreeMap<MethodId, Found>,
    index: u32,
    row: &(&str, &str, &str, bool),
) -> Result<(), NoMemory>
    ensures { OnOk result (Notes (row_declared index (row.now.0.now, row.now.1.now, row.now.2.now, row.now.3) ∷ []) found.old found.new) }
{
    let id = id_of(alloc, row.0.as_bytes(), row.1.as_bytes(), row.2.as_bytes())?;
    let first = Found {
        target: Target::Builtin(index),
        is_static: row.3,
    };
    add_first(alloc, found, id, first)
}

/// The methods of a listing.
pub fn listed_methods(
    alloc: Global,
    methods: &[ListedMethod],
) -> Result<BTreeSet<MethodId>, NoMemory>
    ensures { IfOk result (λ ids. (q : MethodId) → has_id ids q ≡ has_method methods.now q) }
{
    let mut ids = BTreeSet::new(alloc);
    for method in methods {
        add_id(alloc, &mut ids, &method.id)?;
    }
    Ok(ids)
}

fn add_id(alloc: Global, ids: &mut BTreeSet<MethodId>, id: &MethodId) -> Result<(), NoMemory>
    ensures { OnOk result ((q : MethodId) → has_id ids.new q ≡ (is_method q.class q.name q.desc id.now || has_id ids.old q)) }
{
    ids.insert(id.copy(alloc)?)?;
    Ok(())
}

/// The classes of the methods of a listing.
pub fn owners_of(alloc: Global, methods: &[ListedMethod]) -> Result<BTreeSet<Bytes>, NoMemory>
    ensures { IfOk result (λ names. (q : List ℕ) → has_name names q ≡ is_owner methods.now q) }
{
    let mut names = BTreeSet::new(alloc);
    for method in methods {
        add_name(alloc, &mut names, &method.id.class)?;
    }
    Ok(names)
}
