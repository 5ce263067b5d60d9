//! Numbers of the names and descriptors that references have, and which of them each class declares.

ghost use Rattle.std.specs.Prelude.{◌≡◌, ◌==◌, ◌||◌, ◌&&◌, [], ℕ, List, Some, IfOk, OnOk, bytes_eq, if◌then◌else◌};
ghost use Rattle.std.specs.Ordering.{is_eq};
ghost use Rattle.mon_base.specs.declared.method.MethodId.{MethodId};
ghost use Rattle.api_listing.specs.Seen.{id_cmp};
ghost use Rattle.mon_base.specs.Persistent.{has_number};
ghost use Rattle.class_index.specs.Nearest.{field_reference, member_number, method_reference, own_of, reference, AreNumbers, AreOwn};

use crate::members::id_of;
use bytecode_model::{Found, MemberKind};
use class_codec::{ClassFile, Const, name_and_type_at};
use mon_base::{Bytes, List, MethodId, NoMemory};
use std::alloc::Global;
use std::collections::BTreeMap;

/// A number for each name and descriptor. They are noted without a class.
pub type Numbers = BTreeMap<MethodId, usize>;

/// Numbers for the names and descriptors of the references of the files to methods or to fields.
pub fn numbers_of(alloc: Global, kind: MemberKind, files: &[ClassFile]) -> Result<Numbers, NoMemory>
    ensures { IfOk result AreNumbers }
{
    let mut numbers = BTreeMap::new(alloc);
    for file in files {
        add_references(alloc, kind, file.pool.as_slice(), &mut numbers)?;
    }
    Ok(numbers)
}

fn add_references(
    alloc: Global,
    kind: MemberKind,
    pool: &[Const],
    numbers: &mut Numbers,
) -> Result<(), NoMemory>
    requires { AreNumbers numbers.old }
    ensures { OnOk result (AreNumbers numbers.new) }
{
    for constant in pool {
        if let Some((_, member)) = reference(kind, constant) {
            if let Some((name, desc)) = name_and_type_at(pool, member) {
                add_number(alloc, numbers, name, desc)?;
            }
        }
    }
    Ok(())
}

/// The class and the name with its type, if the constant refers to a member of the kind.
pub fn reference(kind: MemberKind, constant: &Const) -> Option<(u16, u16)>
    ensures { result ≡ reference kind constant.now }
{
    match kind {
        MemberKind::Method => method_reference(constant),
        MemberKind::Field => field_reference(constant),
    }
}

fn method_reference(constant: &Const) -> Option<(u16, u16)>
    ensures { result ≡ method_reference constant.now }
{
    match constant {
        Const::Method(class, member) => Some((*class, *member)),
        Const::IMethod(class, member) => Some((*class, *member)),
        _ => None,
    }
}

fn field_reference(constant: &Const) -> Option<(u16, u16)>
    ensures { result ≡ field_reference constant.now }
{
    match constant {
        Const::Field(class, member) => Some((*class, *member)),
        _ => None,
    }
}

/// Adds a number for the name and the descriptor, if they are new.
fn add_number(
    alloc: Global,
    numbers: &mut Numbers,
    name: &Bytes,
    desc: &Bytes,
) -> Result<(), NoMemory>
    requires { AreNumbers numbers.old }
    ensures { OnOk result (AreNumbers numbers.new) }
{
    let key = key_of(alloc, name, desc)?;
    if numbers.contains_key(&key) {
        return Ok(());
    }
    let number = numbers.len();
    numbers.insert(key, number)?;
    Ok(())
}

/// The name and the descriptor without a class.
pub fn key_of(alloc: Global, name: &Bytes, desc: &Bytes) -> Result<MethodId, NoMemory>
    ensures { IfOk result (λ key. key ≡ record { class = []; name = name.now; desc = desc.now }) }
{
    id_of(alloc, b"".as_slice(), name.as_slice(), desc.as_slice())
}

/// The number of the member's name and descriptor.
pub fn member_number(
    alloc: Global,
    numbers: &Numbers,
    id: &MethodId,
) -> Result<Option<usize>, NoMemory>
    ensures { IfOk result (λ number. number ≡ member_number numbers.now id.now) }
{
    let key = key_of(alloc, &id.name, &id.desc)?;
    match numbers.get(&key) {
        Some(number) => Ok(Some(*number)),
        None => Ok(None),
    }
}

/// The numbers of what each class declares.
pub type ByClass = BTreeMap<Bytes, List<usize>>;

/// The numbers of what each class declares, as far as that has a number.
pub fn by_class(
    alloc: Global,
    numbers: &Numbers,
    declared: &BTreeMap<MethodId, Found>,
) -> Result<ByClass, NoMemory>
    requires { AreNumbers numbers.now }
    ensures { IfOk result (λ own. AreOwn own numbers.now declared.now.entries) }
{
    let mut own = BTreeMap::new(alloc);
    for (id, _) in declared {
        add_declared(alloc, numbers, &mut own, id)?;
    }
    Ok(own)
}

/// Adds the number of what is declared, if it has one, to those of its class.
fn add_declared(
    alloc: Global,
    numbers: &Numbers,
    own: &mut ByClass,
    id: &MethodId,
) -> Result<(), NoMemory>
    requires { AreNumbers numbers.now }
    ensures { OnOk result ((q : MethodId) (n : ℕ) → member_number numbers.now q ≡ Some n
        → has_number (own_of own.new q.class) n ≡ (has_number (own_of own.old q.class) n || is_eq (id_cmp q id.now))) }
{
    if let Some(number) = member_number(alloc, numbers, id)? {
        add_own(alloc, own, &id.class, number)?;
    }
    Ok(())
}

fn add_own(alloc: Global, own: &mut ByClass, class: &Bytes, number: usize) -> Result<(), NoMemory>
    ensures { OnOk result ((q : List ℕ) (n : ℕ) → has_number (own_of own.new q) n
        ≡ (has_number (own_of own.old q) n || (bytes_eq class.now q && n == number))) }
{
    let mut numbers = taken(alloc, own, class);
    numbers.push(number)?;
    own.insert(class.copy(alloc)?, numbers)?;
    Ok(())
}

/// Takes out the numbers of the class; none where there are none.
fn taken(alloc: Global, own: &mut ByClass, class: &Bytes) -> List<usize>
    ensures was { result ≡ own_of own.old class.now }
    ensures left { (q : List ℕ) → own_of own.new q ≡ (if bytes_eq class.now q then [] else own_of own.old q) }
{
    match own.remove(class) {
        Some(numbers) => numbers,
        None => List::new(alloc),
    }
}

/// The numbers of what the class declares.
pub fn own_of<'a>(own: &'a ByClass, class: &Bytes) -> &'a [usize]
    ensures { result.now ≡ own_of own.now class.now }
{
    match own.get(class) {
        Some(numbers) => numbers.as_slice(),
        None => &[],
    }
}
