//! The entries that blocks name, each after those that it names itself.

ghost use Rattle.std.specs.Prelude.{◌≡◌, ◌+◌, ◌<◌, ◌≤◌, IfOk, OnOk, length};
ghost use Rattle.offset_patch.specs.Entries.{text, class, name_and_type, member, variable_name, variable_type, wanted};
ghost use Rattle.offset_patch.specs.Growth.{Finds, IsGrowth};

use crate::block::PoolWant;
use crate::constants::{Added, Text};
use crate::growth::{Growth, entry};
use bytecode_model::MemberKind;
use class_codec::Const;
use mon_base::{Bytes, NoMemory, push_count};
use std::alloc::Global;

/// The class that has a field for each variable.
const STATE: &[u8] = b"conspec/State";

/// The method that ends the program: its class, its name and its descriptor.
const SYSTEM: &[u8] = b"java/lang/System";

const EXIT: &[u8] = b"exit";

const EXIT_TYPE: &[u8] = b"(I)V";

/// The types of variables.
const BOOL: &[u8] = b"Z";

const INT: &[u8] = b"I";

/// Sees to it that the entry is there that a block names, and tells where.
pub fn wanted(
    alloc: Global,
    pool: &[Const],
    growth: &mut Growth,
    want: PoolWant,
) -> Result<u64, NoMemory>
    requires good { IsGrowth pool.now growth.old }
    ensures is { IfOk result (Finds (wanted want) pool.now growth.old growth.new) }
    ensures good { OnOk result (IsGrowth pool.now growth.new) }
{
    match want {
        PoolWant::StateClass => class(alloc, pool, growth, STATE),
        PoolWant::StateField { var, is_bool } => {
            let name = variable_name(alloc, var)?;
            member(
                alloc,
                pool,
                growth,
                MemberKind::Field,
                STATE,
                name.as_slice(),
                variable_type(is_bool),
            )
        }
        PoolWant::Exit => member(
            alloc,
            pool,
            growth,
            MemberKind::Method,
            SYSTEM,
            EXIT,
            EXIT_TYPE,
        ),
        PoolWant::Integer(n) => entry(pool, growth, Added::Integer(n)),
    }
}

/// The name of the variable of this index.
fn variable_name(alloc: Global, index: u32) -> Result<Bytes, NoMemory>
    ensures { IfOk result (λ name. name ≡ variable_name index) }
{
    let mut name = Bytes::from_slice(alloc, b"v")?;
    push_count(&mut name, u64::from(index))?;
    Ok(name)
}

/// The type of a variable.
fn variable_type(is_bool: bool) -> &'static [u8]
    ensures { result.now ≡ variable_type is_bool }
{
    if is_bool { BOOL } else { INT }
}

fn member(
    alloc: Global,
    pool: &[Const],
    growth: &mut Growth,
    kind: MemberKind,
    owner: &[u8],
    name: &[u8],
    desc: &[u8],
) -> Result<u64, NoMemory>
    requires good { IsGrowth pool.now growth.old }
    ensures is { IfOk result (Finds (member kind owner.now name.now desc.now) pool.now growth.old growth.new) }
    ensures good { OnOk result (IsGrowth pool.now growth.new) }
{
    let owner = class(alloc, pool, growth, owner)?;
    let member = name_and_type(alloc, pool, growth, name, desc)?;
    match kind {
        MemberKind::Field => entry(pool, growth, Added::Field(owner, member)),
        MemberKind::Method => entry(pool, growth, Added::Method(owner, member)),
    }
}

fn name_and_type(
    alloc: Global,
    pool: &[Const],
    growth: &mut Growth,
    name: &[u8],
    desc: &[u8],
) -> Result<u64, NoMemory>
    requires good { IsGrowth pool.now growth.old }
    ensures is { IfOk result (Finds (name_and_type name.now desc.now) pool.now growth.old growth.new) }
    ensures good { OnOk result (IsGrowth pool.now growth.new) }
    ensures below { IfOk result (λ at. at < length pool.now + length growth.new.added.keys) }
    ensures more { OnOk result (length growth.old.added.keys ≤ length growth.new.added.keys) }
{
    let name = text(alloc, pool, growth, name)?;
    let desc = text(alloc, pool, growth, desc)?;
    entry(pool, growth, Added::NameAndType(name, desc))
}

fn class(alloc: Global, pool: &[Const], growth: &mut Growth, name: &[u8]) -> Result<u64, NoMemory>
    requires good { IsGrowth pool.now growth.old }
    ensures is { IfOk result (Finds (class name.now) pool.now growth.old growth.new) }
    ensures good { OnOk result (IsGrowth pool.now growth.new) }
    ensures below { IfOk result (λ at. at < length pool.now + length growth.new.added.keys) }
{
    let name = text(alloc, pool, growth, name)?;
    entry(pool, growth, Added::Class(name))
}

fn text(alloc: Global, pool: &[Const], growth: &mut Growth, bytes: &[u8]) -> Result<u64, NoMemory>
    requires good { IsGrowth pool.now growth.old }
    ensures is { IfOk result (Finds (text bytes.now) pool.now growth.old growth.new) }
    ensures good { OnOk result (IsGrowth pool.now growth.new) }
    ensures below { IfOk result (λ at. at < length pool.now + length growth.new.added.keys) }
    ensures more { OnOk result (length growth.old.added.keys ≤ length growth.new.added.keys) }
{
    let bytes = Bytes::from_slice(alloc, bytes)?;
    entry(pool, growth, Added::Text(Text::new(bytes)))
}
