//! Whether the indices in a constant pool name what they should. (The Java Virtual Machine Specification, section 4.4.)

ghost use Rattle.std.specs.Prelude.{◌≡◌, ◌+◌, ◌<◌, ◌^◌, length};
ghost use Rattle.std.specs.List.{flat_map};
ghost use Rattle.class_codec.specs.Encoding.{constant};
ghost use Rattle.mon_base.specs.Answer.{Answers};
ghost use Rattle.class_codec.specs.Reading.{index_checked, pair_checked, constant_checked, all_checked};

use crate::fault::ClassFault;
use crate::pool::{ConstKind, names};
use crate::tree::Const;

/// Whether all indices of the pool, which stands from `start` to `end`, name what they should.
pub fn check_all(pool: &[Const], start: u64, end: u64) -> Result<(), ClassFault>
    requires { start + length (flat_map constant pool.now) ≡ end }
    ensures { Answers ClassFault.Memory result (all_checked pool.now pool.now start) }
{
    let mut at = start;
    let mut left = pool;
    while let [first, others @ ..] = left {
        check_constant(pool, first, at)?;
        at += len_of(first);
        left = others;
    }
    prove_eq!(at, end);
    Ok(())
}

/// Whether the index at a place of the file names a constant of the kind.
#[tactic(auto, unfolding(crate::specs::Reading::index_checked))]
fn check_index(pool: &[Const], kind: ConstKind, index: u16, at: u64) -> Result<(), ClassFault>
    ensures { Answers ClassFault.Memory result (index_checked pool.now kind index at) }
{
    if !names(kind, pool, index) {
        return Err(ClassFault::Index { at });
    }
    Ok(())
}

/// Whether two indices after a tag name constants of their kinds.
#[tactic(auto, unfolding(crate::specs::Reading::pair_checked))]
fn check_pair(
    pool: &[Const],
    kind: ConstKind,
    first: u16,
    other: ConstKind,
    second: u16,
    at: u64,
) -> Result<(), ClassFault>
    requires { at + 3 < 2 ^ 64 }
    ensures { Answers ClassFault.Memory result (pair_checked pool.now kind first other second at) }
{
    check_index(pool, kind, first, at + 1)?;
    check_index(pool, other, second, at + 3)
}

/// Whether the indices of a constant that begins at `at` name what they should.
fn check_constant(pool: &[Const], item: &Const, at: u64) -> Result<(), ClassFault>
    requires { at + length (constant item.now) < 2 ^ 64 }
    ensures { Answers ClassFault.Memory result (constant_checked pool.now item.now at) }
{
    match item {
        Const::Class(name) => check_index(pool, ConstKind::Utf8, *name, at + 1),
        Const::Str(text) => check_index(pool, ConstKind::Utf8, *text, at + 1),
        Const::Field(class, name) | Const::Method(class, name) | Const::IMethod(class, name) => {
            check_pair(
                pool,
                ConstKind::Class,
                *class,
                ConstKind::NameAndType,
                *name,
                at,
            )
        }
        Const::NameAndType(name, desc) => check_pair(
            pool,
            ConstKind::Utf8,
            *name,
            ConstKind::Utf8,
            *desc,
            at,
        ),
        _ => Ok(()),
    }
}

/// How many bytes a constant has in the file.
fn len_of(item: &Const) -> u64
    requires { length (constant item.now) < 2 ^ 64 }
    ensures { result ≡ length (constant item.now) }
{
    match item {
        Const::Utf8(text) => 3 + text.len() as u64,
        Const::Class(_) | Const::Str(_) => 3,
        Const::Long(_) | Const::Double(_) => 9,
        Const::Second => 0,
        _ => 5,
    }
}
