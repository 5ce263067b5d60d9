//! Reading attributes. (The Java Virtual Machine Specification, section 4.7.)

ghost use Rattle.std.specs.Prelude.{◌≡◌};
ghost use Rattle.mon_base.specs.Answer.{Reads, ReadsAs};
ghost use Rattle.class_codec.specs.Reading.{index_at, other_at, caught_at, table_entry_at};
ghost use Rattle.class_codec.specs.Reading.{instructions_at, contents_at, code_at, named_at, attribute_at, member_at};
ghost use Rattle.class_codec.specs.declared.pool.ConstKind.TheVariants as kinds;

use crate::fault::ClassFault;
use crate::items::{Item, counted};
use crate::place::{block, index, taken, u2, u4};
use crate::pool::{ConstKind, names, names_code};
use crate::tree::{Attr, Code, Const, Member, Other, TableEntry};
use mon_base::{Bytes, Cursor, List};
use std::alloc::Global;

/// The index of a class.
impl Item for u16 {
    ghost item_at = { λ pool _ p. index_at kinds.Class pool p };

    fn read(
        _alloc: Global,
        pool: &[Const],
        _of_method: bool,
        from: &mut Cursor,
    ) -> Result<u16, ClassFault> {
        index(ConstKind::Class, pool, from)
    }
}

impl Item for TableEntry {
    ghost item_at = { λ pool _ p. table_entry_at pool p };

    #[tactic(auto, unfolding(crate::specs::Reading::table_entry_at))]
    fn read(
        _alloc: Global,
        pool: &[Const],
        _of_method: bool,
        from: &mut Cursor,
    ) -> Result<TableEntry, ClassFault> {
        let first = u2(from)?;
        let to = u2(from)?;
        let handler = u2(from)?;
        let class = caught(pool, from)?;
        Ok(TableEntry {
            from: first,
            to,
            at: handler,
            class,
        })
    }
}

impl Item for Other {
    ghost item_at = { λ pool _ p. other_at pool p };

    #[tactic(auto, unfolding(crate::specs::Reading::other_at))]
    fn read(
        alloc: Global,
        pool: &[Const],
        _of_method: bool,
        from: &mut Cursor,
    ) -> Result<Other, ClassFault> {
        let name = index(ConstKind::Utf8, pool, from)?;
        let bytes = block(alloc, from)?;
        Ok(Other { name, bytes })
    }
}

impl Item for Attr {
    ghost item_at = { λ pool of_method p. attribute_at pool of_method p };

    #[tactic(auto, unfolding(crate::specs::Reading::attribute_at))]
    fn read(
        alloc: Global,
        pool: &[Const],
        of_method: bool,
        from: &mut Cursor,
    ) -> Result<Attr, ClassFault> {
        let name = index(ConstKind::Utf8, pool, from)?;
        let is_code = of_method && names_code(pool, name);
        named(alloc, is_code, pool, name, from)
    }
}

impl Item for Member {
    ghost item_at = { λ pool of_method p. member_at pool of_method p };

    #[tactic(auto, unfolding(crate::specs::Reading::member_at))]
    fn read(
        alloc: Global,
        pool: &[Const],
        of_method: bool,
        from: &mut Cursor,
    ) -> Result<Member, ClassFault> {
        let flags = u2(from)?;
        let name = index(ConstKind::Utf8, pool, from)?;
        let desc = index(ConstKind::Utf8, pool, from)?;
        let attrs = counted(alloc, pool, of_method, from)?;
        Ok(Member {
            flags,
            name,
            desc,
            attrs,
        })
    }
}

/// An attribute after its name.
#[tactic(auto, unfolding(crate::specs::Reading::named_at))]
fn named(
    alloc: Global,
    is_code: bool,
    pool: &[Const],
    name: u16,
    from: &mut Cursor,
) -> Result<Attr, ClassFault>
    ensures { Reads ClassFault.Memory result (named_at is_code pool.now name from.old) from.new }
{
    if is_code {
        return code(alloc, pool, name, from).map(Attr::Code);
    }
    let bytes = block(alloc, from)?;
    Ok(Attr::Other(Other { name, bytes }))
}

/// A Code attribute after its name. Its contents end exactly at its length.
#[tactic(auto, unfolding(crate::specs::Reading::code_at))]
fn code(alloc: Global, pool: &[Const], name: u16, from: &mut Cursor) -> Result<Code, ClassFault>
    ensures { Reads ClassFault.Memory result (code_at pool.now name from.old) from.new }
{
    let len = u4(from)?;
    let mut part = from.part(len as usize);
    let code = contents(alloc, pool, name, &mut part)?;
    let at = part.position();
    if !part.is_at_end() {
        return Err(ClassFault::Tail { at });
    }
    from.take(len as usize).ok_or(ClassFault::Short { at })?;
    Ok(code)
}

/// What stands in a Code attribute.
#[tactic(auto, unfolding(crate::specs::Reading::contents_at))]
fn contents(alloc: Global, pool: &[Const], name: u16, from: &mut Cursor) -> Result<Code, ClassFault>
    ensures { Reads ClassFault.Memory result (contents_at pool.now name from.old) from.new }
{
    let max_stack = u2(from)?;
    let max_locals = u2(from)?;
    let code = Bytes::from_slice(alloc, instructions(from)?)?;
    let table = counted(alloc, pool, false, from)?;
    let attrs = counted(alloc, pool, false, from)?;
    Ok(Code {
        name,
        max_stack,
        max_locals,
        code,
        table,
        attrs,
    })
}

/// The bytes of a method's code: their length, which is 1 to 65,535, and that many bytes.
#[tactic(auto, unfolding(crate::specs::Reading::code_len_at, crate::specs::Reading::instructions_at))]
fn instructions<'a>(from: &mut Cursor<'a>) -> Result<&'a [u8], ClassFault>
    ensures { ReadsAs ClassFault.Memory (λ b. b.now) result (instructions_at from.old) from.new }
{
    let at = from.position();
    let len = u4(from)?;
    if len < 1 || 65535 < len {
        return Err(ClassFault::Index { at });
    }
    taken(len as usize, from)
}

/// The index of the class that is caught, or 0 for any.
#[tactic(auto, unfolding(crate::specs::Reading::caught_at))]
fn caught(pool: &[Const], from: &mut Cursor) -> Result<u16, ClassFault>
    ensures { Reads ClassFault.Memory result (caught_at pool.now from.old) from.new }
{
    let at = from.position();
    let class = u2(from)?;
    if class != 0 && !names(ConstKind::Class, pool, class) {
        return Err(ClassFault::Index { at });
    }
    Ok(class)
}
