//! Reading class files. (The Java Virtual Machine Specification, section 4.1.)

ghost use Rattle.std.specs.Prelude.{◌≡◌, ◌<◌, ◌≤◌, length, Ok, Err, IfOk};
ghost use Rattle.class_codec.specs.declared.fault.ClassFault.TheVariants.{TooLong};
ghost use Rattle.class_codec.specs.Fits.{EncodesClass};
ghost use Rattle.mon_base.specs.Answer.{Reads, Answers};
ghost use Rattle.class_codec.specs.Reading.{head_at, body_at, file_at, class_of};

use crate::constants::pool;
use crate::fault::ClassFault;
use crate::items::counted;
use crate::place::{index, u2, u4};
use crate::pool::ConstKind;
use crate::tree::{ClassFile, Const};
use mon_base::{Cursor, List};
use std::alloc::Global;

/// How many bytes a class file may have.
pub const MAX_LEN: usize = 1_048_576;

/// What stands before the pool: the minor version.
#[tactic(auto, unfolding(crate::specs::Reading::head_at))]
fn head(from: &mut Cursor) -> Result<u16, ClassFault>
    ensures { Reads ClassFault.Memory result (head_at from.old) from.new }
{
    let magic = u4(from)?;
    if magic != 0xCAFE_BABE {
        return Err(ClassFault::Magic);
    }
    let minor = u2(from)?;
    let major = u2(from)?;
    if major != 49 {
        return Err(ClassFault::Version { major });
    }
    Ok(minor)
}

/// What stands after the pool.
#[tactic(auto, unfolding(crate::specs::Reading::body_at))]
fn body(
    alloc: Global,
    minor: u16,
    pool: List<Const>,
    from: &mut Cursor,
) -> Result<ClassFile, ClassFault>
    ensures { Reads ClassFault.Memory result (body_at minor pool from.old) from.new }
{
    let places = pool.as_slice();
    let flags = u2(from)?;
    let this_class = index(ConstKind::Class, places, from)?;
    let super_class = index(ConstKind::Class, places, from)?;
    let interfaces = counted(alloc, places, false, from)?;
    let fields = counted(alloc, places, false, from)?;
    let methods = counted(alloc, places, true, from)?;
    let attrs = counted(alloc, places, false, from)?;
    Ok(ClassFile {
        minor,
        pool,
        flags,
        this_class,
        super_class,
        interfaces,
        fields,
        methods,
        attrs,
    })
}

/// A class file.
#[tactic(auto, unfolding(crate::specs::Reading::file_at))]
fn class_file(alloc: Global, from: &mut Cursor) -> Result<ClassFile, ClassFault>
    ensures { Reads ClassFault.Memory result (file_at from.old) from.new }
{
    let minor = head(from)?;
    let pool = pool(alloc, from)?;
    body(alloc, minor, pool, from)
}

/// The class file that all the bytes are, of which there are at most 1,048,576.
#[tactic(auto, unfolding(crate::specs::Reading::class_of))]
fn all(alloc: Global, bytes: &[u8]) -> Result<ClassFile, ClassFault>
    ensures { Answers ClassFault.Memory result (class_of bytes.now) }
{
    if bytes.len() > MAX_LEN {
        return Err(ClassFault::TooLong {
            len: bytes.len() as u64,
        });
    }
    let mut from = Cursor::new(bytes);
    let file = class_file(alloc, &mut from)?;
    if !from.is_at_end() {
        return Err(ClassFault::Tail {
            at: from.position(),
        });
    }
    Ok(file)
}

/// The class file that the bytes are. The faults are those of [`ClassFault`], the first in the order of reading.
pub fn decode(alloc: Global, bytes: &[u8]) -> Result<ClassFile, ClassFault>
    // What is read is encoded so.
    ensures found { IfOk result (λ file. EncodesClass bytes.now file) }
    // What is encoded so is read, unless memory runs out.
    ensures only { (file : ClassFile) → EncodesClass bytes.now file → length bytes.now ≤ 1048576
        → Answers ClassFault.Memory result (Ok file) }
    // More bytes than a class file may have are refused before all else.
    ensures too_long { 1048576 < length bytes.now → Answers ClassFault.Memory result (Err (TooLong (length bytes.now))) }
    // Which fault it is: the first that reading meets.
    ensures exact { Answers ClassFault.Memory result (class_of bytes.now) }
{
    all(alloc, bytes)
}
