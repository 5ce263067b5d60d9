//! The lines of a class, a method, a handler and an instruction.

ghost use Rattle.std.specs.Prelude.{◌≡◌, ◌++◌, OnOk};
ghost use Rattle.class_text.specs.Lines.{after_space, caught, class_line, method_line, handler_line, insn_line};

use crate::call::push_call;
use crate::instruction::{push_name, push_operands};
use crate::library::Library;
use crate::words::{push_count_word, push_word};
use bytecode_model::{class_at, text_at};
use class_codec::{ClassFile, Const, Member, TableEntry};
use insn_codec::Insn;
use mon_base::{Bytes, NoMemory, push_count};
use std::alloc::Global;

/// Appends the line of a class.
pub fn push_class_line(out: &mut Bytes, file: &ClassFile) -> Result<(), NoMemory>
    ensures { OnOk result (out.new ≡ out.old ++ class_line file.now) }
{
    let pool = file.pool.as_slice();
    out.extend("class".as_bytes())?;
    push_word(out, class_at(pool, file.this_class))?;
    push_word(out, "extends".as_bytes())?;
    push_word(out, class_at(pool, file.super_class))?;
    out.push(b'\n')
}

/// Appends the line of a method with room for so many operands and locals.
pub fn push_method_line(
    out: &mut Bytes,
    pool: &[Const],
    member: &Member,
    stack: u16,
    locals: u16,
) -> Result<(), NoMemory>
    ensures { OnOk result (out.new ≡ out.old ++ method_line pool.now member.now stack locals) }
{
    out.extend("method".as_bytes())?;
    push_word(out, text_at(pool, member.name))?;
    push_word(out, text_at(pool, member.desc))?;
    push_word(out, "stack".as_bytes())?;
    push_count_word(out, stack as u64)?;
    push_word(out, "locals".as_bytes())?;
    push_count_word(out, locals as u64)?;
    out.push(b'\n')
}

fn push_caught(out: &mut Bytes, pool: &[Const], class: u16) -> Result<(), NoMemory>
    ensures { OnOk result (out.new ≡ out.old ++ after_space (caught pool.now class)) }
{
    if class == 0 {
        return push_word(out, "any".as_bytes());
    }
    push_word(out, class_at(pool, class))
}

/// Appends the line of a handler.
pub fn push_handler_line(
    out: &mut Bytes,
    pool: &[Const],
    entry: &TableEntry,
) -> Result<(), NoMemory>
    ensures { OnOk result (out.new ≡ out.old ++ handler_line pool.now entry.now) }
{
    out.extend("handler".as_bytes())?;
    push_count_word(out, entry.from as u64)?;
    push_count_word(out, entry.to as u64)?;
    push_count_word(out, entry.at as u64)?;
    push_caught(out, pool, entry.class)?;
    out.push(b'\n')
}

/// Appends the line of the instruction of this index, which stands at this byte of the code.
pub fn push_insn_line(
    alloc: Global,
    out: &mut Bytes,
    library: &Library,
    pool: &[Const],
    index: u64,
    at: u32,
    insn: &Insn,
) -> Result<(), NoMemory>
    ensures { OnOk result (out.new ≡ out.old ++ insn_line library.now pool.now index at insn.now) }
{
    push_count(out, index)?;
    push_count_word(out, at as u64)?;
    push_name(out, insn)?;
    push_operands(out, insn)?;
    push_call(alloc, out, library, pool, insn)?;
    out.push(b'\n')
}
