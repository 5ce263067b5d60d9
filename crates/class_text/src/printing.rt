//! The text of class files.

ghost use Rattle.std.specs.Prelude.{◌≡◌, ◌++◌, ◌≤◌, ◌<◌, ◌^◌, true, length, slice_get, filter_map, Some};
ghost use Rattle.std.specs.Prelude.{option_copied, OnOk, IfOk};
ghost use Rattle.std.specs.List.{AllByRecursion, flat_map};
ghost use Rattle.class_codec.specs.Fits.{IsEncodable, FitsMember};
ghost use Rattle.insn_codec.specs.Reading.{code_of};
ghost use Rattle.insn_codec.specs.Encoding.{len_from, starts_of};
ghost use Rattle.bytecode_model.specs.Heads.{class_at};
ghost use Rattle.bytecode_model.specs.Conditions.{code_in};
ghost use Rattle.class_text.specs.Lines.{handler_line};
ghost use Rattle.class_text.specs.Shown.{insn_lines, code_told, read_of, body_shown, method_shown, texts_from, class_shown};
ghost use Rattle.mon_base.specs.Answer.{Answers, TellsFault};
ghost use Rattle.class_text.specs.Shown.{shown, Appends};

use crate::fault::ShowFault;
use crate::library::Library;
use crate::lines::{push_class_line, push_handler_line, push_insn_line, push_method_line};
use api_listing::Listing;
use bytecode_model::{class_at, code_of};
use class_codec::{Attr, ClassFile, Code, Const, Member, TableEntry};
use insn_codec::{CodeFault, Insn, read_code, starts};
use mon_base::{Bytes, List, NoMemory};
use std::alloc::Global;

/// The text of the class files: a line for each class, each method, each instruction and each handler. Else the first
/// method, in order, whose code is of no form.
pub fn show(alloc: Global, listing: &Listing, files: &[ClassFile]) -> Result<Bytes, ShowFault>
    requires { AllByRecursion IsEncodable files.now }
    ensures exact { Answers ShowFault.Memory result (shown listing.now files.now) }
{
    let library = Library::new(alloc, listing)?;
    let mut out = Bytes::new(alloc);
    push_classes(alloc, &mut out, &library, files)?;
    Ok(out)
}

fn push_classes(
    alloc: Global,
    out: &mut Bytes,
    library: &Library,
    files: &[ClassFile],
) -> Result<(), ShowFault>
    requires { AllByRecursion IsEncodable files.now }
    ensures { Appends result out.old out.new (shown library.now files.now) }
{
    let mut left = files;
    while let [file, rest @ ..] = left {
        push_class(alloc, out, library, file)?;
        left = rest;
    }
    Ok(())
}

fn push_class(
    alloc: Global,
    out: &mut Bytes,
    library: &Library,
    file: &ClassFile,
) -> Result<(), ShowFault>
    requires { IsEncodable file.now }
    ensures { Appends result out.old out.new (class_shown library.now file.now) }
{
    push_class_line(out, file)?;
    push_methods(alloc, out, library, file)
}

fn push_methods(
    alloc: Global,
    out: &mut Bytes,
    library: &Library,
    file: &ClassFile,
) -> Result<(), ShowFault>
    requires { IsEncodable file.now }
    ensures { Appends result out.old out.new (texts_from (method_shown library.now file.now) 0 file.now.methods) }
{
    let mut number: u32 = 0;
    let mut left = file.methods.as_slice();
    while let [member, rest @ ..] = left {
        push_method(alloc, out, library, file, number, member)?;
        number += 1;
        left = rest;
    }
    Ok(())
}

fn push_method(
    alloc: Global,
    out: &mut Bytes,
    library: &Library,
    file: &ClassFile,
    method: u32,
    member: &Member,
) -> Result<(), ShowFault>
    requires { FitsMember file.now.pool true member.now }
    ensures { Appends result out.old out.new (method_shown library.now file.now method member.now) }
{
    match code_of(member.attrs.as_slice()) {
        Some(code) => push_body(alloc, out, library, file, method, member, code),
        None => {
            push_method_line(out, file.pool.as_slice(), member, 0, 0)?;
            Ok(())
        }
    }
}

fn push_body(
    alloc: Global,
    out: &mut Bytes,
    library: &Library,
    file: &ClassFile,
    method: u32,
    member: &Member,
    code: &Code,
) -> Result<(), ShowFault>
    requires { length code.now.code ≤ 65535 }
    ensures { Appends result out.old out.new (body_shown library.now file.now method member.now (Some code.now)) }
{
    let pool = file.pool.as_slice();
    let insns = read_insns(
        alloc,
        class_at(pool, file.this_class),
        method,
        code.code.as_slice(),
    )?;
    push_method_line(out, pool, member, code.max_stack, code.max_locals)?;
    push_insns(alloc, out, library, pool, insns.as_slice())?;
    push_handlers(out, pool, code.table.as_slice())?;
    Ok(())
}

fn read_insns(
    alloc: Global,
    class: &[u8],
    method: u32,
    code: &[u8],
) -> Result<List<Insn>, ShowFault>
    requires { length code.now ≤ 65535 }
    ensures answers { Answers ShowFault.Memory result (read_of class.now method (code_of code.now)) }
    ensures len { IfOk result (λ insns. len_from 0 insns ≡ length code.now) }
{
    match read_code(alloc, code) {
        Ok(insns) => Ok(insns),
        Err(fault) => Err(code_told(alloc, class, method, fault)),
    }
}

fn code_told(alloc: Global, class: &[u8], method: u32, fault: CodeFault) -> ShowFault
    ensures { TellsFault ShowFault.Memory result (code_told class.now method fault) }
{
    match fault {
        CodeFault::Memory => ShowFault::Memory,
        fault => match Bytes::from_slice(alloc, class) {
            Ok(class) => ShowFault::Code {
                class,
                method,
                fault,
            },
            Err(_) => ShowFault::Memory,
        },
    }
}

fn push_insns(
    alloc: Global,
    out: &mut Bytes,
    library: &Library,
    pool: &[Const],
    insns: &[Insn],
) -> Result<(), NoMemory>
    requires { len_from 0 insns.now < 2 ^ 32 }
    ensures { OnOk result (out.new ≡ out.old ++ insn_lines library.now pool.now 0 (starts_of insns.now) insns.now) }
{
    let starts = starts(alloc, insns)?;
    push_insns_at(alloc, out, library, pool, starts.as_slice(), insns)
}

fn push_insns_at(
    alloc: Global,
    out: &mut Bytes,
    library: &Library,
    pool: &[Const],
    starts: &[u32],
    insns: &[Insn],
) -> Result<(), NoMemory>
    ensures { OnOk result (out.new ≡ out.old ++ insn_lines library.now pool.now 0 starts.now insns.now) }
{
    let mut index: u64 = 0;
    let mut places = starts;
    let mut left = insns;
    while let [insn, rest @ ..] = left {
        let [at, others @ ..] = places else {
            return Ok(());
        };
        push_insn_line(alloc, out, library, pool, index, *at, insn)?;
        index += 1;
        places = others;
        left = rest;
    }
    Ok(())
}

fn push_handlers(out: &mut Bytes, pool: &[Const], table: &[TableEntry]) -> Result<(), NoMemory>
    ensures { OnOk result (out.new ≡ out.old ++ flat_map (handler_line pool.now) table.now) }
{
    for entry in table {
        push_handler_line(out, pool, entry)?;
    }
    Ok(())
}
