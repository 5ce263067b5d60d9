//! What the methods of a class link to.

ghost use Rattle.std.specs.Prelude.{◌≡◌, ◌≤◌, ◌<◌, ◌^◌, true, length, IfOk};
ghost use Rattle.std.specs.List.{AllByRecursion};
ghost use Rattle.class_codec.specs.Fits.{IsEncodable, FitsMember};
ghost use Rattle.insn_codec.specs.Fits as insns;
ghost use Rattle.insn_codec.specs.Reading.{code_of};
ghost use Rattle.insn_codec.specs.Encoding.{len_from, starts_of};
ghost use Rattle.mon_base.specs.Answer.{Answers, TellsFault};
ghost use Rattle.bytecode_model.specs.Heads.{all_classes, desc_of, head_of, name_of};
ghost use Rattle.bytecode_model.specs.LeftMethods.{left_to_library};
ghost use Rattle.bytecode_model.specs.SearchOrder.{search_order};
ghost use Rattle.class_index.specs.Library.{OverridesAs};
ghost use Rattle.bytecode_model.specs.Sound.{IsSoundMethod};
ghost use Rattle.class_linking.specs.Handlers.{handlers_linked};
ghost use Rattle.class_linking.specs.declared.fault.LinkFault.TheVariants as faults;
ghost use Rattle.class_linking.specs.Known.{AreRemembered};
ghost use Rattle.class_linking.specs.Linking.{bare, with_code, code_told, read_of, code_linked};
ghost use Rattle.class_linking.specs.Linking.{each_method_linked, method_linked, methods_linked, nothing_left};

use crate::fault::LinkFault;
use crate::handlers::{Starts, handlers_linked};
use crate::known::Known;
use crate::left_methods::left_to_library;
use crate::method_conditions::{is_allowed, overrides};
use crate::operands::operands_linked;
use bytecode_model::{Handlers, Method, Target, code_of, copy_class, copy_text};
use class_codec::{ClassFile, Code, Const, Member, TableEntry};
use class_index::Index;
use insn_codec::{CodeFault, Insn, read_code};
use mon_base::{Bytes, List, NoMemory};
use std::alloc::Global;

/// The methods of a class, or the first condition that one of them does not meet.
pub fn methods_linked(
    alloc: Global,
    index: &Index,
    file: &ClassFile,
) -> Result<List<Method>, LinkFault>
    requires { IsEncodable file.now }
    ensures answers { Answers LinkFault.Memory result (methods_linked index.now.files index.now.listing file.now) }
    ensures sound { IfOk result (AllByRecursion IsSoundMethod) }
{
    let class = copy_class(alloc, file.pool.as_slice(), file.this_class)?;
    let order = index.library_above(alloc, &class)?;
    let mut known = Known::new(alloc, file.pool.len())?;
    let order = order.as_slice();
    let methods = each_linked(alloc, index, order, file, &class, &mut known)?;
    nothing_left(alloc, index, order, file, &class)?;
    Ok(methods)
}

/// Whether the class of this name leaves no method to the library, or the first that it does.
fn nothing_left(
    alloc: Global,
    index: &Index,
    order: &[Bytes],
    file: &ClassFile,
    class: &Bytes,
) -> Result<(), LinkFault>
    requires class { class.now ≡ (head_of file.now).name }
    requires order { OverridesAs index.now.listing order.now (search_order (all_classes index.now.listing index.now.files) class.now) }
    ensures { Answers LinkFault.Memory result
        (nothing_left class.now (left_to_library index.now.files index.now.listing (head_of file.now))) }
{
    match left_to_library(alloc, index, order, file, class)? {
        Some(name) => Err(LinkFault::Overrides {
            class: class.copy(alloc)?,
            name,
        }),
        None => Ok(()),
    }
}

/// The same, where the name of the class is given, and what may be overridden.
fn each_linked(
    alloc: Global,
    index: &Index,
    order: &[Bytes],
    file: &ClassFile,
    class: &Bytes,
    known: &mut Known,
) -> Result<List<Method>, LinkFault>
    requires fits { IsEncodable file.now }
    requires name { class.now ≡ (head_of file.now).name }
    requires known { AreRemembered index.now.files index.now.listing file.now.pool known.old }
    requires order { OverridesAs index.now.listing order.now (search_order (all_classes index.now.listing index.now.files) class.now) }
    ensures answers { Answers LinkFault.Memory result (each_method_linked index.now.files index.now.listing file.now) }
    ensures sound { IfOk result (AllByRecursion IsSoundMethod) }
{
    let mut methods = Vec::with_capacity(alloc, file.methods.len())?;
    let mut number: u32 = 0;
    let mut left = file.methods.as_slice();
    while let [member, rest @ ..] = left {
        let method = method_linked(alloc, index, order, file, class, known, number, member)?;
        methods.push(method)?;
        number += 1;
        left = rest;
    }
    Ok(List::from_vec(methods))
}

fn method_linked(
    alloc: Global,
    index: &Index,
    order: &[Bytes],
    file: &ClassFile,
    class: &Bytes,
    known: &mut Known,
    method: u32,
    member: &Member,
) -> Result<Method, LinkFault>
    requires fits { FitsMember file.now.pool true member.now }
    requires name { class.now ≡ (head_of file.now).name }
    requires known { AreRemembered index.now.files index.now.listing file.now.pool known.old }
    requires order { OverridesAs index.now.listing order.now (search_order (all_classes index.now.listing index.now.files) class.now) }
    ensures answers { Answers LinkFault.Memory result (method_linked index.now.files index.now.listing file.now method member.now) }
    ensures sound { IfOk result IsSoundMethod }
    ensures known { AreRemembered index.now.files index.now.listing file.now.pool known.new }
{
    let pool = file.pool.as_slice();
    if !is_allowed(alloc, pool, member)? {
        return Err(left_out(alloc, class, pool, member));
    }
    if overrides(alloc, index, order, class, pool, member)? {
        return Err(overriding(alloc, class, pool, member));
    }
    match code_of(member.attrs.as_slice()) {
        Some(code) => code_linked(alloc, index, file, class, known, method, member, code),
        None => {
            let method = bare(alloc, file, member)?;
            Ok(method)
        }
    }
}

/// A method of this class that is none of the subset.
fn left_out(alloc: Global, class: &Bytes, pool: &[Const], member: &Member) -> LinkFault
    ensures { TellsFault LinkFault.Memory result (faults.Method class.now (name_of pool.now member.now)) }
{
    match names_of(alloc, class, pool, member) {
        Ok((class, name)) => LinkFault::Method { class, name },
        Err(NoMemory) => LinkFault::Memory,
    }
}

/// A method of this class that overrides one of the library.
fn overriding(alloc: Global, class: &Bytes, pool: &[Const], member: &Member) -> LinkFault
    ensures { TellsFault LinkFault.Memory result (faults.Overrides class.now (name_of pool.now member.now)) }
{
    match names_of(alloc, class, pool, member) {
        Ok((class, name)) => LinkFault::Overrides { class, name },
        Err(NoMemory) => LinkFault::Memory,
    }
}

/// The names of a class and of its method.
fn names_of(
    alloc: Global,
    class: &Bytes,
    pool: &[Const],
    member: &Member,
) -> Result<(Bytes, Bytes), NoMemory>
    ensures { IfOk result (λ names. names ≡ (class.now, name_of pool.now member.now)) }
{
    let class = class.copy(alloc)?;
    let name = copy_text(alloc, pool, member.name)?;
    Ok((class, name))
}

/// The name and the descriptor of a method.
fn texts_of(alloc: Global, pool: &[Const], member: &Member) -> Result<(Bytes, Bytes), NoMemory>
    ensures { IfOk result (λ texts. texts ≡ (name_of pool.now member.now, desc_of pool.now member.now)) }
{
    let name = copy_text(alloc, pool, member.name)?;
    let desc = copy_text(alloc, pool, member.desc)?;
    Ok((name, desc))
}

/// A method without code.
fn bare(alloc: Global, file: &ClassFile, member: &Member) -> Result<Method, NoMemory>
    ensures is { IfOk result (λ method. method ≡ bare file.now member.now) }
    ensures sound { IfOk result IsSoundMethod }
{
    let (name, desc) = texts_of(alloc, file.pool.as_slice(), member)?;
    Ok(Method {
        flags: member.flags,
        name,
        desc,
        max_stack: 0,
        max_locals: 0,
        insns: List::new(alloc),
        refs: List::new(alloc),
        handlers: Handlers::none(alloc),
    })
}

fn code_linked(
    alloc: Global,
    index: &Index,
    file: &ClassFile,
    class: &Bytes,
    known: &mut Known,
    method: u32,
    member: &Member,
    code: &Code,
) -> Result<Method, LinkFault>
    requires short { length code.now.code ≤ 65535 }
    requires table { length code.now.table < 2 ^ 16 }
    requires name { class.now ≡ (head_of file.now).name }
    requires known { AreRemembered index.now.files index.now.listing file.now.pool known.old }
    ensures answers { Answers LinkFault.Memory result (code_linked index.now.files index.now.listing file.now method member.now code.now) }
    ensures sound { IfOk result IsSoundMethod }
    ensures known { AreRemembered index.now.files index.now.listing file.now.pool known.new }
{
    let pool = file.pool.as_slice();
    let insns = read_insns(alloc, class, method, code.code.as_slice())?;
    let refs = operands_linked(alloc, index, class, pool, known, method, insns.as_slice())?;
    let table = code.table.as_slice();
    let handlers = table_linked(alloc, index, class, pool, method, insns.as_slice(), table)?;
    let made = with_code(alloc, file, member, code, insns, refs, handlers)?;
    Ok(made)
}

/// The exception table of a method with these instructions.
fn table_linked(
    alloc: Global,
    index: &Index,
    class: &Bytes,
    pool: &[Const],
    method: u32,
    insns: &[Insn],
    entries: &[TableEntry],
) -> Result<Handlers, LinkFault>
    requires short { len_from 0 insns.now ≤ 65535 }
    requires count { length insns.now ≤ 65535 }
    requires table { length entries.now < 2 ^ 16 }
    ensures { Answers LinkFault.Memory result
        (handlers_linked index.now.files index.now.listing class.now pool.now method (length insns.now) (starts_of insns.now) entries.now) }
{
    let starts = Starts::new(alloc, insns)?;
    let end = insns.len() as u32;
    let list = handlers_linked(alloc, index, class, pool, method, end, &starts, entries)?;
    let handlers = Handlers::new(alloc, list)?;
    Ok(handlers)
}

fn with_code(
    alloc: Global,
    file: &ClassFile,
    member: &Member,
    code: &Code,
    insns: List<Insn>,
    refs: List<Target>,
    handlers: Handlers,
) -> Result<Method, NoMemory>
    ensures { IfOk result (λ method. method ≡ with_code file.now member.now code.now insns refs handlers) }
{
    let (name, desc) = texts_of(alloc, file.pool.as_slice(), member)?;
    Ok(Method {
        flags: member.flags,
        name,
        desc,
        max_stack: code.max_stack,
        max_locals: code.max_locals,
        insns,
        refs,
        handlers,
    })
}

fn read_insns(
    alloc: Global,
    class: &Bytes,
    method: u32,
    code: &[u8],
) -> Result<List<Insn>, LinkFault>
    requires { length code.now ≤ 65535 }
    ensures answers { Answers LinkFault.Memory result (read_of class.now method (code_of code.now)) }
    ensures fits { IfOk result insns.IsEncodable }
    ensures len { IfOk result (λ insns. len_from 0 insns ≡ length code.now) }
    ensures count { IfOk result (λ insns. length insns ≤ 65535) }
{
    match read_code(alloc, code) {
        Ok(insns) => Ok(insns),
        Err(fault) => Err(code_told(alloc, class, method, fault)),
    }
}

fn code_told(alloc: Global, class: &Bytes, method: u32, fault: CodeFault) -> LinkFault
    ensures { TellsFault LinkFault.Memory result (code_told class.now method fault) }
{
    match fault {
        CodeFault::Memory => LinkFault::Memory,
        fault => match class.copy(alloc) {
            Ok(class) => LinkFault::Code {
                class,
                method,
                fault,
            },
            Err(_) => LinkFault::Memory,
        },
    }
}
