//! The code of a method with blocks in their places.

ghost use Rattle.std.specs.Prelude.{◌≡◌, ◌+◌, ◌++◌, ◌<◌, ◌≤◌, ◌^◌, IfOk, OnOk, Err, length, map};
ghost use Rattle.std.specs.List.{AllByRecursion, filter_map};
ghost use Rattle.insn_codec.specs.Fits.{IsInsn};
ghost use Rattle.insn_codec.specs.Encoding.{len_from};
ghost use Rattle.insn_codec.specs.Writing.{written};
ghost use Rattle.offset_patch.specs.Entries.{with_wants, IsThere};
ghost use Rattle.mon_base.specs.Answer.{Answers, AnswersAs, Fails};
ghost use Rattle.offset_patch.specs.Fault.{code_fitted, IsCounted};
ghost use Rattle.offset_patch.specs.Fits.{IsBlockInsn, IsSite};
ghost use Rattle.offset_patch.specs.Length.{length_of};
ghost use Rattle.offset_patch.specs.Splicing.{want_of, part_of, fronts_of, count_of, put, parts_from, CanStand};
ghost use Rattle.offset_patch.specs.Splicing.{spliced, wants_of, block_wants, grown, code_with, bytes_spliced};
ghost use Rattle.offset_patch.specs.Splicing.{as_spliced, handlers_with, splice};

use crate::block::{Block, BlockInsn};
use crate::entries::Entries;
use crate::fault::{Size, SpliceFault};
use crate::fronts::{aimed, count_of, fronts_of, origins_of, part_of};
use crate::handlers::handlers_with;
use crate::length::length_of;
use crate::lines::attrs_spliced;
use crate::operands::parts_named;
use crate::sizes::{OPERANDS, fitted};
use crate::tables::{catching, table_spliced};
use bytecode_model::{Handlers, Method, Origin};
use class_codec::Code;
use insn_codec::{CodeOverflow, Insn, starts, write_code};
use mon_base::{Bytes, List, NoMemory};
use std::alloc::Global;

/// A method with its blocks, as the linked program has it, with where its instructions come from, and its code, whose bytes are those
/// of the method's instructions.
#[derive(Drop)]
pub struct Spliced {
    pub method: Method,
    pub origins: List<Origin>,
    pub code: Code,
}

/// The method with its blocks, of which there is one at least, where `conspec/State` is the class of the index `state`. What the
/// blocks name is added to the pool.
pub fn splice(
    alloc: Global,
    state: u32,
    class: &Bytes,
    number: u32,
    entries: &mut Entries,
    method: &Method,
    code: &Code,
    locals: u32,
    sites: &[Option<Block>],
) -> Result<Spliced, SpliceFault>
    requires few { length method.now.insns < 2 ^ 16 }
    requires insns { AllByRecursion IsInsn method.now.insns }
    requires each { length sites.now ≡ length method.now.insns }
    requires sites { AllByRecursion IsSite sites.now }
    requires room { code.now.max_stack + 3 < 2 ^ 16 }
    requires slots { code.now.max_locals + locals < 2 ^ 16 }
    requires handlers { length method.now.handlers < 2 ^ 16 }
    ensures is { Answers SpliceFault.Memory result
        (splice state class.now number (grown entries.old sites.now) method.now code.now locals sites.now) }
    ensures pool { OnOk result (entries.new ≡ grown entries.old sites.now) }
    ensures few { OnOk result (length entries.new < 2 ^ 16) }
{
    add_wants(alloc, entries, sites)?;
    let rows = code.table.as_slice().len() as u64 + catching(sites);
    fitted(alloc, class, number, Size::Entries, rows)?;
    fitted(alloc, class, number, Size::Pool, entries.count())?;
    let length = length_of(method.insns.as_slice(), sites);
    fitted(alloc, class, number, Size::Length, length)?;
    method_put(
        alloc,
        state,
        class,
        number,
        entries,
        method,
        code,
        locals as u16,
        sites,
    )
}

/// The method with its blocks, where the pool and the length fit.
fn method_put(
    alloc: Global,
    state: u32,
    class: &Bytes,
    number: u32,
    entries: &mut Entries,
    method: &Method,
    code: &Code,
    locals: u16,
    sites: &[Option<Block>],
) -> Result<Spliced, SpliceFault>
    requires few { length method.now.insns < 2 ^ 16 }
    requires insns { AllByRecursion IsInsn method.now.insns }
    requires each { length sites.now ≡ length method.now.insns }
    requires sites { AllByRecursion IsSite sites.now }
    requires room { code.now.max_stack + 3 < 2 ^ 16 }
    requires slots { code.now.max_locals + locals < 2 ^ 16 }
    requires pool { length entries.old < 2 ^ 16 }
    requires there { AllByRecursion (IsThere entries.old) (wants_of sites.now) }
    requires length { length_of method.now.insns sites.now < 2 ^ 16 }
    requires handlers { length method.now.handlers < 2 ^ 16 }
    ensures is { AnswersAs SpliceFault.Memory (λ made. made.code) result
        (bytes_spliced class.now number entries.old method.now code.now locals sites.now) }
    ensures made { IfOk result (λ made. made ≡ as_spliced state entries.old method.now sites.now made.code) }
    ensures pool { OnOk result (entries.new ≡ entries.old) }
{
    let fronts = fronts_of(alloc, sites)?;
    let fronts = fronts.as_slice();
    let insns = parts(alloc, entries, fronts, method.insns.as_slice(), sites)?;
    let code = code_put(
        alloc,
        class,
        number,
        entries,
        method,
        code,
        locals,
        sites,
        fronts,
        insns.as_slice(),
    )?;
    let refs = parts_named(alloc, state, method.refs.as_slice(), sites)?;
    let handlers = own_and_moved(alloc, fronts, method, sites)?;
    let (name, desc) = texts_of(alloc, method)?;
    let origins = origins_of(alloc, sites)?;
    Ok(Spliced {
        method: Method {
            flags: method.flags,
            name,
            desc,
            max_stack: code.max_stack,
            max_locals: code.max_locals,
            insns,
            refs,
            handlers,
        },
        origins,
        code,
    })
}

/// The handlers of these blocks, and then those of the method.
fn own_and_moved(
    alloc: Global,
    fronts: &[u32],
    method: &Method,
    sites: &[Option<Block>],
) -> Result<Handlers, NoMemory>
    requires count { count_of sites.now < 2 ^ 16 }
    requires sites { AllByRecursion IsSite sites.now }
    requires fronts { fronts.now ≡ fronts_of sites.now }
    requires handlers { length method.now.handlers < 2 ^ 16 }
    ensures { IfOk result (λ handlers. handlers ≡ handlers_with sites.now method.now.handlers) }
{
    let list = handlers_with(alloc, fronts, sites, method.handlers.as_slice())?;
    Handlers::new(alloc, list)
}

/// The name and the descriptor of a method.
fn texts_of(alloc: Global, method: &Method) -> Result<(Bytes, Bytes), NoMemory>
    ensures { IfOk result (λ texts. texts ≡ (method.now.name, method.now.desc)) }
{
    let name = method.name.copy(alloc)?;
    let desc = method.desc.copy(alloc)?;
    Ok((name, desc))
}

/// The code with these instructions, which are those of the method with its blocks.
fn code_put(
    alloc: Global,
    class: &Bytes,
    number: u32,
    entries: &Entries,
    method: &Method,
    code: &Code,
    locals: u16,
    sites: &[Option<Block>],
    fronts: &[u32],
    insns: &[Insn],
) -> Result<Code, SpliceFault>
    requires few { length method.now.insns < 2 ^ 16 }
    requires own { len_from 0 method.now.insns < 2 ^ 32 }
    requires sites { AllByRecursion IsSite sites.now }
    requires parts { count_of sites.now < 2 ^ 16 }
    requires room { code.now.max_stack + 3 < 2 ^ 16 }
    requires slots { code.now.max_locals + locals < 2 ^ 16 }
    requires fronts { fronts.now ≡ fronts_of sites.now }
    requires insns { insns.now ≡ spliced entries.now method.now.insns sites.now }
    requires each { AllByRecursion IsInsn insns.now }
    requires short { len_from 0 insns.now < 2 ^ 16 }
    ensures { Answers SpliceFault.Memory result (bytes_spliced class.now number entries.now method.now code.now locals sites.now) }
{
    let bytes = written(alloc, class, number, insns)?;
    let made = code_with(
        alloc, entries, method, code, locals, sites, fronts, insns, bytes,
    )?;
    Ok(made)
}

/// The code with these instructions and bytes, where the parts begin at these fronts.
fn code_with(
    alloc: Global,
    entries: &Entries,
    method: &Method,
    code: &Code,
    locals: u16,
    sites: &[Option<Block>],
    fronts: &[u32],
    insns: &[Insn],
    bytes: Bytes,
) -> Result<Code, NoMemory>
    requires few { length method.now.insns < 2 ^ 16 }
    requires own { len_from 0 method.now.insns < 2 ^ 32 }
    requires sites { AllByRecursion IsSite sites.now }
    requires parts { count_of sites.now < 2 ^ 16 }
    requires room { code.now.max_stack + 3 < 2 ^ 16 }
    requires slots { code.now.max_locals + locals < 2 ^ 16 }
    requires fronts { fronts.now ≡ fronts_of sites.now }
    requires short { len_from 0 insns.now < 2 ^ 16 }
    ensures { IfOk result (λ made. made ≡ code_with entries.now method.now code.now locals sites.now insns.now bytes) }
{
    let starts = starts(alloc, insns)?;
    let starts = starts.as_slice();
    let handlers = method.handlers.as_slice();
    let table = table_spliced(
        alloc,
        starts,
        fronts,
        sites,
        handlers,
        code.table.as_slice(),
    )?;
    let owns = method.insns.as_slice();
    let attrs = attrs_spliced(alloc, entries, owns, fronts, starts, code.attrs.as_slice())?;
    Ok(Code {
        name: code.name,
        max_stack: code.max_stack + OPERANDS,
        max_locals: code.max_locals + locals,
        code: bytes,
        table,
        attrs,
    })
}

/// The bytes of the instructions, of which there are few.
fn written(alloc: Global, class: &Bytes, number: u32, insns: &[Insn]) -> Result<Bytes, SpliceFault>
    requires each { AllByRecursion IsInsn insns.now }
    requires short { len_from 0 insns.now < 2 ^ 16 }
    ensures { Answers SpliceFault.Memory result (code_fitted class.now number (written insns.now)) }
{
    match write_code(alloc, insns) {
        Ok(bytes) => Ok(bytes),
        Err(overflow) => Err(told(alloc, class, number, overflow)),
    }
}

fn told(alloc: Global, class: &Bytes, method: u32, overflow: CodeOverflow) -> SpliceFault
    requires { IsCounted overflow }
    ensures { Fails SpliceFault.Memory result (code_fitted {X = Unit {0}} class.now method (Err overflow)) }
{
    let (what, value) = match overflow {
        CodeOverflow::Length { value } => (Size::Length, value as i64),
        CodeOverflow::Branch { value } => (Size::Branch, value),
        CodeOverflow::Memory => return SpliceFault::Memory,
    };
    match class.copy(alloc) {
        Ok(class) => SpliceFault::Overflow {
            class,
            method,
            what,
            value,
        },
        Err(_) => SpliceFault::Memory,
    }
}

/// What the blocks name is added to the pool, in the order of use.
fn add_wants(alloc: Global, entries: &mut Entries, sites: &[Option<Block>]) -> Result<(), NoMemory>
    ensures { OnOk result (entries.new ≡ grown entries.old sites.now) }
{
    let mut left = sites;
    while let [site, rest @ ..] = left {
        add_part(alloc, entries, part_of(site))?;
        left = rest;
    }
    Ok(())
}

fn add_part(alloc: Global, entries: &mut Entries, part: &[BlockInsn]) -> Result<(), NoMemory>
    ensures { OnOk result (entries.new ≡ with_wants entries.old (filter_map want_of part.now)) }
{
    let mut left = part;
    while let [insn, rest @ ..] = left {
        if let BlockInsn::Want { want, .. } = insn {
            entries.add(alloc, *want)?;
        }
        left = rest;
    }
    Ok(())
}

/// The parts of the instructions, one after another.
pub fn parts(
    alloc: Global,
    entries: &mut Entries,
    fronts: &[u32],
    insns: &[Insn],
    sites: &[Option<Block>],
) -> Result<List<Insn>, NoMemory>
    requires pool { length entries.old < 2 ^ 16 }
    requires insns { AllByRecursion IsInsn insns.now }
    requires sites { AllByRecursion IsSite sites.now }
    requires there { AllByRecursion (IsThere entries.old) (wants_of sites.now) }
    requires few { count_of sites.now < 2 ^ 32 }
    ensures is { IfOk result (λ out. out ≡ parts_from entries.old fronts.now 0 insns.now sites.now) }
    ensures each { IfOk result (AllByRecursion IsInsn) }
    ensures kept { OnOk result (entries.new ≡ entries.old) }
{
    let mut out = List::with_room(alloc, count_of(sites))?;
    let mut begin: u32 = 0;
    let mut own = insns;
    let mut left = sites;
    while let [insn, others @ ..] = own {
        let [site, rest @ ..] = left else {
            return Ok(out);
        };
        put_part(alloc, &mut out, entries, fronts, begin, insn, part_of(site))?;
        begin += part_of(site).len() as u32;
        own = others;
        left = rest;
    }
    Ok(out)
}

/// Appends the part of an instruction.
fn put_part(
    alloc: Global,
    out: &mut List<Insn>,
    entries: &mut Entries,
    fronts: &[u32],
    begin: u32,
    own: &Insn,
    part: &[BlockInsn],
) -> Result<(), NoMemory>
    requires pool { length entries.old < 2 ^ 16 }
    requires own { IsInsn own.now }
    requires part { AllByRecursion IsBlockInsn part.now }
    requires stand { AllByRecursion (CanStand entries.old (length part.now)) part.now }
    requires few { begin + length part.now < 2 ^ 32 }
    ensures is { OnOk result (out.new ≡ out.old ++ map (put entries.old fronts.now begin own.now) part.now) }
    ensures each { OnOk result (AllByRecursion IsInsn out.old → AllByRecursion IsInsn out.new) }
    ensures kept { OnOk result (entries.new ≡ entries.old) }
{
    for insn in part {
        out.push(put(alloc, entries, fronts, begin, part.len(), own, *insn)?)?;
    }
    Ok(())
}

/// An instruction of the part, which has so many.
fn put(
    alloc: Global,
    entries: &mut Entries,
    fronts: &[u32],
    begin: u32,
    count: usize,
    own: &Insn,
    insn: BlockInsn,
) -> Result<Insn, NoMemory>
    requires pool { length entries.old < 2 ^ 16 }
    requires own { IsInsn own.now }
    requires insn { IsBlockInsn insn }
    requires stands { CanStand entries.old count insn }
    requires few { begin + count < 2 ^ 32 }
    ensures is { IfOk result (λ made. made ≡ put entries.old fronts.now begin own.now insn) }
    ensures each { IfOk result IsInsn }
    ensures kept { OnOk result (entries.new ≡ entries.old) }
{
    match insn {
        BlockInsn::Plain(op) => Ok(Insn::Plain(op)),
        BlockInsn::Byte(n) => Ok(Insn::Byte(n)),
        BlockInsn::Short(n) => Ok(Insn::Short(n)),
        BlockInsn::Local { op, slot, wide } => Ok(Insn::Local { op, slot, wide }),
        BlockInsn::Want { op, want } => Ok(Insn::Pool {
            op,
            index: entries.place(alloc, want)?,
        }),
        BlockInsn::Jump { op, place } => Ok(Insn::Branch {
            op,
            to: begin + place,
        }),
        BlockInsn::Call => aimed(alloc, fronts, own),
    }
}
