//! What the operands of instructions name. (The Java Virtual Machine Specification, sections 4.4, 5.4.3 and 6.5.)

ghost use Rattle.std.specs.Prelude.{◌≡◌, ◌<◌, ◌^◌, length, IfOk};
ghost use Rattle.std.specs.Result.{is_ok};
ghost use Rattle.mon_base.specs.Reading.{need};
ghost use Rattle.api_listing.specs.Descriptor.{whole_type, method_type};
ghost use Rattle.class_linking.specs.declared.operand_fault.OperandFault.TheVariants.{Wrong, Missing};
ghost use Rattle.mon_base.specs.Answer.{Answers, TellsFault};
ghost use Rattle.bytecode_model.specs.Arrays.{is_array};
ghost use Rattle.class_linking.specs.Operands.{is_nothing, array_linked, class_linked, field_fits};
ghost use Rattle.bytecode_model.specs.Operands.{element_is_known};
ghost use Rattle.class_linking.specs.Operands.{field_linked, call_linked, loaded, typed, field_used, called, used, used_at};
ghost use Rattle.bytecode_model.specs.Operands.{known_in};
ghost use Rattle.bytecode_model.specs.Operands.{index_of};
ghost use Rattle.class_linking.specs.Known.{AreRemembered};
ghost use Rattle.class_linking.specs.Operands.{operand_fault_told, operand_linked, told_at, operands_linked, operand_at};

use crate::fault::LinkFault;
use crate::known::{Known, Named};
use crate::operand_fault::OperandFault;
use api_listing::{Element, FormFault, parse_descriptor, parse_field_descriptor};
use bytecode_model::{Found, Target, Use, copy_text, id_at, index_of, is_array, use_of};
use class_codec::{Const, Copied};
use class_index::Index;
use insn_codec::Insn;
use mon_base::{Bytes, List, MethodId, NoMemory};
use std::alloc::Global;

/// The operands of the instructions of a method, each with its target, or the first that has none. What was found of the
/// class is kept.
pub fn operands_linked(
    alloc: Global,
    index: &Index,
    class: &Bytes,
    pool: &[Const],
    known: &mut Known,
    method: u32,
    insns: &[Insn],
) -> Result<List<Target>, LinkFault>
    requires count { length insns.now < 2 ^ 32 }
    requires known { AreRemembered index.now.files index.now.listing pool.now known.old }
    ensures answers { Answers LinkFault.Memory result
        (operands_linked index.now.files index.now.listing class.now pool.now method insns.now) }
    ensures known { AreRemembered index.now.files index.now.listing pool.now known.new }
{
    let mut targets = Vec::with_capacity(alloc, insns.len())?;
    let mut at: u32 = 0;
    let mut left = insns;
    while let [insn, rest @ ..] = left {
        let target = operand_at(alloc, index, class, pool, known, method, at, insn)?;
        targets.push(target)?;
        at += 1;
        left = rest;
    }
    Ok(List::from_vec(targets))
}

fn operand_at(
    alloc: Global,
    index: &Index,
    class: &Bytes,
    pool: &[Const],
    known: &mut Known,
    method: u32,
    at: u32,
    insn: &Insn,
) -> Result<Target, LinkFault>
    requires known { AreRemembered index.now.files index.now.listing pool.now known.old }
    ensures answers { Answers LinkFault.Memory result (operand_at index.now.files index.now.listing class.now pool.now method at insn.now) }
    ensures known { AreRemembered index.now.files index.now.listing pool.now known.new }
{
    match operand_linked(alloc, index, pool, known, insn) {
        Ok(target) => Ok(target),
        Err(fault) => Err(operand_fault_told(alloc, class, method, at, fault)),
    }
}

/// The fault of an operand as one of linking.
pub fn operand_fault_told(
    alloc: Global,
    class: &Bytes,
    method: u32,
    at: u32,
    fault: OperandFault,
) -> LinkFault
    ensures { TellsFault LinkFault.Memory result (operand_fault_told class.now method at fault) }
{
    match class.copy(alloc) {
        Ok(class) => match fault {
            OperandFault::Wrong => LinkFault::Operand { class, method, at },
            OperandFault::Missing(name) => LinkFault::Unresolved { class, name },
            OperandFault::Memory => LinkFault::Memory,
        },
        Err(_) => LinkFault::Memory,
    }
}

fn is_nothing(how: Use) -> bool
    ensures { result ≡ is_nothing how }
{
    matches!(how, Use::Nothing)
}

fn operand_linked(
    alloc: Global,
    index: &Index,
    pool: &[Const],
    known: &mut Known,
    insn: &Insn,
) -> Result<Target, OperandFault>
    requires known { AreRemembered index.now.files index.now.listing pool.now known.old }
    ensures answers { Answers OperandFault.Memory result (operand_linked index.now.files index.now.listing pool.now insn.now) }
    ensures known { AreRemembered index.now.files index.now.listing pool.now known.new }
{
    let how = use_of(insn);
    if is_nothing(how) {
        return Ok(Target::None);
    }
    once(alloc, index, pool, known, how, index_of(insn))
}

/// What the constant names, from what is known or, where it is not, found and kept.
fn once(
    alloc: Global,
    index: &Index,
    pool: &[Const],
    known: &mut Known,
    how: Use,
    constant: u16,
) -> Result<Target, OperandFault>
    requires known { AreRemembered index.now.files index.now.listing pool.now known.old }
    ensures answers { Answers OperandFault.Memory result (used_at index.now.files index.now.listing pool.now how constant) }
    ensures known { AreRemembered index.now.files index.now.listing pool.now known.new }
{
    if let Some(target) = known.find(constant, how) {
        let copy = target.copy(alloc)?;
        return Ok(copy);
    }
    let target = used_at(alloc, index, pool, how, constant)?;
    let copy = target.copy(alloc)?;
    known.keep(Named {
        index: constant,
        how,
        target: copy,
    });
    Ok(target)
}

fn used_at(
    alloc: Global,
    index: &Index,
    pool: &[Const],
    how: Use,
    constant: u16,
) -> Result<Target, OperandFault>
    ensures { Answers OperandFault.Memory result (used_at index.now.files index.now.listing pool.now how constant) }
{
    match pool.get(constant as usize) {
        Some(constant) => used(alloc, index, pool, how, constant),
        None => Err(OperandFault::Wrong),
    }
}

fn used(
    alloc: Global,
    index: &Index,
    pool: &[Const],
    how: Use,
    constant: &Const,
) -> Result<Target, OperandFault>
    ensures { Answers OperandFault.Memory result (used index.now.files index.now.listing pool.now how constant.now) }
{
    match how {
        Use::Nothing => Ok(Target::None),
        Use::Load => loaded(alloc, index, pool, constant),
        Use::Field { is_static, writes } => {
            field_used(alloc, index, is_static, writes, pool, constant)
        }
        Use::Call {
            is_static,
            of_interface,
        } => called(alloc, index, is_static, of_interface, pool, constant),
        Use::New => typed(alloc, index, false, pool, constant),
        Use::Type => typed(alloc, index, true, pool, constant),
    }
}

fn loaded(
    alloc: Global,
    index: &Index,
    pool: &[Const],
    constant: &Const,
) -> Result<Target, OperandFault>
    ensures { Answers OperandFault.Memory result (loaded index.now.files index.now.listing pool.now constant.now) }
{
    match constant {
        Const::Integer(n) => Ok(Target::Number(*n)),
        Const::Str(text) => {
            let text = copy_text(alloc, pool, *text)?;
            Ok(Target::Literal(index.literal(&text)))
        }
        Const::Class(name) => {
            let name = copy_text(alloc, pool, *name)?;
            class_linked(alloc, index, false, name)
        }
        _ => Err(OperandFault::Wrong),
    }
}

fn typed(
    alloc: Global,
    index: &Index,
    arrays: bool,
    pool: &[Const],
    constant: &Const,
) -> Result<Target, OperandFault>
    ensures { Answers OperandFault.Memory result (typed index.now.files index.now.listing arrays pool.now constant.now) }
{
    match constant {
        Const::Class(name) => {
            let name = copy_text(alloc, pool, *name)?;
            class_linked(alloc, index, arrays, name)
        }
        _ => Err(OperandFault::Wrong),
    }
}

fn field_used(
    alloc: Global,
    index: &Index,
    is_static: bool,
    writes: bool,
    pool: &[Const],
    constant: &Const,
) -> Result<Target, OperandFault>
    ensures { Answers OperandFault.Memory result (field_used index.now.files index.now.listing is_static writes pool.now constant.now) }
{
    match constant {
        Const::Field(class, member) => {
            let id = id_at(alloc, pool, *class, *member)?;
            field_linked(alloc, index, is_static, writes, id)
        }
        _ => Err(OperandFault::Wrong),
    }
}

fn called(
    alloc: Global,
    index: &Index,
    is_static: bool,
    of_interface: bool,
    pool: &[Const],
    constant: &Const,
) -> Result<Target, OperandFault>
    ensures { Answers OperandFault.Memory result (called index.now.files index.now.listing is_static of_interface pool.now constant.now) }
{
    if of_interface {
        match constant {
            Const::IMethod(class, member) => {
                let id = id_at(alloc, pool, *class, *member)?;
                call_linked(alloc, index, is_static, id)
            }
            _ => Err(OperandFault::Wrong),
        }
    } else {
        match constant {
            Const::Method(class, member) => {
                let id = id_at(alloc, pool, *class, *member)?;
                call_linked(alloc, index, is_static, id)
            }
            _ => Err(OperandFault::Wrong),
        }
    }
}

/// The class of the name, or the array type of the descriptor where one may stand.
pub fn class_linked(
    alloc: Global,
    index: &Index,
    arrays: bool,
    text: Bytes,
) -> Result<Target, OperandFault>
    ensures { Answers OperandFault.Memory result (class_linked arrays (known_in index.now.files index.now.listing) text) }
{
    if is_array(text.as_slice()) {
        return array_linked(alloc, index, arrays, text);
    }
    if index.knows(&text) {
        Ok(Target::ClassName(text))
    } else {
        Err(OperandFault::Missing(text))
    }
}

fn array_linked(
    alloc: Global,
    index: &Index,
    arrays: bool,
    text: Bytes,
) -> Result<Target, OperandFault>
    ensures { Answers OperandFault.Memory result (array_linked arrays (known_in index.now.files index.now.listing) text (whole_type text)) }
{
    match parse_field_descriptor(alloc, text.as_slice()) {
        Ok(found) => {
            if arrays && element_is_known(index, &found.element) {
                Ok(Target::ClassName(text))
            } else {
                Err(OperandFault::Missing(text))
            }
        }
        Err(FormFault::NoForm) => Err(OperandFault::Wrong),
        Err(FormFault::Memory) => Err(OperandFault::Memory),
    }
}

fn element_is_known(index: &Index, element: &Element) -> bool
    ensures { result ≡ element_is_known (known_in index.now.files index.now.listing) element.now }
{
    match element {
        Element::Class(name) => index.knows(name),
        _ => true,
    }
}

fn field_linked(
    alloc: Global,
    index: &Index,
    is_static: bool,
    writes: bool,
    id: MethodId,
) -> Result<Target, OperandFault>
    ensures { Answers OperandFault.Memory result (field_linked index.now.files index.now.listing is_static writes id) }
{
    check_field(alloc, id.desc.as_slice())?;
    let Some(found) = index.field_of(alloc, &id)? else {
        return Err(missing(id));
    };
    if !field_fits(is_static, writes, &found) {
        return Err(missing(id));
    }
    Ok(target_of(found))
}

fn call_linked(
    alloc: Global,
    index: &Index,
    is_static: bool,
    id: MethodId,
) -> Result<Target, OperandFault>
    ensures { Answers OperandFault.Memory result (call_linked index.now.files index.now.listing is_static id) }
{
    check_method(alloc, id.desc.as_slice())?;
    let Some(found) = index.method_of(alloc, &id)? else {
        return Err(missing(id));
    };
    if found.is_static != is_static {
        return Err(missing(id));
    }
    Ok(target_of(found))
}

/// Whether the text is the descriptor of a field.
fn check_field(alloc: Global, desc: &[u8]) -> Result<(), OperandFault>
    ensures { Answers OperandFault.Memory result (need (is_ok (whole_type desc.now)) Wrong) }
{
    match parse_field_descriptor(alloc, desc) {
        Ok(_) => Ok(()),
        Err(FormFault::NoForm) => Err(OperandFault::Wrong),
        Err(FormFault::Memory) => Err(OperandFault::Memory),
    }
}

/// Whether the text is the descriptor of a method.
fn check_method(alloc: Global, desc: &[u8]) -> Result<(), OperandFault>
    ensures { Answers OperandFault.Memory result (need (is_ok (method_type desc.now)) Wrong) }
{
    match parse_descriptor(alloc, desc) {
        Ok(_) => Ok(()),
        Err(FormFault::NoForm) => Err(OperandFault::Wrong),
        Err(FormFault::Memory) => Err(OperandFault::Memory),
    }
}

fn field_fits(is_static: bool, writes: bool, found: &Found) -> bool
    ensures { result ≡ field_fits is_static writes found.now }
{
    found.is_static == is_static && !(writes && matches!(found.target, Target::ApiField(_)))
}

fn missing(id: MethodId) -> OperandFault
    ensures { result ≡ Missing id.name }
{
    let MethodId { class, name, desc } = id;
    OperandFault::Missing(name)
}

fn target_of(found: Found) -> Target
    ensures { result ≡ found.target }
{
    let Found { target, is_static } = found;
    target
}
