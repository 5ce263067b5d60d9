//! What static fields hold at the start. (The Java Virtual Machine Specification, sections 2.3, 2.4 and 4.7.2.)

ghost use Rattle.std.specs.List.{filter_map, position_from};
ghost use Rattle.std.specs.Prelude.{IfOk, bytes_eq, option_copied, slice_get, ◌≡◌};
ghost use Rattle.bytecode_model.specs.Operands.{place_of};
ghost use Rattle.guest_model.specs.Layout.{constant_bytes, starting_value, statics_of, two_bytes, value_of_constant, value_told};
ghost use Rattle.guest_operations.specs.Statics.{class_statics, constant_told, text_value};

use bytecode_model::{Program, is_static, text_at};
use class_codec::{Attr, ClassFile, Const, Member, utf8_at};
use guest_heap::Value;
use guest_model::{first_value, is_of_references};
use mon_base::{Bytes, List, NoMemory};
use std::alloc::Global;

/// The static fields of each given class, in the place of each of its fields.
pub fn statics_of(alloc: Global, program: &Program) -> Result<List<List<Value>>, NoMemory>
    ensures { IfOk result (λ statics. statics ≡ statics_of program.now) }
{
    let mut statics = List::new(alloc);
    for class in program.classes.as_slice() {
        let values = class_statics(alloc, program, &class.file)?;
        statics.push(values)?;
    }
    Ok(statics)
}

/// What the fields of the class hold.
fn class_statics(
    alloc: Global,
    program: &Program,
    file: &ClassFile,
) -> Result<List<Value>, NoMemory>
    ensures { IfOk result (λ values. values ≡ class_statics program.now file.now) }
{
    let mut values = List::new(alloc);
    for field in file.fields.as_slice() {
        let value = starting_value(program, file, field)?;
        values.push(value)?;
    }
    Ok(values)
}

/// What a field holds: if it is static its ConstantValue, or else 0 or null.
fn starting_value(program: &Program, file: &ClassFile, field: &Member) -> Result<Value, NoMemory>
    ensures { IfOk result (λ value. value ≡ starting_value program.now file.now field.now) }
{
    if is_static(field.flags) {
        let told = value_told(program, file, field)?;
        if let Some(value) = told {
            return Ok(value);
        }
    }
    Ok(first_value(text_at(file.pool.as_slice(), field.desc)))
}

/// What the first ConstantValue of the field tells, where that is a value of the field's type.
fn value_told(
    program: &Program,
    file: &ClassFile,
    field: &Member,
) -> Result<Option<Value>, NoMemory>
    ensures { IfOk result (λ told. told ≡ value_told program.now file.now field.now) }
{
    let pool = file.pool.as_slice();
    match constant_told(pool, field) {
        Some(constant) => value_of_constant(program, pool, text_at(pool, field.desc), constant),
        None => Ok(None),
    }
}

/// The constant that the first ConstantValue of the field names.
fn constant_told<'a>(pool: &'a [Const], field: &Member) -> Option<&'a Const>
    ensures { option_copied result ≡ constant_told pool.now field.now }
{
    let bytes = first_constant(pool, field.attrs.as_slice())?;
    let index = two_bytes(bytes)?;
    pool.get(index as usize)
}

/// The bytes of the first ConstantValue.
fn first_constant<'a>(pool: &[Const], attrs: &'a [Attr]) -> Option<&'a [u8]>
    ensures { option_copied result ≡ slice_get (filter_map (constant_bytes pool.now) attrs.now) 0 }
{
    let mut left = attrs;
    while let [attr, rest @ ..] = left {
        if let Some(bytes) = constant_bytes(pool, attr) {
            return Some(bytes);
        }
        left = rest;
    }
    None
}

/// The bytes of an attribute, where it is a ConstantValue.
fn constant_bytes<'a>(pool: &[Const], attr: &'a Attr) -> Option<&'a [u8]>
    ensures { option_copied result ≡ constant_bytes pool.now attr.now }
{
    match attr {
        Attr::Code(_) => None,
        Attr::Other(other) => {
            if text_at(pool, other.name) == b"ConstantValue".as_slice() {
                Some(other.bytes.as_slice())
            } else {
                None
            }
        }
    }
}

/// The number that two bytes are.
fn two_bytes(bytes: &[u8]) -> Option<u32>
    ensures { result ≡ two_bytes bytes.now }
{
    if bytes.len() != 2 {
        return None;
    }
    Some(256 * u32::from(bytes[0]) + u32::from(bytes[1]))
}

/// A constant as the value of a field: a number, or a text of a String.
fn value_of_constant(
    program: &Program,
    pool: &[Const],
    desc: &[u8],
    constant: &Const,
) -> Result<Option<Value>, NoMemory>
    ensures { IfOk result (λ value. value ≡ value_of_constant program.now pool.now desc.now constant.now) }
{
    match constant {
        Const::Integer(n) => {
            if is_of_references(desc) {
                return Ok(None);
            }
            Ok(Some(Value::Int(*n)))
        }
        Const::Str(index) => {
            if desc != b"Ljava/lang/String;".as_slice() {
                return Ok(None);
            }
            text_value(program, pool, *index)
        }
        _ => Ok(None),
    }
}

/// The text of a constant as the program's literal.
fn text_value(program: &Program, pool: &[Const], index: u16) -> Result<Option<Value>, NoMemory>
    ensures { IfOk result (λ value. value ≡ text_value program.now pool.now index) }
{
    let Some(text) = utf8_at(pool, index) else {
        return Ok(None);
    };
    let place = place_of(program.literals.as_slice(), text.as_slice());
    match u32::try_from(place) {
        Ok(literal) => Ok(Some(Value::Lit(literal))),
        Err(_) => Err(NoMemory),
    }
}

/// The place of a text among them.
fn place_of(names: &[Bytes], name: &[u8]) -> usize
    ensures { result ≡ place_of names.now name.now }
{
    match position_of(names, name) {
        Some(place) => place,
        None => 0,
    }
}

fn position_of(names: &[Bytes], name: &[u8]) -> Option<usize>
    ensures { result ≡ position_from (λ other. bytes_eq other name.now) 0 names.now }
{
    names.iter().position(|other| other.as_slice() == name)
}
