//! Descriptors of methods and fields. (The Java Virtual Machine Specification, section 4.3.)
//!
//! The types of this subset are the five narrow number types, classes and arrays of these. `F`, `D` and `J` are
//! refused. A method takes at most 255 places of arguments, its receiver not counted.

ghost use Rattle.std.specs.Prelude.{
  ◌≡◌,
  ◌++◌,
  ◌∷◌,
  [],
  ◌≤◌,
  ℕ,
  List,
  IsTrue,
  IfOk,
  IfSome,
  IfNone,
  MatchResult,
  length,
  drop,
  option_map,
  option_copied,
};
ghost use Rattle.mon_base.specs.Answer.{Answers, AnswersAs};
ghost use Rattle.api_listing.specs.Words.{IsClassName};
ghost use Rattle.api_listing.specs.Descriptor.{
  until,
  name_at,
  element_at,
  type_at,
  whole_type,
  result_of,
  is_closed,
  arguments_at,
  method_type,
  class_described,
  class_after,
  class_at,
  after_first,
  EncodesDescriptor,
  EncodesType,
  EncodesClass,
};
ghost use Rattle.api_listing.specs.declared.descriptor.FieldType.{FieldType};
ghost use Rattle.api_listing.specs.declared.descriptor.MethodType.{MethodType};
ghost use Rattle.api_listing.specs.declared.fault.FormFault.TheVariants as forms;

use crate::fault::FormFault;
use crate::words::class_name;
use mon_base::{Bytes, List};
use std::alloc::Global;

/// What an array has in the end, or a type that is no array.
#[derive(Drop)]
pub enum Element {
    Boolean,
    Byte,
    Char,
    Short,
    Int,
    /// A class, by its name.
    Class(Bytes),
}

/// A type of a field, an argument or a result: so many dimensions of arrays over an element.
#[derive(Drop)]
pub struct FieldType {
    pub dimensions: usize,
    pub element: Element,
}

/// The types of a method's arguments, and that of its result, if it has one.
#[derive(Drop)]
pub struct MethodType {
    pub arguments: List<FieldType>,
    pub result: Option<FieldType>,
}

/// The types that a method's descriptor encodes.
pub fn parse_descriptor(alloc: Global, desc: &[u8]) -> Result<MethodType, FormFault>
    // What is read decides the answer.
    ensures exact { Answers FormFault.Memory result (method_type desc.now) }
    // What is read is encoded so.
    ensures found { IfOk result (λ m. EncodesDescriptor desc.now m) }
    // What is encoded so is read, unless memory runs out.
    ensures only { (m : MethodType) → EncodesDescriptor desc.now m
        → MatchResult result (λ r. r ≡ m) (λ e. e ≡ forms.Memory) }
{
    method_type(alloc, desc)
}

#[tactic(auto, unfolding(crate::specs::Descriptor::method_type))]
fn method_type(alloc: Global, desc: &[u8]) -> Result<MethodType, FormFault>
    ensures { Answers FormFault.Memory result (method_type desc.now) }
{
    match desc {
        [] => Err(FormFault::NoForm),
        [first, rest @ ..] => after_first(alloc, *first, rest),
    }
}

#[tactic(auto, unfolding(crate::specs::Descriptor::after_first))]
fn after_first(alloc: Global, first: u8, rest: &[u8]) -> Result<MethodType, FormFault>
    ensures { Answers FormFault.Memory result (after_first first rest.now) }
{
    if first != b'(' {
        return Err(FormFault::NoForm);
    }
    let (arguments, following) = arguments_at(alloc, rest)?;
    let result = result_of(alloc, following)?;
    Ok(MethodType { arguments, result })
}

/// The type that a field's descriptor encodes.
pub fn parse_field_descriptor(alloc: Global, desc: &[u8]) -> Result<FieldType, FormFault>
    // What is read decides the answer.
    ensures exact { Answers FormFault.Memory result (whole_type desc.now) }
    // What is read is encoded so.
    ensures found { IfOk result (λ t. EncodesType desc.now t) }
    // What is encoded so is read, unless memory runs out.
    ensures only { (t : FieldType) → EncodesType desc.now t
        → MatchResult result (λ r. r ≡ t) (λ e. e ≡ forms.Memory) }
{
    whole_type(alloc, desc)
}

/// The class that a field's descriptor of class type names. It takes no memory.
pub fn parse_class_descriptor<'a>(desc: &'a [u8]) -> Option<&'a [u8]>
    ensures exact { option_copied result ≡ class_described desc.now }
    ensures found { IfSome (option_copied result) (λ name. EncodesClass desc.now name) }
    ensures none { IfNone (option_copied result) ((name : List ℕ) → EncodesClass desc.now name → ⊥) }
{
    class_described(desc)
}

fn class_described<'a>(desc: &'a [u8]) -> Option<&'a [u8]>
    ensures { option_copied result ≡ class_described desc.now }
{
    match desc {
        [] => None,
        [first, rest @ ..] => class_after(*first, rest),
    }
}

fn class_after<'a>(first: u8, rest: &'a [u8]) -> Option<&'a [u8]>
    ensures { option_copied result ≡ class_after first rest.now }
{
    let (name, following) = name_at(rest)?;
    if first == b'L' && following.is_empty() {
        Some(name)
    } else {
        None
    }
}

/// At most 255 types and the bracket after them.
#[tactic(auto, unfolding(crate::specs::Descriptor::arguments_at))]
fn arguments_at<'a>(
    alloc: Global,
    bytes: &'a [u8],
) -> Result<(List<FieldType>, &'a [u8]), FormFault>
    ensures { AnswersAs FormFault.Memory (λ r. (r.0, r.1.now)) result (arguments_at 256 bytes.now) }
{
    let mut arguments = List::new(alloc);
    let mut left = bytes;
    for _ in 0..256usize {
        if is_closed(left) {
            return Ok((arguments, &left[1..]));
        }
        let (argument, following) = type_at(alloc, left)?;
        arguments.push(argument)?;
        left = following;
    }
    Err(FormFault::NoForm)
}

fn is_closed(bytes: &[u8]) -> bool
    ensures value { result ≡ is_closed bytes.now }
    ensures long { IsTrue result → 1 ≤ length bytes.now }
{
    let [first, ..] = bytes else {
        return false;
    };
    *first == b')'
}

#[tactic(auto, unfolding(crate::specs::Descriptor::result_of))]
fn result_of(alloc: Global, bytes: &[u8]) -> Result<Option<FieldType>, FormFault>
    ensures { Answers FormFault.Memory result (result_of bytes.now) }
{
    if bytes == b"V".as_slice() {
        return Ok(None);
    }
    let found = whole_type(alloc, bytes)?;
    Ok(Some(found))
}

#[tactic(auto, unfolding(crate::specs::Descriptor::whole_type))]
fn whole_type(alloc: Global, bytes: &[u8]) -> Result<FieldType, FormFault>
    ensures { Answers FormFault.Memory result (whole_type bytes.now) }
{
    let (found, following) = type_at(alloc, bytes)?;
    if !following.is_empty() {
        return Err(FormFault::NoForm);
    }
    Ok(found)
}

/// A type, and what stands after it.
fn type_at<'a>(alloc: Global, bytes: &'a [u8]) -> Result<(FieldType, &'a [u8]), FormFault>
    ensures { AnswersAs FormFault.Memory (λ r. (r.0, r.1.now)) result (type_at bytes.now) }
{
    let mut dimensions: usize = 0;
    let mut left = bytes;
    while let [first, rest @ ..] = left {
        if *first != b'[' {
            let (element, following) = element_at(alloc, *first, rest)?;
            return Ok((
                FieldType {
                    dimensions,
                    element,
                },
                following,
            ));
        }
        dimensions += 1;
        left = rest;
    }
    Err(FormFault::NoForm)
}

/// The element that this byte begins, and what stands after it.
#[tactic(auto, unfolding(crate::specs::Descriptor::element_at))]
fn element_at<'a>(
    alloc: Global,
    first: u8,
    rest: &'a [u8],
) -> Result<(Element, &'a [u8]), FormFault>
    ensures { AnswersAs FormFault.Memory (λ r. (r.0, r.1.now)) result (element_at first rest.now) }
{
    match first {
        b'Z' => Ok((Element::Boolean, rest)),
        b'B' => Ok((Element::Byte, rest)),
        b'C' => Ok((Element::Char, rest)),
        b'S' => Ok((Element::Short, rest)),
        b'I' => Ok((Element::Int, rest)),
        b'L' => class_at(alloc, rest),
        _ => Err(FormFault::NoForm),
    }
}

#[tactic(auto, unfolding(crate::specs::Descriptor::class_at))]
fn class_at<'a>(alloc: Global, bytes: &'a [u8]) -> Result<(Element, &'a [u8]), FormFault>
    ensures { AnswersAs FormFault.Memory (λ r. (r.0, r.1.now)) result (class_at bytes.now) }
{
    match name_at(bytes) {
        Some((name, following)) => Ok((Element::Class(Bytes::from_slice(alloc, name)?), following)),
        None => Err(FormFault::NoForm),
    }
}

/// A class's name before the next `;`, and what stands after that.
fn name_at<'a>(bytes: &'a [u8]) -> Option<(&'a [u8], &'a [u8])>
    ensures { option_map (λ r. (r.0.now, r.1.now)) result ≡ name_at bytes.now }
{
    let (name, following) = until_semicolon(bytes)?;
    if class_name(name) {
        Some((name, following))
    } else {
        None
    }
}

/// The bytes before the first `;`, and those after it.
fn until_semicolon<'a>(bytes: &'a [u8]) -> Option<(&'a [u8], &'a [u8])>
    ensures { option_map (λ r. (r.0.now, r.1.now)) result ≡ until 59 bytes.now }
{
    let mut at: usize = 0;
    let mut left = bytes;
    while let [first, rest @ ..] = left {
        if *first == b';' {
            return Some((&bytes[..at], rest));
        }
        at += 1;
        left = rest;
    }
    None
}
