//! The types that a policy names, as descriptors say them.

ghost use Rattle.std.specs.Prelude.{◌≡◌, codes, option_map, IfOk};
ghost use Rattle.mon_base.specs.Answer.{AnswersAs};
ghost use Rattle.conspec_parse.specs.Types.{
  judged_name,
  type_named,
  plain_type,
  next_part,
  class_at,
  class_type_at,
  element_at,
  dimension_at,
  array_of,
  type_at,
};
ghost use Rattle.api_listing.specs.Descriptor.{class_encoded};
ghost use Rattle.conspec_tokens.specs.Front.{is_next};
ghost use Rattle.conspec_parse.specs.Forms.{each};

use crate::fault::PolicyFault;
use crate::forms::{following, is_short, name_at};
use conspec_tokens::{Token, front_at, is_next, rest_of};
use conspec_tree::Kind;
use mon_base::{Bytes, NoMemory};
use std::alloc::Global;

/// A type, by its descriptor and by its kind: `void` alone has none. (The Java Virtual Machine Specification, section
/// 4.3.)
#[derive(Drop)]
pub struct TypeName {
    pub desc: Bytes,
    pub kind: Option<Kind>,
}

/// The name that has to stand first; where names are judged it is not too long.
#[tactic(auto, unfolding(crate::specs::Types::judged_name))]
pub fn judged_name(judged: bool, tokens: &[Token]) -> Result<(&[u8], &[Token]), PolicyFault>
    ensures { AnswersAs PolicyFault.Memory (λ r. (r.0.now, r.1.now)) result (judged_name judged tokens.now) }
{
    let (name, rest) = name_at(tokens)?;
    if judged && !is_short(name) {
        return Err(PolicyFault::Limit {
            at: front_at(tokens),
        });
    }
    Ok((name, rest))
}

fn type_named(alloc: Global, desc: &str, kind: Option<Kind>) -> Result<TypeName, NoMemory>
    ensures { IfOk result (λ t. t ≡ type_named desc.now kind) }
{
    let desc = Bytes::from_slice(alloc, desc.as_bytes())?;
    Ok(TypeName { desc, kind })
}

/// The descriptor and the kind of the type that the first token is, where it is a keyword.
fn keyword_type(tokens: &[Token]) -> Option<(&'static str, Option<Kind>)>
    ensures { option_map (λ t. type_named t.0.now t.1) result ≡ plain_type tokens.now }
{
    if is_next("void", tokens) {
        Some(("V", None))
    } else if is_next("int", tokens) {
        Some(("I", Some(Kind::Int)))
    } else if is_next("boolean", tokens) {
        Some(("Z", Some(Kind::Bool)))
    } else if is_next("byte", tokens) {
        Some(("B", Some(Kind::Byte)))
    } else if is_next("short", tokens) {
        Some(("S", Some(Kind::Short)))
    } else if is_next("char", tokens) {
        Some(("C", Some(Kind::Char)))
    } else {
        None
    }
}

/// The type that the first token is, where it is a keyword.
fn plain_type(alloc: Global, tokens: &[Token]) -> Result<Option<TypeName>, NoMemory>
    ensures { IfOk result (λ t. t ≡ plain_type tokens.now) }
{
    match keyword_type(tokens) {
        Some((desc, kind)) => type_named(alloc, desc, kind).map(Some),
        None => Ok(None),
    }
}

/// Puts onto the names of a class so far the one after the dot, and gives the tokens after it.
#[tactic(auto, unfolding(crate::specs::Types::next_part))]
fn next_part<'a>(
    judged: bool,
    class: &mut Bytes,
    tokens: &'a [Token],
) -> Result<&'a [Token], PolicyFault>
    ensures { AnswersAs PolicyFault.Memory (λ rest. (class.new, rest.now)) result (next_part judged class.old tokens.now) }
{
    let named = following(".", tokens)?;
    let (name, rest) = judged_name(judged, named)?;
    class.push(b'/')?;
    class.extend(name)?;
    Ok(rest)
}

#[tactic(auto, unfolding(crate::specs::Types::class_at))]
fn class_at(alloc: Global, judged: bool, tokens: &[Token]) -> Result<(Bytes, &[Token]), PolicyFault>
    ensures { AnswersAs PolicyFault.Memory (λ r. (r.0, r.1.now)) result (class_at judged tokens.now) }
{
    let (first, rest) = judged_name(judged, tokens)?;
    let mut class = Bytes::from_slice(alloc, first)?;
    let rest = class_from(judged, &mut class, rest)?;
    Ok((class, rest))
}

fn class_from<'a>(
    judged: bool,
    class: &mut Bytes,
    tokens: &'a [Token],
) -> Result<&'a [Token], PolicyFault>
    ensures { AnswersAs PolicyFault.Memory (λ rest. (class.new, rest.now)) result
        (each (is_next (codes ".")) (next_part judged) class.old tokens.now) }
{
    let mut left = tokens;
    for _ in 0..tokens.len() {
        if !is_next(".", left) {
            return Ok(left);
        }
        left = next_part(judged, class, left)?;
    }
    Ok(left)
}

/// The descriptor of a class.
fn class_desc(alloc: Global, class: &[u8]) -> Result<Bytes, NoMemory>
    ensures { IfOk result (λ desc. desc ≡ class_encoded class.now) }
{
    let mut desc = Bytes::from_slice(alloc, b"L")?;
    desc.extend(class)?;
    desc.push(b';')?;
    Ok(desc)
}

#[tactic(auto, unfolding(crate::specs::Types::class_type_at))]
fn class_type_at(
    alloc: Global,
    judged: bool,
    tokens: &[Token],
) -> Result<(TypeName, &[Token]), PolicyFault>
    ensures { AnswersAs PolicyFault.Memory (λ r. (r.0, r.1.now)) result (class_type_at judged tokens.now) }
{
    let (class, rest) = class_at(alloc, judged, tokens)?;
    let desc = class_desc(alloc, class.as_slice())?;
    Ok((
        TypeName {
            desc,
            kind: Some(Kind::Object),
        },
        rest,
    ))
}

fn element_at(
    alloc: Global,
    judged: bool,
    tokens: &[Token],
) -> Result<(TypeName, &[Token]), PolicyFault>
    ensures { AnswersAs PolicyFault.Memory (λ r. (r.0, r.1.now)) result (element_at judged tokens.now) }
{
    match plain_type(alloc, tokens)? {
        Some(plain) => Ok((plain, rest_of(tokens))),
        None => class_type_at(alloc, judged, tokens),
    }
}

/// Puts onto the dimensions so far the one that stands first, and gives the tokens after it.
#[tactic(auto, unfolding(crate::specs::Types::dimension_at))]
fn dimension_at<'a>(brackets: &mut Bytes, tokens: &'a [Token]) -> Result<&'a [Token], PolicyFault>
    ensures { AnswersAs PolicyFault.Memory (λ rest. (brackets.new, rest.now)) result (dimension_at brackets.old tokens.now) }
{
    let opened = following("[", tokens)?;
    let rest = following("]", opened)?;
    brackets.push(b'[')?;
    Ok(rest)
}

fn dimensions_from<'a>(
    brackets: &mut Bytes,
    tokens: &'a [Token],
) -> Result<&'a [Token], PolicyFault>
    ensures { AnswersAs PolicyFault.Memory (λ rest. (brackets.new, rest.now)) result
        (each (is_next (codes "[")) dimension_at brackets.old tokens.now) }
{
    let mut left = tokens;
    for _ in 0..tokens.len() {
        if !is_next("[", left) {
            return Ok(left);
        }
        left = dimension_at(brackets, left)?;
    }
    Ok(left)
}

fn array_of(brackets: Bytes, element: TypeName) -> Result<TypeName, NoMemory>
    ensures { IfOk result (λ t. t ≡ array_of brackets element) }
{
    if brackets.is_empty() {
        return Ok(element);
    }
    let mut desc = brackets;
    desc.extend(element.desc.as_slice())?;
    Ok(TypeName {
        desc,
        kind: Some(Kind::Object),
    })
}

/// The type that has to stand first, and the tokens after it.
#[tactic(auto, unfolding(crate::specs::Types::type_at))]
pub fn type_at(
    alloc: Global,
    judged: bool,
    tokens: &[Token],
) -> Result<(TypeName, &[Token]), PolicyFault>
    ensures { AnswersAs PolicyFault.Memory (λ r. (r.0, r.1.now)) result (type_at judged tokens.now) }
{
    let (element, left) = element_at(alloc, judged, tokens)?;
    let mut brackets = Bytes::new(alloc);
    let rest = dimensions_from(&mut brackets, left)?;
    let named = array_of(brackets, element)?;
    Ok((named, rest))
}
