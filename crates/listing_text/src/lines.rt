//! The lines of a listing, each by itself.

ghost use Rattle.std.specs.Prelude.{◌≡◌, length, map, IfOk};
ghost use Rattle.mon_base.specs.Answer.{Answers};
ghost use Rattle.api_listing.specs.Words.{pieces};
ghost use Rattle.api_listing.specs.Lines.{says_something, are_class_names};
ghost use Rattle.listing_text.specs.Saying.{
  interface_named,
  class_of,
  member,
  form_of,
  two_words,
  four_words,
  six_words,
  class_line,
  method_line,
  field_line,
  said,
  said_lines,
};

use crate::words::pieces;
use api_listing::{
    Declaration, FormFault, ListedClass, ListedMethod, class_name, is_text, parse_class_descriptor,
    parse_descriptor,
};
use mon_base::{Bytes, List, MethodId, NoMemory};
use std::alloc::Global;

/// What a line says.
#[derive(Drop)]
pub enum Said {
    /// It is empty or a remark.
    Nothing,
    /// It has none of the five forms.
    NoForm,
    Says(Declaration),
}

/// How many lines the text has of which these are the pieces. What stands after the last newline is a line, unless it is nothing.
pub fn count_lines(pieces: &[&[u8]]) -> usize
    ensures { result ≡ length (said_lines (map (λ p. p.now) pieces.now)) }
{
    let Some((last, _)) = pieces.split_last() else {
        return 0;
    };
    if last.is_empty() {
        pieces.len() - 1
    } else {
        pieces.len()
    }
}

/// What the lines say. What stands after the last newline is a line of no form, unless it is nothing.
pub fn said_lines(alloc: Global, pieces: &[&[u8]]) -> Result<List<Said>, NoMemory>
    ensures { IfOk result (λ said. said ≡ said_lines (map (λ p. p.now) pieces.now)) }
{
    let Some((last, lines)) = pieces.split_last() else {
        return Ok(List::new(alloc));
    };
    let mut found = said_by(alloc, lines)?;
    if !last.is_empty() {
        found.push(Said::NoForm)?;
    }
    Ok(found)
}

fn said_by(alloc: Global, lines: &[&[u8]]) -> Result<List<Said>, NoMemory>
    ensures { IfOk result (λ s. s ≡ map said (map (λ p. p.now) lines.now)) }
{
    let mut found = List::new(alloc);
    for line in lines {
        let line = read_line(alloc, line)?;
        found.push(line)?;
    }
    Ok(found)
}

fn read_line(alloc: Global, line: &[u8]) -> Result<Said, NoMemory>
    ensures { IfOk result (λ s. s ≡ said line.now) }
{
    if !says_something(line) {
        return Ok(Said::Nothing);
    }
    let words = pieces(alloc, line, b' ')?;
    match form_of(alloc, words.as_slice()) {
        Ok(declaration) => Ok(Said::Says(declaration)),
        Err(FormFault::NoForm) => Ok(Said::NoForm),
        Err(FormFault::Memory) => Err(NoMemory),
    }
}

fn says_something(line: &[u8]) -> bool
    ensures { result ≡ says_something line.now }
{
    match line {
        [] => false,
        [first, ..] => *first != b'#',
    }
}

/// What the words of a line declare.
#[tactic(auto, unfolding(crate::specs::Saying::form_of))]
fn form_of(alloc: Global, words: &[Bytes]) -> Result<Declaration, FormFault>
    ensures { Answers FormFault.Memory result (form_of words.now) }
{
    match words {
        [verb, name] => two_words(alloc, verb.as_slice(), name.as_slice()),
        [verb, class, third, last] => four_words(
            alloc,
            verb.as_slice(),
            class.as_slice(),
            third.as_slice(),
            last.as_slice(),
        ),
        [verb, class, extends, parent, implements, interfaces] => six_words(
            alloc,
            verb.as_slice(),
            class.as_slice(),
            extends.as_slice(),
            parent.as_slice(),
            implements.as_slice(),
            interfaces.as_slice(),
        ),
        _ => Err(FormFault::NoForm),
    }
}

#[tactic(auto, unfolding(crate::specs::Saying::two_words))]
fn two_words(alloc: Global, verb: &[u8], name: &[u8]) -> Result<Declaration, FormFault>
    ensures { Answers FormFault.Memory result (two_words verb.now name.now) }
{
    if is_text(verb, "interface") && class_name(name) {
        let named = interface_named(alloc, name)?;
        return Ok(Declaration::Class(named));
    }
    Err(FormFault::NoForm)
}

fn interface_named(alloc: Global, name: &[u8]) -> Result<ListedClass, NoMemory>
    ensures { IfOk result (λ c. c ≡ interface_named name.now) }
{
    let name = Bytes::from_slice(alloc, name)?;
    let parent = Bytes::from_slice(alloc, b"java/lang/Object")?;
    Ok(ListedClass {
        name,
        parent,
        interfaces: List::new(alloc),
        is_interface: true,
    })
}

#[tactic(auto, unfolding(crate::specs::Saying::four_words))]
fn four_words(
    alloc: Global,
    verb: &[u8],
    class: &[u8],
    third: &[u8],
    last: &[u8],
) -> Result<Declaration, FormFault>
    ensures { Answers FormFault.Memory result (four_words verb.now class.now third.now last.now) }
{
    if is_text(verb, "class") && is_text(third, "extends") {
        class_line(alloc, class, last, List::new(alloc))
    } else if is_text(verb, "method") {
        method_line(alloc, false, class, third, last)
    } else if is_text(verb, "static") {
        method_line(alloc, true, class, third, last)
    } else if is_text(verb, "field") {
        field_line(alloc, class, third, last)
    } else {
        Err(FormFault::NoForm)
    }
}

#[tactic(auto, unfolding(crate::specs::Saying::six_words))]
fn six_words(
    alloc: Global,
    verb: &[u8],
    class: &[u8],
    extends: &[u8],
    parent: &[u8],
    implements: &[u8],
    interfaces: &[u8],
) -> Result<Declaration, FormFault>
    ensures { Answers FormFault.Memory result (six_words verb.now class.now extends.now parent.now implements.now interfaces.now) }
{
    if is_text(verb, "class") && is_text(extends, "extends") && is_text(implements, "implements") {
        let above = pieces(alloc, interfaces, b',')?;
        class_line(alloc, class, parent, above)
    } else {
        Err(FormFault::NoForm)
    }
}

#[tactic(auto, unfolding(crate::specs::Saying::class_line))]
fn class_line(
    alloc: Global,
    name: &[u8],
    parent: &[u8],
    interfaces: List<Bytes>,
) -> Result<Declaration, FormFault>
    ensures { Answers FormFault.Memory result (class_line name.now parent.now interfaces) }
{
    if !class_name(name) || !class_name(parent) || !are_class_names(interfaces.as_slice()) {
        return Err(FormFault::NoForm);
    }
    let name = Bytes::from_slice(alloc, name)?;
    let parent = Bytes::from_slice(alloc, parent)?;
    Ok(Declaration::Class(ListedClass {
        name,
        parent,
        interfaces,
        is_interface: false,
    }))
}

fn are_class_names(names: &[Bytes]) -> bool
    ensures { result ≡ are_class_names names.now }
{
    for name in names {
        if !class_name(name.as_slice()) {
            return false;
        }
    }
    true
}

#[tactic(auto, unfolding(crate::specs::Saying::method_line))]
fn method_line(
    alloc: Global,
    is_static: bool,
    class: &[u8],
    name: &[u8],
    desc: &[u8],
) -> Result<Declaration, FormFault>
    ensures { Answers FormFault.Memory result (method_line is_static class.now name.now desc.now) }
{
    if !class_name(class) || name.is_empty() {
        return Err(FormFault::NoForm);
    }
    let types = parse_descriptor(alloc, desc)?;
    let id = member(alloc, class, name, desc)?;
    Ok(Declaration::Method {
        method: ListedMethod { id, is_static },
        types,
    })
}

#[tactic(auto, unfolding(crate::specs::Saying::field_line))]
fn field_line(
    alloc: Global,
    class: &[u8],
    name: &[u8],
    desc: &[u8],
) -> Result<Declaration, FormFault>
    ensures { Answers FormFault.Memory result (field_line class.now name.now desc.now) }
{
    if !class_name(class) || name.is_empty() {
        return Err(FormFault::NoForm);
    }
    let of = class_of(alloc, desc)?;
    let id = member(alloc, class, name, desc)?;
    Ok(Declaration::Field { id, class: of })
}

fn class_of(alloc: Global, desc: &[u8]) -> Result<Bytes, FormFault>
    ensures { Answers FormFault.Memory result (class_of desc.now) }
{
    let Some(class) = parse_class_descriptor(desc) else {
        return Err(FormFault::NoForm);
    };
    let class = Bytes::from_slice(alloc, class)?;
    Ok(class)
}

fn member(alloc: Global, class: &[u8], name: &[u8], desc: &[u8]) -> Result<MethodId, NoMemory>
    ensures { IfOk result (λ id. id ≡ member class.now name.now desc.now) }
{
    let class = Bytes::from_slice(alloc, class)?;
    let name = Bytes::from_slice(alloc, name)?;
    let desc = Bytes::from_slice(alloc, desc)?;
    Ok(MethodId { class, name, desc })
}
