//! A listing that grows line by line, with sets of what it has.

ghost use Rattle.std.specs.Prelude.{◌≡◌, ◌≤◌, ℕ, List, IfOk, OnOk, length};
ghost use Rattle.std.specs.List.{list_all};
ghost use Rattle.api_listing.specs.Seen.{has_name, has_id};
ghost use Rattle.listing_text.specs.Growing.{Agrees, Grows};
ghost use Rattle.mon_base.specs.Answer.{Answers};
ghost use Rattle.api_listing.specs.Listing.{
  stands_already,
  names_known,
  types_are_known,
  result_is_known,
  element_is_known,
  is_known,
  is_below,
};
ghost use Rattle.listing_text.specs.Reading.{
  with_class,
  with_method,
  with_field,
  with_declaration,
  built_in_listing,
  declared,
  after_line,
  after_lines,
};

use crate::fault::ListFault;
use crate::lines::Said;
use crate::seen::{add_id, add_name, names_of};
use api_listing::{
    Declaration, Element, FieldType, ListedClass, ListedMethod, Listing, MethodType,
    built_in_classes, is_built_in, is_text,
};
use mon_base::{Bytes, List, MethodId, NoMemory};
use std::alloc::Global;
use std::collections::BTreeSet;

/// A listing so far, and the names of its classes, its methods and its fields.
#[derive(Drop)]
pub struct Draft {
    listing: Listing,
    names: BTreeSet<Bytes>,
    methods: BTreeSet<MethodId>,
    fields: BTreeSet<MethodId>,
}

/// The listing after all these lines; `known` has the names of all classes.
pub fn listing_of(
    alloc: Global,
    known: &BTreeSet<Bytes>,
    lines: &[Said],
) -> Result<Listing, ListFault>
    requires { length lines.now ≤ 20000 }
    ensures { Answers ListFault.Memory result (after_lines (has_name known.now) 1 built_in_listing lines.now) }
{
    let mut draft = built_in(alloc)?;
    let mut number: u64 = 1;
    let mut left = lines;
    while let [line, rest @ ..] = left {
        add_line(alloc, &mut draft, known, number, line)?;
        number += 1;
        left = rest;
    }
    Ok(draft.listing)
}

fn built_in(alloc: Global) -> Result<Draft, NoMemory>
    ensures { IfOk result (λ d. Agrees d × (d.listing ≡ built_in_listing)) }
{
    let classes = built_in_classes(alloc)?;
    let names = names_of(alloc, classes.as_slice())?;
    Ok(Draft {
        listing: Listing {
            classes,
            methods: List::new(alloc),
            fields: List::new(alloc),
        },
        names,
        methods: BTreeSet::new(alloc),
        fields: BTreeSet::new(alloc),
    })
}

fn add_line(
    alloc: Global,
    draft: &mut Draft,
    known: &BTreeSet<Bytes>,
    number: u64,
    line: &Said,
) -> Result<(), ListFault>
    requires { Agrees draft.old }
    ensures { Grows result (after_line (has_name known.now) number draft.old.listing line.now) draft.new }
{
    match line {
        Said::Nothing => Ok(()),
        Said::NoForm => Err(ListFault::Line { line: number }),
        Said::Says(declaration) => declare(alloc, draft, known, number, declaration),
    }
}

fn declare(
    alloc: Global,
    draft: &mut Draft,
    known: &BTreeSet<Bytes>,
    number: u64,
    declaration: &Declaration,
) -> Result<(), ListFault>
    requires { Agrees draft.old }
    ensures { Grows result (declared (has_name known.now) number draft.old.listing declaration.now) draft.new }
{
    if stands_already(draft, declaration) {
        return Err(ListFault::Twice { line: number });
    }
    if !names_known(draft, known, declaration) {
        return Err(ListFault::NoSuper { line: number });
    }
    add(alloc, draft, declaration)?;
    Ok(())
}

fn stands_already(draft: &Draft, declaration: &Declaration) -> bool
    requires { Agrees draft.now }
    ensures { result ≡ stands_already draft.now.listing declaration.now }
{
    match declaration {
        Declaration::Class(class) => {
            draft.names.contains(&class.name) || is_text(class.name.as_slice(), "conspec/State")
        }
        Declaration::Method { method, .. } => {
            let id = &method.id;
            draft.methods.contains(id)
                || is_built_in(id.class.as_slice(), id.name.as_slice(), id.desc.as_slice())
        }
        Declaration::Field { id, .. } => draft.fields.contains(id),
    }
}

fn names_known(draft: &Draft, known: &BTreeSet<Bytes>, declaration: &Declaration) -> bool
    requires { Agrees draft.now }
    ensures { result ≡ names_known (has_name known.now) draft.now.listing declaration.now }
{
    match declaration {
        Declaration::Class(class) => {
            draft.names.contains(&class.parent) && are_in(&draft.names, class.interfaces.as_slice())
        }
        Declaration::Method { method, types } => {
            known.contains(&method.id.class) && types_are_known(known, types)
        }
        Declaration::Field { id, class } => known.contains(&id.class) && known.contains(class),
    }
}

fn are_in(names: &BTreeSet<Bytes>, wanted: &[Bytes]) -> bool
    ensures { result ≡ list_all (has_name names.now) wanted.now }
{
    for name in wanted {
        if !names.contains(name) {
            return false;
        }
    }
    true
}

fn types_are_known(known: &BTreeSet<Bytes>, types: &MethodType) -> bool
    ensures { result ≡ types_are_known (has_name known.now) types.now }
{
    arguments_are_known(known, types.arguments.as_slice()) && result_is_known(known, &types.result)
}

fn arguments_are_known(known: &BTreeSet<Bytes>, arguments: &[FieldType]) -> bool
    ensures { result ≡ list_all (λ t. element_is_known (has_name known.now) t.element) arguments.now }
{
    for argument in arguments {
        if !element_is_known(known, &argument.element) {
            return false;
        }
    }
    true
}

fn result_is_known(known: &BTreeSet<Bytes>, given: &Option<FieldType>) -> bool
    ensures { result ≡ result_is_known (has_name known.now) given.now }
{
    match given {
        None => true,
        Some(found) => element_is_known(known, &found.element),
    }
}

fn element_is_known(known: &BTreeSet<Bytes>, element: &Element) -> bool
    ensures { result ≡ element_is_known (has_name known.now) element.now }
{
    match element {
        Element::Class(name) => known.contains(name),
        _ => true,
    }
}

fn add(alloc: Global, draft: &mut Draft, declaration: &Declaration) -> Result<(), NoMemory>
    requires { Agrees draft.old }
    ensures { OnOk result (Agrees draft.new
        × (draft.new.listing ≡ with_declaration draft.old.listing declaration.now)) }
{
    match declaration {
        Declaration::Class(class) => add_class(alloc, draft, class),
        Declaration::Method { method, .. } => add_method(alloc, draft, method),
        Declaration::Field { id, .. } => add_field(alloc, draft, id),
    }
}

fn add_class(alloc: Global, draft: &mut Draft, class: &ListedClass) -> Result<(), NoMemory>
    requires { Agrees draft.old }
    ensures { OnOk result (Agrees draft.new × (draft.new.listing ≡ with_class draft.old.listing class.now)) }
{
    let copy = class.copy(alloc)?;
    draft.listing.classes.push(copy)?;
    add_name(alloc, &mut draft.names, &class.name)?;
    Ok(())
}

fn add_method(alloc: Global, draft: &mut Draft, method: &ListedMethod) -> Result<(), NoMemory>
    requires { Agrees draft.old }
    ensures { OnOk result (Agrees draft.new × (draft.new.listing ≡ with_method draft.old.listing method.now)) }
{
    let copy = method.copy(alloc)?;
    draft.listing.methods.push(copy)?;
    add_id(alloc, &mut draft.methods, &method.id)?;
    Ok(())
}

fn add_field(alloc: Global, draft: &mut Draft, id: &MethodId) -> Result<(), NoMemory>
    requires { Agrees draft.old }
    ensures { OnOk result (Agrees draft.new × (draft.new.listing ≡ with_field draft.old.listing id.now)) }
{
    let copy = id.copy(alloc)?;
    draft.listing.fields.push(copy)?;
    add_id(alloc, &mut draft.fields, id)?;
    Ok(())
}
