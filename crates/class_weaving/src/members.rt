//! The methods of a class.

ghost use Rattle.std.specs.Prelude.{◌≡◌, ◌<◌, ◌^◌, ◌+◌, ◌++◌, IfOk, Ok, OnOk, Some, length, map, option_copied, None, true};
ghost use Rattle.std.specs.List.{AllByRecursion};
ghost use Rattle.bytecode_model.specs.Sound.{IsSoundMethod};
ghost use Rattle.mon_base.specs.Answer.{AnswersAs};
ghost use Rattle.class_codec.specs.declared.tree.Attr.TheVariants.{Code as Coded};
ghost use Rattle.class_codec.specs.declared.tree.Code.{Code};
ghost use Rattle.class_weaving.specs.Woven.{first_code, attr_with, member_with, bare_put};
ghost use Rattle.class_weaving.specs.Woven.{code_put, body_woven, member_woven, members_woven, none_made};

use crate::code::{code_woven, copy_code};
use crate::woven::Members;
use bytecode_model::{LinkedClass, Method};
use class_codec::{Attr, Code, Copied, Member};
use mon_base::{Bytes, List, NoMemory};
use offset_patch::{Planner, SpliceFault, Spliced};
use std::alloc::Global;

/// Appends the members of a class, with its blocks.
pub fn members_woven<P: Planner>(
    alloc: Global,
    planner: &P,
    state: u32,
    class: &LinkedClass,
    made: &mut Members,
    members: &[Member],
) -> Result<(), SpliceFault>
    requires methods { AllByRecursion IsSoundMethod class.now.methods }
    requires count { made.old.number + length members.now < 2 ^ 17 }
    requires pool { length made.old.entries < 2 ^ 16 }
    ensures is { AnswersAs SpliceFault.Memory (λ done. made.new) result
        (members_woven (P.plan planner.now) state class.now made.old members.now) }
    ensures pool { OnOk result (length made.new.entries < 2 ^ 16) }
{
    let mut left = members;
    while let [member, rest @ ..] = left {
        member_woven(alloc, planner, state, class, made, member)?;
        left = rest;
    }
    Ok(())
}

fn member_woven<P: Planner>(
    alloc: Global,
    planner: &P,
    state: u32,
    class: &LinkedClass,
    made: &mut Members,
    member: &Member,
) -> Result<(), SpliceFault>
    requires methods { AllByRecursion IsSoundMethod class.now.methods }
    requires count { made.old.number < 2 ^ 17 }
    requires pool { length made.old.entries < 2 ^ 16 }
    ensures is { AnswersAs SpliceFault.Memory (λ done. made.new) result
        (member_woven (P.plan planner.now) state class.now made.old member.now) }
    ensures count { OnOk result (made.new.number ≡ made.old.number + 1) }
    ensures pool { OnOk result (length made.new.entries < 2 ^ 16) }
{
    let Some(method) = class.methods.as_slice().get(made.number as usize) else {
        return bare_put(alloc, made, member, None);
    };
    let Some(code) = first_code(member.attrs.as_slice()) else {
        return bare_put(alloc, made, member, Some(method));
    };
    body_woven(
        alloc,
        planner,
        state,
        &class.name,
        made,
        member,
        method,
        code,
    )
}

/// Appends a member without code, and its method.
fn bare_put(
    alloc: Global,
    made: &mut Members,
    member: &Member,
    method: Option<&Method>,
) -> Result<(), SpliceFault>
    requires { made.old.number < 2 ^ 17 }
    ensures { AnswersAs SpliceFault.Memory (λ done. made.new) result (Ok (bare_put made.old member.now (option_copied method.entry))) }
{
    let copy = member.copy(alloc)?;
    made.items.push(copy)?;
    if let Some(method) = method {
        made.methods.push(method.copy(alloc)?)?;
    }
    made.number += 1;
    Ok(())
}

fn body_woven<P: Planner>(
    alloc: Global,
    planner: &P,
    state: u32,
    class: &Bytes,
    made: &mut Members,
    member: &Member,
    method: &Method,
    code: &Code,
) -> Result<(), SpliceFault>
    requires method { IsSoundMethod method.now }
    requires count { made.old.number < 2 ^ 17 }
    requires pool { length made.old.entries < 2 ^ 16 }
    ensures is { AnswersAs SpliceFault.Memory (λ done. made.new) result
        (body_woven (P.plan planner.now) state class.now made.old member.now (Some method.now) (Some code.now)) }
    ensures count { OnOk result (made.new.number ≡ made.old.number + 1) }
    ensures pool { OnOk result (length made.new.entries < 2 ^ 16) }
{
    let number = made.number;
    let spliced = code_woven(
        alloc,
        planner,
        state,
        class,
        number,
        &mut made.entries,
        method,
        code,
    )?;
    code_put(alloc, made, member, spliced)?;
    Ok(())
}

/// Appends a member with this code, and its method.
fn code_put(
    alloc: Global,
    made: &mut Members,
    member: &Member,
    spliced: Spliced,
) -> Result<(), NoMemory>
    requires { made.old.number < 2 ^ 17 }
    ensures { OnOk result (made.new ≡ code_put made.old member.now (record { made = spliced; entries = made.old.entries })) }
{
    let Spliced {
        method,
        origins,
        code,
    } = spliced;
    let member = member_with(alloc, member, code)?;
    made.items.push(member)?;
    made.methods.push(method)?;
    made.origins.push(origins)?;
    made.number += 1;
    Ok(())
}

/// The first code among attributes.
fn first_code(attrs: &[Attr]) -> Option<&Code>
    ensures { option_copied result ≡ first_code attrs.now }
{
    let mut left = attrs;
    while let [attr, rest @ ..] = left {
        if let Attr::Code(code) = attr {
            return Some(code);
        }
        left = rest;
    }
    None
}

/// The member with another code.
fn member_with(alloc: Global, member: &Member, code: Code) -> Result<Member, NoMemory>
    ensures { IfOk result (λ other. other ≡ member_with member.now code) }
{
    let attrs = attrs_with(alloc, member.attrs.as_slice(), code)?;
    Ok(Member {
        flags: member.flags,
        name: member.name,
        desc: member.desc,
        attrs,
    })
}

/// The attributes, each code of them being this one.
fn attrs_with(alloc: Global, olds: &[Attr], code: Code) -> Result<List<Attr>, NoMemory>
    ensures { IfOk result (λ attrs. attrs ≡ map (attr_with code) olds.now) }
{
    let mut attrs = List::with_room(alloc, olds.len())?;
    let mut left = olds;
    while let [attr, rest @ ..] = left {
        if is_last_code(attr, rest) {
            attrs.push(Attr::Code(code))?;
            put_others(alloc, &mut attrs, rest)?;
            return Ok(attrs);
        }
        attrs.push(attr_with(alloc, &code, attr)?)?;
        left = rest;
    }
    drop(code);
    Ok(attrs)
}

/// Whether the attribute is a code after which these stand, of which none is one.
fn is_last_code(attr: &Attr, rest: &[Attr]) -> bool
    ensures { result ≡ true → ((code : Code) → attr_with code attr.now ≡ Coded code) × (first_code rest.now ≡ None) }
{
    match attr {
        Attr::Code(_) => first_code(rest).is_none(),
        Attr::Other(_) => false,
    }
}

/// Appends equal attributes.
fn put_others(alloc: Global, attrs: &mut List<Attr>, olds: &[Attr]) -> Result<(), NoMemory>
    ensures { OnOk result (attrs.new ≡ attrs.old ++ olds.now) }
{
    for attr in olds {
        attrs.push(attr.copy(alloc)?)?;
    }
    Ok(())
}

fn attr_with(alloc: Global, code: &Code, attr: &Attr) -> Result<Attr, NoMemory>
    ensures { IfOk result (λ other. other ≡ attr_with code.now attr.now) }
{
    match attr {
        Attr::Code(_) => {
            let code = copy_code(alloc, code)?;
            Ok(Attr::Code(code))
        }
        Attr::Other(_) => attr.copy(alloc),
    }
}
