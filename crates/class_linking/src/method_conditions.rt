//! The conditions that each method meets. (The Java Virtual Machine Specification, sections 4.6 and 4.7.3.)

ghost use Rattle.std.specs.Prelude.{◌≡◌, ◌&&◌, ◌≤◌, length, IfOk, IfSome, option_copied, slice_get};
ghost use Rattle.mon_base.specs.Answer.{Answers};
ghost use Rattle.bytecode_model.specs.Heads.{all_classes};
ghost use Rattle.bytecode_model.specs.SearchOrder.{search_order};
ghost use Rattle.class_index.specs.Library.{OverridesAs};
ghost use Rattle.bytecode_model.specs.Conditions.{
  code_in,
  has_good_flags,
  is_good_initialiser,
  is_begun_unlocked,
  describes_method,
  has_its_code,
  is_allowed,
  overrides_in,
  overrides,
  id_of,
};

use api_listing::{FormFault, parse_descriptor};
use bytecode_model::{
    copy_text, has_its_code, is_abstract, is_native, is_static, is_synchronized, is_text, text_at,
};
use class_codec::{Const, Member};
use class_index::{Index, in_class};
use mon_base::{Bytes, MethodId, NoMemory};
use std::alloc::Global;

/// Whether a method is one of this subset.
pub fn is_allowed(alloc: Global, pool: &[Const], member: &Member) -> Result<bool, NoMemory>
    ensures { IfOk result (λ allowed. allowed ≡ is_allowed pool.now member.now) }
{
    if !has_good_form(pool, member) {
        return Ok(false);
    }
    let described = describes_method(alloc, text_at(pool, member.desc))?;
    Ok(described && has_its_code(member))
}

fn has_good_form(pool: &[Const], member: &Member) -> bool
    ensures { result ≡ (has_good_flags pool.now member.now
        && (is_good_initialiser pool.now member.now && is_begun_unlocked pool.now member.now)) }
{
    has_good_flags(pool, member)
        && is_good_initialiser(pool, member)
        && is_begun_unlocked(pool, member)
}

fn has_good_flags(pool: &[Const], member: &Member) -> bool
    ensures { result ≡ has_good_flags pool.now member.now }
{
    let is_maker = is_text(text_at(pool, member.name), "<init>");
    !is_native(member.flags)
        && !(is_abstract(member.flags) && (is_static(member.flags) || is_maker))
}

fn is_good_initialiser(pool: &[Const], member: &Member) -> bool
    ensures { result ≡ is_good_initialiser pool.now member.now }
{
    !is_text(text_at(pool, member.name), "<clinit>")
        || is_static(member.flags) && is_text(text_at(pool, member.desc), "()V")
}

fn is_begun_unlocked(pool: &[Const], member: &Member) -> bool
    ensures { result ≡ is_begun_unlocked pool.now member.now }
{
    let name = text_at(pool, member.name);
    let desc = text_at(pool, member.desc);
    let is_main = is_text(name, "main") && is_text(desc, "([Ljava/lang/String;)V");
    let is_run = is_text(name, "run") && is_text(desc, "()V");
    !(is_synchronized(member.flags) && (is_main || (is_text(name, "<clinit>") || is_run)))
}

fn describes_method(alloc: Global, desc: &[u8]) -> Result<bool, NoMemory>
    ensures { IfOk result (λ described. described ≡ describes_method desc.now) }
{
    match parse_descriptor(alloc, desc) {
        Ok(_) => Ok(true),
        Err(FormFault::NoForm) => Ok(false),
        Err(FormFault::Memory) => Err(NoMemory),
    }
}

/// Whether an instance method other than a maker is one of the library above its class; `order` has those of
/// the classes above that may have such methods.
pub fn overrides(
    alloc: Global,
    index: &Index,
    order: &[Bytes],
    class: &Bytes,
    pool: &[Const],
    member: &Member,
) -> Result<bool, NoMemory>
    requires { OverridesAs index.now.listing order.now (search_order (all_classes index.now.listing index.now.files) class.now) }
    ensures { IfOk result (λ b.
        b ≡ overrides (all_classes index.now.listing index.now.files) index.now.listing class.now pool.now member.now) }
{
    if is_static(member.flags) || is_text(text_at(pool, member.name), "<init>") {
        return Ok(false);
    }
    let id = id_of(alloc, class, pool, member)?;
    let found = overrides_in(alloc, index, &id, order)?;
    Ok(found)
}

/// The method's class, name and descriptor.
pub fn id_of(
    alloc: Global,
    class: &Bytes,
    pool: &[Const],
    member: &Member,
) -> Result<MethodId, NoMemory>
    ensures { IfOk result (λ id. id ≡ id_of class.now pool.now member.now) }
{
    Ok(MethodId {
        class: class.copy(alloc)?,
        name: copy_text(alloc, pool, member.name)?,
        desc: copy_text(alloc, pool, member.desc)?,
    })
}

/// Whether the library declares the method in one of the classes.
pub fn overrides_in(
    alloc: Global,
    index: &Index,
    id: &MethodId,
    order: &[Bytes],
) -> Result<bool, NoMemory>
    ensures { IfOk result (λ b. b ≡ overrides_in index.now.listing id.now order.now) }
{
    let mut left = order;
    while let [class, rest @ ..] = left {
        let other = in_class(alloc, id, class)?;
        if index.is_of_library(&other) {
            return Ok(true);
        }
        left = rest;
    }
    Ok(false)
}
