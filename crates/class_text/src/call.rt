//! The method of the library that a call means.

ghost use Rattle.std.specs.Prelude.{◌≡◌, ◌++◌, OnOk, IfOk, option_copied};
ghost use Rattle.bytecode_model.specs.Operands.{index_of};
ghost use Rattle.class_text.specs.Lines.{spaced, is_call, reference_of, called_by, api_words, call_words};

use crate::library::Library;
use crate::words::push_word;
use api_listing::ListedMethod;
use bytecode_model::{Use, id_at, index_of, use_of};
use class_codec::Const;
use insn_codec::Insn;
use mon_base::{Bytes, MethodId, NoMemory};
use std::alloc::Global;

fn is_call(used: Use) -> bool
    ensures { result ≡ is_call used }
{
    matches!(used, Use::Call { .. })
}

/// What a reference to a method tells.
fn reference_of(
    alloc: Global,
    pool: &[Const],
    constant: Option<&Const>,
) -> Result<Option<MethodId>, NoMemory>
    ensures { IfOk result (λ id. id ≡ reference_of pool.now (option_copied constant.entry)) }
{
    match constant {
        Some(Const::Method(class, member)) => {
            let id = id_at(alloc, pool, *class, *member)?;
            Ok(Some(id))
        }
        Some(Const::IMethod(class, member)) => {
            let id = id_at(alloc, pool, *class, *member)?;
            Ok(Some(id))
        }
        _ => Ok(None),
    }
}

/// The reference of a call.
fn called_by(alloc: Global, pool: &[Const], insn: &Insn) -> Result<Option<MethodId>, NoMemory>
    ensures { IfOk result (λ id. id ≡ called_by pool.now insn.now) }
{
    if !is_call(use_of(insn)) {
        return Ok(None);
    }
    let constant = pool.get(index_of(insn) as usize);
    reference_of(alloc, pool, constant)
}

/// Appends the class that declares the method, its name and its descriptor.
fn push_api(out: &mut Bytes, method: Option<&ListedMethod>) -> Result<(), NoMemory>
    ensures { OnOk result (out.new ≡ out.old ++ spaced (api_words (option_copied method.entry))) }
{
    let Some(method) = method else {
        return Ok(());
    };
    push_word(out, "api".as_bytes())?;
    push_word(out, method.id.class.as_slice())?;
    push_word(out, method.id.name.as_slice())?;
    push_word(out, method.id.desc.as_slice())
}

/// Appends what a call means, if its reference means a listed method.
pub fn push_call(
    alloc: Global,
    out: &mut Bytes,
    library: &Library,
    pool: &[Const],
    insn: &Insn,
) -> Result<(), NoMemory>
    ensures { OnOk result (out.new ≡ out.old ++ spaced (call_words library.now pool.now insn.now)) }
{
    let called = called_by(alloc, pool, insn)?;
    let Some(id) = called else {
        return Ok(());
    };
    let listed = library.listed_for(alloc, &id)?;
    push_api(out, listed)
}
