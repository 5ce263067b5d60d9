//! Which listed method a clause is for.

ghost use Rattle.std.specs.Prelude.{◌≡◌, ◌<◌, ◌≤◌, ◌^◌, ◌++◌, length, true, Ok, IfOk, OnOk};
ghost use Rattle.mon_base.specs.Answer.{Answers, AnswersAs};
ghost use Rattle.mon_base.specs.Reading.{◌>>=◌ as ◌then◌};
ghost use Rattle.conspec_parse.specs.Methods.{desc_of, index_at, listed_method, method_at, signature_at};
ghost use Rattle.std.specs.List.{flat_map};

use crate::fault::PolicyFault;
use crate::signature::{Param, Signature, signature_at};
use api_listing::{ListedMethod, index_of, is_built_in};
use conspec_tokens::{Token, front_at};
use conspec_tree::{Phase, TreeClause, Var, has_clause};
use mon_base::{Bytes, List, NoMemory};
use std::alloc::Global;

/// The descriptor of a method with the parameters and the result.
fn desc_of(alloc: Global, params: &[Param], returned: &[u8]) -> Result<Bytes, NoMemory>
    ensures { IfOk result (λ desc. desc ≡ desc_of params.now returned.now) }
{
    let mut desc = Bytes::new(alloc);
    desc.push(b'(')?;
    push_params(&mut desc, params)?;
    desc.push(b')')?;
    desc.extend(returned)?;
    Ok(desc)
}

fn push_params(desc: &mut Bytes, params: &[Param]) -> Result<(), NoMemory>
    ensures { OnOk result (desc.new ≡ desc.old ++ flat_map (λ p. p.desc) params.now) }
{
    let mut left = params;
    while let [first, others @ ..] = left {
        desc.extend(first.desc.as_slice())?;
        left = others;
    }
    Ok(())
}

/// The index of the listed method that the signature, which stands at a token, names with the result. It has no
/// clause of the phase yet.
#[tactic(auto, unfolding(crate::specs::Methods::index_at))]
fn index_at(
    methods: &[ListedMethod],
    clauses: &[TreeClause],
    phase: Phase,
    at: u64,
    signature: &Signature,
    desc: &Bytes,
) -> Result<u32, PolicyFault>
    requires { length methods.now < 2 ^ 32 }
    ensures exact { Answers PolicyFault.Memory result (index_at methods.now clauses.now phase at signature.now desc.now) }
    ensures few { IfOk result (λ m. length signature.now.params ≤ 255) }
{
    let class = signature.path.class.as_slice();
    let name = signature.path.name.as_slice();
    if is_built_in(class, name, desc.as_slice()) {
        return Err(PolicyFault::Builtin { at });
    }
    match index_of(methods, class, name, desc.as_slice()) {
        None => Err(PolicyFault::NoMethod { at }),
        Some(method) => {
            if signature.params.len() > 255 {
                Err(PolicyFault::NoMethod { at })
            } else if has_clause(clauses, phase, method) {
                Err(PolicyFault::Twice { at })
            } else {
                Ok(method)
            }
        }
    }
}

/// The index of the listed method that this signature, which stands at a token, names with the result.
fn found_method(
    alloc: Global,
    methods: &[ListedMethod],
    clauses: &[TreeClause],
    phase: Phase,
    returned: &[u8],
    at: u64,
    signature: &Signature,
) -> Result<u32, PolicyFault>
    requires { length methods.now < 2 ^ 32 }
    ensures exact { Answers PolicyFault.Memory result
        (index_at methods.now clauses.now phase at signature.now (desc_of signature.now.params returned.now)) }
    ensures few { IfOk result (λ m. length signature.now.params ≤ 255) }
{
    let desc = desc_of(alloc, signature.params.as_slice(), returned)?;
    index_at(methods, clauses, phase, at, signature, &desc)
}

/// The tokens after the method that stands first, whose names are judged.
fn after_method<'a>(
    alloc: Global,
    vars: &[Var],
    tokens: &'a [Token],
) -> Result<&'a [Token], PolicyFault>
    ensures { AnswersAs PolicyFault.Memory (λ rest. rest.now) result
        (signature_at true vars.now tokens.now then λ read. Ok read.1) }
{
    let (_, rest) = signature_at(alloc, true, vars, tokens)?;
    Ok(rest)
}

/// The listed method with this signature, which stands first, by its index, and the tokens after it.
fn listed_method<'a>(
    alloc: Global,
    methods: &[ListedMethod],
    vars: &[Var],
    clauses: &[TreeClause],
    phase: Phase,
    returned: &[u8],
    loose: &Signature,
    tokens: &'a [Token],
) -> Result<(u32, &'a [Token]), PolicyFault>
    requires { length methods.now < 2 ^ 32 }
    ensures exact { AnswersAs PolicyFault.Memory (λ r. ((r.0, loose.now.params), r.1.now)) result
        (listed_method methods.now vars.now clauses.now phase returned.now tokens.now (Ok (loose.now, tokens.now))) }
    ensures few { IfOk result (λ r. length loose.now.params ≤ 255) }
{
    let at = front_at(tokens);
    let method = found_method(alloc, methods, clauses, phase, returned, at, loose)?;
    let rest = after_method(alloc, vars, tokens)?;
    Ok((method, rest))
}

/// The method that has to stand first, by its index among the listed, its parameters, and the tokens after it.
pub fn method_at<'a>(
    alloc: Global,
    methods: &[ListedMethod],
    vars: &[Var],
    clauses: &[TreeClause],
    phase: Phase,
    returned: &[u8],
    tokens: &'a [Token],
) -> Result<((u32, List<Param>), &'a [Token]), PolicyFault>
    requires { length methods.now < 2 ^ 32 }
    ensures exact { AnswersAs PolicyFault.Memory (λ r. (r.0, r.1.now)) result
        (method_at methods.now vars.now clauses.now phase returned.now tokens.now) }
    ensures few { IfOk result (λ r. length r.0.1 ≤ 255) }
{
    match signature_at(alloc, false, vars, tokens) {
        Ok((loose, _)) => {
            let (method, rest) = listed_method(
                alloc, methods, vars, clauses, phase, returned, &loose, tokens,
            )?;
            Ok(((method, loose.params), rest))
        }
        Err(PolicyFault::Memory) => Err(PolicyFault::Memory),
        Err(fault) => {
            after_method(alloc, vars, tokens)?;
            Err(fault)
        }
    }
}
