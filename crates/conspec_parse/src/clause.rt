//! Clauses: the events of a method, and what is asked and done there.

ghost use Rattle.std.specs.Prelude.{◌≡◌, ◌≤◌, ◌<◌, ◌^◌, ◌+◌, [], ◌∷◌, length, map, IfOk};
ghost use Rattle.mon_base.specs.Answer.{AnswersAs};
ghost use Rattle.conspec_parse.specs.Forms.{each};
ghost use Rattle.conspec_parse.specs.Scope.{HasFewNames};
ghost use Rattle.conspec_tree.specs.Guards.{branches};
ghost use Rattle.conspec_parse.specs.Clauses.{
  begins_guard,
  guard_of,
  guard_at,
  last_guard,
  with_else,
  body_at,
  next_phase,
  begins_clause,
  is_assigned,
  given_result_at,
  result_name_at,
  asked_params,
  clause_of_method,
  clause_of_type,
  clause_at,
};

use crate::fault::PolicyFault;
use crate::forms::{following, is_short, name_at};
use crate::guard::conjs_at;
use crate::method::method_at;
use crate::scope::Names;
use crate::signature::Param;
use crate::type_name::{TypeName, type_at};
use crate::update::block_at;
use api_listing::ListedMethod;
use conspec_tokens::{Token, front_at, is_name, is_next, rest_of};
use conspec_tree::{
    Atom, Guard, Kind, Phase, TreeClause, Var, branches, is_after, is_variable, kind_or_object,
    longest,
};
use mon_base::{Bytes, List, NoMemory};
use std::alloc::Global;

fn begins_guard(tokens: &[Token]) -> bool
    ensures { result ≡ begins_guard tokens.now }
{
    is_next("true", tokens) || is_name(tokens)
}

/// Puts the guard with these branches, whose arrow has to stand first, onto the guards so far, and gives the tokens
/// after it.
#[tactic(auto, using(crate::proofs::Branches::branches_more), unfolding(crate::specs::Clauses::guard_of))]
fn guard_of<'a>(
    alloc: Global,
    vars: &[Var],
    maxint: i32,
    conjs: List<List<Atom>>,
    guards: &mut List<Guard>,
    tokens: &'a [Token],
) -> Result<&'a [Token], PolicyFault>
    requires few { length vars.now ≤ 16 }
    ensures exact { AnswersAs PolicyFault.Memory (λ rest. (guards.new, rest.now)) result
        (guard_of vars.now maxint guards.old conjs tokens.now) }
    ensures branches { IfOk result (λ _. branches guards.new ≡ branches guards.old + length conjs) }
{
    let block = following("->", tokens)?;
    let most = longest(conjs.as_slice());
    let mut updates = List::new(alloc);
    let rest = block_at(vars, maxint, most, &mut updates, block)?;
    guards.push(Guard { conjs, updates })?;
    Ok(rest)
}

/// Puts onto the guards so far the one that stands first, and gives the tokens after it.
#[tactic(auto, unfolding(crate::specs::Clauses::guard_at))]
fn guard_at<'a>(
    alloc: Global,
    names: &Names<'_>,
    maxint: i32,
    guards: &mut List<Guard>,
    tokens: &'a [Token],
) -> Result<&'a [Token], PolicyFault>
    requires few { HasFewNames names.now }
    requires within { branches guards.old ≤ 64 }
    ensures exact { AnswersAs PolicyFault.Memory (λ rest. (guards.new, rest.now)) result
        (guard_at names.now maxint guards.old tokens.now) }
    ensures within { IfOk result (λ _. branches guards.new ≤ 64) }
{
    let before = branches(guards.as_slice());
    let mut conjs = List::new(alloc);
    let arrow = conjs_at(alloc, names, before, &mut conjs, tokens)?;
    guard_of(alloc, names.vars, maxint, conjs, guards, arrow)
}

fn guards_at<'a>(
    alloc: Global,
    names: &Names<'_>,
    maxint: i32,
    guards: &mut List<Guard>,
    tokens: &'a [Token],
) -> Result<&'a [Token], PolicyFault>
    requires few { HasFewNames names.now }
    requires within { branches guards.old ≤ 64 }
    ensures exact { AnswersAs PolicyFault.Memory (λ rest. (guards.new, rest.now)) result
        (each begins_guard (guard_at names.now maxint) guards.old tokens.now) }
    ensures within { IfOk result (λ _. branches guards.new ≤ 64) }
{
    let mut left = tokens;
    for _ in 0..tokens.len() {
        if !begins_guard(left) {
            return Ok(left);
        }
        left = guard_at(alloc, names, maxint, guards, left)?;
    }
    Ok(left)
}

/// The branches of the guard that always holds: one with no atoms.
fn always(alloc: Global) -> Result<List<List<Atom>>, NoMemory>
    ensures { IfOk result (λ conjs. conjs ≡ [] ∷ []) }
{
    let mut conjs = List::new(alloc);
    conjs.push(List::new(alloc))?;
    Ok(conjs)
}

/// Puts the guard that always holds, as the last, onto the guards, and gives the tokens after it.
#[tactic(auto, unfolding(crate::specs::Clauses::last_guard))]
fn last_guard<'a>(
    alloc: Global,
    names: &Names<'_>,
    maxint: i32,
    guards: &mut List<Guard>,
    tokens: &'a [Token],
) -> Result<&'a [Token], PolicyFault>
    requires few { HasFewNames names.now }
    requires within { branches guards.old ≤ 64 }
    ensures { AnswersAs PolicyFault.Memory (λ rest. (guards.new, rest.now)) result
        (last_guard names.now maxint guards.old tokens.now) }
{
    if branches(guards.as_slice()) >= 64 {
        return Err(PolicyFault::Limit {
            at: front_at(tokens),
        });
    }
    let conjs = always(alloc)?;
    guard_of(alloc, names.vars, maxint, conjs, guards, rest_of(tokens))
}

fn with_else<'a>(
    alloc: Global,
    names: &Names<'_>,
    maxint: i32,
    guards: &mut List<Guard>,
    tokens: &'a [Token],
) -> Result<&'a [Token], PolicyFault>
    requires few { HasFewNames names.now }
    requires within { branches guards.old ≤ 64 }
    ensures { AnswersAs PolicyFault.Memory (λ rest. (guards.new, rest.now)) result
        (with_else names.now maxint guards.old tokens.now) }
{
    if is_next("ELSE", tokens) {
        last_guard(alloc, names, maxint, guards, tokens)
    } else {
        Ok(tokens)
    }
}

/// Puts the guards of a clause onto an empty list, and gives the tokens after them.
#[tactic(auto, unfolding(crate::specs::Clauses::body_at))]
fn body_at<'a>(
    alloc: Global,
    names: &Names<'_>,
    maxint: i32,
    guards: &mut List<Guard>,
    tokens: &'a [Token],
) -> Result<&'a [Token], PolicyFault>
    requires few { HasFewNames names.now }
    requires none { guards.old ≡ [] }
    ensures { AnswersAs PolicyFault.Memory (λ rest. (guards.new, rest.now)) result (body_at names.now maxint tokens.now) }
{
    let left = guards_at(alloc, names, maxint, guards, tokens)?;
    with_else(alloc, names, maxint, guards, left)
}

fn next_phase(tokens: &[Token]) -> Option<Phase>
    ensures { result ≡ next_phase tokens.now }
{
    if is_next("BEFORE", tokens) {
        Some(Phase::Before)
    } else if is_next("AFTER", tokens) {
        Some(Phase::After)
    } else if is_next("EXCEPTIONAL", tokens) {
        Some(Phase::Exceptional)
    } else {
        None
    }
}

/// Whether a clause begins here.
pub fn begins_clause(tokens: &[Token]) -> bool
    ensures { result ≡ begins_clause tokens.now }
{
    next_phase(tokens).is_some()
}

fn is_assigned(tokens: &[Token]) -> bool
    ensures { result ≡ is_assigned tokens.now }
{
    if !is_name(tokens) {
        return false;
    }
    is_next("=", rest_of(tokens))
}

/// The name of a result, and the tokens after `=`.
#[tactic(auto, unfolding(crate::specs::Clauses::given_result_at))]
fn given_result_at<'a>(
    vars: &[Var],
    kind: Option<Kind>,
    tokens: &'a [Token],
) -> Result<(&'a [u8], &'a [Token]), PolicyFault>
    ensures { AnswersAs PolicyFault.Memory (λ r. (r.0.now, r.1.now)) result (given_result_at vars.now kind tokens.now) }
{
    let (name, equals) = name_at(tokens)?;
    if kind.is_none() {
        return Err(PolicyFault::Kind {
            at: front_at(tokens),
        });
    }
    if is_variable(vars, name) {
        return Err(PolicyFault::Twice {
            at: front_at(tokens),
        });
    }
    if !is_short(name) {
        return Err(PolicyFault::Limit {
            at: front_at(tokens),
        });
    }
    let rest = following("=", equals)?;
    Ok((name, rest))
}

fn result_name_at<'a>(
    alloc: Global,
    vars: &[Var],
    phase: Phase,
    kind: Option<Kind>,
    tokens: &'a [Token],
) -> Result<(Option<Bytes>, &'a [Token]), PolicyFault>
    ensures { AnswersAs PolicyFault.Memory (λ r. (r.0, r.1.now)) result (result_name_at vars.now phase kind tokens.now) }
{
    if is_after(phase) && is_assigned(tokens) {
        let (name, rest) = given_result_at(vars, kind, tokens)?;
        let name = Bytes::from_slice(alloc, name)?;
        return Ok((Some(name), rest));
    }
    Ok((None, tokens))
}

/// At a call the arguments may be asked.
fn asked_params(phase: Phase, params: &[Param]) -> &[Param]
    ensures exact { result.now ≡ asked_params phase params.now }
    ensures few { length result.now ≤ length params.now }
{
    match phase {
        Phase::Before => params,
        _ => &params[..0],
    }
}

fn kinds_of(alloc: Global, params: &[Param]) -> Result<List<Kind>, NoMemory>
    ensures { IfOk result (λ kinds. kinds ≡ map (λ p. p.kind) params.now) }
{
    let mut kinds = List::new(alloc);
    for param in params {
        kinds.push(param.kind)?;
    }
    Ok(kinds)
}

/// Puts the clause of this method, whose guards have to stand first, onto the clauses so far, and gives the tokens
/// after it.
#[tactic(auto, unfolding(crate::specs::Clauses::clause_of_method))]
fn clause_of_method<'a>(
    alloc: Global,
    names: &Names<'_>,
    maxint: i32,
    head: (u32, Phase, Option<Kind>),
    params: &[Param],
    clauses: &mut List<TreeClause>,
    tokens: &'a [Token],
) -> Result<&'a [Token], PolicyFault>
    requires { HasFewNames names.now }
    ensures { AnswersAs PolicyFault.Memory (λ rest. (clauses.new, rest.now)) result
        (clause_of_method names.now maxint head.0 head.1 params.now head.2 clauses.old tokens.now) }
{
    let (method, phase, result) = head;
    let body = following("PERFORM", tokens)?;
    let mut guards = List::new(alloc);
    let rest = body_at(alloc, names, maxint, &mut guards, body)?;
    let args = kinds_of(alloc, params)?;
    clauses.push(TreeClause {
        method,
        phase,
        args,
        result,
        guards,
    })?;
    Ok(rest)
}

/// Puts the clause of this phase and type, whose result's name or method has to stand first, onto the clauses so far,
/// and gives the tokens after it.
#[tactic(auto, unfolding(crate::specs::Clauses::clause_of_type))]
fn clause_of_type<'a>(
    alloc: Global,
    methods: &[ListedMethod],
    vars: &[Var],
    maxint: i32,
    phase: Phase,
    returned: &TypeName,
    clauses: &mut List<TreeClause>,
    tokens: &'a [Token],
) -> Result<&'a [Token], PolicyFault>
    requires listed { length methods.now < 2 ^ 32 }
    requires few { length vars.now ≤ 16 }
    ensures { AnswersAs PolicyFault.Memory (λ rest. (clauses.new, rest.now)) result
        (clause_of_type methods.now vars.now maxint phase returned.now clauses.old tokens.now) }
{
    let (name, left) = result_name_at(alloc, vars, phase, returned.kind, tokens)?;
    let desc = returned.desc.as_slice();
    let (found, left) = method_at(alloc, methods, vars, clauses.as_slice(), phase, desc, left)?;
    let (method, params) = found;
    let names = Names {
        vars,
        args: asked_params(phase, params.as_slice()),
        returned: &name,
        kind: kind_or_object(returned.kind),
    };
    let head = (method, phase, returned.kind);
    clause_of_method(
        alloc,
        &names,
        maxint,
        head,
        params.as_slice(),
        clauses,
        left,
    )
}

/// Puts onto the clauses so far the one that stands first, and gives the tokens after it.
#[tactic(auto, unfolding(crate::specs::Clauses::clause_at))]
fn clause_at<'a>(
    alloc: Global,
    methods: &[ListedMethod],
    vars: &[Var],
    maxint: i32,
    clauses: &mut List<TreeClause>,
    tokens: &'a [Token],
) -> Result<&'a [Token], PolicyFault>
    requires listed { length methods.now < 2 ^ 32 }
    requires few { length vars.now ≤ 16 }
    ensures { AnswersAs PolicyFault.Memory (λ rest. (clauses.new, rest.now)) result
        (clause_at methods.now vars.now maxint clauses.old tokens.now) }
{
    if clauses.len() >= 64 {
        return Err(PolicyFault::Limit {
            at: front_at(tokens),
        });
    }
    let Some(phase) = next_phase(tokens) else {
        return Err(PolicyFault::Syntax {
            at: front_at(tokens),
        });
    };
    let (returned, left) = type_at(alloc, true, rest_of(tokens))?;
    clause_of_type(
        alloc, methods, vars, maxint, phase, &returned, clauses, left,
    )
}

/// Puts the clauses, at most 64, onto those so far, and gives the tokens after them.
pub fn clauses_at<'a>(
    alloc: Global,
    methods: &[ListedMethod],
    vars: &[Var],
    maxint: i32,
    clauses: &mut List<TreeClause>,
    tokens: &'a [Token],
) -> Result<&'a [Token], PolicyFault>
    requires listed { length methods.now < 2 ^ 32 }
    requires few { length vars.now ≤ 16 }
    ensures { AnswersAs PolicyFault.Memory (λ rest. (clauses.new, rest.now)) result
        (each begins_clause (clause_at methods.now vars.now maxint) clauses.old tokens.now) }
{
    let mut left = tokens;
    for _ in 0..tokens.len() {
        if !begins_clause(left) {
            return Ok(left);
        }
        left = clause_at(alloc, methods, vars, maxint, clauses, left)?;
    }
    Ok(left)
}
