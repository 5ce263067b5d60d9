//! The method of a clause as it is written: its class and name, and its parameters.

ghost use Rattle.std.specs.Prelude.{◌≡◌, [], codes, not, IfOk};
ghost use Rattle.mon_base.specs.Answer.{AnswersAs};
ghost use Rattle.mon_base.specs.Reading.{◌>>=◌ as ◌then◌, need};
ghost use Rattle.conspec_tokens.specs.Front.{front_at, is_next};
ghost use Rattle.conspec_parse.specs.declared.fault.PolicyFault.TheVariants.{Syntax};
ghost use Rattle.conspec_parse.specs.Forms.{following, each};
ghost use Rattle.conspec_parse.specs.Methods.{
  is_named,
  is_parameter,
  is_free,
  given_name_at,
  parameter_name_at,
  parameter_at,
  next_parameter,
  some_parameters,
  parameters_at,
  bracketed,
  part_at,
  class_under,
  next_step,
  path_at,
  signature_at,
};

use crate::fault::PolicyFault;
use crate::forms::{following, is_short, name_at};
use crate::type_name::{judged_name, type_at};
use conspec_tokens::{Token, front_at, is_name, is_next, rest_of};
use conspec_tree::{Kind, Var, is_variable, kind_or_object};
use mon_base::{Bytes, List, NoMemory};
use std::alloc::Global;

/// A parameter: its name, where it has one, its descriptor and its kind.
#[derive(Drop)]
pub struct Param {
    pub name: Option<Bytes>,
    pub desc: Bytes,
    pub kind: Kind,
}

/// A method's class, with `/` between its parts, and its name.
#[derive(Drop)]
pub struct Path {
    pub class: Bytes,
    pub name: Bytes,
}

/// The parts of a path so far: the last, whether this is `<init>`, below which nothing stands, and those before it,
/// with `/` between, where there are any.
#[derive(Drop)]
pub struct Parts {
    pub class: Option<Bytes>,
    pub name: Bytes,
    pub is_last: bool,
}

/// A method as a clause names it.
#[derive(Drop)]
pub struct Signature {
    pub path: Path,
    pub params: List<Param>,
}

/// Whether the name is this one.
pub fn is_named(given: &Option<Bytes>, name: &[u8]) -> bool
    ensures { result ≡ is_named given.now name.now }
{
    match given {
        Some(word) => word.as_slice() == name,
        None => false,
    }
}

fn is_parameter(params: &[Param], name: &[u8]) -> bool
    ensures { result ≡ is_parameter params.now name.now }
{
    let mut left = params;
    while let [first, others @ ..] = left {
        if is_named(&first.name, name) {
            return true;
        }
        left = others;
    }
    false
}

fn is_free(vars: &[Var], params: &[Param], name: &[u8]) -> bool
    ensures { result ≡ is_free vars.now params.now name.now }
{
    !(is_variable(vars, name) || is_parameter(params, name))
}

#[tactic(auto, unfolding(crate::specs::Methods::given_name_at))]
fn given_name_at<'a>(
    judged: bool,
    vars: &[Var],
    params: &[Param],
    tokens: &'a [Token],
) -> Result<(&'a [u8], &'a [Token]), PolicyFault>
    ensures { AnswersAs PolicyFault.Memory (λ r. (r.0.now, r.1.now)) result (given_name_at judged vars.now params.now tokens.now) }
{
    let (name, rest) = name_at(tokens)?;
    if judged && !is_free(vars, params, name) {
        return Err(PolicyFault::Twice {
            at: front_at(tokens),
        });
    }
    if judged && !is_short(name) {
        return Err(PolicyFault::Limit {
            at: front_at(tokens),
        });
    }
    Ok((name, rest))
}

fn parameter_name_at<'a>(
    alloc: Global,
    judged: bool,
    vars: &[Var],
    params: &[Param],
    tokens: &'a [Token],
) -> Result<(Option<Bytes>, &'a [Token]), PolicyFault>
    ensures { AnswersAs PolicyFault.Memory (λ r. (r.0, r.1.now)) result (parameter_name_at judged vars.now params.now tokens.now) }
{
    if !is_name(tokens) {
        return Ok((None, tokens));
    }
    let (name, rest) = given_name_at(judged, vars, params, tokens)?;
    let name = Bytes::from_slice(alloc, name)?;
    Ok((Some(name), rest))
}

/// Puts onto the parameters the one that stands first, and gives the tokens after it.
#[tactic(auto, unfolding(crate::specs::Methods::parameter_at))]
fn parameter_at<'a>(
    alloc: Global,
    judged: bool,
    vars: &[Var],
    params: &mut List<Param>,
    tokens: &'a [Token],
) -> Result<&'a [Token], PolicyFault>
    ensures { AnswersAs PolicyFault.Memory (λ rest. (params.new, rest.now)) result
        (parameter_at judged vars.now params.old tokens.now) }
{
    let (named, left) = type_at(alloc, judged, tokens)?;
    let (name, rest) = parameter_name_at(alloc, judged, vars, params.as_slice(), left)?;
    let kind = kind_or_object(named.kind);
    params.push(Param {
        name,
        desc: named.desc,
        kind,
    })?;
    Ok(rest)
}

#[tactic(auto, unfolding(crate::specs::Methods::next_parameter))]
fn next_parameter<'a>(
    alloc: Global,
    judged: bool,
    vars: &[Var],
    params: &mut List<Param>,
    tokens: &'a [Token],
) -> Result<&'a [Token], PolicyFault>
    ensures { AnswersAs PolicyFault.Memory (λ rest. (params.new, rest.now)) result
        (next_parameter judged vars.now params.old tokens.now) }
{
    let left = following(",", tokens)?;
    parameter_at(alloc, judged, vars, params, left)
}

fn parameters_from<'a>(
    alloc: Global,
    judged: bool,
    vars: &[Var],
    params: &mut List<Param>,
    tokens: &'a [Token],
) -> Result<&'a [Token], PolicyFault>
    ensures { AnswersAs PolicyFault.Memory (λ rest. (params.new, rest.now)) result
        (each (is_next (codes ",")) (next_parameter judged vars.now) params.old tokens.now) }
{
    let mut left = tokens;
    for _ in 0..tokens.len() {
        if !is_next(",", left) {
            return Ok(left);
        }
        left = next_parameter(alloc, judged, vars, params, left)?;
    }
    Ok(left)
}

#[tactic(auto, unfolding(crate::specs::Methods::some_parameters))]
fn some_parameters<'a>(
    alloc: Global,
    judged: bool,
    vars: &[Var],
    params: &mut List<Param>,
    tokens: &'a [Token],
) -> Result<&'a [Token], PolicyFault>
    requires { params.old ≡ [] }
    ensures { AnswersAs PolicyFault.Memory (λ rest. (params.new, rest.now)) result (some_parameters judged vars.now tokens.now) }
{
    let rest = parameter_at(alloc, judged, vars, params, tokens)?;
    parameters_from(alloc, judged, vars, params, rest)
}

fn parameters_at<'a>(
    alloc: Global,
    judged: bool,
    vars: &[Var],
    params: &mut List<Param>,
    tokens: &'a [Token],
) -> Result<&'a [Token], PolicyFault>
    requires { params.old ≡ [] }
    ensures { AnswersAs PolicyFault.Memory (λ rest. (params.new, rest.now)) result (parameters_at judged vars.now tokens.now) }
{
    if is_next(")", tokens) {
        Ok(tokens)
    } else {
        some_parameters(alloc, judged, vars, params, tokens)
    }
}

/// Puts the parameters between brackets, which have to stand first, onto an empty list, and gives the tokens after
/// them.
#[tactic(auto, unfolding(crate::specs::Methods::bracketed))]
fn bracketed<'a>(
    alloc: Global,
    judged: bool,
    vars: &[Var],
    params: &mut List<Param>,
    tokens: &'a [Token],
) -> Result<&'a [Token], PolicyFault>
    requires { params.old ≡ [] }
    ensures { AnswersAs PolicyFault.Memory (λ rest. (params.new, rest.now)) result (bracketed judged vars.now tokens.now) }
{
    let opened = following("(", tokens)?;
    let closed = parameters_at(alloc, judged, vars, params, opened)?;
    following(")", closed)
}

/// The name of a class's part or of a method, and the tokens after it.
fn part_at(alloc: Global, judged: bool, tokens: &[Token]) -> Result<(Bytes, &[Token]), PolicyFault>
    ensures { AnswersAs PolicyFault.Memory (λ r. (r.0, r.1.now)) result (part_at judged tokens.now) }
{
    if is_next("<init>", tokens) {
        let name = Bytes::from_slice(alloc, b"<init>")?;
        return Ok((name, rest_of(tokens)));
    }
    let (name, rest) = judged_name(judged, tokens)?;
    let name = Bytes::from_slice(alloc, name)?;
    Ok((name, rest))
}

fn class_under(parts: Parts) -> Result<Bytes, NoMemory>
    ensures { IfOk result (λ class. class ≡ class_under parts.class parts.name) }
{
    let Parts { class, name, .. } = parts;
    let Some(class) = class else {
        return Ok(name);
    };
    let mut class = class;
    class.push(b'/')?;
    class.extend(name.as_slice())?;
    Ok(class)
}

/// The part after the dot that has to stand first, and the tokens after it. Nothing stands below the last part.
fn part_below(
    alloc: Global,
    judged: bool,
    is_last: bool,
    tokens: &[Token],
) -> Result<(Bytes, &[Token]), PolicyFault>
    ensures { AnswersAs PolicyFault.Memory (λ r. (r.0, r.1.now)) result
        (need (not is_last) (Syntax (front_at tokens.now))
        then λ below. following (codes ".") tokens.now then λ dot. part_at judged dot) }
{
    if is_last {
        return Err(PolicyFault::Syntax {
            at: front_at(tokens),
        });
    }
    let part = following(".", tokens)?;
    part_at(alloc, judged, part)
}

/// The parts so far, and below them the one after the dot. Nothing stands below a constructor.
#[tactic(auto, unfolding(crate::specs::Methods::next_step))]
fn next_step<'a>(
    alloc: Global,
    judged: bool,
    parts: Parts,
    tokens: &'a [Token],
) -> Result<(Parts, &'a [Token]), PolicyFault>
    ensures { AnswersAs PolicyFault.Memory (λ r. (r.0, r.1.now)) result (next_step judged parts tokens.now) }
{
    let (name, rest) = part_below(alloc, judged, parts.is_last, tokens)?;
    let is_last = is_next("<init>", rest_of(tokens));
    let class = class_under(parts)?;
    Ok((
        Parts {
            class: Some(class),
            name,
            is_last,
        },
        rest,
    ))
}

fn path_from<'a>(
    alloc: Global,
    judged: bool,
    first: Parts,
    tokens: &'a [Token],
) -> Result<(Parts, &'a [Token]), PolicyFault>
    ensures { AnswersAs PolicyFault.Memory (λ r. (r.0, r.1.now)) result (each (is_next (codes ".")) (next_step judged) first tokens.now) }
{
    let mut parts = first;
    let mut left = tokens;
    for _ in 0..tokens.len() {
        if !is_next(".", left) {
            return Ok((parts, left));
        }
        let (longer, rest) = next_step(alloc, judged, parts, left)?;
        parts = longer;
        left = rest;
    }
    Ok((parts, left))
}

#[tactic(auto, unfolding(crate::specs::Methods::path_at))]
fn path_at(alloc: Global, judged: bool, tokens: &[Token]) -> Result<(Path, &[Token]), PolicyFault>
    ensures { AnswersAs PolicyFault.Memory (λ r. (r.0, r.1.now)) result (path_at judged tokens.now) }
{
    let (name, left) = judged_name(judged, tokens)?;
    let name = Bytes::from_slice(alloc, name)?;
    let first = Parts {
        class: None,
        name,
        is_last: false,
    };
    let (Parts { class, name, .. }, rest) = path_from(alloc, judged, first, left)?;
    match class {
        Some(class) => Ok((Path { class, name }, rest)),
        None => Err(PolicyFault::Syntax { at: front_at(rest) }),
    }
}

/// The method that has to stand first, with its parameters, and the tokens after them. Where names are judged they
/// are not too long, and a parameter's name is no other's.
#[tactic(auto, unfolding(crate::specs::Methods::signature_at, crate::specs::Methods::bracketed))]
pub fn signature_at<'a>(
    alloc: Global,
    judged: bool,
    vars: &[Var],
    tokens: &'a [Token],
) -> Result<(Signature, &'a [Token]), PolicyFault>
    ensures { AnswersAs PolicyFault.Memory (λ r. (r.0, r.1.now)) result (signature_at judged vars.now tokens.now) }
{
    let (path, opened) = path_at(alloc, judged, tokens)?;
    let mut params = List::new(alloc);
    let rest = bracketed(alloc, judged, vars, &mut params, opened)?;
    Ok((Signature { path, params }, rest))
}
