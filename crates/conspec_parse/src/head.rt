//! The head of a policy and its state variables.

ghost use Rattle.std.specs.Prelude.{◌≡◌, ◌≤◌, ◌<◌, [], ◌∷◌, ◌++◌, codes, length, List as Items, Ok, IfOk};
ghost use Rattle.mon_base.specs.Answer.{AnswersAs};
ghost use Rattle.mon_base.specs.Reading.{◌>>=◌ as ◌then◌};
ghost use Rattle.conspec_tokens.specs.declared.token.Token.{Token};
ghost use Rattle.conspec_tree.specs.declared.types.Var.{Var};
ghost use Rattle.conspec_parse.specs.Forms.{following};
ghost use Rattle.conspec_parse.specs.Head.{
  header_at,
  truth_at,
  count_at,
  first_at,
  begins_variable,
  variable_at,
  variables_at,
};

use crate::fault::PolicyFault;
use crate::forms::{following, is_short, name_at, number_at};
use conspec_tokens::{Token, front_at, is_next, rest_of};
use conspec_tree::{Var, is_variable};
use mon_base::{Bytes, List};
use std::alloc::Global;

/// The number after `MAXINT`, from 1 to 1,000,000,000, and the tokens after `STATE`.
#[tactic(auto, unfolding(crate::specs::Head::header_at))]
pub fn header_at(tokens: &[Token]) -> Result<(i32, &[Token]), PolicyFault>
    ensures { AnswersAs PolicyFault.Memory (λ r. (r.0, r.1.now)) result (header_at tokens.now) }
{
    let number = following("MAXINT", tokens)?;
    let (maxint, scope) = number_at(number)?;
    if maxint < 1 || maxint > 1_000_000_000 {
        return Err(PolicyFault::Range {
            at: front_at(number),
        });
    }
    let session = following("SCOPE", scope)?;
    let security = following("Session", session)?;
    let state = following("SECURITY", security)?;
    let rest = following("STATE", state)?;
    Ok((maxint as i32, rest))
}

#[tactic(auto, unfolding(crate::specs::Head::truth_at))]
fn truth_at(tokens: &[Token]) -> Result<(i32, &[Token]), PolicyFault>
    ensures { AnswersAs PolicyFault.Memory (λ r. (r.0, r.1.now)) result (truth_at tokens.now) }
{
    if is_next("true", tokens) {
        Ok((1, rest_of(tokens)))
    } else if is_next("false", tokens) {
        Ok((0, rest_of(tokens)))
    } else {
        Err(PolicyFault::Syntax {
            at: front_at(tokens),
        })
    }
}

#[tactic(auto, unfolding(crate::specs::Head::count_at))]
fn count_at(maxint: i32, tokens: &[Token]) -> Result<(i32, &[Token]), PolicyFault>
    ensures { AnswersAs PolicyFault.Memory (λ r. (r.0, r.1.now)) result (count_at maxint tokens.now) }
{
    let (number, rest) = number_at(tokens)?;
    match i32::try_from(number) {
        Ok(value) if value <= maxint => Ok((value, rest)),
        _ => Err(PolicyFault::Range {
            at: front_at(tokens),
        }),
    }
}

fn first_at(maxint: i32, is_bool: bool, tokens: &[Token]) -> Result<(i32, &[Token]), PolicyFault>
    ensures { AnswersAs PolicyFault.Memory (λ r. (r.0, r.1.now)) result (first_at maxint is_bool tokens.now) }
{
    if is_bool {
        truth_at(tokens)
    } else {
        count_at(maxint, tokens)
    }
}

fn begins_variable(tokens: &[Token]) -> bool
    ensures { result ≡ begins_variable tokens.now }
{
    is_next("int", tokens) || is_next("bool", tokens)
}

/// Puts the variable of this name and kind, whose first value has to stand after `=`, onto the variables, and gives
/// the tokens after it.
fn variable_of<'a>(
    alloc: Global,
    maxint: i32,
    name: &[u8],
    is_bool: bool,
    vars: &mut List<Var>,
    tokens: &'a [Token],
) -> Result<&'a [Token], PolicyFault>
    requires { length vars.old < 16 }
    ensures exact { AnswersAs {Y = Items Var × Items Token} PolicyFault.Memory (λ rest. (vars.new, rest.now)) result
        (following (codes "=") tokens.now then λ equals. first_at maxint is_bool equals
        then λ first. following (codes ";") first.1
        then λ ended. Ok (vars.old ++ (record { name = name.now; is_bool = is_bool; first = first.0 }) ∷ [], ended)) }
    ensures few { IfOk result (λ _. length vars.new ≤ 16) }
{
    let value = following("=", tokens)?;
    let (first, end) = first_at(maxint, is_bool, value)?;
    let rest = following(";", end)?;
    let name = Bytes::from_slice(alloc, name)?;
    vars.push(Var {
        name,
        is_bool,
        first,
    })?;
    Ok(rest)
}

/// Puts onto the variables the one that stands first, and gives the tokens after it.
#[tactic(auto, unfolding(crate::specs::Head::variable_at))]
fn variable_at<'a>(
    alloc: Global,
    maxint: i32,
    vars: &mut List<Var>,
    tokens: &'a [Token],
) -> Result<&'a [Token], PolicyFault>
    ensures exact { AnswersAs PolicyFault.Memory (λ rest. (vars.new, rest.now)) result (variable_at maxint vars.old tokens.now) }
    ensures few { IfOk result (λ _. length vars.new ≤ 16) }
{
    if vars.len() >= 16 {
        return Err(PolicyFault::Limit {
            at: front_at(tokens),
        });
    }
    let named = rest_of(tokens);
    let (name, equals) = name_at(named)?;
    if is_variable(vars.as_slice(), name) {
        return Err(PolicyFault::Twice {
            at: front_at(named),
        });
    }
    if !is_short(name) {
        return Err(PolicyFault::Limit {
            at: front_at(named),
        });
    }
    let is_bool = is_next("bool", tokens);
    variable_of(alloc, maxint, name, is_bool, vars, equals)
}

/// Puts the state variables, at most 16, onto an empty list, and gives the tokens after them.
pub fn variables_at<'a>(
    alloc: Global,
    maxint: i32,
    vars: &mut List<Var>,
    tokens: &'a [Token],
) -> Result<&'a [Token], PolicyFault>
    requires { vars.old ≡ [] }
    ensures exact { AnswersAs PolicyFault.Memory (λ rest. (vars.new, rest.now)) result (variables_at maxint tokens.now) }
    ensures few { IfOk result (λ _. length vars.new ≤ 16) }
{
    let mut left = tokens;
    for _ in 0..tokens.len() {
        if !begins_variable(left) {
            return Ok(left);
        }
        left = variable_at(alloc, maxint, vars, left)?;
    }
    Ok(left)
}
