//! What a guard does to the variables.

ghost use Rattle.std.specs.Prelude.{◌≡◌, ◌≤◌, [], length};
ghost use Rattle.mon_base.specs.Answer.{AnswersAs};
ghost use Rattle.conspec_tokens.specs.Front.{is_name};
ghost use Rattle.conspec_parse.specs.Forms.{taken, each};
ghost use Rattle.conspec_parse.specs.Updates.{
  set_at,
  next_sign,
  signed,
  sum_at,
  right_at,
  update_at,
  block_at,
};

use crate::fault::PolicyFault;
use crate::forms::{following, name_at, number_at};
use crate::guard::constant_at;
use conspec_tokens::{Token, front_at, is_name, is_next, rest_of};
use conspec_tree::{Update, Var, all_range_atoms, is_updated, variable_named};
use mon_base::List;

#[tactic(auto, unfolding(crate::specs::Updates::set_at))]
fn set_at(
    maxint: i32,
    var: u32,
    truth: bool,
    tokens: &[Token],
) -> Result<(Update, &[Token]), PolicyFault>
    ensures { AnswersAs PolicyFault.Memory (λ r. (r.0, r.1.now)) result (set_at maxint var truth tokens.now) }
{
    let (value, rest) = constant_at(truth, tokens)?;
    if value < 0 || value > maxint {
        return Err(PolicyFault::Range {
            at: front_at(tokens),
        });
    }
    Ok((Update::Set { var, value }, rest))
}

fn next_sign(tokens: &[Token]) -> Option<bool>
    ensures { result ≡ next_sign tokens.now }
{
    if is_next("+", tokens) {
        return Some(false);
    }
    if is_next("-", tokens) {
        return Some(true);
    }
    None
}

/// Whether the sign that has to stand first is `-`, and the tokens after it.
fn sign_at(tokens: &[Token]) -> Result<(bool, &[Token]), PolicyFault>
    ensures { AnswersAs PolicyFault.Memory (λ r. (r.0, r.1.now)) result (taken (next_sign tokens.now) tokens.now) }
{
    match next_sign(tokens) {
        Some(minus) => Ok((minus, rest_of(tokens))),
        None => Err(PolicyFault::Syntax {
            at: front_at(tokens),
        }),
    }
}

fn signed(minus: bool, number: u64) -> i32
    requires { number ≤ 1000000000 }
    ensures { result ≡ signed minus number }
{
    if minus {
        -(number as i32)
    } else {
        number as i32
    }
}

/// The variable itself, a sign and an addend, where there is room for a range atom or none is asked for.
#[tactic(auto, unfolding(crate::specs::Updates::sum_at))]
fn sum_at<'a>(
    room: bool,
    name: &[u8],
    var: u32,
    truth: bool,
    tokens: &'a [Token],
) -> Result<(Update, &'a [Token]), PolicyFault>
    ensures { AnswersAs PolicyFault.Memory (λ r. (r.0, r.1.now)) result (sum_at room name.now var truth tokens.now) }
{
    let (same, signs) = name_at(tokens)?;
    if same != name {
        return Err(PolicyFault::Name {
            at: front_at(tokens),
        });
    }
    let (minus, addend) = sign_at(signs)?;
    if truth {
        return Err(PolicyFault::Kind {
            at: front_at(signs),
        });
    }
    let (number, rest) = number_at(addend)?;
    if number > 1_000_000_000 {
        return Err(PolicyFault::Range {
            at: front_at(addend),
        });
    }
    if number != 0 && !room {
        return Err(PolicyFault::Limit {
            at: front_at(addend),
        });
    }
    let by = signed(minus, number);
    Ok((Update::Add { var, by }, rest))
}

fn right_at<'a>(
    maxint: i32,
    room: bool,
    name: &[u8],
    var: (u32, bool),
    tokens: &'a [Token],
) -> Result<(Update, &'a [Token]), PolicyFault>
    ensures { AnswersAs PolicyFault.Memory (λ r. (r.0, r.1.now)) result (right_at maxint room name.now var tokens.now) }
{
    if is_name(tokens) {
        sum_at(room, name, var.0, var.1, tokens)
    } else {
        set_at(maxint, var.0, var.1, tokens)
    }
}

/// Puts onto the updates the one that has to stand first, and gives the tokens after it. The longest branch has so
/// many atoms of its own.
#[tactic(auto, unfolding(crate::specs::Updates::update_at))]
fn update_at<'a>(
    vars: &[Var],
    maxint: i32,
    atoms: usize,
    updates: &mut List<Update>,
    tokens: &'a [Token],
) -> Result<&'a [Token], PolicyFault>
    requires { length vars.now ≤ 16 }
    ensures { AnswersAs PolicyFault.Memory (λ rest. (updates.new, rest.now)) result
        (update_at vars.now maxint atoms updates.old tokens.now) }
{
    let (name, equals) = name_at(tokens)?;
    let Some(var) = variable_named(vars, name) else {
        return Err(PolicyFault::Name {
            at: front_at(tokens),
        });
    };
    if is_updated(updates.as_slice(), var.0) {
        return Err(PolicyFault::Twice {
            at: front_at(tokens),
        });
    }
    let right = following("=", equals)?;
    let room = atoms.saturating_add(all_range_atoms(updates.as_slice())) < 16;
    let (update, end) = right_at(maxint, room, name, var, right)?;
    let rest = following(";", end)?;
    updates.push(update)?;
    Ok(rest)
}

/// Puts the updates that stand first onto those so far, and gives the tokens after them.
fn updates_from<'a>(
    vars: &[Var],
    maxint: i32,
    atoms: usize,
    updates: &mut List<Update>,
    tokens: &'a [Token],
) -> Result<&'a [Token], PolicyFault>
    requires { length vars.now ≤ 16 }
    ensures { AnswersAs PolicyFault.Memory (λ rest. (updates.new, rest.now)) result
        (each is_name (update_at vars.now maxint atoms) updates.old tokens.now) }
{
    let mut left = tokens;
    for _ in 0..tokens.len() {
        if !is_name(left) {
            return Ok(left);
        }
        left = update_at(vars, maxint, atoms, updates, left)?;
    }
    Ok(left)
}

/// Puts the updates between braces, which have to stand first, onto an empty list, and gives the tokens after them.
/// The longest branch of their guard has so many atoms of its own.
#[tactic(auto, unfolding(crate::specs::Updates::block_at))]
pub fn block_at<'a>(
    vars: &[Var],
    maxint: i32,
    atoms: usize,
    updates: &mut List<Update>,
    tokens: &'a [Token],
) -> Result<&'a [Token], PolicyFault>
    requires few { length vars.now ≤ 16 }
    requires none { updates.old ≡ [] }
    ensures { AnswersAs PolicyFault.Memory (λ rest. (updates.new, rest.now)) result (block_at vars.now maxint atoms tokens.now) }
{
    let opened = following("{", tokens)?;
    let end = updates_from(vars, maxint, atoms, updates, opened)?;
    following("}", end)
}
