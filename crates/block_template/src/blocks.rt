//! The block of a call: what is done before it, after it where it returns, and where it throws.

ghost use Rattle.std.specs.Prelude.{◌≡◌, ◌+◌, ◌++◌, ◌∷◌, ◌<◌, ◌^◌, ◌↔◌, false, IfOk, IfSome, IsNone, OnOk, Some, length, map};
ghost use Rattle.std.specs.Option.{option_copied};
ghost use Rattle.conspec_automaton.specs.Next.{has_clauses};
ghost use Rattle.conspec_automaton.specs.Sound.{IsPolicy};
ghost use Rattle.block_template.specs.Blocks.{
  following,
  block,
  bools_of,
  call,
  catches,
  checked,
  clauses_of,
  from_call,
  from_handler,
  front,
  handler,
  handler_at,
  is_locked,
  items,
  locals_used,
  released,
  rethrow,
  with_handler,
};
ghost use Rattle.block_template.specs.declared.item.Item.{Item as SpecItem};
ghost use Rattle.block_template.specs.Parts.{loads};
ghost use Rattle.block_template.specs.Pushing.{bools_in};
ghost use Rattle.block_template.specs.Room.{IsRoomy, IsShort};

use crate::checks::put_check;
use crate::clauses::{MethodClauses, clause_at, clauses_of, lets_pass};
use crate::item::{Item, Role};
use crate::parts::{
    kept, put, put_give, put_if_reached, put_keep, put_loads, put_lock, put_save, put_unlock,
};
use cert_format::Mode;
use conspec_automaton::{Clause, Policy, has_clauses};
use conspec_tree::{Phase, Var};
use insn_codec::opcodes::{ATHROW, GOTO};
use mon_base::{List, NoMemory};
use offset_patch::{Block, BlockInsn};
use std::alloc::Global;

// ---- a check, and what stands after it

fn put_checked(
    alloc: Global,
    items: &mut List<Item>,
    vars: &[Var],
    base: u16,
    at: u32,
    clause: &Clause,
    following: &[Item],
) -> Result<(), NoMemory>
    requires few { at < 2 ^ 24 }
    requires short { IsShort base clause.now }
    ensures { OnOk result (items.new ≡ items.old ++ checked (bools_in vars.now) base at clause.now following.now) }
{
    put_check(alloc, items, vars, base, at, clause)?;
    put_if_reached(items, lets_pass(Some(clause)), following)
}

/// With the lock, which is taken before the check and left after it.
fn put_released(
    alloc: Global,
    items: &mut List<Item>,
    vars: &[Var],
    base: u16,
    at: u32,
    clause: &Clause,
    following: &[Item],
) -> Result<(), NoMemory>
    requires few { at + 2 < 2 ^ 24 }
    requires short { IsShort base clause.now }
    ensures { OnOk result (items.new ≡ items.old ++ released (bools_in vars.now) base at clause.now following.now) }
{
    let mut left = List::new(alloc);
    put_unlock(&mut left, clause.phase, true)?;
    put_if_reached(&mut left, true, following)?;
    put_lock(items, clause.phase)?;
    put_checked(alloc, items, vars, base, at + 2, clause, left.as_slice())
}

// ---- before the call

fn front(
    alloc: Global,
    mode: Mode,
    vars: &[Var],
    base: u16,
    clause: Option<&Clause>,
) -> Result<List<Item>, NoMemory>
    requires arguments { IfSome (option_copied clause) (λ clause. base + length clause.args < 2 ^ 16) }
    requires short { IfSome (option_copied clause) (IsShort base) }
    ensures { IfOk result (λ made. made ≡ front mode (bools_in vars.now) base (option_copied clause.entry)) }
{
    let mut items = List::new(alloc);
    match clause {
        Some(clause) => put_front(alloc, &mut items, mode, vars, base, clause)?,
        None => {
            if is_locked(mode) {
                put_lock(&mut items, Phase::Before)?;
            }
        }
    }
    Ok(items)
}

fn put_front(
    alloc: Global,
    items: &mut List<Item>,
    mode: Mode,
    vars: &[Var],
    base: u16,
    clause: &Clause,
) -> Result<(), NoMemory>
    requires arguments { base + length clause.now.args < 2 ^ 16 }
    requires short { IsShort base clause.now }
    ensures { OnOk result (items.new ≡ items.old ++ front mode (bools_in vars.now) base (Some clause.now)) }
{
    let mut last = List::new(alloc);
    put_loads(&mut last, is_locked(mode), base, clause.args.as_slice())?;
    put_asked(alloc, items, mode, vars, base, clause, last.as_slice())
}

/// The arguments are kept, and the check is made; after it they are loaded.
fn put_asked(
    alloc: Global,
    items: &mut List<Item>,
    mode: Mode,
    vars: &[Var],
    base: u16,
    clause: &Clause,
    last: &[Item],
) -> Result<(), NoMemory>
    requires arguments { base + length clause.now.args < 2 ^ 16 }
    requires short { IsShort base clause.now }
    requires last { last.now ≡ loads (is_locked mode) base 0 clause.now.args }
    ensures { OnOk result (items.new ≡ items.old ++ front mode (bools_in vars.now) base (Some clause.now)) }
{
    let arguments = clause.args.as_slice();
    let at = arguments.len() as u32;
    put_save(items, base, arguments)?;
    match mode {
        Mode::Release => put_released(alloc, items, vars, base, at, clause, last),
        Mode::Hold => {
            put_lock(items, Phase::Before)?;
            put_checked(alloc, items, vars, base, at + 2, clause, last)
        }
    }
}

/// Whether the lock is held over the call.
fn is_locked(mode: Mode) -> bool
    ensures { result ≡ is_locked mode }
{
    match mode {
        Mode::Hold => true,
        Mode::Release => false,
    }
}

// ---- after the call, where it returns

fn put_after(
    alloc: Global,
    items: &mut List<Item>,
    mode: Mode,
    vars: &[Var],
    base: u16,
    at: u32,
    clause: Option<&Clause>,
) -> Result<(), NoMemory>
    requires few { at + 3 < 2 ^ 24 }
    requires short { IfSome (option_copied clause) (IsShort base) }
    ensures { OnOk result (items.new ≡ items.old ++ following mode (bools_in vars.now) base at (option_copied clause.entry)) }
{
    match clause {
        Some(clause) => put_returned(alloc, items, mode, vars, base, at, clause),
        None => {
            if is_locked(mode) {
                put_unlock(items, Phase::After, false)?;
            }
            Ok(())
        }
    }
}

fn put_returned(
    alloc: Global,
    items: &mut List<Item>,
    mode: Mode,
    vars: &[Var],
    base: u16,
    at: u32,
    clause: &Clause,
) -> Result<(), NoMemory>
    requires few { at + 3 < 2 ^ 24 }
    requires short { IsShort base clause.now }
    ensures { OnOk result (items.new ≡ items.old ++ following mode (bools_in vars.now) base at (Some clause.now)) }
{
    let begin = at + kept(clause.result);
    put_keep(items, is_locked(mode), base, clause.result)?;
    let mut last = List::new(alloc);
    match mode {
        Mode::Release => {
            put_give(&mut last, base, clause.result)?;
            put_released(alloc, items, vars, base, begin, clause, last.as_slice())
        }
        Mode::Hold => {
            put_unlock(&mut last, Phase::After, true)?;
            put_give(&mut last, base, clause.result)?;
            put_checked(alloc, items, vars, base, begin, clause, last.as_slice())
        }
    }
}

// ---- where the call throws

/// The handler, which begins at `at`.
fn handler(
    alloc: Global,
    mode: Mode,
    vars: &[Var],
    base: u16,
    at: u32,
    clause: Option<&Clause>,
) -> Result<List<Item>, NoMemory>
    requires few { at + 2 < 2 ^ 24 }
    requires short { IfSome (option_copied clause) (IsShort base) }
    ensures { IfOk result (λ made. made ≡ handler mode (bools_in vars.now) base at (option_copied clause.entry)) }
{
    let mut items = List::new(alloc);
    match clause {
        Some(clause) => put_thrown(alloc, &mut items, mode, vars, base, at, clause)?,
        None => {
            if is_locked(mode) {
                put_unlock(&mut items, Phase::Exceptional, false)?;
                put_rethrow(&mut items)?;
            }
        }
    }
    Ok(items)
}

fn put_thrown(
    alloc: Global,
    items: &mut List<Item>,
    mode: Mode,
    vars: &[Var],
    base: u16,
    at: u32,
    clause: &Clause,
) -> Result<(), NoMemory>
    requires few { at + 2 < 2 ^ 24 }
    requires short { IsShort base clause.now }
    ensures { OnOk result (items.new ≡ items.old ++ handler mode (bools_in vars.now) base at (Some clause.now)) }
{
    let mut last = List::new(alloc);
    match mode {
        Mode::Release => {
            put_rethrow(&mut last)?;
            put_released(alloc, items, vars, base, at, clause, last.as_slice())
        }
        Mode::Hold => {
            put_unlock(&mut last, Phase::Exceptional, true)?;
            put_rethrow(&mut last)?;
            put_checked(alloc, items, vars, base, at, clause, last.as_slice())
        }
    }
}

fn put_rethrow(items: &mut List<Item>) -> Result<(), NoMemory>
    ensures { OnOk result (items.new ≡ items.old ++ rethrow) }
{
    put(items, BlockInsn::Plain(ATHROW), Role::Rethrow)
}

/// Whether what the call throws is caught: in mode hold always, else where a clause is for it.
fn catches(mode: Mode, clause: Option<&Clause>) -> bool
    ensures { result ≡ catches mode (option_copied clause.entry) }
{
    match mode {
        Mode::Hold => true,
        Mode::Release => clause.is_some(),
    }
}

// ---- the block

/// Instructions of a block, and where its handler begins, if it has one.
#[derive(Drop)]
struct Made {
    items: List<Item>,
    handler: Option<u32>,
}

/// What stands from the call on, which is at `at`, up to the handler.
fn called(
    alloc: Global,
    mode: Mode,
    vars: &[Var],
    base: u16,
    at: u32,
    clause: Option<&Clause>,
) -> Result<List<Item>, NoMemory>
    requires few { at + 4 < 2 ^ 24 }
    requires short { IfSome (option_copied clause) (IsShort base) }
    ensures { IfOk result (λ made. made ≡ call mode ∷ following mode (bools_in vars.now) base (at + 1) (option_copied clause.entry)) }
{
    let mut items = List::new(alloc);
    let locked = is_locked(mode);
    put(&mut items, BlockInsn::Call, Role::Call { locked })?;
    put_after(alloc, &mut items, mode, vars, base, at + 1, clause)?;
    Ok(items)
}

/// What stands from the call on, which is at `at`.
#[tactic(auto, using(crate::proofs::Sizes::after_short))]
fn from_call(
    alloc: Global,
    mode: Mode,
    vars: &[Var],
    base: u16,
    at: u32,
    clauses: &MethodClauses<'_>,
) -> Result<Made, NoMemory>
    requires few { at < 2 ^ 22 }
    requires room { IsRoomy base clauses.now }
    ensures items { IfOk result (λ made. made.items ≡ from_call mode (bools_in vars.now) base at clauses.now) }
    ensures handler { IfOk result (λ made. made.handler ≡ from_handler mode (bools_in vars.now) base at clauses.now) }
{
    let mut items = called(alloc, mode, vars, base, at, clauses.after)?;
    if !catches(mode, clauses.exceptional) {
        return Ok(Made {
            items,
            handler: None,
        });
    }
    let begin = at + items.len() as u32 + 1;
    put_with_handler(alloc, &mut items, mode, vars, base, begin, clauses)?;
    Ok(Made {
        items,
        handler: Some(begin),
    })
}

/// A jump over the handler, and the handler, which begins at `at`.
#[tactic(auto, using(crate::proofs::Sizes::handler_short))]
fn put_with_handler(
    alloc: Global,
    items: &mut List<Item>,
    mode: Mode,
    vars: &[Var],
    base: u16,
    at: u32,
    clauses: &MethodClauses<'_>,
) -> Result<(), NoMemory>
    requires few { at < 2 ^ 23 }
    requires room { IsRoomy base clauses.now }
    ensures { OnOk result (items.new ≡ items.old ++ with_handler mode (bools_in vars.now) base at clauses.now) }
{
    let caught = handler(alloc, mode, vars, base, at, clauses.exceptional)?;
    let leave = BlockInsn::Jump {
        op: GOTO,
        place: at + caught.len() as u32,
    };
    let role = if lets_pass(clauses.after) {
        Role::Leave
    } else {
        Role::Unreached
    };
    put(items, leave, role)?;
    put_if_reached(items, true, caught.as_slice())
}

#[tactic(auto, using(crate::proofs::Sizes::front_short))]
fn all(
    alloc: Global,
    mode: Mode,
    vars: &[Var],
    base: u16,
    clauses: &MethodClauses<'_>,
) -> Result<Made, NoMemory>
    requires room { IsRoomy base clauses.now }
    ensures items { IfOk result (λ made. made.items ≡ items mode (bools_in vars.now) base clauses.now) }
    ensures handler { IfOk result (λ made. made.handler ≡ handler_at mode (bools_in vars.now) base clauses.now) }
{
    let mut items = front(alloc, mode, vars, base, clauses.before)?;
    let called = from_call(alloc, mode, vars, base, items.len() as u32, clauses)?;
    let reached = lets_pass(clauses.before);
    put_if_reached(&mut items, reached, called.items.as_slice())?;
    Ok(Made {
        items,
        handler: called.handler,
    })
}

fn insns_of(alloc: Global, items: &[Item]) -> Result<List<BlockInsn>, NoMemory>
    ensures { IfOk result (λ insns. insns ≡ map (λ (i : SpecItem). i.insn) items.now) }
{
    let mut insns = List::new(alloc);
    for item in items {
        insns.push(item.insn)?;
    }
    Ok(insns)
}

/// The items of the block of a method, in a method whose own locals end at `base`.
pub fn items(
    alloc: Global,
    policy: &Policy,
    mode: Mode,
    method: u32,
    base: u16,
) -> Result<List<Item>, NoMemory>
    requires policy { IsPolicy policy.now }
    requires room { base + locals_used policy.now method < 2 ^ 16 }
    ensures { IfOk result (λ made. made ≡ items mode (bools_of policy.now) base (clauses_of policy.now method)) }
{
    let vars = policy.vars.as_slice();
    let made = all(alloc, mode, vars, base, &clauses_of(policy, method))?;
    Ok(made.items)
}

/// The block of a method, in a method whose own locals end at `base`.
pub fn block(
    alloc: Global,
    policy: &Policy,
    mode: Mode,
    method: u32,
    base: u16,
) -> Result<Option<Block>, NoMemory>
    requires policy { IsPolicy policy.now }
    requires room { base + locals_used policy.now method < 2 ^ 16 }
    ensures is { IfOk result (λ made. made ≡ block policy.now mode method base) }
    // There is none exactly where no clause names the method.
    ensures none { IfOk result (λ made. IsNone made ↔ (has_clauses policy.now method ≡ false)) }
{
    if !has_clauses(policy, method) {
        return Ok(None);
    }
    let vars = policy.vars.as_slice();
    let made = all(alloc, mode, vars, base, &clauses_of(policy, method))?;
    Ok(Some(Block {
        insns: insns_of(alloc, made.items.as_slice())?,
        handler: made.handler,
    }))
}

/// How many locals the block of a method uses.
pub fn locals_used(policy: &Policy, method: u32) -> u32
    requires { IsPolicy policy.now }
    ensures { result ≡ locals_used policy.now method }
{
    let arguments = match clause_at(policy, method, Phase::Before) {
        Some(clause) => clause.args.len() as u32,
        None => 0,
    };
    let results = match clause_at(policy, method, Phase::After) {
        Some(clause) => kept(clause.result),
        None => 0,
    };
    arguments.max(results)
}
