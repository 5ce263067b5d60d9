//! The blocks of a policy as lists of items, each of which is made once.

ghost use Rattle.std.specs.Prelude.{◌≡◌, ◌<◌, ◌^◌, ◌==◌, ℕ, None, Some, IfOk, IfSome, OnOk, if◌then◌else◌, length};
ghost use Rattle.std.specs.BTreeMap.{get};
ghost use Rattle.std.specs.Option.{option_copied, option_or};
ghost use Rattle.std.specs.Ordering.{nat_cmp};
ghost use Rattle.conspec_automaton.specs.Sound.{IsPolicy};
ghost use Rattle.block_template.specs.Blocks.{bools_of, clauses_of, items};
ghost use Rattle.block_template.specs.Made.{HasItems, known_items};

use crate::blocks::items;
use crate::item::Item;
use cert_format::Mode;
use conspec_automaton::Policy;
use mon_base::{List, NoMemory};
use std::alloc::Global;
use std::collections::BTreeMap;
use std::marker::Model;

/// The items of the block of each method that a clause names, in a method without locals of its own. Those of other methods have
/// the same roles.
#[derive(Drop)]
pub struct PolicyItems<'a> {
    policy: &'a Policy,
    mode: Mode,
    made: BTreeMap<u32, List<Item>>,
}

impl<'a> Model for PolicyItems<'a> {
    ghost use Rattle.conspec_automaton.specs.Sound.{IsPolicy};
    ghost use Rattle.block_template.specs.Blocks.{Planned};
    ghost use Rattle.block_template.specs.Made.{HasItems};

    ghost Value = { Planned };

    ghost view = { λ p. record { policy = p.policy.now; mode = p.mode } };

    ghost invariant = { λ p. IsPolicy p.policy.now × HasItems p.policy.now p.mode p.made };
}

impl<'a> PolicyItems<'a> {
    /// The items of the policy's blocks in this mode.
    pub fn new(alloc: Global, policy: &'a Policy, mode: Mode) -> Result<PolicyItems<'a>, NoMemory>
        requires { IsPolicy policy.now }
        ensures { IfOk result (λ made. made ≡ record { policy = policy.now; mode = mode }) }
    {
        let made = items_made(alloc, policy, mode)?;
        Ok(PolicyItems { policy, mode, made })
    }

    /// The policy.
    pub fn policy(&self) -> &'a Policy
        ensures { result.now ≡ self.now.policy }
    {
        self.policy
    }

    /// The items of the block of this method, where a clause names it.
    pub fn of(&self, method: u32) -> Option<&[Item]>
        ensures is { option_copied result ≡ known_items self.now.policy self.now.mode self.now.policy.clauses method }
        ensures few { IfSome result (λ items. length items.now < 2 ^ 16) }
    {
        match self.made.get(&method) {
            Some(items) => Some(items.as_slice()),
            None => None,
        }
    }
}

fn items_made(
    alloc: Global,
    policy: &Policy,
    mode: Mode,
) -> Result<BTreeMap<u32, List<Item>>, NoMemory>
    requires { IsPolicy policy.now }
    ensures { IfOk result (HasItems policy.now mode) }
{
    let mut made = BTreeMap::new(alloc);
    let mut left = policy.clauses.as_slice();
    while let [clause, rest @ ..] = left {
        add_items(alloc, &mut made, policy, mode, clause.method)?;
        left = rest;
    }
    Ok(made)
}

/// Adds the items of the method's block, if they are not there.
fn add_items(
    alloc: Global,
    made: &mut BTreeMap<u32, List<Item>>,
    policy: &Policy,
    mode: Mode,
    method: u32,
) -> Result<(), NoMemory>
    requires { IsPolicy policy.now }
    ensures { OnOk result ((q : ℕ) → get nat_cmp made.new q ≡ option_or (get nat_cmp made.old q)
        (if method == q then Some (items mode (bools_of policy.now) 0 (clauses_of policy.now method)) else None)) }
{
    if !made.contains_key(&method) {
        let block = items(alloc, policy, mode, method, 0)?;
        made.insert(method, block)?;
    }
    Ok(())
}
