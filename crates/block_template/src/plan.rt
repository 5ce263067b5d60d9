//! The plan of a policy: which instructions have a block, and which.

ghost use Rattle.std.specs.Prelude.{◌≡◌, ◌+◌, ◌<◌, ◌^◌, IfOk};
ghost use Rattle.conspec_automaton.specs.Sound.{IsPolicy};
ghost use Rattle.offset_patch.specs.Fits.{IsSite};
ghost use Rattle.offset_patch.specs.Plan.{IsGood};
ghost use Rattle.block_template.specs.Blocks.{bools_of, plan_of};

use crate::blocks::{block, locals_used};
use crate::numbers::numbers_fit;
use bytecode_model::Target;
use cert_format::Mode;
use conspec_automaton::{Policy, has_clauses};
use mon_base::NoMemory;
use offset_patch::{Block, Planner};
use std::alloc::Global;
use std::marker::Model;

/// The plan of a policy, in a mode.
#[derive(Drop)]
pub struct PolicyPlan<'a> {
    policy: &'a Policy,
    mode: Mode,
}

impl<'a> Model for PolicyPlan<'a> {
    ghost use Rattle.conspec_automaton.specs.Sound.{IsPolicy};
    ghost use Rattle.block_template.specs.Blocks.{Planned};
    ghost use Rattle.block_template.specs.Good.{HasNumbers};

    ghost Value = { Planned };

    ghost view = { λ p. record { policy = p.policy.now; mode = p.mode } };

    ghost invariant = { λ p. IsPolicy p.policy.now × HasNumbers p.policy.now };
}

impl<'a> PolicyPlan<'a> {
    /// The plan of the policy.
    pub fn new(policy: &'a Policy, mode: Mode) -> PolicyPlan<'a>
        requires { IsPolicy policy.now }
        ensures is { result ≡ record { policy = policy.now; mode = mode } }
        // It can be spliced.
        ensures good { IsGood (bools_of policy.now) (plan_of policy.now mode) }
    {
        numbers_fit(policy);
        PolicyPlan { policy, mode }
    }
}

impl<'a> Planner for PolicyPlan<'a> {
    ghost plan = { λ p. plan_of p.policy p.mode };

    fn has_block(&self, target: &Target) -> bool {
        match target {
            Target::ApiMethod(method) => has_clauses(self.policy, *method),
            _ => false,
        }
    }

    fn locals(&self, target: &Target) -> u32 {
        match target {
            Target::ApiMethod(method) => locals_used(self.policy, *method),
            _ => 0,
        }
    }

    fn block(&self, alloc: Global, base: u16, target: &Target) -> Result<Option<Block>, NoMemory> {
        match target {
            Target::ApiMethod(method) => block(alloc, self.policy, self.mode, *method, base),
            _ => Ok(None),
        }
    }
}
