//! Which instructions of a program have a block.

ghost use Rattle.std.specs.Prelude.{◌≡◌, ◌+◌, ◌<◌, ◌^◌, IfOk};
ghost use Rattle.offset_patch.specs.Fits.{IsSite};
ghost use Rattle.offset_patch.specs.Plan.{Plan};

use crate::block::Block;
use bytecode_model::Target;
use mon_base::NoMemory;
use std::alloc::Global;

/// Tells which instructions of a program have a block, and which.
pub trait Planner {
    /// What it tells.
    ghost plan: { Self → Plan };

    /// Whether an instruction has a block, by what its operand names.
    fn has_block(&self, target: &Target) -> bool
        ensures { result ≡ (plan self.now).has_block target.now };

    /// How many locals that block uses.
    fn locals(&self, target: &Target) -> u32
        ensures { result ≡ (plan self.now).locals target.now };

    /// The block of the instruction, in a method whose own locals end at `base`.
    fn block(&self, alloc: Global, base: u16, target: &Target) -> Result<Option<Block>, NoMemory>
        requires { base + (plan self.now).locals target.now < 2 ^ 16 }
        ensures is { IfOk result (λ made. made ≡ (plan self.now).block base target.now) }
        ensures fits { IfOk result IsSite };
}
