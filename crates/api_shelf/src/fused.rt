//! A device that fails after some calls.

ghost use Rattle.std.specs.Prelude.{◌≡◌, ◌≤◌, ◌<◌, ◌-◌, None, IfOk, OnOk, IsErrOf};
ghost use Rattle.mon_store.specs.Store.{one_more};
ghost use Rattle.api_shelf.specs.Plain.{plain_answer};

use crate::device::{ApiDevice, DeviceFault};
use crate::plain::plain_answer;
use api_listing::{ApiAnswer, ApiCall};
use std::alloc::Global;
use std::marker::Model;

/// A device that answers some calls plainly and fails at each one after them. It keeps no log.
#[derive(Drop)]
pub struct Fused {
    alloc: Global,
    passes: u64,
    faults: u64,
}

impl Model for Fused {
    ghost use Rattle.api_shelf.specs.Fused.{FusedState};

    ghost Value = { FusedState };

    ghost view = { λ f. record { passes = f.passes; faults = f.faults } };
}

impl Fused {
    /// A device that answers so many calls. It takes no memory.
    pub fn new(alloc: Global, passes: u64) -> Fused
        ensures { result ≡ record { passes = passes; faults = 0 } }
    {
        Fused {
            alloc,
            passes,
            faults: 0,
        }
    }
}

impl ApiDevice for Fused {
    ghost told = { λ _. None };

    ghost faults = { λ f. f.faults };

    /// The plain answer while passes are left, each of which serves one call, and else a fault. It takes no memory.
    fn answer(&mut self, call: &ApiCall) -> Result<ApiAnswer, DeviceFault>
        ensures ok { OnOk result ((0 < self.old.passes) × (self.new ≡ record self.old { passes = self.old.passes - 1 })) }
        ensures plain { IfOk result (λ given. given ≡ plain_answer call.now) }
        ensures failed { IsErrOf result DeviceFault.Failed →
            (self.old.passes ≡ 0) × (self.new ≡ record self.old { faults = one_more self.old.faults }) }
        ensures faults { self.old.faults ≤ self.new.faults }
        ensures memory { IsErrOf result DeviceFault.Memory → ⊥ }
    {
        if self.passes == 0 {
            self.faults = self.faults.saturating_add(1);
            return Err(DeviceFault::Failed);
        }
        self.passes -= 1;
        Ok(plain_answer(self.alloc, call))
    }

    fn fault_count(&self) -> u64 {
        self.faults
    }
}
