//! Types that are compared, and merged where they are not the same.

ghost use Rattle.std.specs.Prelude.{◌≡◌, ◌↔◌, IfOk, IsTrue};
ghost use Rattle.type_lattice.specs.Merging.{merged};

use cert_format::VType;
use mon_base::NoMemory;
use std::alloc::Global;
use type_lattice::{Indexed, merge};

/// Whether they are the same.
pub fn is_same_type(a: &VType, b: &VType) -> bool
    ensures { IsTrue result ↔ (a.now ≡ b.now) }
{
    a == b
}

/// The least type above both. Where they are the same, it is shared.
pub fn type_joined(
    alloc: Global,
    program: &Indexed,
    a: &VType,
    b: &VType,
) -> Result<VType, NoMemory>
    ensures { IfOk result (λ joined. joined ≡ merged program.now a.now b.now) }
{
    if is_same_type(a, b) {
        return a.share();
    }
    merge(alloc, program, a, b)
}
