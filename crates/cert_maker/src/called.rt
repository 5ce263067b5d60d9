//! A call that stands in a block, and the site of each phase of it.

ghost use Rattle.std.specs.Prelude.{◌≡◌};
ghost use Rattle.cert_maker.specs.Noting.{byte, phase_of, site_of};

use cert_format::{Phase8, Site};
use conspec_tree::Phase;

/// A call of this method, in a method whose own locals end at `base`.
#[derive(Clone, Copy)]
pub struct Called {
    pub callee: u32,
    pub base: u16,
}

/// What the block of the call is about in this phase.
pub fn site_of(call: Called, phase: Phase) -> Site
    ensures { result ≡ site_of call phase }
{
    Site {
        method: call.callee.min(65_535) as u16,
        phase: phase_of(phase),
        base: call.base,
    }
}

fn phase_of(phase: Phase) -> Phase8
    ensures { result ≡ phase_of phase }
{
    match phase {
        Phase::Before => Phase8::Before,
        Phase::After => Phase8::After,
        Phase::Exceptional => Phase8::Exceptional,
    }
}

/// The number, or the greatest that a byte tells.
pub fn byte(n: u32) -> u8
    ensures { result ≡ byte n }
{
    n.min(255) as u8
}
