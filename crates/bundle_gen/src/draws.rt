//! The numbers that a program is made of.

ghost use Rattle.std.specs.Prelude.{◌≡◌};
ghost use Rattle.bundle_gen.specs.Draws.{draw, next_state};

const MULTIPLIER: u64 = 6_364_136_223_846_793_005;

const INCREMENT: u64 = 1_442_695_040_888_963_407;

/// The state after this one.
pub fn next_state(state: u64) -> u64
    ensures { result ≡ next_state state }
{
    state.wrapping_mul(MULTIPLIER).wrapping_add(INCREMENT)
}

/// What is drawn in a state.
pub fn draw(state: u64) -> u64
    ensures { result ≡ draw state }
{
    state / 0x2_0000_0000
}
