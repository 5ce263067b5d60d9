//! Round the calls of which methods the lock is held.

ghost use Rattle.std.specs.Prelude.{◌≡◌};
ghost use Rattle.block_logic.specs.Annotations.{held_in, holds_round};

use cert_format::Mode;

/// Of which methods a thread holds the lock round each call that has a clause.
#[derive(Clone, Copy)]
pub enum HeldCalls {
    /// Of all.
    Always,
    /// Of none: the lock is let go before the call, and taken again after it.
    Never,
}

impl HeldCalls {
    /// The lock is held round each call in mode hold, and round none in mode release.
    pub fn of(mode: Mode) -> HeldCalls
        ensures { result ≡ held_in mode }
    {
        match mode {
            Mode::Hold => HeldCalls::Always,
            Mode::Release => HeldCalls::Never,
        }
    }
}

/// Whether the lock is held round calls of the method.
pub fn holds_round(held: HeldCalls, _method: u32) -> bool
    ensures { result ≡ holds_round held _method }
{
    matches!(held, HeldCalls::Always)
}
