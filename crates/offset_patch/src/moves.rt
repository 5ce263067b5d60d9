//! Where instructions began, and where their fronts begin in the code with blocks.

ghost use Rattle.std.specs.Prelude.{◌≡◌, ◌<◌, ◌^◌, length};
ghost use Rattle.std.specs.List.{AllByRecursion};
ghost use Rattle.mon_base.specs.Widths.{IsU2};
ghost use Rattle.offset_patch.specs.Lines.{moved_in, RiseFrom};

use crate::fronts::front;
use crate::tables::start;
use std::marker::Model;

/// Positions of the instructions of a code, which ascend, and of what stands for them. A contract sees the lists.
#[derive(Drop)]
pub struct Moves<'a> {
    olds: &'a [u32],
    fronts: &'a [u32],
    news: &'a [u32],
}

impl<'a> Model for Moves<'a> {
    ghost use Rattle.std.specs.Prelude.{◌<◌, ◌≤◌, ◌^◌, length};
    ghost use Rattle.std.specs.List.{AllByRecursion};
    ghost use Rattle.mon_base.specs.Widths.{IsU2};
    ghost use Rattle.offset_patch.specs.Lines.{Positions, RiseFrom};

    ghost Value = { Positions };

    ghost view = { λ m. record { olds = m.olds.now; fronts = m.fronts.now; news = m.news.now } };

    ghost invariant = { λ m. (length m.olds.now < 2 ^ 32) × RiseFrom 0 m.olds.now × AllByRecursion IsU2 m.news.now };
}

impl<'a> Moves<'a> {
    /// The instructions began at `olds`; those of the code with blocks begin at `news`.
    pub fn new(olds: &'a [u32], fronts: &'a [u32], news: &'a [u32]) -> Moves<'a>
        requires few { length olds.now < 2 ^ 32 }
        requires rise { RiseFrom 0 olds.now }
        requires news { AllByRecursion IsU2 news.now }
        ensures { result ≡ record { olds = olds.now; fronts = fronts.now; news = news.now } }
    {
        Moves { olds, fronts, news }
    }

    /// Where the front of the instruction begins that began there, if one did.
    pub fn at(&self, old: u32) -> Option<u16>
        ensures { result ≡ moved_in self.now old }
    {
        match self.olds.binary_search(&old) {
            Ok(index) => Some(start(self.news, front(self.fronts, index as u32))),
            Err(_) => None,
        }
    }
}
