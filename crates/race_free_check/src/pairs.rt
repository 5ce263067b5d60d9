//! Which pairs of methods are tested.

ghost use Rattle.std.specs.Prelude.{◌≡◌};
ghost use Rattle.conspec_automaton.specs.Racing.{Pairs, all_pairs};

/// Tells which pairs of methods are tested, by the methods' indices in the listing.
pub trait PairTest {
    /// What it tells.
    ghost pairs: { Self → Pairs };

    /// Whether the pair is tested.
    fn is_tested(&self, first: u32, second: u32) -> bool
        ensures { result ≡ pairs self.now first second };
}

/// Each pair is tested.
pub struct AllPairs;

impl PairTest for AllPairs {
    ghost pairs = { λ t. all_pairs };

    fn is_tested(&self, _first: u32, _second: u32) -> bool {
        true
    }
}
