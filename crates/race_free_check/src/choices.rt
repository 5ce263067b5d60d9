//! Lists of values, of each of which one is chosen, by its place.

ghost use Rattle.std.specs.Prelude.{◌≡◌, ◌<◌, ◌∷◌, [], MatchOption};
ghost use Rattle.conspec_automaton.specs.Points.{size_of};
ghost use Rattle.conspec_automaton.specs.Trying.{capped};
ghost use Rattle.race_free_check.specs.Choosing.{chosen};

use api_listing::ApiValue;
use mon_base::List;
use std::marker::Model;

/// How many choices there are; no more than 64 bits count.
pub fn count_of(lists: &[List<ApiValue>]) -> u64
    ensures { result ≡ capped (size_of lists.now) }
{
    let mut count: u64 = 1;
    let mut left = lists;
    while let [list, rest @ ..] = left {
        count = count.saturating_mul(list.len() as u64);
        left = rest;
    }
    count
}

/// A choice of one value of each list, which are told one after the other. Choices are counted from 0, and the last list
/// changes first. A contract sees the values that are still to be told.
#[derive(Drop)]
pub struct Choosing<'a> {
    left: &'a [List<ApiValue>],
    number: u64,
    count: u64,
}

impl<'a> Model for Choosing<'a> {
    ghost use Rattle.std.specs.Prelude.{◌≡◌, ◌<◌, List};
    ghost use Rattle.api_listing.specs.declared.events.ApiValue.{ApiValue};
    ghost use Rattle.conspec_automaton.specs.Points.{size_of};
    ghost use Rattle.race_free_check.specs.Choosing.{chosen};

    ghost Value = { List ApiValue };

    ghost view = { λ c. chosen c.left.now c.number };

    ghost invariant = { λ c. (c.count ≡ size_of c.left.now) × (c.number < c.count) };
}

impl<'a> Choosing<'a> {
    /// The choice of this number, of so many.
    pub fn new(lists: &'a [List<ApiValue>], number: u64, count: u64) -> Choosing<'a>
        requires count { count ≡ size_of lists.now }
        requires there { number < count }
        ensures { result ≡ chosen lists.now number }
    {
        Choosing {
            left: lists,
            number,
            count,
        }
    }

    /// The value that is chosen of the next list.
    pub fn next(&mut self) -> Option<&'a ApiValue>
        ensures { MatchOption result ((self.old ≡ []) × (self.new ≡ [])) (λ value. self.old ≡ value.now ∷ self.new) }
    {
        let [list, rest @ ..] = self.left else {
            return None;
        };
        let count = self.count / list.len() as u64;
        let at = self.number / count;
        self.left = rest;
        self.number %= count;
        self.count = count;
        Some(&list.as_slice()[at as usize])
    }
}
