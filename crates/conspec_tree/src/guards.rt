//! How many branches guards have, and how long these are.

ghost use Rattle.std.specs.Prelude.{◌≡◌, ◌≤◌};
ghost use Rattle.conspec_tree.specs.Guards.{branches, longest};

use crate::types::{Atom, Guard};
use mon_base::List;

/// How many branches the guards have.
pub fn branches(guards: &[Guard]) -> usize
    requires { branches guards.now ≤ 64 }
    ensures { result ≡ branches guards.now }
{
    let mut count: usize = 0;
    let mut left = guards;
    while let [first, others @ ..] = left {
        count += first.conjs.len();
        left = others;
    }
    count
}

/// How many atoms the longest of the branches has.
pub fn longest(conjs: &[List<Atom>]) -> usize
    ensures { result ≡ longest conjs.now }
{
    let mut most: usize = 0;
    let mut left = conjs;
    while let [first, others @ ..] = left {
        most = most.max(first.len());
        left = others;
    }
    most
}
