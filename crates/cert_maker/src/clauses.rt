//! The branches of a site's clause.

ghost use Rattle.std.specs.Prelude.{◌≡◌, IfSome};
ghost use Rattle.std.specs.Option.{option_copied};
ghost use Rattle.conspec_automaton.specs.Sound.{IsPolicy};
ghost use Rattle.cert_maker.specs.Noting.{branch_at};
ghost use Rattle.cert_maker.specs.Small.{IsSmall};

use block_logic::clause_of;
use cert_format::Site;
use conspec_automaton::{Branch, Policy};

/// The branch of this number of the site's clause.
pub fn branch_at(policy: &Policy, site: Site, branch: u32) -> Option<&Branch>
    requires policy { IsPolicy policy.now }
    ensures is { option_copied result ≡ branch_at policy.now site branch }
    // What it names is told by a byte.
    ensures small { IfSome (option_copied result) IsSmall }
{
    branch_of(policy, site, branch)
}

fn branch_of(policy: &Policy, site: Site, branch: u32) -> Option<&Branch>
    ensures { option_copied result ≡ branch_at policy.now site branch }
{
    let clause = clause_of(policy, site)?;
    clause.branches.as_slice().get(branch as usize)
}
