//! What a policy tells of a site: its clause, and the arguments and the result of its method.

ghost use Rattle.std.specs.Prelude.{◌≡◌, option_copied};
ghost use Rattle.block_logic.specs.Clauses.{clause_at, clause_of, is_of_phase, needs, result_kind, clause_for};

use cert_format::{Phase8, Site};
use conspec_automaton::{Clause, Policy};
use conspec_tree::{Kind, Phase};

fn is_of_phase(site: Phase8, phase: Phase) -> bool
    ensures { result ≡ is_of_phase site phase }
{
    match site {
        Phase8::Before => matches!(phase, Phase::Before),
        Phase8::After => matches!(phase, Phase::After),
        Phase8::Exceptional => matches!(phase, Phase::Exceptional),
    }
}

/// The clause for an event of the method.
pub fn clause_at(policy: &Policy, method: u32, phase: Phase8) -> Option<&Clause>
    ensures { option_copied result ≡ clause_at policy.now method phase }
{
    policy.clauses.as_slice().iter().find(|clause| clause.method == method
        && is_of_phase(phase, clause.phase))
}

/// The clause for the events of the site.
pub fn clause_of(policy: &Policy, site: Site) -> Option<&Clause>
    ensures { option_copied result ≡ clause_of policy.now site }
{
    clause_at(policy, u32::from(site.method), site.phase)
}

/// How many arguments a call is granted for: those that a clause for it may ask.
pub fn needs(policy: &Policy, method: u32) -> usize
    ensures { result ≡ needs policy.now method }
{
    match clause_at(policy, method, Phase8::Before) {
        Some(clause) => clause.args.len(),
        None => 0,
    }
}

/// What a method gives that the policy has a clause for.
pub fn result_kind(policy: &Policy, method: u32) -> Option<Kind>
    ensures { result ≡ result_kind policy.now method }
{
    match clause_for(policy, method) {
        Some(clause) => clause.result,
        None => None,
    }
}

/// The first clause of the method.
fn clause_for(policy: &Policy, method: u32) -> Option<&Clause>
    ensures { option_copied result ≡ clause_for policy.now method }
{
    policy
        .clauses
        .as_slice()
        .iter()
        .find(|clause| clause.method == method)
}
