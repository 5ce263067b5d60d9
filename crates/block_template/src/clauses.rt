//! The clauses of a method.

ghost use Rattle.std.specs.Prelude.{◌≡◌};
ghost use Rattle.std.specs.Option.{option_copied};
ghost use Rattle.block_template.specs.Blocks.{clause_at, clauses_of, lets_pass, is_phase};
ghost use Rattle.block_template.specs.Flow.{branch_at, clause_in};

use conspec_automaton::{Branch, Clause, Policy};
use conspec_tree::Phase;
use std::marker::Model;

/// Those of a call, a return and an exception of a method.
#[derive(Drop)]
pub struct MethodClauses<'a> {
    pub before: Option<&'a Clause>,
    pub after: Option<&'a Clause>,
    pub exceptional: Option<&'a Clause>,
}

impl<'a> Model for MethodClauses<'a> {
    ghost use Rattle.std.specs.Prelude.{option_copied};
    ghost use Rattle.block_template.specs.Blocks.{Clauses};

    ghost Value = { Clauses };

    ghost view = { λ c. record {
      before = option_copied c.before;
      after = option_copied c.after;
      exceptional = option_copied c.exceptional;
    } };
}

/// The clauses of the method.
pub fn clauses_of(policy: &Policy, method: u32) -> MethodClauses<'_>
    ensures { result ≡ clauses_of policy.now method }
{
    MethodClauses {
        before: clause_at(policy, method, Phase::Before),
        after: clause_at(policy, method, Phase::After),
        exceptional: clause_at(policy, method, Phase::Exceptional),
    }
}

/// The clause of the method that is for this phase.
pub fn clause_at(policy: &Policy, method: u32, phase: Phase) -> Option<&Clause>
    ensures { option_copied result ≡ clause_at policy.now method phase }
{
    policy.clauses.as_slice().iter().find(|clause| clause.method == method
        && is_phase(phase, clause.phase))
}

/// The clause for this phase.
pub fn clause_in<'a>(clauses: &MethodClauses<'a>, phase: Phase) -> Option<&'a Clause>
    ensures { option_copied result ≡ clause_in clauses.now phase }
{
    match phase {
        Phase::Before => clauses.before,
        Phase::After => clauses.after,
        Phase::Exceptional => clauses.exceptional,
    }
}

/// The branch of this number of the clause for this phase.
pub fn branch_at<'a>(clauses: &MethodClauses<'a>, phase: Phase, n: u32) -> Option<&'a Branch>
    ensures { option_copied result ≡ branch_at clauses.now phase n }
{
    match clause_in(clauses, phase) {
        Some(clause) => clause.branches.as_slice().get(n as usize),
        None => None,
    }
}

/// Whether the phases are the same.
fn is_phase(phase: Phase, other: Phase) -> bool
    ensures { result ≡ is_phase phase other }
{
    match phase {
        Phase::Before => matches!(other, Phase::Before),
        Phase::After => matches!(other, Phase::After),
        Phase::Exceptional => matches!(other, Phase::Exceptional),
    }
}

/// Whether control goes on after a check; one without branches stops the program.
pub fn lets_pass(clause: Option<&Clause>) -> bool
    ensures { result ≡ lets_pass (option_copied clause.entry) }
{
    match clause {
        Some(clause) => !clause.branches.is_empty(),
        None => true,
    }
}
