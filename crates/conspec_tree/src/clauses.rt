//! Which events clauses are for.

ghost use Rattle.std.specs.Prelude.{◌≡◌};
ghost use Rattle.conspec_tree.specs.Clauses.{phase_number, is_after, has_clause};

use crate::types::{Phase, TreeClause};

fn phase_number(phase: Phase) -> u8
    ensures { result ≡ phase_number phase }
{
    match phase {
        Phase::Before => 0,
        Phase::After => 1,
        Phase::Exceptional => 2,
    }
}

/// Whether one of the clauses is for the same events of the method.
pub fn has_clause(clauses: &[TreeClause], phase: Phase, method: u32) -> bool
    ensures { result ≡ has_clause clauses.now phase method }
{
    let mut left = clauses;
    while let [first, others @ ..] = left {
        if first.method == method && phase_number(first.phase) == phase_number(phase) {
            return true;
        }
        left = others;
    }
    false
}

/// Whether it is that of returns.
pub fn is_after(phase: Phase) -> bool
    ensures { result ≡ is_after phase }
{
    match phase {
        Phase::After => true,
        _ => false,
    }
}
