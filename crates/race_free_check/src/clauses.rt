//! The clauses that are tried together.

ghost use Rattle.std.specs.Prelude.{◌≡◌, ◌∷◌, []};

use conspec_automaton::Clause;
use std::marker::Model;

/// One clause, or two in this order. A contract sees their list.
#[derive(Drop)]
pub struct Clauses<'a> {
    pub first: &'a Clause,
    pub second: Option<&'a Clause>,
}

impl<'a> Model for Clauses<'a> {
    ghost use Rattle.std.specs.Prelude.{List, ◌∷◌, []};
    ghost use Rattle.std.specs.Option.{option_map_or};
    ghost use Rattle.conspec_automaton.specs.declared.policy.Clause.{Clause};

    ghost Value = { List Clause };

    ghost view = { λ c. c.first.now ∷ option_map_or (λ d. d.now ∷ []) c.second [] };
}

impl<'a> Clauses<'a> {
    /// The clause alone.
    pub fn alone(clause: &'a Clause) -> Clauses<'a>
        ensures { result ≡ clause.now ∷ [] }
    {
        Clauses {
            first: clause,
            second: None,
        }
    }
}
