//! What a policy says, as a tree.
//!
//! A [`PolicyTree`] has state variables and clauses over the methods of a listing (docs/POLICIES.md). What is true of
//! each that is read is said by specs/Tree.antt: its limits and ranges, and that what its parts name is there. How a
//! text says one is said in conspec_parse.
#![tactic(auto)]

mod clauses;
mod guards;
mod kinds;
mod types;
mod updates;
mod variables;

pub use clauses::{has_clause, is_after};
pub use guards::{branches, longest};
pub use kinds::{is_equality, is_number, is_truth, kind_or_object, number_range, passed_range};
pub use types::{Atom, Base, Guard, Kind, Phase, PolicyTree, Rel, TreeClause, Update, Var};
pub use updates::{all_range_atoms, is_updated, target};
pub use variables::{is_variable, variable_named};
