//! The notes of a certificate: the table of what they ask, what each means for the machine, and that accepted programs obey.
//!
//! The rules are read off the table, and asked of a program, in cert_checker. (docs/CERTIFICATES.md)
#![tactic(auto)]

mod borrowed;
mod checks;
mod clauses;
mod held_calls;
mod laws;
mod operands;
mod rules;
mod table;
mod terms;
mod weakening;

pub use borrowed::{
    AskedRef, CheckRef, DueRef, HeldRef, NoteRef, RowRef, TermsRef, WideTerm, due_asked,
};
pub use checks::{failing, holding_on};
pub use clauses::{clause_of, needs};
pub use held_calls::HeldCalls;
pub use laws::{accepted_obeys, errors_leave_blocks, free_lock_is_taken};
pub use operands::{
    STATE, calls, enters, has_clause, is_way_out, leaves, pushes_state, variable_named,
    writes_static,
};
pub use rules::{Here, Rules};
pub use table::{is_duty, is_ready, row, thrown};
pub use weakening::{asks_kept, is_exceptional, is_open, may_stand, takes_for_call};
