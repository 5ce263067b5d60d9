//! Policies as people write them: a text becomes a tree, or the fault that stands first in it.
//!
//! A policy (docs/POLICIES.md) names state variables and clauses over the methods of a listing, in the language
//! ConSpec. [`parse`] reads it whole.
//!
//! The time is one pass over the bytes and two over the tokens. A name is looked for by a scan of the variables, at
//! most 16, and of the parameters of one method, at most 255 where it is listed; a double clause by a scan of at most
//! 64; and a method by a scan of the listing for each clause. No call goes deeper with a longer text.
#![tactic(auto)]

mod clause;
mod fault;
mod forms;
mod guard;
mod head;
mod laws;
mod method;
mod reading;
mod scope;
mod signature;
mod type_name;
mod update;

pub use fault::PolicyFault;
pub use laws::{beginnings_are_right, faults_are_decided, kinds_are_told};
pub use reading::parse;
