//! The certificate of a woven program: its types, and for each instruction a note, told by its role in its block.
//!
//! It is accepted, for every policy and in both modes. Of the types [`canonical`] leaves out what a certificate cannot tell: no frame
//! ends with locals that may hold anything. (docs/CERTIFICATES.md)
#![tactic(auto)]

mod called;
mod clauses;
mod laws;
mod locks;
mod making;
mod methods;
mod notes;
mod terms;
mod trimming;

pub use laws::{canonical_is_typed, woven_is_accepted};
pub use making::make;
pub use trimming::canonical;
