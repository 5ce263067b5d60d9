//! A listing out of its text.
//!
//! A listing is a text of lines (docs/LISTINGS.md). [`read`] answers what it declares beside the built-in classes, or the
//! first line that is wrong. What a listing is, and which text encodes it, is said in the crate api_listing.
#![tactic(auto)]

mod draft;
mod fault;
mod laws;
mod lines;
mod reading;
mod seen;
mod words;

pub use fault::ListFault;
pub use laws::faults_stay;
pub use reading::read;
