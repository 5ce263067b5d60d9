//! The steps of a client as those of what is woven of it: before a call with a block the steps of its thread up to the call, and after
//! the end of one those until the thread has left the block. (docs/TRANSPARENCY.md)
//!
//! [`lift`] makes both runs, side by side, and gives the lines of the lifted one, or the first step that is not lifted.
#![tactic(auto)]

mod client;
mod fault;
mod laws;
mod lifting;
mod standing;
mod woven;

pub use client::ClientRun;
pub use fault::LiftFault;
pub use laws::lifts_are_told;
pub use lifting::{Lifted, Lifting, lift, standings_of};
pub use standing::{Standing, Standings, Way};
pub use woven::WovenRun;
