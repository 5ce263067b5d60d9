//! The machine of a woven program as its client's, and the steps of the one for those of the other: definitions, what the two programs
//! have in common, and what holds of machines that mirror each other. (docs/TRANSPARENCY.md)
#![tactic(auto)]

mod laws;

pub use laws::{
    client_steps_are_alike, linked_clients_are_named, machines_start_alike, mirrors_are_erased,
    programs_tell_alike,
};
