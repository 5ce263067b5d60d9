//! The tokens of a policy's text.
//!
//! [`tokens_of`] takes a text apart, in one pass over its bytes: keywords, signs, names and numbers, each with its place
//! (docs/POLICIES.md). What stands first among tokens is told by [`is_next`], [`next_name`] and [`next_number`].
#![tactic(auto)]

mod front;
mod scanning;
mod token;

pub use front::{front_at, is_end, is_name, is_next, next_name, next_number, rest_of};
pub use scanning::tokens_of;
pub use token::{Lexeme, Token};
