//! Programs that are made from a number, to try large inputs: so many classes of threads, with so many calls of a library in
//! each, and a main class that begins them; with the listing of that library, and a policy for it. (docs/GENERATED.md)
//!
//! [`generate`] gives what one definition says, so a number names its program everywhere.
#![tactic(auto)]

mod bundle;
mod code;
mod draws;
mod lengths;
mod main_class;
mod members;
mod pool;
mod thread_class;

pub use bundle::{
    Bundle, generate, generated_codes_are_short, generated_have_names, generated_is_encodable,
    generated_is_small,
};
pub use lengths::bytes_of;
