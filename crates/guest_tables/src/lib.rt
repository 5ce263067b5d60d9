//! Linked programs that are ready to run, with tables that are made once: their classes, methods and fields by their names; of which
//! classes an object is, which method a call runs, what the library sees of a value. (docs/MACHINE.md)
#![tactic(auto)]

mod arities;
mod encoding;
mod fields;
mod finding;
mod given;
mod guest;
mod items;
mod kinds;
mod layout;
mod library;
mod methods;
mod searched;
mod seen;
mod tables;

pub use finding::{client_run, is_run, method_run};
pub use guest::Guest;
pub use kinds::{is_instance, is_thread};
pub use layout::new_of;
pub use library::ListedResult;
pub use seen::{bytes_shown, characters, shown_with, string_of, value_shown, values_shown};
