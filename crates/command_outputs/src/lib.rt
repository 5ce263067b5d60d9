//! What a command prints, and the files that it writes.
//!
//! A [`Reply`] is what is printed, and a [`Line`] has a case for each kind of line. A [`Field`] is what stands in a line
//! after a space, and a [`Report`] the number of what is wrong, with its fields. [`text_of`] writes a reply, and
//! [`example_text`] the part of one that shows a race: a state of the policy, and the event or two that are tried there.
//!
//! [`outputs_of`] has the files of `inline`, and [`generated_outputs`] those of `gen`: their names in the folder that the
//! command is given, and their bytes. No crate that judges is needed to say what is printed or written. (docs/COMMANDS.md)
#![tactic(auto)]

mod example;
mod field;
mod generated;
mod line;
mod outputs;
mod reply;

pub use example::example_text;
pub use field::{Field, Report};
pub use generated::generated_outputs;
pub use line::Line;
pub use outputs::outputs_of;
pub use reply::{Reply, text_of};
