//! Records: a run as text, with the steps of the threads, the answers of the library, and what was seen of its calls.
//!
//! [`read_record`] reads the steps and the events of a record, or answers its first line that is wrong. [`push_value`] and
//! [`push_event`] print values and events as a record has them, and [`push_threadless`] an event of no thread. [`record_text`]
//! writes the record of a run, and [`events_text`] its events and its end line alone. (docs/RECORDS.md)
#![tactic(auto)]

mod entry;
mod fault;
mod laws;
mod names;
mod number;
mod printing;
mod reading;
mod value;
mod words;
mod writing;

pub use fault::RecordFault;
pub use laws::faults_stay;
pub use names::methods_are_found;
pub use printing::{
    events_are_read_again, push_event, push_threadless, push_value, values_are_read_again,
};
pub use reading::{Record, read_record};
pub use writing::{
    EndLine, Line, events_text, lines_of_runs_are_told, record_text, records_are_read_again,
};
