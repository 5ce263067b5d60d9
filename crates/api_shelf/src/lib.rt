//! Devices, which answer a program's calls in the library's place.
//!
//! An [`ApiDevice`] is asked for the answer of one call. It may fail; then a count of faults rises. It may tell a log of
//! what it answered. [`plain_answer`] is the answer where there is no device: nothing, 0, null, the empty text or the
//! receiver, by the type of the method's result. [`Scripted`] gives the answers that it was given and tells its log,
//! [`Fused`] fails after some calls, [`Console`] prints.
//!
//! A [`Shelf`] has devices by classes. [`ask_first`] asks the first device of the class of the call's method, and
//! [`answer_call`] answers plainly where there is none. Whatever is asked, the first device of each class that tells a
//! log tells the calls and answers of that class, all of them and in their order, and a later one tells none.
#![tactic(auto)]

mod asking;
mod console;
mod copying;
mod device;
mod fused;
mod laws;
mod plain;
mod scripted;
mod shelf;

pub use asking::{Asked, answer_call, ask_first};
pub use console::Console;
pub use copying::{copy_answer, copy_call};
pub use device::{ApiDevice, DeviceFault};
pub use fused::Fused;
pub use laws::{ask_twice, devices_tell, plain_answers_are_by_type};
pub use plain::plain_answer;
pub use scripted::Scripted;
pub use shelf::{Shelf, Slot, SlotOf};
