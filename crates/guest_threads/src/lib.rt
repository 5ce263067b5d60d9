//! Threads and their frames, in place: monitors, calls and returns, what is thrown, and how threads begin and end, each as the
//! definition of the machine says; where something is refused, all is as it was. (docs/MACHINE.md)
//!
//! Of a program these calls want its methods, and which class is below which, but no further tables.
#![tactic(auto)]

mod acting;
mod beginning;
mod built;
mod frames;
mod going;
mod key_places;
mod machine;
mod monitors;
mod passing;
mod returning;
mod running;
mod threads;
mod throwing;

pub use acting::{OnTop, act_on_top};
pub use beginning::rest;
pub use built::{exit, join, make_on};
pub use frames::{lock_of, method_of};
pub use going::{call_throws, end_thread, enter_method, go_past, wait};
pub use machine::{MachineView, RunningMachine};
pub use monitors::{Monitors, MonitorsView};
pub use passing::{Call, pass};
pub use returning::{resume, resume_in_frame, return_from};
pub use running::target_of;
pub use threads::{begin_beside, begun_thread, has_ended, is_ended, mark_started, thread_of_value};
pub use throwing::{push_object, throw, throw_new};
