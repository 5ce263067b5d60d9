//! Guest threads.

use crate::frame::Frames;
use crate::value::Value;
use mon_base::List;

/// What a thread does.
#[derive(Drop)]
pub enum Doing {
    Running,
    /// It waits for the answer of the library's method with this index in the listing.
    InCall {
        method: u32,
        /// The receiver, where the method has one.
        receiver: Option<Value>,
        args: List<Value>,
    },
    Ended,
}

/// A guest thread.
#[derive(Drop)]
pub struct Thread {
    pub frames: Frames,
    /// The methods, by class and index, that are begun one after the other once the frames are left.
    pub to_begin: List<(u32, u32)>,
    pub doing: Doing,
}
