//! States and steps.

use api_listing::ApiAnswer;
use guest_heap::{Monitor, Object, Thread, Value};
use mon_base::List;

/// A state of a guest program.
#[derive(Drop)]
pub struct Machine {
    /// The objects, which are never taken away.
    pub heap: List<Object>,
    /// The static fields of each given class, in the place of each of its fields.
    pub statics: List<List<Value>>,
    /// The monitors that are held.
    pub monitors: List<Monitor>,
    pub threads: List<Thread>,
    /// What the program was stopped with.
    pub stopped: Option<i32>,
}

/// What a thread does in a step.
#[derive(Drop)]
pub enum Choice {
    /// Its next instruction.
    Plain,
    /// It takes the library's answer to its call.
    Answer(ApiAnswer),
}

/// One guest step.
#[derive(Drop)]
pub struct Step {
    /// The number of the thread.
    pub thread: u32,
    pub choice: Choice,
}

/// How a guest program ended.
#[derive(Clone, Copy)]
pub enum End {
    /// Each thread has ended.
    Finished,
    /// A thread lives, and none can make a step.
    Deadlock,
    /// It was stopped with this value.
    Stopped(i32),
}
