//! What instructions come to.

use guest_heap::Value;
use guest_model::Thrown;

/// What comes of operands that are taken.
#[derive(Clone, Copy)]
pub enum Comes {
    /// A value, which is put on top.
    Value(Value),
    /// It throws.
    Throws(Thrown),
}

/// What an instruction comes to.
#[derive(Clone, Copy)]
pub enum Completion {
    /// The thread goes on after it.
    Goes,
    /// It throws.
    Throws(Thrown),
}
