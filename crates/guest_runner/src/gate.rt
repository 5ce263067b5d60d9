//! What a worker passes between two holdings of the book.

/// A gate, where workers may be kept waiting, so that a test decides in which order they go.
pub trait Gate {
    /// Lets the worker with this number pass. It does not hold the book.
    fn pass(&self, worker: u32);
}

/// A gate that is passed at once.
pub struct FreeGate;

impl Gate for FreeGate {
    fn pass(&self, _worker: u32) {}
}
