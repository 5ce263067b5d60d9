//! The certificate as a whole.

use crate::note::Note;
use crate::typing::Typing;
use mon_base::List;

/// How blocks use the lock.
#[derive(Clone, Copy)]
pub enum Mode {
    /// A block holds the lock over the call.
    Hold,
    /// A block lets the lock go before the call.
    Release,
}

/// What a checker is told of a program: the frame types, and the notes by class, method with code, and instruction.
#[derive(Drop)]
pub struct Certificate {
    pub mode: Mode,
    pub typing: Typing,
    pub notes: List<List<List<Note>>>,
}
