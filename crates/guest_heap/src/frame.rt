//! Frames.

ghost use Rattle.std.specs.Prelude.{◌≡◌, ◌∷◌, ◌<◌, [], Some, OnOk, OnErr, length, option_copied, slice_get, drop};
ghost use Rattle.std.specs.Borrow.{sem};
ghost use Rattle.guest_heap.specs.Borrowing.{BorrowsCaller, BorrowsTop};

use crate::stack::Stack;
use crate::value::Value;
use mon_base::{List, NoMemory};
use std::alloc::Global;
use std::marker::Model;

/// A method that is running: where it stands, its locals and its operands. (The Java Virtual Machine Specification,
/// section 2.6.)
#[derive(Drop)]
pub struct Frame {
    /// The index of its class among the given ones.
    pub class: u32,
    /// The index of the method in the class.
    pub method: u32,
    /// The index of the instruction that comes next, or that called.
    pub at: u32,
    pub locals: List<Value>,
    pub stack: Stack,
    /// What is given up as the frame is left, where the method is synchronized.
    pub lock: Option<Value>,
}

/// The frames of a thread. A contract sees them with the top one first.
#[derive(Drop)]
pub struct Frames {
    items: Vec<Frame>,
}

impl Model for Frames {
    ghost use Rattle.std.specs.Prelude.{List, reverse};
    ghost use Rattle.guest_heap.specs.declared.frame.Frame.{Frame};

    ghost Value = { List Frame };

    ghost view = { λ f. reverse f.items.items };
}

impl Frames {
    /// No frame. It takes no memory.
    pub fn new(alloc: Global) -> Frames
        ensures { result ≡ [] }
    {
        Frames {
            items: Vec::new(alloc),
        }
    }

    /// Puts a frame on top. On refusal the frames stay.
    pub fn push(&mut self, frame: Frame) -> Result<(), NoMemory>
        ensures ok { OnOk result (self.new ≡ frame ∷ self.old) }
        ensures err { OnErr result (self.new ≡ self.old) }
    {
        self.items.push(frame)?;
        Ok(())
    }

    /// Takes the top frame; `None` where there is none. It takes no memory.
    pub fn pop(&mut self) -> Option<Frame>
        ensures top { result ≡ slice_get self.old 0 }
        ensures left { self.new ≡ drop 1 self.old }
    {
        self.items.pop()
    }

    /// The top frame; `None` where there is none.
    pub fn top(&self) -> Option<&Frame>
        ensures { option_copied result ≡ slice_get self.now 0 }
    {
        self.items.last()
    }

    /// The top frame, which can be written.
    pub fn top_mut(&mut self) -> &mut Frame
        requires { 0 < length self.old }
        ensures* borrows { sem 𝓛 (BorrowsTop self.entry result) }
        ensures top { slice_get self.old 0 ≡ Some result.now }
    {
        let last = self.items.len() - 1;
        &mut self.items[last]
    }

    /// The frame under the top one; `None` where there is none.
    pub fn caller(&self) -> Option<&Frame>
        ensures { option_copied result ≡ slice_get self.now 1 }
    {
        let count = self.items.len();
        if count < 2 {
            return None;
        }
        Some(&self.items[count - 2])
    }

    /// The frame under the top one, which can be written.
    pub fn caller_mut(&mut self) -> &mut Frame
        requires { 1 < length self.old }
        ensures* borrows { sem 𝓛 (BorrowsCaller self.entry result) }
        ensures caller { slice_get self.old 1 ≡ Some result.now }
    {
        let place = self.items.len() - 2;
        &mut self.items[place]
    }
}
