//! The frames that are found so far, and the instructions whose frame has changed since they were looked at.

ghost use Rattle.std.specs.Prelude.{◌≡◌, ◌<◌, ℕ, true, false, replicate, option_copied, length, None, IfOk, IfSome, IfNone};
ghost use Rattle.bytecode_model.specs.Rules.{frame_of};
ghost use Rattle.type_infer.specs.Solving.{is_marked, put, unmarked};

use crate::marks::Marks;
use crate::told::Told;
use mon_base::NoMemory;
use std::alloc::Global;
use std::marker::Model;

/// Frames, and the instructions that are to be looked at. None before `lowest` is.
#[derive(Drop)]
pub struct Worklist {
    frames: Vec<Option<Told>>,
    marks: Marks,
    lowest: u32,
}

impl Model for Worklist {
    ghost use Rattle.std.specs.Prelude.{◌≡◌, ◌<◌, ℕ, false};
    ghost use Rattle.type_infer.specs.Solving.{State, is_marked};

    ghost Value = { State };

    ghost view = { λ w. record { frames = w.frames.items; marks = w.marks } };

    ghost invariant = { λ w. (at : ℕ) → at < w.lowest → is_marked w.marks at ≡ false };
}

/// No frame, n times.
fn no_frames(alloc: Global, n: usize) -> Result<Vec<Option<Told>>, NoMemory>
    ensures { IfOk result (λ frames. frames.items ≡ replicate n None) }
{
    let mut frames = Vec::with_capacity(alloc, n)?;
    for _ in 0..n {
        frames.push(None)?;
    }
    Ok(frames)
}

impl Worklist {
    /// A method of n instructions, none of which is reached.
    pub fn new(alloc: Global, n: usize) -> Result<Worklist, NoMemory>
        ensures frames { IfOk result (λ worklist. worklist.frames ≡ replicate n None) }
        ensures marks { IfOk result (λ worklist. worklist.marks ≡ replicate n false) }
    {
        let frames = no_frames(alloc, n)?;
        let marks = Marks::new(alloc, n)?;
        Ok(Worklist {
            frames,
            marks,
            lowest: 0,
        })
    }

    /// The frame of the instruction, if it is reached.
    pub fn frame(&self, at: u32) -> Option<&Told>
        ensures { option_copied result ≡ frame_of self.now.frames at }
    {
        match self.frames.as_slice().get(at as usize) {
            Some(Some(told)) => Some(told),
            _ => None,
        }
    }

    /// Puts the frame, if there is one, before the instruction, which is to be looked at.
    pub fn put(&mut self, at: u32, told: Option<Told>)
        requires frames { at < length self.old.frames }
        requires marks { at < length self.old.marks }
        ensures { self.new ≡ put self.old at told }
    {
        if told.is_some() {
            self.frames[at as usize] = told;
            self.marks.mark(at as usize);
            if at < self.lowest {
                self.lowest = at;
            }
        }
    }

    /// The first instruction below the limit that is to be looked at, which is then no more.
    pub fn next(&mut self, limit: u32) -> Option<u32>
        ensures within { IfSome result (λ at. at < limit) }
        ensures looked_at { IfSome result (λ at. self.new ≡ unmarked self.old at) }
        ensures none { IfNone result (self.new ≡ self.old) }
        ensures over { IfNone result ((at : ℕ) → at < limit → is_marked self.old.marks at ≡ false) }
    {
        let at = self.marks.next(self.lowest, limit)?;
        self.marks.unmark(at as usize);
        self.lowest = at;
        Some(at)
    }

    /// The frames that are found.
    pub fn into_frames(self) -> Vec<Option<Told>>
        ensures { result.items ≡ self.frames }
    {
        let Worklist { frames, .. } = self;
        frames
    }
}
