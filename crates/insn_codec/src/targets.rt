//! Which instruction begins at a position of the code.

ghost use Rattle.std.specs.Prelude.{◌≡◌, ◌+◌, ◌+ℤ◌, ◌<◌, ◌^◌, pos, OnOk};
ghost use Rattle.mon_base.specs.Answer.{Reads, Answers};
ghost use Rattle.insn_codec.specs.Reading.{target_of, near_at, far_at, end_of};
ghost use Rattle.insn_codec.specs.Targets.{finds};

use crate::fault::CodeFault;
use crate::place::{i2, i4};
use mon_base::Cursor;

/// Which instruction begins at a position.
#[derive(Drop)]
pub enum Targets {
    /// Any position is taken for that of the first instruction.
    Any,
    /// The index of the instruction that begins there, for each position of the code.
    Among(Vec<Option<u32>>),
}

impl Targets {
    /// The instruction that begins at the position.
    fn find(&self, position: i64) -> Option<u32>
        ensures { result ≡ finds self.now position }
    {
        match self {
            Targets::Any => Some(0),
            Targets::Among(marks) => {
                if position < 0 {
                    return None;
                }
                match marks.get(position as usize) {
                    Some(mark) => *mark,
                    None => None,
                }
            }
        }
    }

    /// The target of the instruction at `at` which is this far away.
    fn target(&self, at: u64, by: i32) -> Result<u32, CodeFault>
        requires { at < 2 ^ 32 }
        ensures { Answers CodeFault.Memory result (target_of (finds self.now) at by) }
    {
        self.find(at as i64 + by as i64)
            .ok_or(CodeFault::Target { at })
    }

    /// A target, from an offset of two bytes.
    #[tactic(auto, unfolding(crate::specs::Reading::near_at))]
    pub fn near(&self, at: u64, from: &mut Cursor) -> Result<u32, CodeFault>
        requires { at < 2 ^ 32 }
        ensures reads { Reads CodeFault.Memory result (near_at (finds self.now) at from.old) from.new }
        ensures moves { OnOk result (from.new.at ≡ from.old.at + 2) }
        ensures stays { OnOk result (end_of from.new ≡ end_of from.old) }
    {
        let by = i2(at, from)?;
        self.target(at, by as i32)
    }

    /// A target, from an offset of four bytes.
    #[tactic(auto, unfolding(crate::specs::Reading::far_at))]
    pub fn far(&self, at: u64, from: &mut Cursor) -> Result<u32, CodeFault>
        requires { at < 2 ^ 32 }
        ensures reads { Reads CodeFault.Memory result (far_at (finds self.now) at from.old) from.new }
        ensures moves { OnOk result (from.new.at ≡ from.old.at + 4) }
        ensures stays { OnOk result (end_of from.new ≡ end_of from.old) }
    {
        let by = i4(at, from)?;
        self.target(at, by)
    }
}
