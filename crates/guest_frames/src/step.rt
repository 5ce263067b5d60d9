//! The step of an instruction that changes its frame alone.

ghost use Rattle.std.specs.Prelude.{◌<◌, ◌^◌, ◌-◌};
ghost use Rattle.guest_frames.specs.Stepping.{frame_stepped};
ghost use Rattle.guest_frames.specs.Became.{Became};

use crate::jumps::next_of;
use crate::operands::effect;
use guest_heap::Frame;
use insn_codec::{Insn, shape_of};

/// Makes the step, and answers whether it was made. It was not where an operand or a local that the instruction takes is
/// missing or not of its kind, where there is no room, or where the instruction works on more than its frame: the frame is
/// then as it was. It takes no memory.
pub fn local_step(frame: &mut Frame, insn: &Insn) -> bool
    requires { frame.old.at < 2 ^ 32 - 1 }
    ensures { Became result frame.old frame.new (frame_stepped insn.now frame.old) }
{
    let next = next_of(insn, frame.at, &frame.stack);
    let is_made = effect(shape_of(insn), &mut frame.locals, &mut frame.stack);
    if is_made {
        frame.at = next;
    }
    is_made
}
