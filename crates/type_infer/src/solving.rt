//! The least frames of a method's instructions.

ghost use Rattle.std.specs.Prelude.{◌≡◌, ℕ, length, IfOk};
ghost use Rattle.bytecode_model.specs.Rules.{Frames};
ghost use Rattle.type_infer.specs.Fits.{FitFrames, FitsTold};
ghost use Rattle.type_infer.specs.Solving.{Holds, IsMetBy, IsSolved};

use crate::body::Body;
use crate::joining::joined;
use crate::laws::laws_hold;
use crate::sending::look_at;
use crate::told::{Locals, Told};
use crate::worklist::Worklist;
use cert_format::FrameType;
use code_typing::entry_locals;
use mon_base::{List, NoMemory};
use std::alloc::Global;

/// A method of which no frame but that of the arguments, before the first instruction, is found.
fn begun(alloc: Global, body: &Body) -> Result<Worklist, NoMemory>
    ensures frames { IfOk result (λ worklist. length worklist.frames ≡ length body.now.method.insns) }
    ensures marks { IfOk result (λ worklist. length worklist.marks ≡ length body.now.method.insns) }
    ensures holds { IfOk result (λ worklist. (limit : ℕ) (above : Frames)
        → IsMetBy body.now limit above → Holds body.now limit above worklist) }
{
    laws_hold();
    let mut worklist = Worklist::new(alloc, body.method.insns.len())?;
    let Some(place) = body.place(0) else {
        return Ok(worklist);
    };
    let types = entry_locals(alloc, &place)?;
    let locals = Locals::new(alloc, types)?;
    let first = joined(alloc, &place, None, locals, List::new(alloc))?;
    worklist.put(0, first);
    Ok(worklist)
}

/// The frames as a list.
fn into_list(alloc: Global, told: Vec<Option<Told>>) -> Result<List<Option<FrameType>>, NoMemory>
    ensures same { IfOk result (λ frames. frames ≡ told.items) }
    ensures fits { IfOk result (λ frames. FitFrames frames) }
{
    let mut frames = List::new(alloc);
    for one in told {
        frames.push(into_frame(one))?;
    }
    Ok(frames)
}

/// The frame, if there is one.
fn into_frame(told: Option<Told>) -> Option<FrameType>
    ensures same { result ≡ told }
    ensures fits { FitsTold result }
{
    match told {
        None => None,
        Some(told) => Some(told.into_frame()),
    }
}

/// The least frames that meet the rules at the first `limit` instructions, or frames that do not meet them, where none
/// do.
pub fn solve(alloc: Global, body: &Body, limit: u32) -> Result<List<Option<FrameType>>, NoMemory>
    ensures count { IfOk result (λ frames. length frames ≡ length body.now.method.insns) }
    ensures fits { IfOk result (λ frames. FitFrames frames) }
    ensures solved { IfOk result (λ frames. IsSolved body.now limit frames) }
{
    laws_hold();
    let mut worklist = begun(alloc, body)?;
    // Each turn raises a frame, and a frame is raised a few times: 2^64 turns are never made.
    for _ in 0..u64::MAX {
        let Some(at) = worklist.next(limit) else {
            return into_list(alloc, worklist.into_frames());
        };
        look_at(alloc, body, &mut worklist, at)?;
    }
    Err(NoMemory)
}
