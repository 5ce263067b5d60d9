//! The files that a command writes, before its answer is given.

ghost use Rattle.std.specs.Prelude.{◌≤◌};
ghost use Rattle.inliner_tool.specs.Seen.{seen};
ghost use Rattle.inliner_tool.specs.Steps.{UnlessMemory};
ghost use Rattle.inliner_tool.specs.Writing.{HaveBegun, Writes};

use crate::answer::{Answer, Made};
use crate::refusal::{Ended, Refusal};
use mon_store::{Store, WriteFault, write_all};
use std::alloc::Global;

/// Writes the outputs, and gives the answer.
pub fn write_made<S: Store>(alloc: Global, made: Made, store: &mut S) -> Result<Answer, Ended>
    ensures writes { UnlessMemory (Writes (seen S.files S.faults S.last store.old store.new) made) result }
    ensures begun { HaveBegun (seen S.files S.faults S.last store.old store.new) made.outputs }
    ensures faults { S.faults store.old ≤ S.faults store.new }
{
    let Made { answer, outputs } = made;
    match write_all(alloc, store, outputs.as_slice()) {
        Ok(()) => Ok(answer),
        Err(WriteFault::Failed(name)) => Err(Ended::Refused(Refusal::Unwritten(name))),
        Err(WriteFault::Memory) => Err(Ended::Memory),
    }
}
