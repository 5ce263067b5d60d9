//! The class files of a command: how many bytes they may have in all, and the names of the classes that they link to.

ghost use Rattle.std.specs.Prelude.{◌≡◌, IfOk, Ok};
ghost use Rattle.inliner_tool.specs.Classes.{label_of};
ghost use Rattle.inliner_tool.specs.Programs.{within_total};

use crate::refusal::{Ended, Refusal};
use bytecode_model::Program;
use command_inputs::ReadClasses;
use mon_base::{Bytes, NoMemory};
use std::alloc::Global;

/// The greatest number of bytes that the class files of a command may have in all.
const TOTAL_LIMIT: u64 = 16_777_216;

/// Refuses class files that are too long in all.
pub fn within_total(classes: &ReadClasses) -> Result<(), Ended>
    ensures { result ≡ within_total classes.now (Ok tt) }
{
    let len = classes.total;
    if len > TOTAL_LIMIT {
        return Err(Ended::Refused(Refusal::TotalLong { len }));
    }
    Ok(())
}

/// The name of a class of the program, or `-` where it has none of this number.
pub fn label_of(alloc: Global, program: &Program, class: u32) -> Result<Bytes, NoMemory>
    ensures { IfOk result (λ label. label ≡ label_of program.now class) }
{
    match program.classes.as_slice().get(class as usize) {
        None => Bytes::from_slice(alloc, b"-"),
        Some(class) => class.name.copy(alloc),
    }
}
