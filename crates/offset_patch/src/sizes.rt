//! The sizes of a method, each of which has to fit.

ghost use Rattle.std.specs.Prelude.{◌≡◌, ◌<◌, ◌^◌, Err, pos};
ghost use Rattle.class_codec.specs.declared.tree.Code.{Code};
ghost use Rattle.mon_base.specs.Answer.{Answers};
ghost use Rattle.offset_patch.specs.Fault.{fitted};
ghost use Rattle.offset_patch.specs.Splicing.{room};

use crate::fault::{Size, SpliceFault};
use class_codec::Code;
use mon_base::Bytes;
use std::alloc::Global;

/// How many operands a block needs beside the client's.
pub const OPERANDS: u16 = 3;

/// Whether there is room for blocks that use at most this many locals; else the first size that does not fit.
pub fn room(
    alloc: Global,
    class: &Bytes,
    method: u32,
    code: &Code,
    locals: u32,
) -> Result<(), SpliceFault>
    ensures { Answers SpliceFault.Memory result (room class.now method code.now locals) }
{
    let stack = u64::from(code.max_stack) + u64::from(OPERANDS);
    fitted(alloc, class, method, Size::Stack, stack)?;
    let slots = u64::from(code.max_locals) + u64::from(locals);
    fitted(alloc, class, method, Size::Locals, slots)
}

/// Whether the size is at most 65,535.
pub fn fitted(
    alloc: Global,
    class: &Bytes,
    method: u32,
    what: Size,
    value: u64,
) -> Result<(), SpliceFault>
    requires { value < 2 ^ 63 }
    ensures { Answers SpliceFault.Memory result (fitted class.now method what value) }
{
    if value <= 65_535 {
        return Ok(());
    }
    Err(SpliceFault::Overflow {
        class: class.copy(alloc)?,
        method,
        what,
        value: value as i64,
    })
}
