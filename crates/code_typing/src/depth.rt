//! Rule 2: the operands are there, and there is room for what is pushed.

ghost use Rattle.std.specs.Prelude.{◌≡◌, length};
ghost use Rattle.bytecode_model.specs.Rules.{Depth};
ghost use Rattle.bytecode_model.specs.Wants.{takes};

use crate::place::PlaceRef;
use crate::yielded::count_yielded;
use cert_format::FrameType;

/// Rule 2, of an instruction that takes so many operands.
pub fn is_deep(place: &PlaceRef, frame: &FrameType, count: usize) -> bool
    requires { count ≡ length (takes place.now) }
    ensures { result ≡ Depth place.now frame.now }
{
    let height = frame.stack.as_slice().len();
    count <= height && height - count + count_yielded(place) <= usize::from(place.method.max_stack)
}
