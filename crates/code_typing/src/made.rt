//! Rule 5: objects that are not made yet. (The Java Virtual Machine Specification, section 4.10.2.4.)

ghost use Rattle.std.specs.Prelude.{◌≡◌};
ghost use Rattle.bytecode_model.specs.Rules.{Made, makes_receiver};
ghost use Rattle.bytecode_model.specs.Rules.{taken as taken_of};

use crate::change::class_made;
use crate::place::PlaceRef;
use cert_format::{FrameType, VType};
use frame_types::{calls_maker, has_new, has_receiver, has_this, is_maker};
use insn_codec::{Heap, How, Shape};

fn makes_receiver(place: &PlaceRef, how: How, frame: &FrameType, taken: &[VType]) -> bool
    requires { taken.now ≡ taken_of place.now frame.now }
    ensures { result ≡ makes_receiver place.now how frame.now }
{
    let insn = place.insn_ref();
    if !calls_maker(&insn) {
        return true;
    }
    let [receiver, ..] = taken else {
        return false;
    };
    has_receiver(how) && class_made(&insn, receiver).is_some()
}

/// Rule 5, of an instruction that takes these operands.
pub fn is_made(place: &PlaceRef, frame: &FrameType, taken: &[VType]) -> bool
    requires { taken.now ≡ taken_of place.now frame.now }
    ensures { result ≡ Made place.now frame.now }
{
    match place.shape() {
        Shape::Heap(Heap::Call(how)) => makes_receiver(place, how, frame, taken),
        Shape::Heap(Heap::New) => !has_new(place.at, frame.stack.as_slice()),
        Shape::Heap(Heap::Return(None)) => {
            !is_maker(place.method)
                || !(has_this(frame.locals.as_slice()) || has_this(frame.stack.as_slice()))
        }
        _ => true,
    }
}
