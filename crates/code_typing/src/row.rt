//! The rules of one instruction, in order.

ghost use Rattle.std.specs.Prelude.{◌≡◌, ◌&&◌, option_copied};
ghost use Rattle.bytecode_model.specs.Rules.{Depth, Operand, Local, Made, rule_failing, row_failing};

use crate::depth::is_deep;
use crate::entry::is_entered;
use crate::following::is_followed;
use crate::handlers::is_caught;
use crate::locals::has_locals;
use crate::made::is_made;
use crate::operands::{are_operands, count_taken};
use crate::place::PlaceRef;
use cert_format::FrameType;
use frame_types::split_top;

/// The rules 2 to 5, which ask nothing of other instructions.
pub fn is_alone_met(place: &PlaceRef, frame: &FrameType) -> bool
    ensures { result ≡ (Depth place.now frame.now
        && (Operand place.now frame.now && (Local place.now frame.now && Made place.now frame.now))) }
{
    let count = count_taken(place);
    let (_, taken) = split_top(frame.stack.as_slice(), count);
    is_deep(place, frame, count)
        && are_operands(place, taken)
        && has_locals(place, frame)
        && is_made(place, frame, taken)
}

/// The first of the rules 2 to 7 that fails at an instruction that is reached.
fn rule_failing(frames: &[Option<FrameType>], place: &PlaceRef, frame: &FrameType) -> Option<u8>
    ensures { result ≡ rule_failing frames.now place.now frame.now }
{
    let count = count_taken(place);
    let (kept, taken) = split_top(frame.stack.as_slice(), count);
    if !is_deep(place, frame, count) {
        Some(2)
    } else if !are_operands(place, taken) {
        Some(3)
    } else if !has_locals(place, frame) {
        Some(4)
    } else if !is_made(place, frame, taken) {
        Some(5)
    } else if !is_followed(frames, place, frame, kept, taken) {
        Some(6)
    } else if !is_caught(frames, place, frame) {
        Some(7)
    } else {
        None
    }
}

/// The first rule that fails at an instruction with this frame, if it is reached.
pub fn row_failing(
    frames: &[Option<FrameType>],
    place: &PlaceRef,
    frame: Option<&FrameType>,
) -> Option<u8>
    ensures { result ≡ row_failing frames.now place.now (option_copied frame.entry) }
{
    match frame {
        None => { if place.at == 0 { Some(1) } else { None } }
        Some(frame) => {
            if place.at == 0 && !is_entered(place, frame) {
                Some(1)
            } else {
                rule_failing(frames, place, frame)
            }
        }
    }
}
