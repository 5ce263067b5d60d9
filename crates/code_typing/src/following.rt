//! Rule 6: where control goes, the frame afterwards is assignable to what is told.

ghost use Rattle.std.specs.Prelude.{◌≡◌, ◌++◌, length, map, option_copied};
ghost use Rattle.std.specs.List.{list_all};
ghost use Rattle.insn_codec.specs.Control.{jump_targets, successors};
ghost use Rattle.code_typing.specs.Changing.{change_told};
ghost use Rattle.code_typing.specs.Leaving.{arrives, left_fits};
ghost use Rattle.bytecode_model.specs.Makes.{below, yields};
ghost use Rattle.bytecode_model.specs.Rules.{Successor, frame_of, goes_well, stack_fits};
ghost use Rattle.bytecode_model.specs.Rules.{taken as taken_of};
ghost use Rattle.bytecode_model.specs.Wants.{takes};

use crate::change::{Change, change_of, change_told};
use crate::locals::locals_take;
use crate::operands::count_taken;
use crate::place::PlaceRef;
use crate::yielded::yields_fit;
use cert_format::{FrameType, VType};
use frame_types::split_top;
use insn_codec::{Insn, goes_on};
use type_lattice::{Indexed, assignable, borrowed_fits};

/// The frame of an instruction, if it is reached.
pub fn frame_of(frames: &[Option<FrameType>], at: usize) -> Option<&FrameType>
    ensures { option_copied result ≡ frame_of frames.now at }
{
    match frames.get(at) {
        Some(Some(frame)) => Some(frame),
        _ => None,
    }
}

/// What an instruction leaves: what becomes of the types that stay, its locals, the operands that stay, and those that
/// it takes.
#[derive(Clone, Copy)]
pub struct Left<'a> {
    pub change: Change<'a>,
    pub locals: &'a [VType],
    pub kept: &'a [VType],
    pub taken: &'a [VType],
}

// ---- operands

/// Whether operands are assignable to these.
fn all_fit(program: &Indexed, from: &[VType], to: &[VType]) -> bool
    ensures { result ≡ stack_fits program.now from.now to.now }
{
    let mut from = from;
    let mut to = to;
    while let [t, others @ ..] = from {
        let [first, rest @ ..] = to else {
            return false;
        };
        if !assignable(program, t, first) {
            return false;
        }
        from = others;
        to = rest;
    }
    to.is_empty()
}

/// Whether operands that are changed are assignable to these.
fn changed_fit(program: &Indexed, change: Change, from: &[VType], to: &[VType]) -> bool
    ensures { result ≡ stack_fits program.now (map (change_told change.entry) from.now) to.now }
{
    let mut from = from;
    let mut to = to;
    while let [t, others @ ..] = from {
        let [first, rest @ ..] = to else {
            return false;
        };
        if !borrowed_fits(program, change_told(change, t), first) {
            return false;
        }
        from = others;
        to = rest;
    }
    to.is_empty()
}

/// Whether operands that stay are assignable to these.
fn kept_fit(program: &Indexed, change: Change, from: &[VType], to: &[VType]) -> bool
    ensures { result ≡ stack_fits program.now (map (change_told change.entry) from.now) to.now }
{
    match change {
        Change::Nothing => all_fit(program, from, to),
        _ => changed_fit(program, change, from, to),
    }
}

/// Whether the operands that stay and what is pushed are assignable to these.
fn stack_takes(place: &PlaceRef, left: &Left<'_>, to: &[VType]) -> bool
    ensures { result ≡ stack_fits place.now.program
        (map (change_told left.now.change) left.now.kept.now ++ yields place.now left.now.locals.now left.now.taken.now) to.now }
{
    if to.len() < left.kept.len() {
        return false;
    }
    let (lower, upper) = to.split_at(left.kept.len());
    kept_fit(place.program, left.change, left.kept, lower)
        && yields_fit(place, left.locals, left.taken, upper)
}

// ---- frames

/// Whether what stays and what is pushed is assignable to this frame.
fn frame_takes(place: &PlaceRef, left: &Left<'_>, to: &FrameType) -> bool
    ensures { result ≡ left_fits place.now left.now to.now }
{
    stack_takes(place, left, to.stack.as_slice())
        && locals_take(
            place.program,
            place.shape(),
            left.change,
            left.locals,
            left.taken,
            to.locals.as_slice(),
        )
}

/// Whether the frame afterwards is assignable to this one.
pub fn goes_well(place: &PlaceRef, frame: &FrameType, to: &FrameType) -> bool
    ensures { result ≡ goes_well place.now frame.now to.now }
{
    let (kept, taken) = split_top(frame.stack.as_slice(), count_taken(place));
    let left = Left {
        change: change_of(place, taken),
        locals: frame.locals.as_slice(),
        kept,
        taken,
    };
    frame_takes(place, &left, to)
}

/// Whether the instruction that is gone to has a frame that takes what is left.
fn arrives(frames: &[Option<FrameType>], place: &PlaceRef, left: &Left<'_>, to: usize) -> bool
    ensures { result ≡ arrives frames.now place.now left.now to }
{
    match frame_of(frames, to) {
        Some(told) => frame_takes(place, left, told),
        None => false,
    }
}

fn all_arrive(
    frames: &[Option<FrameType>],
    place: &PlaceRef,
    left: &Left<'_>,
    targets: &[u32],
) -> bool
    ensures { result ≡ list_all (arrives frames.now place.now left.now) targets.now }
{
    for to in targets {
        if !arrives(frames, place, left, *to as usize) {
            return false;
        }
    }
    true
}

fn jumps_arrive(frames: &[Option<FrameType>], place: &PlaceRef, left: &Left<'_>) -> bool
    ensures { result ≡ list_all (arrives frames.now place.now left.now) (jump_targets place.now.insn) }
{
    match place.insn {
        Insn::Branch { to, .. } => arrives(frames, place, left, *to as usize),
        Insn::GotoW { to } => arrives(frames, place, left, *to as usize),
        Insn::Table { other, targets, .. } => {
            arrives(frames, place, left, *other as usize)
                && all_arrive(frames, place, left, targets.as_slice())
        }
        Insn::Lookup { other, targets, .. } => {
            arrives(frames, place, left, *other as usize)
                && all_arrive(frames, place, left, targets.as_slice())
        }
        _ => true,
    }
}

/// Whether each successor has a frame that takes what is left.
fn all_take(frames: &[Option<FrameType>], place: &PlaceRef, left: &Left<'_>) -> bool
    ensures { result ≡ list_all (arrives frames.now place.now left.now) (successors place.now.at place.now.insn) }
{
    if goes_on(place.insn.opcode()) && !arrives(frames, place, left, place.at as usize + 1) {
        return false;
    }
    jumps_arrive(frames, place, left)
}

/// Rule 6, of an instruction that takes these operands, and leaves those.
pub fn is_followed(
    frames: &[Option<FrameType>],
    place: &PlaceRef,
    frame: &FrameType,
    kept: &[VType],
    taken: &[VType],
) -> bool
    requires kept { kept.now ≡ below (length (takes place.now)) frame.now.stack }
    requires taken { taken.now ≡ taken_of place.now frame.now }
    ensures { result ≡ Successor frames.now place.now frame.now }
{
    let left = Left {
        change: change_of(place, taken),
        locals: frame.locals.as_slice(),
        kept,
        taken,
    };
    all_take(frames, place, &left)
}
