//! Types and frames that share what is the same in them.

ghost use Rattle.std.specs.Prelude.{◌≡◌, ◌∷◌, [], ◌++◌, IfOk, IsTrue, OnOk};

use crate::typing::{FrameType, VType};
use mon_base::{List, NoMemory};
use std::alloc::Global;

/// Appends the types, with the same names.
pub fn put_types(out: &mut List<VType>, types: &[VType]) -> Result<(), NoMemory>
    ensures { OnOk result (out.new ≡ out.old ++ types.now) }
{
    for t in types {
        out.push(t.share()?)?;
    }
    Ok(())
}

/// The types, with the same names, in a list that takes so many more without being moved.
pub fn copied_types(alloc: Global, types: &[VType], more: usize) -> Result<List<VType>, NoMemory>
    ensures { IfOk result (λ made. made ≡ types.now) }
{
    let mut made = List::with_room(alloc, types.len().saturating_add(more))?;
    put_types(&mut made, types)?;
    Ok(made)
}

/// Whether both are the same type.
fn is_same(a: &VType, b: &VType) -> bool
    ensures { IsTrue result → a.now ≡ b.now }
{
    a == b
}

/// Whether both are the same types.
pub fn are_same(a: &[VType], b: &[VType]) -> bool
    ensures { IsTrue result → a.now ≡ b.now }
{
    let mut a = a;
    let mut b = b;
    while let [first, later @ ..] = a {
        let [other, rest @ ..] = b else {
            return false;
        };
        if !is_same(first, other) {
            return false;
        }
        a = later;
        b = rest;
    }
    b.is_empty()
}

/// The frame, with the locals of the one before where they are the same.
fn alike(before: &FrameType, frame: FrameType) -> Result<FrameType, NoMemory>
    ensures { IfOk result (λ made. made ≡ frame) }
{
    if are_same(before.locals.as_slice(), frame.locals.as_slice()) {
        let locals = before.locals.share()?;
        let FrameType { stack, .. } = frame;
        Ok(FrameType { locals, stack })
    } else {
        Ok(frame)
    }
}

/// The frame, with the locals of the last of these where they are the same.
fn like_last(
    frames: &[Option<FrameType>],
    frame: Option<FrameType>,
) -> Result<Option<FrameType>, NoMemory>
    ensures { IfOk result (λ made. made ≡ frame) }
{
    let Some(Some(before)) = frames.last() else {
        return Ok(frame);
    };
    match frame {
        Some(frame) => Ok(Some(alike(before, frame)?)),
        None => Ok(None),
    }
}

/// Appends the frame, which shares the locals of the one before where they are the same.
pub fn push_frame(
    frames: &mut List<Option<FrameType>>,
    frame: Option<FrameType>,
) -> Result<(), NoMemory>
    ensures { OnOk result (frames.new ≡ frames.old ++ frame ∷ []) }
{
    let frame = like_last(frames.as_slice(), frame)?;
    frames.push(frame)
}
