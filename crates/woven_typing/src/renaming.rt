//! Types of instructions that stand elsewhere: an object that is not made yet is told by the index of its `new`.

ghost use Rattle.std.specs.Prelude.{◌≡◌, ◌-◌, IfOk, length, map, slice_index};
ghost use Rattle.woven_typing.specs.Framing.{moved_by};
ghost use Rattle.woven_typing.specs.Renaming.{frame_renamed, renamed};

use cert_format::{FrameType, VType};
use mon_base::{List, NoMemory, SharedList};
use std::alloc::Global;

/// Where the instructions of a method stand in the woven one: the front of each of so many, and where the last part ends.
#[derive(Drop)]
pub struct Fronts {
    pub list: List<u32>,
    pub count: usize,
}

impl Fronts {
    /// Where the last part ends.
    pub fn end(&self) -> usize
        ensures { result ≡ slice_index self.now.list (length self.now.list - 1) }
    {
        let fronts = self.list.as_slice();
        front(fronts, fronts.len().saturating_sub(1)) as usize
    }
}

fn front(fronts: &[u32], at: usize) -> u32
    ensures { result ≡ slice_index fronts.now at }
{
    match fronts.get(at) {
        Some(front) => *front,
        None => 0,
    }
}

/// By how much the code has grown.
fn growth(last: u32, count: usize) -> u32
    ensures { result ≡ last - count }
{
    (last as usize).saturating_sub(count) as u32
}

/// Where what stands at the index stands now. An index in a typing may be any of 32 bits: that those of a typed method stand in
/// its code is not among what is known of typings, so one far after the code is answered as want of memory.
fn moved(fronts: &Fronts, at: u32) -> Result<u32, NoMemory>
    ensures { IfOk result (λ to. to ≡ moved_by fronts.now.list fronts.now.count at) }
{
    let list = fronts.list.as_slice();
    if (at as usize) < fronts.count {
        return Ok(front(list, at as usize));
    }
    let more = growth(front(list, fronts.count), fronts.count);
    match at.checked_add(more) {
        Some(to) => Ok(to),
        None => Err(NoMemory),
    }
}

fn renamed(fronts: &Fronts, t: &VType) -> Result<VType, NoMemory>
    ensures { IfOk result (λ made. made ≡ renamed (moved_by fronts.now.list fronts.now.count) t.now) }
{
    match t {
        VType::Uninit(at) => Ok(VType::Uninit(moved(fronts, *at)?)),
        _ => t.share(),
    }
}

fn all_renamed(alloc: Global, fronts: &Fronts, types: &[VType]) -> Result<List<VType>, NoMemory>
    ensures { IfOk result (λ made. made ≡ map (renamed (moved_by fronts.now.list fronts.now.count)) types.now) }
{
    let mut made = List::with_room(alloc, types.len())?;
    for t in types {
        let one = renamed(fronts, t)?;
        made.push(one)?;
    }
    Ok(made)
}

/// The frame, where each index has become another.
pub fn frame_renamed(
    alloc: Global,
    fronts: &Fronts,
    frame: &FrameType,
) -> Result<FrameType, NoMemory>
    ensures { IfOk result (λ made. made ≡ frame_renamed (moved_by fronts.now.list fronts.now.count) frame.now) }
{
    let locals = all_renamed(alloc, fronts, frame.locals.as_slice())?;
    let locals = SharedList::new(alloc, locals)?;
    let stack = all_renamed(alloc, fronts, frame.stack.as_slice())?;
    Ok(FrameType { locals, stack })
}
