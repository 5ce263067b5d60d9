//! A typing becomes canonical: one that a certificate can hold.

ghost use Rattle.std.specs.Prelude.{◌≡◌, ◌<◌, ◌^◌, false, map, IfOk, IsTrue, length};
ghost use Rattle.std.specs.List.{AllByRecursion};
ghost use Rattle.cert_format.specs.Fits.{FitsType, ends_with_top};
ghost use Rattle.cert_maker.specs.Canonical.{
  FitsIfSome,
  FitsTyping,
  canonical,
  canonical_classes,
  canonical_frame,
  canonical_methods,
  has_room,
  if_room,
  trimmed,
};

use bytecode_model::{LinkedClass, Method, Program};
use cert_format::{FrameType, Typing, VType, are_same, copied_types};
use mon_base::{List, NoMemory, SharedList};
use std::alloc::Global;
use std::collections::VecDeque;

/// The canonical typing of the program.
pub fn canonical(alloc: Global, program: &Program, typing: Typing) -> Result<Typing, NoMemory>
    ensures is { IfOk result (λ made. made ≡ canonical program.now typing) }
    // A certificate can hold it.
    ensures fits { IfOk result FitsTyping }
{
    let Typing { frames } = typing;
    let frames = canonical_classes(alloc, program.classes.as_slice(), frames)?;
    Ok(Typing { frames })
}

/// The frames of classes.
fn canonical_classes(
    alloc: Global,
    classes: &[LinkedClass],
    frames: List<List<List<Option<FrameType>>>>,
) -> Result<List<List<List<Option<FrameType>>>>, NoMemory>
    ensures is { IfOk result (λ made. made ≡ canonical_classes classes.now frames) }
    ensures fits { IfOk result (AllByRecursion (AllByRecursion (AllByRecursion FitsIfSome))) }
{
    let mut made = List::new(alloc);
    let mut frames = VecDeque::from_vec(frames.into_vec());
    let mut left = classes;
    while let [class, later @ ..] = left {
        let first = match frames.pop_front() {
            Some(first) => first,
            None => List::new(alloc),
        };
        let one = canonical_methods(alloc, class.methods.as_slice(), first)?;
        made.push(one)?;
        left = later;
    }
    Ok(made)
}

/// The frames of the methods with code.
fn canonical_methods(
    alloc: Global,
    methods: &[Method],
    frames: List<List<Option<FrameType>>>,
) -> Result<List<List<Option<FrameType>>>, NoMemory>
    ensures is { IfOk result (λ made. made ≡ canonical_methods methods.now frames) }
    ensures fits { IfOk result (AllByRecursion (AllByRecursion FitsIfSome)) }
{
    let mut made = List::new(alloc);
    let mut frames = VecDeque::from_vec(frames.into_vec());
    let mut left = methods;
    while let [method, later @ ..] = left {
        if !method.insns.is_empty() {
            let first = match frames.pop_front() {
                Some(first) => first,
                None => List::new(alloc),
            };
            let one = method_told(alloc, method, first)?;
            made.push(one)?;
        }
        left = later;
    }
    Ok(made)
}

/// The frames of a method.
fn method_told(
    alloc: Global,
    method: &Method,
    frames: List<Option<FrameType>>,
) -> Result<List<Option<FrameType>>, NoMemory>
    ensures is { IfOk result (λ made. made ≡ map (canonical_frame method.now) frames) }
    ensures fits { IfOk result (AllByRecursion FitsIfSome) }
{
    let mut made = List::with_room(alloc, frames.len())?;
    for frame in frames.into_vec() {
        let canonical = canonical_frame(alloc, method, made.as_slice(), frame)?;
        made.push(canonical)?;
    }
    Ok(made)
}

/// A canonical frame, if the method has room for it. Where its locals change, it shares those of the last of the frames before.
fn canonical_frame(
    alloc: Global,
    method: &Method,
    before: &[Option<FrameType>],
    frame: Option<FrameType>,
) -> Result<Option<FrameType>, NoMemory>
    ensures is { IfOk result (λ canonical. canonical ≡ canonical_frame method.now frame) }
    ensures fits { IfOk result FitsIfSome }
{
    match frame {
        Some(FrameType { locals, stack }) => {
            let locals = locals_told(alloc, before, locals)?;
            let frame = FrameType { locals, stack };
            Ok(if_room(method, frame))
        }
        None => Ok(None),
    }
}

/// The canonical locals.
#[tactic(auto, using(crate::proofs::Trimmed::trimmed_stays))]
fn locals_told(
    alloc: Global,
    before: &[Option<FrameType>],
    locals: SharedList<VType>,
) -> Result<SharedList<VType>, NoMemory>
    ensures is { IfOk result (λ canonical. canonical ≡ trimmed locals) }
    ensures last { IfOk result (λ canonical. ends_with_top canonical ≡ false) }
{
    if !ends_with_top(locals.as_slice()) {
        return Ok(locals);
    }
    alike(alloc, before, trimmed(locals.as_slice()))
}

/// The types, with those of the last of the frames before where they are the same.
fn alike(
    alloc: Global,
    before: &[Option<FrameType>],
    types: &[VType],
) -> Result<SharedList<VType>, NoMemory>
    ensures { IfOk result (λ made. made ≡ types.now) }
{
    if let Some(Some(frame)) = before.last() {
        if are_same(frame.locals.as_slice(), types) {
            return frame.locals.share();
        }
    }
    SharedList::new(alloc, copied_types(alloc, types, 0)?)
}

/// The frame, where the method has room for it.
fn if_room(method: &Method, frame: FrameType) -> Option<FrameType>
    requires { ends_with_top frame.locals ≡ false }
    ensures is { result ≡ if_room method.now frame }
    ensures fits { FitsIfSome result }
{
    if !has_room(method, &frame) {
        return None;
    }
    are_numbered(frame.locals.as_slice());
    are_numbered(frame.stack.as_slice());
    Some(frame)
}

fn has_room(method: &Method, frame: &FrameType) -> bool
    ensures is { result ≡ has_room method.now frame.now }
    ensures locals { IsTrue result → length frame.now.locals < 2 ^ 16 }
    ensures stack { IsTrue result → length frame.now.stack < 2 ^ 16 }
{
    frame.locals.len() <= method.max_locals as usize
        && frame.stack.len() <= method.max_stack as usize
}

/// The types without the Tops after the last other type.
fn trimmed(types: &[VType]) -> &[VType]
    ensures is { result.now ≡ trimmed types.now }
    ensures last { ends_with_top result.now ≡ false }
{
    let mut kept = types;
    while ends_with_top(kept) {
        kept = &kept[..kept.len() - 1];
    }
    kept
}

fn ends_with_top(types: &[VType]) -> bool
    ensures { result ≡ ends_with_top types.now }
{
    matches!(types.last(), Some(VType::Top))
}

/// Four bytes hold the place that each type tells.
fn are_numbered(types: &[VType])
    ensures { AllByRecursion FitsType types.now }
{
    let mut left = types;
    while let [held, later @ ..] = left {
        is_numbered(held);
        left = later;
    }
}

fn is_numbered(held: &VType)
    ensures { FitsType held.now }
{
    if let VType::Uninit(at) = held {
        let _at = *at;
    }
}
