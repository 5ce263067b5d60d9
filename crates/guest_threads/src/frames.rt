//! Frames that go on, and frames that begin.

ghost use Rattle.std.specs.Option.{option_to_list};
ghost use Rattle.std.specs.Prelude.{
  IfOk,
  IfSome,
  OnOk,
  Err,
  Some,
  drop,
  length,
  nat_lt,
  not,
  option_copied,
  replicate,
  ◌++◌,
  ◌+◌,
  ◌-◌,
  ◌<◌,
  ◌^◌,
  ◌≡◌,
  ◌≢◌,
};
ghost use Rattle.guest_frames.specs.Stepping.{after, moved_to};
ghost use Rattle.guest_heap.specs.declared.value.Value.TheVariants as values;
ghost use Rattle.guest_model.specs.Changes.{frame_of, lock_of};
ghost use Rattle.guest_model.specs.Places.{method_at};
ghost use Rattle.guest_model.specs.Ready.{IsReady};
ghost use Rattle.guest_model.specs.declared.fault.StepFault.TheVariants as faults;
ghost use Rattle.guest_threads.specs.Acts.{CanGoOn};
ghost use Rattle.guest_threads.specs.Becomes.{Becomes};

use bytecode_model::{Method, Program, is_synchronized};
use guest_heap::{Frame, Stack, Value};
use guest_model::StepFault;
use mon_base::{List, NoMemory};
use std::alloc::Global;
use type_lattice::Indexed;

/// Whether there is room for the result once so many operands are taken.
fn has_room(stack: &Stack, taken: usize, value: Option<Value>) -> bool
    ensures { result ≡ not (nat_lt stack.now.size (length (option_to_list value ++ drop taken stack.now.items))) }
{
    let left = stack.len().saturating_sub(taken);
    let most = stack.size() as usize;
    if value.is_none() {
        return left <= most;
    }
    left < most
}

/// Where the frame goes on after its instruction, which takes so many operands and leaves the result above the others; that is
/// not enabled where there is no room.
pub fn place_after(frame: &Frame, taken: usize, value: Option<Value>) -> Result<u32, StepFault>
    ensures is { CanGoOn result frame.now (option_to_list value ++ drop taken frame.now.stack.items) }
    ensures surely { frame.now.at < 2 ^ 32 - 1 → result ≢ Err faults.Memory }
{
    if !has_room(&frame.stack, taken, value) {
        return Err(StepFault::NotEnabled);
    }
    match frame.at.checked_add(1) {
        Some(at) => Ok(at),
        None => Err(StepFault::Memory),
    }
}

/// The frame goes on there.
pub fn go_to(frame: &mut Frame, at: u32, taken: usize, value: Option<Value>)
    requires { after frame.old (option_to_list value ++ drop taken frame.old.stack.items)
        ≡ Some (moved_to frame.old at frame.old.locals (option_to_list value ++ drop taken frame.old.stack.items)) }
    ensures { frame.new ≡ moved_to frame.old at frame.old.locals (option_to_list value ++ drop taken frame.old.stack.items) }
{
    frame.at = at;
    frame.stack.drop_top(taken);
    if let Some(value) = value {
        frame.stack.push(value);
    }
}

/// The frame goes on after its instruction, which took so many operands, with the result above the others; that is not
/// enabled where there is no room.
pub fn go_on(frame: &mut Frame, taken: usize, value: Option<Value>) -> Result<(), StepFault>
    ensures is { Becomes result frame.old frame.new (after frame.old (option_to_list value ++ drop taken frame.old.stack.items)) }
    ensures surely { frame.old.at < 2 ^ 32 - 1 → result ≢ Err faults.Memory }
{
    let at = place_after(frame, taken, value)?;
    go_to(frame, at, taken, value);
    Ok(())
}

/// The method with these indices.
pub fn method_at(program: &Program, class: u32, index: u32) -> Option<&Method>
    ensures { option_copied result ≡ method_at program.now class index }
{
    let Some(of) = program.classes.as_slice().get(class as usize) else {
        return None;
    };
    of.methods.as_slice().get(index as usize)
}

/// The method with these indices; a class that has one is among few.
pub fn method_of<'a>(program: &'a Indexed, class: u32, index: u32) -> Option<&'a Method>
    requires { IsReady program.now }
    ensures is { option_copied result ≡ method_at program.now class index }
    ensures few { IfSome (option_copied result) (λ method. class < 2 ^ 16) }
{
    method_at(program.program(), class, index)
}

/// The monitor that a synchronized method takes: that of its receiver, or else of the object of its class.
pub fn lock_of(
    program: &Indexed,
    class: u32,
    method: &Method,
    receiver: Option<Value>,
) -> Option<Value>
    requires ready { IsReady program.now }
    requires few { class < 2 ^ 16 }
    ensures { result ≡ lock_of program.now class method.now receiver }
{
    if !is_synchronized(method.flags) {
        return None;
    }
    match receiver {
        Some(value) => Some(value),
        None => Some(Value::Class(listed_classes(program) + class)),
    }
}

/// How many classes the listing has.
fn listed_classes(program: &Indexed) -> u32
    requires { IsReady program.now }
    ensures is { result ≡ length program.now.listing.classes }
    ensures few { result < 2 ^ 16 }
{
    program.program().listing.classes.len() as u32
}

/// A frame of the method, whose locals after its arguments are null.
pub fn frame_of(
    alloc: Global,
    program: &Indexed,
    class: u32,
    index: u32,
    method: &Method,
    receiver: Option<Value>,
    arguments: &[Value],
) -> Result<Frame, NoMemory>
    requires ready { IsReady program.now }
    requires few { class < 2 ^ 16 }
    ensures { IfOk result (λ frame. frame ≡ frame_of program.now (class, index) method.now receiver arguments.now) }
{
    let locals = locals_of(alloc, method.max_locals, receiver, arguments)?;
    let stack = Stack::new(alloc, method.max_stack)?;
    Ok(Frame {
        class,
        method: index,
        at: 0,
        locals,
        stack,
        lock: lock_of(program, class, method, receiver),
    })
}

/// The locals of a new frame: what it takes, and then null, so many in all.
fn locals_of(
    alloc: Global,
    count: u16,
    receiver: Option<Value>,
    arguments: &[Value],
) -> Result<List<Value>, NoMemory>
    ensures { IfOk result (λ locals. locals ≡ (option_to_list receiver ++ arguments.now)
        ++ replicate (count - length (option_to_list receiver ++ arguments.now)) values.Null) }
{
    let mut locals = List::new(alloc);
    if let Some(value) = receiver {
        locals.push(value)?;
    }
    push_all(&mut locals, arguments)?;
    let missing = (count as usize).saturating_sub(locals.len());
    push_nulls(&mut locals, missing)?;
    Ok(locals)
}

/// Appends the values.
fn push_all(locals: &mut List<Value>, values: &[Value]) -> Result<(), NoMemory>
    ensures { OnOk result (locals.new ≡ locals.old ++ values.now) }
{
    for value in values {
        locals.push(*value)?;
    }
    Ok(())
}

/// Appends null so many times.
fn push_nulls(locals: &mut List<Value>, count: usize) -> Result<(), NoMemory>
    ensures { OnOk result (locals.new ≡ locals.old ++ replicate count values.Null) }
{
    for done in 0..count {
        locals.push(Value::Null)?;
    }
    Ok(())
}
