//! What calls take from the operands.

ghost use Rattle.std.specs.Prelude.{IfOk, option_map, reverse, take, ◌≡◌};
ghost use Rattle.guest_model.specs.Calls.{taken, taken_instance, taken_static};
ghost use Rattle.guest_threads.specs.Calls.{taken_from, told_of};

use guest_heap::{Stack, Value};
use mon_base::{List, NoMemory};
use std::alloc::Global;

/// A call under way: the number of its thread, and what it takes from the operands.
#[derive(Drop)]
pub struct Call {
    pub number: u32,
    /// The receiver, where the method has one.
    pub receiver: Option<Value>,
    /// The other arguments, the first of them first.
    pub arguments: List<Value>,
    /// How many operands these are.
    pub taken: usize,
}

/// What a call of a method with so many arguments takes; nothing where there are not so many operands.
pub fn pass(
    alloc: Global,
    number: u32,
    is_static: bool,
    count: u8,
    stack: &Stack,
) -> Result<Option<Call>, NoMemory>
    ensures taken { IfOk result (λ call. option_map (taken_from stack.now.items) call ≡ taken is_static count stack.now.items) }
    ensures number { IfOk result (λ call. told_of number call) }
{
    if is_static {
        pass_static(alloc, number, count, stack)
    } else {
        pass_instance(alloc, number, count, stack)
    }
}

/// The same of a static method.
fn pass_static(
    alloc: Global,
    number: u32,
    count: u8,
    stack: &Stack,
) -> Result<Option<Call>, NoMemory>
    ensures taken { IfOk result (λ call. option_map (taken_from stack.now.items) call ≡ taken_static count stack.now.items) }
    ensures number { IfOk result (λ call. told_of number call) }
{
    let taken = count as usize;
    if taken > stack.len() {
        return Ok(None);
    }
    let arguments = arguments_of(alloc, count, stack)?;
    Ok(Some(Call {
        number,
        receiver: None,
        arguments,
        taken,
    }))
}

/// The same of a method with a receiver.
fn pass_instance(
    alloc: Global,
    number: u32,
    count: u8,
    stack: &Stack,
) -> Result<Option<Call>, NoMemory>
    ensures taken { IfOk result (λ call. option_map (taken_from stack.now.items) call ≡ taken_instance count stack.now.items) }
    ensures number { IfOk result (λ call. told_of number call) }
{
    let Some(receiver) = stack.get(count) else {
        return Ok(None);
    };
    let arguments = arguments_of(alloc, count, stack)?;
    Ok(Some(Call {
        number,
        receiver: Some(receiver),
        arguments,
        taken: count as usize + 1,
    }))
}

/// So many operands, the top one last.
fn arguments_of(alloc: Global, count: u8, stack: &Stack) -> Result<List<Value>, NoMemory>
    ensures { IfOk result (λ arguments. arguments ≡ reverse (take count stack.now.items)) }
{
    let mut arguments = List::new(alloc);
    let mut left = count;
    while left > 0 {
        left -= 1;
        if let Some(value) = stack.get(left) {
            arguments.push(value)?;
        }
    }
    Ok(arguments)
}
