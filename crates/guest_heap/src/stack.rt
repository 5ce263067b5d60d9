//! Operand stacks.

ghost use Rattle.std.specs.Prelude.{◌≡◌, ◌∷◌, [], ◌<◌, ◌≤◌, length, drop, slice_get, IfOk};

use crate::value::Value;
use mon_base::NoMemory;
use std::alloc::Global;
use std::marker::Model;

/// An operand stack, whose memory is taken when it is made. A contract sees its operands, the top first, and its
/// size: how many it holds at most. (The Java Virtual Machine Specification, section 2.6.2.)
#[derive(Drop)]
pub struct Stack {
    items: Vec<Value>,
    size: u16,
}

impl Model for Stack {
    ghost use Rattle.std.specs.Prelude.{◌≤◌, reverse, vec_len, vec_capacity};
    ghost use Rattle.guest_heap.specs.Stack.{Operands};

    ghost Value = { Operands };

    ghost view = { λ s. record { items = reverse s.items.items; size = s.size } };

    ghost invariant = { λ s. (vec_len s.items ≤ s.size) × (s.size ≤ vec_capacity s.items) };
}

impl Stack {
    /// A stack without operands, with all the memory that it will want.
    pub fn new(alloc: Global, size: u16) -> Result<Stack, NoMemory>
        ensures { IfOk result (λ s. s ≡ record { items = []; size = size }) }
    {
        Ok(Stack {
            items: Vec::with_capacity(alloc, size as usize)?,
            size,
        })
    }

    /// Puts the value on top. It takes no memory.
    pub fn push(&mut self, value: Value)
        requires { length self.old.items < self.old.size }
        ensures { self.new ≡ record { items = value ∷ self.old.items; size = self.old.size } }
    {
        self.items.push(value).unwrap()
    }

    /// The operand at this depth, the top at 0; `None` where there are not so many. It takes no memory.
    pub fn get(&self, depth: u8) -> Option<Value>
        ensures there { result ≡ slice_get self.now.items depth }
        ensures few { length self.now.items ≤ self.now.size }
    {
        let place = self.items.len().checked_sub(depth as usize + 1)?;
        Some(self.items[place])
    }

    /// How many operands there are.
    pub fn len(&self) -> usize
        ensures count { result ≡ length self.now.items }
        ensures few { length self.now.items ≤ self.now.size }
    {
        self.items.len()
    }

    /// How many it holds at most.
    pub fn size(&self) -> u16
        ensures { result ≡ self.now.size }
    {
        self.size
    }

    /// Drops the topmost operands, so many, or all. It takes no memory.
    pub fn drop_top(&mut self, count: usize)
        ensures left { self.new ≡ record { items = drop count self.old.items; size = self.old.size } }
        ensures few { length self.old.items ≤ self.old.size }
    {
        self.items.truncate(self.items.len().saturating_sub(count))
    }
}
