//! The exception table of a method, by indices of instructions. (The Java Virtual Machine Specification, section 4.7.3.)

ghost use Rattle.std.specs.Prelude.{◌≡◌, ◌<◌, ◌^◌, IfOk, ok_or};
ghost use Rattle.insn_codec.specs.Encoding.{len_from, starts_of};
ghost use Rattle.class_linking.specs.declared.fault.LinkFault.TheVariants.{Operand};
ghost use Rattle.mon_base.specs.Answer.{Answers};
ghost use Rattle.bytecode_model.specs.Starts.{index_at, insn_at};
ghost use Rattle.class_linking.specs.Handlers.{caught, handler_linked, handlers_linked};

use crate::fault::LinkFault;
use crate::operands::{class_linked, operand_fault_told};
use bytecode_model::{Handler, copy_class};
use class_codec::{Const, TableEntry};
use class_index::Index;
use insn_codec::{Insn, starts};
use mon_base::{Bytes, List, NoMemory};
use std::alloc::Global;
use std::marker::Model;

/// Where the instructions of a code begin and where it ends, found by the byte. A contract sees the list.
#[derive(Drop)]
pub struct Starts {
    list: List<u32>,
}

impl Model for Starts {
    ghost use Rattle.std.specs.Prelude.{ℕ, List};
    ghost use Rattle.class_linking.specs.Handlers.{RisesFrom};

    ghost Value = { List ℕ };

    ghost view = { λ s. s.list };

    ghost invariant = { λ s. RisesFrom 0 s.list };
}

impl Starts {
    /// Where the instructions begin, and where the code ends.
    pub fn new(alloc: Global, insns: &[Insn]) -> Result<Starts, NoMemory>
        requires { len_from 0 insns.now < 2 ^ 31 }
        ensures { IfOk result (λ starts. starts ≡ starts_of insns.now) }
    {
        let list = starts(alloc, insns)?;
        Ok(Starts { list })
    }

    /// The index of the instruction that begins at the byte, or the number of instructions for the end.
    pub fn index_at(&self, byte: u16) -> Option<u32>
        ensures { result ≡ index_at self.now byte }
    {
        match self.list.as_slice().binary_search(&u32::from(byte)) {
            Ok(place) => Some(place as u32),
            Err(_) => None,
        }
    }

    /// The index of the instruction that begins at the byte.
    pub fn insn_at(&self, byte: u16) -> Option<u32>
        ensures { result ≡ insn_at self.now byte }
    {
        let index = self.index_at(byte)?;
        if (index as usize) < self.list.len() && self.list.len() - (index as usize) > 1 {
            Some(index)
        } else {
            None
        }
    }
}

/// The handlers of a code, or the first entry that is refused; it is told after the instructions.
pub fn handlers_linked(
    alloc: Global,
    index: &Index,
    class: &Bytes,
    pool: &[Const],
    method: u32,
    end: u32,
    starts: &Starts,
    entries: &[TableEntry],
) -> Result<List<Handler>, LinkFault>
    ensures { Answers LinkFault.Memory result
        (handlers_linked index.now.files index.now.listing class.now pool.now method end starts.now entries.now) }
{
    let mut handlers = Vec::with_capacity(alloc, entries.len())?;
    let mut left = entries;
    while let [entry, rest @ ..] = left {
        let handler = handler_linked(alloc, index, class, pool, method, end, starts, entry)?;
        handlers.push(handler)?;
        left = rest;
    }
    Ok(List::from_vec(handlers))
}

fn handler_linked(
    alloc: Global,
    index: &Index,
    class: &Bytes,
    pool: &[Const],
    method: u32,
    end: u32,
    starts: &Starts,
    entry: &TableEntry,
) -> Result<Handler, LinkFault>
    ensures { Answers LinkFault.Memory result
        (handler_linked index.now.files index.now.listing class.now pool.now method end starts.now entry.now) }
{
    let from = stands_at(alloc, class, method, end, starts.insn_at(entry.from))?;
    let to = stands_at(alloc, class, method, end, starts.index_at(entry.to))?;
    let at = stands_at(alloc, class, method, end, starts.insn_at(entry.at))?;
    let caught = caught(alloc, index, class, pool, method, end, entry.class)?;
    Ok(Handler {
        from,
        to,
        at,
        class: caught,
    })
}

fn stands_at(
    alloc: Global,
    class: &Bytes,
    method: u32,
    at: u32,
    place: Option<u32>,
) -> Result<u32, LinkFault>
    ensures { Answers LinkFault.Memory result (ok_or place (Operand class.now method at)) }
{
    match place {
        Some(index) => Ok(index),
        None => {
            let class = class.copy(alloc)?;
            Err(LinkFault::Operand { class, method, at })
        }
    }
}

/// The class that is caught, or nothing for any.
fn caught(
    alloc: Global,
    index: &Index,
    class: &Bytes,
    pool: &[Const],
    method: u32,
    at: u32,
    constant: u16,
) -> Result<Option<Bytes>, LinkFault>
    ensures { Answers LinkFault.Memory result (caught index.now.files index.now.listing class.now pool.now method at constant) }
{
    if constant == 0 {
        return Ok(None);
    }
    let name = copy_class(alloc, pool, constant)?;
    match class_linked(alloc, index, true, name) {
        Ok(_) => {
            let name = copy_class(alloc, pool, constant)?;
            Ok(Some(name))
        }
        Err(fault) => Err(operand_fault_told(alloc, class, method, at, fault)),
    }
}
