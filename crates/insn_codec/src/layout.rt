//! Where instructions stand.

ghost use Rattle.std.specs.Prelude.{◌≡◌, ◌++◌, ◌∷◌, ◌-◌, ◌+◌, ◌<◌, ◌≤◌, ◌^◌, replicate, Some, None, IfOk, OnOk};
ghost use Rattle.insn_codec.specs.Encoding.{padding, size, starts_of, len_from};
ghost use Rattle.insn_codec.specs.Reading.{ended};
ghost use Rattle.insn_codec.specs.Targets.{marks_from};

use crate::fault::CodeFault;
use crate::insn::Insn;
use crate::opcode::goes_on;
use mon_base::{List, NoMemory};
use std::alloc::Global;

/// How many bytes an instruction at `at` has.
pub fn size(at: u64, insn: &Insn) -> u64
    requires { size at insn.now < 2 ^ 63 }
    ensures { result ≡ size at insn.now }
{
    let padding = 3 - at % 4;
    match insn {
        Insn::Plain(_) => 1,
        Insn::Byte(_) | Insn::Ldc(_) | Insn::NewArray(_) => 2,
        Insn::Short(_) | Insn::Pool { .. } | Insn::Branch { .. } => 3,
        Insn::Iface { .. } | Insn::GotoW { .. } => 5,
        Insn::Local { wide, .. } => { if *wide { 4 } else { 2 } }
        Insn::Inc { wide, .. } => { if *wide { 6 } else { 3 } }
        Insn::Table { targets, .. } => 13 + padding + 4 * targets.len() as u64,
        Insn::Lookup { targets, .. } => 9 + padding + 8 * targets.len() as u64,
    }
}

/// The positions at which the instructions begin, and then the length of the code in bytes.
pub fn starts(alloc: Global, insns: &[Insn]) -> Result<List<u32>, NoMemory>
    requires { len_from 0 insns.now < 2 ^ 32 }
    ensures { IfOk result (λ starts. starts ≡ starts_of insns.now) }
{
    let mut starts = Vec::new(alloc);
    let mut at: u64 = 0;
    let mut left = insns;
    while let [first, rest @ ..] = left {
        starts.push(at as u32)?;
        at += size(at, first);
        left = rest;
    }
    starts.push(at as u32)?;
    Ok(List::from_vec(starts))
}

/// Marks the bytes of an instruction: the first with its index, the others with nothing.
fn mark(marks: &mut Vec<Option<u32>>, number: u32, len: u64) -> Result<(), NoMemory>
    requires { 1 ≤ len }
    ensures { OnOk result (marks.new.items ≡ marks.old.items ++ (Some number ∷ replicate (len - 1) None)) }
{
    marks.push(Some(number))?;
    for _ in 0..len - 1 {
        marks.push(None)?;
    }
    Ok(())
}

/// For each byte of the code, the index of the instruction that begins there.
pub fn marks(alloc: Global, insns: &[Insn]) -> Result<Vec<Option<u32>>, NoMemory>
    requires { len_from 0 insns.now < 2 ^ 32 }
    ensures { IfOk result (λ marks. marks.items ≡ marks_from 0 0 insns.now) }
{
    let mut marks = Vec::new(alloc);
    let mut number: u32 = 0;
    let mut at: u64 = 0;
    let mut left = insns;
    while let [first, rest @ ..] = left {
        let len = size(at, first);
        mark(&mut marks, number, len)?;
        number += 1;
        at += len;
        left = rest;
    }
    Ok(marks)
}

/// Whether control cannot go on past the last instruction. Else the fault is `End`, at that instruction.
pub fn check_end(insns: &[Insn]) -> Result<(), CodeFault>
    requires { len_from 0 insns.now < 2 ^ 32 }
    ensures { result ≡ ended 0 insns.now }
{
    let mut at: u64 = 0;
    let mut left = insns;
    while let [first, rest @ ..] = left {
        if rest.is_empty() {
            if goes_on(first.opcode()) {
                return Err(CodeFault::End { at });
            }
            return Ok(());
        }
        at += size(at, first);
        left = rest;
    }
    Ok(())
}
