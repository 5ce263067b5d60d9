//! The exception table of a method with blocks.

ghost use Rattle.std.specs.Prelude.{◌≡◌, ◌+◌, ◌++◌, ◌<◌, ◌≤◌, ◌^◌, OnOk, IfOk, length, slice_index};
ghost use Rattle.std.specs.List.{AllByRecursion};
ghost use Rattle.mon_base.specs.Widths.{IsU2};
ghost use Rattle.offset_patch.specs.Fits.{IsSite};
ghost use Rattle.offset_patch.specs.Splicing.{part_of, count_of, is_call, call_place, handler_of};
ghost use Rattle.offset_patch.specs.Splicing.{catching, own_entry, site_entries, own_entries};
ghost use Rattle.offset_patch.specs.Splicing.{moved, table_moved};

use crate::block::{Block, BlockInsn};
use crate::fronts::{front, part_of};
use bytecode_model::Handler;
use class_codec::TableEntry;
use mon_base::{List, NoMemory};
use std::alloc::Global;

/// The entries of the blocks, and after them those that the table had.
pub fn table_spliced(
    alloc: Global,
    starts: &[u32],
    fronts: &[u32],
    sites: &[Option<Block>],
    handlers: &[Handler],
    entries: &[TableEntry],
) -> Result<List<TableEntry>, NoMemory>
    requires starts { AllByRecursion IsU2 starts.now }
    requires sites { AllByRecursion IsSite sites.now }
    requires few { count_of sites.now < 2 ^ 16 }
    ensures { IfOk result (λ table. table
        ≡ own_entries starts.now 0 sites.now ++ table_moved starts.now fronts.now handlers.now entries.now) }
{
    let rows = catching(sites) as usize + entries.len();
    let mut table = List::with_room(alloc, rows)?;
    put_own(&mut table, starts, sites)?;
    put_moved(&mut table, starts, fronts, handlers, entries)?;
    Ok(table)
}

// ---- entries of blocks

/// How many blocks catch what their call throws.
pub fn catching(sites: &[Option<Block>]) -> u64
    ensures is { result ≡ catching sites.now }
    ensures bound { result ≤ length sites.now }
{
    let mut count = 0;
    let mut left = sites;
    while let [site, rest @ ..] = left {
        if handler_of(site).is_some() {
            count += 1;
        }
        left = rest;
    }
    count
}

fn handler_of(site: &Option<Block>) -> Option<u32>
    ensures { result ≡ handler_of site.now }
{
    match site {
        Some(block) => block.handler,
        None => None,
    }
}

/// Appends an entry for each block that catches what its call throws.
fn put_own(
    table: &mut List<TableEntry>,
    starts: &[u32],
    sites: &[Option<Block>],
) -> Result<(), NoMemory>
    requires starts { AllByRecursion IsU2 starts.now }
    requires sites { AllByRecursion IsSite sites.now }
    requires few { count_of sites.now < 2 ^ 16 }
    ensures { OnOk result (table.new ≡ table.old ++ own_entries starts.now 0 sites.now) }
{
    let mut begin: u32 = 0;
    let mut left = sites;
    while let [site, rest @ ..] = left {
        put_entry(table, starts, begin, site)?;
        begin += part_of(site).len() as u32;
        left = rest;
    }
    Ok(())
}

fn put_entry(
    table: &mut List<TableEntry>,
    starts: &[u32],
    begin: u32,
    site: &Option<Block>,
) -> Result<(), NoMemory>
    requires starts { AllByRecursion IsU2 starts.now }
    requires site { IsSite site.now }
    requires few { begin + length (part_of site.now) < 2 ^ 16 }
    ensures { OnOk result (table.new ≡ table.old ++ site_entries starts.now begin site.now) }
{
    if let Some(block) = site {
        if let Some(place) = block.handler {
            table.push(own_entry(starts, begin, block.insns.as_slice(), place))?;
        }
    }
    Ok(())
}

/// A block that begins at `begin` catches at this place of it what its call throws.
fn own_entry(starts: &[u32], begin: u32, insns: &[BlockInsn], place: u32) -> TableEntry
    requires starts { AllByRecursion IsU2 starts.now }
    requires few { length insns.now < 2 ^ 30 }
    requires begin { begin < 2 ^ 30 }
    requires place { place < 2 ^ 30 }
    ensures { result ≡ own_entry starts.now begin insns.now place }
{
    let call = begin + call_place(insns);
    TableEntry {
        from: start(starts, call),
        to: start(starts, call + 1),
        at: start(starts, begin + place),
        class: 0,
    }
}

/// The place of the client's instruction.
pub fn call_place(insns: &[BlockInsn]) -> u32
    requires { length insns.now < 2 ^ 30 }
    ensures is { result ≡ call_place insns.now }
    ensures bound { result ≤ length insns.now }
{
    let mut place = 0;
    let mut left = insns;
    while let [insn, rest @ ..] = left {
        if is_call(insn) {
            return place;
        }
        place += 1;
        left = rest;
    }
    place
}

fn is_call(insn: &BlockInsn) -> bool
    ensures { result ≡ is_call insn.now }
{
    match insn {
        BlockInsn::Call => true,
        _ => false,
    }
}

// ---- the entries that the table had

/// Appends the entries of an exception table, each over the fronts of what it covered.
fn put_moved(
    table: &mut List<TableEntry>,
    starts: &[u32],
    fronts: &[u32],
    handlers: &[Handler],
    entries: &[TableEntry],
) -> Result<(), NoMemory>
    requires { AllByRecursion IsU2 starts.now }
    ensures { OnOk result (table.new ≡ table.old ++ table_moved starts.now fronts.now handlers.now entries.now) }
{
    let mut covers = handlers;
    let mut left = entries;
    while let [handler, handlers @ ..] = covers {
        let [entry, rest @ ..] = left else {
            return Ok(());
        };
        table.push(moved(starts, fronts, handler, entry))?;
        covers = handlers;
        left = rest;
    }
    Ok(())
}

fn moved(starts: &[u32], fronts: &[u32], handler: &Handler, entry: &TableEntry) -> TableEntry
    requires { AllByRecursion IsU2 starts.now }
    ensures { result ≡ moved starts.now fronts.now (handler.now, entry.now) }
{
    TableEntry {
        from: start(starts, front(fronts, handler.from)),
        to: start(starts, front(fronts, handler.to)),
        at: start(starts, front(fronts, handler.at)),
        class: entry.class,
    }
}

/// Where an instruction begins, in two bytes.
pub fn start(starts: &[u32], at: u32) -> u16
    requires { AllByRecursion IsU2 starts.now }
    ensures { result ≡ slice_index starts.now at }
{
    match starts.get(at as usize) {
        Some(start) => *start as u16,
        None => 0,
    }
}
