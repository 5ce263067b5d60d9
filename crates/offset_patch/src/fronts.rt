//! Where the part of each instruction begins, and where instructions of the output come from.

ghost use Rattle.std.specs.Prelude.{◌≡◌, ◌++◌, ◌<◌, ◌^◌, IfOk, OnOk, length, map, slice_index};
ghost use Rattle.std.specs.List.{AllByRecursion, enumerate_from};
ghost use Rattle.offset_patch.specs.Fits.{IsSite};
ghost use Rattle.offset_patch.specs.Origins.{StandAsTold};
ghost use Rattle.offset_patch.specs.Splicing.{part_of, has_block, fronts_of, count_of, aimed, origin_of, part_origins, origins_of};

use crate::block::{Block, BlockInsn};
use bytecode_model::{Origin, copy_insn, copy_keys};
use insn_codec::Insn;
use mon_base::{BoxedList, List, NoMemory};
use std::alloc::Global;

/// What stands for an instruction that has no block.
const ALONE: &[BlockInsn] = &[BlockInsn::Call];

/// What stands for an instruction: its block, or the instruction alone.
pub fn part_of(site: &Option<Block>) -> &[BlockInsn]
    ensures { result.now ≡ part_of site.now }
{
    match site {
        Some(block) => block.insns.as_slice(),
        None => ALONE,
    }
}

/// Whether one of the instructions has a block.
pub fn has_block(sites: &[Option<Block>]) -> bool
    ensures { result ≡ has_block sites.now }
{
    sites.iter().any(|site| site.is_some())
}

/// How many instructions the parts have.
pub fn count_of(sites: &[Option<Block>]) -> usize
    requires { count_of sites.now < 2 ^ 64 }
    ensures { result ≡ count_of sites.now }
{
    let mut count = 0;
    let mut left = sites;
    while let [site, rest @ ..] = left {
        count += part_of(site).len();
        left = rest;
    }
    count
}

/// Where the part of each instruction begins, and where the last one ends.
pub fn fronts_of(alloc: Global, sites: &[Option<Block>]) -> Result<List<u32>, NoMemory>
    requires { count_of sites.now < 2 ^ 32 }
    ensures { IfOk result (λ fronts. fronts ≡ fronts_of sites.now) }
{
    let mut fronts = List::with_room(alloc, sites.len() + 1)?;
    let mut at: u32 = 0;
    let mut left = sites;
    while let [site, rest @ ..] = left {
        fronts.push(at)?;
        at += part_of(site).len() as u32;
        left = rest;
    }
    fronts.push(at)?;
    Ok(fronts)
}

/// The front of an instruction.
pub fn front(fronts: &[u32], to: u32) -> u32
    ensures { result ≡ slice_index fronts.now to }
{
    match fronts.get(to as usize) {
        Some(front) => *front,
        None => 0,
    }
}

fn all_fronts(alloc: Global, fronts: &[u32], targets: &[u32]) -> Result<BoxedList<u32>, NoMemory>
    ensures { IfOk result (λ all. all ≡ map (slice_index fronts.now) targets.now) }
{
    let mut all = List::with_room(alloc, targets.len())?;
    for to in targets {
        all.push(front(fronts, *to))?;
    }
    BoxedList::new(alloc, all)
}

/// The instruction, with each target at its front.
pub fn aimed(alloc: Global, fronts: &[u32], insn: &Insn) -> Result<Insn, NoMemory>
    ensures { IfOk result (λ other. other ≡ aimed fronts.now insn.now) }
{
    match insn {
        Insn::Branch { op, to } => Ok(Insn::Branch {
            op: *op,
            to: front(fronts, *to),
        }),
        Insn::GotoW { to } => Ok(Insn::GotoW {
            to: front(fronts, *to),
        }),
        Insn::Table {
            other,
            low,
            targets,
        } => Ok(Insn::Table {
            other: front(fronts, *other),
            low: *low,
            targets: all_fronts(alloc, fronts, targets.as_slice())?,
        }),
        Insn::Lookup {
            other,
            keys,
            targets,
        } => Ok(Insn::Lookup {
            other: front(fronts, *other),
            keys: copy_keys(alloc, keys.as_slice())?,
            targets: all_fronts(alloc, fronts, targets.as_slice())?,
        }),
        _ => copy_insn(alloc, insn),
    }
}

/// Where each instruction of the output comes from.
pub fn origins_of(alloc: Global, sites: &[Option<Block>]) -> Result<List<Origin>, NoMemory>
    requires few { length sites.now < 2 ^ 32 }
    requires sites { AllByRecursion IsSite sites.now }
    ensures is { IfOk result (λ origins. origins ≡ origins_of sites.now) }
    // As many as there are instructions with the blocks, each of which stands where its origin tells.
    ensures each { IfOk result (λ origins. length origins ≡ count_of sites.now) }
    ensures stand { IfOk result (StandAsTold sites.now 0) }
{
    let mut origins = List::with_room(alloc, count_of(sites))?;
    let mut site: u32 = 0;
    let mut left = sites;
    while let [first, rest @ ..] = left {
        put_origins(&mut origins, site, part_of(first))?;
        site += 1;
        left = rest;
    }
    Ok(origins)
}

fn put_origins(origins: &mut List<Origin>, site: u32, part: &[BlockInsn]) -> Result<(), NoMemory>
    requires { length part.now < 2 ^ 32 }
    ensures { OnOk result (origins.new ≡ origins.old ++ map (origin_of site) (enumerate_from 0 part.now)) }
{
    let mut place: u32 = 0;
    let mut left = part;
    while let [insn, rest @ ..] = left {
        origins.push(origin_of(site, place, *insn))?;
        place += 1;
        left = rest;
    }
    Ok(())
}

fn origin_of(site: u32, place: u32, insn: BlockInsn) -> Origin
    ensures { result ≡ origin_of site (place, insn) }
{
    match insn {
        BlockInsn::Call => Origin::Client(site),
        _ => Origin::Block { site, place },
    }
}
