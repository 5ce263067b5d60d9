//! The handlers of a method with its blocks.

ghost use Rattle.std.specs.Prelude.{◌≡◌, ◌+◌, ◌++◌, ◌<◌, ◌^◌, IfOk, OnOk, length, map};
ghost use Rattle.std.specs.List.{AllByRecursion};
ghost use Rattle.offset_patch.specs.Fits.{IsSite};
ghost use Rattle.offset_patch.specs.Splicing.{count_of, part_of};
ghost use Rattle.offset_patch.specs.Splicing.{at_fronts, handlers_with, own_handler, own_handlers, site_handlers};

use crate::block::{Block, BlockInsn};
use crate::fronts::{front, fronts_of, part_of};
use crate::tables::{call_place, catching};
use bytecode_model::Handler;
use class_codec::Copied;
use mon_base::{List, NoMemory};
use std::alloc::Global;

/// The handlers of a method with these blocks: first those of the blocks, in their order, and then those that it had, each with its
/// bounds and its target at their fronts.
pub fn rewrite(
    alloc: Global,
    handlers: &[Handler],
    sites: &[Option<Block>],
) -> Result<List<Handler>, NoMemory>
    requires sites { AllByRecursion IsSite sites.now }
    requires few { count_of sites.now < 2 ^ 16 }
    ensures { IfOk result (λ list. list ≡ handlers_with sites.now handlers.now) }
{
    let fronts = fronts_of(alloc, sites)?;
    handlers_with(alloc, fronts.as_slice(), sites, handlers)
}

/// The handlers of the blocks, and after them those that the method had, each at its fronts.
pub fn handlers_with(
    alloc: Global,
    fronts: &[u32],
    sites: &[Option<Block>],
    handlers: &[Handler],
) -> Result<List<Handler>, NoMemory>
    requires sites { AllByRecursion IsSite sites.now }
    requires few { count_of sites.now < 2 ^ 16 }
    ensures { IfOk result (λ list. list ≡ own_handlers 0 sites.now ++ map (at_fronts fronts.now) handlers.now) }
{
    let count = catching(sites) as usize + handlers.len();
    let mut list = List::with_room(alloc, count)?;
    put_own(&mut list, sites)?;
    put_moved(alloc, &mut list, fronts, handlers)?;
    Ok(list)
}

/// Appends a handler for each block that catches what its call throws.
fn put_own(list: &mut List<Handler>, sites: &[Option<Block>]) -> Result<(), NoMemory>
    requires sites { AllByRecursion IsSite sites.now }
    requires few { count_of sites.now < 2 ^ 16 }
    ensures { OnOk result (list.new ≡ list.old ++ own_handlers 0 sites.now) }
{
    let mut begin: u32 = 0;
    let mut left = sites;
    while let [site, rest @ ..] = left {
        put_site(list, begin, site)?;
        begin += part_of(site).len() as u32;
        left = rest;
    }
    Ok(())
}

fn put_site(list: &mut List<Handler>, begin: u32, site: &Option<Block>) -> Result<(), NoMemory>
    requires site { IsSite site.now }
    requires few { begin + length (part_of site.now) < 2 ^ 16 }
    ensures { OnOk result (list.new ≡ list.old ++ site_handlers begin site.now) }
{
    if let Some(block) = site {
        if let Some(place) = block.handler {
            list.push(own_handler(begin, block.insns.as_slice(), place))?;
        }
    }
    Ok(())
}

/// A block that begins at `begin` catches at this place of it what its call throws.
fn own_handler(begin: u32, insns: &[BlockInsn], place: u32) -> Handler
    requires few { length insns.now < 2 ^ 30 }
    requires begin { begin < 2 ^ 30 }
    requires place { place < 2 ^ 30 }
    ensures { result ≡ own_handler begin insns.now place }
{
    let call = begin + call_place(insns);
    Handler {
        from: call,
        to: call + 1,
        at: begin + place,
        class: None,
    }
}

/// Appends the handlers, each over the fronts of what it covered.
fn put_moved(
    alloc: Global,
    list: &mut List<Handler>,
    fronts: &[u32],
    handlers: &[Handler],
) -> Result<(), NoMemory>
    ensures { OnOk result (list.new ≡ list.old ++ map (at_fronts fronts.now) handlers.now) }
{
    for handler in handlers {
        let one = at_fronts(alloc, fronts, handler)?;
        list.push(one)?;
    }
    Ok(())
}

/// The handler with its bounds and its target at their fronts.
fn at_fronts(alloc: Global, fronts: &[u32], handler: &Handler) -> Result<Handler, NoMemory>
    ensures { IfOk result (λ moved. moved ≡ at_fronts fronts.now handler.now) }
{
    let Handler {
        from,
        to,
        at,
        class,
    } = handler.copy(alloc)?;
    Ok(Handler {
        from: front(fronts, from),
        to: front(fronts, to),
        at: front(fronts, at),
        class,
    })
}
