//! The code of a method with its blocks.

ghost use Rattle.std.specs.Prelude.{◌≡◌, ◌+◌, ◌≤◌, ◌<◌, ◌^◌, ◌∷◌, ◌++◌, [], ℕ, IfOk, OnOk, Some, if◌then◌else◌};
ghost use Rattle.std.specs.Prelude.{length, map, option_and_then, option_copied, slice_get};
ghost use Rattle.std.specs.BTreeMap.{get};
ghost use Rattle.std.specs.Ordering.{is_eq, nat_cmp};
ghost use Rattle.std.specs.List.{AllByRecursion, list_any};
ghost use Rattle.bytecode_model.specs.Sound.{IsSoundMethod};
ghost use Rattle.mon_base.specs.Answer.{AnswersAs};
ghost use Rattle.offset_patch.specs.Fits.{IsSite};
ghost use Rattle.class_weaving.specs.Known.{AreMade};
ghost use Rattle.class_weaving.specs.Woven.{is_woven, sites_of, most_locals, locals_of, clients_from, as_it_is};
ghost use Rattle.class_weaving.specs.Woven.{with_blocks, blocks_put, code_woven};

use bytecode_model::{Method, Origin, Target};
use class_codec::{Code, Copied, copy_list};
use insn_codec::Insn;
use mon_base::{Bytes, List, NoMemory};
use offset_patch::{Block, Entries, Planner, SpliceFault, Spliced, room, splice};
use std::alloc::Global;
use std::collections::BTreeMap;

/// A method with its blocks, and its code. The constants that the blocks need are added.
pub fn code_woven<P: Planner>(
    alloc: Global,
    planner: &P,
    state: u32,
    class: &Bytes,
    number: u32,
    entries: &mut Entries,
    method: &Method,
    code: &Code,
) -> Result<Spliced, SpliceFault>
    requires method { IsSoundMethod method.now }
    requires pool { length entries.old < 2 ^ 16 }
    ensures is { AnswersAs SpliceFault.Memory (λ made. record { made = made; entries = entries.new }) result
        (code_woven (P.plan planner.now) state class.now number entries.old method.now code.now) }
    ensures pool { OnOk result (length entries.new < 2 ^ 16) }
{
    if is_woven(planner, method) {
        return blocks_put(alloc, planner, state, class, number, entries, method, code);
    }
    let made = as_it_is(alloc, method, code)?;
    Ok(made)
}

/// A method without a block stays as it is.
fn as_it_is(alloc: Global, method: &Method, code: &Code) -> Result<Spliced, NoMemory>
    requires { length method.now.insns < 2 ^ 16 }
    ensures { IfOk result (λ made. made ≡ as_it_is method.now code.now) }
{
    let origins = clients(alloc, method.insns.as_slice())?;
    let code = copy_code(alloc, code)?;
    let method = method.copy(alloc)?;
    Ok(Spliced {
        method,
        origins,
        code,
    })
}

/// Whether one of the instructions has a block.
pub fn is_woven<P: Planner>(planner: &P, method: &Method) -> bool
    ensures { result ≡ is_woven (P.plan planner.now) method.now }
{
    method
        .refs
        .as_slice()
        .iter()
        .any(|target| planner.has_block(target))
}

fn blocks_put<P: Planner>(
    alloc: Global,
    planner: &P,
    state: u32,
    class: &Bytes,
    number: u32,
    entries: &mut Entries,
    method: &Method,
    code: &Code,
) -> Result<Spliced, SpliceFault>
    requires { IsSoundMethod method.now }
    ensures is { AnswersAs SpliceFault.Memory (λ made. record { made = made; entries = entries.new }) result
        (blocks_put (P.plan planner.now) state class.now number entries.old method.now code.now
        (sites_of (P.plan planner.now) code.now.max_locals method.now)) }
    ensures pool { OnOk result (length entries.new < 2 ^ 16) }
{
    let locals = most_locals(planner, method.refs.as_slice());
    room(alloc, class, number, code, locals)?;
    let sites = sites_of(alloc, planner, code.max_locals, method.refs.as_slice())?;
    with_blocks(
        alloc,
        state,
        class,
        number,
        entries,
        method,
        code,
        locals,
        sites.as_slice(),
    )
}

/// The method with its blocks, for which there is room.
fn with_blocks(
    alloc: Global,
    state: u32,
    class: &Bytes,
    number: u32,
    entries: &mut Entries,
    method: &Method,
    code: &Code,
    locals: u32,
    sites: &[Option<Block>],
) -> Result<Spliced, SpliceFault>
    requires method { IsSoundMethod method.now }
    requires each { length sites.now ≡ length method.now.insns }
    requires sites { AllByRecursion IsSite sites.now }
    requires room { code.now.max_stack + 3 < 2 ^ 16 }
    requires slots { code.now.max_locals + locals < 2 ^ 16 }
    ensures is { AnswersAs SpliceFault.Memory (λ made. record { made = made; entries = entries.new }) result
        (with_blocks state class.now number entries.old method.now code.now locals sites.now) }
    ensures pool { OnOk result (length entries.new < 2 ^ 16) }
{
    splice(
        alloc, state, class, number, entries, method, code, locals, sites,
    )
}

/// The greatest number of locals that a block uses.
pub fn most_locals<P: Planner>(planner: &P, refs: &[Target]) -> u32
    ensures { result ≡ most_locals (P.plan planner.now) refs.now }
{
    let mut most: u32 = 0;
    let mut left = refs;
    while let [target, rest @ ..] = left {
        most = most.max(planner.locals(target));
        left = rest;
    }
    most
}

/// For each instruction its block, if it has one. For calls of one method it is made once, and copied.
pub fn sites_of<P: Planner>(
    alloc: Global,
    planner: &P,
    base: u16,
    refs: &[Target],
) -> Result<List<Option<Block>>, NoMemory>
    requires { base + most_locals (P.plan planner.now) refs.now < 2 ^ 16 }
    ensures is { IfOk result (λ sites. sites ≡ map ((P.plan planner.now).block base) refs.now) }
    ensures each { IfOk result (λ sites. length sites ≡ length refs.now) }
    ensures fits { IfOk result (AllByRecursion IsSite) }
{
    let mut sites = List::with_room(alloc, refs.len())?;
    let mut places = BTreeMap::new(alloc);
    let mut left = refs;
    while let [target, rest @ ..] = left {
        put_site(alloc, planner, base, target, &mut sites, &mut places)?;
        left = rest;
    }
    Ok(sites)
}

/// Appends the block of an instruction, if it has one.
fn put_site<P: Planner>(
    alloc: Global,
    planner: &P,
    base: u16,
    target: &Target,
    sites: &mut List<Option<Block>>,
    places: &mut BTreeMap<u32, usize>,
) -> Result<(), NoMemory>
    requires room { base + (P.plan planner.now).locals target.now < 2 ^ 16 }
    requires fits { AllByRecursion IsSite sites.old }
    requires known { AreMade ((P.plan planner.now).block base) sites.old places.old }
    ensures is { OnOk result (sites.new ≡ sites.old ++ (P.plan planner.now).block base target.now ∷ []) }
    ensures fits { OnOk result (AllByRecursion IsSite sites.new) }
    ensures known { OnOk result (AreMade ((P.plan planner.now).block base) sites.new places.new) }
{
    let site = site_of(alloc, planner, base, target, sites.as_slice(), places)?;
    sites.push(site)?;
    Ok(())
}

/// The block of an instruction that stands after these.
fn site_of<P: Planner>(
    alloc: Global,
    planner: &P,
    base: u16,
    target: &Target,
    sites: &[Option<Block>],
    places: &mut BTreeMap<u32, usize>,
) -> Result<Option<Block>, NoMemory>
    requires room { base + (P.plan planner.now).locals target.now < 2 ^ 16 }
    requires fits { AllByRecursion IsSite sites.now }
    requires known { AreMade ((P.plan planner.now).block base) sites.now places.old }
    ensures is { IfOk result (λ site. site ≡ (P.plan planner.now).block base target.now) }
    ensures fits { IfOk result IsSite }
    ensures known { IfOk result (λ site. AreMade ((P.plan planner.now).block base) (sites.now ++ site ∷ []) places.new) }
{
    let Target::ApiMethod(method) = target else {
        return planner.block(alloc, base, target);
    };
    if let Some(site) = known_site(sites, places, *method) {
        return copy_site(alloc, site);
    }
    let site = planner.block(alloc, base, target)?;
    note_place(places, *method, sites.len())?;
    Ok(site)
}

/// What was made for the first call of the method, if there was one.
fn known_site<'a>(
    sites: &'a [Option<Block>],
    places: &BTreeMap<u32, usize>,
    method: u32,
) -> Option<&'a Option<Block>>
    ensures { option_copied result ≡ option_and_then (slice_get sites.now) (get nat_cmp places.now method) }
{
    let place = places.get(&method)?;
    sites.get(*place)
}

fn note_place(places: &mut BTreeMap<u32, usize>, method: u32, place: usize) -> Result<(), NoMemory>
    ensures { OnOk result ((q : ℕ) → get nat_cmp places.new q
        ≡ (if is_eq (nat_cmp method q) then Some place else get nat_cmp places.old q)) }
{
    places.insert(method, place)?;
    Ok(())
}

fn copy_site(alloc: Global, site: &Option<Block>) -> Result<Option<Block>, NoMemory>
    ensures { IfOk result (λ copy. copy ≡ site.now) }
{
    match site {
        Some(block) => {
            let insns = Vec::from_slice(alloc, block.insns.as_slice())?;
            Ok(Some(Block {
                insns: List::from_vec(insns),
                handler: block.handler,
            }))
        }
        None => Ok(None),
    }
}

/// Each instruction is the client's.
fn clients(alloc: Global, insns: &[Insn]) -> Result<List<Origin>, NoMemory>
    requires { length insns.now < 2 ^ 16 }
    ensures { IfOk result (λ origins. origins ≡ clients_from 0 insns.now) }
{
    let mut origins = List::with_room(alloc, insns.len())?;
    let mut at: u32 = 0;
    let mut left = insns;
    while let [_, rest @ ..] = left {
        origins.push(Origin::Client(at))?;
        at += 1;
        left = rest;
    }
    Ok(origins)
}

/// Equal code.
pub fn copy_code(alloc: Global, code: &Code) -> Result<Code, NoMemory>
    ensures { IfOk result (λ copy. copy ≡ code.now) }
{
    Ok(Code {
        name: code.name,
        max_stack: code.max_stack,
        max_locals: code.max_locals,
        code: code.code.copy(alloc)?,
        table: copy_list(alloc, &code.table)?,
        attrs: copy_list(alloc, &code.attrs)?,
    })
}
