//! The frames of a method with its blocks.

ghost use Rattle.std.specs.Prelude.{◌≡◌, ◌+◌, ◌<◌, ◌^◌, ◌++◌, IfOk, None, OnOk, length, map};
ghost use Rattle.std.specs.Option.{option_copied};
ghost use Rattle.bytecode_model.specs.Sound.{IsSoundMethod};
ghost use Rattle.offset_patch.specs.Splicing.{fronts_of, part_of};
ghost use Rattle.block_template.specs.Blocks.{block, clauses_of, plan_of};
ghost use Rattle.block_template.specs.declared.item.Item.{Item as SpecItem};
ghost use Rattle.block_template.specs.Frames.{frame_at};
ghost use Rattle.woven_typing.specs.Renaming.{frame_renamed};
ghost use Rattle.woven_typing.specs.Framing.{
  alone_typed,
  around_of,
  block_typed,
  client_of,
  front_in,
  frames_woven,
  insn_typed,
  items_of,
  low,
  parts_typed,
  insn_place,
};

use crate::following::frame_after;
use crate::renaming::{Fronts, frame_renamed};
use crate::roles::{CallTypes, Names};
use block_template::{Item, PolicyItems, clauses_of};
use bytecode_model::{LinkedClass, Method, Program, Target};
use cert_format::{FrameType, push_frame};
use frame_types::InsnRef;
use insn_codec::Insn;
use mon_base::{List, NoMemory};
use std::alloc::Global;
use std::marker::Model;

/// The frame of each instruction of a method, or nothing where it is not reached.
pub type Frames = List<Option<FrameType>>;

/// A program, the blocks of its policy, and the names that all frames share.
#[derive(Drop)]
pub struct Weaving<'a> {
    pub program: &'a Program,
    pub items: &'a PolicyItems<'a>,
    pub names: &'a Names,
}

// ---- where instructions stand

/// How many instructions stand for one whose operand names this. A block has as many wherever its locals begin.
fn part_size(items: &PolicyItems, target: &Target) -> u32
    ensures is { result ≡ length (part_of ((plan_of items.now.policy items.now.mode).block 0 target.now)) }
    ensures few { result < 2 ^ 16 }
{
    match target {
        Target::ApiMethod(callee) => block_size(items, *callee),
        _ => 1,
    }
}

fn block_size(items: &PolicyItems, callee: u32) -> u32
    ensures is { result ≡ length (part_of (block items.now.policy items.now.mode callee 0)) }
    ensures few { result < 2 ^ 16 }
{
    match items.of(callee) {
        None => 1,
        Some(block) => block.len() as u32,
    }
}

/// The fronts of the parts, and where the last one ends.
fn fronts_of(alloc: Global, items: &PolicyItems, refs: &[Target]) -> Result<List<u32>, NoMemory>
    requires { length refs.now < 2 ^ 16 }
    ensures { IfOk result (λ made. made ≡ fronts_of (map ((plan_of items.now.policy items.now.mode).block 0) refs.now)) }
{
    let mut fronts = List::with_room(alloc, refs.len().saturating_add(1))?;
    put_fronts(&mut fronts, items, refs)?;
    Ok(fronts)
}

/// Appends the fronts of the parts, and where the last one ends.
fn put_fronts(fronts: &mut List<u32>, items: &PolicyItems, refs: &[Target]) -> Result<(), NoMemory>
    requires { length refs.now < 2 ^ 16 }
    ensures { OnOk result (fronts.new ≡ fronts.old
        ++ fronts_of (map ((plan_of items.now.policy items.now.mode).block 0) refs.now)) }
{
    let mut at: u32 = 0;
    let mut left = refs;
    while let [target, rest @ ..] = left {
        fronts.push(at)?;
        at += part_size(items, target);
        left = rest;
    }
    fronts.push(at)
}

// ---- a method

/// A method of a class of the program, and where its instructions stand with their blocks.
#[derive(Drop)]
pub struct Client<'a> {
    weaving: &'a Weaving<'a>,
    own: u32,
    class: &'a LinkedClass,
    method: &'a Method,
    fronts: Fronts,
}

impl<'a> Model for Client<'a> {
    ghost use Rattle.std.specs.Prelude.{◌≡◌, length};
    ghost use Rattle.offset_patch.specs.Splicing.{fronts_of};
    ghost use Rattle.block_template.specs.Blocks.{plan_of};
    ghost use Rattle.class_weaving.specs.Woven.{sites_of};
    ghost use Rattle.woven_typing.specs.Framing.{Client as Told};

    ghost Value = { Told };

    ghost view = { λ c. record {
      program = c.weaving.now.program.now;
      policy = c.weaving.now.items.now.policy;
      mode = c.weaving.now.items.now.mode;
      own = c.own;
      class = c.class.now;
      method = c.method.now;
    } };

    ghost invariant = { λ c.
        (c.fronts.list ≡ fronts_of (sites_of (plan_of c.weaving.now.items.now.policy c.weaving.now.items.now.mode)
        c.method.now.max_locals c.method.now)) × (c.fronts.count ≡ length c.method.now.insns) };
}

impl<'a> Client<'a> {
    /// The method, with where its instructions stand.
    pub fn new(
        alloc: Global,
        weaving: &'a Weaving<'a>,
        own: u32,
        class: &'a LinkedClass,
        method: &'a Method,
    ) -> Result<Client<'a>, NoMemory>
        requires { IsSoundMethod method.now }
        ensures { IfOk result (λ made. made ≡ client_of weaving.now.program.now
            weaving.now.items.now.policy weaving.now.items.now.mode own class.now method.now) }
    {
        let list = fronts_of(alloc, weaving.items, method.refs.as_slice())?;
        let count = method.insns.len();
        Ok(Client {
            weaving,
            own,
            class,
            method,
            fronts: Fronts { list, count },
        })
    }

    fn insn_place(&self, at: u32, insn: &'a Insn, target: &'a Target) -> InsnRef<'a>
        ensures { result ≡ insn_place self.now at insn.now target.now }
    {
        InsnRef {
            program: self.weaving.program,
            own: self.own,
            class: self.class,
            method: self.method,
            at,
            insn,
            target: Some(target),
        }
    }

    fn renamed(&self, alloc: Global, frame: &FrameType) -> Result<FrameType, NoMemory>
        ensures { IfOk result (λ made. made ≡ frame_renamed (front_in self.now) frame.now) }
    {
        frame_renamed(alloc, &self.fronts, frame)
    }

    fn call_types(
        &self,
        alloc: Global,
        place: &InsnRef,
        callee: u32,
        frame: &FrameType,
    ) -> Result<CallTypes<'a>, NoMemory>
        ensures { IfOk result (λ made. made ≡ record {
          clauses = clauses_of self.now.policy callee;
          around = around_of (front_in self.now) place.now frame.now;
        }) }
    {
        let following = frame_after(alloc, place, frame)?;
        let before = self.renamed(alloc, frame)?;
        let after = self.renamed(alloc, &following)?;
        Ok(CallTypes {
            names: self.weaving.names,
            clauses: clauses_of(self.weaving.items.policy(), callee),
            before,
            after,
            base: place.method.max_locals,
        })
    }
}

// ---- an instruction

/// Appends the frames of an instruction without a block.
fn put_alone(
    alloc: Global,
    out: &mut Frames,
    client: &Client,
    frame: Option<&FrameType>,
) -> Result<(), NoMemory>
    ensures { OnOk result (out.new ≡ out.old ++ alone_typed (front_in client.now) (option_copied frame.entry)) }
{
    match frame {
        None => out.push(None),
        Some(frame) => push_frame(out, Some(client.renamed(alloc, frame)?)),
    }
}

/// Appends no frame for each item.
fn put_none(out: &mut Frames, items: &[Item]) -> Result<(), NoMemory>
    ensures { OnOk result (out.new ≡ out.old ++ map (λ (i : SpecItem). None) items.now) }
{
    let mut left = items;
    while let [_, rest @ ..] = left {
        out.push(None)?;
        left = rest;
    }
    Ok(())
}

/// Appends the frame of each item.
fn put_items(
    alloc: Global,
    out: &mut Frames,
    call: &CallTypes,
    items: &[Item],
) -> Result<(), NoMemory>
    ensures { OnOk result (out.new ≡ out.old
        ++ map (λ (i : SpecItem). frame_at call.now.clauses call.now.around i.role) items.now) }
{
    for item in items {
        push_frame(out, call.frame_at(alloc, item.role)?)?;
    }
    Ok(())
}

/// Appends the frames of the block of a call, which has the roles of these items.
fn put_block(
    alloc: Global,
    out: &mut Frames,
    client: &Client,
    place: &InsnRef,
    callee: u32,
    items: &[Item],
    frame: Option<&FrameType>,
) -> Result<(), NoMemory>
    requires { items.now ≡ items_of client.now.policy client.now.mode 0 callee }
    ensures { OnOk result (out.new ≡ out.old
        ++ block_typed client.now.policy client.now.mode (front_in client.now) place.now callee (option_copied frame.entry)) }
{
    match frame {
        None => put_none(out, items),
        Some(frame) => {
            let call = client.call_types(alloc, place, callee, frame)?;
            put_items(alloc, out, &call, items)
        }
    }
}

/// The frame, where it is no higher than the stack may be.
fn low<'a>(size: u16, frame: &'a Option<FrameType>) -> Option<&'a FrameType>
    ensures { option_copied result ≡ low size frame.now }
{
    match frame {
        None => None,
        Some(frame) => {
            if frame.stack.len() <= usize::from(size) {
                Some(frame)
            } else {
                None
            }
        }
    }
}

/// Appends the frames of what stands for an instruction.
fn put_insn(
    alloc: Global,
    out: &mut Frames,
    client: &Client,
    at: u32,
    insn: &Insn,
    target: &Target,
    frame: &Option<FrameType>,
) -> Result<(), NoMemory>
    ensures { OnOk result (out.new ≡ out.old ++ insn_typed client.now at insn.now target.now frame.now) }
{
    let kept = low(client.method.max_stack, frame);
    match target {
        Target::ApiMethod(callee) => match client.weaving.items.of(*callee) {
            Some(items) => {
                let place = client.insn_place(at, insn, target);
                put_block(alloc, out, client, &place, *callee, items, kept)
            }
            None => put_alone(alloc, out, client, kept),
        },
        _ => put_alone(alloc, out, client, kept),
    }
}

// ---- a method

/// The frames of these instructions, from the index 0 on.
fn parts_typed(
    alloc: Global,
    client: &Client,
    insns: &[Insn],
    refs: &[Target],
    frames: &[Option<FrameType>],
) -> Result<Frames, NoMemory>
    requires { length insns.now < 2 ^ 32 }
    ensures { IfOk result (λ made. made ≡ parts_typed client.now 0 insns.now refs.now frames.now) }
{
    let mut out = List::with_room(alloc, client.fronts.end())?;
    put_parts(alloc, &mut out, client, insns, refs, frames)?;
    Ok(out)
}

/// Appends the frames of these instructions, from the index 0 on.
fn put_parts(
    alloc: Global,
    out: &mut Frames,
    client: &Client,
    insns: &[Insn],
    refs: &[Target],
    frames: &[Option<FrameType>],
) -> Result<(), NoMemory>
    requires { length insns.now < 2 ^ 32 }
    ensures { OnOk result (out.new ≡ out.old ++ parts_typed client.now 0 insns.now refs.now frames.now) }
{
    let mut at: u32 = 0;
    let mut insns = insns;
    let mut refs = refs;
    let mut frames = frames;
    while let [insn, later @ ..] = insns {
        let [target, others @ ..] = refs else {
            return Ok(());
        };
        let [frame, rest @ ..] = frames else {
            return Ok(());
        };
        put_insn(alloc, out, client, at, insn, target, frame)?;
        at += 1;
        insns = later;
        refs = others;
        frames = rest;
    }
    Ok(())
}

/// The frames of the method with its blocks, where these are its own.
pub fn frames_woven(
    alloc: Global,
    client: &Client,
    frames: &[Option<FrameType>],
) -> Result<Frames, NoMemory>
    requires { IsSoundMethod client.now.method }
    ensures { IfOk result (λ made. made ≡ frames_woven client.now frames.now) }
{
    let method = client.method;
    parts_typed(
        alloc,
        client,
        method.insns.as_slice(),
        method.refs.as_slice(),
        frames,
    )
}
