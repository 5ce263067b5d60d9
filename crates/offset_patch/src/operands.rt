//! What the operands of a method name with its blocks.

ghost use Rattle.std.specs.Prelude.{◌≡◌, ◌++◌, ◌<◌, ◌^◌, IfOk, OnOk, map};
ghost use Rattle.offset_patch.specs.Splicing.{count_of};
ghost use Rattle.offset_patch.specs.Splicing.{part_named, parts_named, want_named};

use crate::block::{Block, BlockInsn, PoolWant};
use crate::fronts::{count_of, part_of};
use bytecode_model::Target;
use class_codec::Copied;
use mon_base::{Bytes, List, NoMemory};
use std::alloc::Global;

/// The place of the method that stops the program in the table of the built-in ones.
const WAY_OUT: u32 = 7;

/// What the operands of the parts name, one after another, where `conspec/State` is the class of the index `state`.
pub fn parts_named(
    alloc: Global,
    state: u32,
    refs: &[Target],
    sites: &[Option<Block>],
) -> Result<List<Target>, NoMemory>
    requires { count_of sites.now < 2 ^ 32 }
    ensures { IfOk result (λ named. named ≡ parts_named state refs.now sites.now) }
{
    let mut named = List::with_room(alloc, count_of(sites))?;
    let mut own = refs;
    let mut left = sites;
    while let [target, others @ ..] = own {
        let [site, rest @ ..] = left else {
            return Ok(named);
        };
        put_named(alloc, &mut named, state, target, part_of(site))?;
        own = others;
        left = rest;
    }
    Ok(named)
}

/// Appends what the operands of a part name.
fn put_named(
    alloc: Global,
    named: &mut List<Target>,
    state: u32,
    own: &Target,
    part: &[BlockInsn],
) -> Result<(), NoMemory>
    ensures { OnOk result (named.new ≡ named.old ++ map (part_named state own.now) part.now) }
{
    for insn in part {
        let one = part_named(alloc, state, own, *insn)?;
        named.push(one)?;
    }
    Ok(())
}

/// What the operand of an instruction of a part names, where that of the client's instruction names `own`.
fn part_named(alloc: Global, state: u32, own: &Target, insn: BlockInsn) -> Result<Target, NoMemory>
    ensures { IfOk result (λ target. target ≡ part_named state own.now insn) }
{
    match insn {
        BlockInsn::Want { want, .. } => want_named(alloc, state, want),
        BlockInsn::Call => own.copy(alloc),
        _ => Ok(Target::None),
    }
}

fn want_named(alloc: Global, state: u32, want: PoolWant) -> Result<Target, NoMemory>
    ensures { IfOk result (λ target. target ≡ want_named state want) }
{
    match want {
        PoolWant::StateClass => {
            let name = Bytes::from_slice(alloc, b"conspec/State".as_slice())?;
            Ok(Target::ClassName(name))
        }
        PoolWant::StateField { var, .. } => Ok(Target::Field {
            class: state,
            field: var,
        }),
        PoolWant::Exit => Ok(Target::Builtin(WAY_OUT)),
        PoolWant::Integer(n) => Ok(Target::Number(n)),
    }
}
