//! How many bytes the code of a method has with its blocks.

ghost use Rattle.std.specs.Prelude.{◌≡◌, ◌+◌, ◌*◌, ◌<◌, ◌≤◌, ◌^◌, length};
ghost use Rattle.std.specs.List.{AllByRecursion};
ghost use Rattle.insn_codec.specs.Fits.{IsInsn};
ghost use Rattle.insn_codec.specs.Encoding.{size};
ghost use Rattle.offset_patch.specs.Fits.{IsSite, calls_in};
ghost use Rattle.offset_patch.specs.Length.{length_of, part_end, size_in};

use crate::block::{Block, BlockInsn};
use crate::fronts::part_of;
use insn_codec::{Insn, size};

/// The length of the code.
pub fn length_of(insns: &[Insn], sites: &[Option<Block>]) -> u64
    requires few { length insns.now < 2 ^ 16 }
    requires insns { AllByRecursion IsInsn insns.now }
    requires sites { AllByRecursion IsSite sites.now }
    ensures is { result ≡ length_of insns.now sites.now }
    ensures bound { result < 2 ^ 63 }
{
    let mut at: u64 = 0;
    let mut own = insns;
    let mut left = sites;
    while let [insn, others @ ..] = own {
        let [site, rest @ ..] = left else {
            return at;
        };
        at = part_end(insn, at, part_of(site));
        own = others;
        left = rest;
    }
    at
}

/// Where a part ends that begins at the byte `at`. The client's instruction stands in it once.
fn part_end(own: &Insn, at: u64, part: &[BlockInsn]) -> u64
    requires own { IsInsn own.now }
    requires at { at < 2 ^ 60 }
    requires few { length part.now < 2 ^ 32 }
    requires once { calls_in part.now ≤ 1 }
    ensures is { result ≡ part_end own.now at part.now }
    ensures bound { result ≤ at + 2 ^ 40 }
{
    let mut end = at;
    let mut left = part;
    while let [insn, rest @ ..] = left {
        end += size_in(own, end, *insn);
        left = rest;
    }
    end
}

/// How many bytes an instruction of the part has that begins at the byte `at`.
fn size_in(own: &Insn, at: u64, insn: BlockInsn) -> u64
    requires { IsInsn own.now }
    ensures { result ≡ size_in own.now at insn }
{
    match insn {
        BlockInsn::Plain(_) => 1,
        BlockInsn::Byte(_) => 2,
        BlockInsn::Short(_) | BlockInsn::Want { .. } | BlockInsn::Jump { .. } => 3,
        BlockInsn::Local { wide, .. } => { if wide { 4 } else { 2 } }
        BlockInsn::Call => size(at, own),
    }
}
