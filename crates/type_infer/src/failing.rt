//! The first instruction at which a method has no typing.

ghost use Rattle.std.specs.Prelude.{◌<◌, ◌≤◌, ◌+◌, ◌-◌, IfOk, IsFalse, IsTrue};
ghost use Rattle.type_infer.specs.Solving.{IsReady};
ghost use Rattle.type_infer.specs.Untyped.{AreMet, CanBeMet, CannotBeMet};

use crate::body::Body;
use crate::solving::solve;
use cert_format::FrameType;
use code_typing::row_in;
use mon_base::NoMemory;
use std::alloc::Global;

/// Whether the rules are met at the first n instructions.
pub fn rows_met(body: &Body, frames: &[Option<FrameType>], n: u32) -> bool
    ensures met { IsTrue result → AreMet body.now.program body.now.own body.now.class body.now.method n frames.now }
    ensures unmet { IsFalse result → AreMet body.now.program body.now.own body.now.class body.now.method n frames.now → ⊥ }
{
    for at in 0..n {
        if row_in(body.program, body.own, body.class, body.method, frames, at).is_some() {
            return false;
        }
    }
    true
}

/// Whether frames meet the rules at the first n instructions.
fn can_be_met(alloc: Global, body: &Body, n: u32) -> Result<bool, NoMemory>
    requires { 0 < n }
    ensures met { IfOk result (λ found. IsTrue found → CanBeMet body.now.program body.now.own body.now.class body.now.method n) }
    ensures unmet { IfOk result (λ found. IsFalse found → IsReady body.now
        → CannotBeMet body.now.program body.now.own body.now.class body.now.method n) }
{
    let frames = solve(alloc, body, n)?;
    Ok(rows_met(body, frames.as_slice(), n))
}

/// Two numbers of instructions that are nearer to each other: the rules can be met at so many, and not at so many.
fn halved(alloc: Global, body: &Body, met: u32, unmet: u32) -> Result<(u32, u32), NoMemory>
    requires apart { met + 1 < unmet }
    requires met { CanBeMet body.now.program body.now.own body.now.class body.now.method met }
    ensures apart { IfOk result (λ r. r.0 < r.1) }
    ensures nearer { IfOk result (λ r. r.1 - r.0 < unmet - met) }
    ensures within { IfOk result (λ r. r.1 ≤ unmet) }
    ensures met { IfOk result (λ r. CanBeMet body.now.program body.now.own body.now.class body.now.method r.0) }
    ensures unmet { IfOk result (λ r. IsReady body.now → CannotBeMet body.now.program body.now.own body.now.class body.now.method unmet
        → CannotBeMet body.now.program body.now.own body.now.class body.now.method r.1) }
{
    let middle = met + (unmet - met) / 2;
    let is_met = can_be_met(alloc, body, middle)?;
    if is_met {
        Ok((middle, unmet))
    } else {
        Ok((met, middle))
    }
}

/// The first instruction up to which no frames meet the rules, where none meet them at all of the n.
pub fn first_failing(alloc: Global, body: &Body, n: u32) -> Result<u32, NoMemory>
    requires { 0 < n }
    ensures within { IfOk result (λ at. at < n) }
    ensures met { IfOk result (λ at. CanBeMet body.now.program body.now.own body.now.class body.now.method at) }
    ensures unmet { IfOk result (λ at. IsReady body.now → CannotBeMet body.now.program body.now.own body.now.class body.now.method n
        → CannotBeMet body.now.program body.now.own body.now.class body.now.method (at + 1)) }
{
    let mut met: u32 = 0;
    let mut unmet = n;
    'halving: while unmet - met > 1 {
        let nearer = halved(alloc, body, met, unmet)?;
        met = nearer.0;
        unmet = nearer.1;
    }
    Ok(met)
}
