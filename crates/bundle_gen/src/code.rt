//! The code of the threads.

ghost use Rattle.std.specs.Prelude.{◌≡◌, ◌≤◌, ◌∷◌, [], ◌++◌, IfOk, OnOk};
ghost use Rattle.bundle_gen.specs.Code.{IsShortCode};
ghost use Rattle.bundle_gen.specs.Draws.{state_after};
ghost use Rattle.bundle_gen.specs.Generated.{init_code, run_code, site, sites_from};
ghost use Rattle.insn_codec.specs.declared.insn.Insn.TheVariants.{Plain, Pool, Short};
ghost use Rattle.insn_codec.specs.declared.opcodes.TheConstants.{INVOKESTATIC, POP};

use crate::draws::{draw, next_state};
use insn_codec::Insn;
use insn_codec::opcodes::{ALOAD_0, INVOKESPECIAL, INVOKESTATIC, POP, RETURN};
use mon_base::{List, NoMemory};
use std::alloc::Global;

/// The code of `<init>`.
pub fn init_code(alloc: Global) -> Result<List<Insn>, NoMemory>
    ensures is { IfOk result (λ code. code ≡ init_code) }
    ensures short { IfOk result IsShortCode }
{
    let mut code = List::new(alloc);
    code.push(Insn::Plain(ALOAD_0))?;
    code.push(Insn::Pool {
        op: INVOKESPECIAL,
        index: 8,
    })?;
    code.push(Insn::Plain(RETURN))?;
    Ok(code)
}

/// The code of `run`, and the state after its draws.
pub fn run_code(alloc: Global, state: u64, sites: u32) -> Result<(List<Insn>, u64), NoMemory>
    requires { sites ≤ 500 }
    ensures is { IfOk result (λ made. made.0 ≡ run_code state sites) }
    ensures short { IfOk result (λ made. IsShortCode made.0) }
    ensures after { IfOk result (λ made. made.1 ≡ state_after state sites) }
{
    let mut code = List::new(alloc);
    let after = put_sites(&mut code, state, sites)?;
    code.push(Insn::Plain(RETURN))?;
    Ok((code, after))
}

/// Appends so many sites, whose draws begin after this state, and gives the state after them.
fn put_sites(code: &mut List<Insn>, first: u64, sites: u32) -> Result<u64, NoMemory>
    ensures is { OnOk result (code.new ≡ code.old ++ sites_from first sites) }
    ensures after { IfOk result (λ after. after ≡ state_after first sites) }
{
    let mut state = first;
    let mut left = sites;
    while left > 0 {
        state = next_state(state);
        put_site(code, draw(state))?;
        left -= 1;
    }
    Ok(state)
}

/// Appends the instructions of a site for which this was drawn.
#[tactic(auto, unfolding(crate::specs::Generated::site))]
fn put_site(code: &mut List<Insn>, drawn: u64) -> Result<(), NoMemory>
    ensures { OnOk result (code.new ≡ code.old ++ site drawn) }
{
    if drawn % 2 == 0 {
        put_send(code, (drawn / 2 % 1000) as i16)
    } else {
        put_read(code)
    }
}

/// Appends a call that sends the number.
fn put_send(code: &mut List<Insn>, number: i16) -> Result<(), NoMemory>
    ensures { OnOk result (code.new ≡ code.old ++ Short number ∷ Pool INVOKESTATIC 16 ∷ []) }
{
    code.push(Insn::Short(number))?;
    code.push(Insn::Pool {
        op: INVOKESTATIC,
        index: 16,
    })?;
    Ok(())
}

/// Appends a call that reads a number, which is dropped.
fn put_read(code: &mut List<Insn>) -> Result<(), NoMemory>
    ensures { OnOk result (code.new ≡ code.old ++ Pool INVOKESTATIC 20 ∷ Plain POP ∷ []) }
{
    code.push(Insn::Pool {
        op: INVOKESTATIC,
        index: 20,
    })?;
    code.push(Insn::Plain(POP))?;
    Ok(())
}
