//! What calls take: how many arguments, and whether a receiver.

ghost use Rattle.std.specs.Prelude.{IfOk, ◌<◌, ◌^◌, ◌≡◌};
ghost use Rattle.guest_model.specs.Builtins.{arity_of_row};
ghost use Rattle.guest_model.specs.Calling.{is_static_call};
ghost use Rattle.guest_model.specs.Calls.{arity};

use api_listing::{FormFault, parse_descriptor};
use insn_codec::How;
use mon_base::NoMemory;
use std::alloc::Global;

/// How many arguments a method of the descriptor takes, which is at most 255.
pub fn arity(alloc: Global, desc: &[u8]) -> Result<usize, NoMemory>
    ensures is { IfOk result (λ count. count ≡ arity desc.now) }
    ensures few { IfOk result (λ count. count < 2 ^ 8) }
{
    let types = match parse_descriptor(alloc, desc) {
        Ok(types) => types,
        Err(FormFault::NoForm) => return Ok(0),
        Err(FormFault::Memory) => return Err(NoMemory),
    };
    Ok(types.arguments.len())
}

/// Whether the call has no receiver.
pub fn is_static_call(how: How) -> bool
    ensures { result ≡ is_static_call how }
{
    match how {
        How::Static => true,
        How::Virtual | How::Special | How::Interface => false,
    }
}

/// How many arguments each built-in method takes, row by row.
static ARITIES: [u8; 37] = [
    0, 0, 1, 0, 0, 0, 0, 1, 0, 0, 1, 0, 1, 0, 1, 0, 1, 0, 1, 0, 1, 0, 1, 0, 1, 0, 1, 0, 1, 0, 1, 0,
    1, 0, 1, 0, 1,
];

/// How many arguments the built-in method with this index takes.
pub fn arity_of_row(index: u32) -> Option<u8>
    ensures { result ≡ arity_of_row index }
{
    match ARITIES.as_slice().get(index as usize) {
        Some(count) => Some(*count),
        None => None,
    }
}
