//! What the rules of the notes are told of a program, and of an instruction.

use crate::held_calls::HeldCalls;
use bytecode_model::Target;
use conspec_automaton::Policy;
use insn_codec::{Insn, Shape};
use std::marker::Model;

/// Round which calls the lock is held, the policy, and the number of the class that holds the policy's variables.
#[derive(Drop)]
pub struct Rules<'a> {
    pub held: HeldCalls,
    pub policy: &'a Policy,
    pub state: u32,
}

impl<'a> Model for Rules<'a> {
    ghost use Rattle.block_logic.specs.Rows.{Rules as Told};

    ghost Value = { Told };

    ghost view = { λ r. record { held = r.held; policy = r.policy.now; state = r.state } };
}

/// An instruction: its index, itself, what it does, and what its operand names.
#[derive(Drop)]
pub struct Here<'a> {
    pub at: u32,
    pub insn: &'a Insn,
    pub shape: Shape,
    pub target: &'a Target,
}

impl<'a> Model for Here<'a> {
    ghost use Rattle.std.specs.Prelude.{◌≡◌};
    ghost use Rattle.insn_codec.specs.Shapes.{shape_of};
    ghost use Rattle.block_logic.specs.Notes.{Here as Place};

    ghost Value = { Place };

    ghost view = { λ h. record { at = h.at; insn = h.insn.now; ref = h.target.now } };

    ghost invariant = { λ h. h.shape ≡ shape_of h.insn.now };
}
