//! An instruction in its place, and what its operand names. (The Java Virtual Machine Specification, section 4.4.2.)

ghost use Rattle.std.specs.Prelude.{◌≡◌};
ghost use Rattle.bytecode_model.specs.InsnPlace.{calls_maker, class_referred, desc_referred, name_referred};

use bytecode_model::{LinkedClass, Method, Program, Target, index_of};
use class_codec::reference_at;
use insn_codec::Insn;
use std::marker::Model;

/// The instruction `insn` at the index `at` of a method of the class with the index `own`; `target` is what its operand
/// names.
#[derive(Drop)]
pub struct InsnRef<'a> {
    pub program: &'a Program,
    pub own: u32,
    pub class: &'a LinkedClass,
    pub method: &'a Method,
    pub at: u32,
    pub insn: &'a Insn,
    pub target: Option<&'a Target>,
}

impl<'a> Model for InsnRef<'a> {
    ghost use Rattle.std.specs.Prelude.{option_copied};
    ghost use Rattle.bytecode_model.specs.InsnPlace.{InsnPlace, target_or_none};

    ghost Value = { InsnPlace };

    ghost view = { λ p. record {
      program = p.program.now;
      own = p.own;
      class = p.class.now;
      method = p.method.now;
      at = p.at;
      insn = p.insn.now;
      ref = target_or_none (option_copied p.target);
    } };
}

/// The class of the field or method that is referred to, or none.
pub fn class_referred<'a>(place: &InsnRef<'a>) -> &'a [u8]
    ensures { result.now ≡ class_referred place.now }
{
    let pool = place.class.file.pool.as_slice();
    let Some(id) = reference_at(pool, index_of(place.insn)) else {
        return b"".as_slice();
    };
    id.class.as_slice()
}

/// Its name, or none.
fn name_referred<'a>(place: &InsnRef<'a>) -> &'a [u8]
    ensures { result.now ≡ name_referred place.now }
{
    let pool = place.class.file.pool.as_slice();
    let Some(id) = reference_at(pool, index_of(place.insn)) else {
        return b"".as_slice();
    };
    id.name.as_slice()
}

/// The descriptor of the field or method that is referred to, or none.
pub fn desc_referred<'a>(place: &InsnRef<'a>) -> &'a [u8]
    ensures { result.now ≡ desc_referred place.now }
{
    let pool = place.class.file.pool.as_slice();
    let Some(id) = reference_at(pool, index_of(place.insn)) else {
        return b"".as_slice();
    };
    id.desc.as_slice()
}

/// Whether a call is of the method that makes an object.
pub fn calls_maker(place: &InsnRef) -> bool
    ensures { result ≡ calls_maker place.now }
{
    name_referred(place) == b"<init>".as_slice()
}
