//! An instruction in its place, in a program whose classes are found by their names.

ghost use Rattle.std.specs.Prelude.{◌≡◌, IsTrue, option_copied, option_map, slice_get, true};
ghost use Rattle.insn_codec.specs.Shapes.{shape_of};
ghost use Rattle.bytecode_model.specs.InsnPlace.{is_own_field};
ghost use Rattle.bytecode_model.specs.Typed.{place_at};
ghost use Rattle.code_typing.specs.Catching.{all_take_thrown};

use bytecode_model::{LinkedClass, Method, Target};
use frame_types::InsnRef;
use insn_codec::{Insn, Shape, shape_of};
use std::marker::Model;
use type_lattice::Indexed;

/// The instruction `insn` at the index `at` of a method of the class with the index `own`, in a program whose classes are
/// found by their names; `target` is what its operand names.
#[derive(Drop)]
pub struct PlaceRef<'a> {
    pub program: &'a Indexed,
    pub own: u32,
    pub class: &'a LinkedClass,
    pub method: &'a Method,
    pub at: u32,
    pub insn: &'a Insn,
    pub target: Option<&'a Target>,
    shape: Shape,
    handlers_known: bool,
}

impl<'a> Model for PlaceRef<'a> {
    ghost use Rattle.std.specs.Prelude.{option_copied};
    ghost use Rattle.std.specs.Prelude.{◌≡◌, IsTrue, true};
    ghost use Rattle.code_typing.specs.Catching.{all_take_thrown};
    ghost use Rattle.insn_codec.specs.Shapes.{shape_of};
    ghost use Rattle.bytecode_model.specs.InsnPlace.{InsnPlace, target_or_none};

    ghost Value = { InsnPlace };

    ghost view = { λ p. record {
      program = p.program.now;
      own = p.own;
      class = p.class.now;
      method = p.method.now;
      at = p.at;
      insn = p.insn.now;
      ref = target_or_none (option_copied p.target);
    } };

    // It may be known that each handler of the method takes what may be thrown.
    ghost invariant = { λ p. (p.shape ≡ shape_of p.insn.now)
        × (IsTrue p.handlers_known → all_take_thrown p.program.now p.method.now.handlers ≡ true) };
}

impl<'a> PlaceRef<'a> {
    /// The instruction of this index of a method, in its place.
    pub fn new(
        program: &'a Indexed,
        own: u32,
        class: &'a LinkedClass,
        method: &'a Method,
        at: u32,
    ) -> Option<PlaceRef<'a>>
        ensures { result ≡ option_map (place_at program.now own class.now method.now at) (slice_get method.now.insns at) }
    {
        PlaceRef::known(program, own, class, method, at, false)
    }

    /// The same. It may be known that each handler of the method takes what may be thrown.
    pub(crate) fn known(
        program: &'a Indexed,
        own: u32,
        class: &'a LinkedClass,
        method: &'a Method,
        at: u32,
        handlers_known: bool,
    ) -> Option<PlaceRef<'a>>
        requires { IsTrue handlers_known → all_take_thrown program.now method.now.handlers ≡ true }
        ensures { result ≡ option_map (place_at program.now own class.now method.now at) (slice_get method.now.insns at) }
    {
        let insn = method.insns.as_slice().get(at as usize)?;
        let target = method.refs.as_slice().get(at as usize);
        let shape = shape_of(insn);
        Some(PlaceRef {
            program,
            own,
            class,
            method,
            at,
            insn,
            target,
            shape,
            handlers_known,
        })
    }

    /// The instruction in its place, where no class is looked for.
    pub(crate) fn insn_ref(&self) -> InsnRef<'a>
        ensures { result ≡ self.now }
    {
        InsnRef {
            program: self.program.program(),
            own: self.own,
            class: self.class,
            method: self.method,
            at: self.at,
            insn: self.insn,
            target: self.target,
        }
    }

    /// Whether it is known that each handler of the method takes what may be thrown.
    pub(crate) fn handlers_known(&self) -> bool
        ensures { IsTrue result → all_take_thrown self.now.program self.now.method.handlers ≡ true }
    {
        self.handlers_known
    }

    /// What the instruction does.
    pub(crate) fn shape(&self) -> Shape
        ensures { result ≡ shape_of self.now.insn }
    {
        self.shape
    }
}

/// Whether a field stands in the method's own class.
pub fn is_own_field(place: &PlaceRef) -> bool
    ensures { result ≡ is_own_field place.now.own place.now.ref }
{
    let Some(Target::Field { class, .. }) = place.target else {
        return false;
    };
    *class == place.own
}
