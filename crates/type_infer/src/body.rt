//! A method whose types are looked for.

ghost use Rattle.std.specs.Prelude.{◌≡◌};
ghost use Rattle.type_infer.specs.Solving.{place_of};

use bytecode_model::{LinkedClass, Method};
use code_typing::PlaceRef;
use std::marker::Model;
use type_lattice::Indexed;

/// A method of the class with this index.
#[derive(Drop)]
pub struct Body<'a> {
    pub program: &'a Indexed,
    pub own: u32,
    pub class: &'a LinkedClass,
    pub method: &'a Method,
}

impl<'a> Model for Body<'a> {
    ghost use Rattle.type_infer.specs.Solving.{Scope};

    ghost Value = { Scope };

    ghost view = { λ b. record { program = b.program.now; own = b.own; class = b.class.now; method = b.method.now } };
}

impl<'a> Body<'a> {
    /// The instruction of this index, in its place.
    pub fn place(&self, at: u32) -> Option<PlaceRef<'a>>
        ensures { result ≡ place_of self.now at }
    {
        PlaceRef::new(self.program, self.own, self.class, self.method, at)
    }
}
