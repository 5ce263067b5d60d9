//! A program with an index of its classes, and what is asked of these. None of the answers takes memory.

ghost use Rattle.std.specs.Prelude.{◌≡◌, option_map, option_copied, find, length, IfOk};
ghost use Rattle.api_listing.specs.declared.types.ListedClass.{ListedClass};
ghost use Rattle.api_listing.specs.Nearest.{upwards};
ghost use Rattle.bytecode_model.specs.Classes.{classes_of, is_below, is_interface};
ghost use Rattle.bytecode_model.specs.Order.{EachWayEnds};
ghost use Rattle.bytecode_model.specs.Places.{class_place};

use crate::classes::classes_of;
use crate::hierarchy::Hierarchy;
use api_listing::ListedClass;
use bytecode_model::Program;
use mon_base::NoMemory;
use std::alloc::Global;
use std::marker::Model;

/// A program whose classes are found by their names. A contract sees the program.
#[derive(Drop)]
pub struct Indexed {
    program: Program,
    hierarchy: Hierarchy,
}

impl Model for Indexed {
    ghost use Rattle.std.specs.Prelude.{◌≡◌};
    ghost use Rattle.bytecode_model.specs.declared.program.Program.{Program};
    ghost use Rattle.bytecode_model.specs.Classes.{classes_of};

    ghost Value = { Program };

    ghost view = { λ i. i.program };

    ghost invariant = { λ i. i.hierarchy ≡ classes_of i.program };
}

impl Indexed {
    /// The program, with an index of its classes. The way up from each of them has to end.
    pub fn new(alloc: Global, program: Program) -> Result<Indexed, NoMemory>
        requires { EachWayEnds (classes_of program) }
        ensures { IfOk result (λ indexed. indexed ≡ program) }
    {
        let classes = classes_of(alloc, &program)?;
        let hierarchy = Hierarchy::new(alloc, classes)?;
        Ok(Indexed { program, hierarchy })
    }

    /// The program.
    pub fn program(&self) -> &Program
        ensures { result.now ≡ self.now }
    {
        &self.program
    }

    /// The classes of the listing, and then what the file of each given class says of it.
    pub fn classes(&self) -> &[ListedClass]
        ensures { result.now ≡ classes_of self.now }
    {
        self.hierarchy.as_slice()
    }

    /// The program alone.
    pub fn into_program(self) -> Program
        ensures { result ≡ self }
    {
        self.program
    }
}

/// The place of the class among those of the listing and the given ones after them.
pub fn class_place(program: &Indexed, name: &[u8]) -> Option<usize>
    ensures { result ≡ class_place (classes_of program.now) name.now }
{
    program.hierarchy.class_place(name)
}

/// Whether the class is an interface, of the listing or given.
pub fn is_interface(program: &Indexed, name: &[u8]) -> bool
    ensures { result ≡ is_interface program.now name.now }
{
    program.hierarchy.is_interface(name)
}

/// Whether the class is of the other name, or one of its superclasses is.
pub fn is_below(program: &Indexed, class: &[u8], above: &[u8]) -> bool
    ensures { result ≡ is_below program.now class.now above.now }
{
    program.hierarchy.is_below(class, above)
}

/// The name of the first class upwards from the one that the other is below, too.
pub fn first_above<'a>(program: &'a Indexed, class: &[u8], other: &[u8]) -> Option<&'a [u8]>
    ensures { option_copied result ≡ option_map (λ (c : ListedClass). c.name)
        (find (λ (c : ListedClass). is_below program.now other.now c.name)
        (upwards (length (classes_of program.now)) (classes_of program.now) class.now)) }
{
    program.hierarchy.nearest_common(class, other)
}
