//! The given classes by their names, found in the index of all classes: a given class is none of the listing.

ghost use Rattle.std.specs.Prelude.{option_copied, slice_get, ◌≡◌};
ghost use Rattle.bytecode_model.specs.Places.{class_place};
ghost use Rattle.guest_model.specs.Finding.{given_index};
ghost use Rattle.guest_model.specs.Layout.{class_given};
ghost use Rattle.guest_model.specs.Places.{class_index};
ghost use Rattle.guest_model.specs.Ready.{IsReady};

use bytecode_model::{LinkedClass, Program};
use type_lattice::{Indexed, class_place};

/// The index of the class among those of the listing and the given ones after them.
pub fn class_index(program: &Indexed, name: &[u8]) -> Option<u32>
    requires { IsReady program.now }
    ensures { result ≡ class_index program.now name.now }
{
    match class_place(program, name) {
        Some(place) => Some(place as u32),
        None => None,
    }
}

/// The index of the given class with the name.
pub fn given_index(program: &Indexed, name: &[u8]) -> Option<u32>
    requires { IsReady program.now }
    ensures { result ≡ given_index program.now name.now }
{
    let listed = program.program().listing.classes.len();
    match class_place(program, name) {
        Some(place) => {
            if place < listed {
                None
            } else {
                Some((place - listed) as u32)
            }
        }
        None => None,
    }
}

/// The given class with this index.
pub fn class_at(program: &Program, index: u32) -> Option<&LinkedClass>
    ensures { option_copied result ≡ slice_get program.now.classes index }
{
    program.classes.as_slice().get(index as usize)
}

/// The given class with the name.
pub fn class_given<'a>(program: &'a Indexed, name: &[u8]) -> Option<&'a LinkedClass>
    requires { IsReady program.now }
    ensures { option_copied result ≡ class_given program.now name.now }
{
    match given_index(program, name) {
        Some(index) => class_at(program.program(), index),
        None => None,
    }
}

/// The place in the listing of the class with the name.
pub fn listed_place(program: &Indexed, name: &[u8]) -> Option<usize>
    ensures { result ≡ class_place program.now.listing.classes name.now }
{
    let listed = program.program().listing.classes.len();
    match class_place(program, name) {
        Some(place) => { if place < listed { Some(place) } else { None } }
        None => None,
    }
}
