//! Which type may stand in the place of which. (The Java Virtual Machine Specification, section 4.10.1.2.)

ghost use Rattle.std.specs.Prelude.{◌≡◌};
ghost use Rattle.bytecode_model.specs.Arrays.{array_of, described};
ghost use Rattle.bytecode_model.specs.Assigning.{array_fits, assignable, class_fits, component_fits, name_fits};
ghost use Rattle.bytecode_model.specs.Borrowing.{type_borrowed};
ghost use Rattle.bytecode_model.specs.declared.borrowing.TypeRef.{TypeRef};
ghost use Rattle.cert_format.specs.declared.typing.VType.TheVariants.{Ref};
ghost use Rattle.type_lattice.specs.Components.{answered};

use crate::comparing::{Compared, arrays_compared, components_compared, named};
use crate::indexed::{Indexed, is_below, is_interface};
use bytecode_model::{TypeRef, borrow, is_array};
use cert_format::VType;

/// The class that each other is below, and each array.
pub const OBJECT: &[u8] = b"java/lang/Object";

/// Whether a value of the one type may stand where one of the other is wanted. It takes no memory.
pub fn assignable(program: &Indexed, from: &VType, to: &VType) -> bool
    ensures { result ≡ assignable program.now from.now to.now }
{
    borrowed_fits(program, borrow(from), to)
}

/// The same of a type that is borrowed.
pub fn borrowed_fits(program: &Indexed, from: TypeRef, to: &VType) -> bool
    ensures { result ≡ assignable program.now (type_borrowed from.entry) to.now }
{
    match to {
        VType::Top => true,
        VType::Int => matches!(from, TypeRef::Int),
        VType::Null => matches!(from, TypeRef::Null),
        VType::Ref(to) => fits_class(program, from, to.as_slice()),
        VType::UninitThis => matches!(from, TypeRef::UninitThis),
        VType::Uninit(at) => {
            match from {
                TypeRef::Uninit(other) => other == *at,
                _ => false,
            }
        }
    }
}

/// Whether a value of the type may stand where a reference to this class or array is wanted.
pub fn fits_class(program: &Indexed, from: TypeRef, to: &[u8]) -> bool
    ensures { result ≡ assignable program.now (type_borrowed from.entry) (Ref to.now) }
{
    match from {
        TypeRef::Null => true,
        TypeRef::Ref(from) => name_fits(program, from, to),
        TypeRef::Shared(from) => name_fits(program, from.as_slice(), to),
        TypeRef::ArrayOf(item) => array_of_fits(program, item, to),
        _ => false,
    }
}

/// An array of these items.
#[tactic(auto, using(crate::proofs::Arrays::array_of_item))]
fn array_of_fits(program: &Indexed, item: &[u8], to: &[u8]) -> bool
    ensures { result ≡ name_fits program.now (array_of item.now) to.now }
{
    if to == OBJECT {
        return true;
    }
    if is_interface(program, to) {
        return true;
    }
    items_fit(program, item, to)
}

/// An array of these items, where an array is wanted.
fn items_fit(program: &Indexed, item: &[u8], to: &[u8]) -> bool
    ensures { result ≡ array_fits program.now (array_of item.now) to.now }
{
    match to {
        [] => false,
        [first, to @ ..] => *first == b'[' && item_fits(program, item, to),
    }
}

fn item_fits(program: &Indexed, item: &[u8], to: &[u8]) -> bool
    ensures { result ≡ component_fits program.now (described item.now) to.now }
{
    if is_array(item) {
        component_fits(program, item, to)
    } else {
        match named(to) {
            None => false,
            Some(above) => class_fits(program, item, above),
        }
    }
}

fn name_fits(program: &Indexed, from: &[u8], to: &[u8]) -> bool
    ensures { result ≡ name_fits program.now from.now to.now }
{
    class_fits(program, from, to) || array_fits(program, from, to)
}

fn class_fits(program: &Indexed, from: &[u8], to: &[u8]) -> bool
    ensures { result ≡ class_fits program.now from.now to.now }
{
    from == to
        || to == OBJECT
        || is_interface(program, to)
        || (!is_array(from) && is_below(program, from, to))
}

fn array_fits(program: &Indexed, from: &[u8], to: &[u8]) -> bool
    ensures { result ≡ array_fits program.now from.now to.now }
{
    let compared = arrays_compared(from, to);
    are_fitting(program, compared)
}

fn component_fits(program: &Indexed, from: &[u8], to: &[u8]) -> bool
    ensures { result ≡ component_fits program.now from.now to.now }
{
    let compared = components_compared(from, to);
    are_fitting(program, compared)
}

/// Whether the one of two components that are compared fits the other.
fn are_fitting(program: &Indexed, compared: Compared) -> bool
    ensures { result ≡ answered (class_fits program.now) compared.entry }
{
    match compared {
        Compared::Same => true,
        Compared::Apart => false,
        Compared::Classes { below, above } => class_fits(program, below, above),
    }
}
