//! Of which classes an object is. (The Java Virtual Machine Specification, section 6.5, checkcast, instanceof and aastore.)

ghost use Rattle.std.specs.Prelude.{◌≡◌};
ghost use Rattle.guest_model.specs.Kinds.{array_is, class_is, is_instance, is_kind_of, is_thread};

use crate::guest::Guest;
use bytecode_model::is_array;
use guest_heap::{Object, Value};
use guest_model::class_of_value;
use type_lattice::{Compared, arrays_compared};

/// The class that each other is below, and each array.
const OBJECT: &[u8] = b"java/lang/Object";

/// Whether the objects of a class are Threads.
pub fn is_thread(guest: &Guest, class: &[u8]) -> bool
    ensures { result ≡ is_thread guest.now class.now }
{
    guest.is_below(class, b"java/lang/Thread")
}

/// Whether what the value refers to is of the class, or the array.
pub fn is_instance(guest: &Guest, heap: &[Object], value: Value, name: &[u8]) -> bool
    ensures { result ≡ is_instance guest.now heap.now value name.now }
{
    match class_of_value(heap, value) {
        Some(class) => is_kind_of(guest, class, name),
        None => false,
    }
}

/// Whether what is of the class, or the array, is of the other.
fn is_kind_of(guest: &Guest, name: &[u8], other: &[u8]) -> bool
    ensures { result ≡ is_kind_of guest.now name.now other.now }
{
    class_is(guest, name, other) || array_is(guest, name, other)
}

/// Whether a class is, extends or implements the other, or the other is Object; of an array the other is Object.
fn class_is(guest: &Guest, name: &[u8], other: &[u8]) -> bool
    ensures { result ≡ class_is guest.now name.now other.now }
{
    other == OBJECT
        || (!is_array(name) && (guest.is_below(name, other) || guest.implements(name, other)))
}

/// Whether the items of an array are of the other's.
fn array_is(guest: &Guest, from: &[u8], to: &[u8]) -> bool
    ensures { result ≡ array_is guest.now from.now to.now }
{
    match arrays_compared(from, to) {
        Compared::Same => true,
        Compared::Apart => false,
        Compared::Classes { below, above } => class_is(guest, below, above),
    }
}
