//! What is wanted of operands and locals.

ghost use Rattle.std.specs.Prelude.{◌≡◌, ◌∷◌, []};
ghost use Rattle.bytecode_model.specs.Wants.{to_class, to_array, to_item, to_described, all_met};
ghost use Rattle.code_typing.specs.Wanted.{want_of};

use bytecode_model::borrow;
use cert_format::VType;
use frame_types::{is_array_type, is_made, is_number, of_kind, without_last};
use insn_codec::{Item, ValueKind};
use type_lattice::{Indexed, fits_class};

/// What is wanted of an operand.
#[derive(Clone, Copy)]
pub enum Wanted<'a> {
    Number,
    Kind(ValueKind),
    /// An object that is made, or null.
    Made,
    Array,
    /// An array of these items.
    Items(Item),
    /// An item of such an array.
    Item(Item),
    /// A reference to this class.
    Class(&'a [u8]),
    /// What this descriptor tells.
    Described(&'a [u8]),
}

/// Whether it is assignable to the class or array of this name.
pub fn to_class(program: &Indexed, name: &[u8], t: &VType) -> bool
    ensures { result ≡ to_class program.now name.now t.now }
{
    fits_class(program, borrow(t), name)
}

fn to_array(program: &Indexed, item: Item, t: &VType) -> bool
    ensures { result ≡ to_array program.now item t.now }
{
    match item {
        Item::Int => to_class(program, b"[I", t),
        Item::Reference => to_class(program, b"[Ljava/lang/Object;", t),
        Item::Byte => to_class(program, b"[B", t) || to_class(program, b"[Z", t),
        Item::Char => to_class(program, b"[C", t),
        Item::Short => to_class(program, b"[S", t),
    }
}

fn to_item(program: &Indexed, item: Item, t: &VType) -> bool
    ensures { result ≡ to_item program.now item t.now }
{
    match item {
        Item::Reference => to_class(program, b"java/lang/Object", t),
        _ => is_number(t),
    }
}

/// Whether it is assignable to the type that the descriptor of a field or an argument tells.
pub fn to_described(program: &Indexed, desc: &[u8], t: &VType) -> bool
    ensures { result ≡ to_described program.now desc.now t.now }
{
    match desc {
        [] => true,
        [first, rest @ ..] => {
            if *first == b'[' {
                to_class(program, desc, t)
            } else if *first == b'L' {
                to_class(program, without_last(rest), t)
            } else {
                is_number(t)
            }
        }
    }
}

/// Whether the type is what is wanted.
pub fn is_wanted(program: &Indexed, want: Wanted, t: &VType) -> bool
    ensures { result ≡ want_of program.now want.entry t.now }
{
    match want {
        Wanted::Number => is_number(t),
        Wanted::Kind(kind) => of_kind(kind, t),
        Wanted::Made => is_made(t),
        Wanted::Array => is_array_type(t),
        Wanted::Items(item) => to_array(program, item, t),
        Wanted::Item(item) => to_item(program, item, t),
        Wanted::Class(name) => to_class(program, name, t),
        Wanted::Described(desc) => to_described(program, desc, t),
    }
}

/// Whether there is one type, and it is what is wanted.
pub fn one_is(program: &Indexed, want: Wanted, types: &[VType]) -> bool
    ensures { result ≡ all_met (want_of program.now want.entry ∷ []) types.now }
{
    match types {
        [] => false,
        [first, rest @ ..] => is_wanted(program, want, first) && rest.is_empty(),
    }
}

/// Whether there are two types, and they are what is wanted.
pub fn two_are(program: &Indexed, want: Wanted, second: Wanted, types: &[VType]) -> bool
    ensures { result ≡ all_met (want_of program.now want.entry ∷ want_of program.now second.entry ∷ []) types.now }
{
    match types {
        [] => false,
        [first, rest @ ..] => is_wanted(program, want, first) && one_is(program, second, rest),
    }
}

/// Whether there are three types, and they are what is wanted.
pub fn three_are(
    program: &Indexed,
    want: Wanted,
    second: Wanted,
    third: Wanted,
    types: &[VType],
) -> bool
    ensures { result ≡ all_met
        (want_of program.now want.entry ∷ want_of program.now second.entry ∷ want_of program.now third.entry ∷ []) types.now }
{
    match types {
        [] => false,
        [first, rest @ ..] => {
            is_wanted(program, want, first) && two_are(program, second, third, rest)
        }
    }
}
