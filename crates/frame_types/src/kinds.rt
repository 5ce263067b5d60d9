//! What a type is: the tests of one type alone.

ghost use Rattle.std.specs.Prelude.{◌≡◌};
ghost use Rattle.bytecode_model.specs.Arrays.{is_array};
ghost use Rattle.bytecode_model.specs.Wants.{is_number, is_reference, is_made, is_array_type, is_this, of_kind};

use bytecode_model::is_array;
use cert_format::VType;
use insn_codec::ValueKind;

/// Whether it is a number.
pub fn is_number(t: &VType) -> bool
    ensures { result ≡ is_number t.now }
{
    matches!(t, VType::Int)
}

/// Whether it is a reference, to an object that is made or not.
pub fn is_reference(t: &VType) -> bool
    ensures { result ≡ is_reference t.now }
{
    match t {
        VType::Top => false,
        VType::Int => false,
        _ => true,
    }
}

/// Whether it is null or an object that is made.
pub fn is_made(t: &VType) -> bool
    ensures { result ≡ is_made t.now }
{
    match t {
        VType::Null => true,
        VType::Ref(_) => true,
        _ => false,
    }
}

/// Whether it is null or an array.
pub fn is_array_type(t: &VType) -> bool
    ensures { result ≡ is_array_type t.now }
{
    match t {
        VType::Null => true,
        VType::Ref(name) => is_array(name.as_slice()),
        _ => false,
    }
}

/// Whether it is the object that this constructor makes.
pub fn is_this(t: &VType) -> bool
    ensures { result ≡ is_this t.now }
{
    matches!(t, VType::UninitThis)
}

/// Whether it is of the kind, as a load or a store tells it.
pub fn of_kind(kind: ValueKind, t: &VType) -> bool
    ensures { result ≡ of_kind kind t.now }
{
    match kind {
        ValueKind::Int => is_number(t),
        ValueKind::Reference => is_reference(t),
    }
}
