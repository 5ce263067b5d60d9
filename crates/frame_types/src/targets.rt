//! The types of what an operand names, of arrays and of their items.

ghost use Rattle.std.specs.Prelude.{◌≡◌, option_copied};
ghost use Rattle.cert_format.specs.declared.typing.VType.TheVariants.{Ref};
ghost use Rattle.bytecode_model.specs.Borrowing.{type_borrowed};
ghost use Rattle.bytecode_model.specs.Makes.{array_named, constant_type, item_type, read_type};
ghost use Rattle.bytecode_model.specs.InsnPlace.{class_of, target_or_none};

use crate::described::type_described;
use bytecode_model::{Target, TypeRef};
use cert_format::VType;
use insn_codec::Item;

/// The class or the array type that is named, or none.
pub fn class_of<'a>(target: Option<&'a Target>) -> &'a [u8]
    ensures { result.now ≡ class_of (target_or_none (option_copied target.entry)) }
{
    match target {
        Some(Target::ClassName(name)) => name.as_slice(),
        _ => b"".as_slice(),
    }
}

/// The type of the constant that is named.
pub fn constant_type<'a>(target: Option<&'a Target>) -> TypeRef<'a>
    ensures { type_borrowed result ≡ constant_type (target_or_none (option_copied target.entry)) }
{
    match target {
        Some(Target::Number(_)) => TypeRef::Int,
        Some(Target::Literal(_)) => TypeRef::Ref(b"java/lang/String"),
        Some(Target::ClassName(_)) => TypeRef::Ref(b"java/lang/Class"),
        _ => TypeRef::Top,
    }
}

/// The array that `newarray` makes.
pub fn array_named(kind: u8) -> &'static [u8]
    ensures { result.now ≡ array_named kind }
{
    match kind {
        4 => b"[Z".as_slice(),
        5 => b"[C".as_slice(),
        8 => b"[B".as_slice(),
        9 => b"[S".as_slice(),
        _ => b"[I".as_slice(),
    }
}

/// The type of an item of the array of this name.
fn item_described(name: &[u8]) -> TypeRef<'_>
    ensures { type_borrowed result ≡ item_type (Ref name.now) }
{
    match name {
        [] => TypeRef::Top,
        [_, item @ ..] => type_described(item),
    }
}

fn read_from(array: &VType) -> TypeRef<'_>
    ensures { type_borrowed result ≡ item_type array.now }
{
    match array {
        VType::Null => TypeRef::Null,
        VType::Ref(name) => item_described(name.as_slice()),
        _ => TypeRef::Top,
    }
}

/// The type of an item that is read.
pub fn read_type<'a>(item: Item, taken: &'a [VType]) -> TypeRef<'a>
    ensures { type_borrowed result ≡ read_type item taken.now }
{
    match item {
        Item::Reference => {
            match taken {
                [] => TypeRef::Top,
                [array, ..] => read_from(array),
            }
        }
        _ => TypeRef::Int,
    }
}
