//! What is known of kinds and relations.

ghost use Rattle.std.specs.Prelude.{◌≡◌, FitsSigned, IfSome};
ghost use Rattle.std.specs.Int.{w32};
ghost use Rattle.conspec_tree.specs.Kinds.{is_truth, is_number, is_equality, kind_or_object, number_range, passed_range};

use crate::types::{Kind, Rel};

/// Whether it is that of a truth value.
pub fn is_truth(kind: Kind) -> bool
    ensures { result ≡ is_truth kind }
{
    match kind {
        Kind::Bool => true,
        Kind::Int | Kind::Byte | Kind::Short | Kind::Char | Kind::Object => false,
    }
}

/// Whether its values are numbers: those of classes and arrays are not.
pub fn is_number(kind: Kind) -> bool
    ensures { result ≡ is_number kind }
{
    number_range(kind).is_some()
}

/// The least and the greatest number of the kind; an object is no number.
pub fn number_range(kind: Kind) -> Option<(i64, i64)>
    ensures is { result ≡ number_range kind }
    ensures fits { IfSome result (λ ends. FitsSigned w32 ends.0 × FitsSigned w32 ends.1) }
{
    match kind {
        Kind::Int => Some((-2_147_483_648, 2_147_483_647)),
        Kind::Bool => Some((0, 1)),
        Kind::Byte => Some((-128, 127)),
        Kind::Short => Some((-32_768, 32_767)),
        Kind::Char => Some((0, 65_535)),
        Kind::Object => None,
    }
}

/// The range of what is passed: any number of 32 bits, for a narrow type too.
pub fn passed_range(kind: Kind) -> Option<(i64, i64)>
    ensures is { result ≡ passed_range kind }
    ensures fits { IfSome result (λ ends. FitsSigned w32 ends.0 × FitsSigned w32 ends.1) }
{
    match number_range(kind) {
        Some(_) => number_range(Kind::Int),
        None => None,
    }
}

/// The kind, or that of a class where there is none.
pub fn kind_or_object(kind: Option<Kind>) -> Kind
    ensures { result ≡ kind_or_object kind }
{
    match kind {
        Some(kind) => kind,
        None => Kind::Object,
    }
}

/// Whether it asks for the same or another value: of truth values no other relation is asked.
pub fn is_equality(rel: Rel) -> bool
    ensures { result ≡ is_equality rel }
{
    match rel {
        Rel::Eq | Rel::Ne => true,
        _ => false,
    }
}
