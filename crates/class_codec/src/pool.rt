//! What indices into a constant pool name. (The Java Virtual Machine Specification, section 4.4.)

ghost use Rattle.std.specs.Prelude.{◌≡◌, option_copied, option_map};
ghost use Rattle.class_codec.specs.Pool.{is_of, names, utf8_at, is_code, class_name_at, name_and_type_at, member_id, id_told, reference_at};

use crate::tree::Const;
use mon_base::Bytes;

/// What an index may have to name.
#[derive(Clone, Copy)]
pub enum ConstKind {
    Utf8,
    Class,
    NameAndType,
}

/// Whether the constant is of the kind.
pub fn is_of(kind: ConstKind, constant: &Const) -> bool
    ensures { result ≡ is_of kind constant.now }
{
    match kind {
        ConstKind::Utf8 => matches!(constant, Const::Utf8(_)),
        ConstKind::Class => matches!(constant, Const::Class(_)),
        ConstKind::NameAndType => matches!(constant, Const::NameAndType(_, _)),
    }
}

/// Whether the index names a constant of the kind.
#[tactic(auto, unfolding(crate::specs::Pool::names))]
pub fn names(kind: ConstKind, pool: &[Const], index: u16) -> bool
    ensures { result ≡ names kind pool.now index }
{
    match pool.get(index as usize) {
        Some(constant) => is_of(kind, constant),
        None => false,
    }
}

/// The text that the index names.
#[tactic(auto, unfolding(crate::specs::Pool::utf8_at))]
pub fn utf8_at(pool: &[Const], index: u16) -> Option<&Bytes>
    ensures { option_copied result ≡ utf8_at pool.now index }
{
    match pool.get(index as usize) {
        Some(Const::Utf8(text)) => Some(text),
        _ => None,
    }
}

/// Whether the index names the text `Code`.
pub fn names_code(pool: &[Const], index: u16) -> bool
    ensures { result ≡ is_code (utf8_at pool.now index) }
{
    match utf8_at(pool, index) {
        Some(text) => text.as_slice() == b"Code".as_slice(),
        None => false,
    }
}

/// The name of the class that the index names.
#[tactic(auto, unfolding(crate::specs::Pool::class_name_at))]
pub fn class_name_at(pool: &[Const], index: u16) -> Option<&Bytes>
    ensures { option_copied result ≡ class_name_at pool.now index }
{
    match pool.get(index as usize) {
        Some(Const::Class(name)) => utf8_at(pool, *name),
        _ => None,
    }
}

/// The name and the descriptor that the index names.
#[tactic(auto, unfolding(crate::specs::Pool::name_and_type_at))]
pub fn name_and_type_at(pool: &[Const], index: u16) -> Option<(&Bytes, &Bytes)>
    ensures { option_map (λ x. (x.0.now, x.1.now)) result ≡ name_and_type_at pool.now index }
{
    match pool.get(index as usize) {
        Some(Const::NameAndType(name, desc)) => {
            let name = utf8_at(pool, *name)?;
            let desc = utf8_at(pool, *desc)?;
            Some((name, desc))
        }
        _ => None,
    }
}

/// A field or a method that a constant refers to.
#[derive(Clone, Copy)]
pub struct Reference<'a> {
    pub class: &'a Bytes,
    pub name: &'a Bytes,
    pub desc: &'a Bytes,
}

/// The class, the name and the descriptor of the field or the method that the index names.
#[tactic(auto, unfolding(crate::specs::Pool::reference_at))]
pub fn reference_at(pool: &[Const], index: u16) -> Option<Reference<'_>>
    ensures { option_map id_told result ≡ reference_at pool.now index }
{
    match pool.get(index as usize) {
        Some(Const::Field(class, member)) => referred(pool, *class, *member),
        Some(Const::Method(class, member)) => referred(pool, *class, *member),
        Some(Const::IMethod(class, member)) => referred(pool, *class, *member),
        _ => None,
    }
}

/// The class at one index, with the name and the descriptor at another.
fn referred(pool: &[Const], class: u16, member: u16) -> Option<Reference<'_>>
    ensures { option_map id_told result ≡ member_id (class_name_at pool.now class) (name_and_type_at pool.now member) }
{
    let class = class_name_at(pool, class)?;
    let (name, desc) = name_and_type_at(pool, member)?;
    Some(Reference { class, name, desc })
}
