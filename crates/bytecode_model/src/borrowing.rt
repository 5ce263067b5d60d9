//! Types that stand nowhere as a whole.

ghost use Rattle.std.specs.Prelude.{◌≡◌, IfOk};
ghost use Rattle.bytecode_model.specs.Borrowing.{type_borrowed};
ghost use Rattle.bytecode_model.specs.Arrays.{array_of};

use crate::arrays::push_described;
use cert_format::{Name, VType};
use mon_base::{Bytes, NoMemory};
use std::alloc::Global;

/// A type of the verifier whose name is borrowed.
#[derive(Clone, Copy)]
pub enum TypeRef<'a> {
    Top,
    Int,
    Null,
    Ref(&'a [u8]),
    /// The same, of a name that can be shared.
    Shared(&'a Name),
    /// A reference to an array of items of this class, or of this array type.
    ArrayOf(&'a [u8]),
    UninitThis,
    Uninit(u32),
}

/// The type, borrowed.
pub fn borrow(of: &VType) -> TypeRef<'_>
    ensures { type_borrowed result ≡ of.now }
{
    match of {
        VType::Top => TypeRef::Top,
        VType::Int => TypeRef::Int,
        VType::Null => TypeRef::Null,
        VType::Ref(name) => TypeRef::Shared(name),
        VType::UninitThis => TypeRef::UninitThis,
        VType::Uninit(at) => TypeRef::Uninit(*at),
    }
}

/// The type, with the name that is borrowed: it is shared where it can be, and else copied.
pub fn own(alloc: Global, borrowed: TypeRef) -> Result<VType, NoMemory>
    ensures { IfOk result (λ t. t ≡ type_borrowed borrowed.entry) }
{
    let name = match borrowed {
        TypeRef::Top => return Ok(VType::Top),
        TypeRef::Int => return Ok(VType::Int),
        TypeRef::Null => return Ok(VType::Null),
        TypeRef::Ref(name) => Name::from_slice(alloc, name)?,
        TypeRef::Shared(name) => name.share()?,
        TypeRef::ArrayOf(item) => array_of(alloc, item)?,
        TypeRef::UninitThis => return Ok(VType::UninitThis),
        TypeRef::Uninit(at) => return Ok(VType::Uninit(at)),
    };
    Ok(VType::Ref(name))
}

/// The name of the arrays of items of this class, or of this array type.
fn array_of(alloc: Global, item: &[u8]) -> Result<Name, NoMemory>
    ensures { IfOk result (λ name. name ≡ array_of item.now) }
{
    let mut name = Bytes::new(alloc);
    name.push(b'[')?;
    push_described(&mut name, item)?;
    Name::from_bytes(alloc, name)
}
