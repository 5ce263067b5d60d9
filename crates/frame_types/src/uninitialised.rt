//! Objects that are not made yet: of which `new` they are, and where they stand.
//! (The Java Virtual Machine Specification, section 4.10.2.4.)

ghost use Rattle.std.specs.Prelude.{◌≡◌, option_copied};
ghost use Rattle.cert_format.specs.declared.typing.VType.TheVariants.{UninitThis, Uninit};
ghost use Rattle.insn_codec.specs.Shapes.{shape_of};
ghost use Rattle.bytecode_model.specs.Makes.{is_same_object, made_by, new_at, new_in};
ghost use Rattle.bytecode_model.specs.InsnPlace.{target_or_none};
ghost use Rattle.bytecode_model.specs.Rules.{has_object};

use crate::kinds::is_this;
use crate::targets::class_of;
use bytecode_model::{Method, Target};
use cert_format::VType;
use insn_codec::{Heap, Insn, Shape, shape_of};

fn made_by<'a>(shape: Shape, target: Option<&'a Target>) -> &'a [u8]
    ensures { result.now ≡ made_by shape (target_or_none (option_copied target.entry)) }
{
    let Shape::Heap(Heap::New) = shape else {
        return b"".as_slice();
    };
    class_of(target)
}

/// The class of the `new` of this index, or none.
pub fn new_at<'a>(method: &'a Method, i: u32) -> &'a [u8]
    ensures { result.now ≡ new_at method.now i }
{
    let at = i as usize;
    new_in(
        method.insns.as_slice().get(at),
        method.refs.as_slice().get(at),
    )
}

/// The class of the instruction with this target, if it is a `new`.
fn new_in<'a>(insn: Option<&Insn>, target: Option<&'a Target>) -> &'a [u8]
    ensures { result.now ≡ new_in (option_copied insn.entry) (option_copied target.entry) }
{
    match insn {
        Some(insn) => {
            match target {
                Some(_) => made_by(shape_of(insn), target),
                None => b"".as_slice(),
            }
        }
        None => b"".as_slice(),
    }
}

/// Whether the types are of one object that is not made yet.
pub fn is_same_object(object: &VType, t: &VType) -> bool
    ensures { result ≡ is_same_object object.now t.now }
{
    match object {
        VType::UninitThis => matches!(t, VType::UninitThis),
        VType::Uninit(i) => is_made_at(*i, t),
        _ => false,
    }
}

/// Whether the type is that of an object of the `new` of this index.
pub fn is_made_at(at: u32, t: &VType) -> bool
    ensures { result ≡ is_same_object (Uninit at) t.now }
{
    match t {
        VType::Uninit(other) => at == *other,
        _ => false,
    }
}

/// Whether the object that this constructor makes is among these.
pub fn has_this(types: &[VType]) -> bool
    ensures { result ≡ has_object UninitThis types.now }
{
    let mut left = types;
    while let [first, rest @ ..] = left {
        if is_this(first) {
            return true;
        }
        left = rest;
    }
    false
}

/// Whether an object of the `new` of this index is among these.
pub fn has_new(at: u32, types: &[VType]) -> bool
    ensures { result ≡ has_object (Uninit at) types.now }
{
    let mut left = types;
    while let [first, rest @ ..] = left {
        if is_made_at(at, first) {
            return true;
        }
        left = rest;
    }
    false
}
