//! What becomes of the types that stay: an object that is made, and one that is forgotten.
//! (The Java Virtual Machine Specification, section 4.10.2.4.)

ghost use Rattle.std.specs.Prelude.{◌≡◌, option_copied};
ghost use Rattle.cert_format.specs.declared.typing.VType.{VType};
ghost use Rattle.bytecode_model.specs.Borrowing.{type_borrowed};
ghost use Rattle.code_typing.specs.Changing.{change_told};
ghost use Rattle.bytecode_model.specs.Makes.{class_made, is_same_object, changed, when_called};

use crate::place::PlaceRef;
use bytecode_model::{TypeRef, borrow};
use cert_format::VType;
use frame_types::{InsnRef, calls_maker, class_referred, is_made_at, is_same_object, new_at};
use insn_codec::{Heap, Shape};

/// What becomes of the types that stay.
#[derive(Clone, Copy)]
pub enum Change<'a> {
    Nothing,
    /// What the `new` of this index made before is Top.
    Forget(u32),
    /// This receiver is a made object of the class.
    Make(&'a VType, &'a [u8]),
}

/// The class of what a constructor that is called makes of this receiver, if it may.
pub fn class_made<'a>(place: &InsnRef<'a>, receiver: &VType) -> Option<&'a [u8]>
    ensures { option_copied result ≡ class_made place.now receiver.now }
{
    let class = class_referred(place);
    if let VType::Uninit(i) = receiver {
        if class == new_at(place.method, *i) {
            return Some(class);
        }
        return None;
    }
    let VType::UninitThis = receiver else {
        return None;
    };
    let own = place.class.name.as_slice();
    if class == own || class == place.class.parent.as_slice() {
        return Some(own);
    }
    None
}

/// What a call that takes these operands does with the types that stay.
pub fn when_called<'a>(place: &InsnRef<'a>, taken: &'a [VType]) -> Change<'a>
    ensures { (t : VType) → change_told result t ≡ when_called place.now taken.now t }
{
    if !calls_maker(place) {
        return Change::Nothing;
    }
    match taken {
        [] => Change::Nothing,
        [receiver, ..] => {
            match class_made(place, receiver) {
                None => Change::Nothing,
                Some(class) => Change::Make(receiver, class),
            }
        }
    }
}

/// What the instruction does with the types that stay, where it takes these operands.
pub fn change_of<'a>(place: &PlaceRef<'a>, taken: &'a [VType]) -> Change<'a>
    ensures { (t : VType) → change_told result t ≡ changed place.now taken.now t }
{
    match place.shape() {
        Shape::Heap(Heap::New) => Change::Forget(place.at),
        Shape::Heap(Heap::Call(_)) => when_called(&place.insn_ref(), taken),
        _ => Change::Nothing,
    }
}

/// What becomes of a type that stays.
pub fn change_told<'a>(change: Change<'a>, t: &'a VType) -> TypeRef<'a>
    ensures { type_borrowed result ≡ change_told change.entry t.now }
{
    match change {
        Change::Nothing => borrow(t),
        Change::Forget(at) => {
            if is_made_at(at, t) {
                return TypeRef::Top;
            }
            borrow(t)
        }
        Change::Make(receiver, class) => {
            if is_same_object(receiver, t) {
                return TypeRef::Ref(class);
            }
            borrow(t)
        }
    }
}
