//! Types in a list of operands or locals, and those that move in it. (The Java Virtual Machine Specification, section 6.5.)

ghost use Rattle.std.specs.Prelude.{◌≡◌, ◌≤◌, length, reverse};
ghost use Rattle.insn_codec.specs.Forms.{order_of};
ghost use Rattle.bytecode_model.specs.Borrowing.{type_borrowed};
ghost use Rattle.bytecode_model.specs.Makes.{below, moved_from, topmost, type_at};

use bytecode_model::{TypeRef, borrow};
use cert_format::VType;
use insn_codec::StackForm;

/// The type in a place, or Top.
pub fn type_at(list: &[VType], i: usize) -> TypeRef<'_>
    ensures { type_borrowed result ≡ type_at list.now i }
{
    let Some(t) = list.get(i) else {
        return TypeRef::Top;
    };
    borrow(t)
}

/// The operands below the n topmost, and these.
pub fn split_top(stack: &[VType], n: usize) -> (&[VType], &[VType])
    ensures below { result.0.now ≡ below n stack.now }
    ensures topmost { result.1.now ≡ topmost n stack.now }
{
    stack.split_at(stack.len().saturating_sub(n))
}

/// The operands that a form puts back, counted from the top of those taken, the lowest first.
pub fn put_back(form: StackForm) -> &'static [u8]
    ensures value { result.now ≡ reverse (order_of form) }
    ensures few { length result.now ≤ 6 }
{
    match form {
        StackForm::Pop => b"".as_slice(),
        StackForm::Pop2 => b"".as_slice(),
        StackForm::Dup => b"\x00\x00".as_slice(),
        StackForm::DupX1 => b"\x00\x01\x00".as_slice(),
        StackForm::DupX2 => b"\x00\x02\x01\x00".as_slice(),
        StackForm::Dup2 => b"\x01\x00\x01\x00".as_slice(),
        StackForm::Dup2X1 => b"\x01\x00\x02\x01\x00".as_slice(),
        StackForm::Dup2X2 => b"\x01\x00\x03\x02\x01\x00".as_slice(),
        StackForm::Swap => b"\x00\x01".as_slice(),
    }
}

/// The operand that a form puts back, counted from the top of those taken.
pub fn moved_from(depth: u8, taken: &[VType], i: u8) -> TypeRef<'_>
    ensures { type_borrowed result ≡ moved_from depth taken.now i }
{
    type_at(
        taken,
        usize::from(depth.saturating_sub(1).saturating_sub(i)),
    )
}
