//! What is made of numbers.

ghost use Rattle.std.specs.Prelude.{◌≡◌, ◌%◌, ◌^◌};
ghost use Rattle.std.specs.Int.{w8, w16, w32, cast_signed, cast_unsigned};
ghost use Rattle.guest_frames.specs.Values.{made_of_one, made_of_two, distance};

use insn_codec::{One, Two};

/// What is made of two numbers. Each wraps at 32 bits.
pub fn made_of_two(op: Two, x: i32, y: i32) -> i32
    ensures { result ≡ made_of_two op x y }
{
    match op {
        Two::Add => x.wrapping_add(y),
        Two::Subtract => x.wrapping_sub(y),
        Two::Multiply => x.wrapping_mul(y),
        Two::ShiftLeft => x << distance(y),
        Two::ShiftRight => x >> distance(y),
        Two::ShiftRightUnsigned => (x.cast_unsigned() >> distance(y)).cast_signed(),
        Two::And => x & y,
        Two::Or => x | y,
        Two::Xor => x ^ y,
    }
}

/// The low five bits.
fn distance(y: i32) -> u32
    ensures { result ≡ distance y }
{
    y.cast_unsigned() % 32
}

/// What is made of one number.
pub fn made_of_one(op: One, x: i32) -> i32
    ensures { result ≡ made_of_one op x }
{
    match op {
        One::Negate => x.wrapping_neg(),
        One::ToByte => to_byte(x),
        One::ToChar => (x.cast_unsigned() % 0x1_0000).cast_signed(),
        One::ToShort => to_short(x),
    }
}

/// The low eight bits, as a signed number.
fn to_byte(x: i32) -> i32
    ensures { result ≡ cast_signed w8 (cast_unsigned w32 x % 2 ^ 8) }
{
    i32::from(((x.cast_unsigned() % 0x100) as u8).cast_signed())
}

/// The low sixteen bits, as a signed number.
fn to_short(x: i32) -> i32
    ensures { result ≡ cast_signed w16 (cast_unsigned w32 x % 2 ^ 16) }
{
    i32::from(((x.cast_unsigned() % 0x1_0000) as u16).cast_signed())
}
