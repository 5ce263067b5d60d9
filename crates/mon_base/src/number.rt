//! Numbers as decimal text: digits without a leading zero other than `0` itself, after `-` where the number is
//! below zero.

ghost use Rattle.std.specs.Prelude.{◌≡◌, ◌++◌, OnOk, OnErr, IfSome, IfNone};
ghost use Rattle.std.specs.Fmt.{decimal, signed_decimal};
ghost use Rattle.std.specs.Int.{w64};
ghost use Rattle.std.proofs.Common.{ℤ, FitsSigned};

use crate::bytes::Bytes;
use crate::memory::NoMemory;
use itoa::Buffer;

/// Appends the decimal text of the number. On refusal the bytes are unchanged.
pub fn push_number(out: &mut Bytes, n: i64) -> Result<(), NoMemory>
    ensures ok { OnOk result (out.new ≡ out.old ++ signed_decimal n) }
    ensures err { OnErr result (out.new ≡ out.old) }
{
    let mut buffer = Buffer::new();
    out.extend(buffer.format(n).as_bytes())
}

/// Appends the decimal text of a count. On refusal the bytes are unchanged.
pub fn push_count(out: &mut Bytes, n: u64) -> Result<(), NoMemory>
    ensures ok { OnOk result (out.new ≡ out.old ++ decimal n) }
    ensures err { OnErr result (out.new ≡ out.old) }
{
    let mut digits = Buffer::new();
    out.extend(digits.format(n).as_bytes())
}

/// The number whose decimal text this is. It takes no memory.
pub fn read_number(text: &[u8]) -> Option<i64>
    ensures found { IfSome result (λ n. text.now ≡ signed_decimal n) }
    ensures none { IfNone result ((n : ℤ) → FitsSigned w64 n → text.now ≡ signed_decimal n → ⊥) }
{
    let digits = std::str::from_utf8(text).ok()?;
    let number = digits.parse::<i64>().ok()?;
    let mut buffer = Buffer::new();
    if buffer.format(number).as_bytes() == text {
        Some(number)
    } else {
        None
    }
}
