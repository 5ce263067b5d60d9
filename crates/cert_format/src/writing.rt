//! Numbers and lists of bytes, the highest byte first.

ghost use Rattle.std.specs.Prelude.{◌≡◌, ◌++◌, OnOk};
ghost use Rattle.mon_base.specs.Widths.{u1, u2, u4};
ghost use Rattle.cert_format.specs.Encoding.{i4, flag};

use byteorder::{BigEndian, ByteOrder};
use mon_base::{Bytes, NoMemory};

/// Appends the lowest byte of the number.
pub fn put_u1(out: &mut Bytes, n: usize) -> Result<(), NoMemory>
    ensures { OnOk result (out.new ≡ out.old ++ u1 n) }
{
    let mut bytes = [0u8; 8];
    BigEndian::write_u64(&mut bytes, n as u64);
    out.extend(&bytes[7..])
}

/// Appends the lowest two bytes of the number.
pub fn put_u2(out: &mut Bytes, n: usize) -> Result<(), NoMemory>
    ensures { OnOk result (out.new ≡ out.old ++ u2 n) }
{
    let mut bytes = [0u8; 8];
    BigEndian::write_u64(&mut bytes, n as u64);
    out.extend(&bytes[6..])
}

/// Appends the lowest four bytes of the number.
pub fn put_u4(out: &mut Bytes, n: usize) -> Result<(), NoMemory>
    ensures { OnOk result (out.new ≡ out.old ++ u4 n) }
{
    let mut bytes = [0u8; 8];
    BigEndian::write_u64(&mut bytes, n as u64);
    out.extend(&bytes[4..])
}

/// Appends the four bytes of the number with a sign.
pub fn put_i4(out: &mut Bytes, n: i32) -> Result<(), NoMemory>
    ensures { OnOk result (out.new ≡ out.old ++ i4 n) }
{
    put_u4(out, n.cast_unsigned() as usize)
}

/// The byte of a flag.
pub fn flag(is: bool) -> u8
    ensures { flag is ≡ u1 result }
{
    if is { 1 } else { 0 }
}
