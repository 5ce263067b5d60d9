//! Bytes as tests write them: lines of hexadecimal digits, two for a byte.

ghost use Rattle.std.specs.Prelude.{◌≡◌, ◌++◌, ◌<◌, IfOk, OnOk};
ghost use Rattle.std.specs.List.{flat_map};
ghost use Rattle.unit_tests.specs.Digits.{digit, encoded};

use std::alloc::{AllocError, Global};

/// The bytes that the lines encode, one line after the other.
pub fn bytes_of(alloc: Global, lines: &[&str]) -> Result<Vec<u8>, AllocError>
    ensures { IfOk result (λ bytes. bytes.items ≡ flat_map (λ line. encoded line.now) lines.now) }
{
    let mut bytes = Vec::new(alloc);
    for line in lines {
        push_line(&mut bytes, line.as_bytes())?;
    }
    Ok(bytes)
}

/// Appends the bytes that the line encodes.
fn push_line(bytes: &mut Vec<u8>, line: &[u8]) -> Result<(), AllocError>
    ensures { OnOk result (bytes.new.items ≡ bytes.old.items ++ encoded line.now) }
{
    let mut left = line;
    while let [high, low, rest @ ..] = left {
        bytes.push(16 * digit(*high) + digit(*low))?;
        left = rest;
    }
    Ok(())
}

/// The value of a digit; that of another character is 0.
fn digit(character: u8) -> u8
    ensures value { result ≡ digit character }
    ensures low { result < 16 }
{
    match character {
        b'0'..=b'9' => character - b'0',
        b'a'..=b'f' => character - b'a' + 10,
        _ => 0,
    }
}
