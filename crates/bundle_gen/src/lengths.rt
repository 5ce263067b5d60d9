//! How many bytes class files have.

ghost use Rattle.std.specs.Prelude.{◌≡◌, ◌<◌, ◌^◌, length, IfOk};
ghost use Rattle.bundle_gen.specs.Sizes.{bytes_of};
ghost use Rattle.class_codec.specs.Encoding.{encoding};

use class_codec::{ClassFile, encode};
use mon_base::NoMemory;
use std::alloc::Global;

/// The bytes of class files in all.
pub fn bytes_of(alloc: Global, files: &[ClassFile]) -> Result<u64, NoMemory>
    requires { bytes_of files.now < 2 ^ 63 }
    ensures { IfOk result (λ bytes. bytes ≡ bytes_of files.now) }
{
    let mut bytes: u64 = 0;
    let mut left = files;
    while let [file, rest @ ..] = left {
        let length = length_of(alloc, file)?;
        bytes += length;
        left = rest;
    }
    Ok(bytes)
}

/// The bytes of a class file.
fn length_of(alloc: Global, file: &ClassFile) -> Result<u64, NoMemory>
    ensures { IfOk result (λ bytes. bytes ≡ length (encoding file.now)) }
{
    let encoded = encode(alloc, file)?;
    Ok(encoded.len() as u64)
}
