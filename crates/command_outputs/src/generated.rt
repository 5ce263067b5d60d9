//! What is written of a program that was made from a number.

ghost use Rattle.std.specs.Prelude.{◌≡◌, ◌<◌, ◌^◌, ◌++◌, map, IfOk, OnOk};
ghost use Rattle.bundle_gen.specs.Sizes.{bytes_of};
ghost use Rattle.command_outputs.specs.Generated.{file_output, generated_outputs, listing_output, generated_name, policy_output};

use crate::outputs::file_name;
use bundle_gen::Bundle;
use class_codec::{ClassFile, class_name_at};
use mon_base::{Bytes, List, NoMemory};
use mon_store::Output;
use std::alloc::Global;

/// The class files in their order, the listing and the policy; and how many bytes the class files have in all.
pub fn generated_outputs(
    alloc: Global,
    folder: &Bytes,
    bundle: &Bundle,
) -> Result<(List<Output>, u64), NoMemory>
    requires { bytes_of bundle.now.files < 2 ^ 63 }
    ensures outputs { IfOk result (λ made. made.0 ≡ generated_outputs folder.now bundle.now) }
    ensures bytes { IfOk result (λ made. made.1 ≡ bytes_of bundle.now.files) }
{
    let mut outputs = List::new(alloc);
    let bytes = put_files(alloc, &mut outputs, folder, bundle.files.as_slice())?;
    outputs.push(listing_output(alloc, folder, &bundle.listing)?)?;
    outputs.push(policy_output(alloc, folder, &bundle.policy)?)?;
    Ok((outputs, bytes))
}

/// Appends the class files, and gives how many bytes they have in all.
fn put_files(
    alloc: Global,
    outputs: &mut List<Output>,
    folder: &Bytes,
    files: &[ClassFile],
) -> Result<u64, NoMemory>
    requires { bytes_of files.now < 2 ^ 63 }
    ensures outputs { OnOk result (outputs.new ≡ outputs.old ++ map (file_output folder.now) files.now) }
    ensures bytes { IfOk result (λ bytes. bytes ≡ bytes_of files.now) }
{
    let mut bytes: u64 = 0;
    let mut left = files;
    while let [file, rest @ ..] = left {
        let output = file_output(alloc, folder, file)?;
        bytes += output.bytes.len() as u64;
        outputs.push(output)?;
        left = rest;
    }
    Ok(bytes)
}

fn file_output(alloc: Global, folder: &Bytes, file: &ClassFile) -> Result<Output, NoMemory>
    ensures { IfOk result (λ output. output ≡ file_output folder.now file.now) }
{
    let name = file_name(alloc, folder, generated_name(file))?;
    let bytes = class_codec::encode(alloc, file)?;
    Ok(Output { name, bytes })
}

/// The name of the class.
fn generated_name(file: &ClassFile) -> &[u8]
    ensures { result.now ≡ generated_name file.now }
{
    match class_name_at(file.pool.as_slice(), file.this_class) {
        Some(name) => name.as_slice(),
        None => b"",
    }
}

fn listing_output(alloc: Global, folder: &Bytes, text: &Bytes) -> Result<Output, NoMemory>
    ensures { IfOk result (λ output. output ≡ listing_output folder.now text.now) }
{
    let mut name = folder.copy(alloc)?;
    name.extend(b"/listing")?;
    let bytes = text.copy(alloc)?;
    Ok(Output { name, bytes })
}

fn policy_output(alloc: Global, folder: &Bytes, text: &Bytes) -> Result<Output, NoMemory>
    ensures { IfOk result (λ output. output ≡ policy_output folder.now text.now) }
{
    let mut name = folder.copy(alloc)?;
    name.extend(b"/policy")?;
    let bytes = text.copy(alloc)?;
    Ok(Output { name, bytes })
}
