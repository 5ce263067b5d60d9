//! What is written of a program and its certificate.

ghost use Rattle.std.specs.Prelude.{◌≡◌, map, IfOk};
ghost use Rattle.std.specs.List.{list_all};
ghost use Rattle.mon_base.specs.Answer.{Answers};
ghost use Rattle.command_outputs.specs.Outputs.{
  are_short,
  certificate_output,
  class_output,
  file_name,
  is_frame_short,
  is_type_short,
  outputs_told,
};

use bytecode_model::{LinkedClass, Program};
use cert_format::{CertLong, Certificate, FrameType, Typing, VType};
use mon_base::{Bytes, List, NoMemory};
use mon_store::Output;
use std::alloc::Global;

/// How many bytes a name may have whose length a certificate can tell.
const NAME_LIMIT: usize = 65_535;

/// The class files in their order, and after them the certificate; or how many bytes this would have, where it has too many, or
/// where a name is longer than it can tell.
pub fn outputs_of(
    alloc: Global,
    folder: &Bytes,
    program: &Program,
    certificate: &Certificate,
) -> Result<List<Output>, CertLong>
    ensures { Answers CertLong.Memory result (outputs_told folder.now program.now certificate.now) }
{
    let bytes = cert_format::encode(alloc, certificate)?;
    if !are_short(&certificate.typing) {
        return Err(CertLong::Certificate {
            value: bytes.len() as u64,
        });
    }
    let mut outputs = class_outputs(alloc, folder, program.classes.as_slice())?;
    outputs.push(certificate_output(alloc, folder, bytes)?)?;
    Ok(outputs)
}

/// Whether a certificate can tell the names of the types.
fn are_short(typing: &Typing) -> bool
    ensures { result ≡ are_short typing.now }
{
    typing
        .frames
        .as_slice()
        .iter()
        .all(|class| are_class_short(class.as_slice()))
}

fn are_class_short(methods: &[List<Option<FrameType>>]) -> bool
    ensures { result ≡ list_all (λ method. list_all is_frame_short method) methods.now }
{
    methods
        .iter()
        .all(|method| are_method_short(method.as_slice()))
}

fn are_method_short(frames: &[Option<FrameType>]) -> bool
    ensures { result ≡ list_all is_frame_short frames.now }
{
    frames.iter().all(|frame| is_frame_short(frame))
}

fn is_frame_short(frame: &Option<FrameType>) -> bool
    ensures { result ≡ is_frame_short frame.now }
{
    match frame {
        None => true,
        Some(frame) => {
            are_types_short(frame.locals.as_slice()) && are_types_short(frame.stack.as_slice())
        }
    }
}

fn are_types_short(types: &[VType]) -> bool
    ensures { result ≡ list_all is_type_short types.now }
{
    types.iter().all(|held| is_type_short(held))
}

fn is_type_short(held: &VType) -> bool
    ensures { result ≡ is_type_short held.now }
{
    match held {
        VType::Ref(name) => name.len() <= NAME_LIMIT,
        _ => true,
    }
}

fn class_outputs(
    alloc: Global,
    folder: &Bytes,
    classes: &[LinkedClass],
) -> Result<List<Output>, NoMemory>
    ensures { IfOk result (λ outputs. outputs ≡ map (class_output folder.now) classes.now) }
{
    let mut outputs = List::new(alloc);
    for class in classes {
        outputs.push(class_output(alloc, folder, class)?)?;
    }
    Ok(outputs)
}

fn class_output(alloc: Global, folder: &Bytes, class: &LinkedClass) -> Result<Output, NoMemory>
    ensures { IfOk result (λ output. output ≡ class_output folder.now class.now) }
{
    let name = file_name(alloc, folder, class.name.as_slice())?;
    let bytes = class_codec::encode(alloc, &class.file)?;
    Ok(Output { name, bytes })
}

/// The name of the file of the class of this name.
pub fn file_name(alloc: Global, folder: &Bytes, name: &[u8]) -> Result<Bytes, NoMemory>
    ensures { IfOk result (λ file. file ≡ file_name folder.now name.now) }
{
    let mut file = folder.copy(alloc)?;
    file.push(b'/')?;
    file.extend(name)?;
    file.extend(b".class")?;
    Ok(file)
}

fn certificate_output(alloc: Global, folder: &Bytes, bytes: Bytes) -> Result<Output, NoMemory>
    ensures { IfOk result (λ output. output ≡ certificate_output folder.now bytes) }
{
    let mut name = folder.copy(alloc)?;
    name.extend(b"/certificate")?;
    Ok(Output { name, bytes })
}
