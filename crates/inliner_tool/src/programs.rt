//! The program that class files link to, and its types.

ghost use Rattle.std.specs.Prelude.{◌≡◌, ◌≤◌, length, IfOk};
ghost use Rattle.std.specs.List.{AllByRecursion};
ghost use Rattle.api_listing.specs.Listing.{IsFew};
ghost use Rattle.bytecode_model.specs.Files.{max_files, unlinked};
ghost use Rattle.bytecode_model.specs.Order.{IsInOrder};
ghost use Rattle.bytecode_model.specs.Layout.{IsLaidOut};
ghost use Rattle.bytecode_model.specs.Sound.{IsSound};
ghost use Rattle.bytecode_model.specs.LinkedClasses.{IsLinkedOf};
ghost use Rattle.class_codec.specs.Fits.{IsEncodable};
ghost use Rattle.class_linking.specs.Linking.{linked};
ghost use Rattle.command_inputs.specs.Named.{IsListed};
ghost use Rattle.inliner_tool.specs.Programs.{Types, link_end, link_step, program_of};
ghost use Rattle.inliner_tool.specs.Steps.{Equals, UnlessMemory};
ghost use Rattle.type_infer.specs.Untyped.{IsLeast};
ghost use Rattle.typed_runs.specs.Programs.{IsLinkedProgram};

use crate::classes::{label_of, within_total};
use crate::refusal::{Ended, Refusal};
use api_listing::Listing;
use bytecode_model::Side;
use cert_format::Typing;
use class_codec::ClassFile;
use class_linking::{LinkFault, link};
use command_inputs::ReadClasses;
use mon_base::{Bytes, List};
use std::alloc::Global;
use type_infer::{InferFault, infer};
use type_lattice::Indexed;

/// The program that class files link to, with an index of its classes, where they are not too long in all.
pub fn program_of(
    alloc: Global,
    listing: Listing,
    classes: ReadClasses,
    main: &Bytes,
    side: Side,
) -> Result<Indexed, Ended>
    requires few { IsFew listing }
    requires listed { IsListed listing }
    requires fits { AllByRecursion IsEncodable classes.files }
    ensures is { UnlessMemory (Equals (program_of listing classes main.now side)) result }
    ensures listing { IfOk result (λ program. program.listing ≡ listing) }
    ensures back { IfOk result (λ program. unlinked program ≡ classes.files) }
    ensures few { IfOk result (λ program. length program.classes ≤ max_files) }
    ensures sound { IfOk result IsSound }
    ensures order { IfOk result IsInOrder }
    ensures links { IfOk result (IsLinkedOf side listing main.now) }
    ensures linked { IfOk result IsLinkedProgram }
{
    within_total(&classes)?;
    linked(alloc, classes.files, listing, main, side)
}

/// The program that the files link to, with an index of its classes.
fn linked(
    alloc: Global,
    files: List<ClassFile>,
    listing: Listing,
    main: &Bytes,
    side: Side,
) -> Result<Indexed, Ended>
    requires few { IsFew listing }
    requires listed { IsListed listing }
    requires fits { AllByRecursion IsEncodable files }
    ensures is { UnlessMemory (Equals (link_step (linked files listing main.now side))) result }
    ensures back { IfOk result (λ program. unlinked program ≡ files) }
    ensures few { IfOk result (λ program. length program.classes ≤ max_files) }
    ensures listing { IfOk result (λ program. program.listing ≡ listing) }
    ensures sound { IfOk result IsSound }
    ensures order { IfOk result IsInOrder }
    ensures links { IfOk result (IsLinkedOf side listing main.now) }
    ensures linked { IfOk result IsLinkedProgram }
{
    match link(alloc, files, listing, main, side) {
        Ok(program) => Ok(Indexed::new(alloc, program)?),
        Err(fault) => Err(link_end(fault)),
    }
}

/// Why files do not link.
fn link_end(fault: LinkFault) -> Ended
    ensures { result ≡ link_end fault }
{
    match fault {
        LinkFault::Memory => Ended::Memory,
        fault => Ended::Refused(Refusal::Link(fault)),
    }
}

/// The types of a program.
pub fn types_of(alloc: Global, program: &Indexed) -> Result<Typing, Ended>
    requires sound { IsSound program.now }
    requires order { IsInOrder program.now }
    ensures is { UnlessMemory (Types program.now) result }
    ensures shaped { IfOk result (λ typing. IsLaidOut program.now typing.frames) }
    ensures least { IfOk result (λ typing. IsLeast program.now typing) }
{
    let fault = match infer(alloc, program) {
        Ok(typing) => return Ok(typing),
        Err(fault) => fault,
    };
    let InferFault::Untyped { class, method, at } = fault else {
        return Err(Ended::Memory);
    };
    let class = label_of(alloc, program.program(), class)?;
    Err(Ended::Refused(Refusal::Untyped { class, method, at }))
}
