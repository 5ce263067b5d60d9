//! The least type to which two are assignable. (The Java Virtual Machine Specification, section 4.10.2.2.)

ghost use Rattle.std.specs.Prelude.{◌≡◌, ◌++◌, IfOk, OnOk};
ghost use Rattle.api_listing.specs.BuiltIn.{object};
ghost use Rattle.cert_format.specs.declared.typing.VType.TheVariants.{Ref};
ghost use Rattle.type_lattice.specs.Merging.{arrays_merged, class_merged, items_merged, leaf_merged, merged, names_merged};

use crate::assigning::OBJECT;
use crate::comparing::{both_within, reference_of};
use crate::indexed::{Indexed, first_above, is_interface};
use bytecode_model::{is_array, push_described};
use cert_format::{Name, VType};
use mon_base::{Bytes, NoMemory};
use std::alloc::Global;

/// What an array of items without a merge is, after a `[`.
const OBJECT_DESCRIBED: &[u8] = b"Ljava/lang/Object;";

/// Of two classes.
fn class_merged<'a>(program: &'a Indexed, a: &[u8], b: &[u8]) -> &'a [u8]
    ensures { result.now ≡ class_merged program.now a.now b.now }
{
    if is_interface(program, a) || is_interface(program, b) {
        return OBJECT;
    }
    match first_above(program, a, b) {
        Some(name) => name,
        None => OBJECT,
    }
}

/// Of two classes or arrays that are not both arrays.
fn leaf_merged<'a>(program: &'a Indexed, a: &'a [u8], b: &[u8]) -> &'a [u8]
    ensures { result.now ≡ leaf_merged program.now a.now b.now }
{
    if a == b {
        a
    } else if is_array(a) || is_array(b) {
        OBJECT
    } else {
        class_merged(program, a, b)
    }
}

/// Appends the array of these two items' merge, or else what is told.
fn push_items_merged(
    out: &mut Bytes,
    program: &Indexed,
    otherwise: &[u8],
    a: &[u8],
    b: &[u8],
) -> Result<(), NoMemory>
    ensures { OnOk result (out.new ≡ out.old ++ items_merged program.now otherwise.now a.now b.now) }
{
    if a == b {
        out.push(b'[')?;
        return out.extend(a);
    }
    match reference_of(a) {
        None => out.extend(otherwise),
        Some(x) => {
            match reference_of(b) {
                None => out.extend(otherwise),
                Some(y) => {
                    out.push(b'[')?;
                    push_described(out, leaf_merged(program, x, y))
                }
            }
        }
    }
}

/// Appends the merge of two arrays of these items.
fn push_arrays_merged(
    out: &mut Bytes,
    program: &Indexed,
    a: &[u8],
    b: &[u8],
) -> Result<(), NoMemory>
    ensures { OnOk result (out.new ≡ out.old ++ arrays_merged program.now object a.now b.now) }
{
    let mut otherwise = OBJECT;
    let mut a = a;
    let mut b = b;
    while let Some((x, y)) = both_within(a, b) {
        out.push(b'[')?;
        otherwise = OBJECT_DESCRIBED;
        a = x;
        b = y;
    }
    push_items_merged(out, program, otherwise, a, b)
}

/// Of two arrays of these items.
fn arrays_merged(alloc: Global, program: &Indexed, a: &[u8], b: &[u8]) -> Result<Bytes, NoMemory>
    ensures { IfOk result (λ name. name ≡ arrays_merged program.now object a.now b.now) }
{
    let mut out = Bytes::new(alloc);
    push_arrays_merged(&mut out, program, a, b)?;
    Ok(out)
}

/// Of two classes or arrays.
fn names_merged(alloc: Global, program: &Indexed, a: &[u8], b: &[u8]) -> Result<Bytes, NoMemory>
    ensures { IfOk result (λ name. name ≡ names_merged program.now a.now b.now) }
{
    match both_within(a, b) {
        None => Bytes::from_slice(alloc, leaf_merged(program, a, b)),
        Some((x, y)) => arrays_merged(alloc, program, x, y),
    }
}

/// Of a reference to this class or array and a type.
fn reference_merged(
    alloc: Global,
    program: &Indexed,
    a: &Name,
    b: &VType,
) -> Result<VType, NoMemory>
    ensures { IfOk result (λ t. t ≡ merged program.now (Ref a.now) b.now) }
{
    match b {
        VType::Null => Ok(VType::Ref(a.share()?)),
        VType::Ref(b) => {
            let merged = names_merged(alloc, program, a.as_slice(), b.as_slice())?;
            Ok(VType::Ref(Name::from_bytes(alloc, merged)?))
        }
        _ => Ok(VType::Top),
    }
}

/// The least type to which both are assignable.
pub fn merge(alloc: Global, program: &Indexed, a: &VType, b: &VType) -> Result<VType, NoMemory>
    ensures { IfOk result (λ t. t ≡ merged program.now a.now b.now) }
{
    match a {
        VType::Top => Ok(VType::Top),
        VType::Int => {
            match b {
                VType::Int => Ok(VType::Int),
                _ => Ok(VType::Top),
            }
        }
        VType::Null => {
            match b {
                VType::Null => Ok(VType::Null),
                VType::Ref(b) => Ok(VType::Ref(b.share()?)),
                _ => Ok(VType::Top),
            }
        }
        VType::Ref(a) => reference_merged(alloc, program, a, b),
        VType::UninitThis => {
            match b {
                VType::UninitThis => Ok(VType::UninitThis),
                _ => Ok(VType::Top),
            }
        }
        VType::Uninit(i) => {
            match b {
                VType::Uninit(j) => {
                    if *i == *j {
                        Ok(VType::Uninit(*i))
                    } else {
                        Ok(VType::Top)
                    }
                }
                _ => Ok(VType::Top),
            }
        }
    }
}
