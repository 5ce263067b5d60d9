//! The class or the array of a result, as it is encoded.

ghost use Rattle.std.specs.Prelude.{IfOk, OnOk, replicate, ◌++◌, ◌≡◌};
ghost use Rattle.api_listing.specs.Descriptor.{class_encoded, element_encoded, type_encoded};
ghost use Rattle.bytecode_model.specs.Assigning.{reference_of};
ghost use Rattle.guest_model.specs.Answering.{result_class};

use api_listing::{Element, FieldType};
use mon_base::{Bytes, NoMemory};
use std::alloc::Global;
use type_lattice::reference_of;

/// The class, or the array, of a result that is no number.
pub fn result_class(alloc: Global, of: &Option<FieldType>) -> Result<Option<Bytes>, NoMemory>
    ensures { IfOk result (λ name. name ≡ result_class of.now) }
{
    match of {
        Some(t) => class_of_type(alloc, t),
        None => Ok(None),
    }
}

/// The class, or the array, of a type that is no number.
fn class_of_type(alloc: Global, t: &FieldType) -> Result<Option<Bytes>, NoMemory>
    ensures { IfOk result (λ name. name ≡ reference_of (type_encoded t.now)) }
{
    let text = encoded(alloc, t)?;
    match reference_of(text.as_slice()) {
        Some(name) => Ok(Some(Bytes::from_slice(alloc, name)?)),
        None => Ok(None),
    }
}

/// How the type is encoded.
fn encoded(alloc: Global, t: &FieldType) -> Result<Bytes, NoMemory>
    ensures { IfOk result (λ text. text ≡ type_encoded t.now) }
{
    let mut text = Bytes::new(alloc);
    push_brackets(&mut text, t.dimensions)?;
    push_element(&mut text, &t.element)?;
    Ok(text)
}

/// Appends a bracket for each dimension.
fn push_brackets(text: &mut Bytes, count: usize) -> Result<(), NoMemory>
    ensures { OnOk result (text.new ≡ text.old ++ replicate count 91) }
{
    for done in 0..count {
        text.push(b'[')?;
    }
    Ok(())
}

/// Appends how the element is encoded.
fn push_element(text: &mut Bytes, element: &Element) -> Result<(), NoMemory>
    ensures { OnOk result (text.new ≡ text.old ++ element_encoded element.now) }
{
    match element {
        Element::Boolean => text.push(b'Z'),
        Element::Byte => text.push(b'B'),
        Element::Char => text.push(b'C'),
        Element::Short => text.push(b'S'),
        Element::Int => text.push(b'I'),
        Element::Class(name) => push_class(text, name.as_slice()),
    }
}

/// Appends how a class is encoded.
fn push_class(text: &mut Bytes, name: &[u8]) -> Result<(), NoMemory>
    ensures { OnOk result (text.new ≡ text.old ++ class_encoded name.now) }
{
    text.push(b'L')?;
    text.extend(name)?;
    text.push(b';')
}
