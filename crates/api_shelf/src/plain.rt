//! The answer that a call gets where no device stands for the library.

ghost use Rattle.std.specs.Prelude.{◌≡◌, option_copied};
ghost use Rattle.api_listing.specs.declared.descriptor.MethodType.{MethodType};
ghost use Rattle.api_listing.specs.Descriptor.{EncodesDescriptor};
ghost use Rattle.api_shelf.specs.Plain.{plain_answer, plain_for, plain_named, plain_object, plain_encoded, result_text, encodes_number};

use api_listing::{ApiAnswer, ApiCall, parse_class_descriptor};
use mon_base::Bytes;
use std::alloc::Global;

/// The plain answer: nothing where the method has no result, 0 for a number, the receiver where there is one and the
/// result is of the method's own class, the empty text for a String, and else null. It takes no memory.
pub fn plain_answer(alloc: Global, call: &ApiCall) -> ApiAnswer
    ensures exact { result ≡ plain_answer call.now }
    // The type that the descriptor encodes decides it.
    ensures typed { (m : MethodType) → EncodesDescriptor call.now.method.desc m → result ≡ plain_for call.now m.result }
{
    plain_encoded(alloc, call, result_text(call.method.desc.as_slice()))
}

/// What stands in a descriptor after its arguments.
fn result_text<'a>(desc: &'a [u8]) -> &'a [u8]
    ensures { result.now ≡ result_text desc.now }
{
    let mut left = desc;
    while let [first, rest @ ..] = left {
        if *first == b')' {
            return rest;
        }
        left = rest;
    }
    left
}

fn plain_encoded(alloc: Global, call: &ApiCall, text: &[u8]) -> ApiAnswer
    ensures { result ≡ plain_encoded call.now text.now }
{
    if text == b"V".as_slice() {
        return ApiAnswer::Nothing;
    }
    if encodes_number(text) {
        return ApiAnswer::Int(0);
    }
    plain_named(alloc, call, parse_class_descriptor(text))
}

/// Whether it is the letter of a number's type.
fn encodes_number(text: &[u8]) -> bool
    ensures { result ≡ encodes_number text.now }
{
    text == b"Z".as_slice()
        || text == b"B".as_slice()
        || text == b"C".as_slice()
        || text == b"S".as_slice()
        || text == b"I".as_slice()
}

fn plain_named(alloc: Global, call: &ApiCall, name: Option<&[u8]>) -> ApiAnswer
    ensures { result ≡ plain_named call.now (option_copied name.entry) }
{
    match name {
        Some(name) => plain_object(alloc, call, name),
        None => ApiAnswer::Null,
    }
}

fn plain_object(alloc: Global, call: &ApiCall, name: &[u8]) -> ApiAnswer
    ensures { result ≡ plain_object call.now name.now }
{
    if call.instance && name == call.method.class.as_slice() {
        return ApiAnswer::Receiver;
    }
    if name == b"java/lang/String".as_slice() {
        return ApiAnswer::Text(Bytes::new(alloc));
    }
    ApiAnswer::Null
}
