//! The code of a method, among the attributes of its member. (The Java Virtual Machine Specification, section 4.7.3.)

ghost use Rattle.std.specs.Prelude.{◌≡◌, length, option_copied, slice_get};
ghost use Rattle.std.specs.List.{filter_map};
ghost use Rattle.bytecode_model.specs.Conditions.{code_in, has_its_code};

use crate::flags::is_abstract;
use class_codec::{Attr, Code, Member};

/// Whether a method has one code, or none where it is abstract.
pub fn has_its_code(member: &Member) -> bool
    ensures { result ≡ has_its_code member.now }
{
    let codes = count_codes(member.attrs.as_slice());
    if is_abstract(member.flags) {
        codes == 0
    } else {
        codes == 1
    }
}

fn count_codes(attrs: &[Attr]) -> usize
    ensures { result ≡ length (filter_map code_in attrs.now) }
{
    let mut count = 0;
    let mut left = attrs;
    while let [attr, rest @ ..] = left {
        if let Attr::Code(_) = attr {
            count += 1;
        }
        left = rest;
    }
    count
}

/// The first code of a method.
pub fn code_of(attrs: &[Attr]) -> Option<&Code>
    ensures { option_copied result ≡ slice_get (filter_map code_in attrs.now) 0 }
{
    let mut left = attrs;
    while let [attr, rest @ ..] = left {
        if let Attr::Code(code) = attr {
            return Some(code);
        }
        left = rest;
    }
    None
}
