//! The types that descriptors tell. (The Java Virtual Machine Specification, section 4.3.)

ghost use Rattle.std.specs.Prelude.{◌≡◌, ◌≤◌, ◌-◌, length, take, option_map};
ghost use Rattle.bytecode_model.specs.Borrowing.{type_borrowed};
ghost use Rattle.bytecode_model.specs.Described.{
  name_length,
  type_length,
  first_type,
  after_type,
  next_type,
  types_at,
  arguments,
  result_text,
  type_described,
  result_type,
};

use bytecode_model::TypeRef;

/// How long a class's name at the front is, with the `;` after it.
fn name_length(text: &[u8]) -> usize
    ensures value { result ≡ name_length text.now }
    ensures fits { result ≤ length text.now }
{
    let mut count: usize = 0;
    let mut left = text;
    while let [first, rest @ ..] = left {
        count += 1;
        if *first == b';' {
            return count;
        }
        left = rest;
    }
    count
}

/// How long the type at the front is.
fn type_length(text: &[u8]) -> usize
    ensures value { result ≡ type_length text.now }
    ensures fits { result ≤ length text.now }
{
    let mut count: usize = 0;
    let mut left = text;
    while let [first, rest @ ..] = left {
        count += 1;
        if *first == b'L' {
            return count + name_length(rest);
        }
        if *first != b'[' {
            return count;
        }
        left = rest;
    }
    count
}

/// The type at the front, and what stands after it.
fn split_type<'a>(text: &'a [u8]) -> (&'a [u8], &'a [u8])
    ensures first { result.0.now ≡ first_type text.now }
    ensures following { result.1.now ≡ after_type text.now }
{
    let count = type_length(text);
    text.split_at(count)
}

/// The type at the front and what stands after it, unless the arguments end there.
pub fn next_type<'a>(text: &'a [u8]) -> Option<(&'a [u8], &'a [u8])>
    ensures { option_map (λ r. (r.0.now, r.1.now)) result ≡ next_type text.now }
{
    match text {
        [] => None,
        [first, ..] => {
            if *first == b')' {
                None
            } else {
                Some(split_type(text))
            }
        }
    }
}

/// The text of the arguments' types, with what stands after them.
pub fn arguments_text(desc: &[u8]) -> &[u8]
    ensures { arguments desc.now ≡ types_at 255 result.now }
{
    match desc {
        [] => desc,
        [_, rest @ ..] => rest,
    }
}

/// How many arguments a method takes.
pub fn arity(desc: &[u8]) -> usize
    ensures value { result ≡ length (arguments desc.now) }
    ensures few { result ≤ 255 }
{
    let mut count: usize = 0;
    let mut left = arguments_text(desc);
    for _ in 0..255usize {
        let Some((_, following)) = next_type(left) else {
            return count;
        };
        count += 1;
        left = following;
    }
    count
}

/// What stands after the arguments.
pub fn result_text(desc: &[u8]) -> &[u8]
    ensures { result.now ≡ result_text desc.now }
{
    let mut left = desc;
    while let [first, rest @ ..] = left {
        if *first == b')' {
            return rest;
        }
        left = rest;
    }
    left
}

/// The type of a field, an argument or a result.
pub fn type_described(text: &[u8]) -> TypeRef<'_>
    ensures { type_borrowed result ≡ type_described text.now }
{
    match text {
        [] => TypeRef::Top,
        [first, rest @ ..] => {
            if *first == b'[' {
                TypeRef::Ref(text)
            } else if *first == b'L' {
                TypeRef::Ref(without_last(rest))
            } else {
                TypeRef::Int
            }
        }
    }
}

/// The text without its last byte.
pub fn without_last(text: &[u8]) -> &[u8]
    ensures { result.now ≡ take (length text.now - 1) text.now }
{
    let count = text.len().saturating_sub(1);
    &text[..count]
}

/// The type of a method's result, or nothing where it has none.
pub fn result_type(desc: &[u8]) -> Option<TypeRef<'_>>
    ensures { option_map type_borrowed result ≡ result_type desc.now }
{
    let text = result_text(desc);
    if text == b"V".as_slice() {
        None
    } else {
        Some(type_described(text))
    }
}
