//! The letters of names, and the names of classes.

ghost use Rattle.std.specs.Prelude.{◌≡◌, ◌↔◌, IsTrue, bytes_eq};
ghost use Rattle.api_listing.specs.Words.{is_name_start, is_name_byte, is_segment, IsClassName};
ghost use Rattle.std.specs.List.{list_all};

/// Whether a name may begin with the byte: a letter, `_` or `$`.
pub fn starts_name(b: u8) -> bool
    ensures { result ≡ is_name_start b }
{
    b.is_ascii_alphabetic() || b == b'_' || b == b'$'
}

/// Whether a name may go on with the byte: a letter, a digit, `_` or `$`.
pub fn continues_name(b: u8) -> bool
    ensures { result ≡ is_name_byte b }
{
    starts_name(b) || b.is_ascii_digit()
}

/// Whether the bytes are the text.
pub fn is_text(bytes: &[u8], text: &str) -> bool
    ensures value { result ≡ bytes_eq bytes.now text.now }
    ensures cases { IsTrue result ↔ (bytes.now ≡ text.now) }
{
    bytes == text.as_bytes()
}

/// Whether a name may go on with each of the bytes.
pub fn all_continue(bytes: &[u8]) -> bool
    ensures { result ≡ list_all is_name_byte bytes.now }
{
    for b in bytes {
        if !continues_name(*b) {
            return false;
        }
    }
    true
}

fn segment(text: &[u8]) -> bool
    ensures { result ≡ is_segment text.now }
{
    match text {
        [] => false,
        [_, ..] => all_continue(text),
    }
}

/// Whether the text is a class's name: segments of ASCII letters, digits, `_` and `$`, joined by `/`.
pub fn class_name(text: &[u8]) -> bool
    ensures { IsTrue result ↔ IsClassName text.now }
{
    text.split(|b| *b == b'/').all(|part| segment(part))
}
