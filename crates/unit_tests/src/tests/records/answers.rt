//! Each form of answer, and its line.

use api_listing::ApiAnswer;
use mon_base::{Bytes, NoMemory};
use std::alloc::Global;

/// The bytes, owned.
pub fn bytes(alloc: Global, text: &[u8]) -> Result<Bytes, NoMemory> {
    Bytes::from_slice(alloc, text)
}

/// The line of each kind of answer.
pub static ANSWERS: [&str; 10] = [
    "answer 7 nothing",
    "answer 7 int -2147483648",
    "answer 7 null",
    "answer 7 text -",
    "answer 7 text 00af7f",
    "answer 7 fresh api/Net",
    "answer 7 fresh java/lang/Object",
    "answer 7 arg 4294967295",
    "answer 7 receiver",
    "answer 7 throws api/Broken",
];

fn text_answer(alloc: Global, text: &[u8]) -> Result<ApiAnswer, NoMemory> {
    Ok(ApiAnswer::Text(bytes(alloc, text)?))
}

fn fresh_answer(alloc: Global, class: &[u8]) -> Result<ApiAnswer, NoMemory> {
    Ok(ApiAnswer::Fresh(bytes(alloc, class)?))
}

/// The answer of the line in this place.
pub fn answer(alloc: Global, place: usize) -> Result<ApiAnswer, NoMemory> {
    match place {
        0 => Ok(ApiAnswer::Nothing),
        1 => Ok(ApiAnswer::Int(-2147483648)),
        2 => Ok(ApiAnswer::Null),
        3 => text_answer(alloc, b""),
        4 => text_answer(alloc, b"\x00\xaf\x7f"),
        5 => fresh_answer(alloc, b"api/Net"),
        6 => fresh_answer(alloc, b"java/lang/Object"),
        7 => Ok(ApiAnswer::Arg(4294967295)),
        8 => Ok(ApiAnswer::Receiver),
        _ => Ok(ApiAnswer::Throws(bytes(alloc, b"api/Broken")?)),
    }
}
