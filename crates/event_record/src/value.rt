//! Values as words of a record.

ghost use Rattle.std.specs.Prelude.{◌≡◌, ◌<◌, [], length, drop, None, IfOk, IfSome};
ghost use Rattle.mon_base.specs.Answer.{Answers};
ghost use Rattle.event_record.specs.Value.{
  begins,
  byte_at,
  bytes_from,
  class_value,
  digit_at,
  hex_at,
  int_value,
  last_at,
  object_parts,
  object_value,
  text_value,
  value_at,
};

use crate::number::{index_of, int_of};
use crate::words::is_text;
use api_listing::{ApiValue, FormFault};
use mon_base::Bytes;
use std::alloc::Global;

/// The value that a word is.
#[tactic(auto, unfolding(crate::specs::Value::value_at))]
pub fn value_at(alloc: Global, word: &[u8]) -> Result<ApiValue, FormFault>
    ensures { Answers FormFault.Memory result (value_at word.now) }
{
    if is_text(word, "null") {
        Ok(ApiValue::Null)
    } else if begins("text:", word) {
        text_value(alloc, following(word, 5))
    } else if begins("obj:", word) {
        object_value(alloc, following(word, 4))
    } else if begins("class:", word) {
        class_value(alloc, following(word, 6))
    } else {
        int_value(word)
    }
}

fn begins(front: &str, text: &[u8]) -> bool
    ensures { result ≡ begins front.now text.now }
{
    text.starts_with(front.as_bytes())
}

/// What stands after the first `n` bytes, or nothing.
fn following(text: &[u8], n: usize) -> &[u8]
    ensures { result.now ≡ drop n text.now }
{
    if n < text.len() { &text[n..] } else { &[] }
}

#[tactic(auto, unfolding(crate::specs::Value::text_value))]
fn text_value(alloc: Global, text: &[u8]) -> Result<ApiValue, FormFault>
    ensures { Answers FormFault.Memory result (text_value text.now) }
{
    let bytes = hex_at(alloc, text)?;
    Ok(ApiValue::Text(bytes))
}

#[tactic(auto, unfolding(crate::specs::Value::object_value))]
fn object_value(alloc: Global, text: &[u8]) -> Result<ApiValue, FormFault>
    ensures { Answers FormFault.Memory result (object_value text.now) }
{
    let Some(place) = last_at(text) else {
        return Err(FormFault::NoForm);
    };
    object_parts(alloc, text, place)
}

#[tactic(auto, unfolding(crate::specs::Value::object_parts))]
fn object_parts(alloc: Global, text: &[u8], place: usize) -> Result<ApiValue, FormFault>
    requires { place < length text.now }
    ensures { Answers FormFault.Memory result (object_parts text.now place) }
{
    if place == 0 {
        return Err(FormFault::NoForm);
    }
    let Some(at) = index_of(&text[place + 1..]) else {
        return Err(FormFault::NoForm);
    };
    let class = Bytes::from_slice(alloc, &text[..place])?;
    Ok(ApiValue::Obj { class, at })
}

/// The place of the last `@`.
fn last_at(text: &[u8]) -> Option<usize>
    ensures is { result ≡ last_at 0 None text.now }
    ensures within { IfSome result (λ place. place < length text.now) }
{
    let mut known = None;
    for place in 0..text.len() {
        if text[place] == b'@' {
            known = Some(place);
        }
    }
    known
}

#[tactic(auto, unfolding(crate::specs::Value::class_value))]
fn class_value(alloc: Global, text: &[u8]) -> Result<ApiValue, FormFault>
    ensures { Answers FormFault.Memory result (class_value text.now) }
{
    if text.is_empty() {
        return Err(FormFault::NoForm);
    }
    let name = Bytes::from_slice(alloc, text)?;
    Ok(ApiValue::Class(name))
}

#[tactic(auto, unfolding(crate::specs::Value::int_value))]
fn int_value(text: &[u8]) -> Result<ApiValue, FormFault>
    ensures { Answers FormFault.Memory result (int_value text.now) }
{
    let Some(n) = int_of(text) else {
        return Err(FormFault::NoForm);
    };
    Ok(ApiValue::Int(n))
}

/// The bytes that pairs of digits encode, or `-` for none.
#[tactic(auto, unfolding(crate::specs::Value::hex_at))]
pub fn hex_at(alloc: Global, text: &[u8]) -> Result<Bytes, FormFault>
    ensures { Answers FormFault.Memory result (hex_at text.now) }
{
    if is_text(text, "-") {
        return Ok(Bytes::new(alloc));
    }
    if text.is_empty() {
        return Err(FormFault::NoForm);
    }
    bytes_of(alloc, text)
}

fn bytes_of(alloc: Global, text: &[u8]) -> Result<Bytes, FormFault>
    ensures { Answers FormFault.Memory result (bytes_from [] text.now) }
{
    let mut bytes = Bytes::from_vec(Vec::with_capacity(alloc, text.len() / 2)?);
    let mut left = text;
    while let [high, low, rest @ ..] = left {
        let byte = byte_at(*high, *low)?;
        bytes.push(byte)?;
        left = rest;
    }
    if left.is_empty() {
        Ok(bytes)
    } else {
        Err(FormFault::NoForm)
    }
}

fn byte_at(high: u8, low: u8) -> Result<u8, FormFault>
    ensures { Answers FormFault.Memory result (byte_at high low) }
{
    let high = digit_at(high)?;
    let low = digit_at(low)?;
    Ok(16 * high + low)
}

fn digit_at(b: u8) -> Result<u8, FormFault>
    ensures read { Answers FormFault.Memory result (digit_at b) }
    ensures low { IfOk result (λ n. n < 16) }
{
    if 48 <= b && b <= 57 {
        Ok(b - 48)
    } else if 97 <= b && b <= 102 {
        Ok(b - 87)
    } else {
        Err(FormFault::NoForm)
    }
}
