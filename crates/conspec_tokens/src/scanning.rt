//! The tokens of a text.
//!
//! Each token is the longest one that fits. Spaces, tabs, newlines and carriage returns stand between tokens, and
//! comments from `//` to the end of their line.

ghost use Rattle.std.specs.Prelude.{◌≡◌, ◌≤◌, ◌++◌, length, map, IfOk, nat_eq, bytes_eq};
ghost use Rattle.std.specs.List.{list_any, prefix_len, starts_with};
ghost use Rattle.std.specs.Char.{is_ascii_digit};
ghost use Rattle.api_listing.specs.Words.{is_name_start, is_name_byte};
ghost use Rattle.conspec_tokens.specs.Words.{is_keyword, signs};
ghost use Rattle.conspec_tokens.specs.Tokens.{
  most,
  number_from,
  number_of,
  word_of,
  first_sign,
  sign_of,
  word_at,
  digits_at,
  sign_at,
  token_at,
  is_blank,
  in_gap,
  seen,
  begun,
  is_wrong,
  next_spot,
  tokens_of,
};

use crate::token::{Lexeme, Token};
use mon_base::{Bytes, List, NoMemory};
use std::alloc::Global;

/// The words that no name may be.
pub static KEYWORDS: [&str; 19] = [
    "MAXINT",
    "SCOPE",
    "Session",
    "SECURITY",
    "STATE",
    "BEFORE",
    "AFTER",
    "EXCEPTIONAL",
    "PERFORM",
    "ELSE",
    "void",
    "int",
    "bool",
    "boolean",
    "byte",
    "short",
    "char",
    "true",
    "false",
];

/// The signs: one that begins with another stands before it.
pub static SIGNS: [&str; 22] = [
    "<init>", "->", "||", "&&", "==", "!=", "<=", ">=", "=", ";", ".", ",", "(", ")", "[", "]",
    "{", "}", "<", ">", "+", "-",
];

/// The greatest number that a token keeps.
const MOST: u64 = 10_000_000_000;

/// Where a byte stands.
#[derive(Clone, Copy)]
pub enum Spot {
    Comment,
    /// So many bytes of a token are still to come: none between tokens.
    Inside(usize),
}

/// What a byte is.
#[derive(Drop)]
pub enum Piece {
    /// Layout or a later byte of a token; the next byte stands here.
    Skips(Spot),
    /// The first byte of a token, and how many more it has.
    Begins(Lexeme, usize),
}

/// The tokens of the text: the last is its end, or the first bytes that begin none.
#[tactic(auto, unfolding(crate::specs::Tokens::tokens_of))]
pub fn tokens_of(alloc: Global, text: &[u8]) -> Result<List<Token>, NoMemory>
    ensures { IfOk result (λ tokens. tokens ≡ tokens_of text.now) }
{
    let mut tokens = List::new(alloc);
    let mut spot = Spot::Inside(0);
    let mut at: u64 = 0;
    let mut left = text;
    while let [byte, rest @ ..] = left {
        let found = seen(alloc, spot, *byte, left)?;
        let next = next_spot(&found);
        tokens = with_begun(tokens, at, found)?;
        match next {
            Some(place) => spot = place,
            None => return Ok(tokens),
        }
        at += 1;
        left = rest;
    }
    tokens.push(Token {
        at,
        lexeme: Lexeme::End,
    })?;
    Ok(tokens)
}

/// The tokens, and after them the one that begins.
fn with_begun(tokens: List<Token>, at: u64, found: Piece) -> Result<List<Token>, NoMemory>
    ensures { IfOk result (λ more. more ≡ tokens ++ begun at found) }
{
    let Piece::Begins(lexeme, _) = found else {
        return Ok(tokens);
    };
    let mut tokens = tokens;
    tokens.push(Token { at, lexeme })?;
    Ok(tokens)
}

/// Where the next byte stands: nothing is read after bytes that begin no token.
fn next_spot(found: &Piece) -> Option<Spot>
    ensures { result ≡ next_spot found.now }
{
    match found {
        Piece::Skips(spot) => Some(*spot),
        Piece::Begins(lexeme, more) => {
            if is_wrong(lexeme) {
                None
            } else {
                Some(Spot::Inside(*more))
            }
        }
    }
}

fn is_wrong(lexeme: &Lexeme) -> bool
    ensures { result ≡ is_wrong lexeme.now }
{
    match lexeme {
        Lexeme::Wrong => true,
        _ => false,
    }
}

/// What the byte, the first of the text, is.
fn seen(alloc: Global, spot: Spot, byte: u8, text: &[u8]) -> Result<Piece, NoMemory>
    ensures { IfOk result (λ found. found ≡ seen spot byte text.now) }
{
    match spot {
        Spot::Comment => {
            if byte == b'\n' {
                Ok(Piece::Skips(Spot::Inside(0)))
            } else {
                Ok(Piece::Skips(Spot::Comment))
            }
        }
        Spot::Inside(0) => in_gap(alloc, byte, text),
        Spot::Inside(more) => Ok(Piece::Skips(Spot::Inside(more - 1))),
    }
}

fn in_gap(alloc: Global, byte: u8, text: &[u8]) -> Result<Piece, NoMemory>
    ensures { IfOk result (λ found. found ≡ in_gap byte text.now) }
{
    if is_blank(byte) {
        Ok(Piece::Skips(Spot::Inside(0)))
    } else if begins_with(text, "//") {
        Ok(Piece::Skips(Spot::Comment))
    } else {
        token_at(alloc, byte, text)
    }
}

fn is_blank(byte: u8) -> bool
    ensures { result ≡ is_blank byte }
{
    byte == b' ' || byte == b'\t' || byte == b'\n' || byte == b'\r'
}

fn begins_with(text: &[u8], front: &str) -> bool
    ensures { result ≡ starts_with nat_eq text.now front.now }
{
    text.starts_with(front.as_bytes())
}

/// The longest token that fits.
fn token_at(alloc: Global, byte: u8, text: &[u8]) -> Result<Piece, NoMemory>
    ensures { IfOk result (λ found. found ≡ token_at byte text.now) }
{
    if starts_name(byte) {
        word_at(alloc, text)
    } else if byte.is_ascii_digit() {
        Ok(digits_at(text))
    } else {
        sign_at(alloc, text)
    }
}

fn word_at(alloc: Global, text: &[u8]) -> Result<Piece, NoMemory>
    ensures { IfOk result (λ found. found ≡ word_at text.now) }
{
    let long = name_len(text);
    let word = Bytes::from_slice(alloc, &text[..long])?;
    Ok(Piece::Begins(word_of(word), long.saturating_sub(1)))
}

fn word_of(word: Bytes) -> Lexeme
    ensures { result ≡ word_of word }
{
    if is_keyword(word.as_slice()) {
        Lexeme::Quoted(word)
    } else {
        Lexeme::Name(word)
    }
}

fn digits_at(text: &[u8]) -> Piece
    ensures { result ≡ digits_at text.now }
{
    let long = digits_len(text);
    Piece::Begins(number_of(&text[..long]), long.saturating_sub(1))
}

/// The number that the digits are; a longer run of digits does not begin with `0`.
fn number_of(digits: &[u8]) -> Lexeme
    ensures { result ≡ number_of digits.now }
{
    match digits {
        [] => Lexeme::Wrong,
        [first, others @ ..] => {
            if *first == b'0' && !others.is_empty() {
                Lexeme::Wrong
            } else {
                Lexeme::Number(value_of(digits))
            }
        }
    }
}

fn value_of(digits: &[u8]) -> u64
    ensures { result ≡ number_from 0 digits.now }
{
    let mut value: u64 = 0;
    let mut left = digits;
    while let [digit, others @ ..] = left {
        value = (value * 10 + (*digit).saturating_sub(b'0') as u64).min(MOST);
        left = others;
    }
    value
}

fn sign_at(alloc: Global, text: &[u8]) -> Result<Piece, NoMemory>
    ensures { IfOk result (λ found. found ≡ sign_at text.now) }
{
    let long = sign_len(text);
    let sign = Bytes::from_slice(alloc, &text[..long])?;
    Ok(Piece::Begins(sign_of(sign), long.saturating_sub(1)))
}

fn sign_of(sign: Bytes) -> Lexeme
    ensures { result ≡ sign_of sign }
{
    if sign.is_empty() {
        Lexeme::Wrong
    } else {
        Lexeme::Quoted(sign)
    }
}

/// How many bytes at the front may stand in a name.
fn name_len(text: &[u8]) -> usize
    ensures value { result ≡ prefix_len is_name_byte text.now }
    ensures within { result ≤ length text.now }
{
    let mut long: usize = 0;
    let mut left = text;
    while let [byte, rest @ ..] = left {
        if !continues_name(*byte) {
            return long;
        }
        long += 1;
        left = rest;
    }
    long
}

/// How many bytes at the front are digits.
fn digits_len(text: &[u8]) -> usize
    ensures value { result ≡ prefix_len is_ascii_digit text.now }
    ensures within { result ≤ length text.now }
{
    let mut long: usize = 0;
    let mut left = text;
    while let [byte, rest @ ..] = left {
        if !byte.is_ascii_digit() {
            return long;
        }
        long += 1;
        left = rest;
    }
    long
}

/// How many bytes the sign at the front has: 0 where none stands there.
fn sign_len(text: &[u8]) -> usize
    ensures value { result ≡ first_sign signs text.now }
    ensures within { result ≤ length text.now }
{
    first_sign(SIGNS.as_slice(), text)
}

fn first_sign(signs: &[&str], text: &[u8]) -> usize
    ensures value { result ≡ first_sign (map (λ s. s.now) signs.now) text.now }
    ensures within { result ≤ length text.now }
{
    let mut left = signs;
    while let [sign, others @ ..] = left {
        if begins_with(text, sign) {
            return sign.len();
        }
        left = others;
    }
    0
}

/// Whether the word is one that the grammar quotes.
fn is_keyword(word: &[u8]) -> bool
    ensures { result ≡ is_keyword word.now }
{
    is_among(KEYWORDS.as_slice(), word)
}

fn is_among(words: &[&str], word: &[u8]) -> bool
    ensures { result ≡ list_any (λ w. bytes_eq word.now w.now) words.now }
{
    let mut left = words;
    while let [first, others @ ..] = left {
        if word == first.as_bytes() {
            return true;
        }
        left = others;
    }
    false
}

fn starts_name(byte: u8) -> bool
    ensures { result ≡ is_name_start byte }
{
    byte.is_ascii_alphabetic() || byte == b'_' || byte == b'$'
}

fn continues_name(byte: u8) -> bool
    ensures { result ≡ is_name_byte byte }
{
    starts_name(byte) || byte.is_ascii_digit()
}
