//! What stands first among tokens.

ghost use Rattle.std.specs.Prelude.{◌≡◌, drop, option_copied};
ghost use Rattle.conspec_tokens.specs.Front.{
  front_at,
  quotes,
  is_next,
  ends,
  is_end,
  names,
  next_name,
  is_name,
  counts,
  next_number,
};

use crate::token::{Lexeme, Token};

/// The tokens after the first.
pub fn rest_of(tokens: &[Token]) -> &[Token]
    ensures { result.now ≡ drop 1 tokens.now }
{
    match tokens {
        [] => tokens,
        [_, others @ ..] => others,
    }
}

/// Where the first token stands.
pub fn front_at(tokens: &[Token]) -> u64
    ensures { result ≡ front_at tokens.now }
{
    match tokens {
        [] => 0,
        [first, ..] => first.at,
    }
}

fn quotes(lexeme: &Lexeme, text: &str) -> bool
    ensures { result ≡ quotes text.now lexeme.now }
{
    match lexeme {
        Lexeme::Quoted(word) => word.as_slice() == text.as_bytes(),
        _ => false,
    }
}

/// Whether the first token is this keyword or sign.
pub fn is_next(text: &str, tokens: &[Token]) -> bool
    ensures { result ≡ is_next text.now tokens.now }
{
    match tokens {
        [] => false,
        [first, ..] => quotes(&first.lexeme, text),
    }
}

fn ends(lexeme: &Lexeme) -> bool
    ensures { result ≡ ends lexeme.now }
{
    match lexeme {
        Lexeme::End => true,
        _ => false,
    }
}

/// Whether the first token is the end of the text.
pub fn is_end(tokens: &[Token]) -> bool
    ensures { result ≡ is_end tokens.now }
{
    match tokens {
        [] => false,
        [first, ..] => ends(&first.lexeme),
    }
}

fn names(lexeme: &Lexeme) -> Option<&[u8]>
    ensures { option_copied result ≡ names lexeme.now }
{
    match lexeme {
        Lexeme::Name(word) => Some(word.as_slice()),
        _ => None,
    }
}

/// The name that the first token is.
pub fn next_name(tokens: &[Token]) -> Option<&[u8]>
    ensures { option_copied result ≡ next_name tokens.now }
{
    match tokens {
        [] => None,
        [first, ..] => names(&first.lexeme),
    }
}

/// Whether the first token is a name.
pub fn is_name(tokens: &[Token]) -> bool
    ensures { result ≡ is_name tokens.now }
{
    next_name(tokens).is_some()
}

fn counts(lexeme: &Lexeme) -> Option<u64>
    ensures { result ≡ counts lexeme.now }
{
    match lexeme {
        Lexeme::Number(n) => Some(*n),
        _ => None,
    }
}

/// The number that the first token is.
pub fn next_number(tokens: &[Token]) -> Option<u64>
    ensures { result ≡ next_number tokens.now }
{
    match tokens {
        [] => None,
        [first, ..] => counts(&first.lexeme),
    }
}
