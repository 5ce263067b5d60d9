//! The tokens of a policy.

use mon_base::Bytes;

/// What a token is.
#[derive(Drop)]
pub enum Lexeme {
    /// A keyword or a sign of the grammar, by its bytes.
    Quoted(Bytes),
    /// A name, by its bytes: a letter, `_` or `$`, and then letters, digits, `_` and `$`, and no keyword.
    Name(Bytes),
    /// A number, or 10,000,000,000 where it is greater.
    Number(u64),
    /// Bytes that begin no token, or a longer run of digits that begins with `0`.
    Wrong,
    /// The end of the text.
    End,
}

/// A token, and how many bytes of the text stand before it.
#[derive(Drop)]
pub struct Token {
    pub at: u64,
    pub lexeme: Lexeme,
}
