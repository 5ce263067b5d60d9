//! The pieces of a text between single bytes: the lines of a record, and the words of a line.

ghost use Rattle.std.specs.Prelude.{◌≡◌, ◌==◌, ◌<◌, bytes_eq, length, IfSome};
ghost use Rattle.std.specs.List.{position};
ghost use Rattle.std.specs.Option.{option_copied, option_map};
ghost use Rattle.api_listing.specs.Words.{pieces};
ghost use Rattle.event_record.specs.Pieces.{IsSplit, IsTaken};
ghost use Rattle.event_record.specs.Record.{is_none};

use std::marker::Model;

/// The pieces of a text that are left to be read, each a part of the text. A contract sees the list of them.
#[derive(Drop)]
pub struct Pieces<'a> {
    byte: u8,
    left: Option<&'a [u8]>,
}

impl<'a> Model for Pieces<'a> {
    ghost use Rattle.std.specs.Prelude.{ℕ, List};
    ghost use Rattle.std.specs.Option.{option_copied};
    ghost use Rattle.event_record.specs.Pieces.{pieces_left};

    ghost Value = { List (List ℕ) };

    ghost view = { λ p. pieces_left p.byte (option_copied p.left) };
}

impl<'a> Pieces<'a> {
    /// The lines of a text, of which the last has no newline after it.
    pub fn lines(text: &'a [u8]) -> Pieces<'a>
        ensures { result ≡ pieces 10 text.now }
    {
        Pieces {
            byte: b'\n',
            left: Some(text),
        }
    }

    /// The words of a line, with one space between two.
    pub fn words(line: &'a [u8]) -> Pieces<'a>
        ensures { result ≡ pieces 32 line.now }
    {
        Pieces {
            byte: b' ',
            left: Some(line),
        }
    }

    /// Takes the first piece off.
    pub fn next(&mut self) -> Option<&'a [u8]>
        ensures { IsTaken (option_copied result) self.old self.new }
    {
        let text = self.left?;
        let Some((piece, rest)) = split_once(text, self.byte) else {
            self.left = None;
            return Some(text);
        };
        self.left = Some(rest);
        Some(piece)
    }

    /// Whether no piece is left.
    pub fn is_empty(&self) -> bool
        ensures { result ≡ is_none self.now }
    {
        self.left.is_none()
    }
}

/// What stands before the first place of the byte, and what stands after it.
fn split_once(text: &[u8], byte: u8) -> Option<(&[u8], &[u8])>
    ensures { IsSplit byte text.now (option_map (λ parts. (parts.0.now, parts.1.now)) result) }
{
    let Some(place) = place_of(text, byte) else {
        return None;
    };
    Some((&text[..place], &text[place + 1..]))
}

/// The first place of the byte.
fn place_of(text: &[u8], byte: u8) -> Option<usize>
    ensures first { result ≡ position (λ b. b == byte) text.now }
    ensures within { IfSome result (λ place. place < length text.now) }
{
    text.iter().position(|b| *b == byte)
}

/// Whether the bytes are the text.
pub fn is_text(bytes: &[u8], text: &str) -> bool
    ensures { result ≡ bytes_eq bytes.now text.now }
{
    bytes == text.as_bytes()
}
