//! A place among bytes that are read from left to right.

ghost use Rattle.std.specs.Prelude.{◌≡◌, ◌↔◌, [], length, option_copied, IsTrue};
ghost use Rattle.mon_base.specs.Reading.{Place, Gives, number_at, int_at, bytes_at, part};

use byteorder::{BigEndian, ByteOrder};
use std::marker::Model;

/// A place among bytes. A contract sees how many bytes stand before it, and those that are left.
///
/// Numbers are read with the highest byte first. Where too few bytes are left a reading is `None`, and the place
/// stays where it was.
#[derive(Drop)]
pub struct Cursor<'a> {
    at: u64,
    rest: &'a [u8],
}

impl<'a> Model for Cursor<'a> {
    ghost use Rattle.std.specs.Prelude.{◌+◌, ◌<◌, ◌^◌, length};
    ghost use Rattle.mon_base.specs.Reading.{Place};

    ghost Value = { Place };

    ghost view = { λ c. record { at = c.at; rest = c.rest.now } };

    ghost invariant = { λ c. c.at + length c.rest.now < 2 ^ 63 };
}

impl<'a> Cursor<'a> {
    /// The place before the first byte.
    pub fn new(bytes: &'a [u8]) -> Cursor<'a>
        ensures { result ≡ record { at = 0; rest = bytes.now } }
    {
        Cursor { at: 0, rest: bytes }
    }

    /// How many bytes stand before the place.
    pub fn position(&self) -> u64
        ensures { result ≡ self.now.at }
    {
        self.at
    }

    /// How many bytes are left.
    pub fn remaining(&self) -> usize
        ensures { result ≡ length self.now.rest }
    {
        self.rest.len()
    }

    /// Whether no byte is left.
    pub fn is_at_end(&self) -> bool
        ensures { IsTrue result ↔ (self.now.rest ≡ []) }
    {
        self.rest.is_empty()
    }

    /// The part of the next `n` bytes that is there, at the same place. This place stays.
    pub fn part(&self, n: usize) -> Cursor<'a>
        ensures { result ≡ part n self.now }
    {
        let len = n.min(self.rest.len());
        Cursor {
            at: self.at,
            rest: &self.rest[..len],
        }
    }

    /// The next `n` bytes.
    pub fn take(&mut self, n: usize) -> Option<&'a [u8]>
        ensures { Gives (option_copied result) (bytes_at n) self.old self.new }
    {
        if self.rest.len() < n {
            return None;
        }
        let (front, rest) = self.rest.split_at(n);
        self.at += n as u64;
        self.rest = rest;
        Some(front)
    }

    /// The number that the next byte is.
    pub fn u1(&mut self) -> Option<u8>
        ensures { Gives result (number_at 1) self.old self.new }
    {
        let bytes = self.take(1)?;
        Some(bytes[0])
    }

    /// The number that the next two bytes are.
    pub fn u2(&mut self) -> Option<u16>
        ensures { Gives result (number_at 2) self.old self.new }
    {
        let bytes = self.take(2)?;
        Some(BigEndian::read_u16(bytes))
    }

    /// The number that the next four bytes are.
    pub fn u4(&mut self) -> Option<u32>
        ensures { Gives result (number_at 4) self.old self.new }
    {
        let bytes = self.take(4)?;
        Some(BigEndian::read_u32(bytes))
    }

    /// The number that the next eight bytes are.
    pub fn u8(&mut self) -> Option<u64>
        ensures { Gives result (number_at 8) self.old self.new }
    {
        let bytes = self.take(8)?;
        Some(BigEndian::read_u64(bytes))
    }

    /// The number with a sign that the next four bytes are.
    pub fn i4(&mut self) -> Option<i32>
        ensures { Gives result int_at self.old self.new }
    {
        let bytes = self.take(4)?;
        Some(BigEndian::read_i32(bytes))
    }
}
