//! A cursor over bytes.

ghost use Rattle.std.specs.Prelude.{◌≡◌, ◌+◌, ◌<◌, ◌^◌, ◌↔◌, IsTrue, length};
ghost use Rattle.std.specs.Int.{w8, w16, w32, w64};
ghost use Rattle.nr_base.specs.Place.{at_of, start_of};
ghost use Rattle.nr_base.specs.Bytes.{number_at, run_at};
ghost use Rattle.nr_base.specs.Clauses.{TakesItem};
ghost use Rattle.nr_base.specs.Grammar.{IsBytes};

use byteorder::{BigEndian, ByteOrder};
use std::marker::Model;

/// An item doesn't fit in the bytes that are left. It would begin at the offset `at`.
#[derive(Clone, Copy, Debug, PartialEq, Eq)]
pub struct Short {
    pub at: u32,
}

/// Bytes that are read from left to right. Contracts see it as a place: how many bytes there are in
/// all, and which are left.
#[derive(Debug, Drop)]
pub struct Cur<'a> {
    rest: &'a [u8],
    total: u32,
}

impl<'a> Model for Cur<'a> {
    ghost use Rattle.std.specs.Prelude.{◌≤◌, length};
    ghost use Rattle.nr_base.specs.Grammar.{IsBytes};
    ghost use Rattle.nr_base.specs.Place.{Place};

    ghost Value = { Place };

    ghost view = { λ c. record { total = c.total; rest = c.rest.now } };

    ghost invariant = { λ c. (length c.rest.now ≤ c.total) × IsBytes c.rest.now };
}

impl<'a> Cur<'a> {
    /// A cursor at the start of some bytes.
    pub fn new(bytes: &'a [u8]) -> Cur<'a>
        requires { length bytes.now < 2 ^ 32 }
        ensures { result ≡ start_of bytes.now }
    {
        Cur {
            rest: bytes,
            total: bytes.len() as u32,
        }
    }

    /// The offset of what is read next. The offsets of all that is left, and of its end, fit a `u32` too.
    pub fn at(&self) -> u32
        ensures place { result ≡ at_of self.now }
        ensures fits { result + length self.now.rest < 2 ^ 32 }
    {
        self.total - self.rest.len() as u32
    }

    /// How many bytes are left.
    pub fn left(&self) -> u32
        ensures { result ≡ length self.now.rest }
    {
        let _total = self.total;
        self.rest.len() as u32
    }

    /// The bytes that are left.
    pub fn rest(&self) -> &'a [u8]
        ensures bytes { result.now ≡ self.now.rest }
        ensures fits { IsBytes result.now }
    {
        self.rest
    }

    /// Whether no byte is left.
    pub fn is_empty(&self) -> bool
        ensures { IsTrue result ↔ (length self.now.rest ≡ 0) }
    {
        self.rest.is_empty()
    }

    /// The next byte. The error comes where none is left.
    pub fn u8(&mut self) -> Result<u8, Short>
        ensures { TakesItem (λ n. n) result self.old self.new (number_at w8 self.old) }
    {
        match self.rest {
            [] => Err(Short { at: self.at() }),
            [first, rest @ ..] => {
                self.rest = rest;
                Ok(*first)
            }
        }
    }

    /// The next 2 bytes as a number. The error comes where fewer are left.
    pub fn u16(&mut self) -> Result<u16, Short>
        ensures { TakesItem (λ n. n) result self.old self.new (number_at w16 self.old) }
    {
        Ok(BigEndian::read_u16(self.take(2)?))
    }

    /// The next 4 bytes as a number. The error comes where fewer are left.
    pub fn u32(&mut self) -> Result<u32, Short>
        ensures { TakesItem (λ n. n) result self.old self.new (number_at w32 self.old) }
    {
        Ok(BigEndian::read_u32(self.take(4)?))
    }

    /// The next 8 bytes as a number. The error comes where fewer are left.
    pub fn u64(&mut self) -> Result<u64, Short>
        ensures { TakesItem (λ n. n) result self.old self.new (number_at w64 self.old) }
    {
        Ok(BigEndian::read_u64(self.take(8)?))
    }

    /// The next `n` bytes. The error comes where fewer are left.
    pub fn take(&mut self, n: usize) -> Result<&'a [u8], Short>
        ensures { TakesItem (λ s. s.now) result self.old self.new (run_at n self.old) }
    {
        if self.rest.len() < n {
            return Err(Short { at: self.at() });
        }
        let (front, rest) = self.rest.split_at(n);
        self.rest = rest;
        Ok(front)
    }
}
