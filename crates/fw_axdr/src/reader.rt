//! The bytes that are still to be read: numbers and lengths at their front, and their end. Lengths
//! are those of A-XDR (IEC 61334-6, as IEC 62056-5-3 uses it).
//!
//! What is read, and what is left, are those of specs/Reading.antt. Reading takes no memory.
//!
//! Own rules of this profile: a longer form of a length than needed is taken, with at most four
//! bytes after the first; first bytes 80 and 85 to ff (hexadecimal) are refused.

ghost use Rattle.std.specs.Prelude.{◌≡◌, ◌≢◌, length, [], IfOk, OnOk, OnErr};
ghost use Rattle.fw_axdr.specs.Reading.{Gives, length_at, bytes_at, number_at};

use std::fmt;
use std::marker::Model;
use thiserror::Error;

/// Why bytes, a number or a length were not read: of several faults the leftmost one.
#[derive(Debug, Drop, Error)]
pub enum ReadError {
    /// A byte is missing.
    Truncated,
    /// The first byte of a length is 80 or 85 to ff (hexadecimal).
    BadLength,
}

impl fmt::Display for ReadError {
    fn fmt<W: fmt::Write>(&self, f: &mut fmt::Formatter<W>) -> fmt::Result {
        fmt::Debug::fmt(self, f)
    }
}

/// A byte stands where nothing may follow.
#[derive(Debug, Drop, Error)]
pub struct Trailing;

impl fmt::Display for Trailing {
    fn fmt<W: fmt::Write>(&self, f: &mut fmt::Formatter<W>) -> fmt::Result {
        fmt::Debug::fmt(self, f)
    }
}

/// The bytes that are still to be read, which contracts see as the list of them. A call that reads
/// takes what it gives from their front. After an error it is not told how many are left.
#[derive(Drop)]
pub struct Reader<'a> {
    rest: &'a [u8],
}

impl<'a> Model for Reader<'a> {
    ghost use Rattle.std.specs.Prelude.{ℕ, List};

    ghost Value = { List ℕ };

    ghost view = { λ r. r.rest.now };
}

impl<'a> Reader<'a> {
    /// All these bytes are still to be read.
    pub fn new(bytes: &'a [u8]) -> Self
        ensures { result ≡ bytes.now }
    {
        Reader { rest: bytes }
    }

    /// How many bytes are left.
    pub fn len(&self) -> usize
        ensures { result ≡ length self.now }
    {
        self.rest.len()
    }

    /// The next byte.
    ///
    /// # Errors
    ///
    /// `Truncated`: there is none.
    #[tactic(auto, unfolding(crate::specs::Reading::number_at))]
    pub fn u8(&mut self) -> Result<u8, ReadError>
        ensures gives { Gives (λ n. n) result self.new (number_at 1 self.old) }
    {
        let [a, rest @ ..] = self.rest else {
            return Err(ReadError::Truncated);
        };
        self.rest = rest;
        Ok(*a)
    }

    /// The number that the next two bytes hold, the highest first.
    ///
    /// # Errors
    ///
    /// `Truncated`: fewer are left.
    #[tactic(auto, unfolding(crate::specs::Reading::number_at))]
    pub fn u16(&mut self) -> Result<u16, ReadError>
        ensures gives { Gives (λ n. n) result self.new (number_at 2 self.old) }
    {
        let [a, b, rest @ ..] = self.rest else {
            return Err(ReadError::Truncated);
        };
        self.rest = rest;
        Ok(u16::from_be_bytes([*a, *b]))
    }

    /// The number that the next three bytes hold, the highest first.
    #[tactic(auto, unfolding(crate::specs::Reading::number_at))]
    fn u24(&mut self) -> Result<u32, ReadError>
        ensures gives { Gives (λ n. n) result self.new (number_at 3 self.old) }
    {
        let [a, b, c, rest @ ..] = self.rest else {
            return Err(ReadError::Truncated);
        };
        self.rest = rest;
        Ok(u32::from_be_bytes([0, *a, *b, *c]))
    }

    /// The number that the next four bytes hold, the highest first.
    ///
    /// # Errors
    ///
    /// `Truncated`: fewer are left.
    #[tactic(auto, unfolding(crate::specs::Reading::number_at))]
    pub fn u32(&mut self) -> Result<u32, ReadError>
        ensures gives { Gives (λ n. n) result self.new (number_at 4 self.old) }
    {
        let [a, b, c, d, rest @ ..] = self.rest else {
            return Err(ReadError::Truncated);
        };
        self.rest = rest;
        Ok(u32::from_be_bytes([*a, *b, *c, *d]))
    }

    /// The number that the next eight bytes hold, the highest first.
    ///
    /// # Errors
    ///
    /// `Truncated`: fewer are left.
    #[tactic(auto, unfolding(crate::specs::Reading::number_at))]
    pub fn u64(&mut self) -> Result<u64, ReadError>
        ensures gives { Gives (λ n. n) result self.new (number_at 8 self.old) }
    {
        let [a, b, c, d, e, f, g, h, rest @ ..] = self.rest else {
            return Err(ReadError::Truncated);
        };
        self.rest = rest;
        Ok(u64::from_be_bytes([*a, *b, *c, *d, *e, *f, *g, *h]))
    }

    /// The next `len` bytes, where they are: nothing is copied.
    ///
    /// # Errors
    ///
    /// `Truncated`: fewer are left.
    #[tactic(auto, unfolding(crate::specs::Reading::bytes_at))]
    pub fn bytes(&mut self, len: usize) -> Result<&'a [u8], ReadError>
        ensures gives { Gives (λ x. x.now) result self.new (bytes_at len self.old) }
        ensures len { IfOk result (λ x. length x.now ≡ len) }
    {
        if self.rest.len() < len {
            return Err(ReadError::Truncated);
        }
        let (front, rest) = self.rest.split_at(len);
        self.rest = rest;
        Ok(front)
    }

    /// A length (A-XDR, IEC 61334-6; IEC 62056-5-3): one byte below 80 (hexadecimal), or 81 to 84
    /// and the 1 to 4 bytes that hold it. A longer form than needed is taken (own rule of this
    /// profile).
    ///
    /// # Errors
    ///
    /// - `Truncated`: a byte is missing.
    /// - `BadLength`: the first byte is 80 or 85 to ff (own rule of this profile).
    #[tactic(auto, unfolding(crate::specs::Reading::length_at))]
    pub fn length(&mut self) -> Result<usize, ReadError>
        ensures gives { Gives (λ n. n) result self.new (length_at self.old) }
    {
        let first = self.u8()?;
        match first {
            0..=0x7f => Ok(usize::from(first)),
            0x81 => Ok(usize::from(self.u8()?)),
            0x82 => Ok(usize::from(self.u16()?)),
            0x83 => Ok(self.u24()? as usize),
            0x84 => Ok(self.u32()? as usize),
            0x80 | 0x85..=0xff => Err(ReadError::BadLength),
        }
    }
}

/// These bytes are none: nothing follows what was read.
///
/// # Errors
///
/// `Trailing`: there is a byte.
pub fn end(bytes: &[u8]) -> Result<(), Trailing>
    ensures found { OnOk result (bytes.now ≡ []) }
    ensures fault { OnErr result (bytes.now ≢ []) }
{
    if bytes.is_empty() {
        Ok(())
    } else {
        Err(Trailing)
    }
}
