//! A capture that is read packet by packet.

ghost use Rattle.std.specs.Prelude.{◌≡◌, ◌+◌, ◌<◌, ◌^◌, length};
ghost use Rattle.fw_capture.specs.Steps.{OpensAs, NextGives};

use crate::fault::CaptureError;
use crate::format::Format;
use crate::packet::Packet;
use crate::reading::{FILE_HEADER_SIZE, format_of, record};
use std::marker::Model;

/// A capture, from some record on.
#[derive(Drop)]
pub struct Reader<'a> {
    format: Format,
    rest: &'a [u8],
    offset: usize,
}

impl<'a> Model for Reader<'a> {
    ghost use Rattle.std.specs.Prelude.{◌+◌, ◌<◌, ◌^◌, length};
    ghost use Rattle.fw_capture.specs.Place.{Place};

    ghost Value = { Place };

    ghost view = { λ r. record { format = r.format; rest = r.rest.now; offset = r.offset } };

    ghost invariant = { λ r. r.offset + length r.rest.now < 2 ^ 64 };
}

impl<'a> Reader<'a> {
    /// A capture before its first record.
    ///
    /// # Errors
    ///
    /// What is wrong with the file header, at the offset 0.
    pub fn new(capture: &'a [u8]) -> Result<Self, CaptureError>
        ensures { OpensAs capture.now result }
    {
        match format_of(capture) {
            Ok(format) => Ok(Reader {
                format,
                rest: &capture[FILE_HEADER_SIZE..],
                offset: FILE_HEADER_SIZE,
            }),
            Err(fault) => Err(CaptureError { fault, offset: 0 }),
        }
    }

    /// A capture from a record on that begins at this offset.
    pub fn at(format: Format, offset: usize, bytes: &'a [u8]) -> Self
        requires { offset + length bytes.now < 2 ^ 64 }
        ensures { result ≡ record { format = format; rest = bytes.now; offset = offset } }
    {
        Reader {
            format,
            rest: bytes,
            offset,
        }
    }

    /// How its records are written.
    pub fn format(&self) -> Format
        ensures { result ≡ self.now.format }
    {
        self.format
    }

    /// The next packet, or none at the end of the capture.
    ///
    /// # Errors
    ///
    /// The first thing that is wrong with the record. It is not passed over: the next call returns the same error.
    #[tactic(auto, using(std::proofs::lemmas::List::take_rest))]
    pub fn next(&mut self) -> Result<Option<Packet<'a>>, CaptureError>
        ensures { NextGives self.old self.new result }
    {
        if self.rest.is_empty() {
            return Ok(None);
        }
        let offset = self.offset;
        match record(self.format, self.rest) {
            Ok((nanoseconds, content, size)) => {
                self.rest = &self.rest[size..];
                self.offset += size;
                Ok(Some(Packet {
                    offset,
                    nanoseconds,
                    content,
                }))
            }
            Err(fault) => Err(CaptureError { fault, offset }),
        }
    }
}
