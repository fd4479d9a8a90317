//! The reads of a reader, counted.

ghost use Rattle.std.specs.Prelude.{◌≡◌, ◌+◌, ◌<◌, ◌≤◌, length, take, false, IsTrue, OnOk, OnErr, IfOk, IfErr, MatchOption};
ghost use Rattle.std.specs.Io.KnownBytes.{Consumes, Keeps, IsAtEnd};
ghost use Rattle.fw_faults.specs.Reading.{max_reads};

use crate::error::InputError;
use std::io::{ErrorKind, Read};
use std::marker::Model;

/// How many reads were made of a reader, and whether one of them failed. Only `Reads::read` makes one.
#[derive(Drop)]
pub struct Reads {
    made: u64,
    failed: bool,
}

impl Model for Reads {
    ghost use Rattle.fw_faults.specs.Reading.{ReadsMade};

    ghost Value = { ReadsMade };

    ghost view = { λ r. record { made = r.made; failed = r.failed } };
}

impl Reads {
    /// No read yet.
    pub fn none() -> Reads
        ensures { result ≡ record { made = 0; failed = false } }
    {
        Reads {
            made: 0,
            failed: false,
        }
    }

    /// How many reads were made.
    pub fn made(&self) -> u64
        ensures { result ≡ self.now.made }
    {
        self.made
    }

    /// Reads once: the number of bytes, or nothing if the reader was interrupted.
    ///
    /// # Errors
    ///
    /// `Input`: the reader failed, in any other way.
    pub fn read<R: Read>(
        &mut self,
        reader: &mut R,
        chunk: &mut [u8],
    ) -> Result<Option<usize>, InputError>
        requires { self.old.made < max_reads }
        ensures counted { self.new.made ≡ self.old.made + 1 }
        ensures ok { OnOk result (self.new.failed ≡ self.old.failed) }
        ensures err { OnErr result (IsTrue self.new.failed) }
        ensures faults { IfErr result (λ e. e ≡ InputError.Input) }
        ensures bytes { IfOk result (λ read. MatchOption read (Keeps (R.remaining reader.old) (R.remaining reader.new)) (λ count.
            (count ≤ length chunk.new) × Consumes (R.remaining reader.old) (R.remaining reader.new) (take count chunk.new)
            × (count ≡ 0 → 0 < length chunk.new → IsAtEnd (R.remaining reader.new)))) }
        ensures kept { OnErr result (Keeps (R.remaining reader.old) (R.remaining reader.new)) }
    {
        self.made += 1;
        match reader.read(chunk) {
            Ok(count) => Ok(Some(count)),
            Err(error) if error.kind() == ErrorKind::Interrupted => Ok(None),
            Err(_) => {
                self.failed = true;
                Err(InputError::Input)
            }
        }
    }
}
