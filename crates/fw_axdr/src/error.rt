//! The faults of A-XDR.

ghost use Rattle.std.specs.Prelude.{◌≡◌};
ghost use Rattle.fw_axdr.specs.declared.error.AxdrError.TheVariants.{OutOfMemory};
ghost use Rattle.fw_axdr.specs.Cause.{fault_from};

use crate::reader::ReadError;
use std::alloc::{AllocError, AllocFailed};
use std::fmt;
use thiserror::Error;

/// Why a Data was not read or written: of several faults the leftmost one (own rules of this
/// profile).
#[derive(Clone, Copy, Debug, Drop, Error)]
pub enum AxdrError {
    /// A tag, a length or contents lack a byte.
    Truncated,
    /// The tag stands for none of the sixteen types.
    UnknownTag,
    /// The first byte of a length is 80 or 85 to ff (hexadecimal), or a length above 2^32 - 1 was
    /// to be written.
    BadLength,
    /// A Data lies deeper than 8.
    TooDeep,
    /// Memory was refused.
    OutOfMemory,
}

impl fmt::Display for AxdrError {
    fn fmt<W: fmt::Write>(&self, f: &mut fmt::Formatter<W>) -> fmt::Result {
        fmt::Debug::fmt(self, f)
    }
}

impl From<AllocError> for AxdrError {
    ghost from_gives = { λ _ e. e ≡ OutOfMemory };

    fn from(_e: AllocError) -> AxdrError {
        AxdrError::OutOfMemory
    }
}

impl<T: Drop> From<AllocFailed<T>> for AxdrError {
    ghost from_gives = { λ _ e. e ≡ OutOfMemory };

    fn from(_e: AllocFailed<T>) -> AxdrError {
        AxdrError::OutOfMemory
    }
}

impl From<ReadError> for AxdrError {
    ghost from_gives = { λ fault e. e ≡ fault_from fault };

    fn from(fault: ReadError) -> AxdrError {
        match fault {
            ReadError::Truncated => AxdrError::Truncated,
            ReadError::BadLength => AxdrError::BadLength,
        }
    }
}
