//! Why a record isn't read or written.

ghost use Rattle.std.specs.Prelude.{◌≡◌};
ghost use Rattle.fw_ledger.specs.declared.error.RecordError.TheVariants.{OutOfMemory};

use std::alloc::{AllocError, AllocFailed};
use std::fmt;
use thiserror::Error;

/// Why a record isn't read or written.
#[derive(Clone, Copy, Debug, Error)]
pub enum RecordError {
    /// The bytes spell no record, or the record has no spelling.
    BadRecord,
    /// Memory was refused.
    OutOfMemory,
}

impl fmt::Display for RecordError {
    fn fmt<W: fmt::Write>(&self, f: &mut fmt::Formatter<W>) -> fmt::Result {
        fmt::Debug::fmt(self, f)
    }
}

impl From<AllocError> for RecordError {
    ghost from_gives = { λ _ e. e ≡ OutOfMemory };

    fn from(_error: AllocError) -> RecordError {
        RecordError::OutOfMemory
    }
}

impl<T: Drop> From<AllocFailed<T>> for RecordError {
    ghost from_gives = { λ _ e. e ≡ OutOfMemory };

    fn from(_error: AllocFailed<T>) -> RecordError {
        RecordError::OutOfMemory
    }
}

/// Why records have no book.
#[derive(Clone, Copy, Debug, Error)]
pub enum ReplayError {
    /// The record with this index, counted from 0, spells none, or says what the book of those before it refuses.
    BadRecord { index: usize },
    /// Memory was refused.
    OutOfMemory,
}

impl fmt::Display for ReplayError {
    fn fmt<W: fmt::Write>(&self, f: &mut fmt::Formatter<W>) -> fmt::Result {
        match self {
            ReplayError::BadRecord { index } => write!(f, "BadRecord {index}"),
            other => fmt::Debug::fmt(other, f),
        }
    }
}
