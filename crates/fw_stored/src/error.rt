//! Why bytes give no store.

use std::fmt;
use thiserror::Error;

/// Why the bytes of a store were not put right.
#[derive(Clone, Copy, Debug, Error)]
pub enum RecoveryError {
    /// The bytes beside the store are those of no undo file. An opening refuses them, too.
    ForeignUndo,
    /// Memory was refused.
    OutOfMemory,
}

impl fmt::Display for RecoveryError {
    fn fmt<W: fmt::Write>(&self, f: &mut fmt::Formatter<W>) -> fmt::Result {
        fmt::Debug::fmt(self, f)
    }
}

/// Why bytes were not read as a store.
#[derive(Clone, Copy, Debug, Error)]
pub enum StoredError {
    /// They don't begin with a capacity of 1 to 16,777,216, or aren't as many as those of a store of that capacity.
    BadFile,
    /// Memory was refused.
    OutOfMemory,
}

impl fmt::Display for StoredError {
    fn fmt<W: fmt::Write>(&self, f: &mut fmt::Formatter<W>) -> fmt::Result {
        fmt::Debug::fmt(self, f)
    }
}
