//! Why workers could not go on.

use std::alloc::{AllocError, AllocFailed};
use std::fmt;
use thiserror::Error;

/// Memory was refused.
#[derive(Clone, Copy, Debug, Error)]
pub struct OutOfMemory;

impl fmt::Display for OutOfMemory {
    fn fmt<W: fmt::Write>(&self, f: &mut fmt::Formatter<W>) -> fmt::Result {
        fmt::Debug::fmt(self, f)
    }
}

impl From<AllocError> for OutOfMemory {
    fn from(_error: AllocError) -> OutOfMemory {
        OutOfMemory
    }
}

impl<T: Drop> From<AllocFailed<T>> for OutOfMemory {
    fn from(_error: AllocFailed<T>) -> OutOfMemory {
        OutOfMemory
    }
}

impl From<fw_tally::OutOfMemory> for OutOfMemory {
    fn from(_error: fw_tally::OutOfMemory) -> OutOfMemory {
        OutOfMemory
    }
}
