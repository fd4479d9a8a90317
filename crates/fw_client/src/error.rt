//! Why a client could not ask or hear.

ghost use Rattle.std.specs.Prelude.{◌≡◌};
ghost use Rattle.fw_client.specs.declared.error.AskError.TheVariants as ask_error;

use std::alloc::{AllocError, AllocFailed};
use std::fmt;
use thiserror::Error;

/// The refusals of `Client::ask`. If both would apply, the first comes.
#[derive(Clone, Copy, Debug, Error)]
pub enum AskError {
    /// The next invoke-id is that of an outstanding ask: there is no reuse of an invoke-id while its ask waits.
    AllBusy,
    /// Memory was refused.
    OutOfMemory,
}

impl fmt::Display for AskError {
    fn fmt<W: fmt::Write>(&self, f: &mut fmt::Formatter<W>) -> fmt::Result {
        fmt::Debug::fmt(self, f)
    }
}

impl From<OutOfMemory> for AskError {
    ghost from_gives = { λ _ e. e ≡ ask_error.OutOfMemory };

    fn from(_error: OutOfMemory) -> AskError {
        AskError::OutOfMemory
    }
}

/// Memory was refused.
#[derive(Clone, Copy, Debug, Error)]
pub struct OutOfMemory;

impl fmt::Display for OutOfMemory {
    fn fmt<W: fmt::Write>(&self, f: &mut fmt::Formatter<W>) -> fmt::Result {
        fmt::Debug::fmt(self, f)
    }
}

impl From<AllocError> for OutOfMemory {
    fn from(_error: AllocError) -> OutOfMemory {
        OutOfMemory
    }
}

impl<T: Drop> From<AllocFailed<T>> for OutOfMemory {
    fn from(_error: AllocFailed<T>) -> OutOfMemory {
        OutOfMemory
    }
}
