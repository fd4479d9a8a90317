//! Why an APDU was not sealed, or bytes were not opened.

ghost use Rattle.std.specs.Prelude.{◌≡◌};
ghost use Rattle.fw_seal.specs.declared.error.SealError.TheVariants.{OutOfMemory};

use std::alloc::AllocError;
use std::fmt;
use thiserror::Error;

/// The refusals of `seal`. If several would apply, the first of them comes.
#[derive(Debug, Drop, Error)]
pub enum SealError {
    /// The bytes begin no request and no response of GET, SET or ACTION.
    UnknownService,
    /// The content of the sealing would have 2^32 bytes or more.
    TooLong,
    /// No counter is left.
    CounterSpent,
    /// The sealing found no memory.
    OutOfMemory,
}

impl fmt::Display for SealError {
    fn fmt<W: fmt::Write>(&self, f: &mut fmt::Formatter<W>) -> fmt::Result {
        fmt::Debug::fmt(self, f)
    }
}

impl From<AllocError> for SealError {
    ghost from_gives = { λ _ e. e ≡ OutOfMemory };

    fn from(_error: AllocError) -> SealError {
        SealError::OutOfMemory
    }
}

/// The refusals of `open`.
#[derive(Debug, Drop, Error)]
pub enum OpenError {
    /// The bytes are no sealing of an APDU by the other end of the link.
    NotSealed,
    /// The APDU found no memory.
    OutOfMemory,
}

impl fmt::Display for OpenError {
    fn fmt<W: fmt::Write>(&self, f: &mut fmt::Formatter<W>) -> fmt::Result {
        fmt::Debug::fmt(self, f)
    }
}

impl From<AllocError> for OpenError {
    ghost use Rattle.fw_seal.specs.declared.error.OpenError.TheVariants as opening;

    ghost from_gives = { λ _ e. e ≡ opening.OutOfMemory };

    fn from(_error: AllocError) -> OpenError {
        OpenError::OutOfMemory
    }
}
