//! Why bytes are no APDU, or an APDU has no spelling.

ghost use Rattle.std.specs.Prelude.{◌≡◌};
ghost use Rattle.fw_apdu.specs.declared.error.ApduError.TheVariants.{OutOfMemory, Trailing};
ghost use Rattle.fw_apdu.specs.Cause.{fault_from};

use fw_axdr::AxdrError;
use fw_axdr::reader::Trailing;
use std::alloc::{AllocError, AllocFailed};
use std::fmt;
use thiserror::Error;

/// The refusals of reading and writing. Of the faults of a byte string the leftmost one is given.
#[derive(Clone, Copy, Debug, Error)]
pub enum ApduError {
    /// A byte is missing.
    Truncated,
    /// The first byte is that of no service that is read here.
    UnknownService,
    /// The service is not in its normal form, or asks for selective access.
    UnsupportedForm,
    /// The Data in it is refused, or has no spelling.
    BadData(AxdrError),
    /// A byte follows the end.
    Trailing,
    /// Memory was refused.
    OutOfMemory,
}

impl fmt::Display for ApduError {
    fn fmt<W: fmt::Write>(&self, f: &mut fmt::Formatter<W>) -> fmt::Result {
        match self {
            ApduError::BadData(refusal) => fmt::Display::fmt(refusal, f),
            other => fmt::Debug::fmt(other, f),
        }
    }
}

impl From<AllocError> for ApduError {
    ghost from_gives = { λ _ e. e ≡ OutOfMemory };

    fn from(_error: AllocError) -> ApduError {
        ApduError::OutOfMemory
    }
}

impl<T: Drop> From<AllocFailed<T>> for ApduError {
    ghost from_gives = { λ _ e. e ≡ OutOfMemory };

    fn from(_error: AllocFailed<T>) -> ApduError {
        ApduError::OutOfMemory
    }
}

impl From<AxdrError> for ApduError {
    ghost from_gives = { λ fault e. e ≡ fault_from fault };

    fn from(fault: AxdrError) -> ApduError {
        match fault {
            AxdrError::OutOfMemory => ApduError::OutOfMemory,
            _ => ApduError::BadData(fault),
        }
    }
}

impl From<Trailing> for ApduError {
    ghost from_gives = { λ _ e. e ≡ Trailing };

    fn from(_error: Trailing) -> ApduError {
        ApduError::Trailing
    }
}
