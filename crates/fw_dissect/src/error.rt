//! Why a capture isn't told up to its end, or up to its first fault.

ghost use Rattle.std.specs.Prelude.{◌≡◌};
ghost use Rattle.fw_dissect.specs.declared.error.DissectError.TheVariants as error;
ghost use Rattle.fw_dissect.specs.Private.{of_append};

use fw_capture::AppendError;
use std::alloc::AllocError;
use std::fmt;
use thiserror::Error;

/// The refusals of `dissect`.
#[derive(Clone, Copy, Debug, Drop, Error)]
pub enum DissectError {
    /// The record at this offset says that it has more than 64 MiB.
    TooLong(usize),
    /// The reader failed, or came to no end.
    Input,
    /// A datagram makes no record in plain words, as one over IPv6 that is longer than a capture takes.
    NoRecord,
    /// The writer of the capture in plain words failed.
    Plain,
    /// The writer of lines failed.
    Output,
    /// Memory was refused.
    OutOfMemory,
}

impl fmt::Display for DissectError {
    fn fmt<W: fmt::Write>(&self, f: &mut fmt::Formatter<W>) -> fmt::Result {
        fmt::Debug::fmt(self, f)
    }
}

impl From<AllocError> for DissectError {
    ghost from_gives = { λ _ e. e ≡ error.OutOfMemory };

    fn from(_error: AllocError) -> DissectError {
        DissectError::OutOfMemory
    }
}

impl From<AppendError> for DissectError {
    ghost from_gives = { λ given e. e ≡ of_append given };

    fn from(error: AppendError) -> DissectError {
        match error {
            AppendError::OutOfMemory => DissectError::OutOfMemory,
            AppendError::TimePast | AppendError::TwoFamilies | AppendError::TooLong => {
                DissectError::NoRecord
            }
        }
    }
}
