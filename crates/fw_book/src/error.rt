//! The refusals of a book.

ghost use Rattle.std.specs.Prelude.{◌≡◌};
ghost use Rattle.fw_book.specs.declared.error.BookError.TheVariants.{OutOfMemory};

use std::alloc::{AllocError, AllocFailed};
use std::fmt;
use thiserror::Error;

/// Why a book refused a call, or why bytes are no book's. Of several refusals that apply, the one that stands first here is
/// given.
#[derive(Clone, Copy, Debug, Drop, PartialEq, Eq, Error)]
pub enum BookError {
    /// The campaign isn't of this book's head end.
    ForeignHead,
    /// The book has a campaign of this serial number.
    SerialUsed,
    /// The image has no byte.
    EmptyImage,
    /// The image has more than 16,777,216 bytes.
    ImageTooLong,
    /// No meter is named.
    NoMeters,
    /// More than 256 meters are named.
    TooManyMeters,
    /// A meter is named twice.
    MeterTwice,
    /// A meter is live in another campaign of this book.
    MeterBusy,
    /// The book doesn't have the campaign, or the campaign doesn't have the meter.
    NoSuchCampaign,
    /// The name that the meter claims to run isn't the one under which the campaign offers its image.
    WrongCampaign,
    /// The meter's row has ended, or all rows of the campaign have.
    NotLive,
    /// The bytes spell no book.
    BadBook,
    /// Memory was refused.
    OutOfMemory,
}

impl fmt::Display for BookError {
    fn fmt<W: fmt::Write>(&self, f: &mut fmt::Formatter<W>) -> fmt::Result {
        fmt::Debug::fmt(self, f)
    }
}

impl From<AllocError> for BookError {
    ghost from_gives = { λ _ e. e ≡ OutOfMemory };

    fn from(_error: AllocError) -> BookError {
        BookError::OutOfMemory
    }
}

impl<T: Drop> From<AllocFailed<T>> for BookError {
    ghost from_gives = { λ _ e. e ≡ OutOfMemory };

    fn from(_error: AllocFailed<T>) -> BookError {
        BookError::OutOfMemory
    }
}
