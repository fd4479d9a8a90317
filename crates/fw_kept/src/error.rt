//! Why a kept head end isn't opened, why bytes hold no book, or why a call is refused.

ghost use Rattle.std.specs.Prelude.{◌≡◌};
ghost use Rattle.fw_kept.specs.declared.error.KeptError.TheVariants.{Refused};
ghost use Rattle.fw_kept.specs.Refusals.{kept_error, open_error};

use fw_book::BookError;
use fw_journal::JournalError;
use std::fmt;
use thiserror::Error;

/// Why what a device holds is no book of the head end.
#[derive(Clone, Copy, Debug, Error)]
pub enum OpenError {
    /// The bytes from this offset on are no journal's.
    BadBook { offset: u64 },
    /// The record with this index, counted from 0, has no place in the book of those before it.
    BadRecord { index: usize },
    /// The book is another head end's.
    ForeignHead,
    /// The device failed.
    BookFault,
    /// Memory was refused.
    OutOfMemory,
}

impl fmt::Display for OpenError {
    fn fmt<W: fmt::Write>(&self, f: &mut fmt::Formatter<W>) -> fmt::Result {
        match self {
            OpenError::BadBook { offset } => write!(f, "BadBook {offset}"),
            OpenError::BadRecord { index } => write!(f, "BadRecord {index}"),
            other => fmt::Debug::fmt(other, f),
        }
    }
}

/// Why bytes hold no book of any head end.
#[derive(Clone, Copy, Debug, Error)]
pub enum ReadingError {
    /// The bytes from this offset on are no journal's.
    BadBook { offset: u64 },
    /// The record with this index, counted from 0, has no place in the book of those before it.
    BadRecord { index: usize },
    /// Memory was refused.
    OutOfMemory,
}

impl fmt::Display for ReadingError {
    fn fmt<W: fmt::Write>(&self, f: &mut fmt::Formatter<W>) -> fmt::Result {
        match self {
            ReadingError::BadBook { offset } => write!(f, "BadBook {offset}"),
            ReadingError::BadRecord { index } => write!(f, "BadRecord {index}"),
            ReadingError::OutOfMemory => f.write_str("OutOfMemory"),
        }
    }
}

/// What a refusal to open the journal is for the book.
pub(crate) fn open_error(error: JournalError) -> OpenError
    ensures { result ≡ open_error error }
{
    match error {
        JournalError::BadBook { offset } => OpenError::BadBook { offset },
        JournalError::OutOfMemory => OpenError::OutOfMemory,
        JournalError::NotEmpty
        | JournalError::TooLong
        | JournalError::Full
        | JournalError::Locked
        | JournalError::BookFault => OpenError::BookFault,
    }
}

/// Why a kept head end refused a call.
#[derive(Clone, Copy, Debug, Error)]
pub enum KeptError {
    /// The book doesn't take it.
    Refused(BookError),
    /// The journal, or what waits, has 2^60 bytes or more.
    Full,
    /// The device failed, in this call or in an earlier one.
    BookFault,
    /// Memory was refused.
    OutOfMemory,
}

impl fmt::Display for KeptError {
    fn fmt<W: fmt::Write>(&self, f: &mut fmt::Formatter<W>) -> fmt::Result {
        match self {
            KeptError::Refused(refusal) => fmt::Display::fmt(refusal, f),
            other => fmt::Debug::fmt(other, f),
        }
    }
}

impl From<BookError> for KeptError {
    ghost from_gives = { λ error e. e ≡ Refused error };

    fn from(error: BookError) -> KeptError {
        KeptError::Refused(error)
    }
}

impl From<JournalError> for KeptError {
    ghost from_gives = { λ error e. e ≡ kept_error error };

    fn from(error: JournalError) -> KeptError {
        match error {
            JournalError::TooLong | JournalError::Full => KeptError::Full,
            JournalError::OutOfMemory => KeptError::OutOfMemory,
            JournalError::BadBook { .. }
            | JournalError::NotEmpty
            | JournalError::Locked
            | JournalError::BookFault => KeptError::BookFault,
        }
    }
}
