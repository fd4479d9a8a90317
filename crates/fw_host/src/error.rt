//! Why a file of a command isn't read, made or gone on with, and why campaigns aren't let be cancelled.

ghost use Rattle.std.specs.Prelude.{◌≡◌};
ghost use Rattle.fw_host.specs.Errors.{new_book_error, new_counter_error, old_book_error, old_counter_error, reopened_error, store_error};
ghost use Rattle.fw_host.specs.declared.error.CancelsError.TheVariants as cancels;
ghost use Rattle.fw_host.specs.declared.error.HeadKeysError.TheVariants as head_keys;
ghost use Rattle.fw_host.specs.declared.error.ListError.TheVariants as list;
ghost use Rattle.fw_host.specs.declared.error.NewStoreError.TheVariants as new_store;

use fw_book::BookError;
use fw_image::OpenError;
use fw_journal::JournalError;
use fw_keys::BadLine;
use std::alloc::{AllocError, AllocFailed};
use std::fmt;
use thiserror::Error;

/// Why a text is no list of meters. It prints its name, and of a bad line the number too.
#[derive(Clone, Copy, Debug, Error)]
pub enum ListError {
    /// The line of this number, counted from 1, is none of a list, or has a number or an address that an earlier one has.
    BadList(u64),
    /// Memory was refused.
    OutOfMemory,
}

impl fmt::Display for ListError {
    fn fmt<W: fmt::Write>(&self, f: &mut fmt::Formatter<W>) -> fmt::Result {
        match self {
            ListError::BadList(number) => write!(f, "BadList {number}"),
            ListError::OutOfMemory => f.write_str("OutOfMemory"),
        }
    }
}

impl From<AllocError> for ListError {
    ghost from_gives = { λ _ e. e ≡ list.OutOfMemory };

    fn from(_error: AllocError) -> ListError {
        ListError::OutOfMemory
    }
}

/// Why the file of a daemon's capture isn't gone on with.
#[derive(Clone, Copy, Debug, Error)]
pub enum CaptureFileError {
    /// It can't be made, opened, read or written, or memory was refused.
    CaptureFault,
    /// It is none that a daemon began, or its records have a fault.
    ForeignCapture,
}

impl fmt::Display for CaptureFileError {
    fn fmt<W: fmt::Write>(&self, f: &mut fmt::Formatter<W>) -> fmt::Result {
        fmt::Debug::fmt(self, f)
    }
}

/// Why there is nothing that a new store is made with.
#[derive(Clone, Copy, Debug, Error)]
pub enum NewStoreError {
    /// The options describe no meter.
    BadSetup,
    /// The file of the factory image can't be opened or read.
    FactoryFault,
    /// Memory was refused.
    OutOfMemory,
}

impl fmt::Display for NewStoreError {
    fn fmt<W: fmt::Write>(&self, f: &mut fmt::Formatter<W>) -> fmt::Result {
        fmt::Debug::fmt(self, f)
    }
}

impl From<AllocError> for NewStoreError {
    ghost from_gives = { λ _ e. e ≡ new_store.OutOfMemory };

    fn from(_error: AllocError) -> NewStoreError {
        NewStoreError::OutOfMemory
    }
}

impl<T: Drop> From<AllocFailed<T>> for NewStoreError {
    ghost from_gives = { λ _ e. e ≡ new_store.OutOfMemory };

    fn from(_error: AllocFailed<T>) -> NewStoreError {
        NewStoreError::OutOfMemory
    }
}

/// Why the file of a store has no meter, or isn't made.
#[derive(Clone, Copy, Debug, Error)]
pub enum StoreFileError {
    /// It can't be made or opened, or another program's file is beside it.
    StoreFault,
    /// It failed while the store in it was opened.
    Device,
    /// It has a length that no store has, or begins with a capacity that none has.
    BadFile,
    /// The header of its store isn't one that it can have.
    BadHeader,
    /// An image in its store, which runs or is verified, hasn't the digest of its name.
    BadImage,
}

impl fmt::Display for StoreFileError {
    fn fmt<W: fmt::Write>(&self, f: &mut fmt::Formatter<W>) -> fmt::Result {
        match self {
            StoreFileError::Device => f.write_str("Fault"),
            other => fmt::Debug::fmt(other, f),
        }
    }
}

impl From<OpenError> for StoreFileError {
    ghost from_gives = { λ error e. e ≡ store_error error };

    fn from(error: OpenError) -> StoreFileError {
        match error {
            OpenError::Fault => StoreFileError::Device,
            OpenError::BadHeader => StoreFileError::BadHeader,
            OpenError::BadImage => StoreFileError::BadImage,
        }
    }
}

/// Why a head end doesn't begin with the book in a file. It prints its name, and of a bad book the offset, or the index of the record.
#[derive(Clone, Copy, Debug, Error)]
pub enum BookFileError {
    /// No file is there.
    NoBook,
    /// Another process has the lock on the book.
    Locked,
    /// The file can't be opened, read, written or synced, or not be written anew.
    BookFault,
    /// The bytes of the file from this offset on are no book's.
    BadBook(u64),
    /// The record with this index, counted from 0, has no place in the book.
    BadRecord(usize),
    /// The book is another head end's.
    ForeignHead,
    /// Memory was refused.
    OutOfMemory,
}

impl fmt::Display for BookFileError {
    fn fmt<W: fmt::Write>(&self, f: &mut fmt::Formatter<W>) -> fmt::Result {
        match self {
            BookFileError::BadBook(offset) => write!(f, "BadBook {offset}"),
            BookFileError::BadRecord(index) => write!(f, "BadRecord {index}"),
            other => fmt::Debug::fmt(other, f),
        }
    }
}

impl From<JournalError> for BookFileError {
    ghost from_gives = { λ error e. e ≡ old_book_error error };

    fn from(error: JournalError) -> BookFileError {
        match error {
            JournalError::BadBook { offset } => BookFileError::BadBook(offset),
            JournalError::Locked => BookFileError::Locked,
            JournalError::OutOfMemory => BookFileError::OutOfMemory,
            JournalError::NotEmpty
            | JournalError::TooLong
            | JournalError::Full
            | JournalError::BookFault => BookFileError::BookFault,
        }
    }
}

impl From<fw_kept::OpenError> for BookFileError {
    ghost from_gives = { λ error e. e ≡ reopened_error error };

    fn from(error: fw_kept::OpenError) -> BookFileError {
        match error {
            fw_kept::OpenError::BadBook { offset } => BookFileError::BadBook(offset),
            fw_kept::OpenError::BadRecord { index } => BookFileError::BadRecord(index),
            fw_kept::OpenError::ForeignHead => BookFileError::ForeignHead,
            fw_kept::OpenError::BookFault => BookFileError::BookFault,
            fw_kept::OpenError::OutOfMemory => BookFileError::OutOfMemory,
        }
    }
}

/// Why no file of a new book is made.
#[derive(Clone, Copy, Debug, Error)]
pub enum NewBookError {
    /// A file is there.
    BookExists,
    /// Another process makes it.
    Locked,
    /// It can't be looked for, made, written or synced.
    BookFault,
    /// Memory was refused.
    OutOfMemory,
}

impl fmt::Display for NewBookError {
    fn fmt<W: fmt::Write>(&self, f: &mut fmt::Formatter<W>) -> fmt::Result {
        fmt::Debug::fmt(self, f)
    }
}

impl From<JournalError> for NewBookError {
    ghost from_gives = { λ error e. e ≡ new_book_error error };

    fn from(error: JournalError) -> NewBookError {
        match error {
            JournalError::NotEmpty => NewBookError::BookExists,
            JournalError::Locked => NewBookError::Locked,
            JournalError::OutOfMemory => NewBookError::OutOfMemory,
            JournalError::BadBook { .. }
            | JournalError::TooLong
            | JournalError::Full
            | JournalError::BookFault => NewBookError::BookFault,
        }
    }
}

/// Why the counter in a file isn't gone on with.
#[derive(Clone, Copy, Debug, Error)]
pub enum CounterFileError {
    /// No file is there.
    NoCounter,
    /// Another process has the counter.
    CounterLocked,
    /// The file can't be opened, read, written or synced, or not be written anew, or has no counter.
    CounterFault,
    /// Memory was refused.
    OutOfMemory,
}

impl fmt::Display for CounterFileError {
    fn fmt<W: fmt::Write>(&self, f: &mut fmt::Formatter<W>) -> fmt::Result {
        fmt::Debug::fmt(self, f)
    }
}

impl From<JournalError> for CounterFileError {
    ghost from_gives = { λ error e. e ≡ old_counter_error error };

    fn from(error: JournalError) -> CounterFileError {
        match error {
            JournalError::Locked => CounterFileError::CounterLocked,
            JournalError::OutOfMemory => CounterFileError::OutOfMemory,
            JournalError::BadBook { .. }
            | JournalError::NotEmpty
            | JournalError::TooLong
            | JournalError::Full
            | JournalError::BookFault => CounterFileError::CounterFault,
        }
    }
}

/// Why no file of a new counter is made.
#[derive(Clone, Copy, Debug, Error)]
pub enum NewCounterError {
    /// A file is there.
    CounterExists,
    /// Another process makes it.
    CounterLocked,
    /// It can't be looked for, made, written or synced.
    CounterFault,
    /// Memory was refused.
    OutOfMemory,
}

impl fmt::Display for NewCounterError {
    fn fmt<W: fmt::Write>(&self, f: &mut fmt::Formatter<W>) -> fmt::Result {
        fmt::Debug::fmt(self, f)
    }
}

impl From<JournalError> for NewCounterError {
    ghost from_gives = { λ error e. e ≡ new_counter_error error };

    fn from(error: JournalError) -> NewCounterError {
        match error {
            JournalError::NotEmpty => NewCounterError::CounterExists,
            JournalError::Locked => NewCounterError::CounterLocked,
            JournalError::OutOfMemory => NewCounterError::OutOfMemory,
            JournalError::BadBook { .. }
            | JournalError::TooLong
            | JournalError::Full
            | JournalError::BookFault => NewCounterError::CounterFault,
        }
    }
}

/// Why a meter has no links of a key file. It prints its name, and of bad keys the number of the line and what is wrong with it.
#[derive(Clone, Copy, Debug, Error)]
pub enum MeterKeysError {
    /// The file can't be opened or read.
    KeysFault,
    /// Others than its owner may read or write it.
    KeysReadable,
    /// The line of this number, counted from 1, is the first with which it is no key file, and what is wrong with it.
    BadKeys(u64, BadLine),
    /// Memory was refused.
    OutOfMemory,
}

impl fmt::Display for MeterKeysError {
    fn fmt<W: fmt::Write>(&self, f: &mut fmt::Formatter<W>) -> fmt::Result {
        match self {
            MeterKeysError::BadKeys(number, cause) => write!(f, "BadKeys {number} {cause}"),
            other => fmt::Debug::fmt(other, f),
        }
    }
}

/// Why a head end has no links of a key file with the meters of its list. It prints its name, of bad keys the number of the line and what is
/// wrong with it, and without a key the number of the meter.
#[derive(Clone, Copy, Debug, Error)]
pub enum HeadKeysError {
    /// The file can't be opened or read.
    KeysFault,
    /// Others than its owner may read or write it.
    KeysReadable,
    /// The line of this number, counted from 1, is the first with which it is no key file, and what is wrong with it.
    BadKeys(u64, BadLine),
    /// The list has the meter of this number, and the file has no line of it.
    NoKey(u32),
    /// Memory was refused.
    OutOfMemory,
}

impl fmt::Display for HeadKeysError {
    fn fmt<W: fmt::Write>(&self, f: &mut fmt::Formatter<W>) -> fmt::Result {
        match self {
            HeadKeysError::BadKeys(number, cause) => write!(f, "BadKeys {number} {cause}"),
            HeadKeysError::NoKey(meter) => write!(f, "NoKey {meter}"),
            other => fmt::Debug::fmt(other, f),
        }
    }
}

impl From<AllocError> for HeadKeysError {
    ghost from_gives = { λ _ e. e ≡ head_keys.OutOfMemory };

    fn from(_error: AllocError) -> HeadKeysError {
        HeadKeysError::OutOfMemory
    }
}

/// Why the campaigns that are to be cancelled in a book aren't named, or one of them isn't let be cancelled. It prints its name, or of a
/// refusal the book's name for it.
#[derive(Clone, Copy, Debug, Error)]
pub enum CancelsError {
    /// The book refuses to cancel one of them.
    Refused(BookError),
    /// Memory was refused.
    OutOfMemory,
}

impl fmt::Display for CancelsError {
    fn fmt<W: fmt::Write>(&self, f: &mut fmt::Formatter<W>) -> fmt::Result {
        match self {
            CancelsError::Refused(refusal) => fmt::Display::fmt(refusal, f),
            CancelsError::OutOfMemory => f.write_str("OutOfMemory"),
        }
    }
}

impl From<AllocError> for CancelsError {
    ghost from_gives = { λ _ e. e ≡ cancels.OutOfMemory };

    fn from(_error: AllocError) -> CancelsError {
        CancelsError::OutOfMemory
    }
}
