//! Why a file that a command reads isn't read.

ghost use Rattle.std.specs.Prelude.{◌≡◌};
ghost use Rattle.fw_cli.specs.Private.{of_file, of_list};
ghost use Rattle.fw_cli.specs.Sealing.{sealing_of_new, sealing_of_old};
ghost use Rattle.fw_cli.specs.declared.error.TellingError.TheVariants as telling;

use fw_host::{CounterFileError, ListError, NewCounterError};
use std::alloc::AllocError;

/// Why a file isn't read.
#[derive(Clone, Copy)]
pub(crate) enum FileError {
    /// It can't be opened or read.
    Unread,
    /// It has more than 64 MiB.
    TooLong,
    /// Memory was refused.
    OutOfMemory,
}

/// Why no list of meters is read from a file.
#[derive(Clone, Copy)]
pub(crate) enum ListFileError {
    /// The file can't be opened or read, or has more than 64 MiB.
    ListFault,
    /// The line of this number, counted from 1, is none of a list, or has a number or an address that an earlier one has.
    BadList(u64),
    /// Memory was refused.
    OutOfMemory,
}

impl From<FileError> for ListFileError {
    ghost from_gives = { λ error e. e ≡ of_file error };

    fn from(error: FileError) -> ListFileError {
        match error {
            FileError::Unread | FileError::TooLong => ListFileError::ListFault,
            FileError::OutOfMemory => ListFileError::OutOfMemory,
        }
    }
}

impl From<ListError> for ListFileError {
    ghost from_gives = { λ error e. e ≡ of_list error };

    fn from(error: ListError) -> ListFileError {
        match error {
            ListError::BadList(number) => ListFileError::BadList(number),
            ListError::OutOfMemory => ListFileError::OutOfMemory,
        }
    }
}

/// Why a daemon has no counters, or is to make some where a file is there.
#[derive(Clone, Copy)]
pub(crate) enum SealingError {
    /// No file of counters is there, and none is to be made.
    NoCounter,
    /// Counters are to be made where a file is there.
    CounterExists,
    /// Another process has the counters.
    CounterLocked,
    /// The file of the counters can't be looked for, opened, read, written or synced, or has none.
    CounterFault,
    /// Memory was refused.
    OutOfMemory,
}

impl From<NewCounterError> for SealingError {
    ghost from_gives = { λ error e. e ≡ sealing_of_new error };

    fn from(error: NewCounterError) -> SealingError {
        match error {
            NewCounterError::CounterExists => SealingError::CounterExists,
            NewCounterError::CounterLocked => SealingError::CounterLocked,
            NewCounterError::CounterFault => SealingError::CounterFault,
            NewCounterError::OutOfMemory => SealingError::OutOfMemory,
        }
    }
}

impl From<CounterFileError> for SealingError {
    ghost from_gives = { λ error e. e ≡ sealing_of_old error };

    fn from(error: CounterFileError) -> SealingError {
        match error {
            CounterFileError::NoCounter => SealingError::NoCounter,
            CounterFileError::CounterLocked => SealingError::CounterLocked,
            CounterFileError::CounterFault => SealingError::CounterFault,
            CounterFileError::OutOfMemory => SealingError::OutOfMemory,
        }
    }
}

/// Why a daemon ended whose port is closed.
#[derive(Clone, Copy)]
pub(crate) enum ClosingError {
    /// The socket failed.
    Socket,
    /// A record of the capture can't be written, or put on the disk.
    CaptureFault,
    /// The file of the counters can't be written.
    CounterFault,
    /// All counters are used.
    CounterSpent,
}

/// Why the first line of a daemon isn't written.
#[derive(Clone, Copy)]
pub(crate) enum TellingError {
    /// The writer failed.
    Output,
    /// Memory was refused.
    OutOfMemory,
}

impl From<AllocError> for TellingError {
    ghost from_gives = { λ _ e. e ≡ telling.OutOfMemory };

    fn from(_error: AllocError) -> TellingError {
        TellingError::OutOfMemory
    }
}
