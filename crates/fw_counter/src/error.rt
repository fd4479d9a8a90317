//! Why counters aren't opened, or none is given.

ghost use Rattle.std.specs.Prelude.{◌≡◌};
ghost use Rattle.fw_counter.specs.declared.error.OpeningError.TheVariants.{Counter};
ghost use Rattle.fw_counter.specs.Refusals.{counter_error, device_error, replace_error};

use fw_journal::{DeviceError, JournalError, ReplaceError};
use std::fmt;
use thiserror::Error;

/// Why counters aren't opened, or none is given.
#[derive(Clone, Copy, Debug, Error)]
pub enum CounterError {
    /// The bytes are no journal's, or one of its records isn't a number of four bytes.
    NoCounter,
    /// The device failed, in this call or in an earlier one, or the journal has 2^60 bytes or more.
    CounterFault,
    /// All counters are used.
    CounterSpent,
    /// Memory was refused.
    OutOfMemory,
}

impl fmt::Display for CounterError {
    fn fmt<W: fmt::Write>(&self, f: &mut fmt::Formatter<W>) -> fmt::Result {
        fmt::Debug::fmt(self, f)
    }
}

impl From<DeviceError> for CounterError {
    ghost from_gives = { λ error e. e ≡ device_error error };

    fn from(error: DeviceError) -> CounterError {
        match error {
            DeviceError::Fault => CounterError::CounterFault,
            DeviceError::OutOfMemory => CounterError::OutOfMemory,
        }
    }
}

impl From<JournalError> for CounterError {
    ghost from_gives = { λ error e. e ≡ counter_error error };

    fn from(error: JournalError) -> CounterError {
        match error {
            JournalError::BadBook { .. } => CounterError::NoCounter,
            JournalError::OutOfMemory => CounterError::OutOfMemory,
            JournalError::NotEmpty
            | JournalError::TooLong
            | JournalError::Full
            | JournalError::Locked
            | JournalError::BookFault => CounterError::CounterFault,
        }
    }
}

/// Why counters aren't opened.
#[derive(Clone, Copy, Debug, Error)]
pub enum OpeningError {
    /// There are none, the device failed, or memory was refused.
    Counter(CounterError),
    /// The new bytes couldn't be made beside the old ones. The device is as it was.
    NotReplaced,
}

impl fmt::Display for OpeningError {
    fn fmt<W: fmt::Write>(&self, f: &mut fmt::Formatter<W>) -> fmt::Result {
        match self {
            OpeningError::Counter(error) => fmt::Display::fmt(error, f),
            other => fmt::Debug::fmt(other, f),
        }
    }
}

impl From<CounterError> for OpeningError {
    ghost from_gives = { λ error e. e ≡ Counter error };

    fn from(error: CounterError) -> OpeningError {
        OpeningError::Counter(error)
    }
}

impl From<ReplaceError> for OpeningError {
    ghost from_gives = { λ error e. e ≡ replace_error error };

    fn from(error: ReplaceError) -> OpeningError {
        match error {
            ReplaceError::NotReplaced => OpeningError::NotReplaced,
            ReplaceError::Fault => OpeningError::Counter(CounterError::CounterFault),
            ReplaceError::OutOfMemory => OpeningError::Counter(CounterError::OutOfMemory),
        }
    }
}
