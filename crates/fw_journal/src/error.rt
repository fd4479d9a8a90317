//! Why a device failed, or a journal refused a call.

ghost use Rattle.std.specs.Prelude.{◌≡◌};
ghost use Rattle.fw_journal.specs.declared.error.DeviceError.TheVariants as device;
ghost use Rattle.fw_journal.specs.declared.error.JournalError.TheVariants.{OutOfMemory};
ghost use Rattle.fw_journal.specs.declared.error.ReplaceError.TheVariants as replacing;
ghost use Rattle.fw_journal.specs.Refusals.{book_error, replace_error, rewrite_error};

use fw_disk::NamingError;
use std::alloc::{AllocError, AllocFailed};
use std::fmt;
use thiserror::Error;

/// Why a device refused a call.
#[derive(Clone, Copy, Debug, Error)]
pub enum DeviceError {
    /// The device failed.
    Fault,
    /// Memory was refused.
    OutOfMemory,
}

impl fmt::Display for DeviceError {
    fn fmt<W: fmt::Write>(&self, f: &mut fmt::Formatter<W>) -> fmt::Result {
        match self {
            DeviceError::Fault => f.write_str("DeviceFault"),
            other => fmt::Debug::fmt(other, f),
        }
    }
}

impl From<AllocError> for DeviceError {
    ghost from_gives = { λ _ e. e ≡ device.OutOfMemory };

    fn from(_error: AllocError) -> DeviceError {
        DeviceError::OutOfMemory
    }
}

impl<T: Drop> From<AllocFailed<T>> for DeviceError {
    ghost from_gives = { λ _ e. e ≡ device.OutOfMemory };

    fn from(_error: AllocFailed<T>) -> DeviceError {
        DeviceError::OutOfMemory
    }
}

/// Why the bytes of a device weren't replaced by others.
#[derive(Clone, Copy, Debug, Error)]
pub enum ReplaceError {
    /// The new bytes couldn't be made beside the old ones, which stay.
    NotReplaced,
    /// The device failed. It has its old bytes, or the new ones.
    Fault,
    /// Memory was refused. The device has its old bytes, or the new ones.
    OutOfMemory,
}

impl fmt::Display for ReplaceError {
    fn fmt<W: fmt::Write>(&self, f: &mut fmt::Formatter<W>) -> fmt::Result {
        match self {
            ReplaceError::Fault => f.write_str("DeviceFault"),
            other => fmt::Debug::fmt(other, f),
        }
    }
}

impl From<AllocError> for ReplaceError {
    ghost from_gives = { λ _ e. e ≡ replacing.OutOfMemory };

    fn from(_error: AllocError) -> ReplaceError {
        ReplaceError::OutOfMemory
    }
}

impl From<NamingError> for ReplaceError {
    ghost from_gives = { λ error e. e ≡ replace_error error };

    fn from(error: NamingError) -> ReplaceError {
        match error {
            NamingError::NotNamed(_) => ReplaceError::NotReplaced,
            NamingError::NotSynced(_) => ReplaceError::Fault,
        }
    }
}

/// Why a journal wasn't written anew.
#[derive(Clone, Copy, Debug, Error)]
pub enum RewriteError {
    /// The new bytes couldn't be made beside the old ones. The journal is as it was.
    NotReplaced,
    /// The device failed, in this call or in an earlier one.
    BookFault,
    /// Memory was refused.
    OutOfMemory,
}

impl fmt::Display for RewriteError {
    fn fmt<W: fmt::Write>(&self, f: &mut fmt::Formatter<W>) -> fmt::Result {
        fmt::Debug::fmt(self, f)
    }
}

impl From<ReplaceError> for RewriteError {
    ghost from_gives = { λ error e. e ≡ rewrite_error error };

    fn from(error: ReplaceError) -> RewriteError {
        match error {
            ReplaceError::NotReplaced => RewriteError::NotReplaced,
            ReplaceError::Fault => RewriteError::BookFault,
            ReplaceError::OutOfMemory => RewriteError::OutOfMemory,
        }
    }
}

/// Why a journal refused a call, or why bytes are no journal's.
#[derive(Clone, Copy, Debug, PartialEq, Eq, Error)]
pub enum JournalError {
    /// The bytes from this offset on are no whole record though the gate there is open; with offset 0, they don't begin as a journal does.
    BadBook { offset: u64 },
    /// A new journal was to be made if there are bytes.
    NotEmpty,
    /// The record has 4,294,967,296 bytes or more.
    TooLong,
    /// The journal, or what waits, has 2^60 bytes or more.
    Full,
    /// Another journal has the file open.
    Locked,
    /// The device failed, in this call or in an earlier one.
    BookFault,
    /// Memory was refused.
    OutOfMemory,
}

impl fmt::Display for JournalError {
    fn fmt<W: fmt::Write>(&self, f: &mut fmt::Formatter<W>) -> fmt::Result {
        match self {
            JournalError::BadBook { offset } => write!(f, "BadBook {offset}"),
            other => fmt::Debug::fmt(other, f),
        }
    }
}

impl From<AllocError> for JournalError {
    ghost from_gives = { λ _ e. e ≡ OutOfMemory };

    fn from(_error: AllocError) -> JournalError {
        JournalError::OutOfMemory
    }
}

impl<T: Drop> From<AllocFailed<T>> for JournalError {
    ghost from_gives = { λ _ e. e ≡ OutOfMemory };

    fn from(_error: AllocFailed<T>) -> JournalError {
        JournalError::OutOfMemory
    }
}

impl From<DeviceError> for JournalError {
    ghost from_gives = { λ error e. e ≡ book_error error };

    fn from(error: DeviceError) -> JournalError {
        match error {
            DeviceError::Fault => JournalError::BookFault,
            DeviceError::OutOfMemory => JournalError::OutOfMemory,
        }
    }
}
