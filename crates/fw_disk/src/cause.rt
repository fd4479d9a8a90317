//! Why a file wasn't opened, made or written.

ghost use Rattle.std.specs.Prelude.{◌≡◌};
ghost use Rattle.fw_disk.specs.Causes.{IsOfSystem, cause_of};
ghost use Rattle.fw_disk.specs.declared.cause.NamingError.TheVariants.{NotNamed};

use std::alloc::AllocError;
use std::fs::TryLockError;
use std::io::ErrorKind;
use std::{fmt, io};
use thiserror::Error;

/// Why a call of a folder failed: the system's own error by its kind, or that the file isn't ours.
#[derive(Clone, Copy, Debug, PartialEq, Eq, Error)]
pub enum Cause {
    /// There is no such file, or no such folder.
    Missing,
    /// It is a folder.
    IsFolder,
    /// A part of the path is no folder.
    NotFolder,
    /// The process hasn't the right.
    NoRight,
    /// The file system can only be read.
    ReadOnly,
    /// No space is left on the device.
    Full,
    /// Another process has the file open.
    Locked,
    /// The process, or the system, has too many files open.
    TooManyOpen,
    /// A file is there already.
    Exists,
    /// It is no regular file, or it has another name as well.
    NotAlone,
    /// By its first bytes it isn't ours.
    Foreign,
    /// Anything else, by the system's number, 0 if it gave none.
    Other { code: i32 },
}

/// The error numbers of Linux that say that a process, or the system, has as many files open as it may.
pub const TOO_MANY_OPEN: [i32; 2] = [24, 23];

impl fmt::Display for Cause {
    fn fmt<W: fmt::Write>(&self, f: &mut fmt::Formatter<W>) -> fmt::Result {
        match self {
            Cause::Missing => f.write_str("there is no such file or folder"),
            Cause::IsFolder => f.write_str("it is a folder"),
            Cause::NotFolder => f.write_str("a part of the path is no folder"),
            Cause::NoRight => f.write_str("the right to do so is missing"),
            Cause::ReadOnly => f.write_str("the file system can only be read"),
            Cause::Full => f.write_str("no space is left on the device"),
            Cause::Locked => f.write_str("another process has it open"),
            Cause::TooManyOpen => f.write_str("too many files are open"),
            Cause::Exists => f.write_str("a file is there already"),
            Cause::NotAlone => f.write_str(
                "it is a link, or no regular file, or has another name as well",
            ),
            Cause::Foreign => f.write_str("it is another program's file"),
            Cause::Other { code } => fmt::Display::fmt(&io::Error::from_raw_os_error(*code), f),
        }
    }
}

impl From<io::Error> for Cause {
    ghost from_gives = { λ _ cause. IsOfSystem cause };

    fn from(error: io::Error) -> Cause {
        let code = error.raw_os_error().unwrap_or(0);
        match error.kind() {
            ErrorKind::NotFound => Cause::Missing,
            ErrorKind::IsADirectory => Cause::IsFolder,
            ErrorKind::NotADirectory => Cause::NotFolder,
            ErrorKind::PermissionDenied => Cause::NoRight,
            ErrorKind::ReadOnlyFilesystem => Cause::ReadOnly,
            ErrorKind::StorageFull | ErrorKind::QuotaExceeded => Cause::Full,
            ErrorKind::WouldBlock => Cause::Locked,
            ErrorKind::AlreadyExists => Cause::Exists,
            _ if TOO_MANY_OPEN.contains(&code) => Cause::TooManyOpen,
            _ => Cause::Other { code },
        }
    }
}

// A folder in memory that gets no memory is a device without room.
impl From<AllocError> for Cause {
    ghost from_gives = { λ _ cause. IsOfSystem cause };

    fn from(_error: AllocError) -> Cause {
        Cause::Full
    }
}

impl From<TryLockError> for Cause {
    ghost from_gives = { λ _ cause. IsOfSystem cause };

    fn from(error: TryLockError) -> Cause {
        match error {
            TryLockError::WouldBlock => Cause::Locked,
            TryLockError::Error(error) => Cause::from(error),
        }
    }
}

/// Why a file that was made hasn't the name that it was made for.
#[derive(Clone, Copy, Debug, Error)]
pub enum NamingError {
    /// It hasn't got the name. What had the name has it, as before.
    NotNamed(Cause),
    /// It has the name, but a power cut may take that back.
    NotSynced(Cause),
}

impl From<Cause> for NamingError {
    ghost from_gives = { λ cause error. error ≡ NotNamed cause };

    fn from(cause: Cause) -> NamingError {
        NamingError::NotNamed(cause)
    }
}

impl NamingError {
    /// The cause alone.
    pub fn cause(&self) -> Cause
        ensures { result ≡ cause_of self.now }
    {
        match self {
            NamingError::NotNamed(cause) | NamingError::NotSynced(cause) => *cause,
        }
    }
}

impl fmt::Display for NamingError {
    fn fmt<W: fmt::Write>(&self, f: &mut fmt::Formatter<W>) -> fmt::Result {
        fmt::Display::fmt(&self.cause(), f)
    }
}
