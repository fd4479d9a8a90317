//! Why a file of keys isn't read or made.

ghost use Rattle.std.specs.Prelude.{◌≡◌};
ghost use Rattle.fw_key_files.specs.declared.error.KeyFileError.TheVariants.{OutOfMemory};
ghost use Rattle.fw_key_files.specs.Refusals.{error_of};

use crate::owner::Owner;
use fw_disk::Cause;
use fw_keys::{BadLine, KeysError};
use std::alloc::AllocError;
use std::fmt;
use thiserror::Error;

/// Why keys aren't read, or aren't made.
#[derive(Clone, Copy, Debug, Error)]
pub enum KeyFileError {
    /// The file can't be opened or read, or is a link or no regular file, or has another name as well, or has more than 64 MiB.
    KeysFault,
    /// Others than its owner may read or write the file.
    KeysReadable,
    /// The first line with which the text is no key file, counted from 1, and what is wrong with it. Of keys that are made it is the place of a
    /// meter in its list.
    BadKeys(u64, BadLine),
    /// The source of random bytes gave none, or the same twice.
    NoRandomness,
    /// The keys found no memory.
    OutOfMemory,
}

impl fmt::Display for KeyFileError {
    fn fmt<W: fmt::Write>(&self, f: &mut fmt::Formatter<W>) -> fmt::Result {
        match self {
            KeyFileError::BadKeys(line, cause) => write!(f, "BadKeys {line} {cause}"),
            KeyFileError::KeysFault
            | KeyFileError::KeysReadable
            | KeyFileError::NoRandomness
            | KeyFileError::OutOfMemory => fmt::Debug::fmt(self, f),
        }
    }
}

impl From<AllocError> for KeyFileError {
    ghost from_gives = { λ _ e. e ≡ OutOfMemory };

    fn from(_error: AllocError) -> KeyFileError {
        KeyFileError::OutOfMemory
    }
}

impl From<KeysError> for KeyFileError {
    ghost from_gives = { λ error e. e ≡ error_of error };

    fn from(error: KeysError) -> KeyFileError {
        match error {
            KeysError::BadKeys(line, why) => KeyFileError::BadKeys(line, why),
            KeysError::OutOfMemory => KeyFileError::OutOfMemory,
        }
    }
}

/// Which file couldn't be made, and why.
#[derive(Clone, Copy, Debug)]
pub struct NotMade {
    /// Whose file it is.
    pub owner: Owner,
    /// Why.
    pub cause: Cause,
}
