//! Why a text is no key file.

ghost use Rattle.std.specs.Prelude.{◌≡◌};
ghost use Rattle.fw_keys.specs.declared.error.KeysError.TheVariants.{OutOfMemory};

use std::alloc::AllocError;
use std::fmt;
use thiserror::Error;

/// What is wrong with a line of a key file.
#[derive(Clone, Copy, Debug, PartialEq, Eq, Error)]
pub enum BadLine {
    /// The first line of a meter's file isn't its system title, 16 hexadecimal digits.
    BadTitle,
    /// A line isn't `NAME,TITLE,KEY,AUTHENTICATION` with 16, 32 and 32 hexadecimal digits: a field is missing, is too short or too long, or
    /// has another character.
    BadFields,
    /// The name is no number of a meter, 1 to 10 decimal digits below 2^32, or no address of a head end with its port.
    BadName,
    /// The other end has the title of the end that has the file.
    TitlesEqual,
    /// An earlier line has the encryption key. The end's own title would stand twice under it.
    KeyTwice,
    /// An earlier line has the name.
    NameTwice,
}

impl fmt::Display for BadLine {
    fn fmt<W: fmt::Write>(&self, f: &mut fmt::Formatter<W>) -> fmt::Result {
        fmt::Debug::fmt(self, f)
    }
}

/// Why a key file isn't read, or a link isn't made.
#[derive(Clone, Copy, Debug, Error)]
pub enum KeysError {
    /// The first line with which a text is no key file, counted from 1, and what is wrong with it.
    BadKeys(u64, BadLine),
    /// The keys found no memory.
    OutOfMemory,
}

impl fmt::Display for KeysError {
    fn fmt<W: fmt::Write>(&self, f: &mut fmt::Formatter<W>) -> fmt::Result {
        match self {
            KeysError::BadKeys(line, cause) => write!(f, "BadKeys {line} {cause}"),
            KeysError::OutOfMemory => f.write_str("OutOfMemory"),
        }
    }
}

impl From<AllocError> for KeysError {
    ghost from_gives = { λ _ e. e ≡ OutOfMemory };

    fn from(_error: AllocError) -> KeysError {
        KeysError::OutOfMemory
    }
}
