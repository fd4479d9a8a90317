//! Why a text is no script, or letters are no fates.

ghost use Rattle.std.specs.Prelude.{◌≡◌};
ghost use Rattle.fw_script.specs.declared.error.FatesError.TheVariants as fates;
ghost use Rattle.fw_script.specs.declared.error.ScriptError.TheVariants as script;

use std::alloc::{AllocError, AllocFailed};
use std::fmt;
use thiserror::Error;

/// Why a script isn't read. It prints its name, and of a bad line the number too.
#[derive(Clone, Copy, Debug, Error)]
pub enum ScriptError {
    /// The line of this number, counted from 1, can't go on with the script that the lines before it begin.
    BadLine(u64),
    /// Memory was refused.
    OutOfMemory,
}

impl fmt::Display for ScriptError {
    fn fmt<W: fmt::Write>(&self, f: &mut fmt::Formatter<W>) -> fmt::Result {
        match self {
            ScriptError::BadLine(number) => write!(f, "BadLine {number}"),
            ScriptError::OutOfMemory => f.write_str("OutOfMemory"),
        }
    }
}

impl From<AllocError> for ScriptError {
    ghost from_gives = { λ _ e. e ≡ script.OutOfMemory };

    fn from(_error: AllocError) -> ScriptError {
        ScriptError::OutOfMemory
    }
}

/// Why fates aren't read.
#[derive(Clone, Copy, Debug, Error)]
pub enum FatesError {
    /// The letters aren't 1 to 4,096 of `d`, `x`, `t` and `l`.
    BadFates,
    /// Memory was refused.
    OutOfMemory,
}

impl fmt::Display for FatesError {
    fn fmt<W: fmt::Write>(&self, f: &mut fmt::Formatter<W>) -> fmt::Result {
        fmt::Debug::fmt(self, f)
    }
}

impl From<AllocError> for FatesError {
    ghost from_gives = { λ _ e. e ≡ fates.OutOfMemory };

    fn from(_error: AllocError) -> FatesError {
        FatesError::OutOfMemory
    }
}

impl<T: Drop> From<AllocFailed<T>> for FatesError {
    ghost from_gives = { λ _ e. e ≡ fates.OutOfMemory };

    fn from(_error: AllocFailed<T>) -> FatesError {
        FatesError::OutOfMemory
    }
}
