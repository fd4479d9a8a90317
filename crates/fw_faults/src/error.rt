//! Why input isn't read.

ghost use Rattle.std.specs.Prelude.{◌≡◌};
ghost use Rattle.fw_faults.specs.declared.error.InputError.TheVariants.{OutOfMemory};

use std::alloc::AllocError;
use std::fmt;
use thiserror::Error;

/// Why not all that a reader has is read.
#[derive(Clone, Copy, Debug, Error)]
pub enum InputError {
    /// The reader failed, or came to no end within 2^32 reads.
    Input,
    /// The reader had more than 64 MiB.
    TooMuchInput,
    /// Memory was refused.
    OutOfMemory,
}

impl fmt::Display for InputError {
    fn fmt<W: fmt::Write>(&self, f: &mut fmt::Formatter<W>) -> fmt::Result {
        fmt::Debug::fmt(self, f)
    }
}

impl From<AllocError> for InputError {
    ghost from_gives = { λ _ e. e ≡ OutOfMemory };

    fn from(_error: AllocError) -> InputError {
        InputError::OutOfMemory
    }
}
