//! Why a head end stops before all rows have ended.

ghost use Rattle.std.specs.Prelude.{◌≡◌};
ghost use Rattle.fw_rollout.specs.Stopping.{stop_of};
ghost use Rattle.fw_rollout.specs.declared.error.Stop.TheVariants as stop;

use fw_head::OutOfMemory;
use fw_kept::KeptError;
use fw_port::Closed;
use std::alloc::{AllocError, AllocFailed};
use std::fmt;
use thiserror::Error;

/// Why a head end stops before all rows have ended.
#[derive(Clone, Copy, Debug, Error)]
pub enum Stop {
    /// The port is closed.
    Closed,
    /// The book, or what waits for it, has 2^60 bytes or more.
    Full,
    /// The device of the book failed.
    BookFault,
    /// Memory was refused.
    OutOfMemory,
}

impl fmt::Display for Stop {
    fn fmt<W: fmt::Write>(&self, f: &mut fmt::Formatter<W>) -> fmt::Result {
        fmt::Debug::fmt(self, f)
    }
}

impl From<Closed> for Stop {
    ghost from_gives = { λ _ e. e ≡ stop.Closed };

    fn from(_closed: Closed) -> Stop {
        Stop::Closed
    }
}

impl From<OutOfMemory> for Stop {
    ghost from_gives = { λ _ e. e ≡ stop.OutOfMemory };

    fn from(_error: OutOfMemory) -> Stop {
        Stop::OutOfMemory
    }
}

impl From<AllocError> for Stop {
    ghost from_gives = { λ _ e. e ≡ stop.OutOfMemory };

    fn from(_error: AllocError) -> Stop {
        Stop::OutOfMemory
    }
}

impl<T: Drop> From<AllocFailed<T>> for Stop {
    ghost from_gives = { λ _ e. e ≡ stop.OutOfMemory };

    fn from(_error: AllocFailed<T>) -> Stop {
        Stop::OutOfMemory
    }
}

impl From<KeptError> for Stop {
    ghost from_gives = { λ error e. e ≡ stop_of error };

    /// A commit is never refused by the book.
    fn from(error: KeptError) -> Stop {
        match error {
            KeptError::Full => Stop::Full,
            KeptError::OutOfMemory => Stop::OutOfMemory,
            KeptError::Refused(_) | KeptError::BookFault => Stop::BookFault,
        }
    }
}
