//! Why a survey ends before all meters were asked.

ghost use Rattle.std.specs.Prelude.{◌≡◌};
ghost use Rattle.fw_survey.specs.declared.error.Stop.TheVariants as stop;

use fw_port::Closed;
use std::alloc::{AllocError, AllocFailed};
use std::fmt;
use thiserror::Error;

/// Memory was refused.
#[derive(Clone, Copy, Debug, Error)]
pub struct OutOfMemory;

impl fmt::Display for OutOfMemory {
    fn fmt<W: fmt::Write>(&self, f: &mut fmt::Formatter<W>) -> fmt::Result {
        fmt::Debug::fmt(self, f)
    }
}

impl From<AllocError> for OutOfMemory {
    fn from(_error: AllocError) -> OutOfMemory {
        OutOfMemory
    }
}

impl<T: Drop> From<AllocFailed<T>> for OutOfMemory {
    fn from(_error: AllocFailed<T>) -> OutOfMemory {
        OutOfMemory
    }
}

/// Why a survey ends before all meters were asked.
#[derive(Clone, Copy, Debug, Error)]
pub enum Stop {
    /// The port is closed, or the clock can't be read.
    Closed,
    /// Memory was refused.
    OutOfMemory,
}

impl fmt::Display for Stop {
    fn fmt<W: fmt::Write>(&self, f: &mut fmt::Formatter<W>) -> fmt::Result {
        fmt::Debug::fmt(self, f)
    }
}

impl From<Closed> for Stop {
    ghost from_gives = { λ _ e. e ≡ stop.Closed };

    fn from(_closed: Closed) -> Stop {
        Stop::Closed
    }
}

impl From<OutOfMemory> for Stop {
    ghost from_gives = { λ _ e. e ≡ stop.OutOfMemory };

    fn from(_error: OutOfMemory) -> Stop {
        Stop::OutOfMemory
    }
}
