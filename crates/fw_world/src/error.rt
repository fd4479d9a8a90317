//! Why a world was not made, and why an event was refused.

ghost use Rattle.std.specs.Prelude.{◌≡◌};
ghost use Rattle.fw_world.specs.Refusals.{of_book};
ghost use Rattle.fw_world.specs.declared.error.SetupError.TheVariants as unmade;
ghost use Rattle.fw_world.specs.declared.error.StepError.TheVariants.{OutOfMemory};

use fw_book::BookError;
use std::alloc::{AllocError, AllocFailed};
use std::fmt;
use thiserror::Error;

/// Why a world was not made.
#[derive(Clone, Copy, Debug, Error)]
pub enum SetupError {
    /// There is no head end or no meter, or there are too many, or a number stands twice, or a meter can't be made so.
    BadSetup,
    /// Memory was refused.
    OutOfMemory,
}

impl fmt::Display for SetupError {
    fn fmt<W: fmt::Write>(&self, f: &mut fmt::Formatter<W>) -> fmt::Result {
        fmt::Debug::fmt(self, f)
    }
}

impl From<AllocError> for SetupError {
    ghost from_gives = { λ _ e. e ≡ unmade.OutOfMemory };

    fn from(_error: AllocError) -> SetupError {
        SetupError::OutOfMemory
    }
}

/// Why an event was refused. Of several refusals that apply, the one that stands first here is given.
#[derive(Clone, Copy, Debug, Drop, Error)]
pub enum StepError {
    /// No datagram of this number was sent.
    NoSuchDatagram,
    /// There is no such head end or no such meter, or a datagram to a head end should stop a meter.
    NoSuchActor,
    /// The head end's book refused it.
    Book(BookError),
    /// Memory was refused.
    OutOfMemory,
}

impl fmt::Display for StepError {
    fn fmt<W: fmt::Write>(&self, f: &mut fmt::Formatter<W>) -> fmt::Result {
        match self {
            StepError::Book(refusal) => fmt::Display::fmt(refusal, f),
            other => fmt::Debug::fmt(other, f),
        }
    }
}

impl From<AllocError> for StepError {
    ghost from_gives = { λ _ e. e ≡ OutOfMemory };

    fn from(_error: AllocError) -> StepError {
        StepError::OutOfMemory
    }
}

impl<T: Drop> From<AllocFailed<T>> for StepError {
    ghost from_gives = { λ _ e. e ≡ OutOfMemory };

    fn from(_error: AllocFailed<T>) -> StepError {
        StepError::OutOfMemory
    }
}

impl From<fw_meter::OutOfMemory> for StepError {
    ghost from_gives = { λ _ e. e ≡ OutOfMemory };

    fn from(_error: fw_meter::OutOfMemory) -> StepError {
        StepError::OutOfMemory
    }
}

impl From<fw_head::OutOfMemory> for StepError {
    ghost from_gives = { λ _ e. e ≡ OutOfMemory };

    fn from(_error: fw_head::OutOfMemory) -> StepError {
        StepError::OutOfMemory
    }
}

impl From<BookError> for StepError {
    ghost from_gives = { λ refusal e. e ≡ of_book refusal };

    fn from(refusal: BookError) -> StepError {
        match refusal {
            BookError::OutOfMemory => StepError::OutOfMemory,
            other => StepError::Book(other),
        }
    }
}
