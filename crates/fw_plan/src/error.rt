//! Why no campaigns are named.

ghost use Rattle.std.specs.Prelude.{◌≡◌};
ghost use Rattle.fw_plan.specs.declared.error.PlanError.TheVariants.{OutOfMemory};

use std::alloc::{AllocError, AllocFailed};
use std::fmt;
use thiserror::Error;

/// Why there are no campaigns for the meters that lack one.
#[derive(Clone, Copy, Debug, Drop, Error)]
pub enum PlanError {
    /// The first serial number is 0, or fewer are free from it on than are needed.
    NoSerial,
    /// Memory was refused.
    OutOfMemory,
}

impl fmt::Display for PlanError {
    fn fmt<W: fmt::Write>(&self, f: &mut fmt::Formatter<W>) -> fmt::Result {
        fmt::Debug::fmt(self, f)
    }
}

impl From<AllocError> for PlanError {
    ghost from_gives = { λ _ e. e ≡ OutOfMemory };

    fn from(_error: AllocError) -> PlanError {
        PlanError::OutOfMemory
    }
}

impl<T: Drop> From<AllocFailed<T>> for PlanError {
    ghost from_gives = { λ _ e. e ≡ OutOfMemory };

    fn from(_error: AllocFailed<T>) -> PlanError {
        PlanError::OutOfMemory
    }
}
