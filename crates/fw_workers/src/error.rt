//! Why a rehearsal or a live rollout has no report.

ghost use Rattle.std.specs.Prelude.{◌≡◌, ◌≢◌};
ghost use Rattle.fw_workers.specs.Ends.{ComesLast, IsOfEvent};
ghost use Rattle.fw_workers.specs.Refusals.{IsLater, of_account, of_put, of_rounds, of_setup, of_step};
ghost use Rattle.fw_workers.specs.declared.error.RehearseError.TheVariants as refused;
ghost use Rattle.fw_workers.specs.declared.error.RoundsError.TheVariants as unaccounted;

use fw_accounts::AccountError;
use fw_head::PutError;
use fw_shared::OutOfMemory;
use fw_world::{SetupError, StepError};
use std::alloc::{AllocError, AllocFailed};
use std::fmt;
use thiserror::Error;

/// Why a rehearsal has no report. Of several workers' refusals the lowest worker's is given.
#[derive(Clone, Copy, Debug, Drop, Error)]
pub enum RehearseError {
    /// What the workers left isn't what their record says.
    Mismatch,
    /// A thread could not be started.
    ThreadRefused,
    /// The given event at this place, counted from 0, was refused, for another cause than memory.
    Event(usize),
    /// Memory was refused.
    OutOfMemory,
    /// There is another number of wires than of links, or no socket could be bound.
    Socket,
    /// A gate did not let a worker go on.
    GateShut,
    /// The workers are not 1 to 8, or no world can be made with this setup.
    BadSetup,
}

impl fmt::Display for RehearseError {
    fn fmt<W: fmt::Write>(&self, f: &mut fmt::Formatter<W>) -> fmt::Result {
        fmt::Debug::fmt(self, f)
    }
}

impl From<AllocError> for RehearseError {
    ghost from_gives = { λ _ e. e ≡ refused.OutOfMemory };

    fn from(_error: AllocError) -> RehearseError {
        RehearseError::OutOfMemory
    }
}

impl<T: Drop> From<AllocFailed<T>> for RehearseError {
    ghost from_gives = { λ _ e. e ≡ refused.OutOfMemory };

    fn from(_error: AllocFailed<T>) -> RehearseError {
        RehearseError::OutOfMemory
    }
}

impl From<SetupError> for RehearseError {
    ghost from_gives = { λ refusal e. e ≡ of_setup refusal };

    fn from(refusal: SetupError) -> RehearseError {
        match refusal {
            SetupError::BadSetup => RehearseError::BadSetup,
            SetupError::OutOfMemory => RehearseError::OutOfMemory,
        }
    }
}

/// Why what workers did is not accounted for. A setup, a given event or the wires are never the reason.
#[derive(Clone, Copy, Debug, Drop, Error)]
pub enum RoundsError {
    /// What the workers left isn't what their record says.
    Mismatch,
    /// A thread could not be started.
    ThreadRefused,
    /// Memory was refused.
    OutOfMemory,
    /// A gate did not let a worker go on.
    GateShut,
}

impl fmt::Display for RoundsError {
    fn fmt<W: fmt::Write>(&self, f: &mut fmt::Formatter<W>) -> fmt::Result {
        fmt::Debug::fmt(self, f)
    }
}

impl From<RoundsError> for RehearseError {
    ghost from_gives = { λ reason e.
        (e ≡ of_rounds reason) × (e ≡ refused.GateShut → reason ≡ unaccounted.GateShut) × IsLater e × (e ≢ refused.Socket) };

    fn from(reason: RoundsError) -> RehearseError {
        match reason {
            RoundsError::Mismatch => RehearseError::Mismatch,
            RoundsError::ThreadRefused => RehearseError::ThreadRefused,
            RoundsError::OutOfMemory => RehearseError::OutOfMemory,
            RoundsError::GateShut => RehearseError::GateShut,
        }
    }
}

impl From<AllocError> for RoundsError {
    ghost from_gives = { λ _ e. e ≡ unaccounted.OutOfMemory };

    fn from(_error: AllocError) -> RoundsError {
        RoundsError::OutOfMemory
    }
}

impl<T: Drop> From<AllocFailed<T>> for RoundsError {
    ghost from_gives = { λ _ e. e ≡ unaccounted.OutOfMemory };

    fn from(_error: AllocFailed<T>) -> RoundsError {
        RoundsError::OutOfMemory
    }
}

impl From<OutOfMemory> for RoundsError {
    ghost from_gives = { λ _ e. e ≡ unaccounted.OutOfMemory };

    fn from(_error: OutOfMemory) -> RoundsError {
        RoundsError::OutOfMemory
    }
}

impl From<StepError> for RoundsError {
    ghost from_gives = { λ refusal e. (e ≡ of_step refusal) × IsOfEvent e };

    fn from(refusal: StepError) -> RoundsError {
        match refusal {
            StepError::OutOfMemory => RoundsError::OutOfMemory,
            _ => RoundsError::Mismatch,
        }
    }
}

impl From<PutError> for RoundsError {
    ghost from_gives = { λ refusal e. (e ≡ of_put refusal) × ComesLast e };

    fn from(refusal: PutError) -> RoundsError {
        match refusal {
            PutError::WrongRows => RoundsError::Mismatch,
            PutError::OutOfMemory => RoundsError::OutOfMemory,
        }
    }
}

impl From<AccountError> for RoundsError {
    ghost from_gives = { λ refusal e. (e ≡ of_account refusal) × ComesLast e };

    fn from(refusal: AccountError) -> RoundsError {
        match refusal {
            AccountError::Mismatch => RoundsError::Mismatch,
            AccountError::OutOfMemory => RoundsError::OutOfMemory,
        }
    }
}
