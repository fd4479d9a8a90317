//! Why what workers did is not accounted for.

ghost use Rattle.std.specs.Prelude.{◌≡◌};
ghost use Rattle.fw_accounts.specs.Refusals.{of_audit};
ghost use Rattle.fw_accounts.specs.declared.error.AccountError.TheVariants as refused;

use fw_air::AuditError;
use std::alloc::{AllocError, AllocFailed};
use std::fmt;
use thiserror::Error;

/// Why there is no report of what workers left.
#[derive(Clone, Copy, Debug, Drop, Error)]
pub enum AccountError {
    /// What the workers left isn't what their record says.
    Mismatch,
    /// Memory was refused.
    OutOfMemory,
}

impl fmt::Display for AccountError {
    fn fmt<W: fmt::Write>(&self, f: &mut fmt::Formatter<W>) -> fmt::Result {
        fmt::Debug::fmt(self, f)
    }
}

impl From<AllocError> for AccountError {
    ghost from_gives = { λ _ e. e ≡ refused.OutOfMemory };

    fn from(_error: AllocError) -> AccountError {
        AccountError::OutOfMemory
    }
}

impl<T: Drop> From<AllocFailed<T>> for AccountError {
    ghost from_gives = { λ _ e. e ≡ refused.OutOfMemory };

    fn from(_error: AllocFailed<T>) -> AccountError {
        AccountError::OutOfMemory
    }
}

impl From<AuditError> for AccountError {
    ghost from_gives = { λ refusal e. e ≡ of_audit refusal };

    fn from(refusal: AuditError) -> AccountError {
        match refusal {
            AuditError::BadSetup | AuditError::Mismatch => AccountError::Mismatch,
            AuditError::OutOfMemory => AccountError::OutOfMemory,
        }
    }
}
