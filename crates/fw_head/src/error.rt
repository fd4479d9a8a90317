//! Why a head end was not put together.

ghost use Rattle.std.specs.Prelude.{◌≡◌};
ghost use Rattle.fw_head.specs.declared.error.PutError.TheVariants as put_error;

use std::alloc::AllocError;
use std::fmt;
use thiserror::Error;

/// Why parts were not put together. If both would apply, the first comes.
#[derive(Clone, Copy, Debug, Error)]
pub enum PutError {
    /// The rows are not those that are live in the book, each once, for the image that their campaign offers.
    WrongRows,
    /// Memory was refused.
    OutOfMemory,
}

impl fmt::Display for PutError {
    fn fmt<W: fmt::Write>(&self, f: &mut fmt::Formatter<W>) -> fmt::Result {
        fmt::Debug::fmt(self, f)
    }
}

impl From<AllocError> for PutError {
    ghost from_gives = { λ _ e. e ≡ put_error.OutOfMemory };

    fn from(_error: AllocError) -> PutError {
        PutError::OutOfMemory
    }
}
