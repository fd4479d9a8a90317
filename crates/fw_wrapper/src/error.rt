//! Why bytes are no wrapped APDU, or an APDU could not be wrapped.

ghost use Rattle.std.specs.Prelude.{◌≡◌};
ghost use Rattle.fw_wrapper.specs.declared.error.WrapError.TheVariants.{OutOfMemory};

use std::alloc::AllocError;
use std::fmt;
use thiserror::Error;

/// The refusals of `split` and `join`. If several would apply, the first of them comes.
#[derive(Clone, Copy, Debug, Error)]
pub enum WrapError {
    /// There are fewer bytes than a header has.
    Short,
    /// The header's version is not 1.
    Version,
    /// The header's length is not that of the bytes after it.
    Length,
    /// The APDU is longer than `MAX_APDU`.
    TooLong,
    /// The datagram found no memory.
    OutOfMemory,
}

impl fmt::Display for WrapError {
    fn fmt<W: fmt::Write>(&self, f: &mut fmt::Formatter<W>) -> fmt::Result {
        fmt::Debug::fmt(self, f)
    }
}

impl From<AllocError> for WrapError {
    ghost from_gives = { λ _ e. e ≡ OutOfMemory };

    fn from(_error: AllocError) -> WrapError {
        WrapError::OutOfMemory
    }
}
