//! Why a call was refused.

ghost use Rattle.std.specs.Prelude.{◌≡◌};
ghost use Rattle.fw_image.specs.declared.error.Refusal.TheVariants as refused;
ghost use Rattle.fw_image.specs.declared.error.OpenError.TheVariants as not_opened;

use fw_store::StoreFault;
use std::fmt;
use thiserror::Error;

/// Why an operation was refused. Of several causes the first one here is returned.
#[derive(Clone, Copy, Debug, Error)]
pub enum Refusal {
    /// Image transfer is disabled.
    Disabled,
    /// The name is a factory's, or its release below that of the image that runs, or the size is 0, above the capacity, or of more
    /// blocks than the meter has marks for: 4,096 or 16,384.
    BadInitiate,
    /// The image has no block of this number, or that block has another length.
    BadBlock,
    /// A block is missing.
    Missing,
    /// A call of the store failed.
    Fault,
    /// The digest of the stored bytes is not that of the name.
    Differs,
}

impl fmt::Display for Refusal {
    fn fmt<W: fmt::Write>(&self, f: &mut fmt::Formatter<W>) -> fmt::Result {
        fmt::Debug::fmt(self, f)
    }
}

impl From<StoreFault> for Refusal {
    ghost from_gives = { λ _ r. r ≡ refused.Fault };

    fn from(_fault: StoreFault) -> Refusal {
        Refusal::Fault
    }
}

/// Why a store was not opened. Of several causes the first one here is returned.
#[derive(Clone, Copy, Debug, Error)]
pub enum OpenError {
    /// A call of the store failed.
    Fault,
    /// The header is none that the store can have.
    BadHeader,
    /// The image that runs, or the one that was verified, has not the digest of its name.
    BadImage,
}

impl fmt::Display for OpenError {
    fn fmt<W: fmt::Write>(&self, f: &mut fmt::Formatter<W>) -> fmt::Result {
        fmt::Debug::fmt(self, f)
    }
}

impl From<StoreFault> for OpenError {
    ghost from_gives = { λ _ e. e ≡ not_opened.Fault };

    fn from(_fault: StoreFault) -> OpenError {
        OpenError::Fault
    }
}
