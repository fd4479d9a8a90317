//! Why a log is none of a head end with this book.

ghost use Rattle.std.specs.Prelude.{◌≡◌};
ghost use Rattle.fw_head_audit.specs.declared.error.HeadAuditError.TheVariants.{OutOfMemory};

use fw_names::{CampaignId, MeterId};
use std::alloc::AllocError;
use std::fmt;
use thiserror::Error;

/// A row that is done and wasn't claimed.
#[derive(Clone, Copy, Debug)]
pub struct UnclaimedRow {
    pub campaign: CampaignId,
    pub meter: MeterId,
}

/// What an audit found wrong, or why it found nothing out.
#[derive(Clone, Copy, Debug, Error)]
pub enum HeadAuditError {
    /// The datagram of this item, from 0 on, isn't offered to a meter at its address.
    NotOffered { at: usize },
    /// All that was sent is offered, and this row of the book is done, and no datagram claims so that came from its meter.
    NotClaimed(UnclaimedRow),
    /// Memory was refused, which is wanted only if there is an item or a meter. Nothing is said of the log.
    OutOfMemory,
}

impl fmt::Display for HeadAuditError {
    fn fmt<W: fmt::Write>(&self, f: &mut fmt::Formatter<W>) -> fmt::Result {
        fmt::Debug::fmt(self, f)
    }
}

impl From<AllocError> for HeadAuditError {
    ghost from_gives = { λ _ e. e ≡ OutOfMemory };

    fn from(_error: AllocError) -> HeadAuditError {
        HeadAuditError::OutOfMemory
    }
}
