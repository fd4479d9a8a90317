//! What a datagram changes.

ghost use Rattle.std.specs.Prelude.{◌≡◌};
ghost use Rattle.fw_head.specs.Row.{reason_of};

use fw_book::Reason;
use fw_client::ActiveClaim;
use fw_names::{CampaignId, MeterId};

/// What a datagram changes of a row.
#[derive(Clone, Copy, Debug)]
pub enum RowNews {
    /// Nothing: it answers no ask.
    Nothing,
    /// The row took an answer and is live.
    Moved,
    /// The row is done, by this claim.
    Done(ActiveClaim),
    /// The row is given up, for this reason.
    Failed(Reason),
}

impl RowNews {
    /// Why the row is given up, if it is.
    pub fn reason(self) -> Option<Reason>
        ensures { result ≡ reason_of self }
    {
        match self {
            RowNews::Failed(reason) => Some(reason),
            RowNews::Nothing | RowNews::Moved | RowNews::Done(_) => None,
        }
    }
}

/// What a datagram changes at a head end.
#[derive(Clone, Copy, Debug)]
pub enum News {
    /// Nothing: the sender has no live row, or the datagram answers no ask of it.
    Nothing,
    /// The sender's row took an answer and is live.
    Moved,
    /// The meter is done in the campaign: it claimed to run the campaign's image.
    Done(CampaignId, MeterId),
    /// The meter's row in the campaign is given up.
    Failed(CampaignId, MeterId),
}

/// What a datagram changes at a head end, and why it gives up a row.
#[derive(Clone, Copy, Debug)]
pub struct Told {
    /// What it changes.
    pub news: News,
    /// Why the sender's row is given up, if it is.
    pub reason: Option<Reason>,
}
