//! Rows that ended.

use fw_book::End;
use fw_ledger::Ending;
use fw_names::{CampaignId, MeterId};

/// A row that ended.
#[derive(Clone, Copy, Debug)]
pub struct Ended {
    /// The campaign.
    pub campaign: CampaignId,
    /// The meter.
    pub meter: MeterId,
    /// How it ended.
    pub ending: Ending,
    /// When that was, and why the row was given up, if it was.
    pub end: End,
}
