//! A row of a campaign, and the word for how far it is.

ghost use Rattle.std.specs.Prelude.{◌≡◌};
ghost use Rattle.fw_rows.specs.States.{state_word};

use fw_book::RowState;
use fw_names::CampaignId;

/// A row of a campaign.
#[derive(Clone, Copy)]
pub struct RowEntry {
    /// The head end.
    pub head: u32,
    /// The serial number of the campaign.
    pub serial: u32,
    /// The meter.
    pub meter: u32,
    /// How far it is.
    pub state: RowState,
}

/// The word for the state of a row.
pub fn state_word(state: RowState) -> &'static str
    ensures { result.now ≡ state_word state }
{
    match state {
        RowState::Live => "live",
        RowState::Done => "done",
        RowState::Failed => "failed",
        RowState::Cancelled => "cancelled",
    }
}

/// The number of the head end whose campaign this is, and 0 for the factory's.
pub fn head_number(campaign: CampaignId) -> u32
    ensures { result ≡ campaign.head }
{
    match campaign.head() {
        Some(head) => head.number(),
        None => 0,
    }
}
