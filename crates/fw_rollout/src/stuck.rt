//! Rows that got nowhere, as they are told.

ghost use Rattle.std.specs.Prelude.{◌≡◌, Some};
ghost use Rattle.fw_rollout.specs.Plans.{stuck_at};

use fw_head::{HeadCore, Phase};
use fw_names::{CampaignId, MeterId};

/// A row that got nowhere in a lap, and rests.
#[derive(Clone, Copy)]
pub struct Stuck {
    /// The campaign.
    pub campaign: CampaignId,
    /// The meter.
    pub meter: MeterId,
    /// From which phase the row came to ask again whether the meter has all blocks. By the table of phases this says what the meter answered:
    /// from `Poll`, that verify failed for now, and the status was transfer_initiated then; from `Gaps`, that it lacks a block by attribute 4
    /// and none by attribute 3; and from `Blocks` it took blocks that it had taken before.
    pub from: Phase,
}

impl Stuck {
    /// The live row of a meter, if the meter has one, that came from this phase.
    pub(crate) fn of(head: &HeadCore, meter: MeterId, from: Phase) -> Option<Stuck>
        ensures { result ≡ stuck_at head.now meter (Some from) }
    {
        match head.row(meter) {
            Some(row) => Some(Stuck {
                campaign: row.name().campaign,
                meter,
                from,
            }),
            None => None,
        }
    }
}
