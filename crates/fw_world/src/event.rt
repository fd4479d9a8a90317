//! What happens in a world.

ghost use Rattle.std.specs.Prelude.{◌≡◌};
ghost use Rattle.fw_world.specs.View.{event_of};

use fw_names::{CampaignId, HeadId, MeterId};
use std::alloc::AllocError;

/// An event. Datagrams are named by their places in the list of all that were sent, from 0 on.
#[derive(Drop)]
pub enum Event {
    /// A head end opens a campaign of its own: it offers the image of this release, 0 if it has none, to the meters.
    OpenCampaign {
        campaign: CampaignId,
        release: u32,
        image: Vec<u8>,
        meters: Vec<MeterId>,
    },
    /// A head end cancels a campaign of its own.
    CancelCampaign(CampaignId),
    /// A head end sends to a meter what it has for it now.
    Tick(HeadId, MeterId),
    /// A datagram comes to its addressee.
    Deliver(usize),
    /// A datagram comes to its meter, which stops after `calls` calls of its store and starts again. Its reply is lost. Where it
    /// stops in writing a block, the second half of the block is left with this byte.
    Stop {
        datagram: usize,
        calls: u64,
        torn: u8,
    },
    /// A meter starts again.
    RestartMeter(MeterId),
    /// A meter starts again and stops in it after `calls` calls of its store; then it is opened with the header that is there.
    StopRestart {
        meter: MeterId,
        calls: u64,
        torn: u8,
    },
    /// A head end starts again.
    RestartHead(HeadId),
    /// A meter goes on with what it verifies.
    Turn(MeterId),
}

impl Clone for Event {
    ghost is_clone = { λ event copy. event_of copy ≡ event_of event };

    fn clone(&self) -> Result<Event, AllocError> {
        Ok(match self {
            Event::OpenCampaign {
                campaign,
                release,
                image,
                meters,
            } => Event::OpenCampaign {
                campaign: *campaign,
                release: *release,
                image: Vec::from_slice(*image.allocator(), image)?,
                meters: Vec::from_slice(*meters.allocator(), meters)?,
            },
            Event::CancelCampaign(campaign) => Event::CancelCampaign(*campaign),
            Event::Tick(head, meter) => Event::Tick(*head, *meter),
            Event::Deliver(datagram) => Event::Deliver(*datagram),
            Event::Stop {
                datagram,
                calls,
                torn,
            } => Event::Stop {
                datagram: *datagram,
                calls: *calls,
                torn: *torn,
            },
            Event::RestartMeter(meter) => Event::RestartMeter(*meter),
            Event::StopRestart { meter, calls, torn } => Event::StopRestart {
                meter: *meter,
                calls: *calls,
                torn: *torn,
            },
            Event::RestartHead(head) => Event::RestartHead(*head),
            Event::Turn(meter) => Event::Turn(*meter),
        })
    }
}
