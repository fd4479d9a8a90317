//! Which of some meters is live in a campaign of a book, and in which.

ghost use Rattle.std.specs.Prelude.{◌≡◌, find, IfSome, IsTrue, Some};
ghost use Rattle.std.specs.Option.{option_copied};
ghost use Rattle.fw_book.specs.Contents.{is_busy, state_in};
ghost use Rattle.fw_host.specs.Busy.{IsFirstBusy};
ghost use Rattle.fw_host.specs.Openings.{campaign_in};

use fw_book::{Book, RowState};
use fw_names::{CampaignId, MeterId};

/// A meter that is live in a campaign.
#[derive(Clone, Copy)]
pub struct BusyMeter {
    /// The meter.
    pub meter: MeterId,
    /// The serial number of the campaign.
    pub serial: u32,
}

/// The first of these meters that is live in a campaign of the book, and that campaign.
pub fn busy_meter(book: &Book, meters: &[MeterId]) -> Option<BusyMeter>
    ensures { IfSome result (IsFirstBusy book.now meters.now) }
{
    let meter = *first_busy(book, meters)?;
    let serial = live_serial(book, meter)?;
    Some(BusyMeter { meter, serial })
}

/// The first of these meters that is live in a campaign of the book.
fn first_busy<'a>(book: &Book, meters: &'a [MeterId]) -> Option<&'a MeterId>
    ensures { option_copied result ≡ find (λ meter. is_busy book.now.campaigns meter) meters.now }
{
    meters.iter().find(|meter| book.is_busy(**meter))
}

/// A campaign of the book in which a meter is live.
fn live_serial(book: &Book, meter: MeterId) -> Option<u32>
    ensures { IfSome result (λ serial. state_in book.now (campaign_in book.now serial) meter ≡ Some RowState.Live) }
{
    for (serial, _offer) in book.rows() {
        if is_live_in(book, *serial, meter) {
            return Some(*serial);
        }
    }
    None
}

/// Whether a meter is live in the campaign of this serial number.
fn is_live_in(book: &Book, serial: u32, meter: MeterId) -> bool
    ensures { IsTrue result → state_in book.now (campaign_in book.now serial) meter ≡ Some RowState.Live }
{
    let Some(campaign) = CampaignId::new(book.head(), serial) else {
        return false;
    };
    match book.state(campaign, meter) {
        Some(RowState::Live) => true,
        _ => false,
    }
}
