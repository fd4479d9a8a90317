//! What a book offers to a meter.

ghost use Rattle.std.specs.Prelude.{◌≡◌, ◌<◌, ◌≤◌, ◌^◌, false, IfOk, IsTrue, MatchBool, length};
ghost use Rattle.fw_names.specs.Name.{IsOpened};
ghost use Rattle.fw_fleet_audit.specs.Rows.{campaign_of};
ghost use Rattle.fw_head_audit.specs.Heads.{IsOfferedAt};
ghost use Rattle.fw_head_audit.specs.Private.{IsAskedAt, IsAskedTo, Lets, May, kind_of};

use crate::asking::{Asking, asking_of};
use crate::block::is_block_of;
use crate::meter::AskedMeter;
use crate::reading::request_in;
use fw_book::{Book, Offer};
use fw_names::{CampaignId, HeadId, ImageName, MeterId};
use std::alloc::{AllocError, Global};
use std::net::SocketAddr;

/// Whether a datagram asks of a meter at this address what the book offers to it.
///
/// # Errors
///
/// `AllocError` if memory was refused.
pub(crate) fn is_offered(
    alloc: Global,
    book: &Book,
    meters: &[AskedMeter],
    to: SocketAddr,
    datagram: &[u8],
) -> Result<bool, AllocError>
    ensures { IfOk result (λ is. MatchBool is (IsOfferedAt book.now meters.now to datagram.now) (¬ IsOfferedAt book.now meters.now to datagram.now)) }
{
    fw_wrapper::laws::one_frame();
    fw_apdu::laws::one_request();
    match request_in(alloc, datagram) {
        Ok(Some(request)) => match asking_of(&request) {
            Some(asking) => Ok(is_asked_at(book, meters, to, &asking)),
            None => Ok(false),
        },
        Ok(None) => Ok(false),
        Err(error) => Err(error),
    }
}

/// Whether the book offers this to a meter at this address.
fn is_asked_at(book: &Book, meters: &[AskedMeter], to: SocketAddr, asking: &Asking<'_>) -> bool
    ensures some { IsTrue result → IsAskedAt book.now meters.now to (kind_of asking.now) }
    ensures none { result ≡ false → ¬ IsAskedAt book.now meters.now to (kind_of asking.now) }
{
    for at in 0..meters.len() {
        let asked = meters[at];
        if asked.at == to && is_asked_to(book, asked.meter, asking) {
            return true;
        }
    }
    false
}

/// Whether the book offers it to this meter.
fn is_asked_to(book: &Book, meter: MeterId, asking: &Asking<'_>) -> bool
    ensures some { IsTrue result → IsAskedTo book.now meter (kind_of asking.now) }
    ensures none { result ≡ false → ¬ IsAskedTo book.now meter (kind_of asking.now) }
{
    let head = book.head();
    for (serial, offer) in book.rows() {
        let campaign = campaign_of(head, *serial);
        if lets(offer, campaign, meter, asking) {
            return true;
        }
    }
    false
}

/// The campaign of a head end with this serial number.
fn campaign_of(head: HeadId, serial: u32) -> CampaignId
    requires { 1 ≤ serial }
    ensures value { result ≡ campaign_of head serial }
    ensures opened { IsOpened result }
{
    match CampaignId::new(head, serial) {
        Some(campaign) => campaign,
        None => unreachable!(),
    }
}

/// Whether a campaign has a row of this meter, and offers it this.
fn lets(offer: &Offer, campaign: CampaignId, meter: MeterId, asking: &Asking<'_>) -> bool
    requires opened { IsOpened campaign }
    requires fits { length offer.now.image < 2 ^ 32 }
    ensures some { IsTrue result → Lets offer.now campaign meter (kind_of asking.now) }
    ensures none { result ≡ false → ¬ Lets offer.now campaign meter (kind_of asking.now) }
{
    offer.state(meter).is_some() && may_ask(offer.name(campaign), offer.image(), asking)
}

/// Whether a head end may ask this of a meter of an image, which has this name.
fn may_ask(name: ImageName, image: &[u8], asking: &Asking<'_>) -> bool
    requires { length image.now < 2 ^ 32 }
    ensures some { IsTrue result → May name image.now (kind_of asking.now) }
    ensures none { result ≡ false → ¬ May name image.now (kind_of asking.now) }
{
    match *asking {
        Asking::Free => true,
        Asking::Initiate { identifier, size } => {
            identifier == name.to_bytes().as_slice() && size as usize == image.len()
        }
        Asking::Block { number, value } => is_block_of(image, number, value),
    }
}
