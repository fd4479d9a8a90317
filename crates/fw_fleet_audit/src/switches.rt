//! What a meter switched to, beside what books offer.

ghost use Rattle.std.specs.Prelude.{◌≡◌, IfErr, IfNone, IfSome, List, OnOk, OnSome};
ghost use Rattle.std.specs.Option.{option_copied};
ghost use Rattle.fw_names.specs.Name.{IsOpened};
ghost use Rattle.fw_image.specs.Meter.{Image};
ghost use Rattle.fw_fleet_audit.specs.Switches.{AreOffered, Breaks, IsOffered, IsSwitchDeparture, offer_in};

use crate::error::{SwitchDeparture, SwitchRule};
use fw_audit::Switched;
use fw_book::{Book, Offer};
use fw_names::CampaignId;

/// Whether each image that a meter switched to is, byte by byte and under just this name, what a book offers in the campaign of its name, and
/// no release is below one before it. Of books of one head end the first that has the campaign counts. No memory is taken.
///
/// # Errors
///
/// The first switch of which that isn't so.
pub fn audit_switches(books: &[Book], images: &[Switched]) -> Result<(), SwitchDeparture>
    ensures offered { OnOk result (AreOffered books.now images.now) }
    ensures departs { IfErr result (IsSwitchDeparture books.now images.now) }
{
    let mut last = 0;
    for at in 0..images.len() {
        let image = &images[at];
        if let Some(rule) = broken(books, image) {
            return Err(SwitchDeparture { at, rule });
        }
        let release = image.name().release;
        if release < last {
            return Err(SwitchDeparture {
                at,
                rule: SwitchRule::ReleaseFell,
            });
        }
        last = release;
    }
    Ok(())
}

/// Why an image isn't what a book offers, if it isn't.
fn broken(books: &[Book], image: &Switched) -> Option<SwitchRule>
    ensures none { IfNone result (IsOffered books.now image.now) }
    ensures some { IfSome result (λ rule. (before : List Image) → Breaks books.now before image.now rule) }
{
    let name = image.name();
    let Some(offer) = offer_in(books, name.campaign) else {
        return Some(SwitchRule::NotOffered);
    };
    if offer.image() != image.bytes() {
        return Some(SwitchRule::OtherBytes);
    }
    if offer.name(name.campaign) != name {
        return Some(SwitchRule::OtherName);
    }
    None
}

/// What a campaign offers, in the first of these books that has it.
fn offer_in(books: &[Book], campaign: CampaignId) -> Option<&Offer>
    ensures offer { option_copied result ≡ offer_in books.now campaign }
    ensures opened { OnSome result (IsOpened campaign) }
{
    let mut rest = books;
    while let Some((book, others)) = rest.split_first() {
        if let Some(offer) = book.offer(campaign) {
            return Some(offer);
        }
        rest = others;
    }
    None
}
