//! The campaigns that the command `head` cancels and opens in its book: what the book says of them.

ghost use Rattle.std.specs.Prelude.{◌≡◌, All, IfErr, IfOk, IsErrOf, OnOk};
ghost use Rattle.fw_plan.specs.Openings.{AreParts, lacking};
ghost use Rattle.fw_plan.specs.Ranges.{serials_of};
ghost use Rattle.fw_host.specs.Openings.{
  CancelsRefused,
  IsCancelledBy,
  IsTakenBy,
  PartsRefused,
  RefusesCancel,
  RefusesOne,
  RefusesOneCancel,
  RefusesPart,
  campaign_in,
  listed_meters,
};

use crate::error::CancelsError;
use fw_book::{Book, BookError};
use fw_names::{CampaignId, MeterId};
use fw_plan::{Part, PlanError, SerialRange, missing_parts, serials_of};
use fw_rollout::Listed;
use std::alloc::{AllocError, Global};

/// What is opened.
#[derive(Clone, Copy)]
pub struct Opening<'a> {
    /// The serial number from which on campaigns are opened, at least 1.
    pub serial: u32,
    /// The release of the image, and 0 if it has none.
    pub release: u32,
    /// The path of the file whose bytes are the image.
    pub image: &'a str,
}

/// The meters of a list, in its order.
pub fn listed_meters(alloc: Global, list: &[Listed]) -> Result<Vec<MeterId>, AllocError>
    ensures { IfOk result (λ meters. meters.items ≡ listed_meters list.now) }
{
    list.iter().map(|at| at.meter).collect(alloc)
}

/// The campaigns that a book lacks for the meters of a list: those that have no row in a campaign of it from this serial number on that
/// offers this image with this release, in their order, under the next free serial numbers.
///
/// # Errors
///
/// `NoSerial` if the first serial number is 0, which is none, or too few are free from it on; and `OutOfMemory`.
pub fn parts_of(
    alloc: Global,
    book: &Book,
    serial: u32,
    release: u32,
    image: &[u8],
    list: &[Listed],
) -> Result<Vec<Part>, PlanError>
    ensures parts { IfOk result (λ parts. AreParts book.now serial (lacking book.now serial release image.now (listed_meters list.now)) parts.items) }
    ensures refused { IfErr result (PartsRefused book.now serial (lacking book.now serial release image.now (listed_meters list.now))) }
{
    let meters = listed_meters(alloc, list)?;
    missing_parts(alloc, book, serial, release, image, &meters)
}

/// The campaign of a part, at the head end of this book.
fn campaign_of(book: &Book, part: &Part) -> CampaignId
    ensures { result ≡ campaign_in book.now part.now.serial }
{
    match CampaignId::new(book.head(), part.serial) {
        Some(campaign) => campaign,
        None => unreachable!(),
    }
}

/// Checks that a book takes each campaign of an opening, as far as it is known before those before it are opened.
///
/// # Errors
///
/// The first refusal of one of these campaigns.
pub fn check_parts(book: &Book, parts: &[Part], image: &[u8]) -> Result<(), BookError>
    ensures taken { OnOk result (All (IsTakenBy book.now image.now) parts.now) }
    ensures refused { IfErr result (RefusesOne book.now image.now parts.now) }
{
    for part in parts {
        match check_part(book, part, image) {
            Ok(()) => {}
            Err(refused) => return Err(refused),
        }
    }
    Ok(())
}

/// Checks that a book takes this campaign.
fn check_part(book: &Book, part: &Part, image: &[u8]) -> Result<(), BookError>
    ensures taken { OnOk result (IsTakenBy book.now image.now part.now) }
    ensures refused { IfErr result (RefusesPart book.now image.now part.now) }
{
    book.check_opening(campaign_of(book, part), image, &part.meters)
}

/// The serial numbers of the campaigns that these name in a book, each once, which lets each of them be cancelled.
///
/// # Errors
///
/// `Refused` with the first refusal of one of these campaigns; and `OutOfMemory`.
pub fn cancels_of(
    alloc: Global,
    book: &Book,
    named: &[SerialRange],
) -> Result<Vec<u32>, CancelsError>
    ensures serials { IfOk result (λ serials. serials.items ≡ serials_of book.now named.now) }
    ensures admitted { IfOk result (λ serials. All (IsCancelledBy book.now) serials.items) }
    ensures refused { IfErr result (CancelsRefused book.now (serials_of book.now named.now)) }
{
    let serials = serials_of(alloc, book, named)?;
    match check_cancels(book, &serials) {
        Ok(()) => Ok(serials),
        Err(refusal) => Err(CancelsError::Refused(refusal)),
    }
}

/// Checks that a book lets each campaign of these serial numbers be cancelled.
///
/// # Errors
///
/// The first refusal of one of these campaigns.
fn check_cancels(book: &Book, serials: &[u32]) -> Result<(), BookError>
    ensures admitted { OnOk result (All (IsCancelledBy book.now) serials.now) }
    ensures refused { IfErr result (RefusesOneCancel book.now serials.now) }
{
    for serial in serials {
        match check_cancel(book, *serial) {
            Ok(()) => {}
            Err(refused) => return Err(refused),
        }
    }
    Ok(())
}

/// Checks that a book lets the campaign of this serial number be cancelled.
///
/// # Errors
///
/// The first refusal of the book, which has no campaign of number 0.
pub fn check_cancel(book: &Book, serial: u32) -> Result<(), BookError>
    ensures admitted { OnOk result (IsCancelledBy book.now serial) }
    ensures refused { IfErr result (RefusesCancel book.now serial) }
    ensures none { serial ≡ 0 → IsErrOf result BookError.NoSuchCampaign }
{
    let Some(campaign) = CampaignId::new(book.head(), serial) else {
        return Err(BookError::NoSuchCampaign);
    };
    book.check_cancel(campaign)
}
