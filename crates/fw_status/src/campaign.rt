//! The campaigns of a book: what each offers, when it was opened, and how many of its rows are in which state.

ghost use Rattle.std.specs.Prelude.{◌≡◌, ◌≤◌, ◌++◌, OnOk};
ghost use Rattle.fw_names.specs.Name.{IsOpened};
ghost use Rattle.fw_status.specs.Campaigns.{campaign_status, campaigns_of, count_in, is_in};

use fw_book::{Book, Notes, Offer, Row, RowState};
use fw_names::{CampaignId, HeadId, ImageName};
use std::alloc::AllocError;

/// A campaign of a book, and how far it is.
#[derive(Clone, Copy)]
pub struct CampaignStatus {
    /// The campaign, and the release and the SHA-256 of the image that it offers.
    pub name: ImageName,
    /// How many bytes the image has.
    pub size: usize,
    /// When the campaign was opened, in seconds since 1970 began (UTC), if that is known.
    pub opened: Option<u64>,
    /// How many of its rows are live.
    pub live: usize,
    /// How many are done.
    pub done: usize,
    /// How many failed.
    pub failed: usize,
    /// How many were cancelled.
    pub cancelled: usize,
}

/// Adds the campaigns of a book in opening order, with what its notes know of them. No byte of an image is read.
pub fn push_campaigns(
    campaigns: &mut Vec<CampaignStatus>,
    book: &Book,
    notes: &Notes,
) -> Result<(), AllocError>
    ensures { OnOk result (campaigns.new.items ≡ campaigns.old.items ++ campaigns_of notes.now book.now) }
{
    let head = book.head();
    for (serial, offer) in book.rows() {
        campaigns.push(campaign_status(notes, campaign(head, *serial), offer))?;
    }
    Ok(())
}

/// The campaign of a head end with this serial number.
fn campaign(head: HeadId, serial: u32) -> CampaignId
    requires { 1 ≤ serial }
    ensures value { result ≡ record { head = head; serial = serial } }
    ensures opened { IsOpened result }
{
    match CampaignId::new(head, serial) {
        Some(campaign) => campaign,
        None => unreachable!(),
    }
}

/// How far a campaign is, which a head end opened.
fn campaign_status(notes: &Notes, campaign: CampaignId, offer: &Offer) -> CampaignStatus
    requires { IsOpened campaign }
    ensures { result ≡ campaign_status notes.now campaign offer.now }
{
    let rows = offer.rows();
    CampaignStatus {
        name: offer.name(campaign),
        size: offer.image().len(),
        opened: notes.opened_at(campaign),
        live: count_in(rows, RowState::Live),
        done: count_in(rows, RowState::Done),
        failed: count_in(rows, RowState::Failed),
        cancelled: count_in(rows, RowState::Cancelled),
    }
}

/// How many rows of a campaign are in this state.
fn count_in(rows: &[Row], state: RowState) -> usize
    ensures { result ≡ count_in state rows.now }
{
    rows.iter().filter(|row| is_in(state, row.state)).count()
}

/// Whether a row in the second state is in the first.
pub(crate) fn is_in(wanted: RowState, state: RowState) -> bool
    ensures { result ≡ is_in wanted state }
{
    wanted == state
}
