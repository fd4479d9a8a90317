//! The records of which a book and what is known of it are made again.

ghost use Rattle.std.specs.Prelude.{◌≡◌, ◌⊎◌, ◌++◌, ◌∷◌, [], ◌<◌, ◌≤◌, ◌^◌, ℕ, List, length, IfOk, OnOk, IsTrue};
ghost use Rattle.std.specs.List.{AllByRecursion};
ghost use Rattle.fw_names.specs.Name.{IsOpened};
ghost use Rattle.fw_book.specs.Contents.{Offered};
ghost use Rattle.fw_book.specs.Rows.{meters_of};
ghost use Rattle.fw_ledger.specs.Entry.{earlier, IsSource, HasSpelling};
ghost use Rattle.fw_ledger.specs.Replay.{IsImage, IsBookOf, IsMade, records_of};
ghost use Rattle.fw_ledger.specs.View.{source_of, entry_of};
ghost use Rattle.fw_ledger.specs.Noted.{AreNotesOf, IsKnownOf};
ghost use Rattle.fw_ledger.specs.Remade.{
  is_cancelled,
  state_number,
  numbers_of,
  rows_entries,
  has_cancelled,
  ending_entries,
  campaign_entries,
  opening_notes,
  row_notes,
  rows_notes,
  campaign_notes,
  Puts,
  HaveSerials,
};

use crate::record::{Image, Note, Record, are_endings};
use crate::replay::ends_so;
use fw_book::{Book, End, Notes, Offer, Row, RowState};
use fw_names::{CampaignId, HeadId, MeterId};
use std::alloc::{AllocError, Global};

/// Records of a book that some records made, and of what is known of it: they make the same book, and the same is known from them. For each
/// campaign, in opening order, there is its opening, the endings of its rows, where one is done or failed, and its cancelling, where one is
/// cancelled; and then the notes of its opening and of its rows' ends that are known. An image that several campaigns offer stands in the
/// first of their openings alone. What isn't of the book is left out.
///
/// # Errors
///
/// `AllocError` if memory was refused.
pub fn write_records(alloc: Global, book: &Book, notes: &Notes) -> Result<Vec<Vec<u8>>, AllocError>
    ensures made { IsMade book.now → IfOk result (λ records. IsBookOf book.now.head (records_of records.items) book.now) }
    ensures noted { IsKnownOf book.now notes.now → IfOk result (λ records. AreNotesOf (records_of records.items) notes.now) }
    ensures short { IfOk result (λ records. AllByRecursion (λ (bytes : List ℕ). length bytes < 2 ^ 32) (records_of records.items)) }
{
    fw_book::laws::admitted_opens();
    fw_book::laws::notes_say();
    let head = book.head();
    let mut records = Vec::new(alloc);
    // The campaigns of which the records have the image whole.
    let mut shown = Vec::new(alloc);
    for (serial, offer) in book.rows() {
        let own = campaign(head, *serial);
        let image = source(book, &shown, offer.image());
        put_campaign(alloc, &mut records, own, offer, image)?;
        put_notes(alloc, &mut records, notes, own, offer.rows())?;
        note(&mut shown, *serial, image)?;
    }
    Ok(records)
}

/// The campaign of a head end with this serial number.
fn campaign(head: HeadId, serial: u32) -> CampaignId
    requires { 1 ≤ serial }
    ensures value { result ≡ record { head = head; serial = serial } }
    ensures opened { IsOpened result }
{
    match CampaignId::new(head, serial) {
        Some(campaign) => campaign,
        None => unreachable!(),
    }
}

/// Notes a campaign whose opening has the image whole.
fn note(shown: &mut Vec<u32>, serial: u32, image: Image<'_>) -> Result<(), AllocError>
    ensures { OnOk result ((shown.new.items ≡ shown.old.items) ⊎ (shown.new.items ≡ shown.old.items ++ serial ∷ [])) }
{
    match image {
        Image::Whole(_) => Ok(shown.push(serial)?),
        Image::Earlier(_) => Ok(()),
    }
}

/// Where the record of an opening has its image from: one of these earlier campaigns, which offers the same, or the record itself.
fn source<'a>(book: &Book, shown: &[u32], image: &'a [u8]) -> Image<'a>
    ensures is_image { (front rest : List (ℕ × Offered)) → book.now.campaigns ≡ front ++ rest → HaveSerials front shown.now
        → IsImage (record { head = book.now.head; campaigns = front }) (source_of result) image.now }
    ensures fits { length image.now < 2 ^ 32 → IsSource (source_of result) }
{
    let mut rest = shown;
    while let Some((serial, others)) = rest.split_first() {
        if offers(book, *serial, image) {
            return Image::Earlier(*serial);
        }
        rest = others;
    }
    Image::Whole(image)
}

/// Whether the campaign with this serial number offers this image.
fn offers(book: &Book, serial: u32, image: &[u8]) -> bool
    ensures { IsTrue result → IsImage book.now (earlier serial) image.now }
{
    let Some(campaign) = CampaignId::new(book.head(), serial) else {
        return false;
    };
    match book.offer(campaign) {
        Some(offer) => offer.image() == image,
        None => false,
    }
}

/// Puts the records of a campaign after those that are there.
fn put_campaign(
    alloc: Global,
    records: &mut Vec<Vec<u8>>,
    campaign: CampaignId,
    offer: &Offer,
    image: Image<'_>,
) -> Result<(), AllocError>
    requires opened { IsOpened campaign }
    requires source { IsSource (source_of image) }
    ensures { OnOk result (Puts records.old.items records.new.items (campaign_entries campaign offer.now (source_of image.entry))) }
{
    let opening = Record::Opening {
        campaign,
        release: offer.release(),
        image,
        meters: meters_of(alloc, offer.rows())?,
    };
    put(alloc, records, &opening)?;
    put_endings(alloc, records, campaign, offer.rows())?;
    put_ending(alloc, records, campaign, offer.rows())?;
    Ok(())
}

/// Puts what is known of a campaign after what is there.
fn put_notes(
    alloc: Global,
    records: &mut Vec<Vec<u8>>,
    notes: &Notes,
    campaign: CampaignId,
    rows: &[Row],
) -> Result<(), AllocError>
    requires opened { IsOpened campaign }
    ensures { OnOk result (Puts records.old.items records.new.items (campaign_notes notes.now campaign rows.now)) }
{
    put_opening_note(alloc, records, campaign, notes.opened_at(campaign))?;
    put_rows_notes(alloc, records, notes, campaign, rows)?;
    Ok(())
}

/// Puts the note of an opening after what is there, if its time is known.
fn put_opening_note(
    alloc: Global,
    records: &mut Vec<Vec<u8>>,
    campaign: CampaignId,
    at: Option<u64>,
) -> Result<(), AllocError>
    requires opened { IsOpened campaign }
    ensures { OnOk result (Puts records.old.items records.new.items (opening_notes campaign at)) }
{
    let Some(at) = at else {
        return Ok(());
    };
    let note = Note::Opened(at);
    put(alloc, records, &Record::Note { campaign, note })
}

/// Puts the notes of rows after what is there.
fn put_rows_notes(
    alloc: Global,
    records: &mut Vec<Vec<u8>>,
    notes: &Notes,
    campaign: CampaignId,
    rows: &[Row],
) -> Result<(), AllocError>
    requires opened { IsOpened campaign }
    ensures { OnOk result (Puts records.old.items records.new.items (rows_notes notes.now campaign rows.now)) }
{
    let mut rest = rows;
    while let Some((row, others)) = rest.split_first() {
        put_row_note(
            alloc,
            records,
            campaign,
            row,
            notes.end_of(campaign, row.meter),
        )?;
        rest = others;
    }
    Ok(())
}

/// Puts the note of a row's end after what is there, if one is known and the row ended so.
fn put_row_note(
    alloc: Global,
    records: &mut Vec<Vec<u8>>,
    campaign: CampaignId,
    row: &Row,
    end: Option<End>,
) -> Result<(), AllocError>
    requires opened { IsOpened campaign }
    ensures { OnOk result (Puts records.old.items records.new.items (row_notes campaign row.now end)) }
{
    let Some(end) = end else {
        return Ok(());
    };
    if !ends_so(row.state, &end) {
        return Ok(());
    }
    let note = Note::Ended(row.meter, end);
    put(alloc, records, &Record::Note { campaign, note })
}

/// Puts the cancelling of a campaign after what is there, where a row was cancelled.
fn put_ending(
    alloc: Global,
    records: &mut Vec<Vec<u8>>,
    campaign: CampaignId,
    rows: &[Row],
) -> Result<(), AllocError>
    requires opened { IsOpened campaign }
    ensures { OnOk result (Puts records.old.items records.new.items (ending_entries campaign rows.now)) }
{
    if !has_cancelled(rows) {
        return Ok(());
    }
    put(alloc, records, &Record::Cancelling { campaign })
}

/// The meters of these rows, in their order.
fn meters_of(alloc: Global, rows: &[Row]) -> Result<Vec<MeterId>, AllocError>
    ensures { IfOk result (λ meters. meters.items ≡ meters_of rows.now) }
{
    let mut meters = Vec::new(alloc);
    let mut rest = rows;
    while let Some((row, others)) = rest.split_first() {
        meters.push(row.meter)?;
        rest = others;
    }
    Ok(meters)
}

/// Whether a row was cancelled.
fn has_cancelled(rows: &[Row]) -> bool
    ensures { result ≡ has_cancelled rows.now }
{
    rows.iter().any(|row| is_cancelled(row.state))
}

fn is_cancelled(state: RowState) -> bool
    ensures { result ≡ is_cancelled state }
{
    match state {
        RowState::Live | RowState::Done | RowState::Failed => false,
        RowState::Cancelled => true,
    }
}

/// Puts the endings of rows after what is there, where one is done or failed.
fn put_endings(
    alloc: Global,
    records: &mut Vec<Vec<u8>>,
    campaign: CampaignId,
    rows: &[Row],
) -> Result<(), AllocError>
    requires opened { IsOpened campaign }
    ensures { OnOk result (Puts records.old.items records.new.items (rows_entries campaign rows.now)) }
{
    let numbers = numbers_of(alloc, rows)?;
    if !are_endings(&numbers) {
        return Ok(());
    }
    put(
        alloc,
        records,
        &Record::Endings {
            campaign,
            numbers: &numbers,
        },
    )
}

/// The numbers of the endings of rows.
fn numbers_of(alloc: Global, rows: &[Row]) -> Result<Vec<u8>, AllocError>
    ensures { IfOk result (λ numbers. numbers.items ≡ numbers_of rows.now) }
{
    let mut numbers = Vec::new(alloc);
    let mut rest = rows;
    while let Some((row, others)) = rest.split_first() {
        numbers.push(state_number(row.state))?;
        rest = others;
    }
    Ok(numbers)
}

fn state_number(state: RowState) -> u8
    ensures { result ≡ state_number state }
{
    match state {
        RowState::Live | RowState::Cancelled => 0,
        RowState::Done => 1,
        RowState::Failed => 2,
    }
}

/// Puts a record after those that are there.
fn put(alloc: Global, records: &mut Vec<Vec<u8>>, told: &Record<'_>) -> Result<(), AllocError>
    requires { HasSpelling (entry_of told.now) }
    ensures { OnOk result (Puts records.old.items records.new.items (entry_of told.now ∷ [])) }
{
    records.push(told.spelling(alloc)?)?;
    Ok(())
}
