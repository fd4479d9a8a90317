//! The book of a list of records, and what is known from their notes.

ghost use Rattle.std.specs.Prelude.{
  ◌≡◌,
  ◌≢◌,
  ◌⊎◌,
  ◌≤◌,
  ℕ,
  List,
  length,
  slice_get,
  Some,
  None,
  IfOk,
  IfErr,
  OnOk,
  OnErr,
  IsErrOf,
  MatchBool,
  MatchResult,
};
ghost use Rattle.std.specs.Option.{option_map, option_and_then};
ghost use Rattle.fw_book.specs.declared.row.Row.{Row};
ghost use Rattle.fw_book.specs.Contents.{Offered, Contents, offered_in, image_in};
ghost use Rattle.fw_book.specs.Changes.{mark_refusal};
ghost use Rattle.fw_book.specs.declared.notes.End.{End};
ghost use Rattle.fw_ledger.specs.Entry.{Entry, IsOpening, IsNote, Spells, BeginsOpening, SpellsNote};
ghost use Rattle.fw_ledger.specs.Replay.{
  MakesOpened,
  MakesMarked,
  MakesNumbered,
  MakesEnded,
  ends_so,
  HasEnd,
  IsNoteOf,
  Makes,
  Adds,
  AddsNothing,
  IsBookOf,
  FailsAt,
  TakesMemory,
  records_of,
};
ghost use Rattle.fw_ledger.specs.Noted.{known_with, AreNotesOf};
ghost use Rattle.fw_ledger.specs.View.{source_of, entry_of};

use crate::error::{RecordError, ReplayError};
use crate::reading::{ending_of, read_record};
use crate::record::{Ending, Image, Note, Record};
use fw_book::{Book, BookError, End, Notes, RestoredBook, RowState};
use fw_names::{CampaignId, HeadId, MeterId};
use std::alloc::{AllocError, Global};

/// The image that a campaign of the book offers.
fn earlier_image(alloc: Global, book: &Book, serial: u32) -> Result<Vec<u8>, BookError>
    ensures found { IfOk result (λ bytes. (1 ≤ serial)
        × (image_in book.now (record { head = book.now.head; serial = serial }) ≡ Some bytes.items)) }
    ensures none { IsErrOf result BookError.NoSuchCampaign → 1 ≤ serial
        → image_in book.now (record { head = book.now.head; serial = serial }) ≡ None }
    ensures refusals { IfErr result (λ e. e ≢ BookError.OutOfMemory → e ≡ BookError.NoSuchCampaign) }
{
    let campaign = CampaignId::new(book.head(), serial).ok_or(BookError::NoSuchCampaign)?;
    let offer = book.offer(campaign).ok_or(BookError::NoSuchCampaign)?;
    Ok(offer.image().to_vec(alloc)?)
}

/// Opens a campaign again.
fn reopen(
    alloc: Global,
    book: &mut RestoredBook,
    campaign: CampaignId,
    release: u32,
    image: Image<'_>,
    meters: &[MeterId],
) -> Result<(), BookError>
    ensures made { OnOk result (MakesOpened book.old campaign release (source_of image.entry) meters.now book.new) }
    ensures refused { IfErr result (λ e. e ≢ BookError.OutOfMemory
        → (next : Contents) → ¬ MakesOpened book.old campaign release (source_of image.entry) meters.now next) }
    ensures kept { OnErr result (book.new ≡ book.old) }
{
    match image {
        Image::Whole(bytes) => book.open_campaign(alloc, campaign, release, bytes, meters),
        Image::Earlier(serial) => {
            let bytes = earlier_image(alloc, book.book(), serial)?;
            book.open_campaign(alloc, campaign, release, &bytes, meters)
        }
    }
}

/// Marks a meter's row again.
fn remark(
    book: &mut RestoredBook,
    campaign: CampaignId,
    meter: MeterId,
    ending: Ending,
) -> Result<(), BookError>
    ensures made { OnOk result (MakesMarked book.old campaign meter ending book.new) }
    ensures refused { IfErr result (λ e. mark_refusal book.old campaign meter ≡ Some e) }
    ensures memory { IfErr result (λ e. e ≢ BookError.OutOfMemory) }
{
    match ending {
        Ending::Done => book.mark_done(campaign, meter),
        Ending::Failed => book.mark_failed(campaign, meter),
    }
}

/// Marks a meter's row again by the number of its ending, if that isn't 0.
fn renumber(
    book: &mut RestoredBook,
    campaign: CampaignId,
    meter: MeterId,
    number: u8,
) -> Result<(), BookError>
    ensures made { OnOk result (MakesNumbered book.old campaign meter number book.new) }
    ensures refused { OnErr result ((next : Contents) → ¬ MakesNumbered book.old campaign meter number next) }
    ensures memory { IfErr result (λ e. e ≢ BookError.OutOfMemory) }
{
    if number == 0 {
        return Ok(());
    }
    match ending_of(number) {
        Some(ending) => remark(book, campaign, meter, ending),
        None => Err(BookError::BadBook),
    }
}

/// The meter of the row of a campaign with this index.
fn meter_at(book: &Book, campaign: CampaignId, index: usize) -> Option<MeterId>
    ensures { result ≡ option_and_then (λ (offer : Offered). option_map (λ (row : Row). row.meter) (slice_get offer.rows index))
        (offered_in book.now campaign) }
{
    let row = book.offer(campaign)?.rows().get(index)?;
    Some(row.meter)
}

/// Whether the book has the campaign, with as many rows.
fn has_rows(book: &Book, campaign: CampaignId, count: usize) -> bool
    ensures { MatchBool result ((offer : Offered) × (offered_in book.now campaign ≡ Some offer) × (length offer.rows ≡ count))
        ((offer : Offered) → offered_in book.now campaign ≡ Some offer → length offer.rows ≢ count) }
{
    match book.offer(campaign) {
        Some(offer) => offer.rows().len() == count,
        None => false,
    }
}

/// Ends the rows of a campaign again, by a number for each of them.
fn end_rows(book: &mut RestoredBook, campaign: CampaignId, numbers: &[u8]) -> Result<(), BookError>
    ensures made { OnOk result (MakesEnded book.old campaign numbers.now book.new) }
    ensures refused { OnErr result ((next : Contents) → ¬ MakesEnded book.old campaign numbers.now next) }
    ensures memory { IfErr result (λ e. e ≢ BookError.OutOfMemory) }
{
    if !has_rows(book.book(), campaign, numbers.len()) {
        return Err(BookError::BadBook);
    }
    let mut rest = numbers;
    while let Some((number, others)) = rest.split_first() {
        let Some(meter) = meter_at(book.book(), campaign, numbers.len() - rest.len()) else {
            return Err(BookError::BadBook);
        };
        renumber(book, campaign, meter, *number)?;
        rest = others;
    }
    Ok(())
}

/// Whether a row in this state ended so.
pub(crate) fn ends_so(state: RowState, end: &End) -> bool
    ensures { result ≡ ends_so state end.now }
{
    match state {
        RowState::Live | RowState::Cancelled => false,
        RowState::Done => end.reason.is_none(),
        RowState::Failed => true,
    }
}

/// Whether the book has a row of the meter that ended so.
fn has_end(book: &Book, campaign: CampaignId, meter: MeterId, end: &End) -> bool
    ensures { MatchBool result (HasEnd book.now campaign meter end.now) (¬ HasEnd book.now campaign meter end.now) }
{
    match book.state(campaign, meter) {
        Some(state) => ends_so(state, end),
        None => false,
    }
}

/// Whether what is noted is of this book.
fn is_note_of(book: &Book, campaign: CampaignId, note: &Note) -> bool
    ensures { MatchBool result (IsNoteOf book.now campaign note.now) (¬ IsNoteOf book.now campaign note.now) }
{
    match note {
        Note::Opened(_) => book.offer(campaign).is_some(),
        Note::Ended(meter, end) => has_end(book, campaign, *meter, end),
    }
}

/// Makes again what a record says of the book.
fn apply(alloc: Global, book: &mut RestoredBook, told: &Record<'_>) -> Result<(), BookError>
    ensures made { OnOk result (Makes (entry_of told.now) book.old book.new) }
    ensures refused { IfErr result (λ e. e ≢ BookError.OutOfMemory
        → (next : Contents) → ¬ Makes (entry_of told.now) book.old next) }
    ensures memory { IsErrOf result BookError.OutOfMemory → IsOpening (entry_of told.now) }
{
    match told {
        Record::Opening {
            campaign,
            release,
            image,
            meters,
        } => reopen(alloc, book, *campaign, *release, *image, meters),
        Record::Mark {
            campaign,
            meter,
            ending,
        } => remark(book, *campaign, *meter, *ending),
        Record::Cancelling { campaign } => book.cancel(*campaign),
        Record::Endings { campaign, numbers } => end_rows(book, *campaign, numbers),
        Record::Note { campaign, note } => {
            if is_note_of(book.book(), *campaign, note) {
                Ok(())
            } else {
                Err(BookError::BadBook)
            }
        }
    }
}

/// Notes what a record says, if it is a note.
fn note(notes: &mut Notes, told: &Record<'_>) -> Result<(), AllocError>
    ensures noted { OnOk result (notes.new ≡ known_with notes.old (entry_of told.now)) }
    ensures memory { OnErr result (IsNote (entry_of told.now)) }
{
    match told {
        Record::Note {
            campaign,
            note: Note::Opened(at),
        } => notes.note_opening(*campaign, *at),
        Record::Note {
            campaign,
            note: Note::Ended(meter, end),
        } => notes.note_end(*campaign, *meter, *end),
        _ => Ok(()),
    }
}

/// Makes again what the record says that these bytes spell, and notes it. A book that refused may have some of it.
fn add(
    alloc: Global,
    book: &mut RestoredBook,
    notes: &mut Notes,
    bytes: &[u8],
) -> Result<(), BookError>
    ensures made { OnOk result (Adds bytes.now book.old book.new) }
    ensures noted { OnOk result ((entry : Entry) × Spells bytes.now entry × (notes.new ≡ known_with notes.old entry)) }
    ensures refused { IfErr result (λ e. e ≢ BookError.OutOfMemory → AddsNothing bytes.now book.old) }
    ensures memory { IsErrOf result BookError.OutOfMemory → BeginsOpening bytes.now ⊎ SpellsNote bytes.now }
{
    match read_record(alloc, bytes) {
        Ok(record) => make(alloc, book, notes, &record),
        Err(RecordError::BadRecord) => Err(BookError::BadBook),
        Err(RecordError::OutOfMemory) => Err(BookError::OutOfMemory),
    }
}

/// Makes again what a record says, and notes it.
fn make(
    alloc: Global,
    book: &mut RestoredBook,
    notes: &mut Notes,
    told: &Record<'_>,
) -> Result<(), BookError>
    ensures made { OnOk result (Makes (entry_of told.now) book.old book.new) }
    ensures noted { OnOk result (notes.new ≡ known_with notes.old (entry_of told.now)) }
    ensures refused { IfErr result (λ e. e ≢ BookError.OutOfMemory
        → (next : Contents) → ¬ Makes (entry_of told.now) book.old next) }
    ensures memory { IsErrOf result BookError.OutOfMemory → IsOpening (entry_of told.now) ⊎ IsNote (entry_of told.now) }
{
    apply(alloc, book, told)?;
    match note(notes, told) {
        Ok(()) => Ok(()),
        Err(_) => Err(BookError::OutOfMemory),
    }
}

/// The book of a head end that has these records: each campaign that they open, with what they say of its rows; and what is known from the
/// notes among them.
///
/// # Errors
///
/// `BadRecord` with the index of the first record that spells none, or says what the book of those before it refuses, as a campaign of
/// another head end, or a note of a row that hasn't ended so. Otherwise `OutOfMemory` alone, and only for what begins as an opening, or for
/// a note, after records that have a book.
pub fn read_records(
    alloc: Global,
    head: HeadId,
    records: &[Vec<u8>],
) -> Result<(Book, Notes), ReplayError>
    ensures found { IfOk result (λ read. IsBookOf head (records_of records.now) read.0) }
    ensures noted { IfOk result (λ read. AreNotesOf (records_of records.now) read.1) }

    // Records that have a book are read as that book.
    ensures unique { (book : Contents) → IsBookOf head (records_of records.now) book
        → MatchResult result (λ read. read.0 ≡ book) (λ e. e ≡ ReplayError.OutOfMemory) }
    ensures bad { (index : ℕ) → IsErrOf result (ReplayError.BadRecord index)
        → (bytes : List ℕ) × FailsAt head (records_of records.now) index bytes }
    ensures memory { IsErrOf result ReplayError.OutOfMemory → TakesMemory head (records_of records.now) }
{
    let mut book = RestoredBook::new(alloc, head);
    let mut notes = Notes::none(alloc);
    let mut rest = records;
    while let Some((bytes, others)) = rest.split_first() {
        match add(alloc, &mut book, &mut notes, bytes.as_slice()) {
            Ok(()) => rest = others,
            Err(refusal) => return Err(replay_error(refusal, records.len() - rest.len())),
        }
    }
    Ok((book.into_book(), notes))
}

/// Why the record with this index has no place in the book.
fn replay_error(refusal: BookError, index: usize) -> ReplayError
    ensures { ((refusal ≡ BookError.OutOfMemory) × (result ≡ ReplayError.OutOfMemory))
        ⊎ ((refusal ≢ BookError.OutOfMemory) × (result ≡ ReplayError.BadRecord index)) }
{
    if refusal == BookError::OutOfMemory {
        ReplayError::OutOfMemory
    } else {
        ReplayError::BadRecord { index }
    }
}
