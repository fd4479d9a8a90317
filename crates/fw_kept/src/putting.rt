//! How a record of a book is put into its journal.

ghost use Rattle.std.specs.Prelude.{◌≡◌, ◌<◌, ◌≤◌, ◌+◌, ◌^◌, ℕ, length, None, IfOk, IfErr, OnOk, OnErr, IsErrOf, IsTrue};
ghost use Rattle.fw_names.specs.Name.{IsOpened};
ghost use Rattle.fw_book.specs.Contents.{Contents, offered_in};
ghost use Rattle.fw_book.specs.Notes.{Known};
ghost use Rattle.fw_book.specs.Changes.{opened, opening_refusal};
ghost use Rattle.fw_journal.specs.Journal.{device_of};
ghost use Rattle.fw_ledger.specs.Entry.{earlier, source_bytes, entry_bytes, IsSource, IsNote, Spells};
ghost use Rattle.fw_ledger.specs.Replay.{IsImage, Makes};
ghost use Rattle.fw_ledger.specs.Noted.{known_with};
ghost use Rattle.fw_ledger.specs.View.{source_of, entry_of};
ghost use Rattle.fw_kept.specs.Kept.{IsFull, Keeps};
ghost use Rattle.fw_kept.specs.Refusals.{IsCommitRefusal};
ghost use Rattle.fw_kept.specs.Private.{CanBeKept, Puts};

use crate::error::KeptError;
use fw_book::{Book, BookError};
use fw_journal::{Journal, JournalDevice};
use fw_ledger::{Image, Record};
use fw_names::{CampaignId, MeterId};
use std::alloc::Global;

/// The bytes of a record that has a spelling.
fn bytes_of(alloc: Global, told: &Record<'_>) -> Result<Vec<u8>, KeptError>
    requires { CanBeKept (entry_of told.now) }
    ensures spelled { IfOk result (λ bytes. Spells bytes.items (entry_of told.now)) }
    ensures short { IfOk result (λ bytes. length bytes.items < 2 ^ 32) }
    ensures memory { IfErr result (λ e. e ≡ KeptError.OutOfMemory) }
{
    match told.to_bytes(alloc) {
        Ok(bytes) => Ok(bytes),
        Err(_) => Err(KeptError::OutOfMemory),
    }
}

/// Lets a record wait for the next commit. The device isn't touched.
pub(crate) fn add<D: JournalDevice>(
    alloc: Global,
    journal: &mut Journal<D>,
    told: &Record<'_>,
) -> Result<(), KeptError>
    requires { CanBeKept (entry_of told.now) }
    ensures waits { (head : ℕ) (synced book next : Contents) (noted known : Known)
        → Keeps D.honest D.contents D.may_leave head journal.old synced book noted known
        → Makes (entry_of told.now) book next
        → OnOk result (Keeps D.honest D.contents D.may_leave head journal.new synced next noted (known_with known (entry_of told.now))) }
    ensures unchanged { (head : ℕ) (synced book : Contents) (noted known : Known)
        → Keeps D.honest D.contents D.may_leave head journal.old synced book noted known
        → OnErr result (Keeps D.honest D.contents D.may_leave head journal.new synced book noted known) }
    ensures device { device_of journal.new ≡ device_of journal.old }
    ensures memory { IfErr result (λ e. e ≡ KeptError.OutOfMemory) }
{
    fw_ledger::laws::notes_go_on();
    let bytes = bytes_of(alloc, told)?;
    match journal.append(alloc, &bytes) {
        Ok(()) => Ok(()),
        Err(_) => Err(KeptError::OutOfMemory),
    }
}

/// Commits a record with those that wait. It doesn't wait if that is refused.
pub(crate) fn put<D: JournalDevice>(
    alloc: Global,
    journal: &mut Journal<D>,
    told: &Record<'_>,
) -> Result<(), KeptError>
    requires { CanBeKept (entry_of told.now) }
    ensures puts { (book next : Contents) (known : Known) → Makes (entry_of told.now) book next
        → Puts D.JournalDevice KeptError.BookFault journal.old result journal.new book next known (known_with known (entry_of told.now)) }
    ensures full { IsErrOf result KeptError.Full → IsFull journal.old }
    ensures refusals { IfErr result IsCommitRefusal }
{
    fw_ledger::laws::notes_go_on();
    let bytes = bytes_of(alloc, told)?;
    journal.commit_with(alloc, &bytes)?;
    Ok(())
}

/// Commits a record and one that is a note with those that wait. Neither waits if that is refused.
pub(crate) fn put_noted<D: JournalDevice>(
    alloc: Global,
    journal: &mut Journal<D>,
    told: &Record<'_>,
    note: &Record<'_>,
) -> Result<(), KeptError>
    requires can { CanBeKept (entry_of told.now) }
    requires can_note { CanBeKept (entry_of note.now) }
    requires small { length (entry_bytes (entry_of note.now)) ≤ 64 }
    ensures puts { (book between next : Contents) (known : Known) → Makes (entry_of told.now) book between
        → Makes (entry_of note.now) between next
        → Puts D.JournalDevice KeptError.BookFault journal.old result journal.new book next known
        (known_with (known_with known (entry_of told.now)) (entry_of note.now)) }
    ensures full { IsErrOf result KeptError.Full → IsFull journal.old }
    ensures refusals { IfErr result IsCommitRefusal }
{
    fw_ledger::laws::notes_go_on();
    let first = bytes_of(alloc, told)?;
    let second = bytes_of(alloc, note)?;
    journal.commit_both(alloc, &first, &second)?;
    Ok(())
}

/// Commits the records that wait.
pub(crate) fn put_waiting<D: JournalDevice>(journal: &mut Journal<D>) -> Result<(), KeptError>
    ensures puts { (book : Contents) (known : Known)
        → Puts D.JournalDevice KeptError.BookFault journal.old result journal.new book book known known }
    ensures full { IsErrOf result KeptError.Full → IsFull journal.old }
    ensures refusals { IfErr result IsCommitRefusal }
{
    journal.commit()?;
    Ok(())
}

/// Checks that the book has the campaign. It is then one that a head end opens.
pub(crate) fn check_has(book: &Book, campaign: CampaignId) -> Result<(), KeptError>
    ensures opened { OnOk result (IsOpened campaign) }
    ensures none { IfErr result (λ e. (e ≡ KeptError.Refused BookError.NoSuchCampaign) × (offered_in book.now campaign ≡ None)) }
{
    match book.offer(campaign) {
        Some(_) => Ok(()),
        None => Err(KeptError::Refused(BookError::NoSuchCampaign)),
    }
}

/// The record of an opening that the book takes.
pub(crate) fn opening_of<'a>(
    alloc: Global,
    book: &Book,
    campaign: CampaignId,
    release: u32,
    image: &'a [u8],
    meters: &[MeterId],
) -> Result<Record<'a>, KeptError>
    requires opened { IsOpened campaign }
    requires admitted { opening_refusal book.now campaign image.now meters.now ≡ None }
    ensures can { IfOk result (λ told. CanBeKept (entry_of told)) }
    ensures makes { IfOk result (λ told. Makes (entry_of told) book.now (opened book.now campaign.serial release image.now meters.now)) }
    ensures no_note { IfOk result (λ told. ¬ IsNote (entry_of told)) }
    ensures memory { IfErr result (λ e. e ≡ KeptError.OutOfMemory) }
{
    fw_book::laws::admitted_opens();
    let Ok(meters) = meters.to_vec(alloc) else {
        return Err(KeptError::OutOfMemory);
    };
    Ok(Record::Opening {
        campaign,
        release,
        image: source(book, image),
        meters,
    })
}

/// Where the record of an opening has its image from: a campaign of the book that offers the same, or the record itself.
fn source<'a>(book: &Book, image: &'a [u8]) -> Image<'a>
    ensures is_image { IsImage book.now (source_of result) image.now }
    ensures fits { length image.now < 2 ^ 32 → IsSource (source_of result) }
    ensures short { length (source_bytes (source_of result)) ≤ length image.now + 5 }
{
    for (serial, _) in book.rows() {
        if offers(book, *serial, image) {
            return Image::Earlier(*serial);
        }
    }
    Image::Whole(image)
}

/// Whether the campaign with this serial number offers this image.
fn offers(book: &Book, serial: u32, image: &[u8]) -> bool
    ensures is_image { IsTrue result → IsImage book.now (earlier serial) image.now }
    ensures fits { serial < 2 ^ 32 }
{
    let Some(campaign) = CampaignId::new(book.head(), serial) else {
        return false;
    };
    match book.offer(campaign) {
        Some(offer) => offer.image() == image,
        None => false,
    }
}
