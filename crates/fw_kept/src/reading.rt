//! The book that bytes hold, whoever's it is, and what is known of it.

ghost use Rattle.std.specs.Prelude.{◌≡◌, ◌≢◌, ℕ, List, IfOk, IfErr, IsErrOf};
ghost use Rattle.fw_journal.specs.Book.{Drops, HasRecord, IsBadBook};
ghost use Rattle.fw_journal.specs.Refusals.{IsOpeningRefusal};
ghost use Rattle.fw_ledger.specs.Entry.{Entry, Spells, NoRecord};
ghost use Rattle.fw_ledger.specs.Replay.{records_of};
ghost use Rattle.fw_ledger.specs.Noted.{AreNotesOf};
ghost use Rattle.fw_kept.specs.Kept.{HasNotes, HasBadRecord, HasNoBook, IsReadAs, campaign_of};
ghost use Rattle.fw_kept.specs.Private.{AreReadAs, IsReadingRefusal};

use crate::error::ReadingError;
use crate::opening::campaign_of;
use fw_book::{Book, Notes};
use fw_journal::{JournalError, count_dropped, read_book};
use fw_ledger::{RecordError, ReplayError, read_record, read_records};
use fw_names::HeadId;
use std::alloc::Global;

/// The book that the bytes of a journal hold, and `None` if it has no record, so that any head end may have it; what is known from its
/// notes; and how many whole records stand behind its shut gate, which the book lacks. The bytes may have been read from front to back
/// while a head end writes them.
///
/// # Errors
///
/// `BadBook` with an offset where the bytes are no journal's, `BadRecord` with the index of a record that has no place in the book of those
/// before it. Such bytes have no book of any head end. Otherwise `OutOfMemory` alone, which may come in place of these, and only if a
/// whole record stands first.
pub fn read_kept(alloc: Global, bytes: &[u8]) -> Result<(Option<Book>, Notes, usize), ReadingError>
    ensures found { IfOk result (λ r. IsReadAs bytes.now r.0) }
    ensures noted { IfOk result (λ r. HasNotes bytes.now r.1) }
    ensures dropped { IfOk result (λ r. (rest : List ℕ) × Drops bytes.now rest r.2) }
    ensures bad { (offset : ℕ) → IsErrOf result (ReadingError.BadBook offset) → IsBadBook bytes.now offset }
    ensures bad_record { (index : ℕ) → IsErrOf result (ReadingError.BadRecord index) → (head : ℕ) × HasBadRecord head bytes.now index }
    ensures no_book { (index : ℕ) → IsErrOf result (ReadingError.BadRecord index) → HasNoBook bytes.now }
    ensures memory { IsErrOf result ReadingError.OutOfMemory → HasRecord bytes.now }
{
    fw_journal::laws::one_reading();
    crate::laws::bad_records_have_none();
    match read_book(alloc, bytes) {
        Ok((records, end)) => match book_in(alloc, &records) {
            Ok((book, notes)) => Ok((book, notes, count_dropped(bytes, end))),
            Err(ReplayError::BadRecord { index }) => Err(ReadingError::BadRecord { index }),
            Err(ReplayError::OutOfMemory) => Err(ReadingError::OutOfMemory),
        },
        Err(refusal) => Err(unread(refusal)),
    }
}

/// Why bytes that are no journal's hold no book.
fn unread(error: JournalError) -> ReadingError
    requires opening { IsOpeningRefusal error }
    requires works { error ≢ JournalError.BookFault }
    ensures bad { (offset : ℕ) → result ≡ ReadingError.BadBook offset → error ≡ JournalError.BadBook offset }
    ensures record { (index : ℕ) → result ≢ ReadingError.BadRecord index }
    ensures memory { result ≡ ReadingError.OutOfMemory → error ≡ JournalError.OutOfMemory }
{
    match error {
        JournalError::BadBook { offset } => ReadingError::BadBook { offset },
        JournalError::OutOfMemory => ReadingError::OutOfMemory,
        // No device is asked, and nothing is put in.
        JournalError::NotEmpty
        | JournalError::TooLong
        | JournalError::Full
        | JournalError::Locked
        | JournalError::BookFault => unreachable!(),
    }
}

/// The book of the head end of the first of these records, and `None` if there is none; and what is known from their notes.
fn book_in(alloc: Global, records: &[Vec<u8>]) -> Result<(Option<Book>, Notes), ReplayError>
    ensures found { IfOk result (λ r. AreReadAs (records_of records.now) r.0) }
    ensures noted { IfOk result (λ r. AreNotesOf (records_of records.now) r.1) }
    ensures refused { IfErr result (IsReadingRefusal (records_of records.now)) }
{
    fw_ledger::laws::one_record();
    fw_ledger::laws::nothing_noted();
    let Some((first, _)) = records.split_first() else {
        return Ok((None, Notes::none(alloc)));
    };
    match head_of(alloc, first.as_slice()) {
        Ok(head) => match read_records(alloc, head, records) {
            Ok((book, notes)) => Ok((Some(book), notes)),
            Err(refusal) => Err(refusal),
        },
        Err(RecordError::BadRecord) => Err(ReplayError::BadRecord { index: 0 }),
        Err(RecordError::OutOfMemory) => Err(ReplayError::OutOfMemory),
    }
}

/// The head end of the campaign that a record speaks of.
fn head_of(alloc: Global, bytes: &[u8]) -> Result<HeadId, RecordError>
    ensures found { IfOk result (λ head. (entry : Entry) × Spells bytes.now entry × ((campaign_of entry).head ≡ head)) }
    ensures bad { IsErrOf result RecordError.BadRecord → NoRecord bytes.now }
{
    match read_record(alloc, bytes) {
        Ok(record) => match campaign_of(&record).head() {
            Some(head) => Ok(head),
            None => unreachable!(),
        },
        Err(refusal) => Err(refusal),
    }
}
