//! The book of a journal's records and what is known of it, or why they have none.

ghost use Rattle.std.specs.Prelude.{◌≡◌, ◌≢◌, ◌≤◌, ◌⊎◌, ℕ, List, IfOk, IfErr, IsErrOf, IsTrue, MatchBool, MatchResult, OnOk};
ghost use Rattle.fw_book.specs.Contents.{Contents};
ghost use Rattle.fw_journal.specs.Book.{IsBadBook, Drops};
ghost use Rattle.fw_journal.specs.Device.{Keeps as DeviceKeeps};
ghost use Rattle.fw_journal.specs.Journal.{device_of};
ghost use Rattle.fw_journal.specs.Keeping.{KeepsFirst};
ghost use Rattle.fw_ledger.specs.Replay.{IsBookOf, FailsAt, records_of};
ghost use Rattle.fw_ledger.specs.Noted.{AreNotesOf};
ghost use Rattle.fw_ledger.specs.View.{entry_of};
ghost use Rattle.fw_kept.specs.Kept.{HasNoted, HasForeign, HasBadRecord, IsForeign, Keeps, LeavesRecords, campaign_of};
ghost use Rattle.fw_kept.specs.Private.{IsRecordsRefusal};

use crate::error::{OpenError, open_error};
use fw_book::{Book, Notes};
use fw_journal::{Journal, JournalDevice, Keeper};
use fw_ledger::{Record, RecordError, ReplayError, read_record, read_records};
use fw_names::{CampaignId, HeadId};
use std::alloc::Global;

/// The book of this head end that a device holds, what is known of it, and its journal. The device is synced first. What is cut off it and
/// reads as records, the keeper has first.
///
/// # Errors
///
/// Those of `KeptHead::open`. The device is returned.
pub(crate) fn open_book<D: JournalDevice, K: Keeper>(
    alloc: Global,
    head: HeadId,
    device: D,
    keeper: &mut K,
) -> Result<(Book, Notes, Journal<D>), (OpenError, D)>
    ensures opened { IsTrue (D.honest device) → IfOk result (λ opened. Keeps D.honest D.contents D.may_leave head opened.2
        opened.0 opened.0 opened.1 opened.1) }
    ensures book { IsTrue (D.honest device) → IfOk result (λ opened. HasNoted head (D.contents device) opened.0 opened.1) }
    // Whatever the device is.
    ensures number { IfOk result (λ opened. opened.0.head ≡ head) }
    ensures bad { IsTrue (D.honest device) → IfErr result (λ e. (offset : ℕ) → e.0 ≡ OpenError.BadBook offset
        → IsBadBook (D.contents device) offset × (D.contents e.1 ≡ D.contents device)) }
    ensures bad_record { IsTrue (D.honest device) → IfErr result (λ e. (index : ℕ) → e.0 ≡ OpenError.BadRecord index
        → HasBadRecord head (D.contents device) index) }
    ensures foreign { IsTrue (D.honest device) → IfErr result (λ e. e.0 ≡ OpenError.ForeignHead
        → HasForeign head (D.contents device)) }
    ensures any_moment { IsTrue (D.honest device) → IfOk result (λ opened. LeavesRecords D.JournalDevice device (device_of opened.2)) }
    ensures any_moment_err { IsTrue (D.honest device) → IfErr result (λ e. LeavesRecords D.JournalDevice device e.1) }
    ensures dropped { IsTrue (D.honest device) → (rest : List ℕ) (count : ℕ) → Drops (D.contents device) rest count → 1 ≤ count
        → OnOk result (K.holds keeper.new rest) }
    ensures kept_first { IsTrue (D.honest device)
        → IfOk result (λ opened. KeepsFirst D.JournalDevice K.Keeper device (device_of opened.2) keeper.old keeper.new) }
    ensures kept_first_err { IsTrue (D.honest device)
        → IfErr result (λ e. KeepsFirst D.JournalDevice K.Keeper device e.1 keeper.old keeper.new) }
    ensures never { IsTrue (D.honest device) → IsTrue (D.sound device) → IsTrue (K.sound keeper.old)
        → IfErr result (λ e. e.0 ≢ OpenError.BookFault) }
    ensures kept { IfOk result (λ opened. DeviceKeeps D.honest D.sound device (device_of opened.2)) }
{
    match Journal::open(alloc, device, keeper) {
        Ok((journal, records)) => match book_of(alloc, head, &records) {
            Ok((book, notes)) => Ok((book, notes, journal)),
            Err(refusal) => Err((refusal, journal.into_device())),
        },
        Err((refusal, device)) => Err((open_error(refusal), device)),
    }
}

/// The book of a head end that has these records, and what is known of it.
///
/// # Errors
///
/// `ForeignHead` if the first is of another head end; else `BadRecord` with the index of the first that has no place in the book of
/// those before it. Otherwise `OutOfMemory` alone.
pub(crate) fn book_of(
    alloc: Global,
    head: HeadId,
    records: &[Vec<u8>],
) -> Result<(Book, Notes), OpenError>
    ensures found { IfOk result (λ read. IsBookOf head (records_of records.now) read.0) }
    ensures noted { IfOk result (λ read. AreNotesOf (records_of records.now) read.1) }
    ensures unique { (book : Contents) → IsBookOf head (records_of records.now) book
        → MatchResult result (λ read. read.0 ≡ book) (λ e. e ≡ OpenError.OutOfMemory) }
    ensures refused { IfErr result (IsRecordsRefusal head (records_of records.now)) }
{
    match read_records(alloc, head, records) {
        Ok(read) => Ok(read),
        Err(ReplayError::BadRecord { index }) => Err(bad_record(alloc, head, records, index)),
        Err(ReplayError::OutOfMemory) => Err(OpenError::OutOfMemory),
    }
}

/// Why records are refused of which the one with this index is bad.
fn bad_record(alloc: Global, head: HeadId, records: &[Vec<u8>], index: usize) -> OpenError
    requires { (bad : List ℕ) × FailsAt head (records_of records.now) index bad }
    ensures { IsRecordsRefusal head (records_of records.now) result }
{
    match is_foreign(alloc, head, records) {
        Ok(true) => OpenError::ForeignHead,
        Ok(false) => OpenError::BadRecord { index },
        Err(_) => OpenError::OutOfMemory,
    }
}

/// Whether the first record is of a campaign of another head end.
fn is_foreign(alloc: Global, head: HeadId, records: &[Vec<u8>]) -> Result<bool, RecordError>
    ensures { IfOk result (λ is. MatchBool is (IsForeign head (records_of records.now)) (¬ IsForeign head (records_of records.now))) }
{
    fw_ledger::laws::one_record();
    let Some(first) = records.first() else {
        return Ok(false);
    };
    match read_record(alloc, first.as_slice()) {
        Ok(record) => Ok(campaign_of(&record).head() != Some(head)),
        Err(RecordError::BadRecord) => Ok(false),
        Err(RecordError::OutOfMemory) => Err(RecordError::OutOfMemory),
    }
}

/// The campaign of a record.
pub(crate) fn campaign_of(told: &Record<'_>) -> CampaignId
    ensures { result ≡ campaign_of (entry_of told.now) }
{
    match told {
        Record::Opening { campaign, .. }
        | Record::Mark { campaign, .. }
        | Record::Cancelling { campaign }
        | Record::Endings { campaign, .. }
        | Record::Note { campaign, .. } => *campaign,
    }
}
