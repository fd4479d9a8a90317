//! How the mark of a row that ended at a head end, and the note of its end, are put into the journal of its book.

ghost use Rattle.std.specs.Prelude.{◌≡◌, ◌≤◌, ℕ, length, IfErr, OnOk, OnErr, IsSome, IsTrue};
ghost use Rattle.fw_names.specs.Name.{IsOpened};
ghost use Rattle.fw_book.specs.Contents.{Contents, offered_in};
ghost use Rattle.fw_book.specs.Notes.{Known, with_ending};
ghost use Rattle.fw_journal.specs.Journal.{device_of};
ghost use Rattle.fw_ledger.specs.Entry.{mark, note as noted_entry, entry_bytes};
ghost use Rattle.fw_ledger.specs.Replay.{ends_so, state_of, MakesMarked};
ghost use Rattle.fw_ledger.specs.View.{entry_of};
ghost use Rattle.fw_kept.specs.Kept.{Keeps};
ghost use Rattle.fw_kept.specs.Head.{IsEnd, known_heard};
ghost use Rattle.fw_kept.specs.Private.{CanBeKept, IsNewsOf, NewsMake};

use crate::error::KeptError;
use crate::putting::add;
use fw_book::{Book, End, Notes};
use fw_head::{News, Told};
use fw_journal::{Journal, JournalDevice};
use fw_ledger::{Ending, Note, Record};
use fw_names::{CampaignId, MeterId};
use std::alloc::Global;

/// Lets the mark of the row that ended wait for the next commit, with the note of its end, if the news are of one, and notes the end. The
/// device isn't touched.
pub(crate) fn keep_end<D: JournalDevice>(
    alloc: Global,
    journal: &mut Journal<D>,
    notes: &mut Notes,
    book: &Book,
    told: &Told,
    now: u64,
) -> Result<(), KeptError>
    requires { IsNewsOf book.now told.now.news }
    ensures waits { (head : ℕ) (synced before next : Contents) (noted : Known)
        → Keeps D.honest D.contents D.may_leave head journal.old synced before noted notes.old
        → NewsMake told.now.news before next
        → OnOk result (Keeps D.honest D.contents D.may_leave head journal.new synced next noted notes.new) }
    ensures noted { OnOk result (notes.new ≡ known_heard notes.old told.now.news told.now.reason now) }
    ensures same { OnErr result (notes.new ≡ notes.old) }
    ensures device { device_of journal.new ≡ device_of journal.old }
    ensures ended { OnErr result (IsEnd told.now.news) }
    ensures memory { IfErr result (λ e. e ≡ KeptError.OutOfMemory) }
{
    match told.news {
        News::Nothing | News::Moved => Ok(()),
        News::Done(campaign, meter) => {
            let end = End {
                at: now,
                reason: None,
            };
            keep_row(
                alloc,
                journal,
                notes,
                book,
                campaign,
                meter,
                Ending::Done,
                &end,
            )
        }
        News::Failed(campaign, meter) => {
            let end = End {
                at: now,
                reason: told.reason,
            };
            keep_row(
                alloc,
                journal,
                notes,
                book,
                campaign,
                meter,
                Ending::Failed,
                &end,
            )
        }
    }
}

/// Lets the mark of a row wait, and the note of its end, and notes that.
fn keep_row<D: JournalDevice>(
    alloc: Global,
    journal: &mut Journal<D>,
    notes: &mut Notes,
    book: &Book,
    campaign: CampaignId,
    meter: MeterId,
    ending: Ending,
    end: &End,
) -> Result<(), KeptError>
    requires has { IsSome (offered_in book.now campaign) }
    requires so { IsTrue (ends_so (state_of ending) end.now) }
    ensures waits { (head : ℕ) (synced before next : Contents) (noted : Known)
        → Keeps D.honest D.contents D.may_leave head journal.old synced before noted notes.old
        → MakesMarked before campaign meter ending next
        → OnOk result (Keeps D.honest D.contents D.may_leave head journal.new synced next noted notes.new) }
    ensures noted { OnOk result (notes.new ≡ with_ending notes.old campaign.serial meter end.now) }
    ensures same { OnErr result (notes.new ≡ notes.old) }
    ensures device { device_of journal.new ≡ device_of journal.old }
    ensures memory { IfErr result (λ e. e ≡ KeptError.OutOfMemory) }
{
    fw_book::laws::states_follow();
    add(alloc, journal, &mark_of(book, campaign, meter, ending))?;
    add(
        alloc,
        journal,
        &note_of(book, campaign, Note::Ended(meter, *end)),
    )?;
    match notes.note_end(campaign, meter, *end) {
        Ok(()) => Ok(()),
        Err(_) => Err(KeptError::OutOfMemory),
    }
}

/// The record of a mark in a campaign that the book has.
fn mark_of(book: &Book, campaign: CampaignId, meter: MeterId, ending: Ending) -> Record<'static>
    requires { IsSome (offered_in book.now campaign) }
    ensures can { CanBeKept (entry_of result) }
    ensures entry { entry_of result ≡ mark campaign meter ending }
{
    match book.offer(campaign) {
        Some(_) => Record::Mark {
            campaign,
            meter,
            ending,
        },
        None => unreachable!(),
    }
}

/// The record of a note in a campaign that the book has.
fn note_of(book: &Book, campaign: CampaignId, note: Note) -> Record<'static>
    requires { IsSome (offered_in book.now campaign) }
    ensures can { CanBeKept (entry_of result) }
    ensures entry { entry_of result ≡ noted_entry campaign note }
{
    match book.offer(campaign) {
        Some(_) => opened_note(campaign, note),
        None => unreachable!(),
    }
}

/// The record of a note in a campaign that a head end opens.
pub(crate) fn opened_note(campaign: CampaignId, note: Note) -> Record<'static>
    requires { IsOpened campaign }
    ensures can { CanBeKept (entry_of result) }
    ensures small { length (entry_bytes (entry_of result)) ≤ 64 }
    ensures entry { entry_of result ≡ noted_entry campaign note }
{
    Record::Note { campaign, note }
}
