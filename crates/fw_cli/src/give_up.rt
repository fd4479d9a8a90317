//! The command `give-up`: live rows of a head end's book are given up by hand, without a network.

ghost use Rattle.std.specs.Prelude.{◌≡◌, ◌≢◌, ◌∷◌, ◌++◌, [], IfOk, None, OnErr, OnOk};
ghost use Rattle.fw_book.specs.Contents.{Contents};
ghost use Rattle.fw_journal.specs.File.{cause_of};
ghost use Rattle.fw_kept.specs.Head.{Holds, book_of, head_of};
ghost use Rattle.fw_plan.specs.Meters.{meters_of};
ghost use Rattle.fw_host.specs.Telling.{Told, lines_of_rows};
ghost use Rattle.fw_cli.specs.GivingUp.{
  AddsOne,
  GivesUpAll,
  GivesUpIn,
  HasGivenUp,
  Says,
  fault_of_give_up,
  give_up_of_book,
};
ghost use Rattle.fw_cli.specs.Private.{commit_error, give_up_of_commit};
ghost use Rattle.fw_cli.specs.Reasons.{reason_of};
ghost use Rattle.fw_cli.specs.declared.give_up.CommitError.TheVariants as commit;

use crate::capture_file::reason_of;
use fw_blocks::Width;
use fw_book::End;
use fw_disk::Because;
use fw_faults::Fault;
use fw_head::WhyGivenUp;
use fw_host::{BookFileError, Lines, date, open_book};
use fw_journal::{FileDevice, JournalDevice};
use fw_kept::{KeptError, KeptHead};
use fw_ledger::Ending;
use fw_names::{CampaignId, HeadId, MeterId};
use fw_plan::{MeterRange, meters_of};
use fw_rollout::Ended;
use std::alloc::{AllocError, Global};
use std::fmt;
use std::fs::File;
use std::io::Write;
use std::rt::{Clock, Files};
use thiserror::Error;

/// The options of the command.
#[derive(Drop)]
pub struct GiveUpOptions<'a> {
    /// The head end.
    pub head: HeadId,
    /// The path of the file of its book.
    pub book: &'a str,
    /// The meters whose live rows are given up, in this order. A range names those in it that have one when the book is opened.
    pub meters: Vec<MeterRange>,
}

/// Whether the meters had live rows.
#[derive(Clone, Copy, PartialEq, Eq, Debug)]
pub enum GaveUp {
    /// Each of them had one.
    Each,
    /// One of them had none at least.
    NotEach,
}

impl GaveUp {
    /// Whether the meters had live rows, if these had none.
    fn of(lacking: &[MeterId]) -> GaveUp
        ensures { Says lacking.now result }
    {
        if lacking.is_empty() {
            GaveUp::Each
        } else {
            GaveUp::NotEach
        }
    }
}

/// Why the command ended early. It prints its name, and of a bad book the offset, or the index of the record, too.
#[derive(Clone, Copy, Debug, Error)]
pub enum GiveUpError {
    /// No file of a book is there.
    NoBook,
    /// Another process has the book.
    Locked,
    /// The file of the book can't be opened, read, written or synced.
    BookFault,
    /// The bytes of the book from this offset on are none.
    BadBook(u64),
    /// The record of the book with this index, counted from 0, has no place in it.
    BadRecord(usize),
    /// The book is another head end's.
    ForeignHead,
    /// The book has 2^60 bytes or more.
    Full,
    /// Memory was refused.
    OutOfMemory,
}

impl fmt::Display for GiveUpError {
    fn fmt<W: fmt::Write>(&self, f: &mut fmt::Formatter<W>) -> fmt::Result {
        match self {
            GiveUpError::BadBook(offset) => write!(f, "BadBook {offset}"),
            GiveUpError::BadRecord(index) => write!(f, "BadRecord {index}"),
            other => fmt::Debug::fmt(other, f),
        }
    }
}

impl From<BookFileError> for GiveUpError {
    ghost from_gives = { λ error e. e ≡ give_up_of_book error };

    fn from(error: BookFileError) -> GiveUpError {
        match error {
            BookFileError::NoBook => GiveUpError::NoBook,
            BookFileError::Locked => GiveUpError::Locked,
            BookFileError::BookFault => GiveUpError::BookFault,
            BookFileError::BadBook(offset) => GiveUpError::BadBook(offset),
            BookFileError::BadRecord(index) => GiveUpError::BadRecord(index),
            BookFileError::ForeignHead => GiveUpError::ForeignHead,
            BookFileError::OutOfMemory => GiveUpError::OutOfMemory,
        }
    }
}

impl From<GiveUpError> for Fault {
    ghost from_gives = { λ error fault. fault ≡ fault_of_give_up error };

    fn from(error: GiveUpError) -> Fault {
        match error {
            GiveUpError::NoBook => Fault::NoBook,
            GiveUpError::Locked => Fault::Locked,
            GiveUpError::BookFault => Fault::BookFault,
            GiveUpError::BadBook(offset) => Fault::BadBook(offset),
            GiveUpError::BadRecord(index) => Fault::BadRecord(index),
            GiveUpError::ForeignHead => Fault::ForeignHead,
            GiveUpError::Full => Fault::Full,
            GiveUpError::OutOfMemory => Fault::OutOfMemory,
        }
    }
}

/// Why no rows are given up in an open book.
#[derive(Clone, Copy)]
enum CommitError {
    /// The book has 2^60 bytes or more.
    Full,
    /// Its device failed.
    BookFault,
    /// Memory was refused.
    OutOfMemory,
}

impl From<AllocError> for CommitError {
    ghost from_gives = { λ _ e. e ≡ commit.OutOfMemory };

    fn from(_error: AllocError) -> CommitError {
        CommitError::OutOfMemory
    }
}

impl From<KeptError> for CommitError {
    ghost from_gives = { λ error e. e ≡ commit_error error };

    fn from(error: KeptError) -> CommitError {
        match error {
            KeptError::Full => CommitError::Full,
            KeptError::OutOfMemory => CommitError::OutOfMemory,
            // The book itself refuses no commit.
            KeptError::BookFault | KeptError::Refused(_) => CommitError::BookFault,
        }
    }
}

/// Rows that were given up, and meters that had none.
#[derive(Drop)]
struct GivenRows {
    rows: Vec<Ended>,
    lacking: Vec<MeterId>,
}

impl GivenRows {
    /// None yet.
    fn none(alloc: Global) -> GivenRows
        ensures rows { result.rows.items ≡ [] }
        ensures lacking { result.lacking.items ≡ [] }
    {
        GivenRows {
            rows: Vec::new(alloc),
            lacking: Vec::new(alloc),
        }
    }

    /// With the row of this meter in this campaign, which was given up.
    fn push_row(&mut self, campaign: CampaignId, meter: MeterId, end: End) -> Result<(), AllocError>
        ensures added { OnOk result (self.new.rows.items
            ≡ self.old.rows.items ++ record { campaign = campaign; meter = meter; ending = Ending.Failed; end = end } ∷ []) }
        ensures lacking { self.new.lacking.items ≡ self.old.lacking.items }
    {
        self.rows.push(Ended {
            campaign,
            meter,
            ending: Ending::Failed,
            end,
        })?;
        Ok(())
    }

    /// With this meter, which had none.
    fn push_lacking(&mut self, meter: MeterId) -> Result<(), AllocError>
        ensures added { OnOk result (self.new.lacking.items ≡ self.old.lacking.items ++ meter ∷ []) }
        ensures rows { self.new.rows.items ≡ self.old.rows.items }
    {
        self.lacking.push(meter)?;
        Ok(())
    }
}

/// Gives up the live rows of these meters: they fail, with that reason, and their meters are free for another campaign. A meter that has the
/// image may activate it all the same. The disk has all of them or none.
///
/// The writer gets `row ..` for each, once the disk has all. Each is flushed; one that can't be written is lost. Standard error gets
/// `meter N has no live row` for each meter that has none, and is told of records that the book lacks, and of the file that keeps them
/// ([`open_book`]).
///
/// # Errors
///
/// - `NoBook`, `Locked`, `BadBook`, `BadRecord`, `ForeignHead`: the file has no book that this head end may begin with, or another process has
///   it. It is left as it is, or as a journal of the same records.
/// - `BookFault`, `Full`: the file can't be opened, read or written.
/// - `OutOfMemory`.
///
/// Nothing of what the file lacks was reported.
pub fn run_give_up<F: Files<File = File> + Clock + Eprint, W: Write>(
    rt: &F,
    alloc: Global,
    writer: &mut W,
    options: &GiveUpOptions<'_>,
) -> Result<GaveUp, Because<GiveUpError>>
    // Of the file's contents nothing is known here, so the head end is some one of that number.
    ensures given_up { IfOk result (λ gave. HasGivenUp options.now gave) }
    ensures silent { OnErr result (W.contents writer.new ≡ W.contents writer.old) }
{
    let given = match given_up(rt, alloc, options) {
        Ok(given) => given,
        Err(because) => return Err(because),
    };
    let mut lines = Lines::new(alloc, writer);
    tell_rows(&mut lines, &given.rows);
    tell_lacking(rt, &given.lacking);
    Ok(GaveUp::of(&given.lacking))
}

/// Gives up the live rows of the meters that the options name, in the book of its file.
fn given_up<F: Files<File = File> + Clock + Eprint>(
    rt: &F,
    alloc: Global,
    options: &GiveUpOptions<'_>,
) -> Result<GivenRows, Because<GiveUpError>>
    ensures given { IfOk result (λ given. GivesUpIn options.now given.rows.items given.lacking.items) }
{
    // Nothing is sent, so how many blocks would be at a time doesn't matter.
    let Some(width) = Width::new(1) else {
        unreachable!();
    };
    let mut kept = match open_book(rt, alloc, options.book, options.head, width) {
        Ok(kept) => kept,
        Err(because) => return Err(not_opened(because)),
    };
    give_up_in(alloc, &mut kept, &options.meters, date(rt))
}

/// Why the command ended early, with its reason, if its book isn't opened.
fn not_opened(because: Because<BookFileError>) -> Because<GiveUpError>
    ensures error { result.error ≡ give_up_of_book because.error }
    ensures reason { result.reason ≡ because.reason }
{
    Because {
        error: GiveUpError::from(because.error),
        reason: because.reason,
    }
}

/// Gives up the live rows of the meters that these name at this time. A fault of the book has the cause of its device.
fn give_up_in(
    alloc: Global,
    kept: &mut KeptHead<FileDevice>,
    named: &[MeterRange],
    at: u64,
) -> Result<GivenRows, Because<GiveUpError>>
    ensures given { IfOk result (λ given. GivesUpAll (head_of kept.old) (meters_of (book_of kept.old) named.now) at given.rows.items
        given.lacking.items (head_of kept.new)) }
{
    match give_up_named(alloc, kept, named, at) {
        Ok(given) => Ok(given),
        Err(error) => Err(not_given_up(error, kept.device())),
    }
}

/// Why the command ended early, if no rows are given up in the book on this device. A fault of the book has the cause of the device.
fn not_given_up(error: CommitError, device: &FileDevice) -> Because<GiveUpError>
    ensures error { result.error ≡ give_up_of_commit error }
    ensures book { error ≡ CommitError.BookFault → result.reason ≡ reason_of (cause_of device.now) }
    ensures others { error ≢ CommitError.BookFault → result.reason ≡ None }
{
    match error {
        CommitError::BookFault => Because {
            error: GiveUpError::BookFault,
            reason: reason_of(device.cause()),
        },
        CommitError::Full => Because::from(GiveUpError::Full),
        CommitError::OutOfMemory => Because::from(GiveUpError::OutOfMemory),
    }
}

/// Gives up the live rows of the meters that these name at this time, in seconds since 1970 began (UTC), and puts that on the device.
fn give_up_named<D: JournalDevice>(
    alloc: Global,
    kept: &mut KeptHead<D>,
    named: &[MeterRange],
    at: u64,
) -> Result<GivenRows, CommitError>
    ensures given { IfOk result (λ given. GivesUpAll (head_of kept.old) (meters_of (book_of kept.old) named.now) at given.rows.items
        given.lacking.items (head_of kept.new)) }

    // What is returned is on the device.
    ensures acknowledged { (synced : Contents) → Holds D.honest D.contents D.may_leave kept.old synced
        → OnOk result (Holds D.honest D.contents D.may_leave kept.new (book_of kept.new)) }
{
    let meters = meters_of(alloc, kept.head().view().book, named)?;
    let given = give_up_all(alloc, kept, &meters, at)?;
    match kept.commit() {
        Ok(()) => Ok(given),
        Err(refusal) => Err(CommitError::from(refusal)),
    }
}

/// Gives up the live rows of these meters. That waits for the next commit.
fn give_up_all<D: JournalDevice>(
    alloc: Global,
    kept: &mut KeptHead<D>,
    meters: &[MeterId],
    at: u64,
) -> Result<GivenRows, AllocError>
    ensures given { IfOk result (λ given. GivesUpAll (head_of kept.old) meters.now at given.rows.items given.lacking.items
        (head_of kept.new)) }
    ensures waits { (synced : Contents) → Holds D.honest D.contents D.may_leave kept.old synced
        → OnOk result (Holds D.honest D.contents D.may_leave kept.new synced) }
{
    let mut given = GivenRows::none(alloc);
    for meter in meters {
        give_up_one(alloc, kept, *meter, at, &mut given)?;
    }
    Ok(given)
}

/// Gives up the live row of a meter, if it has one. That waits for the next commit.
fn give_up_one<D: JournalDevice>(
    alloc: Global,
    kept: &mut KeptHead<D>,
    meter: MeterId,
    at: u64,
    given: &mut GivenRows,
) -> Result<(), AllocError>
    ensures given { OnOk result (AddsOne (head_of kept.old) meter at given.old.rows.items given.new.rows.items given.old.lacking.items
        given.new.lacking.items (head_of kept.new)) }
    ensures waits { (synced : Contents) → Holds D.honest D.contents D.may_leave kept.old synced
        → OnOk result (Holds D.honest D.contents D.may_leave kept.new synced) }
{
    let told = match kept.give_up(alloc, meter, WhyGivenUp::ByHand, at) {
        Ok(told) => told,
        Err(_) => return Err(AllocError),
    };
    match told {
        Some(row) => {
            let end = End {
                at,
                reason: Some(row.reason),
            };
            given.push_row(row.campaign, meter, end)
        }
        None => given.push_lacking(meter),
    }
}

/// The lines of these rows.
fn tell_rows<W: Write>(lines: &mut Lines<'_, W>, rows: &[Ended])
    ensures writer { lines.new.writer.ghost_name ≡ lines.old.writer.ghost_name }
    ensures told { Told (lines_of_rows rows.now) lines.old.lost lines.new.lost (W.contents lines.old.writer.now)
        (W.contents lines.new.writer.now) }
{
    for row in rows {
        lines.tell_ended(*row);
    }
}

/// Tells standard error of these meters, which have no live row. A line that can't be written is lost.
fn tell_lacking<F: Eprint>(rt: &F, meters: &[MeterId]) {
    for meter in meters {
        let number = meter.number();
        let _ = eprintln!(rt; "meter {number} has no live row");
    }
}
