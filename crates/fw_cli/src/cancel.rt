//! The command `cancel`: campaigns of a head end's book are cancelled, without a network.

ghost use Rattle.std.specs.Prelude.{◌≡◌, [], IfErr, IfSome, IsSomeAnd, IsTrue, None, OnOk, Some, is_some};
ghost use Rattle.fw_journal.specs.File.{cause_of};
ghost use Rattle.fw_kept.specs.Head.{book_of, head_of};
ghost use Rattle.fw_plan.specs.Ranges.{serials_of};
ghost use Rattle.fw_cli.specs.Cancelling.{
  Cancels,
  HasCancelled,
  HasStopped,
  IsOfCampaign,
  Stopped,
  StopsAt,
  cancel_of_book,
  cancel_of_kept,
  fault_of_cancel,
};
ghost use Rattle.fw_cli.specs.Reasons.{book_reason};
ghost use Rattle.fw_cli.specs.declared.cancel.CancelError.TheVariants.{OutOfMemory};

use crate::head::{cancel_one, reason_of_book};
use fw_blocks::Width;
use fw_book::BookError;
use fw_disk::{Because, Reason};
use fw_faults::Fault;
use fw_host::{BookFileError, Lines, open_book};
use fw_journal::FileDevice;
use fw_kept::{KeptError, KeptHead};
use fw_names::HeadId;
use fw_plan::{SerialRange, serials_of};
use std::alloc::{AllocError, Global};
use std::fmt;
use std::fs::File;
use std::io::Write;
use std::rt::Files;
use thiserror::Error;

/// The options of the command.
#[derive(Drop)]
pub struct CancelOptions<'a> {
    /// The head end.
    pub head: HeadId,
    /// The path of the file of its book.
    pub book: &'a str,
    /// The campaigns, in the order in which they are cancelled. A range names those in it that have a live row when the book is opened.
    pub campaigns: Vec<SerialRange>,
}

/// Why the command ended early. It prints its name, of a bad book the offset, or the index of the record, too, and of a campaign that the
/// book refuses to cancel its refusal alone.
#[derive(Clone, Copy, Debug, Error)]
pub enum CancelError {
    /// No file of a book is there.
    NoBook,
    /// Another process has the book.
    Locked,
    /// The file of the book can't be opened, read, written or synced.
    BookFault,
    /// The bytes of the book from this offset on are none.
    BadBook(u64),
    /// The record of the book with this index, counted from 0, has no place in it.
    BadRecord(usize),
    /// The book is another head end's.
    ForeignHead,
    /// The book refused to cancel a campaign.
    CancelRefused(BookError),
    /// The book has 2^60 bytes or more.
    Full,
    /// Memory was refused.
    OutOfMemory,
}

impl fmt::Display for CancelError {
    fn fmt<W: fmt::Write>(&self, f: &mut fmt::Formatter<W>) -> fmt::Result {
        match self {
            CancelError::BadBook(offset) => write!(f, "BadBook {offset}"),
            CancelError::BadRecord(index) => write!(f, "BadRecord {index}"),
            CancelError::CancelRefused(refusal) => fmt::Display::fmt(refusal, f),
            other => fmt::Debug::fmt(other, f),
        }
    }
}

impl From<BookFileError> for CancelError {
    ghost from_gives = { λ error e. e ≡ cancel_of_book error };

    fn from(error: BookFileError) -> CancelError {
        match error {
            BookFileError::NoBook => CancelError::NoBook,
            BookFileError::Locked => CancelError::Locked,
            BookFileError::BookFault => CancelError::BookFault,
            BookFileError::BadBook(offset) => CancelError::BadBook(offset),
            BookFileError::BadRecord(index) => CancelError::BadRecord(index),
            BookFileError::ForeignHead => CancelError::ForeignHead,
            BookFileError::OutOfMemory => CancelError::OutOfMemory,
        }
    }
}

impl From<KeptError> for CancelError {
    ghost from_gives = { λ error e. e ≡ cancel_of_kept error };

    fn from(error: KeptError) -> CancelError {
        match error {
            KeptError::Refused(refusal) => CancelError::CancelRefused(refusal),
            KeptError::Full => CancelError::Full,
            KeptError::BookFault => CancelError::BookFault,
            KeptError::OutOfMemory => CancelError::OutOfMemory,
        }
    }
}

impl From<CancelError> for Fault {
    ghost from_gives = { λ error fault. fault ≡ fault_of_cancel error };

    fn from(error: CancelError) -> Fault {
        match error {
            CancelError::NoBook => Fault::NoBook,
            CancelError::Locked => Fault::Locked,
            CancelError::BookFault => Fault::BookFault,
            CancelError::BadBook(offset) => Fault::BadBook(offset),
            CancelError::BadRecord(index) => Fault::BadRecord(index),
            CancelError::ForeignHead => Fault::ForeignHead,
            CancelError::CancelRefused(refusal) => Fault::CancelRefused(refusal),
            CancelError::Full => Fault::Full,
            CancelError::OutOfMemory => Fault::OutOfMemory,
        }
    }
}

/// Why the command ended early, at which campaign, and the system's cause.
#[derive(Clone, Copy, Debug)]
pub struct CancelFailure {
    /// The error.
    pub error: CancelError,
    /// The serial number of the campaign that couldn't be cancelled, once the book was open. Those before it are cancelled.
    pub serial: Option<u32>,
    /// Why the file of the book was refused, if that is known.
    pub reason: Option<Reason>,
}

impl CancelFailure {
    /// The book isn't opened.
    fn of_book(because: Because<BookFileError>) -> CancelFailure
        ensures error { result.error ≡ cancel_of_book because.error }
        ensures serial { result.serial ≡ None }
        ensures reason { result.reason ≡ because.reason }
    {
        CancelFailure {
            error: CancelError::from(because.error),
            serial: None,
            reason: because.reason,
        }
    }

    /// This campaign isn't cancelled in the book on this device.
    fn of_campaign(error: KeptError, device: &FileDevice, serial: u32) -> CancelFailure
        ensures error { result.error ≡ cancel_of_kept error }
        ensures serial { result.serial ≡ Some serial }
        ensures reason { result.reason ≡ book_reason error (cause_of device.now) }
    {
        CancelFailure {
            error: CancelError::from(error),
            serial: Some(serial),
            reason: reason_of_book(error, device),
        }
    }
}

impl From<AllocError> for CancelFailure {
    ghost from_gives = { λ _ failure. (failure.error ≡ OutOfMemory) × (failure.serial ≡ None) × (failure.reason ≡ None) };

    fn from(_error: AllocError) -> CancelFailure {
        CancelFailure {
            error: CancelError::OutOfMemory,
            serial: None,
            reason: None,
        }
    }
}

/// Cancels these campaigns: their live rows are led no further. A meter that has the image may activate it all the same.
///
/// The writer gets `cancelled ..` for each, once the disk has it. Each is flushed; one that can't be written is lost. Standard error is told of
/// records that the book lacks, and of the file that keeps them ([`open_book`]).
///
/// # Errors
///
/// - `NoBook`, `Locked`, `BadBook`, `BadRecord`, `ForeignHead`: the file has no book that this head end may begin with, or another process has
///   it. It is left as it is, or as a journal of the same records.
/// - `CancelRefused`: the book's refusal. The book has no campaign of this serial number, or none of its rows is live.
/// - `BookFault`, `Full`: the file can't be opened, read or written. Nothing of what it lacks was reported.
/// - `OutOfMemory`.
pub fn run_cancel<F: Files<File = File> + Eprint, W: Write>(
    rt: &F,
    alloc: Global,
    writer: &mut W,
    options: &CancelOptions<'_>,
) -> Result<(), CancelFailure>
    // Of the file's contents nothing is known here, so the head end is some one of that number.
    ensures cancelled { OnOk result (HasCancelled options.now) }

    // A fault of a campaign leaves those before it cancelled.
    ensures stopped { IfErr result (λ c. IfSome c.serial (λ serial. HasStopped options.now serial c.error)) }

    // A refusal names its campaign.
    ensures serial { IfErr result (λ c. IsOfCampaign c.error → IsTrue (is_some c.serial)) }
{
    // Nothing is sent, so how many blocks would be at a time doesn't matter.
    let Some(width) = Width::new(1) else {
        unreachable!();
    };
    let mut kept = match open_book(rt, alloc, options.book, options.head, width) {
        Ok(kept) => kept,
        Err(because) => return Err(CancelFailure::of_book(because)),
    };
    let mut lines = Lines::new(alloc, writer);
    cancel_named(alloc, &mut lines, &mut kept, &options.campaigns)
}

/// Cancels the campaigns that these name, and writes the line of each once that is on the device.
fn cancel_named<W: Write>(
    alloc: Global,
    lines: &mut Lines<'_, W>,
    kept: &mut KeptHead<FileDevice>,
    named: &[SerialRange],
) -> Result<(), CancelFailure>
    ensures cancelled { OnOk result (Cancels (serials_of (book_of kept.old) named.now) [] (head_of kept.old) (head_of kept.new) lines.old.lost
        lines.new.lost (W.contents lines.old.writer.now) (W.contents lines.new.writer.now)) }
    ensures stopped { IfErr result (λ c. Stopped (serials_of (book_of kept.old) named.now) c.serial c.error (head_of kept.old) (head_of kept.new)
        lines.old.lost lines.new.lost (W.contents lines.old.writer.now) (W.contents lines.new.writer.now)) }
    ensures writer { lines.new.writer.ghost_name ≡ lines.old.writer.ghost_name }
    ensures serial { IfErr result (λ c. IsOfCampaign c.error → IsTrue (is_some c.serial)) }
{
    match serials_of(alloc, kept.head().view().book, named) {
        Ok(serials) => cancel_all(alloc, lines, kept, &serials),
        Err(error) => Err(CancelFailure::from(error)),
    }
}

/// Cancels these campaigns in their order, and writes the line of each once that is on the device.
fn cancel_all<W: Write>(
    alloc: Global,
    lines: &mut Lines<'_, W>,
    kept: &mut KeptHead<FileDevice>,
    serials: &[u32],
) -> Result<(), CancelFailure>
    ensures cancelled { OnOk result (Cancels serials.now [] (head_of kept.old) (head_of kept.new) lines.old.lost lines.new.lost
        (W.contents lines.old.writer.now) (W.contents lines.new.writer.now)) }
    ensures stopped { IfErr result (λ c. IsSomeAnd c.serial (λ serial. StopsAt serials.now serial c.error (head_of kept.old) (head_of kept.new)
        lines.old.lost lines.new.lost (W.contents lines.old.writer.now) (W.contents lines.new.writer.now))) }
    ensures writer { lines.new.writer.ghost_name ≡ lines.old.writer.ghost_name }
{
    for serial in serials {
        match cancel_one(alloc, lines, kept, *serial) {
            Ok(()) => {}
            Err(error) => return Err(CancelFailure::of_campaign(error, kept.device(), *serial)),
        }
    }
    Ok(())
}
