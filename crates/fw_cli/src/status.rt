//! The command `status`: how far the rows and the campaigns of a book are, also while a head end has it.

ghost use Rattle.std.specs.Prelude.{◌≡◌, ◌≢◌, ℕ, List, None, IfErr, IfOk, OnOk};
ghost use Rattle.std.specs.Io.KnownBytes.{Appends, Keeps};
ghost use Rattle.fw_journal.specs.Book.{Drops};
ghost use Rattle.fw_rows.specs.Noted.{Noted};
ghost use Rattle.fw_status.specs.Forms.{Tells};
ghost use Rattle.fw_status.specs.declared.campaign.CampaignStatus.{CampaignStatus};
ghost use Rattle.fw_cli.specs.Heads.{HasStatus, SaysWhy, fault_of_status, status_error};
ghost use Rattle.fw_cli.specs.declared.status.StatusError.TheVariants.{OutOfMemory};

use fw_disk::{Because, Cause, Name};
use fw_faults::{Fault, write_text};
use fw_host::untaken_line;
use fw_kept::{ReadingError, read_kept};
use fw_rows::{NotedRow, push_noted};
use fw_status::{CampaignStatus, Listing, StatusForm, append_status, push_campaigns};
use std::alloc::{AllocError, Global};
use std::fs::File;
use std::io::{ErrorKind, Read, Write};
use std::rt::Files;
use std::{fmt, io};
use thiserror::Error;

/// The options of the command.
#[derive(Clone, Copy)]
pub struct StatusOptions<'a> {
    /// The path of the file of the book.
    pub book: &'a str,
    /// The form of the report.
    pub report: StatusForm,
    /// What it lists.
    pub listing: Listing,
}

/// Why the command ended early. It prints its name, and of a bad book the offset, or the index of the record.
#[derive(Clone, Copy, Debug, Error)]
pub enum StatusError {
    /// No file is there.
    NoBook,
    /// The file can't be read.
    BookFault,
    /// The bytes of the file from this offset on are no book's.
    BadBook(u64),
    /// The record with this index, counted from 0, has no place in the book.
    BadRecord(usize),
    /// The writer failed.
    Output,
    /// Memory was refused.
    OutOfMemory,
}

impl fmt::Display for StatusError {
    fn fmt<W: fmt::Write>(&self, f: &mut fmt::Formatter<W>) -> fmt::Result {
        match self {
            StatusError::BadBook(offset) => write!(f, "BadBook {offset}"),
            StatusError::BadRecord(index) => write!(f, "BadRecord {index}"),
            other => fmt::Debug::fmt(other, f),
        }
    }
}

impl From<AllocError> for StatusError {
    ghost from_gives = { λ _ e. e ≡ OutOfMemory };

    fn from(_error: AllocError) -> StatusError {
        StatusError::OutOfMemory
    }
}

impl From<ReadingError> for StatusError {
    ghost from_gives = { λ error e. e ≡ status_error error };

    fn from(error: ReadingError) -> StatusError {
        match error {
            ReadingError::BadBook { offset } => StatusError::BadBook(offset),
            ReadingError::BadRecord { index } => StatusError::BadRecord(index),
            ReadingError::OutOfMemory => StatusError::OutOfMemory,
        }
    }
}

impl From<StatusError> for Fault {
    ghost from_gives = { λ error fault. fault ≡ fault_of_status error };

    fn from(error: StatusError) -> Fault {
        match error {
            StatusError::NoBook => Fault::NoBook,
            StatusError::BookFault => Fault::BookFault,
            StatusError::BadBook(offset) => Fault::BadBook(offset),
            StatusError::BadRecord(index) => Fault::BadRecord(index),
            StatusError::Output => Fault::Output,
            StatusError::OutOfMemory => Fault::OutOfMemory,
        }
    }
}

/// What a book tells, and how many whole records stand behind its shut gate.
#[derive(Drop)]
struct Reading {
    campaigns: Vec<CampaignStatus>,
    rows: Vec<NotedRow>,
    untaken: usize,
}

/// Writes how far each row, or each campaign, of the book in the file is. The file is read alone, and may be another program's meanwhile: what
/// it has is then what it had on some commit. Standard error is told of records that stand behind its shut gate, as those of a commit that
/// isn't done.
///
/// # Errors
///
/// - `NoBook`: no file is there. `BookFault`: it can't be read. Each has its reason.
/// - `BadBook`, `BadRecord`: it holds no book.
/// - `Output`: the writer failed. What it holds then is unspecified.
/// - `OutOfMemory`.
pub fn run_status<F: Files<File = File> + Eprint, W: Write>(
    rt: &F,
    alloc: Global,
    writer: &mut W,
    options: &StatusOptions<'_>,
) -> Result<(), Because<StatusError>>
    // Of the file's contents nothing is known here, so the bytes are some. The report is of the book that they hold.
    ensures ok { OnOk result ((bytes : List ℕ) × (campaigns : List CampaignStatus) × (rows : List Noted) × HasStatus bytes campaigns rows
        × (text : List ℕ) × Tells options.now.report options.now.listing campaigns rows text
        × Appends (W.contents writer.old) (W.contents writer.new) text) }
    ensures silent { IfErr result (λ b. b.error ≢ StatusError.Output → Keeps (W.contents writer.old) (W.contents writer.new)) }
    ensures reason { IfErr result (λ b. SaysWhy b.error b.reason) }
{
    let bytes = bytes_of_book(rt, alloc, options.book)?;
    match tell_status(rt, alloc, writer, &bytes, options.report, options.listing) {
        Ok(()) => Ok(()),
        Err(error) => Err(Because::from(error)),
    }
}

/// Writes what the book tells that these bytes hold.
fn tell_status<F: Eprint, W: Write>(
    rt: &F,
    alloc: Global,
    writer: &mut W,
    bytes: &[u8],
    report: StatusForm,
    listing: Listing,
) -> Result<(), StatusError>
    ensures ok { OnOk result ((campaigns : List CampaignStatus) × (rows : List Noted) × HasStatus bytes.now campaigns rows
        × (text : List ℕ) × Tells report listing campaigns rows text
        × Appends (W.contents writer.old) (W.contents writer.new) text) }
    ensures silent { IfErr result (λ e. e ≢ StatusError.Output → Keeps (W.contents writer.old) (W.contents writer.new)) }
    ensures reason { IfErr result (λ e. SaysWhy e None) }
{
    let Reading {
        campaigns,
        rows,
        untaken,
    } = reading_of(alloc, bytes)?;
    if untaken > 0 {
        tell_untaken(rt, alloc, untaken);
    }
    let mut text = String::new(alloc);
    append_status(alloc, &mut text, report, listing, &campaigns, &rows)?;
    write_text(writer, text.as_str()).map_err(|_| StatusError::Output)
}

/// Tells standard error of records that the book lacks. A line that can't be written is lost.
fn tell_untaken<F: Eprint>(rt: &F, alloc: Global, records: usize) {
    if let Ok(line) = untaken_line(alloc, records) {
        let line = line.as_str();
        let _ = eprint!(rt; "{line}");
    }
}

/// All bytes of the file of a book.
pub(crate) fn bytes_of_book<F: Files<File = File>>(
    rt: &F,
    alloc: Global,
    path: &str,
) -> Result<Vec<u8>, Because<StatusError>>
    ensures { IfErr result (λ b. SaysWhy b.error b.reason) }
{
    let mut file = match File::open(rt, path) {
        Ok(file) => file,
        Err(error) => return Err(refused(error)),
    };
    let mut bytes = Vec::new(alloc);
    match file.read_to_end(&mut bytes) {
        Ok(_) => Ok(bytes),
        Err(error) => Err(refused(error)),
    }
}

/// Why the file of a book can't be opened or read.
fn refused(error: io::Error) -> Because<StatusError>
    ensures { SaysWhy result.error result.reason }
{
    if error.kind() == ErrorKind::OutOfMemory {
        return Because::from(StatusError::OutOfMemory);
    }
    match Cause::from(error) {
        Cause::Missing => Because::of(StatusError::NoBook, Cause::Missing.at(Name::Main)),
        cause => Because::of(StatusError::BookFault, cause.at(Name::Main)),
    }
}

/// What the book tells that these bytes hold.
fn reading_of(alloc: Global, bytes: &[u8]) -> Result<Reading, StatusError>
    ensures status { IfOk result (λ r. HasStatus bytes.now r.campaigns.items r.rows.items) }
    ensures untaken { IfOk result (λ r. (rest : List ℕ) × Drops bytes.now rest r.untaken) }
    ensures reason { IfErr result (λ e. SaysWhy e None) }
{
    let mut campaigns = Vec::new(alloc);
    let mut rows = Vec::new(alloc);
    let (book, notes, untaken) = read_kept(alloc, bytes)?;
    let Some(book) = book else {
        return Ok(Reading {
            campaigns,
            rows,
            untaken,
        });
    };
    push_campaigns(&mut campaigns, &book, &notes)?;
    push_noted(&mut rows, &book, &notes)?;
    Ok(Reading {
        campaigns,
        rows,
        untaken,
    })
}
