//! The command `audit`: whether what is found of meters is what meters do.

ghost use Rattle.std.specs.Prelude.{◌≡◌, [], false, IfOk, OnOk};
ghost use Rattle.std.specs.List.{AllZip};
ghost use Rattle.std.specs.Vec.{vec_len};
ghost use Rattle.fw_auditor.specs.Fitting.{AllFit};
ghost use Rattle.fw_auditor.specs.Keyed.{IsKeyFileOf};
ghost use Rattle.fw_auditor.specs.Private.{Counts, CountsFound, FitsAs, FleetFits, IsFoundSomehow, IsReadingOf};

use crate::books::{books_in, tell_rows};
use crate::error::Unaudited;
use crate::field::tell_field;
use crate::files::{AuditFault, FoundStores, StoreFiles, bytes_of, found_stores, journal_path};
use crate::keys::keyed_heads;
use crate::lines::{AuditForm, append_end, append_file, write_text};
use crate::list::{Subject, subjects_in};
use crate::options::AuditOptions;
use crate::readings::{Reading, reading_of};
use crate::verdict::{Given, Verdict, append_judged};
use fw_fleet_audit::AuditedMeter;
use std::alloc::{AllocError, Global};
use std::fs::File;
use std::io::Write;
use std::rt::Files;

/// The image that a meter that began new ran if none is given.
const DEFAULT_FACTORY: &[u8] = b"abc";

/// What an audit found.
#[derive(Clone, Copy, Debug, PartialEq, Eq)]
pub enum AuditEnd {
    /// All that was found fits.
    Fits,
    /// Something doesn't, and a line says so.
    Departs,
}

/// What was found of meters.
#[derive(Drop)]
struct Tally {
    /// What the rows of books are compared with: each meter whose capture and store fit.
    meters: Vec<AuditedMeter>,
    /// How many meters don't fit.
    departed: u64,
}

impl Tally {
    /// No meter.
    fn new(alloc: Global) -> Tally
        ensures meters { result.meters.items ≡ [] }
        ensures departed { result.departed ≡ 0 }
    {
        Tally {
            meters: Vec::new(alloc),
            departed: 0,
        }
    }

    /// Counts a meter of which this is said. After an error it is unspecified.
    fn count(&mut self, verdict: Verdict<'_>) -> Result<(), AllocError>
        ensures { OnOk result (Counts self.old verdict.entry self.new) }
    {
        match verdict {
            Verdict::Fits(meter, _log) => {
                self.meters.push(meter)?;
                Ok(())
            }
            Verdict::NotOffered(meter, _log) => {
                self.departed = self.departed.saturating_add(1);
                self.meters.push(meter)?;
                Ok(())
            }
            Verdict::Unfit => {
                self.departed = self.departed.saturating_add(1);
                Ok(())
            }
        }
    }
}

/// Audits each meter of a list by its capture, its store and the one that it began from, and with books what each of them switched to and the
/// rows of these that are done. With the captures of head ends it also audits what each of these sent, and whether its book's done rows were
/// claimed to it, and whether all that came to an end was sent before by the end whose address it shows. Files are read alone: none is locked,
/// made or written, and what a power cut left of a store is put right in memory.
///
/// The writer gets a line for each file with its SHA-256, and one for a capture of which what a write left that was cut short is left out. For
/// each meter it gets one that says that its capture and its store fit, with one for each image that it switched to, or one that says what
/// doesn't; with books one for a switch that they don't offer, and then one for each book that has a row done which no meter bears out. With
/// head ends there follow the lines of each, and that of the order of all, or of where there is none. The last line says whether all fits. The
/// lines of an end are flushed together.
///
/// A meter with which a key file has a link is audited by what its capture says in plain words under the links of these files.
///
/// With head ends all captures are in memory at once, each file once, and else that of one meter.
///
/// # Errors
///
/// With a file that can't be read stand its path and why, if that is known. The meters before the one whose file it is were told, but for a
/// capture if there are head ends.
///
/// - `ListFault`: the list can't be read, or is no text. `BadList`: this line is none of it.
/// - `BookFault`: the file of a book can't be read. `BadBook`, `BadRecord`: it holds no book.
/// - `CaptureFault`, `StoreFault`, `FactoryFault`: the file of a capture, of a store or of the factory image can't be read.
/// - `KeysFault`, `KeysReadable`, `BadKeys`: a key file can't be read, others may read it, or this line is none of it; or there are both key files and
///   head ends.
/// - `BadSetup`: the options describe no meter.
/// - `Output`: the writer failed. What it holds then is unspecified.
/// - `OutOfMemory`.
pub fn run_audit<F: Files<File = File>, W: Write>(
    rt: &F,
    alloc: Global,
    writer: &mut W,
    options: &AuditOptions<'_>,
) -> Result<AuditEnd, AuditFault>
    // Of the files nothing is known here, so what they hold is some.
    ensures { IfOk result (λ end. end ≡ AuditEnd.Fits → AllFit options.now) }
{
    let list = bytes_of(rt, alloc, options.audited, Unaudited::ListFault)?;
    let subjects = subjects_in(alloc, &list)?;
    let factory = factory_of(rt, alloc, options.fresh.factory_file)?;
    let books = books_in(rt, alloc, writer, options)?;
    let keys = keyed_heads(rt, alloc, &options.keys)?;
    let given = Given {
        options,
        subjects,
        factory,
        books,
        keys,
    };
    let departed = tell_all(rt, alloc, writer, &given)?;
    tell_end(alloc, writer, options.report, departed)
}

/// Audits all that is given, and writes the lines. It returns how many don't fit.
fn tell_all<F: Files<File = File>, W: Write>(
    rt: &F,
    alloc: Global,
    writer: &mut W,
    given: &Given<'_, '_>,
) -> Result<u64, AuditFault>
    requires { AllZip IsKeyFileOf given.now.options.now.keys.items given.now.keys.items }
    ensures { IfOk result (λ departed. departed ≡ 0 → AllFit given.now.options.now) }
{
    fw_fleet_audit::laws::headline_by_looking();
    if has_heads(given.options) {
        return tell_field(rt, alloc, writer, given);
    }
    tell_fleet(rt, alloc, writer, given)
}

/// Whether there are head ends to be audited.
fn has_heads(options: &AuditOptions<'_>) -> bool
    ensures { result ≡ false → vec_len options.now.head_logs ≡ 0 }
{
    !options.head_logs.is_empty()
}

/// Audits all meters, and the rows of books by these, and writes their lines. It returns how many of both don't fit.
fn tell_fleet<F: Files<File = File>, W: Write>(
    rt: &F,
    alloc: Global,
    writer: &mut W,
    given: &Given<'_, '_>,
) -> Result<u64, AuditFault>
    ensures { IfOk result (λ departed. departed ≡ 0 → FleetFits given.now) }
{
    let found = tell_meters(rt, alloc, writer, given, &given.subjects)?;
    let rows = tell_rows(
        alloc,
        writer,
        given.options.report,
        &given.books.paths,
        &given.books.books,
        &found.meters,
    )?;
    Ok(found.departed.saturating_add(rows))
}

/// Writes the last line.
fn tell_end<W: Write>(
    alloc: Global,
    writer: &mut W,
    report: AuditForm,
    departed: u64,
) -> Result<AuditEnd, AuditFault>
    ensures { IfOk result (λ end. end ≡ AuditEnd.Fits → departed ≡ 0) }
{
    let mut text = String::new(alloc);
    append_end(alloc, &mut text, report, departed)?;
    write_text(writer, text.as_str())?;
    if departed == 0 {
        Ok(AuditEnd::Fits)
    } else {
        Ok(AuditEnd::Departs)
    }
}

/// The image that a meter that began new ran.
fn factory_of<F: Files<File = File>>(
    rt: &F,
    alloc: Global,
    path: Option<&str>,
) -> Result<Vec<u8>, AuditFault> {
    match path {
        Some(path) => bytes_of(rt, alloc, path, Unaudited::FactoryFault),
        None => Ok(Vec::from_slice(alloc, DEFAULT_FACTORY)?),
    }
}

/// Audits these meters, and writes their lines. The capture of each is let go before the next one is read.
fn tell_meters<F: Files<File = File>, W: Write>(
    rt: &F,
    alloc: Global,
    writer: &mut W,
    given: &Given<'_, '_>,
    subjects: &[Subject<'_>],
) -> Result<Tally, AuditFault>
    ensures { IfOk result (λ tally. tally.departed ≡ 0 → AllZip (FitsAs given.now) subjects.now tally.meters.items) }
{
    let mut tally = Tally::new(alloc);
    for at in 0..subjects.len() {
        count_meter(rt, alloc, writer, given, &subjects[at], &mut tally)?;
    }
    Ok(tally)
}

/// Audits a meter, writes its lines and counts it. After an error the tally is unspecified.
fn count_meter<F: Files<File = File>, W: Write>(
    rt: &F,
    alloc: Global,
    writer: &mut W,
    given: &Given<'_, '_>,
    subject: &Subject<'_>,
    tally: &mut Tally,
) -> Result<(), AuditFault>
    ensures { OnOk result (CountsFound given.now subject.now tally.old tally.new) }
{
    let capture = bytes_of(rt, alloc, subject.capture, Unaudited::CaptureFault)?;
    let reading = reading_of(alloc, given, subject, &capture)?;
    let verdict = tell_meter(rt, alloc, writer, given, subject, &capture, &reading)?;
    tally.count(verdict)?;
    Ok(())
}

/// Audits a meter with this capture, and writes its lines.
pub(crate) fn tell_meter<'c, F: Files<File = File>, W: Write>(
    rt: &F,
    alloc: Global,
    writer: &mut W,
    given: &Given<'_, '_>,
    subject: &Subject<'_>,
    capture: &'c [u8],
    reading: &'c Option<Reading>,
) -> Result<Verdict<'c>, AuditFault>
    requires { IsReadingOf given.now subject.now capture.now reading.now }
    ensures { IfOk result (IsFoundSomehow given.now subject.now capture.now) }
{
    let stores = found_stores(rt, alloc, subject)?;
    let mut text = String::new(alloc);
    append_files(
        alloc,
        &mut text,
        given.options.report,
        subject,
        capture,
        &stores,
    )?;
    let verdict = append_judged(alloc, &mut text, given, subject, stores, capture, reading)?;
    write_text(writer, text.as_str())?;
    Ok(verdict)
}

/// Appends the lines of the files of a meter.
fn append_files(
    alloc: Global,
    text: &mut String,
    form: AuditForm,
    subject: &Subject<'_>,
    capture: &[u8],
    stores: &FoundStores,
) -> Result<(), AllocError> {
    append_file(alloc, text, form, "capture", subject.capture, capture)?;
    match (subject.began, &stores.began) {
        (Some(path), Some(began)) => append_store(alloc, text, form, path, began)?,
        _ => {}
    }
    append_store(alloc, text, form, subject.store, &stores.last)
}

/// Appends the lines of a store and of the undo file beside it, if one is there.
fn append_store(
    alloc: Global,
    text: &mut String,
    form: AuditForm,
    path: &str,
    files: &StoreFiles,
) -> Result<(), AllocError> {
    append_file(alloc, text, form, "store", path, &files.store)?;
    match &files.journal {
        Some(journal) => {
            let beside = journal_path(alloc, path)?;
            append_file(alloc, text, form, "journal", beside.as_str(), journal)
        }
        None => Ok(()),
    }
}
