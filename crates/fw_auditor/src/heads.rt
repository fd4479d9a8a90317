//! What is said of a head end by what its capture and its book hold.

ghost use Rattle.std.specs.Prelude.{◌≡◌, ◌++◌, [], ◌∷◌, IfOk, OnOk, map};
ghost use Rattle.std.specs.List.{AllZip};
ghost use Rattle.fw_audit.specs.Log.{log_of};
ghost use Rattle.fw_auditor.specs.Fitting.{IsHeadTold};
ghost use Rattle.fw_auditor.specs.Private.{CountsHead, FitsBook, FitsBooks, FitsHead, asked_at, end_with, ends_in};

use crate::books::book_at;
use crate::captures::Captures;
use crate::ends::Ended;
use crate::error::Unaudited;
use crate::files::AuditFault;
use crate::lines::{
    AuditForm, ToldRow, Whose, append_file, append_head, append_misfit, append_record, append_row,
    write_text,
};
use crate::list::Subject;
use crate::options::HeadLog;
use crate::verdict::{Given, append_no_log, append_rest, whole_part};
use fw_book::Book;
use fw_evidence::{Log, read_head_log};
use fw_head_audit::{AskedMeter, HeadAuditError, UnclaimedRow, audit_head};
use std::alloc::{AllocError, Global};
use std::io::Write;

/// What is said of a head end. Its log stands with it.
#[derive(Drop)]
pub(crate) enum HeadVerdict<'c> {
    /// Its book offers what it sent, and the done rows of that were claimed.
    Fits(Log<'c>),
    /// Something of it doesn't fit. Its capture may be no log.
    Departs(Option<Log<'c>>),
}

/// What is found of head ends.
#[derive(Drop)]
pub(crate) struct Heads<'c> {
    /// Those whose captures are logs.
    pub(crate) ends: Vec<Ended<'c>>,
    /// How many don't fit.
    pub(crate) departed: u64,
}

impl<'c> Heads<'c> {
    /// None.
    fn new(alloc: Global) -> Heads<'c>
        ensures ends { result.ends.items ≡ [] }
        ensures departed { result.departed ≡ 0 }
    {
        Heads {
            ends: Vec::new(alloc),
            departed: 0,
        }
    }

    /// Counts a head end of this number of which this is said. After an error it is unspecified.
    fn count(
        &mut self,
        head: &HeadLog<'c>,
        number: u32,
        verdict: HeadVerdict<'c>,
    ) -> Result<(), AllocError>
        ensures { OnOk result (CountsHead head.now self.old verdict.entry self.new) }
    {
        match verdict {
            HeadVerdict::Fits(log) => self.add(head, number, log),
            HeadVerdict::Departs(log) => {
                self.departed = self.departed.saturating_add(1);
                match log {
                    Some(log) => self.add(head, number, log),
                    None => Ok(()),
                }
            }
        }
    }

    /// Adds the log of a head end of this number. After an error it is unspecified.
    fn add(&mut self, head: &HeadLog<'c>, number: u32, log: Log<'c>) -> Result<(), AllocError>
        ensures ends { OnOk result (ends_in self.new.ends.items ≡ ends_in self.old.ends.items ++ end_with head.now.address (log_of log.entry.items.items) ∷ []) }
        ensures departed { self.new.departed ≡ self.old.departed }
    {
        self.ends.push(Ended {
            at: head.address,
            whose: Whose::Head(number),
            path: head.capture,
            log,
        })?;
        Ok(())
    }
}

/// Audits the head ends of the options by these captures, and writes their lines.
pub(crate) fn tell_heads<'c, W: Write>(
    alloc: Global,
    writer: &mut W,
    given: &'c Given<'_, '_>,
    captures: &'c Captures<'_>,
) -> Result<Heads<'c>, AuditFault>
    ensures { IfOk result (λ heads. heads.departed ≡ 0
        → AllZip (IsHeadTold (map asked_at given.now.subjects.items) given.now.books.books.items) given.now.options.now.head_logs.items (ends_in heads.ends.items)) }
{
    let asked = asked_of(alloc, &given.subjects)?;
    tell_each(
        alloc,
        writer,
        given,
        &asked,
        &given.options.head_logs,
        captures,
    )
}

/// Each meter, and the address at which it is asked.
fn asked_of(alloc: Global, subjects: &[Subject<'_>]) -> Result<Vec<AskedMeter>, AllocError>
    ensures { IfOk result (λ asked. asked.items ≡ map asked_at subjects.now) }
{
    let mut asked = Vec::new(alloc);
    for subject in subjects {
        asked.push(AskedMeter {
            meter: subject.meter,
            at: subject.address,
        })?;
    }
    Ok(asked)
}

/// Audits these head ends with the meters that may be asked.
fn tell_each<'c, W: Write>(
    alloc: Global,
    writer: &mut W,
    given: &Given<'_, '_>,
    asked: &[AskedMeter],
    logs: &[HeadLog<'c>],
    captures: &'c Captures<'_>,
) -> Result<Heads<'c>, AuditFault>
    ensures { IfOk result (λ heads. heads.departed ≡ 0
        → AllZip (IsHeadTold asked.now given.now.books.books.items) logs.now (ends_in heads.ends.items)) }
{
    let mut heads = Heads::new(alloc);
    for at in 0..logs.len() {
        let head = &logs[at];
        let Some(capture) = captures.at_path(head.capture) else {
            return Err(AuditFault::from(Unaudited::CaptureFault));
        };
        let verdict = tell_head(alloc, writer, given, asked, head, capture)?;
        heads.count(head, number_of(given, head), verdict)?;
    }
    Ok(heads)
}

/// The number of a head end, and 0 if its book has no record.
fn number_of(given: &Given<'_, '_>, head: &HeadLog<'_>) -> u32 {
    match book_at(&given.books.books, &given.books.paths, head.book) {
        Some(book) => book.head().number(),
        None => 0,
    }
}

/// Audits a head end with this capture, and writes its lines.
fn tell_head<'c, W: Write>(
    alloc: Global,
    writer: &mut W,
    given: &Given<'_, '_>,
    asked: &[AskedMeter],
    head: &HeadLog<'_>,
    capture: &'c [u8],
) -> Result<HeadVerdict<'c>, AuditFault>
    ensures { IfOk result (FitsHead asked.now given.now.books.books.items head.now) }
{
    let mut text = String::new(alloc);
    let form = given.options.report;
    append_file(alloc, &mut text, form, "capture", head.capture, capture)?;
    let verdict = append_judged(alloc, &mut text, given, asked, head, capture)?;
    write_text(writer, text.as_str())?;
    Ok(verdict)
}

/// Appends what an audit says of a head end by what its capture holds.
fn append_judged<'c>(
    alloc: Global,
    text: &mut String,
    given: &Given<'_, '_>,
    asked: &[AskedMeter],
    head: &HeadLog<'_>,
    capture: &'c [u8],
) -> Result<HeadVerdict<'c>, AllocError>
    ensures { IfOk result (FitsHead asked.now given.now.books.books.items head.now) }
{
    let form = given.options.report;
    let whole = whole_part(alloc, capture);
    append_rest(alloc, text, form, head.capture, capture, whole)?;
    match read_head_log(alloc, head.address, whole) {
        Ok(log) => append_by_books(alloc, text, given, asked, head, log),
        Err(error) => {
            let whose = Whose::Head(number_of(given, head));
            append_no_log(alloc, text, form, head.capture, whose, error)?;
            Ok(HeadVerdict::Departs(None))
        }
    }
}

/// Appends what an audit says of a head end by its log and its book among these.
fn append_by_books<'c>(
    alloc: Global,
    text: &mut String,
    given: &Given<'_, '_>,
    asked: &[AskedMeter],
    head: &HeadLog<'_>,
    log: Log<'c>,
) -> Result<HeadVerdict<'c>, AllocError>
    ensures { IfOk result (FitsBooks asked.now given.now.books.books.items log.entry) }
{
    let form = given.options.report;
    match book_at(&given.books.books, &given.books.paths, head.book) {
        Some(book) => append_by_book(alloc, text, form, asked, head, book, log),
        None => {
            append_misfit(alloc, text, form, "NoBook", head.book, "it has no record")?;
            Ok(HeadVerdict::Departs(Some(log)))
        }
    }
}

/// Appends what an audit says of a head end by its log and its book.
fn append_by_book<'c>(
    alloc: Global,
    text: &mut String,
    form: AuditForm,
    asked: &[AskedMeter],
    head: &HeadLog<'_>,
    book: &Book,
    log: Log<'c>,
) -> Result<HeadVerdict<'c>, AllocError>
    ensures { IfOk result (FitsBook book.now asked.now log.entry) }
{
    match audit_head(alloc, book, asked, &log.items) {
        Ok(()) => {
            append_head(alloc, text, form, book.head(), &log.items)?;
            Ok(HeadVerdict::Fits(log))
        }
        Err(error) => {
            let whose = Whose::Head(book.head().number());
            append_departure(alloc, text, form, head, whose, &log, error)?;
            Ok(HeadVerdict::Departs(Some(log)))
        }
    }
}

/// Appends the line of what doesn't fit of a head end with this log.
fn append_departure(
    alloc: Global,
    text: &mut String,
    form: AuditForm,
    head: &HeadLog<'_>,
    whose: Whose,
    log: &Log<'_>,
    error: HeadAuditError,
) -> Result<(), AllocError> {
    match error {
        HeadAuditError::NotOffered { at } => match log.marks.get(at) {
            Some(mark) => {
                let why = "its book doesn't offer that to a meter at this address";
                append_record(
                    alloc,
                    text,
                    form,
                    "NotOffered",
                    head.capture,
                    whose,
                    *mark,
                    why,
                )
            }
            None => Ok(()),
        },
        HeadAuditError::NotClaimed(UnclaimedRow { campaign, meter }) => {
            let row = ToldRow { campaign, meter };
            let why = "nothing came from its meter that claims so";
            append_row(alloc, text, form, "NotClaimed", head.book, row, why)
        }
        HeadAuditError::OutOfMemory => Err(AllocError),
    }
}
