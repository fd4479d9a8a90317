//! The audit of meters and of the head ends that asked them. All captures stay in memory until it is known whether they agree.

ghost use Rattle.std.specs.Prelude.{◌≡◌, ◌++◌, [], ◌∷◌, ℕ, IfOk, IsTrue, None, OnOk};
ghost use Rattle.fw_audit.specs.Log.{log_of};
ghost use Rattle.fw_auditor.specs.Keyed.{HasNoLink};
ghost use Rattle.fw_auditor.specs.Private.{AreFound, CountsEnd, CountsKept, FieldFits, end_with, ends_in};

use crate::audit::tell_meter;
use crate::books::{departed_with, tell_rows};
use crate::captures::{Captures, captures_in};
use crate::ends::{Ended, tell_order};
use crate::error::Unaudited;
use crate::files::AuditFault;
use crate::heads::tell_heads;
use crate::lines::Whose;
use crate::list::Subject;
use crate::readings::Reading;
use crate::verdict::{Given, Verdict, log_of_unfit};
use fw_evidence::Log;
use fw_fleet_audit::AuditedMeter;
use std::alloc::{AllocError, Global};
use std::fs::File;
use std::io::Write;
use std::rt::Files;

/// What is found of meters.
#[derive(Drop)]
struct Meters<'c> {
    /// What the rows of books are compared with: each meter whose capture and store fit.
    audited: Vec<AuditedMeter>,
    /// Those whose captures are logs.
    ends: Vec<Ended<'c>>,
    /// How many don't fit.
    departed: u64,
}

impl<'c> Meters<'c> {
    /// None.
    fn new(alloc: Global) -> Meters<'c>
        ensures audited { result.audited.items ≡ [] }
        ensures ends { result.ends.items ≡ [] }
        ensures departed { result.departed ≡ 0 }
    {
        Meters {
            audited: Vec::new(alloc),
            ends: Vec::new(alloc),
            departed: 0,
        }
    }

    /// Counts a meter of which this is said, and keeps its log. After an error it is unspecified.
    fn count(
        &mut self,
        alloc: Global,
        given: &Given<'_, '_>,
        subject: &Subject<'c>,
        capture: &'c [u8],
        verdict: Verdict<'c>,
    ) -> Result<(), AllocError>
        ensures { OnOk result (CountsEnd subject.now self.old verdict.entry self.new) }
    {
        match verdict {
            Verdict::Fits(meter, log) => self.add(subject, meter, log),
            Verdict::NotOffered(meter, log) => {
                self.departed = self.departed.saturating_add(1);
                self.add(subject, meter, log)
            }
            Verdict::Unfit => {
                self.departed = self.departed.saturating_add(1);
                match log_of_unfit(alloc, given, subject, capture)? {
                    Some(log) => self.add_end(subject, log),
                    None => Ok(()),
                }
            }
        }
    }

    /// Adds a meter whose capture and store fit. After an error it is unspecified.
    fn add(
        &mut self,
        subject: &Subject<'c>,
        meter: AuditedMeter,
        log: Log<'c>,
    ) -> Result<(), AllocError>
        ensures audited { OnOk result (self.new.audited.items ≡ self.old.audited.items ++ meter ∷ []) }
        ensures ends { OnOk result (ends_in self.new.ends.items ≡ ends_in self.old.ends.items ++ end_with subject.now.address (log_of log.entry.items.items) ∷ []) }
        ensures departed { self.new.departed ≡ self.old.departed }
    {
        self.audited.push(meter)?;
        self.add_end(subject, log)
    }

    /// Adds the log of a meter. After an error it is unspecified.
    fn add_end(&mut self, subject: &Subject<'c>, log: Log<'c>) -> Result<(), AllocError>
        ensures audited { self.new.audited.items ≡ self.old.audited.items }
        ensures ends { OnOk result (ends_in self.new.ends.items ≡ ends_in self.old.ends.items ++ end_with subject.now.address (log_of log.entry.items.items) ∷ []) }
        ensures departed { self.new.departed ≡ self.old.departed }
    {
        self.ends.push(Ended {
            at: subject.address,
            whose: Whose::Meter(subject.meter),
            path: subject.capture,
            log,
        })?;
        Ok(())
    }
}

/// Audits all meters and the rows of books by these, then the head ends of the options, and last whether the logs of all agree, and writes
/// their lines. It returns how many of these don't fit.
pub(crate) fn tell_field<F: Files<File = File>, W: Write>(
    rt: &F,
    alloc: Global,
    writer: &mut W,
    given: &Given<'_, '_>,
) -> Result<u64, AuditFault>
    ensures { IfOk result (λ departed. departed ≡ 0 → FieldFits given.now) }
{
    let form = given.options.report;
    if !has_no_keys(given) {
        return Err(AuditFault::from(Unaudited::KeysFault));
    }
    let captures = captures_in(rt, alloc, given)?;
    let plain = None;
    let found = tell_meters(rt, alloc, writer, given, &given.subjects, &captures, &plain)?;
    let rows = tell_rows(
        alloc,
        writer,
        form,
        &given.books.paths,
        &given.books.books,
        &found.audited,
    )?;
    let heads = tell_heads(alloc, writer, given, &captures)?;
    let agree = tell_order(alloc, writer, form, &found.ends, &heads.ends)?;
    let of_books = both(found.departed, rows);
    let of_ends = both(heads.departed, departed_with(0, agree));
    Ok(both(of_books, of_ends))
}

/// Whether no key file is given.
fn has_no_keys(given: &Given<'_, '_>) -> bool
    ensures { IsTrue result → (meter : ℕ) → HasNoLink given.now.keys.items meter }
{
    given.keys.is_empty()
}

/// How many departed of both.
fn both(some: u64, others: u64) -> u64
    ensures some { result ≡ 0 → some ≡ 0 }
    ensures others { result ≡ 0 → others ≡ 0 }
{
    some.saturating_add(others)
}

/// Audits these meters by these captures, and writes their lines.
fn tell_meters<'c, F: Files<File = File>, W: Write>(
    rt: &F,
    alloc: Global,
    writer: &mut W,
    given: &Given<'_, '_>,
    subjects: &[Subject<'c>],
    captures: &'c Captures<'_>,
    plain: &'c Option<Reading>,
) -> Result<Meters<'c>, AuditFault>
    requires keys { (meter : ℕ) → HasNoLink given.now.keys.items meter }
    requires plain { plain.now ≡ None }
    ensures { IfOk result (λ found. found.departed ≡ 0 → AreFound given.now subjects.now found.audited.items (ends_in found.ends.items)) }
{
    let mut found = Meters::new(alloc);
    for at in 0..subjects.len() {
        count_meter(
            rt,
            alloc,
            writer,
            given,
            &subjects[at],
            captures,
            plain,
            &mut found,
        )?;
    }
    Ok(found)
}

/// Audits a meter by its capture among these, writes its lines and counts it. After an error the others are unspecified.
fn count_meter<'c, F: Files<File = File>, W: Write>(
    rt: &F,
    alloc: Global,
    writer: &mut W,
    given: &Given<'_, '_>,
    subject: &Subject<'c>,
    captures: &'c Captures<'_>,
    plain: &'c Option<Reading>,
    found: &mut Meters<'c>,
) -> Result<(), AuditFault>
    requires keys { (meter : ℕ) → HasNoLink given.now.keys.items meter }
    requires plain { plain.now ≡ None }
    ensures { OnOk result (CountsKept given.now subject.now found.old found.new) }
{
    let Some(capture) = captures.at_path(subject.capture) else {
        return Err(AuditFault::from(Unaudited::CaptureFault));
    };
    let verdict = tell_meter(rt, alloc, writer, given, subject, capture, plain)?;
    found.count(alloc, given, subject, capture, verdict)?;
    Ok(())
}
