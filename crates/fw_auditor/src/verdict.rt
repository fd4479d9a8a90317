//! What is said of a meter by what its files hold.

ghost use Rattle.std.specs.Prelude.{◌≡◌, ◌+◌, ◌++◌, IfOk, IsTrue, OnOk, option_to_list};
ghost use Rattle.std.specs.Vec.{vec_len};
ghost use Rattle.fw_auditor.specs.Fitting.{IsWholePart};
ghost use Rattle.fw_auditor.specs.Keyed.{HasNoLink};
ghost use Rattle.fw_auditor.specs.Private.{AreCompared, BeginsAs, HasFit, Holds, IsCompared, IsFound, IsOpenedAs, IsReadingOf, beside, others_of};

use crate::books::Books;
use crate::error::Unaudited;
use crate::files::{AuditFault, FoundStores, StoreFiles};
use crate::keys::KeyedHead;
use crate::lines::{
    AuditForm, Whose, append_cut, append_fault, append_fits, append_misfit, append_passed,
    append_record, append_switch, rule_name, rule_why, stray_name, stray_why, unsealed_name,
    unsealed_why,
};
use crate::list::Subject;
use crate::options::{AuditOptions, FreshMeter};
use crate::readings::Reading;
use fw_audit::Switched;
use fw_capture::whole_len;
use fw_evidence::{
    Audited, EvidenceError, Log, LogError, OpenedLog, SealedLogError, Side, Site, StoreRefusal,
    audit_capture, audit_opened, meter_at_rest, new_meter, read_log,
};
use fw_fleet_audit::{AuditedMeter, audit_switches};
use fw_meter::MeterCore;
use fw_store::{MemoryStore, SetupError};
use std::alloc::{AllocError, Global};
use std::net::SocketAddr;

/// What meters are audited with.
#[derive(Drop)]
pub(crate) struct Given<'o, 'a> {
    pub(crate) options: &'o AuditOptions<'a>,
    /// These meters.
    pub(crate) subjects: Vec<Subject<'o>>,
    /// The image that meters that began new ran.
    pub(crate) factory: Vec<u8>,
    pub(crate) books: Books<'a>,
    /// The key files of head ends.
    pub(crate) keys: Vec<KeyedHead>,
}

/// What is said of a meter. What rows of books are compared with stands with it, and its log.
#[derive(Drop)]
pub(crate) enum Verdict<'c> {
    /// All fits.
    Fits(AuditedMeter, Log<'c>),
    /// Its capture and its store fit, and books don't offer what it switched to.
    NotOffered(AuditedMeter, Log<'c>),
    /// Its capture or its store doesn't fit.
    Unfit,
}

/// Appends what an audit says of a meter by what its stores and its capture hold.
pub(crate) fn append_judged<'c>(
    alloc: Global,
    text: &mut String,
    given: &Given<'_, '_>,
    subject: &Subject<'_>,
    stores: FoundStores,
    capture: &'c [u8],
    reading: &'c Option<Reading>,
) -> Result<Verdict<'c>, AuditFault>
    requires { IsReadingOf given.now subject.now capture.now reading.now }
    ensures { IfOk result (IsFound given.now subject.now stores capture.now) }
{
    let form = given.options.report;
    let FoundStores { last, began } = stores;
    let begin = match begin_of(alloc, &given.options.fresh, &given.factory, began) {
        Ok(begin) => begin,
        Err(NoMeter::BadSetup) => return Err(AuditFault::from(Unaudited::BadSetup)),
        Err(NoMeter::Refused(refusal)) => {
            let path = subject.began.unwrap_or("");
            append_refusal(alloc, text, form, path, refusal)?;
            return Ok(Verdict::Unfit);
        }
    };
    match meter_in(alloc, last) {
        Ok(end) => Ok(append_audited(alloc, text, given, subject, begin, capture, reading, &end)?),
        Err(refusal) => {
            append_refusal(alloc, text, form, subject.store, refusal)?;
            Ok(Verdict::Unfit)
        }
    }
}

/// Appends what an audit says of a meter that was `begin`, and is `end`.
fn append_audited<'c>(
    alloc: Global,
    text: &mut String,
    given: &Given<'_, '_>,
    subject: &Subject<'_>,
    begin: MeterCore<MemoryStore>,
    capture: &'c [u8],
    reading: &'c Option<Reading>,
    end: &MeterCore<MemoryStore>,
) -> Result<Verdict<'c>, AllocError>
    requires { IsReadingOf given.now subject.now capture.now reading.now }
    ensures { IfOk result (HasFit given.now subject.now begin.meter capture.now end.now.meter) }
{
    match reading {
        None => append_plain(alloc, text, given, subject, begin, capture, end),
        Some(Reading::Opened(log)) => append_opened(
            alloc, text, given, subject, begin, capture, log, end,
        ),
        Some(Reading::Unopened(error)) => {
            append_unopened(alloc, text, given.options.report, subject, capture, *error)?;
            Ok(Verdict::Unfit)
        }
    }
}

/// The same of a meter whose capture is plain.
fn append_plain<'c>(
    alloc: Global,
    text: &mut String,
    given: &Given<'_, '_>,
    subject: &Subject<'_>,
    begin: MeterCore<MemoryStore>,
    capture: &'c [u8],
    end: &MeterCore<MemoryStore>,
) -> Result<Verdict<'c>, AllocError>
    requires { HasNoLink given.now.keys.items subject.now.meter }
    ensures { IfOk result (HasFit given.now subject.now begin.meter capture.now end.now.meter) }
{
    let form = given.options.report;
    let whole = whole_part(alloc, capture);
    append_rest(alloc, text, form, subject.capture, capture, whole)?;
    let others = others_of(alloc, &given.subjects, subject)?;
    let site = Site {
        side: Side::Meter,
        at: subject.address,
        others: &others,
        heads: &given.options.heads,
    };
    match audit_capture(alloc, site, begin, whole, end) {
        Ok(found) => append_fitting(alloc, text, given, subject, found),
        Err(error) => {
            append_departure(alloc, text, form, subject, error)?;
            Ok(Verdict::Unfit)
        }
    }
}

/// The same of a meter by its log in plain words, as its capture has it. The line of what that log passes over comes first.
fn append_opened<'c>(
    alloc: Global,
    text: &mut String,
    given: &Given<'_, '_>,
    subject: &Subject<'_>,
    begin: MeterCore<MemoryStore>,
    capture: &[u8],
    log: &'c OpenedLog,
    end: &MeterCore<MemoryStore>,
) -> Result<Verdict<'c>, AllocError>
    requires { IsOpenedAs given.now subject.now capture.now log.now }
    ensures { IfOk result (HasFit given.now subject.now begin.meter capture.now end.now.meter) }
{
    let form = given.options.report;
    append_rest(
        alloc,
        text,
        form,
        subject.capture,
        capture,
        whole_part(alloc, capture),
    )?;
    append_passed(alloc, text, form, subject.capture, log.count_of_passed())?;
    match audit_opened(alloc, &given.options.heads, begin, log, end) {
        Ok(found) => append_fitting(alloc, text, given, subject, found),
        Err(error) => {
            append_departure(alloc, text, form, subject, error)?;
            Ok(Verdict::Unfit)
        }
    }
}

/// Appends the line of a sealed capture that is no log in plain words.
fn append_unopened(
    alloc: Global,
    text: &mut String,
    form: AuditForm,
    subject: &Subject<'_>,
    capture: &[u8],
    error: SealedLogError,
) -> Result<(), AllocError> {
    let whole = whole_part(alloc, capture);
    append_rest(alloc, text, form, subject.capture, capture, whole)?;
    let whose = Whose::Meter(subject.meter);
    match error {
        SealedLogError::NoLog(error) => {
            append_no_log(alloc, text, form, subject.capture, whose, error)
        }
        SealedLogError::Unsealed(mark, why) => {
            append_record(
                alloc,
                text,
                form,
                unsealed_name(why),
                subject.capture,
                whose,
                mark,
                unsealed_why(why),
            )
        }
        SealedLogError::OutOfMemory => Err(AllocError),
    }
}

/// Appends what an audit says of a meter whose capture and store fit, and of what it switched to.
fn append_fitting<'c>(
    alloc: Global,
    text: &mut String,
    given: &Given<'_, '_>,
    subject: &Subject<'_>,
    found: Audited<'c>,
) -> Result<Verdict<'c>, AllocError>
    ensures { IfOk result (IsCompared given.now subject.now found.entry.log found.entry.images.items) }
{
    append_fits(alloc, text, given.options.report, subject.meter, &found)?;
    let Audited { log, images } = found;
    let meter = AuditedMeter::new(alloc, subject.meter, &images)?;
    if append_switches(alloc, text, given, subject, &images)? {
        Ok(Verdict::Fits(meter, log))
    } else {
        Ok(Verdict::NotOffered(meter, log))
    }
}

/// The log of a meter that doesn't fit, if its capture is one.
pub(crate) fn log_of_unfit<'c>(
    alloc: Global,
    given: &Given<'_, '_>,
    subject: &Subject<'_>,
    capture: &'c [u8],
) -> Result<Option<Log<'c>>, AllocError> {
    let others = others_of(alloc, &given.subjects, subject)?;
    let site = Site {
        side: Side::Meter,
        at: subject.address,
        others: &others,
        heads: given.options.heads.as_slice(),
    };
    match read_log(alloc, site, whole_part(alloc, capture)) {
        Ok(log) => Ok(Some(log)),
        Err(LogError::OutOfMemory) => Err(AllocError),
        Err(LogError::Fault(_)) | Err(LogError::Stray(_, _)) => Ok(None),
    }
}

/// The addresses of the other meters with the same capture.
pub(crate) fn others_of(
    alloc: Global,
    subjects: &[Subject<'_>],
    subject: &Subject<'_>,
) -> Result<Vec<SocketAddr>, AllocError>
    ensures { IfOk result (λ others. others.items ≡ others_of subjects.now subject.now) }
{
    let mut others = Vec::new(alloc);
    for other in subjects {
        add(&mut others, beside(subject, other))?;
    }
    Ok(others)
}

/// The address of a meter, if it is another one with the same capture.
fn beside(subject: &Subject<'_>, other: &Subject<'_>) -> Option<SocketAddr>
    ensures { result ≡ beside subject.now other.now }
{
    if other.meter != subject.meter && other.capture == subject.capture {
        Some(other.address)
    } else {
        None
    }
}

/// Adds an address, if there is one.
fn add(others: &mut Vec<SocketAddr>, address: Option<SocketAddr>) -> Result<(), AllocError>
    ensures { OnOk result (others.new.items ≡ others.old.items ++ option_to_list address) }
{
    match address {
        Some(address) => {
            others.push(address)?;
            Ok(())
        }
        None => Ok(()),
    }
}

/// Appends the line of the end of a capture that is left out, if there is one.
pub(crate) fn append_rest(
    alloc: Global,
    text: &mut String,
    form: AuditForm,
    path: &str,
    capture: &[u8],
    whole: &[u8],
) -> Result<(), AllocError> {
    if whole.len() < capture.len() {
        append_cut(alloc, text, form, path, capture.len() - whole.len())
    } else {
        Ok(())
    }
}

/// A capture without what a write left at its end that was cut short, as its process cuts it off when it starts again.
pub(crate) fn whole_part(alloc: Global, capture: &[u8]) -> &[u8]
    ensures { IsWholePart capture.now result.now }
{
    let mut left = capture;
    match whole_len(alloc, &mut left) {
        Ok(len) if len < capture.len() as u64 => &capture[..len as usize],
        Ok(_) | Err(_) => capture,
    }
}

/// Whether books offer these switches of a meter whose capture and store fit, if there are books. The line of the first that they don't offer
/// is appended.
fn append_switches(
    alloc: Global,
    text: &mut String,
    given: &Given<'_, '_>,
    subject: &Subject<'_>,
    images: &[Switched],
) -> Result<bool, AllocError>
    ensures { IfOk result (λ fits. IsTrue fits → AreCompared given.now images.now) }
{
    if has_no_books(given.options) {
        return Ok(true);
    }
    match audit_switches(&given.books.books, images) {
        Ok(()) => Ok(true),
        Err(departure) => {
            if let Some(image) = images.get(departure.at) {
                let name = image.name();
                let form = given.options.report;
                append_switch(alloc, text, form, subject.meter, name, departure.rule)?;
            }
            Ok(false)
        }
    }
}

/// Whether meters are audited without books.
fn has_no_books(options: &AuditOptions<'_>) -> bool
    ensures { IsTrue result → vec_len options.now.books + vec_len options.now.head_logs ≡ 0 }
{
    options.books.is_empty() && options.head_logs.is_empty()
}

/// Appends the line of what doesn't fit of a capture, or of the store that it leaves.
fn append_departure(
    alloc: Global,
    text: &mut String,
    form: AuditForm,
    subject: &Subject<'_>,
    error: EvidenceError,
) -> Result<(), AllocError> {
    let path = subject.capture;
    match error {
        EvidenceError::Departs(mark, rule) => {
            append_record(
                alloc,
                text,
                form,
                rule_name(rule),
                path,
                Whose::Meter(subject.meter),
                mark,
                rule_why(rule),
            )
        }
        EvidenceError::OtherStore => {
            let why = "no meter leaves it that has this capture";
            append_misfit(alloc, text, form, "OtherStore", subject.store, why)
        }
        EvidenceError::OutOfMemory => Err(AllocError),
        EvidenceError::NoLog(error) => {
            append_no_log(alloc, text, form, path, Whose::Meter(subject.meter), error)
        }
    }
}

/// Appends the line of a capture that is no log.
pub(crate) fn append_no_log(
    alloc: Global,
    text: &mut String,
    form: AuditForm,
    path: &str,
    whose: Whose,
    error: LogError,
) -> Result<(), AllocError> {
    match error {
        LogError::Stray(mark, stray) => {
            append_record(
                alloc,
                text,
                form,
                stray_name(stray),
                path,
                whose,
                mark,
                stray_why(stray),
            )
        }
        LogError::Fault(error) => {
            append_fault(alloc, text, form, path, whose, error.fault, error.offset)
        }
        LogError::OutOfMemory => Err(AllocError),
    }
}

/// Appends the line of a store that holds no meter.
fn append_refusal(
    alloc: Global,
    text: &mut String,
    form: AuditForm,
    path: &str,
    refusal: StoreRefusal,
) -> Result<(), AllocError> {
    match refusal {
        StoreRefusal::ForeignUndo => {
            let why = "the journal beside it is none";
            append_misfit(alloc, text, form, "ForeignUndo", path, why)
        }
        StoreRefusal::BadFile => {
            append_misfit(alloc, text, form, "BadFile", path, "it is no store")
        }
        StoreRefusal::BadHeader => {
            let why = "no meter writes its header";
            append_misfit(alloc, text, form, "BadHeader", path, why)
        }
        StoreRefusal::BadImage => {
            let why = "an image hasn't the digest of its name";
            append_misfit(alloc, text, form, "BadImage", path, why)
        }
        StoreRefusal::OutOfMemory => Err(AllocError),
    }
}

/// Why there is no meter to begin with.
#[derive(Clone, Copy)]
enum NoMeter {
    /// The store that it is to be in holds none.
    Refused(StoreRefusal),
    /// No new one can be made.
    BadSetup,
}

/// The meter that a meter was at first: the one in a store or, without one, a new one with this factory image.
fn begin_of(
    alloc: Global,
    fresh: &FreshMeter<'_>,
    factory: &[u8],
    began: Option<StoreFiles>,
) -> Result<MeterCore<MemoryStore>, NoMeter>
    ensures { IfOk result (λ meter. BeginsAs fresh.now factory.now began meter.meter) }
{
    match began {
        Some(files) => match meter_in(alloc, files) {
            Ok(meter) => Ok(meter),
            Err(refusal) => Err(NoMeter::Refused(refusal)),
        },
        None => match new_meter(alloc, fresh.block_size, fresh.capacity, factory) {
            Ok(meter) => Ok(meter),
            Err(SetupError::BadSetup) => Err(NoMeter::BadSetup),
            Err(SetupError::OutOfMemory) => Err(NoMeter::Refused(StoreRefusal::OutOfMemory)),
        },
    }
}

/// The meter in the files of a store as they lie there.
fn meter_in(alloc: Global, files: StoreFiles) -> Result<MeterCore<MemoryStore>, StoreRefusal>
    ensures { IfOk result (λ meter. Holds files meter.meter) }
{
    let StoreFiles { store, journal } = files;
    match &journal {
        Some(journal) => meter_at_rest(alloc, store, journal),
        None => meter_at_rest(alloc, store, &[]),
    }
}
