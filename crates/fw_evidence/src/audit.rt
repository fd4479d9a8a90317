//! A meter is audited by what is found of it.

ghost use Rattle.std.specs.Prelude.{◌<◌, IfErr, IfOk, length};
ghost use Rattle.fw_audit.specs.Log.{log_of};
ghost use Rattle.fw_audit.specs.Stands.{IsMeterLog};
ghost use Rattle.fw_image.specs.Meter.{reopened};
ghost use Rattle.fw_evidence.specs.Audits.{IsUnfit};
ghost use Rattle.fw_evidence.specs.Captures.{IsLogOf};
ghost use Rattle.fw_evidence.specs.Private.{DepartsIn, IsMarked, IsWithin};

use crate::error::{EvidenceError, Mark};
use crate::log::{Log, read_log};
use crate::site::Site;
use fw_audit::{AuditError, Departure, Switched, audit_meter};
use fw_meter::MeterCore;
use fw_store::MemoryStore;
use std::alloc::Global;

/// What was found right of a meter.
#[derive(Drop)]
pub struct Audited<'a> {
    /// Its log.
    pub log: Log<'a>,
    /// The images that it switched to, in order, each with the bytes that ran.
    pub images: Vec<Switched>,
}

/// Whether this capture is a log of the meter at a site that `begin` was, and that meter is what `end` is after it. Both meters are as their
/// stores hold them at rest.
///
/// # Errors
///
/// - `NoLog` just if the capture is no log of a meter at this site.
/// - `Departs` just if the log is none of this meter. The item in this record is the first with which it is none.
/// - `OtherStore` just if it is one, and no meter with this log leaves that store.
/// - `OutOfMemory`: the capture is a log that begins with a start, and memory was refused to follow it.
pub fn audit_capture<'a>(
    alloc: Global,
    site: Site<'_>,
    begin: MeterCore<MemoryStore>,
    capture: &'a [u8],
    end: &MeterCore<MemoryStore>,
) -> Result<Audited<'a>, EvidenceError>
    ensures log { IfOk result (λ found. IsLogOf site.entry capture.now (log_of found.log.items.items) found.log.marks.items) }
    ensures is { IfOk result (λ found. IsMeterLog site.entry.heads.now (reopened begin.meter) (log_of found.log.items.items) found.images.items
        end.now.meter) }
    ensures refused { IfErr result (λ error. IsUnfit site.entry (reopened begin.meter) capture.now end.now.meter error) }
{
    let log = match read_log(alloc, site, capture) {
        Ok(log) => log,
        Err(error) => return Err(EvidenceError::NoLog(error)),
    };
    match audit_meter(alloc, site.heads, begin, &log.items, end) {
        Ok(images) => Ok(Audited { log, images }),
        Err(error) => Err(placed(&log.marks, error)),
    }
}

/// What was found wrong, with the record in which it is.
pub(crate) fn placed(marks: &[Mark], error: AuditError) -> EvidenceError
    requires { IsWithin (length marks.now) error }
    ensures { IsMarked marks.now error result }
{
    match error {
        AuditError::Departs(departure) => place_of(marks, departure),
        AuditError::OtherStore => EvidenceError::OtherStore,
        AuditError::OutOfMemory => EvidenceError::OutOfMemory,
    }
}

/// The same of a departure.
fn place_of(marks: &[Mark], departure: Departure) -> EvidenceError
    requires { departure.at < length marks.now }
    ensures { DepartsIn marks.now departure result }
{
    let at = departure.at;
    EvidenceError::Departs(marks[at], departure.rule)
}
