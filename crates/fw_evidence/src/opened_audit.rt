//! A meter whose links are sealed is audited by its log in plain words.

ghost use Rattle.std.specs.Prelude.{◌≡◌, IfErr, IfOk};
ghost use Rattle.fw_audit.specs.Log.{log_of};
ghost use Rattle.fw_audit.specs.Stands.{IsMeterLog};
ghost use Rattle.fw_image.specs.Meter.{reopened};
ghost use Rattle.fw_evidence.specs.Sealed.{IsUnfitLog, items_in, marks_in};

use crate::audit::{Audited, placed};
use crate::error::EvidenceError;
use crate::opened::OpenedLog;
use fw_audit::audit_meter;
use fw_meter::MeterCore;
use fw_store::MemoryStore;
use std::alloc::Global;
use std::net::SocketAddr;

/// Whether this log, which was opened, is one of the meter that `begin` was, which just these addresses may ask, and that meter is what `end` is
/// after it. Both meters are as their stores hold them at rest.
///
/// # Errors
///
/// - `Departs` just if the log is none of this meter. The item in this record is the first with which it is none.
/// - `OtherStore` just if it is one, and no meter with this log leaves that store.
/// - `OutOfMemory`: the log has an item, and memory was refused to follow it.
pub fn audit_opened<'a>(
    alloc: Global,
    heads: &[SocketAddr],
    begin: MeterCore<MemoryStore>,
    opened: &'a OpenedLog,
    end: &MeterCore<MemoryStore>,
) -> Result<Audited<'a>, EvidenceError>
    ensures log { IfOk result (λ found. log_of found.log.items.items ≡ items_in opened.now) }
    ensures is { IfOk result (λ found. IsMeterLog heads.now (reopened begin.meter) (items_in opened.now) found.images.items end.now.meter) }
    ensures refused { IfErr result (λ error. IsUnfitLog heads.now (reopened begin.meter) (items_in opened.now) (marks_in opened.now) end.now.meter error) }
{
    let log = match opened.to_log(alloc) {
        Ok(log) => log,
        Err(_) => return Err(EvidenceError::OutOfMemory),
    };
    match audit_meter(alloc, heads, begin, &log.items, end) {
        Ok(images) => Ok(Audited { log, images }),
        Err(error) => Err(placed(&log.marks, error)),
    }
}
