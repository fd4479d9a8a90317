//! What sealed captures of meters say in plain words.

ghost use Rattle.std.specs.Prelude.{IfOk};
ghost use Rattle.fw_auditor.specs.Private.{IsReadingOf};

use crate::keys::{MeterKeys, has_link};
use crate::list::Subject;
use crate::verdict::{Given, others_of, whole_part};
use fw_evidence::{OpenedLog, SealedLogError, Side, Site, read_sealed_log};
use std::alloc::{AllocError, Global};

/// What a sealed capture says in plain words.
#[derive(Drop)]
pub(crate) enum Reading {
    /// It is this log.
    Opened(OpenedLog),
    /// It is none.
    Unopened(SealedLogError),
}

/// What the capture of a meter says in plain words, if its links are sealed: if files have links with it.
pub(crate) fn reading_of(
    alloc: Global,
    given: &Given<'_, '_>,
    subject: &Subject<'_>,
    capture: &[u8],
) -> Result<Option<Reading>, AllocError>
    ensures { IfOk result (IsReadingOf given.now subject.now capture.now) }
{
    if !has_link(&given.keys, subject.meter) {
        return Ok(None);
    }
    let others = others_of(alloc, &given.subjects, subject)?;
    let site = Site {
        side: Side::Meter,
        at: subject.address,
        others: &others,
        heads: &given.options.heads,
    };
    let keys = MeterKeys {
        heads: &given.keys,
        meter: subject.meter,
        order: given.options.order,
    };
    match read_sealed_log(alloc, site, &keys, whole_part(alloc, capture)) {
        Ok(log) => Ok(Some(Reading::Opened(log))),
        Err(SealedLogError::OutOfMemory) => Err(AllocError),
        Err(error) => Ok(Some(Reading::Unopened(error))),
    }
}
