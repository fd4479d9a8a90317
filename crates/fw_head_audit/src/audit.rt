//! The audit of the log of a head end.

ghost use Rattle.std.specs.Prelude.{◌≡◌, All, IfErr, IfOk, MatchBool, OnOk};
ghost use Rattle.fw_audit.specs.Log.{item_of, log_of};
ghost use Rattle.fw_head_audit.specs.Heads.{AreClaimed, IsHeadLog, IsOrderly, IsRefused};
ghost use Rattle.fw_head_audit.specs.Private.{IsClaimRefused, IsSendRefused};

use crate::claims::claimants;
use crate::error::{HeadAuditError, UnclaimedRow};
use crate::meter::AskedMeter;
use crate::offers::is_offered;
use fw_audit::LogItem;
use fw_book::Book;
use fw_fleet_audit::audit_book;
use std::alloc::{AllocError, Global};

/// Whether these items are the log of a head end with this book, which asks these meters. A meter may have more than one address.
///
/// For each datagram that it sent all meters are looked through, and the rows of the campaigns; for each that came one response is read.
///
/// # Errors
///
/// - `NotOffered`: the first datagram that no campaign of the book offers to a meter that is asked at its address.
/// - `NotClaimed`: all are offered, and this is the first row that is done and of whose meter no datagram came that claims so.
/// - `OutOfMemory`: memory was refused, which is wanted only if there is an item or a meter. Nothing is said of the log.
pub fn audit_head(
    alloc: Global,
    book: &Book,
    meters: &[AskedMeter],
    items: &[LogItem<'_>],
) -> Result<(), HeadAuditError>
    ensures is { OnOk result (IsHeadLog book.now meters.now (log_of items.now)) }
    ensures refused { IfErr result (IsRefused book.now meters.now (log_of items.now)) }
{
    audit_sends(alloc, book, meters, items)?;
    audit_claims(alloc, book, meters, items)
}

/// Whether each datagram that was sent is offered.
fn audit_sends(
    alloc: Global,
    book: &Book,
    meters: &[AskedMeter],
    items: &[LogItem<'_>],
) -> Result<(), HeadAuditError>
    ensures offered { OnOk result (All (IsOrderly book.now meters.now) (log_of items.now)) }
    ensures refused { IfErr result (IsSendRefused book.now meters.now (log_of items.now)) }
{
    for at in 0..items.len() {
        match is_orderly(alloc, book, meters, &items[at]) {
            Ok(true) => {}
            Ok(false) => return Err(HeadAuditError::NotOffered { at }),
            Err(_) => return Err(HeadAuditError::OutOfMemory),
        }
    }
    Ok(())
}

/// Whether an item is offered, if it is a datagram that was sent.
fn is_orderly(
    alloc: Global,
    book: &Book,
    meters: &[AskedMeter],
    item: &LogItem<'_>,
) -> Result<bool, AllocError>
    ensures { IfOk result (λ is. MatchBool is (IsOrderly book.now meters.now (item_of item.now)) (¬ IsOrderly book.now meters.now (item_of item.now))) }
{
    match *item {
        LogItem::Sent { to, bytes } => is_offered(alloc, book, meters, to, bytes),
        LogItem::Started | LogItem::Came { .. } | LogItem::Turned => Ok(true),
    }
}

/// Whether each row that is done was claimed. The names that a meter claimed stand where the audit of a book looks for those that it
/// switched to.
fn audit_claims(
    alloc: Global,
    book: &Book,
    meters: &[AskedMeter],
    items: &[LogItem<'_>],
) -> Result<(), HeadAuditError>
    ensures claimed { OnOk result (AreClaimed book.now meters.now (log_of items.now)) }
    ensures refused { IfErr result (IsClaimRefused book.now meters.now (log_of items.now)) }
{
    let claimed = claimants(alloc, meters, items)?;
    match audit_book(book, claimed.as_slice()) {
        Ok(()) => Ok(()),
        Err(departure) => Err(HeadAuditError::NotClaimed(UnclaimedRow {
            campaign: departure.campaign,
            meter: departure.meter,
        })),
    }
}
