//! The audit of a log and two stores.

ghost use Rattle.std.specs.Prelude.{◌≡◌, ◌≢◌, ◌≤◌, ◌⊎◌, [], false, All, IfErr, IfOk, IfSome, IsTrue, List, Some, length, slice_get};
ghost use Rattle.std.specs.List.{AllWithin};
ghost use Rattle.fw_image.specs.Meter.{Meter, reopened};
ghost use Rattle.fw_audit.specs.Departures.{IsRefused};
ghost use Rattle.fw_audit.specs.Log.{Item, item_of, log_of, started};
ghost use Rattle.fw_audit.specs.Private.{Adds, AddsBoth, AreAllLeft, GathersOn, HasMeter, IsAllOutlived, IsChosen, IsFollowed, StartsAt};
ghost use Rattle.fw_audit.specs.Stands.{IsMeterLog};

use crate::error::{AuditError, Departure, Rule};
use crate::item::LogItem;
use crate::life::{Left, Stop};
use crate::switched::Switched;
use fw_meter::MeterCore;
use fw_store::MemoryStore;
use std::alloc::{AllocError, Global};
use std::net::SocketAddr;

/// Whether these items are the log of the meter that `begin` is, which just these addresses may ask (any, if there are none), and `end` is
/// the meter that its store holds after the last of them. Both meters are as their stores hold them, as `MeterCore::open_kept` gives them. It
/// returns the images that the meter switched to, in order, each with the bytes that ran.
///
/// The process may have been killed at any moment, and started again. Where it was killed in handling a datagram or in a turn, its store
/// may have what it held before or what it held after; each that the rest of the log explains is followed.
///
/// # Errors
///
/// - `Departs` just if the log is none of this meter. It is the first item with which it is none.
/// - `OtherStore` just if it is one, and no meter with this log leaves that store.
/// - `OutOfMemory`: memory was refused. Of the log nothing is said but that it begins with a start.
pub fn audit_meter(
    alloc: Global,
    heads: &[SocketAddr],
    begin: MeterCore<MemoryStore>,
    items: &[LogItem<'_>],
    end: &MeterCore<MemoryStore>,
) -> Result<Vec<Switched>, AuditError>
    ensures is { IfOk result (λ images. IsMeterLog heads.now (reopened begin.meter) (log_of items.now) images.items end.now.meter) }
    ensures refused { IfErr result (λ error. IsRefused heads.now (reopened begin.meter) (log_of items.now) end.now.meter error) }
{
    if items.is_empty() {
        return never_started(alloc, begin, end);
    }
    match followed(alloc, heads, begin, items) {
        Ok(lefts) => chosen(lefts, end),
        Err(Stop::Departs(departure)) => Err(AuditError::Departs(departure)),
        Err(Stop::OutOfMemory) => Err(AuditError::OutOfMemory),
    }
}

/// The images that a meter switched to whose process was never started: none. Its store is left as it was, and no memory is taken.
fn never_started(
    alloc: Global,
    begin: MeterCore<MemoryStore>,
    end: &MeterCore<MemoryStore>,
) -> Result<Vec<Switched>, AuditError>
    ensures { (heads : List SocketAddr) → IsChosen heads (reopened begin.meter) [] end.now.meter result }
{
    let left = Left::new(begin, Vec::new(alloc));
    if left.is(end) {
        return Ok(left.into_images());
    }
    Err(AuditError::OtherStore)
}

/// The images that the meter switched to which is the one of the store that was found.
fn chosen(lefts: Vec<Left>, end: &MeterCore<MemoryStore>) -> Result<Vec<Switched>, AuditError>
    ensures { (heads : List SocketAddr) (begin : Meter) (log : List Item) → AreAllLeft heads begin log lefts.items
        → IsChosen heads begin log end.now.meter result }
{
    let mut rest = lefts;
    while let Some(left) = rest.pop() {
        if left.is(end) {
            return Ok(left.into_images());
        }
    }
    Err(AuditError::OtherStore)
}

/// The meters that a log may leave.
fn followed(
    alloc: Global,
    heads: &[SocketAddr],
    begin: MeterCore<MemoryStore>,
    items: &[LogItem<'_>],
) -> Result<Vec<Left>, Stop>
    ensures { IsFollowed heads.now (reopened begin.meter) (log_of items.now) result }
{
    if !starts(items) {
        return Err(Stop::Departs(Departure {
            at: 0,
            rule: Rule::NotStarted,
        }));
    }
    let begins = Left::new(begin, Vec::new(alloc));
    let Ok(mut lefts) = added(Vec::new(alloc), begins) else {
        return Err(Stop::OutOfMemory);
    };
    let mut at = 0;
    while at < items.len() {
        let end = next_start(items, at + 1);
        match all_outlived(alloc, heads, lefts, &items[at + 1..end]) {
            Ok(next) => lefts = next,
            Err(Stop::Departs(departure)) => {
                return Err(Stop::Departs(Departure {
                    at: at + 1 + departure.at,
                    rule: departure.rule,
                }));
            }
            Err(Stop::OutOfMemory) => return Err(Stop::OutOfMemory),
        }
        at = end;
    }
    Ok(lefts)
}

/// What processes leave that start with one of these meters and do what these items say: each meter once.
fn all_outlived(
    alloc: Global,
    heads: &[SocketAddr],
    lefts: Vec<Left>,
    items: &[LogItem<'_>],
) -> Result<Vec<Left>, Stop>
    requires some { 1 ≤ length lefts.items }
    requires rests { All (λ left. reopened left.meter.meter ≡ left.meter.meter) lefts.items }
    requires going { All (λ item. item_of item ≢ started) items.now }
    ensures { IsAllOutlived heads.now lefts.items (log_of items.now) result }
{
    let mut rest = lefts;
    let mut found = Vec::new(alloc);
    let mut far = None;
    while let Some(left) = rest.pop() {
        match gathered(alloc, heads, items, left, found, far) {
            Ok((more, farthest)) => {
                found = more;
                far = farthest;
            }
            Err(_) => return Err(Stop::OutOfMemory),
        }
    }
    if !found.is_empty() {
        return Ok(found);
    }
    match far {
        Some(departure) => Err(Stop::Departs(departure)),
        None => unreachable!(),
    }
}

/// What was found, with what processes leave that start with one meter more; or the departure that is farthest on.
fn gathered(
    alloc: Global,
    heads: &[SocketAddr],
    items: &[LogItem<'_>],
    left: Left,
    found: Vec<Left>,
    far: Option<Departure>,
) -> Result<(Vec<Left>, Option<Departure>), AllocError>
    requires rests { reopened left.meter.meter ≡ left.meter.meter }
    requires going { All (λ item. item_of item ≢ started) items.now }
    ensures { IfOk result (λ both. GathersOn heads.now (log_of items.now) left found.items far both.0.items both.1) }
{
    match left.outlived(alloc, heads, items) {
        Ok((first, second)) => match both_added(found, first, second) {
            Ok(more) => Ok((more, far)),
            Err(_) => Err(AllocError),
        },
        Err(Stop::Departs(departure)) => Ok((found, Some(farther(far, departure)))),
        Err(Stop::OutOfMemory) => Err(AllocError),
    }
}

/// The one of two departures that is farther on.
fn farther(far: Option<Departure>, departure: Departure) -> Departure
    ensures this { departure.at ≤ result.at }
    ensures that { IfSome far (λ before. before.at ≤ result.at) }
    ensures one { (result ≡ departure) ⊎ (far ≡ Some result) }
{
    match far {
        Some(before) => {
            if before.at > departure.at {
                before
            } else {
                departure
            }
        }
        None => departure,
    }
}

/// What was found, with one or two more.
fn both_added(found: Vec<Left>, first: Left, second: Option<Left>) -> Result<Vec<Left>, AllocError>
    ensures { IfOk result (λ all. AddsBoth found.items first second all.items) }
{
    let all = added(found, first)?;
    match second {
        Some(second) => added(all, second),
        None => Ok(all),
    }
}

/// What was found, with one more, if its meter isn't there.
fn added(found: Vec<Left>, left: Left) -> Result<Vec<Left>, AllocError>
    ensures { IfOk result (λ all. Adds found.items left all.items) }
{
    if has(&found, &left) {
        return Ok(found);
    }
    let mut all = found;
    all.push(left)?;
    Ok(all)
}

/// Whether a meter was found.
fn has(found: &[Left], left: &Left) -> bool
    ensures { IsTrue result → HasMeter found.now left.now.meter.meter }
{
    for at in 0..found.len() {
        if found[at].is(left.meter()) {
            return true;
        }
    }
    false
}

/// Where the next start is, from a place on, or the end.
fn next_start(items: &[LogItem<'_>], from: usize) -> usize
    requires { from ≤ length items.now }
    ensures later { from ≤ result }
    ensures within { result ≤ length items.now }
    ensures none { AllWithin (λ item. item_of item ≢ started) items.now from result }
    ensures start { StartsAt (log_of items.now) result }
{
    for at in from..items.len() {
        if is_start(&items[at]) {
            return at;
        }
    }
    items.len()
}

/// Whether items begin with a start, or are none.
fn starts(items: &[LogItem<'_>]) -> bool
    ensures start { IsTrue result → StartsAt (log_of items.now) 0 }
    ensures other { result ≡ false → (item : Item) × (slice_get (log_of items.now) 0 ≡ Some item) × (item ≢ started) }
{
    if items.is_empty() {
        return true;
    }
    is_start(&items[0])
}

/// Whether an item is a start.
fn is_start(item: &LogItem<'_>) -> bool
    ensures start { IsTrue result → item_of item.now ≡ started }
    ensures other { result ≡ false → item_of item.now ≢ started }
{
    match *item {
        LogItem::Started => true,
        LogItem::Came { .. } => false,
        LogItem::Sent { .. } => false,
        LogItem::Turned => false,
    }
}
