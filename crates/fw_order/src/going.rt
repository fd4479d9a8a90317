//! How far an order has come.

ghost use Rattle.std.specs.Prelude.{◌≡◌, ◌+◌, ◌<◌, ◌≤◌, false, ℕ, List, IfNone, IfOk, IfSome, IsTrue, OnErr, OnOk, OnSome, length, slice_set};
ghost use Rattle.fw_audit.specs.Log.{item_of};
ghost use Rattle.fw_order.specs.Order.{End, IsEnd, ends_of};
ghost use Rattle.fw_order.specs.Private.{IsGone, IsReady, IsStuck, MayCome, Waits, far, items_left};

use crate::log::EndLog;
use crate::sent::Sent;
use fw_audit::LogItem;
use std::alloc::{AllocError, Global};
use std::net::SocketAddr;

/// The logs, of which nothing is done.
pub(crate) fn all_logs<'a>(
    alloc: Global,
    logs: &[EndLog<'a>],
) -> Result<Vec<EndLog<'a>>, AllocError>
    ensures all { IfOk result (λ left. left.items ≡ logs.now) }
    ensures memory { OnErr result (1 ≤ length logs.now) }
{
    let mut left = Vec::with_capacity(alloc, logs.len())?;
    left.extend_from_slice(logs)?;
    Ok(left)
}

/// Goes on by the next item of this end.
///
/// # Errors
///
/// `AllocError` if memory was refused.
pub(crate) fn go_on<'a>(
    left: &mut [EndLog<'a>],
    sent: &mut Sent<'a>,
    number: usize,
) -> Result<(), AllocError>
    requires { IsReady (far left.old sent.old) number }
    ensures gone { (ends : List End) → IsGone ends (far left.old sent.old) → OnOk result (IsGone ends (far left.new sent.new)) }
    ensures less { OnOk result (items_left left.new + 1 ≡ items_left left.old) }
{
    let log = left[number];
    let Some((item, rest)) = log.items.split_first() else {
        unreachable!()
    };
    sent.note(log.at, item)?;
    let next = EndLog {
        at: log.at,
        items: rest,
    };
    put(left, number, &next);
    Ok(())
}

/// Writes what is left of a log.
fn put<'a>(left: &mut [EndLog<'a>], number: usize, log: &EndLog<'a>)
    requires { number < length left.old }
    ensures { left.new ≡ slice_set left.old number log.now }
{
    left[number] = *log;
}

/// An end whose next item may be next in the order. This one is looked at first, then the end whose datagram it waits for, and so on.
pub(crate) fn next_end<'a>(left: &[EndLog<'a>], sent: &Sent<'a>, first: usize) -> Option<usize>
    ensures some { IfSome result (IsReady (far left.now sent.now)) }
    ensures none { IfNone result ((number : ℕ) → IsStuck (far left.now sent.now) number) }
{
    match first_awaited(left, sent, first) {
        Some(number) => Some(number),
        None => any_ready(left, sent),
    }
}

/// Such an end among this one and those that are waited for.
fn first_awaited<'a>(left: &[EndLog<'a>], sent: &Sent<'a>, first: usize) -> Option<usize>
    ensures { IfSome result (IsReady (far left.now sent.now)) }
{
    let mut number = first;
    for _ in 0..left.len() {
        if is_ready(left, sent, number) {
            return Some(number);
        }
        match waits_for(left, number) {
            Some(other) => number = other,
            None => return None,
        }
    }
    None
}

/// Such an end among all.
fn any_ready<'a>(left: &[EndLog<'a>], sent: &Sent<'a>) -> Option<usize>
    ensures some { IfSome result (IsReady (far left.now sent.now)) }
    ensures none { IfNone result ((number : ℕ) → IsStuck (far left.now sent.now) number) }
{
    for number in 0..left.len() {
        if is_ready(left, sent, number) {
            return Some(number);
        }
    }
    None
}

/// Whether the next item of an end may be next in the order.
fn is_ready<'a>(left: &[EndLog<'a>], sent: &Sent<'a>, number: usize) -> bool
    ensures some { IsTrue result → IsReady (far left.now sent.now) number }
    ensures none { result ≡ false → IsStuck (far left.now sent.now) number }
{
    if left.len() <= number {
        return false;
    }
    let log = left[number];
    match log.items.split_first() {
        Some((item, _)) => may_come(left, sent, log.at, item),
        None => false,
    }
}

/// Whether an item of the end at this address needs nothing that wasn't sent.
fn may_come<'a>(left: &[EndLog<'a>], sent: &Sent<'a>, at: SocketAddr, item: &LogItem<'a>) -> bool
    ensures some { IsTrue result → MayCome (ends_of left.now) sent.now at (item_of item.now) }
    ensures none { result ≡ false → Waits (ends_of left.now) sent.now at (item_of item.now) }
{
    match *item {
        LogItem::Came { from, bytes } => sent.has(from, at, bytes) || is_stranger(left, from),
        LogItem::Started | LogItem::Sent { .. } | LogItem::Turned => true,
    }
}

/// The end whose datagram the next item of an end is, if it is one.
fn waits_for(left: &[EndLog<'_>], number: usize) -> Option<usize> {
    let log = left.get(number)?;
    match log.items.first() {
        Some(LogItem::Came { from, .. }) => end_at(left, *from),
        _ => None,
    }
}

/// Whether an address is that of none of these ends.
fn is_stranger(left: &[EndLog<'_>], address: SocketAddr) -> bool
    ensures none { IsTrue result → IsEnd (ends_of left.now) address → ⊥ }
    ensures one { result ≡ false → IsEnd (ends_of left.now) address }
{
    match end_at(left, address) {
        Some(_) => false,
        None => true,
    }
}

/// The first end at an address.
fn end_at(left: &[EndLog<'_>], address: SocketAddr) -> Option<usize>
    ensures some { OnSome result (IsEnd (ends_of left.now) address) }
    ensures none { IfNone result (IsEnd (ends_of left.now) address → ⊥) }
{
    for number in 0..left.len() {
        if left[number].at == address {
            return Some(number);
        }
    }
    None
}
