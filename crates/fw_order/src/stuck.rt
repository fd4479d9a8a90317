//! Where an order can't go on.

ghost use Rattle.std.specs.Prelude.{◌≡◌, ◌<◌, [], false, ℕ, Contains, IfNone, IfSome, IsTrue, length};
ghost use Rattle.fw_audit.specs.Log.{item_of, log_of, sent as sent_to};
ghost use Rattle.fw_order.specs.Order.{HasOrder, ends_of, log_at};
ghost use Rattle.fw_order.specs.Departures.{Breaks, IsDeparture, SendsEver};
ghost use Rattle.fw_order.specs.Private.{IsGone, IsStuck, far};

use crate::error::{OrderDeparture, OrderRule};
use crate::log::EndLog;
use crate::sent::Sent;
use fw_audit::LogItem;
use std::net::SocketAddr;

/// Where an order can't go on: at a datagram that was never sent, if there is one. Without any, all was done.
pub(crate) fn departure<'a>(
    logs: &[EndLog<'a>],
    left: &[EndLog<'a>],
    sent: &Sent<'a>,
) -> Option<OrderDeparture>
    requires gone { IsGone (ends_of logs.now) (far left.now sent.now) }
    requires stuck { (number : ℕ) → IsStuck (far left.now sent.now) number }
    ensures none { IfNone result (HasOrder (ends_of logs.now)) }
    ensures some { IfSome result (IsDeparture (ends_of logs.now)) }
{
    let mut later = None;
    for number in 0..logs.len() {
        if let Some(departure) = departure_of(logs, left, sent, number) {
            match departure.rule {
                OrderRule::NeverSent => return Some(departure),
                OrderRule::SentLater => later = Some(departure),
            }
        }
    }
    later
}

/// Where an end can't go on, if anything of its log is left.
fn departure_of<'a>(
    logs: &[EndLog<'a>],
    left: &[EndLog<'a>],
    sent: &Sent<'a>,
    number: usize,
) -> Option<OrderDeparture>
    requires within { number < length logs.now }
    requires gone { IsGone (ends_of logs.now) (far left.now sent.now) }
    requires stuck { (number : ℕ) → IsStuck (far left.now sent.now) number }
    ensures none { IfNone result (log_at (ends_of left.now) number ≡ []) }
    ensures some { IfSome result (IsDeparture (ends_of logs.now)) }
{
    if left.len() <= number {
        return None;
    }
    let log = left[number];
    match log.items.split_first() {
        Some((item, _)) => match *item {
            LogItem::Came { from, bytes } => Some(OrderDeparture {
                end: number,
                at: logs[number].items.len() - log.items.len(),
                rule: rule(logs, from, log.at, bytes),
            }),
            _ => unreachable!(),
        },
        None => None,
    }
}

/// What is wrong with a datagram that wasn't sent so far.
fn rule(logs: &[EndLog<'_>], from: SocketAddr, to: SocketAddr, bytes: &[u8]) -> OrderRule
    ensures { Breaks (ends_of logs.now) from to bytes.now result }
{
    if is_sent(logs, from, to, bytes) {
        OrderRule::SentLater
    } else {
        OrderRule::NeverSent
    }
}

/// Whether an end of this address sends it there at some time.
fn is_sent(logs: &[EndLog<'_>], from: SocketAddr, to: SocketAddr, bytes: &[u8]) -> bool
    ensures some { IsTrue result → SendsEver (ends_of logs.now) from to bytes.now }
    ensures none { result ≡ false → SendsEver (ends_of logs.now) from to bytes.now → ⊥ }
{
    for number in 0..logs.len() {
        let log = logs[number];
        if log.at == from && sends(log.items, to, bytes) {
            return true;
        }
    }
    false
}

/// Whether a datagram is sent there in these items.
fn sends(items: &[LogItem<'_>], to: SocketAddr, bytes: &[u8]) -> bool
    ensures some { IsTrue result → Contains (log_of items.now) (sent_to to bytes.now) }
    ensures none { result ≡ false → Contains (log_of items.now) (sent_to to bytes.now) → ⊥ }
{
    for at in 0..items.len() {
        if is_sending(&items[at], to, bytes) {
            return true;
        }
    }
    false
}

/// Whether an item is that this datagram is sent there.
fn is_sending(item: &LogItem<'_>, to: SocketAddr, bytes: &[u8]) -> bool
    ensures some { IsTrue result → item_of item.now ≡ sent_to to bytes.now }
    ensures none { result ≡ false → item_of item.now ≡ sent_to to bytes.now → ⊥ }
{
    match *item {
        LogItem::Sent {
            to: there,
            bytes: sent,
        } => there == to && sent == bytes,
        LogItem::Started | LogItem::Came { .. } | LogItem::Turned => false,
    }
}
