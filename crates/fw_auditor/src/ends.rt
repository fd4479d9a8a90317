//! Whether the logs of all ends agree.

ghost use Rattle.std.specs.Prelude.{◌≡◌, ◌++◌, IfOk, IsTrue};
ghost use Rattle.fw_order.specs.Order.{HasOrder, end_of, ends_of};
ghost use Rattle.fw_auditor.specs.Private.{end_in, ends_in};

use crate::error::Unaudited;
use crate::files::AuditFault;
use crate::lines::{
    AuditForm, Whose, append_order, append_record, order_name, order_why, write_text,
};
use fw_audit::LogItem;
use fw_evidence::Log;
use fw_order::{EndLog, OrderDeparture, OrderError, join};
use std::alloc::{AllocError, Global};
use std::collections::HashSet;
use std::io::Write;
use std::net::SocketAddr;

/// A meter or a head end whose log was read.
#[derive(Drop)]
pub(crate) struct Ended<'c> {
    /// Its address, as others see it.
    pub(crate) at: SocketAddr,
    /// Which it is.
    pub(crate) whose: Whose,
    /// The path of its capture.
    pub(crate) path: &'c str,
    pub(crate) log: Log<'c>,
}

impl<'c> Ended<'c> {
    /// Its log, as an order has it.
    fn to_log(&self) -> EndLog<'_>
        ensures { end_of result ≡ end_in self.now }
    {
        EndLog {
            at: self.at,
            items: &self.log.items,
        }
    }
}

/// Whether there is an order of all that meters and head ends did in which what came from one of them was sent before. The line of that, with
/// how many datagrams came from others, or of a record that no order gets past, is written.
pub(crate) fn tell_order<W: Write>(
    alloc: Global,
    writer: &mut W,
    form: AuditForm,
    meters: &[Ended<'_>],
    heads: &[Ended<'_>],
) -> Result<bool, AuditFault>
    ensures { IfOk result (λ fits. IsTrue fits → HasOrder (ends_in meters.now ++ ends_in heads.now)) }
{
    let logs = logs_of(alloc, meters, heads)?;
    let mut text = String::new(alloc);
    match join(alloc, &logs) {
        Ok(()) => {
            let others = count_others(alloc, &logs)?;
            append_order(alloc, &mut text, form, logs.len(), others)?;
            write_text(writer, text.as_str())?;
            Ok(true)
        }
        Err(OrderError::Departs(departure)) => {
            append_stuck(alloc, &mut text, form, meters, heads, departure)?;
            write_text(writer, text.as_str())?;
            Ok(false)
        }
        Err(OrderError::OutOfMemory) => Err(AuditFault::from(Unaudited::OutOfMemory)),
    }
}

/// The logs of meters, and behind them those of head ends.
fn logs_of<'e>(
    alloc: Global,
    meters: &'e [Ended<'_>],
    heads: &'e [Ended<'_>],
) -> Result<Vec<EndLog<'e>>, AllocError>
    ensures { IfOk result (λ logs. ends_of logs.items ≡ ends_in meters.now ++ ends_in heads.now) }
{
    let mut logs = Vec::new(alloc);
    for meter in 0..meters.len() {
        logs.push(meters[meter].to_log())?;
    }
    for head in 0..heads.len() {
        logs.push(heads[head].to_log())?;
    }
    Ok(logs)
}

/// Appends the line of the record of an end that no order gets past.
fn append_stuck(
    alloc: Global,
    text: &mut String,
    form: AuditForm,
    meters: &[Ended<'_>],
    heads: &[Ended<'_>],
    departure: OrderDeparture,
) -> Result<(), AllocError> {
    let OrderDeparture { end, at, rule } = departure;
    let found = if end < meters.len() {
        meters.get(end)
    } else {
        heads.get(end - meters.len())
    };
    match found {
        Some(found) => {
            append_item(
                alloc,
                text,
                form,
                order_name(rule),
                found,
                at,
                order_why(rule),
            )
        }
        None => Ok(()),
    }
}

/// Appends the line of the record of this item in the log of an end, which breaks a rule.
fn append_item(
    alloc: Global,
    text: &mut String,
    form: AuditForm,
    rule: &str,
    end: &Ended<'_>,
    at: usize,
    why: &str,
) -> Result<(), AllocError> {
    match end.log.marks.get(at) {
        Some(mark) => append_record(alloc, text, form, rule, end.path, end.whose, *mark, why),
        None => Ok(()),
    }
}

/// How many datagrams came to these ends from addresses that are those of none of them.
fn count_others(alloc: Global, logs: &[EndLog<'_>]) -> Result<usize, AllocError> {
    let mut ends = HashSet::new(alloc);
    for log in logs {
        ends.insert(log.at)?;
    }
    let mut count = 0usize;
    for log in logs {
        count = count.saturating_add(others_in(&ends, log.items));
    }
    Ok(count)
}

/// How many of these items are datagrams that came from none of these ends.
fn others_in(ends: &HashSet<SocketAddr>, items: &[LogItem<'_>]) -> usize {
    let mut count = 0usize;
    for at in 0..items.len() {
        match items[at] {
            LogItem::Came { from, .. } if !ends.contains(&from) => {
                count = count.saturating_add(1);
            }
            LogItem::Started | LogItem::Came { .. } | LogItem::Sent { .. } | LogItem::Turned => {}
        }
    }
    count
}
