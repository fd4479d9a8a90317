//! The search for an order.

ghost use Rattle.std.specs.Prelude.{IfErr, OnOk};
ghost use Rattle.fw_order.specs.Order.{HasOrder, ends_of};
ghost use Rattle.fw_order.specs.Departures.{IsRefused};
ghost use Rattle.fw_order.specs.Private.{IsGone, far};

use crate::error::OrderError;
use crate::going::{all_logs, go_on, next_end};
use crate::log::EndLog;
use crate::sent::Sent;
use crate::stuck::departure;
use std::alloc::Global;

/// Whether there is an order of all items of these logs, each log in its own order, in which each datagram that came and shows the address of
/// one of these ends was sent before by an end of that address. Of datagrams that were sent and didn't come nothing is asked.
///
/// # Errors
///
/// - `Departs` just if there is no such order. It is an item up to which an end comes in such an order of the fronts of logs, and no further
///   in any. A datagram that no end sent is told rather than one that was sent later.
/// - `OutOfMemory`: memory was refused, which is wanted only if there is an end. Nothing is said of the logs.
pub fn join(alloc: Global, logs: &[EndLog<'_>]) -> Result<(), OrderError>
    ensures agree { OnOk result (HasOrder (ends_of logs.now)) }
    ensures refused { IfErr result (λ error. IsRefused (ends_of logs.now) error) }
{
    let Ok(mut left) = all_logs(alloc, logs) else {
        return Err(OrderError::OutOfMemory);
    };
    let mut sent = Sent::none(alloc);
    look_for(logs, left.as_mut_slice(), &mut sent)
}

/// The same from here on, where nothing is done.
fn look_for<'a>(
    logs: &[EndLog<'a>],
    left: &mut [EndLog<'a>],
    sent: &mut Sent<'a>,
) -> Result<(), OrderError>
    requires { IsGone (ends_of logs.now) (far left.old sent.old) }
    ensures agree { OnOk result (HasOrder (ends_of logs.now)) }
    ensures refused { IfErr result (λ error. IsRefused (ends_of logs.now) error) }
{
    let mut last = 0;
    while let Some(number) = next_end(left, sent, last) {
        match go_on(left, sent, number) {
            Ok(()) => last = number,
            Err(_) => return Err(OrderError::OutOfMemory),
        }
    }
    match departure(logs, left, sent) {
        Some(departure) => Err(OrderError::Departs(departure)),
        None => Ok(()),
    }
}
