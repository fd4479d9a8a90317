//! A capture, read as the log of a head end.

ghost use Rattle.std.specs.Prelude.{IfErr, IfOk};
ghost use Rattle.fw_audit.specs.Log.{log_of};
ghost use Rattle.fw_evidence.specs.Heads.{IsHeadLogOf, IsHeadSite, IsNoHeadLog};

use crate::error::LogError;
use crate::log::{Log, read_log};
use crate::site::{Side, Site};
use std::alloc::Global;
use std::net::SocketAddr;

/// Nobody.
const NONE: &[SocketAddr] = &[];

/// The log of the head end at this address, if all records of this capture are its own: each start, each datagram that came to its address
/// and each that was sent from there, in their order, with the record of each. A note that counts datagrams of strangers says nothing in it.
///
/// # Errors
///
/// - `Fault` or `Stray`, whichever comes first in the capture. A start of meters is a stray, and so is a note of a turn.
/// - `OutOfMemory`: memory was refused for an item. The records before it are the head end's.
pub fn read_head_log<'a>(
    alloc: Global,
    at: SocketAddr,
    capture: &'a [u8],
) -> Result<Log<'a>, LogError>
    ensures log { IfOk result (λ log. IsHeadLogOf at capture.now (log_of log.items.items) log.marks.items) }
    ensures none { IfErr result (λ error. IsNoHeadLog at capture.now error) }
{
    read_log(alloc, head_site(at), capture)
}

/// A head end at its address.
fn head_site<'a>(at: SocketAddr) -> Site<'a>
    ensures { IsHeadSite at result }
{
    Site {
        side: Side::Head,
        at,
        others: NONE,
        heads: NONE,
    }
}
