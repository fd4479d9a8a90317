//! What an end tells.

use fw_audit::LogItem;
use std::net::SocketAddr;

/// The log of an end, a meter or a head end.
#[derive(Clone, Copy)]
pub struct EndLog<'a> {
    /// The address that others see of it.
    pub at: SocketAddr,
    /// Its items, in its order.
    pub items: &'a [LogItem<'a>],
}
