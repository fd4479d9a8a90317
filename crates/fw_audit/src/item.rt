//! What a log has.

use std::net::SocketAddr;

/// An item of the log of a meter.
#[derive(Clone, Copy)]
pub enum LogItem<'a> {
    /// Its process was started.
    Started,
    /// A datagram came, before anything was done with it.
    Came { from: SocketAddr, bytes: &'a [u8] },
    /// A datagram is sent.
    Sent { to: SocketAddr, bytes: &'a [u8] },
    /// The meter takes a turn of a verification.
    Turned,
}
