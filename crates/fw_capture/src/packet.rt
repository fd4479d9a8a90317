//! What a packet of a capture tells.

use std::net::SocketAddr;

/// The nanoseconds of a second.
pub(crate) const SECOND: u64 = 1_000_000_000;

/// What a process did that no datagram tells.
#[derive(Clone, Copy, Debug)]
pub enum Note {
    /// The process started, as older captures have it.
    Start,
    /// The process of meters started: of so many that a count asks for, and 0 for the one without a count. So many addresses may ask them,
    /// and any if there are none; a note of each follows.
    MeterStart { count: u32, heads: u64 },
    /// The process of the head end of this number started.
    HeadStart(u32),
    /// This address of IPv4 and this port may ask the meters of the process.
    MayAskV4([u8; 4], u16),
    /// This address of IPv6 and this port may.
    MayAskV6([u8; 16], u16),
    /// A meter took a turn of a verification. Of several in a process it isn't known which.
    Turn,
    /// The meter that has this port took a turn of a verification.
    TurnAt(u16),
    /// Memory was refused to the meter that has this port, for the datagram that came to it last: it is dropped.
    UnservedAt(u16),
    /// So many datagrams came from strangers since the last record, and have none.
    Strangers(u64),
}

/// What a packet tells.
#[derive(Clone, Copy)]
pub enum Content<'a> {
    /// A UDP datagram. Of the addresses only IP address and port count.
    Datagram {
        from: SocketAddr,
        to: SocketAddr,
        bytes: &'a [u8],
    },
    /// A note of the process.
    Note(Note),
}

/// A packet, and when it went over the wire.
#[derive(Clone, Copy)]
pub struct Captured<'a> {
    /// The time since the start of 1970, UTC.
    pub nanoseconds: u64,
    pub content: Content<'a>,
}

/// A packet of a capture.
#[derive(Clone, Copy)]
pub struct Packet<'a> {
    /// Where its record begins in the file.
    pub offset: usize,
    /// The time since the start of 1970, UTC.
    pub nanoseconds: u64,
    /// What it tells. There is none if it is neither UDP over IP in one piece nor a note.
    pub content: Option<Content<'a>>,
}
