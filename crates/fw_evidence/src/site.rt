//! Where a meter is.

ghost use Rattle.std.specs.Prelude.{◌≡◌, ◌==◌};
ghost use Rattle.std.specs.List.{list_any};
ghost use Rattle.std.specs.Net.Socket.{socket_port};
ghost use Rattle.std.specs.Str.{bytes_eq};
ghost use Rattle.std.specs.declared.net.socket_addr.SocketAddr.{SocketAddr};
ghost use Rattle.std.specs.declared.net.socket_addr.SocketAddr.TheVariants.{V4, V6};
ghost use Rattle.fw_capture.specs.View.{endpoint_of, ipv4, ipv6};
ghost use Rattle.fw_evidence.specs.Entries.{is_head, is_other, is_own, same_end};

use std::net::{SocketAddr, SocketAddrV4, SocketAddrV6};

/// What an end is.
#[derive(Clone, Copy)]
pub enum Side {
    /// A meter.
    Meter,
    /// A head end.
    Head,
}

/// The address of a meter, those of the other meters of its process, which write into the same capture, and those that may ask them. A head end
/// is alone, and asks.
#[derive(Clone, Copy)]
pub struct Site<'a> {
    /// Whether it is a meter or a head end.
    pub side: Side,
    /// Its address, as the capture has it.
    pub at: SocketAddr,
    /// Theirs: other ports of the same IP address.
    pub others: &'a [SocketAddr],
    /// Who may ask, and any address if there is none.
    pub heads: &'a [SocketAddr],
}

impl<'a> Site<'a> {
    /// Whether an address is the meter's.
    pub(crate) fn is_own(&self, end: SocketAddr) -> bool
        ensures { result ≡ is_own self.now (endpoint_of end) }
    {
        is_same(self.at, end)
    }

    /// Whether it is that of another meter.
    pub(crate) fn is_other(&self, end: SocketAddr) -> bool
        ensures { result ≡ is_other self.now (endpoint_of end) }
    {
        self.others.iter().any(|other| is_same(*other, end))
    }

    /// Whether another meter has this port.
    pub(crate) fn has_other_port(&self, port: u16) -> bool
        ensures { result ≡ list_any (λ (other : SocketAddr). socket_port other == port) self.now.others.now }
    {
        self.others.iter().any(|other| other.port() == port)
    }

    /// Whether an address of IPv4 is one of those that may ask.
    pub(crate) fn has_head_v4(&self, octets: &[u8], port: u16) -> bool
        ensures { result ≡ is_head self.now (ipv4 octets.now port) }
    {
        self.heads.iter().any(|head| is_at_v4(*head, octets, port))
    }

    /// Whether one of IPv6 is.
    pub(crate) fn has_head_v6(&self, octets: &[u8], port: u16) -> bool
        ensures { result ≡ is_head self.now (ipv6 octets.now port) }
    {
        self.heads.iter().any(|head| is_at_v6(*head, octets, port))
    }
}

/// Whether an address is this one of IPv4.
fn is_at_v4(head: SocketAddr, octets: &[u8], port: u16) -> bool
    ensures { result ≡ same_end (endpoint_of head) (ipv4 octets.now port) }
{
    match head {
        SocketAddr::V4(head) => head.port() == port && are_same(&head.ip().octets(), octets),
        SocketAddr::V6(_) => false,
    }
}

/// Whether an address is this one of IPv6.
fn is_at_v6(head: SocketAddr, octets: &[u8], port: u16) -> bool
    ensures { result ≡ same_end (endpoint_of head) (ipv6 octets.now port) }
{
    match head {
        SocketAddr::V4(_) => false,
        SocketAddr::V6(head) => head.port() == port && are_same(&head.ip().octets(), octets),
    }
}

/// Whether two addresses are of one family, and have one IP address and one port. More of an address no capture has.
fn is_same(one: SocketAddr, other: SocketAddr) -> bool
    ensures { result ≡ same_end (endpoint_of one) (endpoint_of other) }
{
    match (one, other) {
        (SocketAddr::V4(one), SocketAddr::V4(other)) => is_same_v4(one, other),
        (SocketAddr::V6(one), SocketAddr::V6(other)) => is_same_v6(one, other),
        (SocketAddr::V4(_), SocketAddr::V6(_)) | (SocketAddr::V6(_), SocketAddr::V4(_)) => false,
    }
}

/// Whether two addresses of IPv4 are.
fn is_same_v4(one: SocketAddrV4, other: SocketAddrV4) -> bool
    ensures { result ≡ same_end (endpoint_of (V4 one)) (endpoint_of (V4 other)) }
{
    let (octets, others) = (one.ip().octets(), other.ip().octets());
    one.port() == other.port() && are_same(&octets, &others)
}

/// Whether two addresses of IPv6 are.
fn is_same_v6(one: SocketAddrV6, other: SocketAddrV6) -> bool
    ensures { result ≡ same_end (endpoint_of (V6 one)) (endpoint_of (V6 other)) }
{
    let (octets, others) = (one.ip().octets(), other.ip().octets());
    one.port() == other.port() && are_same(&octets, &others)
}

/// Whether bytes are the same.
fn are_same(bytes: &[u8], others: &[u8]) -> bool
    ensures { result ≡ bytes_eq bytes.now others.now }
{
    bytes == others
}
