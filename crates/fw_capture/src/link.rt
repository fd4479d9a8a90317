//! What a frame of a link carries: the type of its content, as Ethernet has it, and the content.

ghost use Rattle.std.specs.Prelude.{◌+◌, ◌≤◌};
ghost use Rattle.fw_capture.specs.Reading.{ethernet_at, typed_at, raw_at, link_at};
ghost use Rattle.fw_capture.specs.Private.{Gives};

use crate::fault::CaptureFault;
use crate::format::Link;
use crate::number::short_at;

/// The type of IPv4 among those of Ethernet.
pub(crate) const IPV4: u16 = 0x0800;

/// The type of IPv6.
pub(crate) const IPV6: u16 = 0x86dd;

/// The type of a tag of a virtual network (IEEE 802.1Q).
const TAG: u16 = 0x8100;

/// What stands behind a header of this size, and its type, which the header has at this place.
fn typed(place: usize, size: usize, bytes: &[u8]) -> Result<(u16, &[u8]), CaptureFault>
    requires { place + 2 ≤ size }
    ensures { Gives (λ x. (x.0, x.1.now)) result (typed_at place size bytes.now) }
{
    if bytes.len() < size {
        return Err(CaptureFault::ShortLink);
    }
    Ok((short_at(place, bytes), &bytes[size..]))
}

/// What stands behind a header of Ethernet, and behind a tag.
fn ethernet(frame: &[u8]) -> Result<(u16, &[u8]), CaptureFault>
    ensures { Gives (λ x. (x.0, x.1.now)) result (ethernet_at frame.now) }
{
    let (kind, rest) = typed(12, 14, frame)?;
    if kind == TAG {
        typed(2, 4, rest)
    } else {
        Ok((kind, rest))
    }
}

/// An IP packet, by its version.
fn raw(packet: &[u8]) -> Result<(u16, &[u8]), CaptureFault>
    ensures { Gives (λ x. (x.0, x.1.now)) result (raw_at packet.now) }
{
    let [first, ..] = packet else {
        return Err(CaptureFault::ShortLink);
    };
    match first / 16 {
        4 => Ok((IPV4, packet)),
        6 => Ok((IPV6, packet)),
        _ => Err(CaptureFault::BadIpVersion),
    }
}

/// What a frame carries.
pub(crate) fn carried(link: Link, frame: &[u8]) -> Result<(u16, &[u8]), CaptureFault>
    ensures { Gives (λ x. (x.0, x.1.now)) result (link_at link frame.now) }
{
    match link {
        Link::Ethernet => ethernet(frame),
        Link::Cooked => typed(14, 16, frame),
        Link::CookedTwo => typed(0, 20, frame),
        Link::Raw => raw(frame),
    }
}
