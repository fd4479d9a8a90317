//! What an IP packet carries, as far as it is UDP or a note.

ghost use Rattle.std.specs.Prelude.{◌≡◌, ◌+◌, ◌≤◌, length, take, drop};
ghost use Rattle.std.specs.Net.Addr.{ipv4_octets, ipv6_octets};
ghost use Rattle.fw_capture.specs.View.{told_in, told_of};
ghost use Rattle.fw_capture.specs.Reading.{udp_at, note_at, is_passed_over, ipv4_payload_at, ipv6_payload_at, ipv4_at, ipv6_at, packet_at};
ghost use Rattle.fw_capture.specs.Private.{Gives};

use crate::fault::CaptureFault;
use crate::internet::UDP;
use crate::link::{IPV4, IPV6};
use crate::note::{NOTE_PROTOCOL, note_behind_words, start_text, turn_text};
use crate::number::short_at;
use crate::packet::{Content, Note};
use std::net::{Ipv4Addr, Ipv6Addr, SocketAddr, SocketAddrV4, SocketAddrV6};

/// The bit of an IPv4 header which says that the packet may not be fragmented, and what stands above it.
const MAY_NOT_BE_FRAGMENTED: u16 = 0x4000;

/// The IPv4 address at a place.
fn ipv4_address_at(bytes: &[u8], place: usize) -> Ipv4Addr
    requires { place + 4 ≤ length bytes.now }
    ensures { ipv4_octets result ≡ take 4 (drop place bytes.now) }
{
    let [a, b, c, d, ..] = &bytes[place..] else {
        unreachable!()
    };
    Ipv4Addr::new(*a, *b, *c, *d)
}

/// The IPv6 address at a place.
fn ipv6_address_at(bytes: &[u8], place: usize) -> Ipv6Addr
    requires { place + 16 ≤ length bytes.now }
    ensures { ipv6_octets result ≡ take 16 (drop place bytes.now) }
{
    let mut octets = [0; 16];
    octets.copy_from_slice(&bytes[place..place + 16]);
    Ipv6Addr::from_octets(octets)
}

/// The ports of a UDP datagram, and its data.
#[tactic(auto, unfolding(crate::specs::Reading::udp_at))]
fn udp(payload: &[u8]) -> Result<(u16, u16, &[u8]), CaptureFault>
    ensures { Gives (λ x. (x.0, x.1, x.2.now)) result (udp_at payload.now) }
{
    let [f1, f0, t1, t0, s1, s0, _, _, bytes @ ..] = payload else {
        return Err(CaptureFault::BadUdpLength);
    };
    if usize::from(u16::from_be_bytes([*s1, *s0])) != payload.len() {
        return Err(CaptureFault::BadUdpLength);
    }
    let from = u16::from_be_bytes([*f1, *f0]);
    let to = u16::from_be_bytes([*t1, *t0]);
    Ok((from, to, bytes))
}

/// The note of this text.
fn note(payload: &[u8]) -> Option<Content<'_>>
    ensures { told_in result ≡ note_at payload.now }
{
    if payload == start_text() {
        Some(Content::Note(Note::Start))
    } else if payload == turn_text() {
        Some(Content::Note(Note::Turn))
    } else {
        note_behind_words(payload)
    }
}

/// What a datagram or a packet for experiments holds, by the header of its IPv4 packet.
fn ipv4_payload<'a>(packet: &[u8], payload: &'a [u8]) -> Result<Option<Content<'a>>, CaptureFault>
    requires { 20 ≤ length packet.now }
    ensures { Gives told_in result (ipv4_payload_at packet.now payload.now) }
{
    if packet[9] != UDP {
        return Ok(note(payload));
    }
    let (source, dest, bytes) = udp(payload)?;
    Ok(Some(Content::Datagram {
        from: SocketAddr::V4(SocketAddrV4::new(ipv4_address_at(packet, 12), source)),
        to: SocketAddr::V4(SocketAddrV4::new(ipv4_address_at(packet, 16), dest)),
        bytes,
    }))
}

/// Whether an IPv4 packet is a fragment, or neither UDP nor for experiments.
fn is_passed_over(packet: &[u8]) -> bool
    requires { 20 ≤ length packet.now }
    ensures { result ≡ is_passed_over packet.now }
{
    let is_fragment = short_at(6, packet) % MAY_NOT_BE_FRAGMENTED != 0;
    is_fragment || !(packet[9] == UDP || packet[9] == NOTE_PROTOCOL)
}

/// What an IPv4 packet carries.
#[tactic(auto, unfolding(crate::specs::Reading::ipv4_at))]
fn ipv4(packet: &[u8]) -> Result<Option<Content<'_>>, CaptureFault>
    ensures { Gives told_in result (ipv4_at packet.now) }
{
    if packet.len() < 20 {
        return Err(CaptureFault::ShortIp);
    }
    if packet[0] / 16 != 4 {
        return Err(CaptureFault::BadIpVersion);
    }
    let header_size = usize::from(packet[0] % 16) * 4;
    if header_size < 20 || packet.len() < header_size {
        return Err(CaptureFault::BadIpHeader);
    }
    if is_passed_over(packet) {
        return Ok(None);
    }
    let size = usize::from(short_at(2, packet));
    if size < header_size || packet.len() < size {
        return Err(CaptureFault::BadIpLength);
    }
    ipv4_payload(packet, &packet[header_size..size])
}

/// What a datagram holds, by the header of its IPv6 packet.
fn ipv6_payload<'a>(packet: &[u8], payload: &'a [u8]) -> Result<Option<Content<'a>>, CaptureFault>
    requires { 40 ≤ length packet.now }
    ensures { Gives told_in result (ipv6_payload_at packet.now payload.now) }
{
    let (source, dest, bytes) = udp(payload)?;
    let from = ipv6_address_at(packet, 8);
    let to = ipv6_address_at(packet, 24);
    Ok(Some(Content::Datagram {
        from: SocketAddr::V6(SocketAddrV6::new(from, source, 0, 0)),
        to: SocketAddr::V6(SocketAddrV6::new(to, dest, 0, 0)),
        bytes,
    }))
}

/// What an IPv6 packet carries.
#[tactic(auto, unfolding(crate::specs::Reading::ipv6_at))]
fn ipv6(packet: &[u8]) -> Result<Option<Content<'_>>, CaptureFault>
    ensures { Gives told_in result (ipv6_at packet.now) }
{
    if packet.len() < 40 {
        return Err(CaptureFault::ShortIp);
    }
    if packet[0] / 16 != 6 {
        return Err(CaptureFault::BadIpVersion);
    }
    if packet[6] != UDP {
        return Ok(None);
    }
    let end = 40 + usize::from(short_at(4, packet));
    if packet.len() < end {
        return Err(CaptureFault::BadIpLength);
    }
    ipv6_payload(packet, &packet[40..end])
}

/// What a packet of a type carries. One of another type than those of IP is passed over.
pub(crate) fn content(kind: u16, packet: &[u8]) -> Result<Option<Content<'_>>, CaptureFault>
    ensures { Gives told_in result (packet_at kind packet.now) }
{
    match kind {
        IPV4 => ipv4(packet),
        IPV6 => ipv6(packet),
        _ => Ok(None),
    }
}
