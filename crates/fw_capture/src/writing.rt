//! Writing a capture.

ghost use Rattle.std.specs.Prelude.{◌≡◌, ◌+◌, ◌/◌, ◌<◌, ◌^◌, ◌++◌, length, None, OnOk, OnErr, IfOk, IfErr};
ghost use Rattle.std.specs.declared.net.socket_addr.SocketAddr.TheVariants.{V4, V6};
ghost use Rattle.fw_capture.specs.View.{datagram, endpoint_of, told_of, IsTold};
ghost use Rattle.fw_capture.specs.Spelling.{file_header, record_header, second, note_text, note_protocol, loopback, ip_packet, ipv4_packet, datagram_packet, packet_bytes};
ghost use Rattle.fw_capture.specs.Refusal.{refusal_of, IsRefusal, two_families, too_long};
ghost use Rattle.fw_capture.specs.Private.{Begins};

use crate::error::AppendError;
use crate::internet::{
    UDP, ipv4_pseudo_sum, ipv6_pseudo_sum, put_ipv4_header, put_ipv6_header, put_udp,
};
use crate::note::{NOTE_PROTOCOL, note_size, put_note_text};
use crate::packet::{Captured, Content, Note, SECOND};
use std::alloc::{AllocError, Global};
use std::net::{SocketAddr, SocketAddrV4, SocketAddrV6};

/// The file header of a capture, which the packets follow.
pub fn file_header(alloc: Global) -> Result<Vec<u8>, AllocError>
    ensures { IfOk result (λ capture. capture.items ≡ file_header) }
{
    let mut capture = Vec::with_capacity(alloc, 24)?;
    capture.extend_from_slice(&0xa1b2_3c4d_u32.to_le_bytes())?;
    capture.extend_from_slice(&2_u16.to_le_bytes())?;
    capture.extend_from_slice(&4_u16.to_le_bytes())?;
    capture.extend_from_slice(&0_u32.to_le_bytes())?;
    capture.extend_from_slice(&0_u32.to_le_bytes())?;
    capture.extend_from_slice(&65_535_u32.to_le_bytes())?;
    capture.extend_from_slice(&101_u32.to_le_bytes())?;
    Ok(capture)
}

/// The longest IP packet.
pub(crate) const MAX_PACKET: usize = 65_535;

/// The address that a note goes from and to.
const LOOPBACK: [u8; 4] = [127, 0, 0, 1];

/// Why a packet is refused.
fn refusal_of(captured: &Captured<'_>) -> Option<AppendError>
    ensures { result ≡ refusal_of captured.now.nanoseconds (told_of captured.now.content) }
{
    if captured.nanoseconds / SECOND > u64::from(u32::MAX) {
        return Some(AppendError::TimePast);
    }
    match captured.content {
        Content::Note(_) => None,
        Content::Datagram { from, to, bytes } => match (from, to) {
            (SocketAddr::V4(_), SocketAddr::V4(_)) => {
                (bytes.len() > MAX_PACKET - 28).then_some(AppendError::TooLong)
            }
            (SocketAddr::V6(_), SocketAddr::V6(_)) => {
                (bytes.len() > MAX_PACKET - 48).then_some(AppendError::TooLong)
            }
            (SocketAddr::V4(_), SocketAddr::V6(_)) | (SocketAddr::V6(_), SocketAddr::V4(_)) => {
                Some(AppendError::TwoFamilies)
            }
        },
    }
}

/// Appends the header of a record, of a packet of `size` bytes.
fn put_record_header(out: &mut Vec<u8>, nanoseconds: u64, size: u32) -> Result<(), AllocError>
    requires { nanoseconds / second < 2 ^ 32 }
    ensures ok { OnOk result (out.new.items ≡ out.old.items ++ record_header nanoseconds size) }
    ensures front { Begins out.old.items out.new.items }
{
    out.extend_from_slice(&((nanoseconds / SECOND) as u32).to_le_bytes())?;
    out.extend_from_slice(&((nanoseconds % SECOND) as u32).to_le_bytes())?;
    out.extend_from_slice(&size.to_le_bytes())?;
    out.extend_from_slice(&size.to_le_bytes())?;
    Ok(())
}

/// Appends the record of a note.
#[tactic(auto, unfolding(crate::specs::Spelling::packet_bytes))]
fn put_note(out: &mut Vec<u8>, nanoseconds: u64, note: Note) -> Result<(), AllocError>
    requires { nanoseconds / second < 2 ^ 32 }
    ensures ok { OnOk result (out.new.items ≡ out.old.items
        ++ packet_bytes nanoseconds (told_of (Content.Note note))) }
    ensures told { IsTold (told_of (Content.Note note)) }
    ensures front { Begins out.old.items out.new.items }
{
    let size = 20 + note_size(note);
    put_record_header(out, nanoseconds, size as u32)?;
    put_ipv4_header(out, NOTE_PROTOCOL, size as u16, LOOPBACK, LOOPBACK)?;
    put_note_text(out, note)?;
    Ok(())
}

/// Appends the record of a datagram between two addresses of IPv4.
fn put_ipv4(
    out: &mut Vec<u8>,
    nanoseconds: u64,
    from: SocketAddrV4,
    to: SocketAddrV4,
    bytes: &[u8],
) -> Result<(), AllocError>
    requires time { nanoseconds / second < 2 ^ 32 }
    requires len { 28 + length bytes.now < 2 ^ 16 }
    ensures ok { OnOk result (out.new.items ≡ out.old.items
        ++ packet_bytes nanoseconds (datagram (endpoint_of (V4 from)) (endpoint_of (V4 to)) bytes.now)) }
    ensures told { OnOk result (IsTold (datagram (endpoint_of (V4 from)) (endpoint_of (V4 to)) bytes.now)) }
    ensures front { Begins out.old.items out.new.items }
{
    let (source, dest) = (from.ip().octets(), to.ip().octets());
    let udp_size = 8 + bytes.len();
    let size = 20 + udp_size;
    let pseudo_sum = ipv4_pseudo_sum(source, dest, udp_size as u16);
    put_record_header(out, nanoseconds, size as u32)?;
    put_ipv4_header(out, UDP, size as u16, source, dest)?;
    put_udp(out, pseudo_sum, from.port(), to.port(), bytes)?;
    Ok(())
}

/// Appends the record of a datagram between two addresses of IPv6.
fn put_ipv6(
    out: &mut Vec<u8>,
    nanoseconds: u64,
    from: SocketAddrV6,
    to: SocketAddrV6,
    bytes: &[u8],
) -> Result<(), AllocError>
    requires time { nanoseconds / second < 2 ^ 32 }
    requires len { 48 + length bytes.now < 2 ^ 16 }
    ensures ok { OnOk result (out.new.items ≡ out.old.items
        ++ packet_bytes nanoseconds (datagram (endpoint_of (V6 from)) (endpoint_of (V6 to)) bytes.now)) }
    ensures told { OnOk result (IsTold (datagram (endpoint_of (V6 from)) (endpoint_of (V6 to)) bytes.now)) }
    ensures front { Begins out.old.items out.new.items }
{
    let (source, dest) = (from.ip().octets(), to.ip().octets());
    let udp_size = 8 + bytes.len();
    let size = 40 + udp_size;
    let pseudo_sum = ipv6_pseudo_sum(source, dest, udp_size as u16);
    put_record_header(out, nanoseconds, size as u32)?;
    put_ipv6_header(out, UDP, udp_size as u16, source, dest)?;
    put_udp(out, pseudo_sum, from.port(), to.port(), bytes)?;
    Ok(())
}

/// Appends a record that nothing refuses.
fn put(out: &mut Vec<u8>, captured: &Captured<'_>) -> Result<(), AllocError>
    requires { refusal_of captured.now.nanoseconds (told_of captured.now.content) ≡ None }
    ensures ok { OnOk result (out.new.items ≡ out.old.items
        ++ packet_bytes captured.now.nanoseconds (told_of captured.now.content)) }
    ensures told { OnOk result (IsTold (told_of captured.now.content)) }
    ensures front { Begins out.old.items out.new.items }
{
    let time = captured.nanoseconds;
    match captured.content {
        Content::Note(note) => put_note(out, time, note),
        Content::Datagram { from, to, bytes } => match (from, to) {
            (SocketAddr::V4(from), SocketAddr::V4(to)) => put_ipv4(out, time, from, to, bytes),
            (SocketAddr::V6(from), SocketAddr::V6(to)) => put_ipv6(out, time, from, to, bytes),
            (SocketAddr::V4(_), SocketAddr::V6(_)) | (SocketAddr::V6(_), SocketAddr::V4(_)) => {
                unreachable!()
            }
        },
    }
}

/// Appends the record of a packet to a capture.
///
/// # Errors
///
/// `TimePast`, `TwoFamilies` or `TooLong`: the first that applies. `OutOfMemory` only if none does. An error leaves the capture as
/// it was.
pub fn append_packet(capture: &mut Vec<u8>, captured: &Captured<'_>) -> Result<(), AppendError>
    ensures appended { OnOk result (capture.new.items ≡ capture.old.items
        ++ packet_bytes captured.now.nanoseconds (told_of captured.now.content)) }
    ensures allowed { OnOk result (refusal_of captured.now.nanoseconds (told_of captured.now.content) ≡ None) }
    ensures told { OnOk result (IsTold (told_of captured.now.content)) }
    ensures refused { IfErr result (λ e. IsRefusal
        (refusal_of captured.now.nanoseconds (told_of captured.now.content)) e) }
    ensures unchanged { OnErr result (capture.new.items ≡ capture.old.items) }
{
    if let Some(refusal) = refusal_of(captured) {
        return Err(refusal);
    }
    let len = capture.len();
    if put(capture, captured).is_err() {
        capture.truncate(len);
        return Err(AppendError::OutOfMemory);
    }
    Ok(())
}
