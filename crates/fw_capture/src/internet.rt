//! IP packets and UDP datagrams, as they are written.

ghost use Rattle.std.specs.Prelude.{◌≡◌, ◌+◌, ◌<◌, ◌≤◌, ◌^◌, ◌++◌, length, OnOk};
ghost use Rattle.fw_capture.specs.Checksum.{checksum, word_sum};
ghost use Rattle.fw_capture.specs.Spelling.{ipv4_header, ipv6_header, ipv4_pseudo, ipv6_pseudo};
ghost use Rattle.fw_capture.specs.Private.{Begins, udp_checksum, udp_summed};

use crate::checksum::{checksum_of, word_sum};
use std::alloc::AllocError;

/// The number of UDP among the protocols of IP.
pub(crate) const UDP: u8 = 17;

/// The sum of the words of an IPv4 header with no checksum.
fn ipv4_header_sum(protocol: u8, size: u16, from: [u8; 4], to: [u8; 4]) -> u64
    ensures { result ≡ word_sum (ipv4_header protocol size from to 0) }
{
    let [s1, s0] = size.to_be_bytes();
    let front = word_sum(0, &[0x45, 0, s1, s0, 0, 0, 0x40, 0, 64, protocol]);
    let source = word_sum(front, &from);
    word_sum(source, &to)
}

/// The checksum of an IPv4 header.
fn ipv4_checksum(protocol: u8, size: u16, from: [u8; 4], to: [u8; 4]) -> u16
    ensures { result ≡ checksum (ipv4_header protocol size from to 0) }
{
    checksum_of(ipv4_header_sum(protocol, size, from, to))
}

/// Appends the header of an IPv4 packet of `size` bytes.
pub(crate) fn put_ipv4_header(
    out: &mut Vec<u8>,
    protocol: u8,
    size: u16,
    from: [u8; 4],
    to: [u8; 4],
) -> Result<(), AllocError>
    ensures ok { OnOk result (out.new.items ≡ out.old.items
        ++ ipv4_header protocol size from to (checksum (ipv4_header protocol size from to 0))) }
    ensures front { Begins out.old.items out.new.items }
{
    let sum = ipv4_checksum(protocol, size, from, to);
    out.extend_from_slice(&[0x45, 0])?;
    out.extend_from_slice(&size.to_be_bytes())?;
    out.extend_from_slice(&[0, 0, 0x40, 0, 64, protocol])?;
    out.extend_from_slice(&sum.to_be_bytes())?;
    out.extend_from_slice(&from)?;
    out.extend_from_slice(&to)?;
    Ok(())
}

/// Appends the header of an IPv6 packet with `size` bytes after it.
pub(crate) fn put_ipv6_header(
    out: &mut Vec<u8>,
    protocol: u8,
    size: u16,
    from: [u8; 16],
    to: [u8; 16],
) -> Result<(), AllocError>
    ensures ok { OnOk result (out.new.items ≡ out.old.items ++ ipv6_header protocol size from to) }
    ensures front { Begins out.old.items out.new.items }
{
    out.extend_from_slice(&[0x60, 0, 0, 0])?;
    out.extend_from_slice(&size.to_be_bytes())?;
    out.extend_from_slice(&[protocol, 64])?;
    out.extend_from_slice(&from)?;
    out.extend_from_slice(&to)?;
    Ok(())
}

/// The sum of the words of an IPv4 pseudo header.
pub(crate) fn ipv4_pseudo_sum(from: [u8; 4], to: [u8; 4], size: u16) -> u64
    ensures sum { result ≡ word_sum (ipv4_pseudo from to size) }
    ensures bound { result < 2 ^ 32 }
{
    let [s1, s0] = size.to_be_bytes();
    let source = word_sum(0, &from);
    let addresses = word_sum(source, &to);
    word_sum(addresses, &[0, UDP, s1, s0])
}

/// The sum of the words of an IPv6 pseudo header.
pub(crate) fn ipv6_pseudo_sum(from: [u8; 16], to: [u8; 16], size: u16) -> u64
    ensures sum { result ≡ word_sum (ipv6_pseudo from to size) }
    ensures bound { result < 2 ^ 32 }
{
    let [s1, s0] = size.to_be_bytes();
    let source = word_sum(0, &from);
    let addresses = word_sum(source, &to);
    word_sum(addresses, &[0, 0, s1, s0, 0, 0, 0, UDP])
}

/// The checksum of a UDP datagram, for the sum of its pseudo header.
fn udp_checksum(pseudo_sum: u64, from: u16, to: u16, bytes: &[u8]) -> u16
    requires bound { pseudo_sum < 2 ^ 32 }
    requires len { length bytes.now ≤ 65507 }
    ensures { result ≡ udp_checksum pseudo_sum from to bytes.now }
{
    let [f1, f0] = from.to_be_bytes();
    let [t1, t0] = to.to_be_bytes();
    let [s1, s0] = ((8 + bytes.len()) as u16).to_be_bytes();
    let front = word_sum(pseudo_sum, &[f1, f0, t1, t0, s1, s0, 0, 0]);
    let sum = checksum_of(word_sum(front, bytes));
    if sum == 0 { 0xffff } else { sum }
}

/// Appends a UDP datagram, for the sum of its pseudo header.
pub(crate) fn put_udp(
    out: &mut Vec<u8>,
    pseudo_sum: u64,
    from: u16,
    to: u16,
    bytes: &[u8],
) -> Result<(), AllocError>
    requires bound { pseudo_sum < 2 ^ 32 }
    requires len { length bytes.now ≤ 65507 }
    ensures ok { OnOk result (out.new.items ≡ out.old.items ++ udp_summed pseudo_sum from to bytes.now) }
    ensures front { Begins out.old.items out.new.items }
{
    let sum = udp_checksum(pseudo_sum, from, to, bytes);
    out.extend_from_slice(&from.to_be_bytes())?;
    out.extend_from_slice(&to.to_be_bytes())?;
    out.extend_from_slice(&((8 + bytes.len()) as u16).to_be_bytes())?;
    out.extend_from_slice(&sum.to_be_bytes())?;
    out.extend_from_slice(bytes)?;
    Ok(())
}
