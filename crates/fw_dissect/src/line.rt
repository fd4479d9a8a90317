//! The line of a record.

ghost use Rattle.std.specs.Prelude.{◌≡◌, ◌+◌, ◌<◌, ◌^◌, ◌++◌, ℕ, List, codes, IfOk, OnOk, string_bytes};
ghost use Rattle.fw_capture.specs.View.{endpoint_of, told_in};
ghost use Rattle.fw_dissect.specs.Lines.{AreWords, IsLine, IsTimeIf, datagram_line, endpoint_text, ends_text, front_text, note_line, number_after};

use crate::words::append_words;
use fw_calendar::append_time;
use fw_capture::{Content, Note, Packet};
use fw_seal::Link;
use std::alloc::{AllocError, Global};
use std::net::{Ipv4Addr, Ipv6Addr, SocketAddr};

/// Appends the line of a packet, with its time where times are asked for, and returns the number of the next datagram.
pub(crate) fn append_line(
    alloc: Global,
    links: &[Link],
    times: bool,
    text: &mut String,
    number: u64,
    packet: &Packet<'_>,
) -> Result<u64, AllocError>
    requires { number + 1 < 2 ^ 64 }
    ensures number { IfOk result (λ next. next ≡ number_after number (told_in packet.now.content)) }
    ensures line { OnOk result ((line : List ℕ) × IsLine times links.now number packet.now.nanoseconds (told_in packet.now.content) line
        × (string_bytes text.new ≡ string_bytes text.old ++ line)) }
{
    match packet.content {
        None => Ok(number),
        Some(Content::Note(note)) => {
            append_time_if(text, times, packet.nanoseconds)?;
            append_note(text, note)?;
            Ok(number)
        }
        Some(Content::Datagram { from, to, bytes }) => {
            append_time_if(text, times, packet.nanoseconds)?;
            append_datagram(alloc, links, text, number, from, to, bytes)?;
            Ok(number + 1)
        }
    }
}

/// Appends the time of a line and a space, where times are asked for.
fn append_time_if(text: &mut String, times: bool, nanoseconds: u64) -> Result<(), AllocError>
    ensures { OnOk result ((front : List ℕ) × IsTimeIf times nanoseconds front
        × (string_bytes text.new ≡ string_bytes text.old ++ front)) }
{
    if !times {
        return Ok(());
    }
    append_time(text, nanoseconds)?;
    text.push_str(" ")
}

/// Appends the line of a note.
fn append_note(text: &mut String, note: Note) -> Result<(), AllocError>
    ensures { OnOk result (string_bytes text.new ≡ string_bytes text.old ++ note_line note) }
{
    match note {
        Note::Start => text.push_str("start\n"),
        Note::MeterStart { count, heads } => append_meter_start(text, count, heads),
        Note::HeadStart(head) => write!(text, "start head {head}\n"),
        Note::MayAskV4(octets, port) => append_asking_v4(text, octets, port),
        Note::MayAskV6(octets, port) => append_asking_v6(text, octets, port),
        Note::Turn => text.push_str("turn\n"),
        Note::TurnAt(port) => write!(text, "turn {port}\n"),
        Note::UnservedAt(port) => write!(text, "unserved {port}\n"),
        Note::Strangers(count) => write!(text, "strangers {count}\n"),
    }
}

/// Appends the line of a start of meters.
fn append_meter_start(text: &mut String, count: u32, heads: u64) -> Result<(), AllocError>
    ensures { OnOk result (string_bytes text.new ≡ string_bytes text.old ++ note_line (Note.MeterStart count heads)) }
{
    write!(text, "start meter count {count} heads {heads}\n")
}

/// Appends the line of an address of IPv4 that may ask.
fn append_asking_v4(text: &mut String, octets: [u8; 4], port: u16) -> Result<(), AllocError>
    ensures { OnOk result (string_bytes text.new ≡ string_bytes text.old ++ note_line (Note.MayAskV4 octets port)) }
{
    let ip = Ipv4Addr::from_octets(octets);
    write!(text, "may ask {ip}:{port}\n")
}

/// Appends the line of an address of IPv6 that may ask.
fn append_asking_v6(text: &mut String, octets: [u8; 16], port: u16) -> Result<(), AllocError>
    ensures { OnOk result (string_bytes text.new ≡ string_bytes text.old ++ note_line (Note.MayAskV6 octets port)) }
{
    let ip = Ipv6Addr::from_octets(octets);
    write!(text, "may ask [{ip}]:{port}\n")
}

/// Appends the line of a datagram.
fn append_datagram(
    alloc: Global,
    links: &[Link],
    text: &mut String,
    number: u64,
    from: SocketAddr,
    to: SocketAddr,
    bytes: &[u8],
) -> Result<(), AllocError>
    ensures { OnOk result ((words : List ℕ) × AreWords links.now bytes.now words
        × (string_bytes text.new ≡ string_bytes text.old ++ datagram_line number (endpoint_of from) (endpoint_of to) words)) }
{
    append_front(text, number, from, to)?;
    append_words(alloc, links, text, bytes)?;
    append_end(text)
}

/// Appends what stands before the words of a line.
fn append_front(
    text: &mut String,
    number: u64,
    from: SocketAddr,
    to: SocketAddr,
) -> Result<(), AllocError>
    ensures { OnOk result (string_bytes text.new ≡ string_bytes text.old ++ front_text number (endpoint_of from) (endpoint_of to)) }
{
    write!(text, "{number} ")?;
    append_ends(text, from, to)?;
    text.push_str("  ")
}

/// Appends the end of a line.
fn append_end(text: &mut String) -> Result<(), AllocError>
    ensures { OnOk result (string_bytes text.new ≡ string_bytes text.old ++ codes "\n") }
{
    text.push_str("\n")
}

/// Appends where a datagram came from and went to.
fn append_ends(text: &mut String, from: SocketAddr, to: SocketAddr) -> Result<(), AllocError>
    ensures { OnOk result (string_bytes text.new ≡ string_bytes text.old ++ ends_text (endpoint_of from) (endpoint_of to)) }
{
    append_endpoint(text, from)?;
    text.push_str(" -> ")?;
    append_endpoint(text, to)
}

/// Appends an address and a port.
fn append_endpoint(text: &mut String, at: SocketAddr) -> Result<(), AllocError>
    ensures { OnOk result (string_bytes text.new ≡ string_bytes text.old ++ endpoint_text (endpoint_of at)) }
{
    match at {
        SocketAddr::V4(at) => {
            let (ip, port) = (at.ip(), at.port());
            write!(text, "{ip}:{port}")
        }
        SocketAddr::V6(at) => {
            // Of the octets alone, without a scope.
            let (ip, port) = (Ipv6Addr::from_octets(at.ip().octets()), at.port());
            write!(text, "[{ip}]:{port}")
        }
    }
}
