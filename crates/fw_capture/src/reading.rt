//! Reading a capture that is held in memory.

ghost use Rattle.std.specs.Prelude.{◌≡◌, ◌≤◌, length, IfOk};
ghost use Rattle.fw_capture.specs.View.{told_in};
ghost use Rattle.fw_capture.specs.Reading.{magic_at, link_of, header_at, frame_at, record_at};
ghost use Rattle.fw_capture.specs.Private.{Gives};

use crate::datagram::content;
use crate::fault::CaptureFault;
use crate::format::{Format, Link};
use crate::link::carried;
use crate::number::{half_at, number_at};
use crate::packet::{Content, SECOND};

/// The bytes of the file header.
pub const FILE_HEADER_SIZE: usize = 24;

/// The bytes of the header of a record.
pub(crate) const RECORD_HEADER_SIZE: usize = 16;

const NANOSECONDS: u32 = 0xa1b2_3c4d;

const MICROSECONDS: u32 = 0xa1b2_c3d4;

/// The type of the block that a file in the form pcapng begins with. It is the same in either order of bytes.
const PCAPNG: u32 = 0x0a0d_0d0a;

/// The order of bytes, and whether fractions are nanoseconds, by the magic number.
fn magic_at(bytes: &[u8]) -> Option<(bool, bool)>
    requires { 4 ≤ length bytes.now }
    ensures { result ≡ magic_at bytes.now }
{
    match (number_at(true, 0, bytes), number_at(false, 0, bytes)) {
        (NANOSECONDS, _) => Some((true, true)),
        (MICROSECONDS, _) => Some((true, false)),
        (_, NANOSECONDS) => Some((false, true)),
        (_, MICROSECONDS) => Some((false, false)),
        (_, _) => None,
    }
}

/// The link type of this number.
fn link_of(number: u32) -> Option<Link>
    ensures { result ≡ link_of number }
{
    match number {
        1 => Some(Link::Ethernet),
        113 => Some(Link::Cooked),
        276 => Some(Link::CookedTwo),
        101 => Some(Link::Raw),
        _ => None,
    }
}

/// The form of a capture, by its file header.
#[tactic(auto, unfolding(crate::specs::Reading::header_at))]
pub(crate) fn format_of(bytes: &[u8]) -> Result<Format, CaptureFault>
    ensures exact { result ≡ header_at bytes.now }
    ensures len { IfOk result (λ _. 24 ≤ length bytes.now) }
{
    if bytes.len() < FILE_HEADER_SIZE {
        return Err(CaptureFault::ShortHeader);
    }
    if number_at(true, 0, bytes) == PCAPNG {
        return Err(CaptureFault::Pcapng);
    }
    let Some((little, nano)) = magic_at(bytes) else {
        return Err(CaptureFault::BadMagic);
    };
    if half_at(little, 4, bytes) != 2 || half_at(little, 6, bytes) != 4 {
        return Err(CaptureFault::BadVersion);
    }
    let Some(link) = link_of(number_at(little, 20, bytes)) else {
        return Err(CaptureFault::UnknownLink);
    };
    Ok(Format { little, nano, link })
}

/// What a frame of a link tells.
fn told(link: Link, frame: &[u8]) -> Result<Option<Content<'_>>, CaptureFault>
    ensures { Gives told_in result (frame_at link frame.now) }
{
    let (kind, packet) = carried(link, frame)?;
    content(kind, packet)
}

/// The record at the front of bytes: its time, what its packet tells, and how many bytes it takes.
#[tactic(auto, unfolding(crate::specs::Reading::record_at))]
pub(crate) fn record(
    format: Format,
    bytes: &[u8],
) -> Result<(u64, Option<Content<'_>>, usize), CaptureFault>
    ensures exact { Gives (λ x. (x.0, told_in x.1, x.2)) result (record_at format bytes.now) }
    ensures within { IfOk result (λ x. x.2 ≤ length bytes.now) }
    ensures header { IfOk result (λ x. 16 ≤ x.2) }
{
    if bytes.len() < RECORD_HEADER_SIZE {
        return Err(CaptureFault::ShortRecord);
    }
    let seconds = u64::from(number_at(format.little, 0, bytes));
    let fraction = number_at(format.little, 4, bytes);
    if fraction >= format.fractions() {
        return Err(CaptureFault::BadFraction);
    }
    let end = RECORD_HEADER_SIZE + number_at(format.little, 8, bytes) as usize;
    if bytes.len() < end {
        return Err(CaptureFault::CutPacket);
    }
    let told = told(format.link, &bytes[RECORD_HEADER_SIZE..end])?;
    let nanoseconds = seconds * SECOND + format.nanoseconds(fraction);
    Ok((nanoseconds, told, end))
}
