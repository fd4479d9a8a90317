//! What a capture gets of the start of its process.

ghost use Rattle.std.specs.Prelude.{◌≡◌, ℕ, IfErr, OnOk, map};
ghost use Rattle.fw_capture.specs.Spelling.{packet_bytes};
ghost use Rattle.fw_capture.specs.View.{note};
ghost use Rattle.fw_host.specs.Captures.{PutsAll, asking_told, started_told};

use crate::capture_file::{now, put_record};
use crate::error::CaptureFileError;
use fw_capture::{Content, Note};
use fw_names::HeadId;
use fw_recording::Sink;
use std::alloc::Global;
use std::net::SocketAddr;
use std::rt::Clock;

/// What started.
#[derive(Clone, Copy)]
pub enum Started<'a> {
    /// Meters, of so many that a count asks for, and 0 for the one without a count. Just these addresses may ask them, and any if there are
    /// none.
    Meters { count: u32, heads: &'a [SocketAddr] },
    /// The head end of this number.
    Head(HeadId),
}

/// Puts the notes of a start into a capture: what started, and behind that each address that may ask.
///
/// # Errors
///
/// `CaptureFault`: the sink failed, or memory was refused, or it is the year 2106.
pub fn put_start<C: Clock, S: Sink>(
    rt: &C,
    alloc: Global,
    sink: &mut S,
    started: Started<'_>,
) -> Result<(), CaptureFileError>
    ensures put { OnOk result ((nanoseconds : ℕ) × PutsAll S.takes nanoseconds sink.old sink.new (started_told started.entry)) }
    ensures faults { IfErr result (λ f. f ≡ CaptureFileError.CaptureFault) }
{
    let nanoseconds = now(rt);
    match started {
        Started::Meters { count, heads } => {
            put_meter_start(alloc, sink, nanoseconds, count, heads.len() as u64)?;
            put_heads(alloc, sink, nanoseconds, heads)
        }
        Started::Head(head) => {
            let note = Note::HeadStart(head.number());
            put_record(alloc, sink, nanoseconds, Content::Note(note))
        }
    }
}

/// Puts the note of a start of meters.
fn put_meter_start<S: Sink>(
    alloc: Global,
    sink: &mut S,
    nanoseconds: u64,
    count: u32,
    heads: u64,
) -> Result<(), CaptureFileError>
    ensures put { OnOk result (S.takes sink.old sink.new (packet_bytes nanoseconds (note (Note.MeterStart count heads)))) }
    ensures faults { IfErr result (λ f. f ≡ CaptureFileError.CaptureFault) }
{
    let note = Note::MeterStart { count, heads };
    put_record(alloc, sink, nanoseconds, Content::Note(note))
}

/// Puts the notes of these addresses, which may ask.
fn put_heads<S: Sink>(
    alloc: Global,
    sink: &mut S,
    nanoseconds: u64,
    heads: &[SocketAddr],
) -> Result<(), CaptureFileError>
    ensures put { OnOk result (PutsAll S.takes nanoseconds sink.old sink.new (map asking_told heads.now)) }
    ensures faults { IfErr result (λ f. f ≡ CaptureFileError.CaptureFault) }
{
    for head in heads {
        let note = asking(*head);
        put_record(alloc, sink, nanoseconds, Content::Note(note))?;
    }
    Ok(())
}

/// The note that an address may ask.
fn asking(head: SocketAddr) -> Note
    ensures { note result ≡ asking_told head }
{
    match head {
        SocketAddr::V4(head) => Note::MayAskV4(head.ip().octets(), head.port()),
        SocketAddr::V6(head) => Note::MayAskV6(head.ip().octets(), head.port()),
    }
}
