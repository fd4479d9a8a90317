//! The command `trace`: what a capture tells.

ghost use Rattle.std.specs.Prelude.{◌≡◌, ◌≢◌, ◌⊎◌, ℕ, List, None, Some, IfErr, IfOk, IsTrue, OnOk, is_some};
ghost use Rattle.std.specs.Option.{option_map};
ghost use Rattle.fw_capture.specs.declared.fault.CaptureError.{CaptureError};
ghost use Rattle.fw_dissect.specs.Streams.{Dissects, TellsFront};
ghost use Rattle.fw_key_files.specs.Refusals.{IsOfReading};
ghost use Rattle.fw_keys.specs.declared.error.BadLine.{BadLine as Why};
ghost use Rattle.fw_keys.specs.Refusals.{NoHeadKeys};
ghost use Rattle.fw_cli.specs.Tracing.{AreOfFile, CountsAsCut, fault_of_trace};
ghost use Rattle.fw_cli.specs.Private.{trace_error};

use fw_capture::{CaptureError, CaptureFault};
use fw_disk::Because;
use fw_dissect::{DissectError, dissect};
use fw_faults::Fault;
use fw_key_files::{KeyFileError, head_keys};
use fw_names::HeadId;
use fw_seal::Link;
use fw_unseal::both_ends;
use std::alloc::Global;
use std::fmt;
use std::fs::File;
use std::io::{Read, Write};
use std::rt::Files;
use thiserror::Error;

/// Whose links open what a capture has.
#[derive(Clone, Copy)]
pub struct TraceKeys<'a> {
    /// The path of the key file of a head end.
    pub path: &'a str,
    /// The number of the head end.
    pub head: HeadId,
}

/// Why a capture isn't told up to its end. It prints its name, and of a bad capture its fault and the offset.
#[derive(Clone, Copy, Debug, Error)]
pub enum TraceError {
    /// The first fault of the capture, with the offset of its record.
    BadCapture(CaptureError),
    /// The reader failed, or came to no end.
    Input,
    /// The writer of captures failed, or a datagram makes no record.
    CaptureFault,
    /// The writer failed.
    Output,
    /// Memory was refused.
    OutOfMemory,
}

impl fmt::Display for TraceError {
    fn fmt<W: fmt::Write>(&self, f: &mut fmt::Formatter<W>) -> fmt::Result {
        match self {
            TraceError::BadCapture(error) => write!(f, "BadCapture {error}"),
            other => fmt::Debug::fmt(other, f),
        }
    }
}

impl From<TraceError> for Fault {
    ghost from_gives = { λ error fault. fault ≡ fault_of_trace error };

    fn from(error: TraceError) -> Fault {
        match error {
            TraceError::BadCapture(error) => Fault::BadCapture(error),
            TraceError::Input => Fault::Input,
            TraceError::CaptureFault => Fault::CaptureFault,
            TraceError::Output => Fault::Output,
            TraceError::OutOfMemory => Fault::OutOfMemory,
        }
    }
}

/// The links of a key file, each as the head end has it and as the meter has it. So what either of the two sealed, one of them opens.
///
/// # Errors
///
/// - `KeysFault`, with its cause if that is known: the file can't be opened or read, is no regular file, or has more than 64 MiB.
/// - `KeysReadable`: others than its owner may read or write it.
/// - `BadKeys`: the first line with which it is no key file of this head end, and what is wrong with it.
/// - `OutOfMemory`.
pub fn trace_links<F: Files<File = File>>(
    rt: &F,
    alloc: Global,
    keys: &TraceKeys<'_>,
) -> Result<Vec<Link>, Because<KeyFileError>>
    // Of the file nothing is known here, so its text is some one.
    ensures links { IfOk result (λ links. AreOfFile keys.now.head links.items) }
    ensures bad { IfErr result (λ b. (line : ℕ) (why : Why) → b.error ≡ KeyFileError.BadKeys line why
        → (text : List ℕ) × NoHeadKeys text keys.now.head line why) }
    ensures faults { IfErr result (λ b. IsOfReading b.error) }
{
    let file = match head_keys(rt, alloc, keys.path, keys.head) {
        Ok(file) => file,
        Err(because) => return Err(because),
    };
    match both_ends(alloc, &file) {
        Ok(links) => Ok(links),
        Err(_) => Err(Because::from(KeyFileError::OutOfMemory)),
    }
}

/// The reader has a capture (pcap). The writer gets a line for each datagram of it, in the order of the capture: its number, from 0 on, the
/// address and port that it came from and went to, and what it says, in the words of a trace. It gets one for each note too, `start`,
/// `turn` or `strangers ..`. Other packets are passed over. If times are asked for, a line begins with that of its record, as RFC 3339 has it, in
/// UTC and with microseconds.
///
/// What the other end of one of these links sealed is opened, and `sealed N` stands before what it says, with its invocation counter. What has
/// the form of a sealing and opens under none of them is `sealed N unopened (K bytes)`. If there is a writer of captures, it gets the capture
/// in plain words.
///
/// A capture doesn't say which end is a meter: a request is for a meter, and anything else for a head end.
///
/// The capture may be of any length: one record is in memory at a time, and its line is written before the next one is taken. Of those before
/// it the number of the next datagram and the offset of the next record are kept, and nothing of the ends that they are from or for.
///
/// # Errors
///
/// What stands before it was told, unless it is `Output`, and nothing else.
///
/// - `BadCapture`: the first fault of the capture, with the offset of its record, or 0 for the file header. A record that says that it has more
///   than 64 MiB isn't taken, and counts as cut.
/// - `Input`: the reader failed, or came to no end.
/// - `CaptureFault`: the writer of captures failed, and what it holds then is unspecified. Or a datagram makes no record.
/// - `Output`: the writer failed. What it holds then is unspecified.
/// - `OutOfMemory`.
pub fn run_trace<R: Read, W: Write, C: Write>(
    alloc: Global,
    links: &[Link],
    times: bool,
    reader: &mut R,
    writer: &mut W,
    plain: &mut Option<C>,
) -> Result<(), TraceError>
    // All of the capture is reported, or what stands before its first fault.
    ensures ok { OnOk result (Dissects times links.now None (R.remaining reader.old) (R.remaining reader.new)
        (W.contents writer.old) (W.contents writer.new) (option_map C.contents plain.old) (option_map C.contents plain.new)) }
    ensures bad_capture { (error : CaptureError) → result ≡ Err (TraceError.BadCapture error)
        → Dissects times links.now (Some error) (R.remaining reader.old) (R.remaining reader.new)
        (W.contents writer.old) (W.contents writer.new) (option_map C.contents plain.old) (option_map C.contents plain.new)
        ⊎ CountsAsCut (R.remaining reader.old) error }

    // Whatever ends it, what was told are its first records.
    ensures front { IfErr result (λ e. e ≢ TraceError.Output
        → TellsFront times links.now (R.remaining reader.old) (W.contents writer.old) (W.contents writer.new)) }
    ensures asked { result ≡ Err TraceError.CaptureFault → IsTrue (is_some plain.old) }
{
    match dissect(alloc, links, times, reader, writer, plain) {
        Ok(None) => Ok(()),
        Ok(Some(error)) => Err(TraceError::BadCapture(error)),
        Err(error) => Err(trace_error(error)),
    }
}

/// Why a capture isn't told up to its end, or up to its first fault.
fn trace_error(error: DissectError) -> TraceError
    ensures { result ≡ trace_error error }
{
    match error {
        DissectError::TooLong(offset) => TraceError::BadCapture(CaptureError {
            fault: CaptureFault::CutPacket,
            offset,
        }),
        DissectError::Input => TraceError::Input,
        DissectError::NoRecord | DissectError::Plain => TraceError::CaptureFault,
        DissectError::Output => TraceError::Output,
        DissectError::OutOfMemory => TraceError::OutOfMemory,
    }
}
