//! A capture that is told as it is taken from a reader, up to its first fault, and put into plain words where that is asked for.

ghost use Rattle.std.specs.Prelude.{◌≡◌, ◌≢◌, ◌+◌, ◌<◌, ◌^◌, ℕ, List, Some, IfErr, IfOk, IsTrue, OnOk, is_some};
ghost use Rattle.std.specs.Io.KnownBytes.{Appends, Keeps};
ghost use Rattle.std.specs.Option.{option_map};
ghost use Rattle.fw_capture.specs.View.{told_in};
ghost use Rattle.fw_dissect.specs.Lines.{IsLine, number_after};
ghost use Rattle.fw_dissect.specs.Streams.{Dissects, HasCause, IsOfPlain, TellsFront};
ghost use Rattle.fw_dissect.specs.Private.{HasCauseFrom, IsOfNoRecord, KeepsIf, NoneIf, PutsRecordIf, TellsFirst, TellsRecords, at};

use crate::error::DissectError;
use crate::line::append_line;
use crate::plain::{flush_plain, put_file_header, put_plain};
use crate::taking::{packet_of, take, take_format};
use fw_capture::{CaptureError, FILE_HEADER_SIZE, Format, Packet};
use fw_seal::Link;
use std::alloc::Global;
use std::io::{Read, Write};

/// Tells the capture that a reader has. Each datagram has a line, with its number, from 0 on, the address and port that it came from and went
/// to, and what it says. Each note has one too. Other packets are passed over. If times are asked for, a line begins with that of its record, as
/// RFC 3339 has it, in UTC and with microseconds. If there is a writer of captures, it gets the capture in plain words: each datagram that
/// opens stands there opened, with its time and its addresses, and others and notes as they are. Packets that are neither aren't there.
///
/// What the other end of one of these links sealed is opened, and `sealed N` stands before what it says, with its invocation counter. What has
/// the form of a sealing and opens under none of them, as where there are none, is `sealed N unopened (K bytes)`.
///
/// One record is in memory at a time, and its line is written before the next one is taken. From one record to the next stays the number of
/// the next datagram and the offset of the next record, and nothing of the ends that it is from or for. Both writers are flushed at the end.
///
/// It returns the first fault of the capture, if it has one. What stands before that was told.
///
/// # Errors
///
/// The lines of the records before it were written, and stand there unless the writer of lines failed.
///
/// - `TooLong`: the record at this offset says that it has more than 64 MiB.
/// - `Input`: the reader failed, or came to no end.
/// - `NoRecord`: a datagram makes no record in plain words, as one over IPv6 that is longer than a capture takes.
/// - `Plain`: the writer of the capture in plain words failed. What it holds then is unspecified.
/// - `Output`: the writer of lines failed. What it holds then is unspecified.
/// - `OutOfMemory`.
pub fn dissect<R: Read, W: Write, C: Write>(
    alloc: Global,
    links: &[Link],
    times: bool,
    reader: &mut R,
    writer: &mut W,
    plain: &mut Option<C>,
) -> Result<Option<CaptureError>, DissectError>
    // All of the capture is told, or what stands before its first fault.
    ensures tells { IfOk result (λ ending. Dissects times links.now ending (R.remaining reader.old) (R.remaining reader.new)
        (W.contents writer.old) (W.contents writer.new) (option_map C.contents plain.old) (option_map C.contents plain.new)) }

    // Where something else ends it, what was told are its first records.
    ensures front { IfErr result (λ e. e ≢ DissectError.Output
        → TellsFront times links.now (R.remaining reader.old) (W.contents writer.old) (W.contents writer.new)) }
    ensures cause { (capture : List ℕ) → R.remaining reader.old ≡ Some capture → IfErr result (λ e. HasCause links.now capture e) }
    ensures asked { IfErr result (λ e. IsOfPlain e → IsTrue (is_some plain.old)) }
{
    let ended = tell_capture(alloc, links, times, reader, writer, plain);
    let flushed = flush(writer, plain);
    let ending = ended?;
    flushed?;
    Ok(ending)
}

/// Does that, but for the flushing.
fn tell_capture<R: Read, W: Write, C: Write>(
    alloc: Global,
    links: &[Link],
    times: bool,
    reader: &mut R,
    writer: &mut W,
    plain: &mut Option<C>,
) -> Result<Option<CaptureError>, DissectError>
    ensures tells { IfOk result (λ ending. Dissects times links.now ending (R.remaining reader.old) (R.remaining reader.new)
        (W.contents writer.old) (W.contents writer.new) (option_map C.contents plain.old) (option_map C.contents plain.new)) }
    ensures front { IfErr result (λ e. e ≢ DissectError.Output
        → TellsFront times links.now (R.remaining reader.old) (W.contents writer.old) (W.contents writer.new)) }
    ensures cause { (capture : List ℕ) → R.remaining reader.old ≡ Some capture → IfErr result (λ e. HasCause links.now capture e) }
    ensures asked { IfErr result (λ e. IsOfPlain e → IsTrue (is_some plain.old)) }
    ensures present { OnOk result (is_some plain.new ≡ is_some plain.old) }
{
    let opened = take_format(alloc, reader)?;
    put_file_header(alloc, plain)?;
    match opened {
        Ok(format) => tell_records(alloc, links, times, format, reader, writer, plain),
        Err(error) => Ok(Some(error)),
    }
}

/// Tells the records that a reader has, of which the first stands behind the file header, up to the first fault.
fn tell_records<R: Read, W: Write, C: Write>(
    alloc: Global,
    links: &[Link],
    times: bool,
    format: Format,
    reader: &mut R,
    writer: &mut W,
    plain: &mut Option<C>,
) -> Result<Option<CaptureError>, DissectError>
    ensures tells { IfOk result (λ ending. TellsRecords times links.now format ending (R.remaining reader.old) (R.remaining reader.new)
        (W.contents writer.old) (W.contents writer.new) (option_map C.contents plain.old) (option_map C.contents plain.new)) }
    ensures front { IfErr result (λ e. e ≢ DissectError.Output
        → TellsFirst times links.now format (R.remaining reader.old) (W.contents writer.old) (W.contents writer.new)) }
    ensures cause { (rest : List ℕ) → R.remaining reader.old ≡ Some rest
        → IfErr result (λ e. HasCauseFrom links.now (at format rest 24) e) }
    ensures asked { IfErr result (λ e. IsOfPlain e → IsTrue (is_some plain.old)) }
    ensures present { OnOk result (is_some plain.new ≡ is_some plain.old) }
{
    let mut bytes = Vec::new(alloc);
    let (mut number, mut offset) = (0, FILE_HEADER_SIZE);
    'records: loop {
        let end = take(reader, format, offset, &mut bytes)?;
        match packet_of(format, offset, &bytes) {
            Ok(Some(packet)) => {
                number = tell(alloc, links, times, number, &packet, writer, plain)?;
            }
            Ok(None) => return Ok(None),
            Err(error) => return Ok(Some(error)),
        }
        offset = end;
    }
}

/// Tells a packet, and returns the number of the next datagram.
fn tell<W: Write, C: Write>(
    alloc: Global,
    links: &[Link],
    times: bool,
    number: u64,
    packet: &Packet<'_>,
    writer: &mut W,
    plain: &mut Option<C>,
) -> Result<u64, DissectError>
    requires { number + 1 < 2 ^ 64 }
    ensures number { IfOk result (λ next. next ≡ number_after number (told_in packet.now.content)) }
    ensures line { OnOk result ((line : List ℕ) × IsLine times links.now number packet.now.nanoseconds (told_in packet.now.content) line
        × Appends (W.contents writer.old) (W.contents writer.new) line) }
    ensures put { OnOk result (PutsRecordIf links.now packet.now.nanoseconds (told_in packet.now.content)
        (option_map C.contents plain.old) (option_map C.contents plain.new)) }
    ensures kept { IfErr result (λ e. e ≢ DissectError.Output → Keeps (W.contents writer.old) (W.contents writer.new)) }
    ensures none { IfErr result (λ e. NoneIf e links.now packet.now.nanoseconds (told_in packet.now.content)) }
    ensures asked { IfErr result (λ e. IsOfPlain e → IsTrue (is_some plain.old)) }
    ensures present { OnOk result (is_some plain.new ≡ is_some plain.old) }
{
    put_plain(alloc, links, packet, plain)?;
    let mut line = String::new(alloc);
    let next = append_line(alloc, links, times, &mut line, number, packet)?;
    put_line(writer, line.as_str())?;
    Ok(next)
}

/// Writes a line.
fn put_line<W: Write>(writer: &mut W, line: &str) -> Result<(), DissectError>
    ensures put { OnOk result (Appends (W.contents writer.old) (W.contents writer.new) line.now) }
    ensures faults { IfErr result (λ e. e ≡ DissectError.Output) }
{
    match writer.write_all(line.as_bytes()) {
        Ok(()) => Ok(()),
        Err(_) => Err(DissectError::Output),
    }
}

/// Flushes both writers.
fn flush<W: Write, C: Write>(writer: &mut W, plain: &mut Option<C>) -> Result<(), DissectError>
    ensures lines { Keeps (W.contents writer.old) (W.contents writer.new) }
    ensures kept { KeepsIf (option_map C.contents plain.old) (option_map C.contents plain.new) }
    ensures asked { IfErr result (λ e. IsOfPlain e → IsTrue (is_some plain.old)) }
    ensures faults { IfErr result IsOfNoRecord }
{
    flush_plain(plain)?;
    match writer.flush() {
        Ok(()) => Ok(()),
        Err(_) => Err(DissectError::Output),
    }
}
