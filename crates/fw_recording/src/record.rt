//! What a process puts into its capture: whole records, one after another, so that the file opens wherever the process ends.

ghost use Rattle.std.specs.Prelude.{◌≡◌, ◌≢◌, None, IfErr, OnOk};
ghost use Rattle.fw_capture.specs.declared.error.AppendError.{AppendError};
ghost use Rattle.fw_capture.specs.Refusal.{IsRefusal, refusal_of};
ghost use Rattle.fw_capture.specs.Spelling.{file_header, packet_bytes};
ghost use Rattle.fw_capture.specs.View.{told_of};

use crate::error::RecordError;
use crate::sink::Sink;
use fw_capture::{Captured, append_packet, file_header};
use std::alloc::Global;

/// Puts the file header of a capture, which records follow.
///
/// # Errors
///
/// `Refused` if memory ran out, and nothing was put. `Output`: the sink failed. What it has then is unspecified.
pub fn write_header<S: Sink>(alloc: Global, sink: &mut S) -> Result<(), RecordError>
    ensures written { OnOk result (S.takes sink.old sink.new file_header) }
    ensures silent { IfErr result (λ e. e ≢ RecordError.Output → sink.new ≡ sink.old) }
    ensures refused { (e : AppendError) → result ≡ Err (RecordError.Refused e) → e ≡ AppendError.OutOfMemory }
{
    let header = match file_header(alloc) {
        Ok(header) => header,
        Err(_) => return Err(RecordError::Refused(fw_capture::AppendError::OutOfMemory)),
    };
    put(sink, &header)
}

/// Puts the record of a packet, by one call.
///
/// # Errors
///
/// `Refused`, by what refuses the packet, or if memory ran out, and nothing was put. `Output`, only for a packet that nothing refuses: the
/// sink failed. What it has then is unspecified.
pub fn write_record<S: Sink>(
    alloc: Global,
    sink: &mut S,
    captured: &Captured<'_>,
) -> Result<(), RecordError>
    ensures written { OnOk result (S.takes sink.old sink.new
        (packet_bytes captured.now.nanoseconds (told_of captured.now.content))) }
    ensures allowed { OnOk result (refusal_of captured.now.nanoseconds (told_of captured.now.content) ≡ None) }
    ensures silent { IfErr result (λ e. e ≢ RecordError.Output → sink.new ≡ sink.old) }
    ensures output { result ≡ Err RecordError.Output
        → refusal_of captured.now.nanoseconds (told_of captured.now.content) ≡ None }
    ensures refused { (e : AppendError) → result ≡ Err (RecordError.Refused e)
        → IsRefusal (refusal_of captured.now.nanoseconds (told_of captured.now.content)) e }
{
    let mut record = Vec::new(alloc);
    match append_packet(&mut record, captured) {
        Ok(()) => put(sink, &record),
        Err(error) => Err(RecordError::Refused(error)),
    }
}

/// Puts bytes, by one call.
fn put<S: Sink>(sink: &mut S, bytes: &[u8]) -> Result<(), RecordError>
    ensures written { OnOk result (S.takes sink.old sink.new bytes.now) }
    ensures faults { IfErr result (λ e. e ≡ RecordError.Output) }
{
    sink.put(bytes).map_err(|_| RecordError::Output)
}
