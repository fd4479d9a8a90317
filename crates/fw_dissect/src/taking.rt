//! What is taken of a capture from its reader.

ghost use Rattle.std.specs.Prelude.{◌≡◌, ◌⊎◌, ◌+◌, ◌<◌, ◌^◌, ℕ, List, Some, IfErr, IfOk, OnOk, length};
ghost use Rattle.fw_capture.specs.Streams.{TakesRecord};
ghost use Rattle.fw_dissect.specs.Private.{IsOfReader, IsPacketOf, LongIf, Opens, OpensBy, of_stream};

use crate::error::DissectError;
use fw_capture::{CaptureError, Format, Packet, Reader, StreamError, take_header, take_record};
use std::alloc::Global;
use std::io::Read;

/// Takes the file header, and says how the records behind it are written, or what is wrong with it.
pub(crate) fn take_format<R: Read>(
    alloc: Global,
    reader: &mut R,
) -> Result<Result<Format, CaptureError>, DissectError>
    ensures opens { IfOk result (λ opened. OpensBy (R.remaining reader.old) (R.remaining reader.new) opened) }
    ensures faults { IfErr result (λ e. (e ≡ DissectError.Input) ⊎ (e ≡ DissectError.OutOfMemory)) }
{
    match take_header(alloc, reader) {
        Ok(header) => Ok(format_of(&header)),
        Err(error) => Err(of_stream(0, error)),
    }
}

/// What the error of a stream is here, at a record with this offset.
fn of_stream(offset: usize, error: StreamError) -> DissectError
    ensures { result ≡ of_stream offset error }
{
    match error {
        StreamError::TooLong => DissectError::TooLong(offset),
        StreamError::Input => DissectError::Input,
        StreamError::OutOfMemory => DissectError::OutOfMemory,
    }
}

/// How the records behind a file header are written, or what is wrong with it.
fn format_of(header: &[u8]) -> Result<Format, CaptureError>
    ensures { Opens header.now result }
{
    match Reader::new(header) {
        Ok(first) => Ok(first.format()),
        Err(error) => Err(error),
    }
}

/// Takes the next record, which begins at this offset, and puts it in the place of these bytes. It returns the offset behind it.
pub(crate) fn take<R: Read>(
    reader: &mut R,
    format: Format,
    offset: usize,
    bytes: &mut Vec<u8>,
) -> Result<usize, DissectError>
    ensures record { OnOk result (TakesRecord format (R.remaining reader.old) (R.remaining reader.new) bytes.new.items) }
    ensures end { IfOk result (λ end. end ≡ offset + length bytes.new.items) }
    ensures long { IfErr result (λ e. (rest : List ℕ) → R.remaining reader.old ≡ Some rest → LongIf e offset format rest) }
    ensures faults { IfErr result IsOfReader }
{
    match take_record(reader, format, bytes) {
        Ok(()) => {}
        Err(error) => return Err(of_stream(offset, error)),
    }
    match offset.checked_add(bytes.len()) {
        Some(end) => Ok(end),
        None => Err(DissectError::Input),
    }
}

/// The packet of a record that begins at this offset, or nothing if there is no byte of it.
pub(crate) fn packet_of(
    format: Format,
    offset: usize,
    bytes: &[u8],
) -> Result<Option<Packet<'_>>, CaptureError>
    requires { offset + length bytes.now < 2 ^ 64 }
    ensures { IsPacketOf format offset bytes.now result }
{
    Reader::at(format, offset, bytes).next()
}
