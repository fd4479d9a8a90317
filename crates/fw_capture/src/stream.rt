//! A capture that is taken from a reader record by record, so that one record at a time is in memory.

ghost use Rattle.std.specs.Prelude.{◌≡◌, ◌≢◌, ◌+◌, ◌<◌, ◌⊎◌, ℕ, List, Some, IfErr, IfOk, OnOk};
ghost use Rattle.fw_capture.specs.Reading.{size_at};
ghost use Rattle.fw_capture.specs.Streams.{TakesHeader, TakesRecord, max_record};
ghost use Rattle.fw_capture.specs.Private.{Fills};

use crate::error::{StreamError, WholeError};
use crate::format::Format;
use crate::number::number_at;
use crate::reading::{FILE_HEADER_SIZE, RECORD_HEADER_SIZE};
use crate::whole::fill;
use std::alloc::Global;
use std::io::Read;

/// The most bytes of a record that is taken, with its header: 64 MiB.
const MAX_RECORD: usize = 67_108_864;

/// Takes the file header of a capture from a reader, or as much of it as the reader has.
///
/// # Errors
///
/// `Input` or `OutOfMemory`.
pub fn take_header<R: Read>(alloc: Global, reader: &mut R) -> Result<Vec<u8>, StreamError>
    ensures header { IfOk result (λ bytes. TakesHeader (R.remaining reader.old) (R.remaining reader.new) bytes.items) }
    ensures faults { IfErr result (λ e. (e ≡ StreamError.Input) ⊎ (e ≡ StreamError.OutOfMemory)) }
{
    let mut bytes = Vec::new(alloc);
    fill_up(reader, &mut bytes, FILE_HEADER_SIZE)?;
    Ok(bytes)
}

/// Takes the next record from a reader, or as much of it as the reader has, and puts it in the place of these bytes. There are none at the
/// end.
///
/// # Errors
///
/// - `TooLong`: the record has more than 64 MiB.
/// - `Input` or `OutOfMemory`.
pub fn take_record<R: Read>(
    reader: &mut R,
    format: Format,
    bytes: &mut Vec<u8>,
) -> Result<(), StreamError>
    ensures record { OnOk result (TakesRecord format (R.remaining reader.old) (R.remaining reader.new) bytes.new.items) }
    ensures too_long { (rest : List ℕ) → R.remaining reader.old ≡ Some rest → result ≡ Err StreamError.TooLong
        → max_record < 16 + size_at format rest }
{
    bytes.clear();
    fill_up(reader, bytes, RECORD_HEADER_SIZE)?;
    let header = bytes.as_slice();
    if header.len() < RECORD_HEADER_SIZE {
        return Ok(());
    }
    let size = RECORD_HEADER_SIZE + number_at(format.little, 8, header) as usize;
    if size > MAX_RECORD {
        return Err(StreamError::TooLong);
    }
    fill_up(reader, bytes, size)
}

/// Appends what a reader has next, so that there are so many bytes, or fewer at its end.
fn fill_up<R: Read>(reader: &mut R, bytes: &mut Vec<u8>, len: usize) -> Result<(), StreamError>
    ensures fills { OnOk result (Fills len (R.remaining reader.old) (R.remaining reader.new) bytes.old.items bytes.new.items) }
    ensures faults { IfErr result (λ e. (e ≡ StreamError.Input) ⊎ (e ≡ StreamError.OutOfMemory)) }
{
    match fill(reader, bytes, len) {
        Ok(()) => Ok(()),
        Err(WholeError::OutOfMemory) => Err(StreamError::OutOfMemory),
        Err(_) => Err(StreamError::Input),
    }
}
