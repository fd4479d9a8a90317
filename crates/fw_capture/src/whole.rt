//! How far a capture is whole, as a process finds it that goes on with it.

ghost use Rattle.std.specs.Prelude.{◌≡◌, ◌+◌, ◌<◌, ◌≤◌, ◌++◌, ℕ, List, [], Some, length, not, take, true, false, IfErr, IfNone, IfOk, IfSome, OnOk, MatchOption};
ghost use Rattle.std.specs.Io.KnownBytes.{Consumes, IsAtEnd, Keeps};
ghost use Rattle.fw_capture.specs.declared.fault.CaptureFault.{CaptureFault};
ghost use Rattle.fw_capture.specs.Reading.{header_at, record_at};
ghost use Rattle.fw_capture.specs.View.{Told};
ghost use Rattle.fw_capture.specs.Whole.{IsForeignAt, IsWholeTo, all_zeros, is_part, says_twice, without_zeros};
ghost use Rattle.fw_capture.specs.Private.{Fills, IsFront, IsOfReading, record_size};

use crate::error::WholeError;
use crate::format::Format;
use crate::number::number_at;
use crate::reading::{FILE_HEADER_SIZE, RECORD_HEADER_SIZE, format_of, record};
use crate::writing::MAX_PACKET;
use std::alloc::Global;
use std::io::{ErrorKind, Read};

/// The bytes that a reader is asked for at once.
const CHUNK: usize = 1024;

/// The most times that it is asked, for a record and for zeros: 2^32.
const MAX_READS: u64 = 4_294_967_296;

/// What stands behind the records that were passed.
enum Front {
    /// A whole record of so many bytes.
    Whole(usize),
    /// Nothing, or what a write leaves that was cut short.
    Last,
    /// Something else.
    Foreign,
}

/// How many bytes of a capture are whole: its file header and the records behind it, one after another. What is left then is nothing, or
/// what a write leaves that was cut short, by a power cut or a full disk: less than a record, and zeros. It is read up to its end or its
/// fault, and one record at a time is in memory.
///
/// # Errors
///
/// - `Header`: what is wrong with the file header.
/// - `Foreign`: if something else stands behind the whole records.
/// - `Input`: the reader failed, or came to no end.
/// - `OutOfMemory`.
pub fn whole_len<R: Read>(alloc: Global, reader: &mut R) -> Result<u64, WholeError>
    ensures whole { (capture : List ℕ) → R.remaining reader.old ≡ Some capture → IfOk result (IsWholeTo capture) }
    ensures foreign { (capture : List ℕ) → R.remaining reader.old ≡ Some capture
        → (offset : ℕ) → result ≡ Err (WholeError.Foreign offset) → IsForeignAt capture offset }
    ensures header { (capture : List ℕ) → R.remaining reader.old ≡ Some capture
        → (fault : CaptureFault) → result ≡ Err (WholeError.Header fault) → header_at capture ≡ Err fault }
{
    let mut bytes = Vec::new(alloc);
    fill(reader, &mut bytes, FILE_HEADER_SIZE)?;
    let format = match format_of(&bytes) {
        Ok(format) => format,
        Err(fault) => return Err(WholeError::Header(fault)),
    };
    let mut offset = FILE_HEADER_SIZE as u64;
    'records: loop {
        match next_front(reader, &mut bytes, format)? {
            Front::Whole(size) => match offset.checked_add(size as u64) {
                Some(end) => offset = end,
                None => return Err(WholeError::Input),
            },
            Front::Last => return Ok(offset),
            Front::Foreign => return Err(WholeError::Foreign(offset)),
        }
    }
}

/// What a reader has next, of which the bytes that stay are the record.
fn next_front<R: Read>(
    reader: &mut R,
    bytes: &mut Vec<u8>,
    format: Format,
) -> Result<Front, WholeError>
    ensures next { (rest : List ℕ) → R.remaining reader.old ≡ Some rest → IfOk result (IsFront format rest (R.remaining reader.new)) }
    ensures size { (size : ℕ) → result ≡ Ok (Front.Whole size) → 16 ≤ size }
    ensures faults { IfErr result IsOfReading }
{
    bytes.clear();
    fill(reader, bytes, RECORD_HEADER_SIZE)?;
    let header = bytes.as_slice();
    if header.is_empty() {
        return Ok(Front::Last);
    }
    let size = record_size(format, header);
    fill(reader, bytes, size)?;
    match own_record(format, bytes) {
        Some(size) => Ok(Front::Whole(size)),
        None => {
            if is_part(format, stem(bytes)) && only_zeros(reader)? {
                Ok(Front::Last)
            } else {
                Ok(Front::Foreign)
            }
        }
    }
}

/// How many bytes the record has that stands here, if its header says twice how long the packet is. In one that says two lengths, one of
/// them was changed.
fn own_record(format: Format, bytes: &[u8]) -> Option<usize>
    ensures found { IfSome result (λ size. (time : ℕ) × (told : Told) × ((record_at format bytes.now ≡ Ok (time, told, size))
        × (says_twice format bytes.now ≡ true))) }
    ensures none { IfNone result ((x : ℕ × Told × ℕ) → record_at format bytes.now ≡ Ok x → says_twice format bytes.now ≡ false) }
{
    match record(format, bytes) {
        Ok((_, _, size)) if says_twice(format, bytes) => Some(size),
        _ => None,
    }
}

/// Whether the header of a record says twice how long its packet is.
fn says_twice(format: Format, bytes: &[u8]) -> bool
    requires { 16 ≤ length bytes.now }
    ensures { result ≡ says_twice format bytes.now }
{
    number_at(format.little, 8, bytes) == number_at(format.little, 12, bytes)
}

/// How many bytes the record takes that has this header. Of a packet that is longer than the longest none is looked at.
fn record_size(format: Format, header: &[u8]) -> usize
    ensures { result ≡ record_size format header.now }
{
    if header.len() < RECORD_HEADER_SIZE {
        return RECORD_HEADER_SIZE;
    }
    let size = number_at(format.little, 8, header) as usize;
    if size > MAX_PACKET {
        RECORD_HEADER_SIZE
    } else {
        RECORD_HEADER_SIZE + size
    }
}

/// Whether these bytes are less than a record.
fn is_part(format: Format, bytes: &[u8]) -> bool
    ensures { result ≡ is_part format bytes.now }
{
    if bytes.len() < RECORD_HEADER_SIZE {
        return true;
    }
    let size = number_at(format.little, 8, bytes);
    number_at(format.little, 4, bytes) < format.fractions()
        && says_twice(format, bytes)
        && size as usize <= MAX_PACKET
        && bytes.len() < RECORD_HEADER_SIZE + size as usize
}

/// These bytes without the zeros at their end.
fn stem(bytes: &[u8]) -> &[u8]
    ensures { result.now ≡ without_zeros bytes.now }
{
    let mut left = bytes;
    while let [front @ .., last] = left {
        if *last != 0 {
            return left;
        }
        left = front;
    }
    left
}

/// Whether one of these bytes is no zero.
fn has_other(bytes: &[u8]) -> bool
    ensures { result ≡ not (all_zeros bytes.now) }
{
    let mut left = bytes;
    while let [first, rest @ ..] = left {
        if *first != 0 {
            return true;
        }
        left = rest;
    }
    false
}

/// Whether a reader has zeros alone.
fn only_zeros<R: Read>(reader: &mut R) -> Result<bool, WholeError>
    ensures zeros { (rest : List ℕ) → R.remaining reader.old ≡ Some rest → IfOk result (λ zeros. zeros ≡ all_zeros rest) }
    ensures faults { IfErr result IsOfReading }
{
    let mut chunk = [0; CHUNK];
    for _ in 0..MAX_READS {
        let Some(count) = read_some(reader, &mut chunk)? else {
            continue;
        };
        if count == 0 {
            return Ok(true);
        }
        if has_other(&chunk[..count]) {
            return Ok(false);
        }
    }
    Err(WholeError::Input)
}

/// Appends what a reader has next, so that there are so many bytes, or fewer at its end.
pub(crate) fn fill<R: Read>(
    reader: &mut R,
    bytes: &mut Vec<u8>,
    len: usize,
) -> Result<(), WholeError>
    ensures fills { OnOk result (Fills len (R.remaining reader.old) (R.remaining reader.new) bytes.old.items bytes.new.items) }
    ensures faults { IfErr result IsOfReading }
{
    let mut chunk = [0; CHUNK];
    for _ in 0..MAX_READS {
        if bytes.len() >= len {
            return Ok(());
        }
        let room = (len - bytes.len()).min(CHUNK);
        let Some(count) = read_some(reader, &mut chunk[..room])? else {
            continue;
        };
        if count == 0 {
            return Ok(());
        }
        bytes.extend_from_slice(&chunk[..count])?;
    }
    Err(WholeError::Input)
}

/// Reads once: how many bytes, or nothing if the reader was interrupted.
fn read_some<R: Read>(reader: &mut R, chunk: &mut [u8]) -> Result<Option<usize>, WholeError>
    ensures bytes { IfOk result (λ read. MatchOption read (Keeps (R.remaining reader.old) (R.remaining reader.new)) (λ count.
        (count ≤ length chunk.new) × Consumes (R.remaining reader.old) (R.remaining reader.new) (take count chunk.new)
        × (count ≡ 0 → 0 < length chunk.new → IsAtEnd (R.remaining reader.new)))) }
    ensures faults { IfErr result IsOfReading }
{
    match reader.read(chunk) {
        Ok(count) => Ok(Some(count)),
        Err(error) if error.kind() == ErrorKind::Interrupted => Ok(None),
        Err(_) => Err(WholeError::Input),
    }
}
