//! The capture of a daemon, in a file.

ghost use Rattle.std.specs.Prelude.{◌≡◌, ◌≢◌, ◌≤◌, ◌↔◌, ℕ, List, [], Some, IfErr, IfOk, IsTrue, OnOk, length};
ghost use Rattle.fw_disk.specs.declared.name.Name.TheVariants.{Main};
ghost use Rattle.fw_capture.specs.Spelling.{file_header, packet_bytes};
ghost use Rattle.fw_capture.specs.View.{told_of};
ghost use Rattle.fw_capture.specs.Whole.{IsWholeTo};
ghost use Rattle.fw_host.specs.Captures.{BeginsCapture, IsForeign};

use crate::capture_making::new_capture;
use crate::error::CaptureFileError;
use fw_capture::{Captured, Content, FILE_HEADER_SIZE, WholeError, file_header, whole_len};
use fw_disk::{Because, Cause, Name, SystemFolder, open};
use fw_recording::{Sink, write_header, write_record};
use std::alloc::{AllocError, Global};
use std::fs::File;
use std::io::{BufReader, Read, Seek, SeekFrom};
use std::os::unix::fs::FileExt;
use std::rt::{Clock, Files};
use std::time::{SystemTime, UNIX_EPOCH};

/// The file of a daemon's capture, under the lock, where it ends. It is made where no file is there, as FILE.new, which is named FILE once the
/// disk has its file header; and gone on with where one is. What the process is has its notes later ([`put_start`](crate::put_start)), once its
/// store or its book is open.
///
/// Each record is appended by a call of its own, so a process that is killed leaves whole ones. A power cut or a full disk may leave less
/// than a record at the end, and zeros. That is cut off, and the disk has it so before anything is appended.
///
/// # Errors
///
/// - `CaptureFault`, with its reason if that is known: the file can't be made, opened, read or written, or another process has it; or it is a
///   link or no regular file, or has another name as well; or it isn't there, and another program's file is FILE.new. Or the system gives no
///   more memory.
/// - `ForeignCapture`: the file is there, and isn't a capture that a daemon began, or its records have another fault. It is left as it is.
pub fn open_capture<R: Files<File = File>>(
    rt: &R,
    alloc: Global,
    path: &str,
) -> Result<File, Because<CaptureFileError>> {
    let mut folder = SystemFolder::of(rt, path).map_err(refused)?;
    let mut file = match open(&mut folder) {
        Ok(file) => file,
        Err(Cause::Missing) => made(alloc, &mut folder)?,
        Err(cause) => return Err(refused(cause)),
    };
    go_on(alloc, &mut file)?;
    Ok(file)
}

/// The fault of a capture in FILE that the system refuses.
fn refused(cause: Cause) -> Because<CaptureFileError>
    ensures error { result.error ≡ CaptureFileError.CaptureFault }
    ensures reason { result.reason ≡ Some (record { name = Main; cause = cause }) }
{
    Because::of(CaptureFileError::CaptureFault, cause.at(Name::Main))
}

/// The file of a new capture, which has the file header.
fn made<R: Files<File = File>>(
    alloc: Global,
    folder: &mut SystemFolder<'_, R>,
) -> Result<File, Because<CaptureFileError>>
    ensures { IfErr result (λ b. b.error ≡ CaptureFileError.CaptureFault) }
{
    let header = file_header(alloc).map_err(|_| CaptureFileError::CaptureFault)?;
    match new_capture(folder, &header) {
        Ok(file) => Ok(file),
        Err(reason) => Err(Because::of(CaptureFileError::CaptureFault, reason)),
    }
}

/// Goes on with a capture: cuts off what is no whole record at its end. One that has no byte gets the file header.
fn go_on(alloc: Global, file: &mut File) -> Result<(), Because<CaptureFileError>> {
    let mut buffer = [0; FILE_HEADER_SIZE];
    let count = read_front(file, &mut buffer).map_err(refused)?;
    keep_whole(alloc, file, &buffer[..count])?;
    go_to_end(file).map_err(refused)?;
    put_front(alloc, file, &buffer[..count])?;
    Ok(())
}

/// Goes to the end of a file.
fn go_to_end(file: &mut File) -> Result<(), Cause> {
    file.seek(SeekFrom::End(0))?;
    Ok(())
}

/// Cuts off what is no whole record at the end of the capture of a daemon, which has this front. Any other file is left as it is.
fn keep_whole(alloc: Global, file: &File, front: &[u8]) -> Result<(), CaptureFileError> {
    if !is_own(alloc, front).map_err(|_| CaptureFileError::CaptureFault)? {
        return Ok(());
    }
    let mut reader = BufReader::new(alloc, file).map_err(|_| CaptureFileError::CaptureFault)?;
    let len = kept_len(alloc, &mut reader)?;
    let metadata = file.metadata().map_err(|_| CaptureFileError::CaptureFault)?;
    if len < metadata.len() {
        file.set_len(len)
            .map_err(|_| CaptureFileError::CaptureFault)?;
        file.sync_all().map_err(|_| CaptureFileError::CaptureFault)?;
    }
    Ok(())
}

/// How many bytes of a capture are kept.
///
/// # Errors
///
/// `ForeignCapture`: something else stands behind its whole records than less than a record. `CaptureFault`: it can't be read, or memory was
/// refused.
fn kept_len<R: Read>(alloc: Global, reader: &mut R) -> Result<u64, CaptureFileError>
    ensures whole { (capture : List ℕ) → R.remaining reader.old ≡ Some capture → IfOk result (IsWholeTo capture) }
    ensures foreign { (capture : List ℕ) → R.remaining reader.old ≡ Some capture → result ≡ Err CaptureFileError.ForeignCapture → IsForeign capture }
{
    match whole_len(alloc, reader) {
        Ok(len) => Ok(len),
        Err(WholeError::Header(_fault)) => Err(CaptureFileError::ForeignCapture),
        Err(WholeError::Foreign(_offset)) => Err(CaptureFileError::ForeignCapture),
        Err(WholeError::Input | WholeError::OutOfMemory) => Err(CaptureFileError::CaptureFault),
    }
}

/// Reads the front of a file into a buffer, as much as there is room for or the file has. It returns how many bytes these are.
fn read_front(file: &File, buffer: &mut [u8]) -> Result<usize, Cause>
    ensures { IfOk result (λ count. count ≤ length buffer.new) }
{
    let metadata = file.metadata()?;
    let count = match usize::try_from(metadata.len()) {
        Ok(size) => size.min(buffer.len()),
        Err(_) => buffer.len(),
    };
    file.read_exact_at(&mut buffer[..count], 0)?;
    Ok(count)
}

/// Puts the file header where the front of a capture has no byte.
///
/// # Errors
///
/// - `CaptureFault`: the sink failed, or memory was refused.
/// - `ForeignCapture`: the front is another one than the file header. Nothing was put.
fn put_front<S: Sink>(alloc: Global, sink: &mut S, front: &[u8]) -> Result<(), CaptureFileError>
    ensures written { OnOk result (BeginsCapture S.takes front.now sink.old sink.new) }
    ensures foreign { result ≡ Err CaptureFileError.ForeignCapture → (front.now ≢ []) × (front.now ≢ file_header) }
    ensures silent { result ≡ Err CaptureFileError.ForeignCapture → sink.new ≡ sink.old }
{
    if front.is_empty() {
        return write_header(alloc, sink).map_err(|_| CaptureFileError::CaptureFault);
    }
    if !is_own(alloc, front).map_err(|_| CaptureFileError::CaptureFault)? {
        return Err(CaptureFileError::ForeignCapture);
    }
    Ok(())
}

/// Whether these bytes are the file header of a capture that is written.
fn is_own(alloc: Global, bytes: &[u8]) -> Result<bool, AllocError>
    ensures { IfOk result (λ own. IsTrue own ↔ (bytes.now ≡ file_header)) }
{
    let header = file_header(alloc)?;
    Ok(bytes == header.as_slice())
}

/// Puts the record of what a packet tells, by one call.
///
/// # Errors
///
/// `CaptureFault`: the sink failed, or memory was refused, or the packet makes no record, as in the year 2106.
pub(crate) fn put_record<S: Sink>(
    alloc: Global,
    sink: &mut S,
    nanoseconds: u64,
    content: Content<'_>,
) -> Result<(), CaptureFileError>
    ensures written { OnOk result (S.takes sink.old sink.new (packet_bytes nanoseconds (told_of content.entry))) }
    ensures faults { IfErr result (λ f. f ≡ CaptureFileError.CaptureFault) }
{
    let captured = Captured {
        nanoseconds,
        content,
    };
    write_record(alloc, sink, &captured).map_err(|_| CaptureFileError::CaptureFault)
}

/// The nanoseconds since the start of 1970, and 0 if the system has no time.
pub(crate) fn now<C: Clock>(rt: &C) -> u64 {
    let Ok(now) = SystemTime::now(rt) else {
        return 0;
    };
    match now.duration_since(UNIX_EPOCH) {
        Ok(since) => u64::try_from(since.as_nanos()).unwrap_or(u64::MAX),
        Err(_) => 0,
    }
}
