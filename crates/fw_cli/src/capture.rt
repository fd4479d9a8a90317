//! The capture of a run, where a command is asked for one.

ghost use Rattle.std.specs.Prelude.{◌≡◌, IfErr, IfOk, IsTrue, OnErr, OnOk, is_some};
ghost use Rattle.std.specs.Io.KnownBytes.{Appends};
ghost use Rattle.std.specs.Option.{option_map};
ghost use Rattle.fw_recording.specs.Recording.{capture_bytes, run_records};
ghost use Rattle.fw_cli.specs.Capturing.{CapturesIf};

use fw_capture::AppendError;
use fw_recording::capture_of;
use fw_world::Datagram;
use std::alloc::Global;
use std::io::Write;

/// Why the capture of a run isn't written.
#[derive(Clone, Copy)]
pub(crate) enum RunCaptureError {
    /// The writer failed, or a datagram makes no record.
    CaptureFault,
    /// Memory was refused.
    OutOfMemory,
}

/// Writes the capture of what was sent in a run, if there is a writer for it, and flushes it.
///
/// # Errors
///
/// - `CaptureFault`: the writer failed, and what it holds then is unspecified. Or a datagram makes no record, and nothing was written.
/// - `OutOfMemory`: nothing was written.
pub(crate) fn write_capture<C: Write>(
    alloc: Global,
    writer: &mut Option<C>,
    sent: &[Datagram],
) -> Result<(), RunCaptureError>
    ensures written { OnOk result (CapturesIf (option_map C.contents writer.old) (option_map C.contents writer.new) sent.now) }
    ensures asked { OnErr result (IsTrue (is_some writer.old)) }
    ensures silent { result ≡ Err RunCaptureError.OutOfMemory → writer.new ≡ writer.old }
{
    let Some(writer) = writer else {
        return Ok(());
    };
    let capture = bytes_of(alloc, sent)?;
    write_whole(writer, &capture)
}

/// The bytes of the capture of what was sent.
fn bytes_of(alloc: Global, sent: &[Datagram]) -> Result<Vec<u8>, RunCaptureError>
    ensures { IfOk result (λ capture. capture.items ≡ capture_bytes (run_records sent.now)) }
{
    match capture_of(alloc, sent) {
        Ok(capture) => Ok(capture),
        Err(AppendError::OutOfMemory) => Err(RunCaptureError::OutOfMemory),
        Err(_) => Err(RunCaptureError::CaptureFault),
    }
}

/// Writes bytes, and flushes them.
fn write_whole<C: Write>(writer: &mut C, bytes: &[u8]) -> Result<(), RunCaptureError>
    ensures written { OnOk result (Appends (C.contents writer.old) (C.contents writer.new) bytes.now) }
    ensures faults { IfErr result (λ e. e ≡ RunCaptureError.CaptureFault) }
{
    writer
        .write_all(bytes)
        .map_err(|_| RunCaptureError::CaptureFault)?;
    writer.flush().map_err(|_| RunCaptureError::CaptureFault)
}
