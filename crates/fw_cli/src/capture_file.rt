//! The file of a daemon's capture, with what of it the disk may lack and why a write to it failed, and why the port of a daemon is closed.

ghost use Rattle.std.specs.Prelude.{◌≡◌, ◌≢◌, ◌⊎◌, None, IfErr, IfOk, IsTrue, OnErr, is_some};
ghost use Rattle.fw_cli.specs.Reasons.{IsClosingKeyed, closing_error, counter_error, reason_of};

use crate::error::ClosingError;
use fw_counter::CounterError;
use fw_disk::{Because, Cause, Name, Reason};
use fw_host::{
    CaptureFileError, ClosedBy, SealingOptions, Started, SyncedSink, open_capture, put_start,
};
use fw_names::HeadId;
use std::alloc::Global;
use std::cell::Cell;
use std::fs::File;
use std::io;
use std::io::Write;
use std::net::SocketAddr;
use std::rt::{Clock, Files};
use std::time::Instant;

/// The file of a capture. It remembers why the last call that failed did.
#[derive(Drop)]
pub(crate) struct CaptureFile {
    file: File,
    cause: Cell<Option<Cause>>,
    /// Whether the disk may lack something.
    is_unsynced: Cell<bool>,
    /// When the disk got all of it last, if the system had time.
    synced_at: Cell<Option<Instant>>,
}

impl CaptureFile {
    /// The file of a capture, if one is asked for.
    pub(crate) fn opened<R: Files<File = File>>(
        rt: &R,
        alloc: Global,
        path: Option<&str>,
    ) -> Result<Option<CaptureFile>, Because<CaptureFileError>>
        ensures some { IfOk result (λ file. is_some file ≡ is_some path.entry) }
        ensures asked { OnErr result (IsTrue (is_some path.entry)) }
    {
        match path {
            None => Ok(None),
            Some(path) => match open_capture(rt, alloc, path) {
                Ok(file) => Ok(Some(CaptureFile::of(file))),
                Err(because) => Err(because),
            },
        }
    }
}

impl CaptureFile {
    /// A file. The disk may lack its last records.
    fn of(file: File) -> CaptureFile {
        CaptureFile {
            file,
            cause: Cell::new(None),
            is_unsynced: Cell::new(true),
            synced_at: Cell::new(None),
        }
    }

    /// Puts it on the disk, if a second went by since that was done last, or it isn't known how long that is ago.
    fn sync_if_due<C: Clock>(&self, rt: &C) -> io::Result<()> {
        if !self.is_unsynced.get() {
            return Ok(());
        }
        let now = Instant::now(rt).ok();
        if is_recent(self.synced_at.get(), now) {
            return Ok(());
        }
        self.sync()?;
        self.synced_at.set(now);
        Ok(())
    }

    /// Puts it on the disk.
    fn sync(&self) -> io::Result<()> {
        match self.file.sync_data() {
            Ok(()) => {
                self.is_unsynced.set(false);
                Ok(())
            }
            Err(error) => Err(self.remember(error)),
        }
    }

    /// The error of a call, which is remembered.
    fn remember(&self, error: io::Error) -> io::Error {
        self.cause.set(Some(Cause::from(error)));
        error
    }
}

impl Write for CaptureFile {
    fn write(&mut self, buf: &[u8]) -> io::Result<usize> {
        match self.file.write(buf) {
            Ok(count) => {
                self.is_unsynced.set(true);
                Ok(count)
            }
            Err(error) => Err(self.remember(error)),
        }
    }

    fn flush(&mut self) -> io::Result<()> {
        self.file.flush()
    }
}

impl SyncedSink for &mut CaptureFile {
    fn settle<C: Clock>(&self, rt: &C) -> io::Result<()> {
        (**self).sync_if_due(rt)
    }
}

/// Whether it is less than a second since then.
fn is_recent(then: Option<Instant>, now: Option<Instant>) -> bool {
    match (then, now) {
        (Some(then), Some(now)) => now.saturating_duration_since(then).as_secs() < 1,
        _ => false,
    }
}

/// Why the last call of the file of a capture that failed did, if one did.
pub(crate) fn failure_of(file: Option<&CaptureFile>) -> Option<Cause> {
    file?.cause.get()
}

/// Puts the notes of a start of meters into a capture, if there is one. If that fails, it is the fault of a daemon for which a capture is asked
/// for.
pub(crate) fn start_meters<C: Clock>(
    rt: &C,
    alloc: Global,
    capture: Option<&str>,
    file: Option<&mut CaptureFile>,
    count: u32,
    heads: &[SocketAddr],
) -> Result<(), Because<ClosingError>>
    ensures asked { IfErr result (λ b. b.error ≡ ClosingError.CaptureFault → IsTrue (is_some capture.entry)) }
    ensures plain { IfErr result (λ b. (b.error ≡ ClosingError.Socket) ⊎ (b.error ≡ ClosingError.CaptureFault)) }
{
    let Some(file) = file else {
        return Ok(());
    };
    let put = put_start(rt, alloc, file, Started::Meters { count, heads });
    start_of(capture, put, file.cause.get())
}

/// Puts the note of a start of a head end into a capture, if there is one. If that fails, it is the fault of a daemon for which a capture is
/// asked for.
pub(crate) fn start_head<C: Clock>(
    rt: &C,
    alloc: Global,
    capture: Option<&str>,
    file: Option<&mut CaptureFile>,
    head: HeadId,
) -> Result<(), Because<ClosingError>>
    ensures asked { IfErr result (λ b. b.error ≡ ClosingError.CaptureFault → IsTrue (is_some capture.entry)) }
    ensures plain { IfErr result (λ b. (b.error ≡ ClosingError.Socket) ⊎ (b.error ≡ ClosingError.CaptureFault)) }
{
    let Some(file) = file else {
        return Ok(());
    };
    let put = put_start(rt, alloc, file, Started::Head(head));
    start_of(capture, put, file.cause.get())
}

/// What comes of the notes of a start, which were put so, with the cause of the file's last call that failed.
fn start_of(
    capture: Option<&str>,
    put: Result<(), CaptureFileError>,
    cause: Option<Cause>,
) -> Result<(), Because<ClosingError>>
    ensures asked { IfErr result (λ b. b.error ≡ ClosingError.CaptureFault → IsTrue (is_some capture.entry)) }
    ensures plain { IfErr result (λ b. (b.error ≡ ClosingError.Socket) ⊎ (b.error ≡ ClosingError.CaptureFault)) }
{
    match put {
        Ok(()) => Ok(()),
        Err(_) => Err(closing_plain(capture, true, cause)),
    }
}

/// Puts a capture on the disk where its process ends, if there is one. If that fails, it is the fault of a daemon for which a capture is asked
/// for.
pub(crate) fn end_capture(
    capture: Option<&str>,
    file: Option<&CaptureFile>,
) -> Result<(), Because<ClosingError>>
    ensures asked { IfErr result (λ b. b.error ≡ ClosingError.CaptureFault → IsTrue (is_some capture.entry)) }
    ensures plain { IfErr result (λ b. (b.error ≡ ClosingError.Socket) ⊎ (b.error ≡ ClosingError.CaptureFault)) }
{
    let Some(file) = file else {
        return Ok(());
    };
    match file.sync() {
        Ok(()) => Ok(()),
        Err(_) => Err(closing_plain(capture, true, file.cause.get())),
    }
}

/// The fault of a daemon whose port is closed, where a capture is asked for, or keys are given: no counter is given any more, a record
/// couldn't be written, for this cause, or the socket failed.
pub(crate) fn closing(
    capture: Option<&str>,
    sealing: Option<SealingOptions<'_>>,
    by: ClosedBy,
    cause: Option<Cause>,
) -> Because<ClosingError>
    ensures asked { result.error ≡ ClosingError.CaptureFault → IsTrue (is_some capture.entry) }
    ensures keyed { IsClosingKeyed sealing.entry result.error }
    ensures error { result.error ≡ closing_error capture.entry sealing.entry by }
    ensures reason { result.error ≡ ClosingError.CaptureFault → result.reason ≡ reason_of cause }
    ensures others { result.error ≢ ClosingError.CaptureFault → result.reason ≡ None }
{
    match by {
        ClosedBy::Capture if capture.is_some() => Because {
            error: ClosingError::CaptureFault,
            reason: reason_of(cause),
        },
        ClosedBy::Counter(error) if sealing.is_some() => Because::from(counter_error(error)),
        _ => Because::from(ClosingError::Socket),
    }
}

/// The fault of daemons without keys, of which one has its port closed: a record couldn't be written, for this cause, or a socket failed.
pub(crate) fn closing_plain(
    capture: Option<&str>,
    has_failed: bool,
    cause: Option<Cause>,
) -> Because<ClosingError>
    ensures asked { result.error ≡ ClosingError.CaptureFault → IsTrue (is_some capture.entry) }
    ensures plain { (result.error ≡ ClosingError.Socket) ⊎ (result.error ≡ ClosingError.CaptureFault) }
{
    if has_failed {
        closing(capture, None, ClosedBy::Capture, cause)
    } else {
        closing(capture, None, ClosedBy::Socket, cause)
    }
}

/// What a sealer that no counter is given ends a daemon with.
fn counter_error(error: CounterError) -> ClosingError
    ensures { result ≡ counter_error error }
{
    match error {
        CounterError::CounterSpent => ClosingError::CounterSpent,
        _ => ClosingError::CounterFault,
    }
}

/// Why a call of a file failed, if that is known.
pub(crate) fn reason_of(cause: Option<Cause>) -> Option<Reason>
    ensures { result ≡ reason_of cause }
{
    match cause {
        Some(cause) => Some(cause.at(Name::Main)),
        None => None,
    }
}
