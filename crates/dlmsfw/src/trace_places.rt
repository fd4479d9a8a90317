//! What ended a trace, what that is about, and why it is refused.

ghost use Rattle.std.specs.Prelude.{◌≡◌, Some};
ghost use Rattle.dlmsfw.specs.TracePlaces.{
  TellsTraceReason,
  fault_of_key_file,
  trace_fault_of,
  trace_place_of,
  trace_place_text,
};
ghost use Rattle.dlmsfw.specs.declared.trace_places.TraceFault.TheVariants.{Ended};

use crate::options::TraceOptions;
use crate::refusal;
use crate::refusal::Refusal;
use fw_cli::TraceError;
use fw_disk::Reason;
use fw_faults::Fault;
use fw_key_files::KeyFileError;
use std::fmt;
use std::rt::Files;

/// What ended a trace.
#[derive(Clone, Copy)]
pub(crate) enum TraceFault {
    /// The file that has the capture can't be opened, for this reason.
    Unopened(Reason),
    /// The file of the keys isn't read.
    Keys(KeyFileError),
    /// The command ended so.
    Ended(TraceError),
}

impl TraceFault {
    /// The fault that it is.
    pub(crate) fn fault(self) -> Fault
        ensures { result ≡ trace_fault_of self }
    {
        match self {
            TraceFault::Unopened(_) => Fault::CaptureFault,
            TraceFault::Keys(error) => fault_of_key_file(error),
            TraceFault::Ended(error) => Fault::from(error),
        }
    }
}

/// The fault that says why a key file isn't read.
fn fault_of_key_file(error: KeyFileError) -> Fault
    ensures { result ≡ fault_of_key_file error }
{
    match error {
        KeyFileError::KeysFault => Fault::KeysFault,
        KeyFileError::KeysReadable => Fault::KeysReadable,
        KeyFileError::BadKeys(line, why) => Fault::BadKeys(line, why),
        KeyFileError::NoRandomness => Fault::NoRandomness,
        KeyFileError::OutOfMemory => Fault::OutOfMemory,
    }
}

impl From<TraceError> for TraceFault {
    ghost from_gives = { λ error ended. ended ≡ Ended error };

    fn from(error: TraceError) -> TraceFault {
        TraceFault::Ended(error)
    }
}

/// The files of a trace.
#[derive(Clone, Copy)]
pub(crate) struct TracePlaces<'a> {
    capture: Option<&'a str>,
    keys: Option<&'a str>,
    plain: Option<&'a str>,
}

impl<'a> TracePlaces<'a> {
    /// Those of these options.
    pub(crate) fn of(options: &TraceOptions<'a>) -> TracePlaces<'a>
        ensures capture { result.capture ≡ options.now.capture }
        ensures keys { result.keys ≡ options.now.keys }
        ensures plain { result.plain ≡ options.now.plain }
    {
        TracePlaces {
            capture: options.capture,
            keys: options.keys,
            plain: options.plain,
        }
    }
}

/// What the fault of a trace is about.
#[derive(Clone, Copy)]
pub(crate) enum TracePlace<'a> {
    /// The file that has the capture.
    Capture(&'a str),
    /// The key file.
    Keys(&'a str),
    /// The file that gets the capture in plain words.
    Plain(&'a str),
}

impl fmt::Display for TracePlace<'_> {
    ghost output = { λ place. Some (trace_place_text place) };

    fn fmt<W: fmt::Write>(&self, f: &mut fmt::Formatter<W>) -> fmt::Result {
        match self {
            TracePlace::Capture(file) => write!(f, "{file}"),
            TracePlace::Keys(file) => write!(f, "--keys {file}"),
            TracePlace::Plain(file) => write!(f, "--plain {file}"),
        }
    }
}

/// What the fault of a trace is about, if it is one of its files.
pub(crate) fn place_of<'a>(ended: TraceFault, places: TracePlaces<'a>) -> Option<TracePlace<'a>>
    ensures { result ≡ trace_place_of ended places.entry }
{
    match ended {
        TraceFault::Unopened(_) | TraceFault::Ended(TraceError::Input) => {
            Some(TracePlace::Capture(places.capture?))
        }
        TraceFault::Keys(
            KeyFileError::KeysFault | KeyFileError::KeysReadable | KeyFileError::BadKeys(_, _),
        ) => Some(TracePlace::Keys(places.keys?)),
        TraceFault::Ended(TraceError::CaptureFault) => Some(TracePlace::Plain(places.plain?)),
        TraceFault::Keys(_) | TraceFault::Ended(_) => None,
    }
}

/// Why a file of a trace is refused: the reason that came with the fault. If none did, and the file that has the capture can't be read, the
/// system is asked.
pub(crate) fn refusal_of(
    files: &impl Files,
    reason: Option<Reason>,
    place: Option<TracePlace<'_>>,
) -> Option<Refusal>
    ensures { TellsTraceReason place.entry reason result }
{
    match (place?, reason) {
        (TracePlace::Capture(path), None) => refusal::of_file(files, path),
        (_, reason) => refusal::of_reason(reason),
    }
}
