//! The command `live`: several workers make rounds over UDP sockets after the events of a script, and the report of the world is written.

ghost use Rattle.std.specs.Prelude.{◌≡◌, ◌≢◌, IfOk, IfErr, OnOk, string_bytes};
ghost use Rattle.std.specs.Option.{option_map};
ghost use Rattle.fw_world.specs.Setup.{IsSetup};
ghost use Rattle.fw_cli.specs.Private.{HasNoReport, IsOfLiveWorkers, fault_of_run_capture, fault_of_script_input, fault_of_workers};
ghost use Rattle.fw_cli.specs.Replaying.{MayWantFor};
ghost use Rattle.fw_workers.specs.Deals.{AreWorkers};
ghost use Rattle.fw_cli.specs.Rehearsing.{RunsLive, TellsRehearsal};
ghost use Rattle.fw_cli.specs.Scripts.{EndsBy, MakesNoneFor, fault_of_live};
ghost use Rattle.fw_cli.specs.declared.live.LiveError.TheVariants.{OutOfMemory};

use crate::capture::{RunCaptureError, write_capture};
use crate::progress::RowsGate;
use crate::workers::{ScriptInputError, Told, script_from, tell_report};
use fw_faults::{Fault, write_text};
use fw_script::Script;
use fw_workers::{RehearseError, live};
use fw_world::{Event, Setup};
use std::alloc::{AllocError, Global};
use std::fmt;
use std::io::{Read, Write};
use std::net::Net;
use std::sync::Wait;
use std::thread::Threads;
use thiserror::Error;

/// The options of the command.
#[derive(Clone, Copy)]
pub struct LiveOptions {
    /// How many rounds the workers make after the events of the script.
    pub rounds: u32,
    /// How many workers there are, 1 to 8, each in a thread of its own, and with another for its sockets.
    pub workers: u32,
    /// Whether a line for each datagram that was sent stands before the report.
    pub trace: bool,
}

/// Why the command ended early. It prints its name, and of a bad line the number too.
#[derive(Clone, Copy, Debug, Error)]
pub enum LiveError {
    /// The reader failed, or came to no end within 2^32 reads.
    Input,
    /// The reader had more than 64 MiB.
    TooMuchInput,
    /// The line of this number, counted from 1, can't go on with the script that the lines before it begin.
    BadLine(u64),
    /// No world can be made of the setup, or the workers are not 1 to 8.
    BadSetup,
    /// An event of the script was refused, for another cause than memory.
    Event,
    /// What the workers left isn't what their record says.
    Mismatch,
    /// A thread could not be started.
    ThreadRefused,
    /// No socket could be bound.
    Socket,
    /// The writer of captures failed, or a datagram makes no record.
    CaptureFault,
    /// The writer failed.
    Output,
    /// Memory was refused.
    OutOfMemory,
}

impl fmt::Display for LiveError {
    fn fmt<W: fmt::Write>(&self, f: &mut fmt::Formatter<W>) -> fmt::Result {
        match self {
            LiveError::BadLine(number) => write!(f, "BadLine {number}"),
            other => fmt::Debug::fmt(other, f),
        }
    }
}

impl From<AllocError> for LiveError {
    ghost from_gives = { λ _ e. e ≡ OutOfMemory };

    fn from(_error: AllocError) -> LiveError {
        LiveError::OutOfMemory
    }
}

impl From<ScriptInputError> for LiveError {
    ghost from_gives = { λ error e. fault_of_live e ≡ fault_of_script_input error };

    fn from(error: ScriptInputError) -> LiveError {
        match error {
            ScriptInputError::Input => LiveError::Input,
            ScriptInputError::TooMuchInput => LiveError::TooMuchInput,
            ScriptInputError::BadLine(number) => LiveError::BadLine(number),
            ScriptInputError::OutOfMemory => LiveError::OutOfMemory,
        }
    }
}

impl From<RunCaptureError> for LiveError {
    ghost from_gives = { λ error e. fault_of_live e ≡ fault_of_run_capture error };

    fn from(error: RunCaptureError) -> LiveError {
        match error {
            RunCaptureError::CaptureFault => LiveError::CaptureFault,
            RunCaptureError::OutOfMemory => LiveError::OutOfMemory,
        }
    }
}

impl From<LiveError> for Fault {
    ghost from_gives = { λ error fault. fault ≡ fault_of_live error };

    fn from(error: LiveError) -> Fault {
        match error {
            LiveError::Input => Fault::Input,
            LiveError::TooMuchInput => Fault::TooMuchInput,
            LiveError::BadLine(number) => Fault::BadLine(number),
            LiveError::BadSetup => Fault::BadSetup,
            LiveError::Event => Fault::Event,
            LiveError::Mismatch => Fault::Mismatch,
            LiveError::ThreadRefused => Fault::ThreadRefused,
            LiveError::Socket => Fault::Socket,
            LiveError::CaptureFault => Fault::CaptureFault,
            LiveError::Output => Fault::Output,
            LiveError::OutOfMemory => Fault::OutOfMemory,
        }
    }
}

/// Runs the script that the reader has, and lets workers make rounds over UDP sockets on this machine after its events. The writer gets
/// the report of the world at the end, and the line `board N` with the number of rows that the workers counted as done, and before them
/// the trace, if it is asked for, as of `run_rehearse`. The terminal, if there is one, shows how many rows are done meanwhile, as there.
///
/// If there is a writer of captures, it gets first the capture of all datagrams that were sent, in the order of the trace.
///
/// All input is read before anything is written, and what is written is flushed.
///
/// # Errors
///
/// As of `run_rehearse`, except `BadFates`, and besides
///
/// - `Socket`: no socket could be bound.
pub fn run_live<T: Threads + Wait + Net + Sync, R: Read, W: Write, C: Write, E: Eprint + Sync>(
    rt: &T,
    alloc: Global,
    reader: &mut R,
    writer: &mut W,
    capture: &mut Option<C>,
    terminal: Option<&E>,
    options: &LiveOptions,
) -> Result<(), LiveError>
    // The report of the world at the end of an accounted run, and its board, and the capture of the run.
    ensures ok { OnOk result (RunsLive options.now (R.remaining reader.old) (R.remaining reader.new)
        (option_map C.contents capture.old) (option_map C.contents capture.new) (W.contents writer.old) (W.contents writer.new)) }

    ensures workers { OnOk result (AreWorkers options.now.workers) }

    // What it is refused for, and what it did until then.
    ensures ends { IfErr result (λ e. EndsBy (MayWantFor (R.remaining reader.old) (R.remaining reader.new)) (MakesNoneFor options.now.workers)
        (R.remaining reader.old) (R.remaining reader.new) capture.old capture.new (W.contents writer.old) (W.contents writer.new)
        (fault_of_live e)) }
{
    let Script { setup, events } = script_from(alloc, reader)?;
    let told = tell_live(rt, alloc, &setup, &events, terminal, options)?;
    write_capture(alloc, capture, told.world.sent())?;
    match write_text(writer, told.text.as_str()) {
        Ok(()) => Ok(()),
        Err(_) => Err(LiveError::Output),
    }
}

/// What is written of a live rollout: its trace, if it is asked for, the report of its world, and the line of its board.
fn tell_live<T: Threads + Wait + Net + Sync, E: Eprint + Sync>(
    rt: &T,
    alloc: Global,
    setup: &Setup,
    events: &[Event],
    terminal: Option<&E>,
    options: &LiveOptions,
) -> Result<Told, LiveError>
    ensures ok { IfOk result (λ told. TellsRehearsal options.now.trace options.now.rounds options.now.workers setup.now events.now
        told.world (string_bytes told.text)) }
    ensures made { OnOk result (IsSetup setup.now) }
    ensures workers { OnOk result (AreWorkers options.now.workers) }
    ensures unreported { IfErr result (λ e. HasNoReport options.now.workers setup.now events.now (fault_of_live e)) }
    ensures faults { IfErr result (λ e. IsOfLiveWorkers (fault_of_live e)) }
{
    let LiveOptions {
        rounds,
        workers,
        trace,
    } = *options;
    let gate = RowsGate::new(terminal, events);
    let report = match live(rt, alloc, setup, events, rounds, workers, &gate) {
        Ok(report) => report,
        Err(error) => return Err(live_error(error)),
    };
    let text = tell_report(alloc, setup, events, &report, trace)?;
    Ok(Told {
        text,
        world: report.world,
    })
}

/// Why the workers of a live rollout have no report. No gate shuts.
fn live_error(error: RehearseError) -> LiveError
    requires { error ≢ RehearseError.GateShut }
    ensures fault { fault_of_live result ≡ fault_of_workers error }
    ensures of_workers { IsOfLiveWorkers (fault_of_live result) }
{
    match error {
        RehearseError::Mismatch => LiveError::Mismatch,
        RehearseError::ThreadRefused => LiveError::ThreadRefused,
        RehearseError::Event(_) => LiveError::Event,
        RehearseError::OutOfMemory => LiveError::OutOfMemory,
        RehearseError::Socket => LiveError::Socket,
        RehearseError::BadSetup => LiveError::BadSetup,
        RehearseError::GateShut => unreachable!(),
    }
}
