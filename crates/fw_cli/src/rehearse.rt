//! The command `rehearse`: several workers make rounds after the events of a script, and the report of the world is written.

ghost use Rattle.std.specs.Prelude.{◌≡◌, ◌≢◌, ◌⊎◌, IfOk, IfErr, OnOk, string_bytes};
ghost use Rattle.std.specs.Io.KnownBytes.{Keeps};
ghost use Rattle.std.specs.Option.{option_map};
ghost use Rattle.fw_world.specs.Setup.{IsSetup};
ghost use Rattle.fw_air.specs.Fates.{IsFates};
ghost use Rattle.fw_script.specs.declared.error.FatesError.TheVariants as fates;
ghost use Rattle.fw_script.specs.Fates.{SpellsSome};
ghost use Rattle.fw_cli.specs.Private.{HasNoReport, IsOfWorkers, fault_of_run_capture, fault_of_script_input, fault_of_workers};
ghost use Rattle.fw_cli.specs.Replaying.{MayWantFor};
ghost use Rattle.fw_workers.specs.Deals.{AreWorkers};
ghost use Rattle.fw_cli.specs.Rehearsing.{MayWantToRehearse, Rehearses, TellsRehearsal, WritesRehearsal};
ghost use Rattle.fw_cli.specs.Scripts.{EndsBy, MakesNoneFor, fault_of_fates, fault_of_rehearsal};
ghost use Rattle.fw_cli.specs.declared.rehearse.RehearsalError.TheVariants.{BadFates, OutOfMemory};

use crate::capture::{RunCaptureError, write_capture};
use crate::progress::RowsGate;
use crate::replay::{Air, Rounds, air_of};
use crate::workers::{ScriptInputError, Told, script_from, tell_report};
use fw_air::Fates;
use fw_faults::{Fault, write_text};
use fw_script::{FatesError, Script};
use fw_workers::{RehearseError, rehearse};
use fw_world::{Event, Setup};
use std::alloc::{AllocError, Global};
use std::fmt;
use std::io::{Read, Write};
use std::sync::Wait;
use std::thread::Threads;
use thiserror::Error;

/// The options of the command.
#[derive(Clone, Copy)]
pub struct RehearseOptions<'a> {
    /// The rounds that the workers make after the events of the script.
    pub rounds: Rounds<'a>,
    /// How many workers there are, 1 to 8, each in a thread of its own.
    pub workers: u32,
    /// Whether a line for each datagram that was sent stands before the report.
    pub trace: bool,
}

/// Why the command ended early. It prints its name, and of a bad line the number too.
#[derive(Clone, Copy, Debug, Error)]
pub enum RehearsalError {
    /// The fates aren't 1 to 4,096 of the letters `d`, `x`, `t` and `l`.
    BadFates,
    /// The reader failed, or came to no end within 2^32 reads.
    Input,
    /// The reader had more than 64 MiB.
    TooMuchInput,
    /// The line of this number, counted from 1, can't go on with the script that the lines before it begin.
    BadLine(u64),
    /// No world can be made of the setup, or the workers are not 1 to 8.
    BadSetup,
    /// An event of the script was refused, for another cause than memory.
    Event,
    /// What the workers left isn't what their record says.
    Mismatch,
    /// A thread could not be started.
    ThreadRefused,
    /// The writer of captures failed, or a datagram makes no record.
    CaptureFault,
    /// The writer failed.
    Output,
    /// Memory was refused.
    OutOfMemory,
}

impl fmt::Display for RehearsalError {
    fn fmt<W: fmt::Write>(&self, f: &mut fmt::Formatter<W>) -> fmt::Result {
        match self {
            RehearsalError::BadLine(number) => write!(f, "BadLine {number}"),
            other => fmt::Debug::fmt(other, f),
        }
    }
}

impl From<AllocError> for RehearsalError {
    ghost from_gives = { λ _ e. e ≡ OutOfMemory };

    fn from(_error: AllocError) -> RehearsalError {
        RehearsalError::OutOfMemory
    }
}

impl From<FatesError> for RehearsalError {
    ghost from_gives = { λ error e.
        (fault_of_rehearsal e ≡ fault_of_fates error) × (((error ≡ fates.BadFates) × (e ≡ BadFates)) ⊎ ((error ≡ fates.OutOfMemory) × (e ≡ OutOfMemory))) };

    fn from(error: FatesError) -> RehearsalError {
        match error {
            FatesError::BadFates => RehearsalError::BadFates,
            FatesError::OutOfMemory => RehearsalError::OutOfMemory,
        }
    }
}

impl From<ScriptInputError> for RehearsalError {
    ghost from_gives = { λ error e. (fault_of_rehearsal e ≡ fault_of_script_input error) × (e ≢ BadFates) };

    fn from(error: ScriptInputError) -> RehearsalError {
        match error {
            ScriptInputError::Input => RehearsalError::Input,
            ScriptInputError::TooMuchInput => RehearsalError::TooMuchInput,
            ScriptInputError::BadLine(number) => RehearsalError::BadLine(number),
            ScriptInputError::OutOfMemory => RehearsalError::OutOfMemory,
        }
    }
}

impl From<RunCaptureError> for RehearsalError {
    ghost from_gives = { λ error e. (fault_of_rehearsal e ≡ fault_of_run_capture error) × (e ≢ BadFates) };

    fn from(error: RunCaptureError) -> RehearsalError {
        match error {
            RunCaptureError::CaptureFault => RehearsalError::CaptureFault,
            RunCaptureError::OutOfMemory => RehearsalError::OutOfMemory,
        }
    }
}

impl From<RehearsalError> for Fault {
    ghost from_gives = { λ error fault. fault ≡ fault_of_rehearsal error };

    fn from(error: RehearsalError) -> Fault {
        match error {
            RehearsalError::BadFates => Fault::BadFates,
            RehearsalError::Input => Fault::Input,
            RehearsalError::TooMuchInput => Fault::TooMuchInput,
            RehearsalError::BadLine(number) => Fault::BadLine(number),
            RehearsalError::BadSetup => Fault::BadSetup,
            RehearsalError::Event => Fault::Event,
            RehearsalError::Mismatch => Fault::Mismatch,
            RehearsalError::ThreadRefused => Fault::ThreadRefused,
            RehearsalError::CaptureFault => Fault::CaptureFault,
            RehearsalError::Output => Fault::Output,
            RehearsalError::OutOfMemory => Fault::OutOfMemory,
        }
    }
}

/// Runs the script that the reader has, and lets workers make rounds after its events. The writer gets the report of the world at the
/// end, and the line `board N` with the number of rows that the workers counted as done. A trace, if it is asked for, stands before
/// the report, as that of `run_replay`: its datagrams have the order in which the workers' events were recorded.
///
/// The terminal, if there is one, shows meanwhile how many rows are done, in a line that is cleared before anything is written to the
/// writer. If it fails, nothing else changes.
///
/// If there is a writer of captures, it gets first the capture of all datagrams that were sent, in the order of the trace.
///
/// All input is read before anything is written, and what is written is flushed.
///
/// # Errors
///
/// - `BadFates`: the fates aren't 1 to 4,096 of their letters. Nothing was read.
/// - `Input` or `TooMuchInput`, whichever the reading meets first.
/// - `BadLine`: this line can't go on with the script that the lines before it begin.
/// - `BadSetup`: no world can be made of the setup, or the workers are not 1 to 8.
/// - `Event`: an event of the script was refused, for another cause than memory.
/// - `Mismatch`: what the workers left isn't what their record says.
/// - `ThreadRefused`: a thread could not be started.
/// - `CaptureFault`: the writer of captures failed. What it holds then is unspecified, and nothing else was written.
/// - `Output`: the writer failed. What it holds then is open, and the capture was written.
/// - `OutOfMemory`: nothing was written, and no more than 64 MiB were read. It comes for good fates, for input while it is read, for a line
///   with which the script goes on, and for a script of which a world can be made.
pub fn run_rehearse<T: Threads + Wait + Sync, R: Read, W: Write, C: Write, E: Eprint + Sync>(
    rt: &T,
    alloc: Global,
    reader: &mut R,
    writer: &mut W,
    capture: &mut Option<C>,
    terminal: Option<&E>,
    options: &RehearseOptions<'_>,
) -> Result<(), RehearsalError>
    // The report of the world at the end of an accounted run, and its board, and the capture of the run.
    ensures ok { OnOk result (Rehearses options.now (R.remaining reader.old) (R.remaining reader.new)
        (option_map C.contents capture.old) (option_map C.contents capture.new) (W.contents writer.old) (W.contents writer.new)) }

    ensures workers { OnOk result (AreWorkers options.now.workers) }

    // Bad fates are refused before anything is read, and no others are.
    ensures bad_fates { result ≡ Err RehearsalError.BadFates → ¬ SpellsSome options.now.rounds.fates.now }
    ensures fates_refused { ¬ SpellsSome options.now.rounds.fates.now → result ≡ Err RehearsalError.BadFates }
    ensures fates_first { ¬ SpellsSome options.now.rounds.fates.now → Keeps (R.remaining reader.old) (R.remaining reader.new) }

    // What it is refused for, and what it did until then. Memory may be wanted for good fates too.
    ensures ends { IfErr result (λ e. EndsBy (MayWantToRehearse options.now (R.remaining reader.old) (R.remaining reader.new)) (MakesNoneFor options.now.workers)
        (R.remaining reader.old) (R.remaining reader.new) capture.old capture.new (W.contents writer.old) (W.contents writer.new)
        (fault_of_rehearsal e)) }
{
    let air = air_of(alloc, &options.rounds)?;
    rehearse_from(
        rt,
        alloc,
        reader,
        writer,
        capture,
        terminal,
        &air,
        options.workers,
        options.trace,
    )
}

/// Rehearses the script that the reader has, and writes the capture and the report of it.
fn rehearse_from<T: Threads + Wait + Sync, R: Read, W: Write, C: Write, E: Eprint + Sync>(
    rt: &T,
    alloc: Global,
    reader: &mut R,
    writer: &mut W,
    capture: &mut Option<C>,
    terminal: Option<&E>,
    air: &Air,
    workers: u32,
    trace: bool,
) -> Result<(), RehearsalError>
    requires fates { IsFates air.now.fates.items }
    ensures ok { OnOk result (WritesRehearsal trace air.now.rounds workers (R.remaining reader.old) (R.remaining reader.new)
        (option_map C.contents capture.old) (option_map C.contents capture.new) (W.contents writer.old) (W.contents writer.new)) }
    ensures workers { OnOk result (AreWorkers workers) }
    ensures not_fates { result ≢ Err RehearsalError.BadFates }
    ensures ends { IfErr result (λ e. EndsBy (MayWantFor (R.remaining reader.old) (R.remaining reader.new)) (MakesNoneFor workers)
        (R.remaining reader.old) (R.remaining reader.new) capture.old capture.new (W.contents writer.old) (W.contents writer.new)
        (fault_of_rehearsal e)) }
{
    let Script { setup, events } = script_from(alloc, reader)?;
    let told = tell_rehearsal(rt, alloc, &setup, &events, terminal, air, workers, trace)?;
    write_capture(alloc, capture, told.world.sent())?;
    match write_text(writer, told.text.as_str()) {
        Ok(()) => Ok(()),
        Err(_) => Err(RehearsalError::Output),
    }
}

/// What is written of a rehearsal: its trace, if it is asked for, the report of its world, and the line of its board.
fn tell_rehearsal<T: Threads + Wait + Sync, E: Eprint + Sync>(
    rt: &T,
    alloc: Global,
    setup: &Setup,
    events: &[Event],
    terminal: Option<&E>,
    air: &Air,
    workers: u32,
    trace: bool,
) -> Result<Told, RehearsalError>
    requires fates { IsFates air.now.fates.items }
    ensures ok { IfOk result (λ told. TellsRehearsal trace air.now.rounds workers setup.now events.now told.world (string_bytes told.text)) }
    ensures made { OnOk result (IsSetup setup.now) }
    ensures workers { OnOk result (AreWorkers workers) }
    ensures unreported { IfErr result (λ e. HasNoReport workers setup.now events.now (fault_of_rehearsal e)) }
    ensures faults { IfErr result (λ e. IsOfWorkers (fault_of_rehearsal e)) }
{
    let Some(fates) = Fates::new(&air.fates) else {
        unreachable!()
    };
    let gate = RowsGate::new(terminal, events);
    let report = match rehearse(rt, alloc, setup, events, air.rounds, workers, &fates, &gate) {
        Ok(report) => report,
        Err(error) => return Err(rehearsal_error(error)),
    };
    let text = tell_report(alloc, setup, events, &report, trace)?;
    Ok(Told {
        text,
        world: report.world,
    })
}

/// Why the workers of a rehearsal have no report. They have no wires, and no gate shuts.
fn rehearsal_error(error: RehearseError) -> RehearsalError
    requires wireless { error ≢ RehearseError.Socket }
    requires unshut { error ≢ RehearseError.GateShut }
    ensures fault { fault_of_rehearsal result ≡ fault_of_workers error }
    ensures of_workers { IsOfWorkers (fault_of_rehearsal result) }
{
    match error {
        RehearseError::Mismatch => RehearsalError::Mismatch,
        RehearseError::ThreadRefused => RehearsalError::ThreadRefused,
        RehearseError::Event(_) => RehearsalError::Event,
        RehearseError::OutOfMemory => RehearsalError::OutOfMemory,
        RehearseError::BadSetup => RehearsalError::BadSetup,
        RehearseError::Socket | RehearseError::GateShut => unreachable!(),
    }
}
