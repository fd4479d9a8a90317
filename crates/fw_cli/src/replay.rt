//! The command `replay`: a script is run, and the report of its world is written.

ghost use Rattle.std.specs.Prelude.{
  ◌≡◌,
  ◌≢◌,
  ◌⊎◌,
  ◌↔◌,
  ℕ,
  IsTrue,
  IfOk,
  IfErr,
  OnErr,
  IfSome,
  string_bytes,
};
ghost use Rattle.std.specs.Io.KnownBytes.{Keeps};
ghost use Rattle.std.specs.Option.{option_map};
ghost use Rattle.fw_world.specs.Runs.{IsStopped, events_of};
ghost use Rattle.fw_world.specs.Setup.{IsSetup};
ghost use Rattle.fw_air.specs.Fates.{IsFates};
ghost use Rattle.fw_air.specs.Schedules.{IsOfWorld};
ghost use Rattle.fw_script.specs.declared.error.FatesError.TheVariants as fates;
ghost use Rattle.fw_script.specs.Fates.{SpellsFates, SpellsSome};
ghost use Rattle.fw_faults.specs.Faults.{fault_of_input};
ghost use Rattle.fw_cli.specs.Private.{fault_of_run_capture, rounds_in};
ghost use Rattle.fw_script.specs.Script.{BeginsScript, IsBadLine, SpellsScript, script_of};
ghost use Rattle.fw_cli.specs.Replaying.{
  Replays,
  WritesRun,
  HasBadFates,
  MakesNone,
  MayTakeMemory,
  MayWantFor,
  MayWantMemory,
  Tells,
  TellsRun,
  TellsWorld,
  TellsRefusal,
  GoesOn,
  WantsMemory,
};
ghost use Rattle.fw_cli.specs.Scripts.{EndsBy, fault_of_fates, fault_of_replay};
ghost use Rattle.fw_cli.specs.declared.replay.ReplayingError.TheVariants.{BadFates, OutOfMemory};

use crate::capture::{RunCaptureError, write_capture};
use crate::progress::RoundsWatch;
use fw_air::{Fate, Fates, schedule_watched};
use fw_faults::{Fault, InputError, Reads, read_input, write_text};
use fw_report::{Refusal, Style, append_report_in, append_trace_of};
use fw_script::{FatesError, Script, ScriptError, read_fates, read_script};
use fw_world::{Event, RunError, Setup, SetupError, StepError, World, run};
use std::alloc::{AllocError, Global};
use std::fmt;
use std::io::{Read, Write};
use thiserror::Error;

/// The options of the command.
#[derive(Clone, Copy)]
pub struct ReplayOptions<'a> {
    /// The rounds that follow the events of the script, if any do.
    pub rounds: Option<Rounds<'a>>,
    /// How the run is reported.
    pub style: Style,
}

/// Rounds of all links: in each of them a head end sends to a meter, and each datagram has its fate.
#[derive(Clone, Copy)]
pub struct Rounds<'a> {
    /// How many there are of each link.
    pub rounds: u32,
    /// The fates of the datagrams of a link, a letter each, 1 to 4,096 of them, which are repeated: `d` it comes, `x` it is lost, `t` it
    /// comes twice, `l` it comes at the beginning of the next round.
    pub fates: &'a str,
}

/// Why the command ended early. It prints its name, and of a bad line the number too.
#[derive(Clone, Copy, Debug, Error)]
pub enum ReplayingError {
    /// The fates aren't 1 to 4,096 of the letters `d`, `x`, `t` and `l`.
    BadFates,
    /// The reader failed, or came to no end within 2^32 reads.
    Input,
    /// The reader had more than 64 MiB.
    TooMuchInput,
    /// The line of this number, counted from 1, can't go on with the script that the lines before it begin.
    BadLine(u64),
    /// No world can be made of the setup.
    BadSetup,
    /// The writer of captures failed, or a datagram makes no record.
    CaptureFault,
    /// The writer failed.
    Output,
    /// Memory was refused.
    OutOfMemory,
}

impl fmt::Display for ReplayingError {
    fn fmt<W: fmt::Write>(&self, f: &mut fmt::Formatter<W>) -> fmt::Result {
        match self {
            ReplayingError::BadLine(number) => write!(f, "BadLine {number}"),
            other => fmt::Debug::fmt(other, f),
        }
    }
}

impl From<AllocError> for ReplayingError {
    ghost from_gives = { λ _ e. e ≡ OutOfMemory };

    fn from(_error: AllocError) -> ReplayingError {
        ReplayingError::OutOfMemory
    }
}

impl From<FatesError> for ReplayingError {
    ghost from_gives = { λ error e.
        (fault_of_replay e ≡ fault_of_fates error) × (((error ≡ fates.BadFates) × (e ≡ BadFates)) ⊎ ((error ≡ fates.OutOfMemory) × (e ≡ OutOfMemory))) };

    fn from(error: FatesError) -> ReplayingError {
        match error {
            FatesError::BadFates => ReplayingError::BadFates,
            FatesError::OutOfMemory => ReplayingError::OutOfMemory,
        }
    }
}

impl From<InputError> for ReplayingError {
    ghost from_gives = { λ error e. (fault_of_replay e ≡ fault_of_input error) × (e ≢ BadFates) };

    fn from(error: InputError) -> ReplayingError {
        match error {
            InputError::Input => ReplayingError::Input,
            InputError::TooMuchInput => ReplayingError::TooMuchInput,
            InputError::OutOfMemory => ReplayingError::OutOfMemory,
        }
    }
}

impl From<RunCaptureError> for ReplayingError {
    ghost from_gives = { λ error e. (fault_of_replay e ≡ fault_of_run_capture error) × (e ≢ BadFates) };

    fn from(error: RunCaptureError) -> ReplayingError {
        match error {
            RunCaptureError::CaptureFault => ReplayingError::CaptureFault,
            RunCaptureError::OutOfMemory => ReplayingError::OutOfMemory,
        }
    }
}

impl From<ReplayingError> for Fault {
    ghost from_gives = { λ error fault. fault ≡ fault_of_replay error };

    fn from(error: ReplayingError) -> Fault {
        match error {
            ReplayingError::BadFates => Fault::BadFates,
            ReplayingError::Input => Fault::Input,
            ReplayingError::TooMuchInput => Fault::TooMuchInput,
            ReplayingError::BadLine(number) => Fault::BadLine(number),
            ReplayingError::BadSetup => Fault::BadSetup,
            ReplayingError::CaptureFault => Fault::CaptureFault,
            ReplayingError::Output => Fault::Output,
            ReplayingError::OutOfMemory => Fault::OutOfMemory,
        }
    }
}

/// How the run of a script ended.
#[derive(Clone, Copy, Debug)]
pub enum Ended {
    /// With its last event.
    Whole,
    /// With an event that was refused, and not because it was out of memory.
    Refused,
}

/// Rounds, with the fates of their datagrams.
#[derive(Drop)]
pub(crate) struct Air {
    pub(crate) rounds: u32,
    pub(crate) fates: Vec<Fate>,
}

/// What is written of a run, and the world that it ended in.
#[derive(Drop)]
struct Told {
    ended: Ended,
    text: String,
    world: World,
}

/// Runs the script that the reader has, and after its events the rounds that are asked for. The writer gets the report of the world after
/// the last event, in the form that is asked for. If an event is refused, it gets that of the world there, with the number of the event
/// and why it was refused. A trace, if it is asked for, stands before the report: a line for each datagram that was sent, with its
/// number, who sent it to whom, and what it says.
///
/// The terminal, if there is one, shows how many rounds are made and how many rows are done, in a line that is cleared before anything is
/// written to the writer. If it fails, nothing else changes.
///
/// If there is a writer of captures, it gets first the capture of all datagrams that were sent, also if an event is refused.
///
/// All input is read before anything is written, and what is written is flushed.
///
/// # Errors
///
/// - `BadFates`: the fates aren't 1 to 4,096 of their letters. Nothing was read.
/// - `Input` or `TooMuchInput`, whichever the reading meets first.
/// - `BadLine`: this line can't go on with the script that the lines before it begin.
/// - `BadSetup`: no world can be made of the setup.
/// - `CaptureFault`: the writer of captures failed. What it holds then is unspecified, and nothing else was written.
/// - `Output`: the writer failed. What it holds then is unspecified, and the capture was written.
/// - `OutOfMemory`: nothing was written, and no more than 64 MiB were read. It comes only for good fates, for input while it is read, for
///   a line with which the script goes on, and for a script of which a world can be made.
pub fn run_replay<R: Read, W: Write, C: Write, E: Eprint>(
    alloc: Global,
    reader: &mut R,
    writer: &mut W,
    capture: &mut Option<C>,
    terminal: Option<&E>,
    options: &ReplayOptions<'_>,
) -> Result<Ended, ReplayingError>
    // The report of the whole run, or of the run up to the event that is refused, and its capture.
    ensures ok { IfOk result (λ ended. Replays options.now ended (R.remaining reader.old) (R.remaining reader.new)
        (option_map C.contents capture.old) (option_map C.contents capture.new) (W.contents writer.old) (W.contents writer.new)) }

    // Bad fates are refused before anything is read, and no others are.
    ensures bad_fates { result ≡ Err ReplayingError.BadFates → HasBadFates options.now.rounds }
    ensures fates_refused { HasBadFates options.now.rounds → result ≡ Err ReplayingError.BadFates }
    ensures fates_first { HasBadFates options.now.rounds → Keeps (R.remaining reader.old) (R.remaining reader.new) }

    // What it is refused for, and what it did until then. Memory may be wanted for good fates too.
    ensures ends { IfErr result (λ e. EndsBy (MayWantMemory options.now (R.remaining reader.old) (R.remaining reader.new)) MakesNone
        (R.remaining reader.old) (R.remaining reader.new) capture.old capture.new (W.contents writer.old) (W.contents writer.new)
        (fault_of_replay e)) }
{
    let air = match &options.rounds {
        Some(rounds) => Some(air_of(alloc, rounds)?),
        None => None,
    };
    replay_from(
        alloc,
        reader,
        writer,
        capture,
        terminal,
        &air,
        options.style,
    )
}

/// The rounds with their fates.
pub(crate) fn air_of(alloc: Global, rounds: &Rounds<'_>) -> Result<Air, FatesError>
    ensures rounds { IfOk result (λ air. air.rounds ≡ rounds.now.rounds) }
    ensures fates { IfOk result (λ air. SpellsFates rounds.now.fates.now air.fates.items) }
    ensures bad_fates { result ≡ Err FatesError.BadFates → ¬ SpellsSome rounds.now.fates.now }
    ensures memory { result ≡ Err FatesError.OutOfMemory → SpellsSome rounds.now.fates.now }
{
    let fates = read_fates(alloc, rounds.fates.as_bytes())?;
    Ok(Air {
        rounds: rounds.rounds,
        fates,
    })
}

/// Runs the script that the reader has, and writes the capture and the report of it.
fn replay_from<R: Read, W: Write, C: Write, E: Eprint>(
    alloc: Global,
    reader: &mut R,
    writer: &mut W,
    capture: &mut Option<C>,
    terminal: Option<&E>,
    air: &Option<Air>,
    style: Style,
) -> Result<Ended, ReplayingError>
    requires fates { IfSome air.now (λ air. IsFates air.fates.items) }
    ensures ok { IfOk result (λ ended. WritesRun (rounds_in air.now) style ended (R.remaining reader.old) (R.remaining reader.new)
        (option_map C.contents capture.old) (option_map C.contents capture.new) (W.contents writer.old) (W.contents writer.new)) }
    ensures not_fates { result ≢ Err ReplayingError.BadFates }
    ensures ends { IfErr result (λ e. EndsBy (MayWantFor (R.remaining reader.old) (R.remaining reader.new)) MakesNone
        (R.remaining reader.old) (R.remaining reader.new) capture.old capture.new (W.contents writer.old) (W.contents writer.new)
        (fault_of_replay e)) }
{
    let mut reads = Reads::none();
    let input = read_input(alloc, reader, &mut reads)?;
    let told = replay(alloc, &input, terminal, air, style)?;
    write_capture(alloc, capture, told.world.sent())?;
    match write_text(writer, told.text.as_str()) {
        Ok(()) => Ok(told.ended),
        Err(_) => Err(ReplayingError::Output),
    }
}

/// What is written of a script.
fn replay<E: Eprint>(
    alloc: Global,
    input: &[u8],
    terminal: Option<&E>,
    air: &Option<Air>,
    style: Style,
) -> Result<Told, ReplayingError>
    requires fates { IfSome air.now (λ air. IsFates air.fates.items) }
    ensures ok { IfOk result (λ told. Tells (rounds_in air.now) style input.now told.ended told.world (string_bytes told.text)) }
    ensures bad_line { (number : ℕ) → result ≡ Err (ReplayingError.BadLine number) → IsBadLine input.now number }
    ensures bad_setup { result ≡ Err ReplayingError.BadSetup → MakesNone input.now }
    ensures memory { result ≡ Err ReplayingError.OutOfMemory → MayTakeMemory input.now }
    ensures faults { IfErr result (λ e. (e ≡ ReplayingError.OutOfMemory) ⊎ ((e ≡ ReplayingError.BadSetup)
        ⊎ ((number : ℕ) × (e ≡ ReplayingError.BadLine number)))) }
{
    let Script { setup, events } = script_of(alloc, input)?;
    let events = with_rounds(alloc, &setup, events, terminal, air)?;
    tell_run(alloc, &setup, &events, style)
}

/// The script that the input spells.
fn script_of(alloc: Global, input: &[u8]) -> Result<Script, ReplayingError>
    ensures ok { IfOk result (λ script. SpellsScript input.now (script_of script.setup script.events.items)) }
    ensures bad_line { (number : ℕ) → result ≡ Err (ReplayingError.BadLine number) → IsBadLine input.now number }
    ensures memory { result ≡ Err ReplayingError.OutOfMemory → BeginsScript input.now }
    ensures faults { IfErr result (λ e. (e ≡ ReplayingError.OutOfMemory) ⊎ ((number : ℕ) × (e ≡ ReplayingError.BadLine number))) }
{
    match read_script(alloc, input) {
        Ok(script) => Ok(script),
        Err(ScriptError::BadLine(number)) => Err(ReplayingError::BadLine(number)),
        Err(ScriptError::OutOfMemory) => Err(ReplayingError::OutOfMemory),
    }
}

/// The events of a script, and after them those of the rounds. Where a given event is refused no round is made: the run is refused there.
fn with_rounds<E: Eprint>(
    alloc: Global,
    setup: &Setup,
    events: Vec<Event>,
    terminal: Option<&E>,
    air: &Option<Air>,
) -> Result<Vec<Event>, AllocError>
    requires fates { IfSome air.now (λ air. IsFates air.fates.items) }
    ensures ok { IfOk result (λ all. GoesOn (rounds_in air.now) setup.now (events_of events.items) (events_of all.items)) }
    ensures memory { OnErr result (IsSetup setup.now) }
{
    let Some(air) = air else {
        return Ok(events);
    };
    let Some(fates) = Fates::new(&air.fates) else {
        unreachable!()
    };
    let watch = RoundsWatch::new(terminal, setup, air.rounds);
    match schedule_watched(alloc, setup, &events, air.rounds, &fates, &watch) {
        Ok(all) => Ok(all),
        Err(error) if wants_memory(&error) => Err(AllocError),
        Err(_) => Ok(events),
    }
}

/// Whether a run ended since it was out of memory.
fn wants_memory(error: &RunError) -> bool
    ensures { IsTrue result ↔ WantsMemory error.now }
{
    matches!(
        error,
        RunError::Setup(SetupError::OutOfMemory)
            | RunError::Event {
                cause: StepError::OutOfMemory,
                ..
            }
    )
}

/// What is written of a run over these events.
fn tell_run(
    alloc: Global,
    setup: &Setup,
    events: &[Event],
    style: Style,
) -> Result<Told, ReplayingError>
    ensures ok { IfOk result (λ told. TellsRun style setup.now events.now told.ended told.world (string_bytes told.text)) }
    ensures bad_setup { result ≡ Err ReplayingError.BadSetup → ¬ IsSetup setup.now }
    ensures memory { result ≡ Err ReplayingError.OutOfMemory → IsSetup setup.now }
    ensures faults { IfErr result (λ e. (e ≡ ReplayingError.OutOfMemory) ⊎ (e ≡ ReplayingError.BadSetup)) }
{
    match run(alloc, setup, events) {
        Ok(world) => Ok(Told {
            ended: Ended::Whole,
            text: tell_world(alloc, setup, events, &world, style, None)?,
            world,
        }),
        Err(error) => tell_refusal(alloc, setup, events, error, style),
    }
}

/// What is written of a world: the trace of what was sent, if it is asked for, and the report, with the event that was refused there.
fn tell_world(
    alloc: Global,
    setup: &Setup,
    events: &[Event],
    world: &World,
    style: Style,
    refusal: Option<Refusal>,
) -> Result<String, AllocError>
    requires { IsSetup setup.now }
    ensures { IfOk result (λ text. TellsWorld style setup.now (events_of events.now) world.now refusal (string_bytes text)) }
{
    let mut text = String::new(alloc);
    if style.trace {
        append_trace_of(alloc, &mut text, setup, events, world.sent())?;
    }
    append_report_in(alloc, &mut text, setup, world, style.report, refusal)?;
    Ok(text)
}

/// What is written of a run that ended early.
fn tell_refusal(
    alloc: Global,
    setup: &Setup,
    events: &[Event],
    error: RunError,
    style: Style,
) -> Result<Told, ReplayingError>
    requires stopped { IsStopped setup.now events.now error }
    requires made { IsOfWorld setup.now error }
    ensures ok { IfOk result (λ told. (told.ended ≡ Ended.Refused)
        × TellsRefusal style setup.now events.now error told.world (string_bytes told.text)) }
    ensures bad_setup { result ≡ Err ReplayingError.BadSetup → error ≡ RunError.Setup SetupError.BadSetup }
    ensures memory { result ≡ Err ReplayingError.OutOfMemory → error ≢ RunError.Setup SetupError.BadSetup }
    ensures faults { IfErr result (λ e. (e ≡ ReplayingError.OutOfMemory) ⊎ (e ≡ ReplayingError.BadSetup)) }
{
    match error {
        RunError::Setup(SetupError::BadSetup) => Err(ReplayingError::BadSetup),
        RunError::Setup(SetupError::OutOfMemory) => Err(ReplayingError::OutOfMemory),
        RunError::Event {
            cause: StepError::OutOfMemory,
            ..
        } => Err(ReplayingError::OutOfMemory),
        RunError::Event { at, world, cause } => {
            let refusal = Some(Refusal { at, cause });
            Ok(Told {
                ended: Ended::Refused,
                text: tell_world(alloc, setup, &events[..at], &world, style, refusal)?,
                world,
            })
        }
    }
}
