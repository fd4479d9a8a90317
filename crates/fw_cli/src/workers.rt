//! What the commands of workers share.

ghost use Rattle.std.specs.Prelude.{◌≡◌, ◌⊎◌, ℕ, IfOk, IfErr, OnOk, string_bytes};
ghost use Rattle.fw_world.specs.Runs.{events_of};
ghost use Rattle.fw_world.specs.Setup.{IsSetup};
ghost use Rattle.fw_faults.specs.Reading.{ReadsUntil};
ghost use Rattle.fw_cli.specs.Private.{fault_of_script_input};
ghost use Rattle.fw_cli.specs.Rehearsing.{ReadsScript, TellsOfWorkers, TracesWorkers};
ghost use Rattle.fw_cli.specs.Replaying.{MayWantFor, ReadsOne};
ghost use Rattle.fw_script.specs.Script.{BeginsScript, IsBadLine, SpellsScript, script_of};

use fw_accounts::{Report, recorded_events};
use fw_faults::{InputError, Reads, read_input};
use fw_report::{append_board, append_report, append_trace_of};
use fw_script::{Script, ScriptError, read_script};
use fw_world::{Event, Setup, World};
use std::alloc::{AllocError, Global};
use std::io::Read;

/// What is written of workers, and the world that they led to.
#[derive(Drop)]
pub(crate) struct Told {
    pub(crate) text: String,
    pub(crate) world: World,
}

/// Why no script is read.
#[derive(Clone, Copy)]
pub(crate) enum ScriptInputError {
    /// The reader failed, or came to no end within 2^32 reads.
    Input,
    /// The reader had more than 64 MiB.
    TooMuchInput,
    /// The line of this number, counted from 1, can't go on with the script that the lines before it begin.
    BadLine(u64),
    /// Memory was refused.
    OutOfMemory,
}

/// The script that all of the reader's input spells.
pub(crate) fn script_from<R: Read>(
    alloc: Global,
    reader: &mut R,
) -> Result<Script, ScriptInputError>
    ensures ok { IfOk result (λ script. ReadsScript (R.remaining reader.old) (R.remaining reader.new) script.setup script.events.items) }
    ensures bad_line { (number : ℕ) → result ≡ Err (ScriptInputError.BadLine number)
        → ReadsOne (R.remaining reader.old) (R.remaining reader.new) (λ input. IsBadLine input number) }
    ensures memory { result ≡ Err ScriptInputError.OutOfMemory → MayWantFor (R.remaining reader.old) (R.remaining reader.new) }
    ensures reading { IfErr result (λ e. ReadsUntil (fault_of_script_input e) (R.remaining reader.old) (R.remaining reader.new)) }
{
    let mut reads = Reads::none();
    let input = match read_input(alloc, reader, &mut reads) {
        Ok(input) => input,
        Err(InputError::Input) => return Err(ScriptInputError::Input),
        Err(InputError::TooMuchInput) => return Err(ScriptInputError::TooMuchInput),
        Err(InputError::OutOfMemory) => return Err(ScriptInputError::OutOfMemory),
    };
    script_of(alloc, &input)
}

/// The script that the input spells.
fn script_of(alloc: Global, input: &[u8]) -> Result<Script, ScriptInputError>
    ensures ok { IfOk result (λ script. SpellsScript input.now (script_of script.setup script.events.items)) }
    ensures bad_line { (number : ℕ) → result ≡ Err (ScriptInputError.BadLine number) → IsBadLine input.now number }
    ensures memory { result ≡ Err ScriptInputError.OutOfMemory → BeginsScript input.now }
    ensures faults { IfErr result (λ e. (e ≡ ScriptInputError.OutOfMemory) ⊎ ((number : ℕ) × (e ≡ ScriptInputError.BadLine number))) }
{
    match read_script(alloc, input) {
        Ok(script) => Ok(script),
        Err(ScriptError::BadLine(number)) => Err(ScriptInputError::BadLine(number)),
        Err(ScriptError::OutOfMemory) => Err(ScriptInputError::OutOfMemory),
    }
}

/// What is written of workers who are accounted for: the trace of their run, if it is asked for, then the report of the world that
/// they led to, and the line of the board.
pub(crate) fn tell_report(
    alloc: Global,
    setup: &Setup,
    given: &[Event],
    report: &Report,
    trace: bool,
) -> Result<String, AllocError>
    requires { IsSetup setup.now }
    ensures { IfOk result (λ text. TellsOfWorkers trace setup.now (events_of given.now) report.now.world report.now.board
        report.now.receipts.items (string_bytes text)) }
{
    let mut text = String::new(alloc);
    if trace {
        append_run(alloc, &mut text, setup, given, report)?;
    }
    append_report(&mut text, setup, &report.world)?;
    append_board(&mut text, report.board)?;
    Ok(text)
}

/// Appends the trace of what was sent in a run of workers.
fn append_run(
    alloc: Global,
    text: &mut String,
    setup: &Setup,
    given: &[Event],
    report: &Report,
) -> Result<(), AllocError>
    requires { IsSetup setup.now }
    ensures { OnOk result (TracesWorkers setup.now (events_of given.now) report.now.world report.now.receipts.items
        (string_bytes text.old) (string_bytes text.new)) }
{
    let events = recorded_events(alloc, given, &report.receipts)?;
    append_trace_of(alloc, text, setup, &events, report.world.sent())
}
