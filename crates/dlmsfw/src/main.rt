//! The program `dlmsfw`: its command line, its exit statuses, and the printing of its faults.
#![tactic(auto)]

ghost use Rattle.std.specs.Prelude.{◌≡◌, ℕ, [], IfErr, IfOk, IsErr, IsTrue, None, OnOk, Some, false, is_some};
ghost use Rattle.std.specs.Io.KnownBytes.{Keeps};
ghost use Rattle.std.specs.Option.{option_map};
ghost use Rattle.std.specs.Process.{exit_status};
ghost use Rattle.clap.specs.Values.{kind_of};
ghost use Rattle.fw_auditor.specs.Fitting.{AllFit};
ghost use Rattle.fw_cli.specs.Beginning.{HasLedOut};
ghost use Rattle.fw_cli.specs.Cancelling.{HasCancelled};
ghost use Rattle.fw_cli.specs.GivingUp.{HasGivenUp};
ghost use Rattle.fw_cli.specs.declared.give_up.GaveUp.TheVariants.{Each, NotEach};
ghost use Rattle.fw_cli.specs.declared.head.LedOut.TheVariants.{NoneFailed, SomeFailed, SomeUnlisted};
ghost use Rattle.fw_cli.specs.Tracing.{AreOfFile};
ghost use Rattle.fw_dissect.specs.Streams.{Dissects, TellsFront};
ghost use Rattle.fw_disk.specs.declared.reason.Reason.{Reason};
ghost use Rattle.dlmsfw.specs.Places.{book_status};
ghost use Rattle.dlmsfw.specs.Status.{EndsAs, EndsParse, EndsWith};
ghost use Rattle.dlmsfw.specs.TracePlaces.{ComesAfterKeys, IsOfOutput};
ghost use Rattle.dlmsfw.specs.declared.Ending.{Ending};

mod audit_places;
mod cause;
mod key_places;
mod options;
mod plain_file;
mod refusal;
mod streams;
mod told_files;
mod trace_places;

use cause::{BookPlaces, MeterPlaces, NamedFile, Place};
use clap::error::ErrorKind;
use fw_auditor::{AuditEnd, AuditFault, AuditOptions, run_audit};
use fw_cli::{
    AnswerOptions, CancelOptions, Ended, GaveUp, GiveUpOptions, HeadOptions, InputCause,
    KeysFailure, KeysOptions, LedOut, LiveOptions, MeterFailure, MeterOptions, NameOptions,
    RehearseOptions, ReplayOptions, StatusOptions, StoredOptions, SurveyOptions, ToldFiles,
    TraceError, TraceKeys, Untold, book_cause, head_cause, keys_cause, run_answer,
    run_answer_stored, run_cancel, run_give_up, run_head, run_keys, run_live, run_meter, run_name,
    run_rehearse, run_replay, run_status, run_survey, run_trace, survey_cause, trace_links,
};
use fw_disk::{Because, Cause, Name, Reason};
use fw_faults::Fault;
use fw_host::ProgressOutput;
use fw_key_files::KeyFileError;
use fw_names::HeadId;
use fw_rollout::SECOND;
use fw_seal::Link;
use key_places::KeyPlaces;
use options::{CaptureOption, HeadShown, Invocation, TraceOptions};
use plain_file::PlainFile;
use refusal::Refusal;
use std::alloc::Global;
use std::fmt::Display;
use std::fs::File;
use std::io::{BufReader, IsTerminal, Read, Write};
use std::net::Net;
use std::process::ExitCode;
use std::random::RandomSource;
use std::rt::{Clock, Env, Files};
use std::sync::Wait;
use std::thread::Threads;
use std::{env, io};
use trace_places::{TraceFault, TracePlaces};

/// The status of work that is done.
const GOOD: u8 = 0;

/// The status of a fault.
const FAULT: u8 = 1;

/// The status of a wrong command line.
const WRONG_COMMAND_LINE: u8 = 2;

/// The status of a head end none of whose rows is live, and one of which failed.
const ROWS_FAILED: u8 = 4;

/// The status of a head end of whose rows those alone are live whose meters aren't in its list.
const ROWS_UNLISTED: u8 = 5;

/// The status of a head end that began no wave, since too many rows of the earlier ones failed.
const TOO_MANY_FAILED: u8 = 6;

/// The status where a row was to be given up of a meter that has none.
const ROWS_LACKING: u8 = 5;

/// What ends the program before its work is done.
#[derive(Drop)]
enum Ending<'a> {
    /// A fault of the command.
    Fault(Fault),
    /// A fault of the capture of a run in this file, and why it can't be made, if that is known.
    Capture(&'a str, Option<Cause>),
    /// What ended a trace with these files, and why, if that is known.
    Trace(TraceFault, Option<Reason>, TracePlaces<'a>),
    /// A fault of an answer over the store in this file.
    Answer(Because<Fault>, &'a str),
    /// A fault of a meter with this address, these files and this capacity, or of one of several.
    Meter(MeterFailure, MeterPlaces<'a>),
    /// A fault of a head end with this address and these files, or of the book that is read, and its cause, if the list or the book shows it.
    Book(Because<Fault>, BookPlaces<'a>, Option<InputCause>),
    /// The file of events or of metrics of a head end can't be made, opened, read or written. What is shown of it has their paths.
    Told(Untold, HeadShown<'a>),
    /// A fault of the making of keys from this list into this folder, and its cause, if the list shows it.
    Keys(KeysFailure, KeyPlaces<'a>, Option<InputCause>),
    /// A fault of the audit of what this list has.
    Audit(AuditFault, &'a str),
    /// An event of a script was refused, and the command has reported it.
    Refused,
    /// What is audited doesn't fit, and the command has reported it.
    Departs,
    /// A row that a head end led failed, and the command has reported it.
    RowsFailed,
    /// Rows are live whose meters aren't in the list of a head end, and the command has told them.
    RowsUnlisted,
    /// A meter whose row was to be given up has none, and the command has reported it.
    RowsLacking,
    /// A wrong command line, or one that asks for help or the version.
    CommandLine(clap::Error),
    /// A command line that isn't UTF-8 text.
    NoText,
}

fn main(rt: HostRuntime) -> ExitCode {
    let _closed = streams::stand_ins(&rt);
    let words = match words(&rt) {
        Ok(words) => words,
        Err(ending) => return status_of(&rt, Err(ending)),
    };
    let stderr = rt.stderr();
    let terminal = if stderr.is_terminal() {
        Some(&stderr)
    } else {
        None
    };
    status_of(&rt, run(&rt, terminal, &words))
}

/// The exit status of what was done. Why the program ends before its work is done is printed.
fn status_of(rt: &(impl Print + Eprint + Net + Files), done: Result<(), Ending<'_>>) -> ExitCode
    ensures { EndsAs done.entry (exit_status result) }
{
    match done {
        Ok(()) => ExitCode::from(GOOD),
        Err(ending) => report(rt, ending),
    }
}

/// Runs the command that the words of the command line ask for. Its progress is shown on the terminal, if there is one.
fn run<
    'a,
    R: AllocGlobal
        + Files<File = File>
        + Clock
        + Input
        + Print
        + Eprint
        + Threads
        + Wait
        + Net
        + RandomSource
        + Sync,
    E: Eprint + Sync,
>(rt: &'a R, terminal: Option<&E>, words: &'a [String]) -> Result<(), Ending<'a>> {
    match options::parse(rt.alloc(), words) {
        Ok(invocation) => run_command(rt, terminal, invocation),
        Err(error) => Err(Ending::CommandLine(error)),
    }
}

/// Runs a command with its options.
fn run_command<
    'a,
    R: AllocGlobal
        + Files<File = File>
        + Clock
        + Input
        + Print
        + Eprint
        + Threads
        + Wait
        + Net
        + RandomSource
        + Sync,
    E: Eprint + Sync,
>(rt: &'a R, terminal: Option<&E>, invocation: Invocation<'a>) -> Result<(), Ending<'a>> {
    match invocation {
        Invocation::Answer(options) => answer(rt, options),
        Invocation::StoredAnswer(options) => answer_stored(rt, options),
        Invocation::Name(options) => name(rt, options),
        Invocation::Replay(options, to) => replay(rt, terminal, options, to),
        Invocation::Rehearse(options, to) => rehearse(rt, terminal, options, to),
        Invocation::Live(options, to) => live(rt, terminal, options, to),
        Invocation::Trace(options) => trace_to_output(rt, &options),
        Invocation::Meter(options) => meter(rt, options),
        Invocation::Head(options, shown) => {
            let progress = progress_on(terminal.is_some(), shown.every);
            head(rt, progress, &options, shown)
        }
        Invocation::Cancel(options) => cancel(rt, &options),
        Invocation::GiveUp(options) => give_up(rt, &options),
        Invocation::Keys(options) => keys(rt, &options),
        Invocation::Status(options) => status(rt, options),
        Invocation::Survey(options) => survey(rt, &options),
        Invocation::Audit(options) => audit(rt, &options),
    }
}

/// `answer` without a store.
fn answer<'a, R: AllocGlobal + Input + Print>(
    rt: &R,
    options: AnswerOptions<'a>,
) -> Result<(), Ending<'a>> {
    let reader = &mut rt.reader();
    let writer = &mut io::writer(rt);
    match run_answer(rt.alloc(), reader, writer, &options) {
        Ok(()) => Ok(()),
        Err(error) => Err(Ending::Fault(Fault::from(error))),
    }
}

/// `answer` over the store in a file.
fn answer_stored<'a, R: AllocGlobal + Files<File = File> + Input + Print>(
    rt: &R,
    options: StoredOptions<'a>,
) -> Result<(), Ending<'a>> {
    let reader = &mut rt.reader();
    let writer = &mut io::writer(rt);
    match run_answer_stored(rt, rt.alloc(), reader, writer, &options) {
        Ok(()) => Ok(()),
        Err(because) => {
            let because = Because {
                error: Fault::from(because.error),
                reason: because.reason,
            };
            Err(Ending::Answer(because, options.file))
        }
    }
}

/// `name`.
fn name<'a, R: AllocGlobal + Input + Print>(
    rt: &R,
    options: NameOptions,
) -> Result<(), Ending<'a>> {
    let reader = &mut rt.reader();
    let writer = &mut io::writer(rt);
    match run_name(rt.alloc(), reader, writer, &options) {
        Ok(()) => Ok(()),
        Err(error) => Err(Ending::Fault(Fault::from(error))),
    }
}

/// `replay`, whose run may have a capture.
fn replay<'a, R: AllocGlobal + Files<File = File> + Input + Print, E: Eprint>(
    rt: &R,
    terminal: Option<&E>,
    options: ReplayOptions<'a>,
    to: CaptureOption<'a>,
) -> Result<(), Ending<'a>> {
    let mut capture = created(rt, to)?;
    let reader = &mut rt.reader();
    let writer = &mut io::writer(rt);
    match run_replay(rt.alloc(), reader, writer, &mut capture, terminal, &options) {
        Ok(Ended::Refused) => Err(Ending::Refused),
        Ok(Ended::Whole) => Ok(()),
        Err(error) => Err(ending_of(Fault::from(error), to)),
    }
}

/// `rehearse`, whose run may have a capture.
fn rehearse<
    'a,
    R: AllocGlobal + Files<File = File> + Input + Print + Threads + Wait + Sync,
    E: Eprint + Sync,
>(
    rt: &R,
    terminal: Option<&E>,
    options: RehearseOptions<'a>,
    to: CaptureOption<'a>,
) -> Result<(), Ending<'a>> {
    let mut capture = created(rt, to)?;
    let reader = &mut rt.reader();
    let writer = &mut io::writer(rt);
    match run_rehearse(
        rt,
        rt.alloc(),
        reader,
        writer,
        &mut capture,
        terminal,
        &options,
    ) {
        Ok(()) => Ok(()),
        Err(error) => Err(ending_of(Fault::from(error), to)),
    }
}

/// `live`, whose run may have a capture.
fn live<
    'a,
    R: AllocGlobal + Files<File = File> + Input + Print + Threads + Wait + Net + Sync,
    E: Eprint + Sync,
>(
    rt: &R,
    terminal: Option<&E>,
    options: LiveOptions,
    to: CaptureOption<'a>,
) -> Result<(), Ending<'a>> {
    let mut capture = created(rt, to)?;
    let reader = &mut rt.reader();
    let writer = &mut io::writer(rt);
    match run_live(
        rt,
        rt.alloc(),
        reader,
        writer,
        &mut capture,
        terminal,
        &options,
    ) {
        Ok(()) => Ok(()),
        Err(error) => Err(ending_of(Fault::from(error), to)),
    }
}

/// `trace`.
fn trace_to_output<'a, R: AllocGlobal + Files<File = File> + Input + Print>(
    rt: &R,
    options: &TraceOptions<'a>,
) -> Result<(), Ending<'a>> {
    match links_of(rt, rt.alloc(), options.keys, options.head) {
        Ok(links) => trace_with(rt, &links, options),
        Err(because) => {
            let ended = TraceFault::Keys(because.error);
            Err(Ending::Trace(ended, because.reason, TracePlaces::of(options)))
        }
    }
}

/// The links of the key file of this head end. There is none if no file is given.
fn links_of<F: Files<File = File>>(
    rt: &F,
    alloc: Global,
    keys: Option<&str>,
    head: Option<HeadId>,
) -> Result<Vec<Link>, Because<KeyFileError>>
    ensures none { keys.entry ≡ None → IfOk result (λ links. links.items ≡ []) }
    ensures file { (number : ℕ) → IsTrue (is_some keys.entry) → head ≡ Some number → IfOk result (λ links. AreOfFile number links.items) }
{
    let (Some(path), Some(head)) = (keys, head) else {
        return Ok(Vec::new(alloc));
    };
    trace_links(rt, alloc, &TraceKeys { path, head })
}

/// `trace` for who has these links.
fn trace_with<'a, R: AllocGlobal + Files<File = File> + Input + Print>(
    rt: &R,
    links: &[Link],
    options: &TraceOptions<'a>,
) -> Result<(), Ending<'a>> {
    let Ok(mut reader) = BufReader::new(rt.alloc(), rt.reader()) else {
        return Err(Ending::Fault(Fault::OutOfMemory));
    };
    let mut plain = match options.plain {
        Some(path) => Some(PlainFile::at(rt, path)),
        None => None,
    };
    let writer = &mut io::writer(rt);
    match trace(
        rt,
        rt.alloc(),
        links,
        options.times,
        &mut reader,
        writer,
        &mut plain,
        options.capture,
    ) {
        Ok(()) => Ok(()),
        Err(ended) => {
            let reason = match (ended, &plain) {
                (TraceFault::Unopened(reason), _) => Some(reason),
                (TraceFault::Ended(TraceError::CaptureFault), Some(plain)) => plain.reason(),
                (TraceFault::Keys(_) | TraceFault::Ended(_), _) => None,
            };
            Err(Ending::Trace(ended, reason, TracePlaces::of(options)))
        }
    }
}

/// `meter`, until it is ended.
fn meter<'a, R: AllocGlobal + Files<File = File> + Clock + Print + Eprint + Net + Wait>(
    rt: &R,
    options: MeterOptions<'a>,
) -> Result<(), Ending<'a>>
    ensures ends { IsErr result }
{
    let places = MeterPlaces::of(&options);
    let writer = &mut io::writer(rt);
    match run_meter(rt, rt.alloc(), writer, options) {
        Ok(()) => Ok(()),
        Err(ended) => Err(Ending::Meter(ended, places)),
    }
}

/// Where a head end shows its progress: on the terminal, if standard error is one. Otherwise in a line each time that so many seconds
/// went by, or nowhere if that is 0.
fn progress_on(is_terminal: bool, every: u32) -> ProgressOutput {
    match (is_terminal, every) {
        (true, _) => ProgressOutput::Terminal,
        (false, 0) => ProgressOutput::Hidden,
        (false, _) => ProgressOutput::Log {
            every: u64::from(every).saturating_mul(SECOND),
        },
    }
}

/// `head`, until no row is live that it leads. The campaigns that it cancels first were given so.
fn head<'a, R: AllocGlobal + Files<File = File> + Clock + Print + Eprint + Net + Wait>(
    rt: &'a R,
    progress: ProgressOutput,
    options: &HeadOptions<'a>,
    shown: HeadShown<'a>,
) -> Result<(), Ending<'a>>
    ensures led { OnOk result (HasLedOut options.now NoneFailed) }
    ensures failed { IfErr result (λ e. e ≡ Ending.RowsFailed → HasLedOut options.now SomeFailed) }
    ensures unlisted { IfErr result (λ e. e ≡ Ending.RowsUnlisted → HasLedOut options.now SomeUnlisted) }
    ensures stays { OnOk result (options.now.stays ≡ false) }
{
    let alloc = rt.alloc();
    let book = options.book.path;
    let judged = ToldFiles::new(rt, alloc, options.head, book, shown.events, shown.metrics);
    let mut files = match judged {
        Ok(files) => files,
        Err(untold) => return Err(Ending::Told(untold, shown)),
    };
    let writer = &mut io::writer(rt);
    match run_head(rt, alloc, writer, progress, &mut files, options) {
        Ok(LedOut::NoneFailed) => Ok(()),
        Ok(LedOut::SomeFailed) => Err(Ending::RowsFailed),
        Ok(LedOut::SomeUnlisted) => Err(Ending::RowsUnlisted),
        Err(failure) => {
            if let Some(untold) = &files.untold {
                return Err(Ending::Told(*untold, shown));
            }
            let input = head_cause(rt, alloc, options, failure.error);
            let places = BookPlaces::of_head(options, shown.cancel);
            let because = Because {
                error: Fault::from(failure.error),
                reason: failure.reason,
            };
            Err(Ending::Book(because, places, input))
        }
    }
}

/// `cancel`.
fn cancel<'a, R: AllocGlobal + Files<File = File> + Print + Eprint>(
    rt: &R,
    options: &CancelOptions<'a>,
) -> Result<(), Ending<'a>>
    ensures cancelled { OnOk result (HasCancelled options.now) }
{
    let writer = &mut io::writer(rt);
    match run_cancel(rt, rt.alloc(), writer, options) {
        Ok(()) => Ok(()),
        Err(failure) => {
            let because = Because {
                error: Fault::from(failure.error),
                reason: failure.reason,
            };
            let input = book_cause(rt, rt.alloc(), options.book, options.head, because.error);
            Err(Ending::Book(
                because,
                BookPlaces::of_cancel(options, failure.serial),
                input,
            ))
        }
    }
}

/// `give-up`.
fn give_up<'a, R: AllocGlobal + Files<File = File> + Clock + Print + Eprint>(
    rt: &R,
    options: &GiveUpOptions<'a>,
) -> Result<(), Ending<'a>>
    ensures each { OnOk result (HasGivenUp options.now Each) }
    ensures lacking { IfErr result (λ e. e ≡ Ending.RowsLacking → HasGivenUp options.now NotEach) }
{
    let writer = &mut io::writer(rt);
    match run_give_up(rt, rt.alloc(), writer, options) {
        Ok(GaveUp::Each) => Ok(()),
        Ok(GaveUp::NotEach) => Err(Ending::RowsLacking),
        Err(because) => {
            let because = Because {
                error: Fault::from(because.error),
                reason: because.reason,
            };
            let input = book_cause(rt, rt.alloc(), options.book, options.head, because.error);
            Err(Ending::Book(because, BookPlaces::of_give_up(options), input))
        }
    }
}

/// `keys`.
fn keys<'a, R: AllocGlobal + Files<File = File> + Print + Net + RandomSource>(
    rt: &R,
    options: &KeysOptions<'a>,
) -> Result<(), Ending<'a>> {
    let writer = &mut io::writer(rt);
    match run_keys(rt, rt.alloc(), writer, options) {
        Ok(()) => Ok(()),
        Err(failure) => {
            let input = keys_cause(rt, rt.alloc(), options, failure.error);
            Err(Ending::Keys(failure, KeyPlaces::of(options), input))
        }
    }
}

/// `status`.
fn status<'a, R: AllocGlobal + Files<File = File> + Print + Eprint>(
    rt: &R,
    options: StatusOptions<'a>,
) -> Result<(), Ending<'a>> {
    let writer = &mut io::writer(rt);
    match run_status(rt, rt.alloc(), writer, &options) {
        Ok(()) => Ok(()),
        Err(because) => {
            let because = Because {
                error: Fault::from(because.error),
                reason: because.reason,
            };
            Err(Ending::Book(because, BookPlaces::of_status(&options), None))
        }
    }
}

/// `survey`.
fn survey<'a, R: AllocGlobal + Files<File = File> + Clock + Print + Net + Wait>(
    rt: &R,
    options: &SurveyOptions<'a>,
) -> Result<(), Ending<'a>> {
    let writer = &mut io::writer(rt);
    match run_survey(rt, rt.alloc(), writer, options) {
        Ok(()) => Ok(()),
        Err(error) => {
            let input = survey_cause(rt, rt.alloc(), options, error);
            let places = BookPlaces::of_survey(options);
            let fault = Fault::from(error);
            Err(Ending::Book(Because::from(fault), places, input))
        }
    }
}

/// `audit`.
fn audit<'a, R: AllocGlobal + Files<File = File> + Print>(
    rt: &R,
    options: &AuditOptions<'a>,
) -> Result<(), Ending<'a>>
    ensures fit { OnOk result (AllFit options.now) }
{
    let writer = &mut io::writer(rt);
    match run_audit(rt, rt.alloc(), writer, options) {
        Ok(AuditEnd::Fits) => Ok(()),
        Ok(AuditEnd::Departs) => Err(Ending::Departs),
        Err(ended) => Err(Ending::Audit(ended, options.audited)),
    }
}

/// The file of the capture of a run, if one is asked for. It is made, or emptied.
fn created<'a, F: Files<File = File>>(
    rt: &F,
    to: CaptureOption<'a>,
) -> Result<Option<File>, Ending<'a>> {
    let Some(path) = to.path else {
        return Ok(None);
    };
    match File::create(rt, path) {
        Ok(file) => Ok(Some(file)),
        Err(error) => Err(Ending::Capture(path, Some(Cause::from(error)))),
    }
}

/// What a run with such a capture ends with.
fn ending_of<'a>(fault: Fault, to: CaptureOption<'a>) -> Ending<'a> {
    match to.path {
        Some(path) if fault == Fault::CaptureFault => Ending::Capture(path, None),
        _ => Ending::Fault(fault),
    }
}

/// Tells the capture in the file that is named, or that of standard input, to who has these links, and writes it in plain words where it is
/// asked for.
fn trace<F: Files<File = File>, R: Read, W: Write, C: Write>(
    rt: &F,
    alloc: Global,
    links: &[Link],
    times: bool,
    reader: &mut R,
    writer: &mut W,
    plain: &mut Option<C>,
    capture: Option<&str>,
) -> Result<(), TraceFault>
    ensures input { capture.entry ≡ None → OnOk result (Dissects times links.now None (R.remaining reader.old) (R.remaining reader.new)
        (W.contents writer.old) (W.contents writer.new) (option_map C.contents plain.old) (option_map C.contents plain.new)) }

    // Whatever ends it, what was told are the first records of standard input. Of a file nothing is known here.
    ensures front { capture.entry ≡ None → IfErr result (λ e. ¬ IsOfOutput e
        → TellsFront times links.now (R.remaining reader.old) (W.contents writer.old) (W.contents writer.new)) }

    // If a file is named, standard input isn't read.
    ensures file { IsTrue (is_some capture.entry) → R.remaining reader.new ≡ R.remaining reader.old }
    ensures unopened { (reason : Reason) → result ≡ Err (TraceFault.Unopened reason) → IsTrue (is_some capture.entry) }
    ensures silent { (reason : Reason) → result ≡ Err (TraceFault.Unopened reason) → Keeps (W.contents writer.old) (W.contents writer.new) }
    ensures asked { result ≡ Err (TraceFault.Ended TraceError.CaptureFault) → IsTrue (is_some plain.old) }
    ensures keyed { IfErr result ComesAfterKeys }
{
    let Some(path) = capture else {
        return Ok(run_trace(alloc, links, times, reader, writer, plain)?);
    };
    match File::open(rt, path) {
        Ok(file) => Ok(trace_file(alloc, links, times, file, writer, plain)?),
        Err(error) => {
            let reason = Cause::from(error).at(Name::Main);
            Err(TraceFault::Unopened(reason))
        }
    }
}

/// Tells the capture in a file.
fn trace_file<W: Write, C: Write>(
    alloc: Global,
    links: &[Link],
    times: bool,
    file: File,
    writer: &mut W,
    plain: &mut Option<C>,
) -> Result<(), TraceError>
    ensures { result ≡ Err TraceError.CaptureFault → IsTrue (is_some plain.old) }
{
    match BufReader::new(alloc, file) {
        Ok(mut reader) => run_trace(alloc, links, times, &mut reader, writer, plain),
        Err(_) => Err(TraceError::OutOfMemory),
    }
}

/// The words of the command line, the first of which is the program's name.
fn words<R: AllocGlobal + Env>(rt: &R) -> Result<Vec<String>, Ending<'static>> {
    let words = env::args(rt).map_err(|error| match error.kind() {
        io::ErrorKind::OutOfMemory => Ending::Fault(Fault::OutOfMemory),
        _ => Ending::NoText,
    })?;
    words
        .collect(rt.alloc())
        .map_err(|_| Ending::Fault(Fault::OutOfMemory))
}

/// Prints why the program ends, and returns its exit status. If standard error can't be written, the status alone says why.
fn report(rt: &(impl Print + Eprint + Net + Files), ending: Ending<'_>) -> ExitCode
    ensures { EndsWith ending.entry (exit_status result) }
{
    match ending {
        Ending::Fault(fault) => fail(rt, fault),
        Ending::Capture(path, cause) => {
            let place = Some(Place::Capture(NamedFile::of(path)));
            fail_at(rt, Fault::CaptureFault, place, cause.map(Refusal::File))
        }
        Ending::Trace(ended, reason, places) => {
            let place = trace_places::place_of(ended, places);
            let refusal = trace_places::refusal_of(rt, reason, place);
            fail_at(rt, ended.fault(), place, refusal)
        }
        Ending::Answer(because, store) => {
            let place = cause::answer_place_of(&because, NamedFile::of(store));
            fail_at(rt, because.error, place, refusal::of_reason(because.reason))
        }
        Ending::Meter(ended, places) => {
            let place = cause::place_of(ended, places);
            let refusal = cause::refusal_of(rt, ended, place);
            fail_at(rt, Fault::from(ended.error), place, refusal)
        }
        Ending::Book(because, places, input) => fail_book(rt, &because, places, input),
        Ending::Told(untold, shown) => {
            let place = told_files::place_of(untold, shown);
            fail_at(
                rt,
                Fault::Output,
                place,
                Some(Refusal::File(untold.reason.cause)),
            )
        }
        Ending::Keys(failure, places, input) => fail_keys(rt, &failure, &places, input),
        Ending::Audit(ended, list) => fail_audit(rt, &ended, list),
        Ending::Refused | Ending::Departs => ExitCode::from(FAULT),
        Ending::RowsFailed => ExitCode::from(ROWS_FAILED),
        Ending::RowsUnlisted => ExitCode::from(ROWS_UNLISTED),
        Ending::RowsLacking => ExitCode::from(ROWS_LACKING),
        Ending::CommandLine(error) => report_parse(rt, error),
        Ending::NoText => {
            let _ = eprintln!(rt; "error: invalid UTF-8 was detected in one or more arguments");
            ExitCode::from(WRONG_COMMAND_LINE)
        }
    }
}

/// Prints why a head end ended, or another command over a book, as `fail_at` does.
fn fail_book(
    rt: &(impl Eprint + Net + Files),
    because: &Because<Fault>,
    places: BookPlaces<'_>,
    input: Option<InputCause>,
) -> ExitCode
    ensures { exit_status result ≡ book_status because.now.error }
{
    let place = cause::book_place_of(because, places);
    let refusal = cause::book_refusal_of(rt, because, place, input);
    tell_at(rt, because.error, place, refusal);
    ExitCode::from(cause::book_status(because.error))
}

/// Prints why the making of keys ended, as `fail_at` does.
fn fail_keys(
    rt: &(impl Eprint + Files),
    failure: &KeysFailure,
    places: &KeyPlaces<'_>,
    input: Option<InputCause>,
) -> ExitCode
    ensures { exit_status result ≡ 1 }
{
    let fault = Fault::from(failure.error);
    let _ = eprintln!(rt; "dlmsfw: {fault}");
    let refusal = key_places::refusal_of(rt, failure, places, input);
    match key_places::place_of(failure, places) {
        Some(place) => match refusal {
            Some(refusal) => {
                let _ = eprintln!(rt; "{place}: {refusal}");
            }
            None => {
                let _ = eprintln!(rt; "{place}");
            }
        },
        None => {}
    }
    ExitCode::from(FAULT)
}

/// Prints why the audit of what this list has ended, as `fail_at` does.
fn fail_audit(rt: &impl Eprint, ended: &AuditFault, list: &str) -> ExitCode
    ensures { exit_status result ≡ 1 }
{
    let place = audit_places::place_of(ended, list);
    fail_at(rt, ended.fault, place, audit_places::refusal_of(ended))
}

/// Prints what the parser of the command line ended with: the help, the version or what is wrong.
fn report_parse(rt: &(impl Print + Eprint + Net), error: clap::Error) -> ExitCode
    ensures { EndsParse (kind_of error) (exit_status result) }
{
    match error.kind() {
        ErrorKind::OutOfMemory => fail(rt, Fault::OutOfMemory),
        ErrorKind::DisplayHelp | ErrorKind::DisplayVersion => match error.print(rt) {
            Ok(()) => ExitCode::from(GOOD),
            Err(_) => fail(rt, Fault::Output),
        },
        _ => {
            let _ = error.print(rt);
            ExitCode::from(WRONG_COMMAND_LINE)
        }
    }
}

/// Prints the name of a fault, and on a second line the option that it is about, with why that is refused, if it is known. Returns its exit
/// status.
fn fail_at<F: Display + Drop, P: Display + Drop>(
    rt: &impl Eprint,
    fault: F,
    place: Option<P>,
    refusal: Option<Refusal>,
) -> ExitCode
    ensures { exit_status result ≡ 1 }
{
    tell_at(rt, fault, place, refusal);
    ExitCode::from(FAULT)
}

/// Prints the same lines.
fn tell_at<F: Display + Drop, P: Display + Drop>(
    rt: &impl Eprint,
    fault: F,
    place: Option<P>,
    refusal: Option<Refusal>,
) {
    let _ = eprintln!(rt; "dlmsfw: {fault}");
    match (place, refusal) {
        (Some(place), Some(refusal)) => {
            let _ = eprintln!(rt; "{place}: {refusal}");
        }
        (Some(place), None) => {
            let _ = eprintln!(rt; "{place}");
        }
        (None, _) => {}
    }
}

/// Prints the fault's name, and its cause on a second line if there is more to say. Returns its exit status.
fn fail(rt: &(impl Eprint + Net), fault: Fault) -> ExitCode
    ensures { exit_status result ≡ 1 }
{
    let _ = eprintln!(rt; "dlmsfw: {fault}");
    if let Some(cause) = cause::of(rt, fault) {
        let _ = eprintln!(rt; "{cause}");
    }
    ExitCode::from(FAULT)
}
