//! The command line of `dlmsfw`, and its help.

ghost use Rattle.std.specs.Prelude.{◌≡◌};
ghost use Rattle.dlmsfw.specs.declared.options.WrongValue.TheVariants.{OutOfMemory};

mod answer;
mod audit;
mod cancel;
mod give_up;
mod head;
mod keys;
mod live;
mod manual;
mod meter;
mod meters;
mod name;
mod rehearse;
mod replay;
mod serials;
mod status;
mod survey;
mod trace;

use clap::error::ErrorKind;
use clap::{ArgMatches, Command, Error};
use fw_auditor::AuditOptions;
use fw_cli::{
    AnswerOptions, CancelOptions, GiveUpOptions, HeadOptions, KeysOptions, LiveOptions,
    MeterOptions, NameOptions, RehearseOptions, ReplayOptions, StatusOptions, StoredOptions,
    SurveyOptions,
};
use fw_host::SealingOptions;
use fw_rollout::{LONGEST_WAIT, MILLISECOND};
use fw_sealport::Order;
use manual::{CommandOption, Presence, Takes};
use std::alloc::{AllocError, AllocFailed, Global};
use std::net::SocketAddr;
pub(crate) use trace::TraceOptions;

/// A command with its options.
pub(crate) enum Invocation<'a> {
    Answer(AnswerOptions<'a>),
    StoredAnswer(StoredOptions<'a>),
    Name(NameOptions),
    Replay(ReplayOptions<'a>, CaptureOption<'a>),
    Rehearse(RehearseOptions<'a>, CaptureOption<'a>),
    Live(LiveOptions, CaptureOption<'a>),
    Meter(MeterOptions<'a>),
    Head(HeadOptions<'a>, HeadShown<'a>),
    Cancel(CancelOptions<'a>),
    GiveUp(GiveUpOptions<'a>),
    Keys(KeysOptions<'a>),
    Status(StatusOptions<'a>),
    Survey(SurveyOptions<'a>),
    Trace(TraceOptions<'a>),
    Audit(AuditOptions<'a>),
}

/// What is shown of a head end.
#[derive(Clone, Copy)]
pub(crate) struct HeadShown<'a> {
    /// The seconds from one line of progress to the next, if no terminal shows it.
    pub(crate) every: u32,
    /// The campaigns that are cancelled first, as they were given.
    pub(crate) cancel: Option<&'a str>,
    /// The path of the file of events, if they are asked for.
    pub(crate) events: Option<&'a str>,
    /// The path of the file of metrics, if they are asked for.
    pub(crate) metrics: Option<&'a str>,
}

/// Where the capture of a run goes.
#[derive(Clone, Copy)]
pub(crate) struct CaptureOption<'a> {
    /// The path of its file, if one is asked for.
    pub(crate) path: Option<&'a str>,
}

/// Why the values of options that the parser let pass give no command.
#[derive(Drop)]
enum WrongValue<'a> {
    /// The value of this option is no address with a port.
    NoAddress { option: &'static str, text: &'a str },
    /// The value of this option is an address of another family than that of --listen.
    OtherFamily { option: &'static str, text: &'a str },
    /// The value of this option is an address from which no meter gets a datagram.
    NotSeen { option: &'static str, text: &'a str },
    /// The value of this option names no campaigns.
    NoCampaigns { option: &'static str, text: &'a str },
    /// The value of this option is no number of rows, nor one of rows in a hundred.
    NoThreshold { option: &'static str, text: &'a str },
    /// The value of this option is no head end with its files.
    NoHeadLog { option: &'static str, text: &'a str },
    /// The value of this option is no head end with its key file.
    NoKeyFile { option: &'static str, text: &'a str },
    /// The value of this option names no meters.
    NoMeters { option: &'static str, text: &'a str },
    /// Memory was refused.
    OutOfMemory,
}

impl<'a> From<AllocError> for WrongValue<'a> {
    ghost from_gives = { λ _ e. e ≡ OutOfMemory };

    fn from(_error: AllocError) -> WrongValue<'a> {
        WrongValue::OutOfMemory
    }
}

impl<'a, T: Drop> From<AllocFailed<T>> for WrongValue<'a> {
    ghost from_gives = { λ _ e. e ≡ OutOfMemory };

    fn from(_error: AllocFailed<T>) -> WrongValue<'a> {
        WrongValue::OutOfMemory
    }
}

impl WrongValue<'_> {
    /// What the user reads of it.
    fn message(self, alloc: Global) -> Result<String, AllocError> {
        match self {
            WrongValue::NoAddress { option, text } => format!(in alloc;
                "invalid value '{text}' for '--{option} <ADDR:PORT>': it is no address with a port, as 127.0.0.1:4059 or [::1]:4059"
            ),
            WrongValue::OtherFamily { option, text } => format!(in alloc;
                "invalid value '{text}' for '--{option} <ADDR:PORT>': nothing comes from there to the address of '--listen <ADDR:PORT>', which is of the other family, IPv4 or IPv6"
            ),
            WrongValue::NotSeen { option, text } => format!(in alloc;
                "invalid value '{text}' for '--{option} <ADDR:PORT>': no meter sees a datagram come from there; it is to be the address of one host with its port"
            ),
            WrongValue::NoCampaigns { option, text } => format!(in alloc;
                "invalid value '{text}' for '--{option} <SERIALS>': it is no list of serial numbers and ranges of them, as 7,9-12, each a number from 1 to 4294967295"
            ),
            WrongValue::NoThreshold { option, text } => format!(in alloc;
                "invalid value '{text}' for '--{option} <N|N%>': it is neither a number from 0 to 4294967295 nor one from 0 to 100 with a % after it"
            ),
            WrongValue::NoHeadLog { option, text } => format!(in alloc;
                "invalid value '{text}' for '--{option} <ADDR,CAPTURE,BOOK>': it is no address with a port and two paths, with commas between them, as 127.0.0.1:4058,head.pcap,head.book"
            ),
            WrongValue::NoKeyFile { option, text } => format!(in alloc;
                "invalid value '{text}' for '--{option} <ADDR,N,KEYS>': it is no address with a port, number of a head end and path, with commas between them, as 127.0.0.1:4058,7,head.keys"
            ),
            WrongValue::NoMeters { option, text } => format!(in alloc;
                "invalid value '{text}' for '--{option} <METERS>': it is no list of numbers and ranges of them, as 7,9-12, each a number from 0 to 4294967295"
            ),
            WrongValue::OutOfMemory => Err(AllocError),
        }
    }
}

/// What ends a short help.
const STATUSES: &str = "\
Exit status (see more with '--help'):
  0  the command did all its work
  1  a fault: standard error has `dlmsfw: NAME`
  2  a wrong command line: standard error says what is wrong";

/// What ends the program's own help.
const ENDINGS: &str = "\
Limits:
  an image     16777216 bytes (16 MiB), in 16384 blocks of 1 to 1024 bytes
  a campaign   256 meters
  a script     16 head ends and 256 meters
  input        67108864 bytes (64 MiB), but for a capture that is traced, and
               what is audited

Exit status:
  0  the command did all its work
  1  a fault: standard error has `dlmsfw: NAME`
  2  a wrong command line: standard error says what is wrong
  4  `head` alone: no row is live, and a row failed
  5  `head`: some rows aren't in the list, and no other is live; `give-up`: a
     meter had no live row
  6  `head` alone: too many rows failed for the next wave to begin";

/// The command that the words of a command line ask for.
///
/// The parser has found all that a command must have, within its range. Otherwise this would be a wrong command line.
pub(crate) fn parse<'a>(alloc: Global, words: &'a [String]) -> Result<Invocation<'a>, Error> {
    let mut program = dlmsfw(alloc)?;
    let matches = program.try_get_matches_from_mut(words)?;
    match found(alloc, &matches) {
        Ok(Some(invocation)) => Ok(invocation),
        Ok(None) => Err(program.error(ErrorKind::MissingSubcommand, "no command was given")?),
        Err(wrong) => {
            let message = wrong.message(alloc)?;
            Err(program.error(ErrorKind::ValueValidation, &message)?)
        }
    }
}

/// The command that the parser found, with its options.
fn found<'a>(
    alloc: Global,
    matches: &ArgMatches<'a>,
) -> Result<Option<Invocation<'a>>, WrongValue<'a>> {
    match matches.subcommand() {
        Some(("meter", given)) => meter::invoked(alloc, given),
        Some(("head", given)) => head::invoked(alloc, given),
        Some(("cancel", given)) => cancel::invoked(alloc, given),
        Some(("give-up", given)) => give_up::invoked(alloc, given),
        Some(("keys", given)) => keys::invoked(given),
        Some(("survey", given)) => survey::invoked(given),
        Some(("audit", given)) => audit::invoked(alloc, given),
        Some((name, given)) => Ok(invoked(name, given)),
        None => Ok(None),
    }
}

/// The command of this name with its options, which the parser read whole.
fn invoked<'a>(name: &str, given: &ArgMatches<'a>) -> Option<Invocation<'a>> {
    match name {
        "answer" => answer::invoked(given),
        "name" => name::invoked(given),
        "status" => status::invoked(given),
        "trace" => Some(Invocation::Trace(trace::options(given))),
        "replay" => Some(Invocation::Replay(replay::options(given)?, capture_of(given))),
        "rehearse" => Some(Invocation::Rehearse(rehearse::options(given)?, capture_of(given))),
        "live" => Some(Invocation::Live(live::options(given)?, capture_of(given))),
        _ => None,
    }
}

/// The program with its commands.
fn dlmsfw<'a>(alloc: Global) -> Result<Command<'a>, AllocError> {
    let program = Command::new(alloc, "dlmsfw")
        .bin_name("dlmsfw")?
        .version("0.1.0")
        .propagate_version(true)
        .about(
            "COSEM firmware distribution: meters that answer datagrams, head ends, names of\nimages, scripts of campaigns, and captures",
        )
        .after_help(ENDINGS)
        .subcommand_required(true);
    let program = with(program, answer::command(alloc))?;
    let program = with(program, name::command(alloc))?;
    let program = with(program, replay::command(alloc))?;
    let program = with(program, rehearse::command(alloc))?;
    let program = with(program, live::command(alloc))?;
    let program = with(program, meter::command(alloc))?;
    let program = with(program, head::command(alloc))?;
    let program = with(program, cancel::command(alloc))?;
    let program = with(program, give_up::command(alloc))?;
    let program = with(program, keys::command(alloc))?;
    let program = with(program, status::command(alloc))?;
    let program = with(program, survey::command(alloc))?;
    let program = with(program, trace::command(alloc))?;
    with(program, audit::command(alloc))
}

/// The program with one command more, which was made if memory wasn't refused. So this alone lets go of a program without it.
fn with<'a>(
    program: Command<'a>,
    made: Result<Command<'a>, AllocError>,
) -> Result<Command<'a>, AllocError> {
    program.subcommand(made?)
}

/// The most rounds of each link.
const MAX_ROUNDS: u32 = 100_000;

/// The longest wait for a first answer, in milliseconds.
const LONGEST_RESEND: u32 = (LONGEST_WAIT / MILLISECOND) as u32;

/// The most asks that a daemon has out at once.
const MAX_FLIGHT: u32 = 65_536;

/// The option that asks for a trace.
const TRACE: CommandOption = CommandOption {
    name: "trace",
    takes: Takes::Nothing,
    presence: Presence::Optional,
    help: "Tells each datagram that was sent before the report, in a line",
};

/// The option that asks for a capture.
const CAPTURE: CommandOption = CommandOption {
    name: "capture",
    takes: Takes::Text("FILE"),
    presence: Presence::Optional,
    help: "The file that gets the capture of what was sent, made or replaced",
};

/// The option that asks for a capture of a daemon.
const DAEMON_CAPTURE: CommandOption = CommandOption {
    name: "capture",
    takes: Takes::Text("CAPTURE"),
    presence: Presence::Optional,
    help: "The file that what is received and sent is appended to as a capture",
};

/// The option that asks for what strangers send in it too.
const DAEMON_CAPTURE_STRANGERS: CommandOption = CommandOption {
    name: "capture-strangers",
    takes: Takes::Nothing,
    presence: Presence::With("capture"),
    help: "Records the datagrams of strangers too, which are counted without it",
};

/// The option that gives a daemon its keys.
const KEYS: CommandOption = CommandOption {
    name: "keys",
    takes: Takes::Text("KEYS"),
    presence: Presence::Optional,
    help: "The file that has the keys; nothing plain is sent or taken then",
};

/// The option that makes the file of the counters.
const NEW_COUNTER: CommandOption = CommandOption {
    name: "new-counter",
    takes: Takes::Nothing,
    presence: Presence::With("keys"),
    help: "Makes KEYS.counter, where no file is there:\nfor keys that were never used",
};

/// The option that lets no datagram be overtaken.
const STRICT: CommandOption = CommandOption {
    name: "strict",
    takes: Takes::Nothing,
    presence: Presence::With("keys"),
    help: "Takes only what was sealed after all that was taken before",
};

/// What the links of a daemon are sealed with, if keys are given.
fn sealing_of<'a>(given: &ArgMatches<'a>) -> Option<SealingOptions<'a>> {
    Some(SealingOptions {
        keys: given.get_str("keys")?,
        makes_counter: given.get_flag("new-counter"),
        order: order_of(given),
    })
}

/// The order in which the counters of what comes are taken.
fn order_of(given: &ArgMatches<'_>) -> Order {
    if given.get_flag("strict") {
        Order::Strict
    } else {
        Order::Loose
    }
}

/// Where the capture of a run goes.
fn capture_of<'a>(given: &ArgMatches<'a>) -> CaptureOption<'a> {
    CaptureOption {
        path: given.get_str("capture"),
    }
}

/// The address that the value of an option is.
fn address<'a>(option: &'static str, text: &'a str) -> Result<SocketAddr, WrongValue<'a>> {
    match text.parse() {
        Ok(address) => Ok(address),
        Err(_) => Err(WrongValue::NoAddress { option, text }),
    }
}
