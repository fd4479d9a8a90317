//! The command `head`, and its help.

use super::manual::{CommandOption, Manual, Presence, Takes};
use super::{
    DAEMON_CAPTURE, DAEMON_CAPTURE_STRANGERS, HeadShown, Invocation, KEYS, LONGEST_RESEND,
    MAX_FLIGHT, NEW_COUNTER, STRICT, WrongValue, address, manual, sealing_of, serials,
};
use clap::{ArgMatches, Command};
use fw_blocks::{MAX_WIDTH, Width};
use fw_cli::HeadOptions;
use fw_host::{BookOptions, Opening};
use fw_names::HeadId;
use fw_plan::{Deadline, MaxFailed, SerialRange, Window};
use fw_rollout::{MILLISECOND, Plan, Timing};
use std::alloc::{AllocError, Global};

/// What the long help begins with.
const ABOUT: &str = "\
Runs a head end that leads meters over UDP to the images that they are offered,
until none of its rows is live. It may be ended at any moment, and goes on there
when it is run again.

The meters are in LIST, comma-separated values without a header line: a line has
the number of a meter and its address, as `1,127.0.0.1:4059` or `2,[::1]:4060`,
each number and each address once. A name may stand for an address, as in
`3,meter.example:4061`: it is looked up once, when LIST is read, and its first
address that can be asked is taken. An address can be asked if it is of the
family of --listen, IPv4 or IPv6, is one host's, and its port isn't 0. A
datagram from elsewhere is dropped, and one from an address of the list is taken
for that meter's.

A third field is the meter's wave, 0 to 255, as in `3,127.0.0.1:4061,1`; without
it that is 0. No row of a wave is asked before all rows of the earlier waves
have ended, and --max-failed of these failed at most. Else the head end ends as
TooManyFailed, with the later rows as they were, and goes on there when it is
run again with a larger --max-failed. A meter's row is its live one, or that of
the campaign opened last.

The book of the head end is in FILE of --book, and stays there for the next run.
It is made with --new, and only where no such file is there: as FILE.new, which
is named FILE once it is whole. So is a new FILE of the same book, with which
each later run begins. A file that is named FILE.new is written over if it has
five bytes at most or begins as a book does; any other stays as it is. One
process at a time has a FILE. A head end whose book is lost goes on under
another number, never under the same.

FILE may have whole records that are not in the book, behind a shut gate: of a
commit that was cut, or behind a byte that turned on the disk. They are kept in
FILE.dropped before they are cut off, or in FILE.dropped.2 and so on where a
file has that name, and standard error says so:
`N records behind a shut gate were not taken; they are kept in FILE.dropped`.

With --open the image in the file of --image is offered to the meters of LIST,
in campaigns of 256 meters at most, under the next serial numbers from SERIAL on
that are free. A meter that has a row in a campaign of the book from SERIAL on,
of that release and image, gets no other, however that row ended. So --open may
stay there when LIST changes: new meters are offered the image, and the order of
the lines doesn't matter. With --cancel the live rows of these campaigns are
cancelled first: those of serial numbers, and of ranges those in it that have
live rows, as in `--cancel 7,9-12`.

A live row whose meter isn't in LIST isn't led, and standard error says so:
`campaign HEAD SERIAL: meter N isn't in the list, and isn't led`.

With --keys KEYS all that is sent is sealed, and what is taken was sealed by the
meter that it is taken for, as `meter --help` says it. A line of KEYS is that of
a link with a meter: its number, its system title in 16 hexadecimal digits, and
the encryption key and the authentication key in 32 each, as
`1,4b5a424d00000001,KEY,AUTHENTICATION`. Each meter of LIST has one. The head
end's own system title has its number: 4b5a4248 and 8 digits more, as
4b5a424800000007 of head end 7. KEYS.counter keeps which numbers of what is sent
are used, and --new-counter makes it: for keys that were never used, and not for
each new FILE. One process at a time has it, so no two head ends seal with one
KEYS. With --strict one block goes to a meter at a time, whatever --width is.

A file is made once all is judged: LIST, the image, KEYS, the address,
KEYS.counter, EVENTS, METRICS, and what is cancelled and opened. CAPTURE comes
first then, a new KEYS.counter next, then a new FILE, and EVENTS and METRICS
last. Of a FILE that is there --open is judged once --cancel is done.

A row is asked when nothing of it is outstanding, or after four times its last
round trip, which is --resend at first and at least; a quarter longer after each
time in which nothing at all came from its meter, up to a minute. No more than
--flight datagrams are out at once, or those of one row.

With --activate-from no image is activated before that time: a row whose image
is verified waits for it. With --give-up-after a row is given up once its meter
was silent for so many hours, though it was asked. With each run of the head end
these hours begin anew.

With --capture CAPTURE all that is received and sent is appended to CAPTURE, as
`meter --help` says it. A stranger's datagram is one from an address that is not
in LIST.

Standard output gets these lines, each at once, of which one that can't be
written is lost, except for the first:

  listening ADDR:PORT
      datagrams are received there
  cancelled HEAD SERIAL
      this campaign was cancelled, and the disk has that
  opened HEAD SERIAL RELEASE DIGEST
      this campaign was opened, and the disk has it: its release, and the
      SHA-256 of its image in lower-case hexadecimal
  row HEAD SERIAL METER done
      the meter claimed to run the image, and the disk has that
  row HEAD SERIAL METER failed: PHASE ANSWER
      the row was given up, and the disk has that: the phase that it was in, and
      what its meter answered, as `start code 250 other-reason` or
      `poll status 4 verification-failed`, or `silent`
  over done D failed F
      no row is live; in this run D rows were done, and F failed

Of each campaign that has live rows from an earlier run standard error says at
the start `going on with campaign HEAD SERIAL: L live, D done, F failed`. Then
it shows how far the head end is, as
`12k/51k blocks 24%, 48 live, 2 done, 0 failed, 1240/s, 3% again, ~41s`: how
many blocks the meters of live rows have, from the first one on, of those that
they need, once they told their block size (k: thousands, M: millions); how many
rows of the wave are live, and how many of this run are done and failed; how
many datagrams a second went and came; how often in this run a row was asked
again since no answer came, for a hundred datagrams sent; and about how long the
other blocks take. Then come those that were dropped, if any were: datagrams
from elsewhere (strangers), failures of the socket (faults), and with --keys
datagrams that weren't let through (unopened). A terminal shows it in one line,
anew each second, as far as there is room. Elsewhere it is a line each --every
SECONDS in which a datagram went or came. A row that gets nowhere is told in a
line of its own, as `row 7 1 3 no progress: verify 2, status 1`, and rests, a
minute at most; with --every 0 it rests untold.

With --events EVENTS each of these lines but the first has an event in EVENTS,
an object of JSON on a line, and so have the start, the campaigns that it goes
on with, a row that gets nowhere, how far it is, each minute, and a fault that
ends it while it leads. A row has its reason there. Rows of FILE that ended
without an event get one at the start, so after a kill none is missing, and none
is told twice. EVENTS is made if it isn't there, and goes on behind its last
whole line. An event that can't be written is lost, which standard error says
once; that of a row comes with the next start. No other program may cut EVENTS
or write to it meanwhile. It is put away while no head end runs: the EVENTS that
the next one makes has an event for each row of FILE that ended.
With --metrics METRICS a page in Prometheus' text format is in METRICS, as
node_exporter's textfile collector reads it if its name ends with .prom: rows by
campaign and state, datagrams each way, resends, strangers, and failures of the
socket. It is replaced whole, by way of METRICS.new; if it can't be, standard
error says so once. A file that is neither is left as it is, and is Output.

Example, in two terminals, an image for the meter at port 4059:

  ./dlmsfw meter --listen 127.0.0.1:4059 --store meter.fw

  echo 1,127.0.0.1:4059 > meters.csv
  ./dlmsfw head --head 7 --book head.book --new --meters meters.csv \\
    --listen 127.0.0.1:4058 --open 1 --release 2 --image README.md";

/// What ends the long help.
const ENDINGS: &str = "\
Exit status:
  0  no row is live, and in this run none failed
  1  a fault: standard error has `dlmsfw: NAME`, with one of these names, and a
     second line with the option that it is about. If the cause is known, it
     goes on with `: ` and the cause, and before it the name of the file that is
     meant, if that is the one beside FILE or CAPTURE, or KEYS.counter:
     `--book FILE: FILE.new: it is another program's file`
       ListFault       LIST can't be opened or read: it isn't there, it is a
                       folder, or this user has no right to it. Or it has more
                       than 64 MiB, without a cause
       BadList L       line L of LIST, counted from 1, has no meter's number and
                       address, or a third field that is no wave, or more
                       fields, or a number or an address that an earlier line
                       has, or an address that can't be asked, or a name that
                       has none which can
       ImageFault      the file of --image can't be opened or read, for the same
                       causes
       KeysFault       KEYS can't be opened or read: it isn't there, it is a
                       folder or a link or has a second name, or this user has
                       no right to it
       KeysReadable    others than its owner have a right to KEYS:
                       `chmod 600 KEYS` takes it away
       BadKeys L CAUSE line L of KEYS, counted from 1, is none of it;
                       `meter --help` has the causes
       NoKey N         meter N is in LIST, and has no line in KEYS
       NoCounter       KEYS.counter isn't there, and --new-counter isn't given.
                       Where it is lost, all ends need new keys; where KEYS was
                       renamed, it is renamed too
       CounterExists   KEYS.counter is there, and --new-counter is given: the
                       head end goes on without that option. KEYS.counter isn't
                       removed while its keys are used
       CounterLocked   another process has KEYS.counter: no two seal with one
                       KEYS
       CounterFault    KEYS.counter can't be made, opened or read, as where this
                       user may not write beside KEYS, or holds no numbers: its
                       bytes were changed. Or it can't be written later, without
                       a cause
       CounterSpent    all 4294967295 numbers are used: the head end and its
                       meters need new keys
       BadSetup        the campaigns need serial numbers above 4294967295, or
                       too few are free up to there
       Socket          datagrams can't be received at --listen: it is in use,
                       this machine has no such address, or this user has no
                       right to it. Or the socket failed 1000 times in a row
                       later, or the system told no time, without a cause
       NoBook          FILE isn't there, and --new isn't given
       BookExists      FILE is there, and --new is given
       Locked          another head end has FILE
       BookFault       FILE can't be made, opened, read or written: there is no
                       such folder, FILE is a folder or a link or has a second
                       name, this user may not write it, the disk is full or
                       failed or may only be read, too many files are open,
                       FILE.dropped is needed and can't be made, or FILE.new
                       can't be made, as where another program's file is named
                       so
       BadBook N       the bytes of FILE from offset N on are no book's: they
                       were changed
       BadRecord N     record N of FILE, counted from 0, has no place in a book
       ForeignHead     FILE is the book of another head end than that of --head
       Full            FILE has no room for more
       NoMeters        --open: LIST has no meter
       EmptyImage      --image: the image has no byte
       ImageTooLong    --image: the image has more than 16777216 bytes
       MeterBusy       --open: a meter of LIST is live in another campaign
       NoSuchCampaign  --cancel: the book has no campaign of a serial number
                       that is given
       NotLive         --cancel: none of its rows is live
       CaptureFault    CAPTURE can't be made, opened or written; `meter --help`
                       has the causes
       ForeignCapture  CAPTURE is there, and isn't a capture that a meter or a
                       head end began, or a packet before its end is damaged
       Output          the first line can't be written to standard output, or
                       EVENTS or METRICS can't be made, opened, read or written
       OutOfMemory     the system gives no more memory
     Of a row whose end the disk doesn't have nothing was printed.
  2  a wrong command line: standard error says what is wrong
  4  no row is live, and in this run a row failed, as its line says
  5  some rows are live whose meters aren't in LIST, as standard error said, and
     no other row is
  6  TooManyFailed N, told as a fault is: N rows of the waves before the next
     one failed, more than --max-failed allows. The next rows are live, and
     another start alone changes nothing";

/// The command and its options.
const MANUAL: &Manual = &Manual {
    name: "head",
    about: "Runs a head end that leads meters over UDP to the images that they\nare offered",
    options: &[
        CommandOption {
            name: "head",
            takes: Takes::Within("N", 1, u32::MAX),
            presence: Presence::Required,
            help: "The number of the head end, 1 to 4294967295",
        },
        CommandOption {
            name: "book",
            takes: Takes::Text("FILE"),
            presence: Presence::Required,
            help: "The file that has its book",
        },
        CommandOption {
            name: "new",
            takes: Takes::Nothing,
            presence: Presence::Optional,
            help: "Makes the book, where no file is there",
        },
        CommandOption {
            name: "meters",
            takes: Takes::Text("LIST"),
            presence: Presence::Required,
            help: "The file that has the meters, a line NUMBER,ADDR:PORT or\nNUMBER,ADDR:PORT,WAVE for each",
        },
        CommandOption {
            name: "listen",
            takes: Takes::Text("ADDR:PORT"),
            presence: Presence::Required,
            help: "The address that datagrams are sent from and received at",
        },
        CommandOption {
            name: "width",
            takes: Takes::Within("W", 1, MAX_WIDTH as u32),
            presence: Presence::Default("4"),
            help: "How many blocks are sent to a meter at a time, 1 to 15",
        },
        CommandOption {
            name: "flight",
            takes: Takes::Within("N", 1, MAX_FLIGHT),
            presence: Presence::Default("256"),
            help: "How many datagrams are out at once, 1 to 65536",
        },
        CommandOption {
            name: "resend",
            takes: Takes::Within("MS", 1, LONGEST_RESEND),
            presence: Presence::Default("200"),
            help: "How long the first answer of a meter is waited for, in milliseconds,\n1 to 60000",
        },
        CommandOption {
            name: "stay",
            takes: Takes::Nothing,
            presence: Presence::Optional,
            help: "Goes on where no row is live",
        },
        CommandOption {
            name: "every",
            takes: Takes::Within("SECONDS", 0, 86_400),
            presence: Presence::Default("60"),
            help: "Seconds from one line of progress to the next, 0 to 86400, where\nstandard error is no terminal; 0: none",
        },
        KEYS,
        NEW_COUNTER,
        STRICT,
        DAEMON_CAPTURE,
        DAEMON_CAPTURE_STRANGERS,
        CommandOption {
            name: "events",
            takes: Takes::Text("EVENTS"),
            presence: Presence::Optional,
            help: "The file that what happens is appended to, an object of JSON a line",
        },
        CommandOption {
            name: "metrics",
            takes: Takes::Text("METRICS"),
            presence: Presence::Optional,
            help: "The file that has a page of metrics for Prometheus,\nwritten anew each 15 seconds",
        },
        CommandOption {
            name: "open",
            takes: Takes::Within("SERIAL", 1, u32::MAX),
            presence: Presence::With("image"),
            help: "Opens campaigns for the meters without one, with serial numbers from\nthis one on, 1 to 4294967295",
        },
        CommandOption {
            name: "release",
            takes: Takes::Within("R", 0, u32::MAX),
            presence: Presence::With("open"),
            help: "The release of the image, 0 to 4294967295; 0, which is none,\nwithout this option",
        },
        CommandOption {
            name: "image",
            takes: Takes::Text("FILE"),
            presence: Presence::With("open"),
            help: "The file whose bytes are the image",
        },
        CommandOption {
            name: "max-failed",
            takes: Takes::Text("N|N%"),
            presence: Presence::Default("0"),
            help: "How many rows of the earlier waves may fail, so that the next one\nbegins: 0 to 4294967295, or 0% to 100% of them",
        },
        CommandOption {
            name: "activate-from",
            takes: Takes::Number("TIME"),
            presence: Presence::Optional,
            help: "Activates no image before this time, in seconds since 1970,\nas `date +%s` prints them",
        },
        CommandOption {
            name: "give-up-after",
            takes: Takes::Within("HOURS", 1, 87_600),
            presence: Presence::Optional,
            help: "Gives up the row of a meter that is silent for so many hours though\nit is asked, 1 to 87600; without this option none",
        },
        CommandOption {
            name: "cancel",
            takes: Takes::Text("SERIALS"),
            presence: Presence::Optional,
            help: "Cancels the live rows of these campaigns first, as 7,9-12",
        },
    ],
};

/// The parser of the command.
pub(super) fn command<'a>(alloc: Global) -> Result<Command<'a>, AllocError> {
    manual::command(alloc, MANUAL, ABOUT, ENDINGS)
}

/// The command with the options that were given. The parser lets only those numbers pass that a head end, a campaign or a width can have, and
/// none of the others lack.
pub(super) fn invoked<'a>(
    alloc: Global,
    given: &ArgMatches<'a>,
) -> Result<Option<Invocation<'a>>, WrongValue<'a>> {
    let Some(listen) = given.get_str("listen") else {
        return Ok(None);
    };
    let listen = address("listen", listen)?;
    let (Some(book), Some(meters)) = (given.get_str("book"), given.get_str("meters")) else {
        return Ok(None);
    };
    let (Some(head), Some(width), Some(timing), Some(every)) = (
        head_of(given),
        width_of(given),
        timing_of(given),
        given.get_one("every"),
    ) else {
        return Ok(None);
    };
    let options = HeadOptions {
        head,
        book: BookOptions {
            path: book,
            is_new: given.get_flag("new"),
        },
        meters,
        listen,
        cancel: cancelled(alloc, given)?,
        opening: opening_of(given),
        width,
        timing,
        plan: plan_of(given),
        max_failed: max_failed_of(given)?,
        stays: given.get_flag("stay"),
        capture: given.get_str("capture"),
        captures_strangers: given.get_flag("capture-strangers"),
        sealing: sealing_of(given),
    };
    let shown = HeadShown {
        every,
        cancel: given.get_str("cancel"),
        events: given.get_str("events"),
        metrics: given.get_str("metrics"),
    };
    Ok(Some(Invocation::Head(options, shown)))
}

/// The campaigns that are cancelled first.
fn cancelled<'a>(
    alloc: Global,
    given: &ArgMatches<'a>,
) -> Result<Vec<SerialRange>, WrongValue<'a>> {
    match given.get_str("cancel") {
        Some(text) => serials::campaigns(alloc, "cancel", text),
        None => Ok(Vec::new(alloc)),
    }
}

/// The head end.
fn head_of<'a>(given: &ArgMatches<'a>) -> Option<HeadId> {
    HeadId::new(given.get_one("head")?)
}

/// How many blocks are sent at a time. If none may be overtaken, that is one.
fn width_of<'a>(given: &ArgMatches<'a>) -> Option<Width> {
    if given.get_flag("strict") {
        return Width::new(1);
    }
    Width::new(given.get_one("width")?)
}

/// How answers are waited for.
fn timing_of<'a>(given: &ArgMatches<'a>) -> Option<Timing> {
    let resend: u32 = given.get_one("resend")?;
    let flight: u32 = given.get_one("flight")?;
    Some(Timing {
        resend: u64::from(resend).saturating_mul(MILLISECOND),
        flight: u64::from(flight),
    })
}

/// From when on images are activated, and how long a meter may be silent.
fn plan_of<'a>(given: &ArgMatches<'a>) -> Plan {
    let window = match given.get_one("activate-from") {
        Some(time) => Window::From(time),
        None => Window::Always,
    };
    let deadline = match given.get_one("give-up-after") {
        Some(hours) => Deadline::Hours(hours),
        None => Deadline::Never,
    };
    Plan { window, deadline }
}

/// How many rows of the waves before one may fail.
fn max_failed_of<'a>(given: &ArgMatches<'a>) -> Result<MaxFailed, WrongValue<'a>> {
    let Some(text) = given.get_str("max-failed") else {
        return Ok(MaxFailed::Rows(0));
    };
    match threshold(text) {
        Some(max_failed) => Ok(max_failed),
        None => Err(WrongValue::NoThreshold {
            option: "max-failed",
            text,
        }),
    }
}

/// The threshold that a text is: a number of rows, or of rows in a hundred, as `3` or `5%`.
fn threshold(text: &str) -> Option<MaxFailed> {
    match text.strip_suffix('%') {
        Some(percent) => match percent.parse::<u8>() {
            Ok(percent) if percent <= 100 => Some(MaxFailed::Percent(percent)),
            _ => None,
        },
        None => match text.parse::<u32>() {
            Ok(rows) => Some(MaxFailed::Rows(rows)),
            Err(_) => None,
        },
    }
}

/// What is opened, if anything is.
fn opening_of<'a>(given: &ArgMatches<'a>) -> Option<Opening<'a>> {
    Some(Opening {
        serial: given.get_one("open")?,
        release: given.get_one("release").unwrap_or(0),
        image: given.get_str("image")?,
    })
}
