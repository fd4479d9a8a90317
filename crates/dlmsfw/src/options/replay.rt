//! The command `replay`, and its help.

use super::manual::{CommandOption, Manual, Presence, Takes};
use super::{CAPTURE, MAX_ROUNDS, TRACE, manual};
use clap::{ArgMatches, Command};
use fw_cli::{ReplayOptions, Rounds};
use fw_report::{ReportForm, Style};
use std::alloc::{AllocError, Global};

/// The names of the forms.
const LINES: &str = "lines";

const TABLE: &str = "table";

const JSON: &str = "json";

/// The forms of a report.
const FORMS: &[&str] = &[LINES, TABLE, JSON];

/// What the long help begins with.
const ABOUT: &str = "\
Replays a script of head ends and meters, and tells how each campaign ended.

Standard input has the script, one line after another. Lines that say what there
is stand before all others:

  head H width W
      head end H, from 1 on, sends W blocks at a time, 1 to 15
  meter M block B capacity C factory HEX
      meter M takes blocks of B bytes, 1 to 1024, and images of up to C bytes, 1
      to 16777216, in at most 16384 blocks, and runs the image HEX
  meter M .. factory HEX old
      an old meter: C is 1 to 4194304, and it takes at most 4096 blocks before
      it starts again
  open H S HEX M M ..
      head end H opens campaign S, from 1 on: the image HEX for these meters
  open-release H S R HEX M M ..
      the same, with R as the release of the image, which is 0 with `open`; a
      meter takes no lower one than it runs
  cancel H S
      it cancels that campaign
  tick H M
      it sends what it has for meter M now
  deliver K K ..
      these datagrams come, one after another
  stop K CALLS TORN
      datagram K comes to its meter, which stops after CALLS calls of its store
      and starts again; a block that it writes then ends with bytes TORN, 0 to
      255
  restart-meter M, restart-head H
      it starts again
  stop-restart M CALLS TORN
      meter M starts again, and stops in it after CALLS calls of its store; then
      it goes on with the header that is there
  turn M
      meter M digests 4096 bytes more of what it verifies

Datagrams are numbered from 0 in the order in which they are sent. Numbers are
decimal, HEX is hexadecimal or `-` for no bytes, and one space parts two words.
Empty lines and lines that begin with `#` are skipped.

With --rounds and --fates R rounds follow on each link of a head end and a
meter. In a round what is late comes, the head end sends, and each datagram has
its fate, by its number on the link: the letters of --fates, again and again. At
its end a meter that verifies takes a turn.

Standard output gets the report: `row H S M STATE` for each meter of each
campaign, where STATE is live, done, failed or cancelled;
`meter M status X active H S size N` with the image_transfer_status and the
image that the meter runs, 0 0 for the one that it was made with;
`activations N`, how often a meter switched to an image. Where an event is
refused, the report of the world there and `refused AT NAME`, where AT is the
number of the event, from 0 on. All input is read before anything is written.
NAME is

  NoSuchDatagram  a `deliver` or `stop` names a datagram that wasn't sent
  NoSuchActor     an event names a head end or a meter that the setup hasn't, or
                  a `stop` names a datagram that goes to no meter
  SerialUsed      an `open` names a campaign that this head end opened before
  EmptyImage      its image has no byte
  ImageTooLong    its image has more than 16777216 bytes
  NoMeters        it names no meter
  TooManyMeters   it names more than 256 meters
  MeterTwice      it names a meter twice
  MeterBusy       a meter that it names is live in another campaign of this head
                  end
  NoSuchCampaign  a `cancel` names a campaign that wasn't opened
  NotLive         it names a campaign of which no row is live

Where standard error is a terminal, it shows which round was made and how many
rows are done, as `round 3 of 40, 12 of 256 rows done`, until the report is
written.

With --report table the same stands in two tables with headings, for people,
which have the release of the image that a meter runs besides. With --report
json it is one object on one line:

  {\"activations\":N,\"meters\":[..],\"refused\":null,\"rows\":[..]}

Of `rows` each is as the first of these, of `meters` each as the second, and
where an event is refused, `refused` is as the third:

  {\"campaign\":S,\"head\":H,\"meter\":M,\"state\":\"done\"}
  {\"active\":{\"campaign\":S,\"head\":H,\"release\":R,\"size\":N},\"meter\":M,\"status\":X}
  {\"cause\":\"NAME\",\"event\":AT}

With --trace a line for each datagram that was sent stands before the report:
its number, who sent it to whom, and what it says. A head end says
`get ATTRIBUTE`, `enable`, `initiate campaign H S (N bytes)`,
`block K (N bytes)`, `verify` or `activate`. A meter says `get VALUE`, in short,
or `get code C`, `set C` or `action C`. `? (N bytes), FAULT` is what can't be
read. Where a name has a release, ` release R` stands after `campaign H S`.
Where a meter refuses an initiate, the code is followed by the reason, and at
the end of a line stands what the network did, unless the datagram came once and
in order: `lost`, `twice` or `N times`, `late` where one that was sent after it
came before it, and `stopped` where the meter stopped in it.

  0 head 7 -> meter 1  get block size  twice
  1 meter 1 -> head 7  get 2
  2 meter 1 -> head 7  get 2  lost
  25 meter 1 -> head 7  action 250: release 5 is below the running 6

With --capture FILE the capture of all datagrams that were sent is in FILE at
the end, as pcap: the form that Wireshark and `trace` read. A head end H has the
address 2001:db8:0:1::H there, and a meter M 2001:db8:0:2::M, with the number in
hexadecimal, and a datagram has its number in milliseconds as its time. FILE is
made, or emptied if it is there, before anything is read.

Example, a campaign for one meter:

  printf '%s\\n' 'head 7 width 4' 'meter 1 block 2 capacity 64 factory 78' \\
  'open 7 1 616263 1' |
  ./dlmsfw replay --rounds 9 --fates d

prints

  row 7 1 1 done
  meter 1 status 6 active 7 1 size 3
  activations 1";

/// What ends the long help.
const ENDINGS: &str = "\
Exit status:
  0  no event was refused
  1  an event was refused, which standard output tells, or a fault: standard
     error has `dlmsfw: NAME`, with one of these names
       BadFates      --fates is empty, has more than 4096 letters, or another
                     one than d, x, t and l; nothing was read
       Input         a read of standard input failed, as where it is closed or a
                     folder
       TooMuchInput  standard input has more than 64 MiB
       BadLine L     line L, counted from 1, is none of the above: it has
                     another word, a word too many or too few, a number above
                     4294967295, a HEX with an odd number of digits, two spaces
                     together, or a space, a tab or a CR at its end; or it is a
                     `head` or `meter` after an event; nothing was written
       BadSetup      there is no head end or no meter, there are more than 16
                     head ends or 256 meters, two have the same number, or a
                     width, block, capacity or factory image is out of range;
                     nothing was written
       CaptureFault  FILE of --capture can't be made or written, which a second
                     line names, with the cause if it can't be made: there is no
                     such folder, FILE is a folder, this user may not write it,
                     or the disk is full; nothing was written to standard output
       Output        standard output can't be written, as on a full disk
       OutOfMemory   the system gives no more memory; nothing was written
  2  a wrong command line: standard error says what is wrong";

/// The command and its options.
const MANUAL: &Manual = &Manual {
    name: "replay",
    about: "Replays a script of head ends and meters, and tells how each\ncampaign ended",
    options: &[
        CommandOption {
            name: "rounds",
            takes: Takes::Within("R", 1, MAX_ROUNDS),
            presence: Presence::With("fates"),
            help: "How many rounds of each link follow, 1 to 100000",
        },
        CommandOption {
            name: "fates",
            takes: Takes::Text("F"),
            presence: Presence::With("rounds"),
            help: "The fates of datagrams: d it comes, x it is lost, t it comes twice,\nl it comes a round late",
        },
        TRACE,
        CAPTURE,
        CommandOption {
            name: "report",
            takes: Takes::OneOf("FORM", FORMS),
            presence: Presence::Default(LINES),
            help: "The form",
        },
    ],
};

/// The parser of the command.
pub(super) fn command<'a>(alloc: Global) -> Result<Command<'a>, AllocError> {
    manual::command(alloc, MANUAL, ABOUT, ENDINGS)
}

/// The options that were given. The parser lets neither pass without the other.
pub(super) fn options<'a>(given: &ArgMatches<'a>) -> Option<ReplayOptions<'a>> {
    let rounds = match (given.get_one("rounds"), given.get_str("fates")) {
        (Some(rounds), Some(fates)) => Some(Rounds { rounds, fates }),
        (None, None) => None,
        _ => return None,
    };
    let style = Style {
        trace: given.get_flag("trace"),
        report: form(given.get_str("report")?)?,
    };
    Some(ReplayOptions { rounds, style })
}

/// The form of this name.
fn form(name: &str) -> Option<ReportForm> {
    match name {
        LINES => Some(ReportForm::Lines),
        TABLE => Some(ReportForm::Table),
        JSON => Some(ReportForm::Json),
        _ => None,
    }
}
