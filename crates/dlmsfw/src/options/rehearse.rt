//! The command `rehearse`, and its help.

use super::manual::{CommandOption, Manual, Presence, Takes};
use super::{CAPTURE, MAX_ROUNDS, TRACE, manual};
use clap::{ArgMatches, Command};
use fw_cli::{MAX_WORKERS, RehearseOptions, Rounds};
use std::alloc::{AllocError, Global};

/// What the long help begins with.
const ABOUT: &str = "\
Rehearses a script with several workers, each in a thread of its own, and tells
how each campaign ended.

Standard input has a script, as `replay` reads it; `replay --help` has its
lines. Its events are made first. Then the workers make R rounds on each link of
a head end and a meter, as `replay --rounds` makes them: the links go by head
ends, then meters, as in the setup, and link J, from 0 on, is worker J modulo
W's. The workers share the head ends, the meters and a board, on which they
count the meters that are done. What they did is recorded, and the report is
that of the end of a run of this record.

Standard output gets the report of that end, as of `replay`, and the line
`board N`, the number of rows that are done. All input is read before anything
is written. With --trace a line for each datagram that was sent stands before
the report, as `replay --help` says it, in the order in which the workers'
datagrams were recorded.

With --capture FILE the capture of these datagrams is in FILE at the end, as
`replay --help` says it.

Where standard error is a terminal, it shows how many rows are done, as
`12 of 256 rows done`, until the report is written.

Example, a campaign for two meters, and a worker for each:

  printf '%s\\n' 'head 7 width 4' 'meter 1 block 2 capacity 64 factory 78' \\
  'meter 2 block 2 capacity 64 factory 78' 'open 7 1 616263 1 2' |
  ./dlmsfw rehearse --rounds 9 --workers 2

prints

  row 7 1 1 done
  row 7 1 2 done
  meter 1 status 6 active 7 1 size 3
  meter 2 status 6 active 7 1 size 3
  activations 2
  board 2";

/// What ends the long help.
const ENDINGS: &str = "\
Exit status:
  0  all rounds were made
  1  a fault: standard error has `dlmsfw: NAME`, with one of these names
       BadFates       --fates is empty, has more than 4096 letters, or another
                      one than d, x, t and l; nothing was read
       Input          a read of standard input failed, as where it is closed or
                      a folder
       TooMuchInput   standard input has more than 64 MiB
       BadLine L      line L, counted from 1, is none of a script;
                      `replay --help` has the causes
       BadSetup       no world can be made of the setup; `replay --help` has the
                      causes
       Event          an event of the script was refused; `replay` prints which,
                      and why
       Mismatch       what the workers left isn't what their record says: an
                      error of the program
       ThreadRefused  a thread can't be started, as where this user has too many
                      of them
       CaptureFault   FILE of --capture can't be made or written, which a second
                      line names; `replay --help` has the causes
       Output         standard output can't be written, as on a full disk
       OutOfMemory    the system gives no more memory
     Except at Output, nothing was written to standard output.
  2  a wrong command line: standard error says what is wrong";

/// The command and its options.
const MANUAL: &Manual = &Manual {
    name: "rehearse",
    about: "Rehearses a script with several workers, and tells how each\ncampaign ended",
    options: &[
        CommandOption {
            name: "rounds",
            takes: Takes::Within("R", 1, MAX_ROUNDS),
            presence: Presence::Required,
            help: "How many rounds of each link follow, 1 to 100000",
        },
        CommandOption {
            name: "workers",
            takes: Takes::Within("W", 1, MAX_WORKERS),
            presence: Presence::Required,
            help: "How many workers make them, 1 to 8",
        },
        CommandOption {
            name: "fates",
            takes: Takes::Text("F"),
            presence: Presence::Default("d"),
            help: "The fates of datagrams: d it comes, x it is lost, t it comes twice,\nl it comes a round late",
        },
        TRACE,
        CAPTURE,
    ],
};

/// The parser of the command.
pub(super) fn command<'a>(alloc: Global) -> Result<Command<'a>, AllocError> {
    manual::command(alloc, MANUAL, ABOUT, ENDINGS)
}

/// The options that were given. The parser lets none of them lack: the fates have a default.
pub(super) fn options<'a>(given: &ArgMatches<'a>) -> Option<RehearseOptions<'a>> {
    let rounds = Rounds {
        rounds: given.get_one("rounds")?,
        fates: given.get_str("fates")?,
    };
    Some(RehearseOptions {
        rounds,
        workers: given.get_one("workers")?,
        trace: given.get_flag("trace"),
    })
}
