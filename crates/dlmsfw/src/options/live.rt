//! The command `live`, and its help.

use super::manual::{CommandOption, Manual, Presence, Takes};
use super::{CAPTURE, MAX_ROUNDS, TRACE, manual};
use clap::{ArgMatches, Command};
use fw_cli::{LiveOptions, MAX_WORKERS};
use std::alloc::{AllocError, Global};

/// What the long help begins with.
const ABOUT: &str = "\
Runs a script with several workers over UDP sockets on this machine, and tells
how each campaign ended.

Standard input has a script, as `replay` reads it; `replay --help` has its
lines. Its events are made first. Then each link of a head end and a meter gets
a pair of sockets on 127.0.0.1, one for each end, and the workers make R rounds
on each link: the head end ticks the meter, what comes is handled until nothing
more does, and the meter takes its turn where it verifies. A datagram that was
sent has 5 ms to come. What the network loses is lost, and what nobody sent is
dropped. Links go to workers as in `rehearse`, and what the workers did is
recorded and held to account as there.

Standard output gets the report of that end, as of `replay`, and the line
`board N`, the number of rows that are done. All input is read before anything
is written. With --trace a line for each datagram that was sent stands before
the report, as in `rehearse`.

With --capture FILE the capture of these datagrams is in FILE at the end, as
`replay --help` says it.

Where standard error is a terminal, it shows how many rows are done until then,
as in `rehearse`.

Example, a campaign for two meters, and a worker for each:

  printf '%s\\n' 'head 7 width 4' 'meter 1 block 2 capacity 64 factory 78' \\
  'meter 2 block 2 capacity 64 factory 78' 'open 7 1 616263 1 2' |
  ./dlmsfw live --rounds 20 --workers 2

prints, where at most ten datagrams of a link are lost or late (where none is, 9
rounds do),

  row 7 1 1 done
  row 7 1 2 done
  meter 1 status 6 active 7 1 size 3
  meter 2 status 6 active 7 1 size 3
  activations 2
  board 2";

/// What ends the long help.
const ENDINGS: &str = "\
Exit status:
  0  all rounds were made
  1  a fault: standard error has `dlmsfw: NAME`, with one of these names
       Input          a read of standard input failed, as where it is closed or
                      a folder
       TooMuchInput   standard input has more than 64 MiB
       BadLine L      line L, counted from 1, is none of a script;
                      `replay --help` has the causes
       BadSetup       no world can be made of the setup; `replay --help` has the
                      causes
       Event          an event of the script was refused; `replay` prints which,
                      and why
       Socket         no socket can be bound on 127.0.0.1, or not two for each
                      link, as where a process may have fewer open files
                      (`ulimit -n`); a second line says which
       Mismatch       what the workers left isn't what their record says: an
                      error of the program
       ThreadRefused  a thread can't be started, as where this user has too many
                      of them
       CaptureFault   FILE of --capture can't be made or written, which a second
                      line names; `replay --help` has the causes
       Output         standard output can't be written, as on a full disk
       OutOfMemory    the system gives no more memory
     Except at Output, nothing was written to standard output.
  2  a wrong command line: standard error says what is wrong";

/// The command and its options.
const MANUAL: &Manual = &Manual {
    name: "live",
    about: "Runs a script with several workers over UDP sockets, and tells how\neach campaign ended",
    options: &[
        CommandOption {
            name: "rounds",
            takes: Takes::Within("R", 1, MAX_ROUNDS),
            presence: Presence::Required,
            help: "How many rounds of each link follow, 1 to 100000",
        },
        CommandOption {
            name: "workers",
            takes: Takes::Within("W", 1, MAX_WORKERS),
            presence: Presence::Required,
            help: "How many workers make them, 1 to 8",
        },
        TRACE,
        CAPTURE,
    ],
};

/// The parser of the command.
pub(super) fn command<'a>(alloc: Global) -> Result<Command<'a>, AllocError> {
    manual::command(alloc, MANUAL, ABOUT, ENDINGS)
}

/// The options that were given. The parser lets none of them lack.
pub(super) fn options(given: &ArgMatches<'_>) -> Option<LiveOptions> {
    Some(LiveOptions {
        rounds: given.get_one("rounds")?,
        workers: given.get_one("workers")?,
        trace: given.get_flag("trace"),
    })
}
