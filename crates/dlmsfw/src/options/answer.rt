//! The command `answer`, and its help.

use super::manual::{CommandOption, Manual, Presence, Takes};
use super::{Invocation, manual};
use clap::{ArgMatches, Command};
use fw_cli::{AnswerOptions, StoredOptions};
use std::alloc::{AllocError, Global};

/// What the long help begins with.
const ABOUT: &str = "\
Answers datagrams, one a line.

Standard input has one datagram a line, in hexadecimal of either case: the
wrapper of IEC 62056-4-7 around a request of IEC 62056-5-3. A new meter, which
the options describe, takes them in turn. Standard output gets one line for
each: the reply in lower-case hexadecimal, or `-` where there is none. The last
line may lack its line feed, and an empty line is an empty datagram. All input
is read before anything is written.

With --store the meter is in FILE, and stays there for the next run. Where no
such file is there, it is made, with a new meter. Where one is, its meter goes
on, and the other options are ignored; a header of version 1 in it, which has
marks for 4096 blocks, is written in version 2 first.

A meter verifies an image of more than 4096 bytes in turns, and `answer` takes
no turns. So it can't verify such an image: image_verify returns 2,
temporary-failure, and image_transfer_status stays 2. `replay`, `rehearse` and
`live` take turns, and verify each image that a meter takes.

Example, a GET of image_transfer_status, which is 0 in a new meter:

  echo 000100010001000dc001c1001200002c0000ff0600 | ./dlmsfw answer

prints

  0001000100010006c401c1001600";

/// What ends the long help.
const ENDINGS: &str = "\
Exit status:
  0  each line was answered
  1  a fault: standard error has `dlmsfw: NAME`, with one of these names. From
     StoreFault to BadImage a second line has the option --store, and behind it
     the cause, if that is known, and before that the name of the file beside
     FILE that is meant: `--store FILE: FILE.new: it is another program's file`
       StoreFault    FILE can't be opened or made: another process has it, there
                     is no such folder, FILE is a folder or a link or has a
                     second name, this user may not read and write it, the disk
                     is full or may only be read, too many files are open,
                     FILE.journal can't be made beside it, or what is named
                     FILE.new or FILE.journal isn't the meter's; that stays as
                     it is
       Fault         the disk failed: FILE can't be read, or its header of
                     version 1 can't be written in version 2
       BadFile       FILE hasn't the length that it begins with: it is empty or
                     another program's, or it was cut
       BadHeader     FILE has no header that a meter writes: its bytes were
                     changed
       BadImage      an image in FILE, which runs or is verified, hasn't the
                     digest of its name: its bytes were changed
       BadSetup      the options describe no meter: a number is out of range, or
                     HEX isn't pairs of hexadecimal digits, is empty, or is
                     longer than the capacity; with --store only where FILE
                     isn't there
       Input         a read of standard input failed, as where it is closed or a
                     folder
       TooMuchInput  standard input has more than 64 MiB
       BadLine L     line L, counted from 1, isn't pairs of hexadecimal digits:
                     it has another character, as a space, or a CR before its
                     line feed, or an odd number of digits; the lines before it
                     were answered
       Output        standard output can't be written, as on a full disk
       OutOfMemory   the system gives no more memory; nothing was written
     From StoreFault to BadSetup nothing was read, and a FILE that was there is
     as it was, unless the write of its header failed.
  2  a wrong command line: standard error says what is wrong";

/// The command and its options.
const MANUAL: &Manual = &Manual {
    name: "answer",
    about: "Answers datagrams, one a line",
    options: &[
        CommandOption {
            name: "block-size",
            takes: Takes::Number("BYTES"),
            presence: Presence::Default("2"),
            help: "Bytes per block of an image transfer, 1 to 1024",
        },
        CommandOption {
            name: "capacity",
            takes: Takes::Number("BYTES"),
            presence: Presence::Default("64"),
            help: "Bytes of the longest image, 1 to 16777216,\nin at most 16384 blocks",
        },
        CommandOption {
            name: "factory",
            takes: Takes::Text("HEX"),
            presence: Presence::Default("616263"),
            help: "The image that the meter runs, in hexadecimal,\n1 byte to the capacity",
        },
        CommandOption {
            name: "store",
            takes: Takes::Text("FILE"),
            presence: Presence::Optional,
            help: "The file that has the meter, made with the other options\nwhere it isn't there",
        },
    ],
};

/// The parser of the command.
pub(super) fn command<'a>(alloc: Global) -> Result<Command<'a>, AllocError> {
    manual::command(alloc, MANUAL, ABOUT, ENDINGS)
}

/// The command with the options that were given. All except the file have a default.
pub(super) fn invoked<'a>(given: &ArgMatches<'a>) -> Option<Invocation<'a>> {
    let fresh = AnswerOptions {
        block_size: given.get_one("block-size")?,
        capacity: given.get_one("capacity")?,
        factory: given.get_str("factory")?,
    };
    match given.get_str("store") {
        None => Some(Invocation::Answer(fresh)),
        Some(file) => Some(Invocation::StoredAnswer(StoredOptions { file, fresh })),
    }
}
