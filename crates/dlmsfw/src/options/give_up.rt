//! The command `give-up`, and its help.

use super::manual::{CommandOption, Manual, Presence, Takes};
use super::{Invocation, WrongValue, manual, meters};
use clap::{ArgMatches, Command};
use fw_cli::GiveUpOptions;
use fw_names::HeadId;
use std::alloc::{AllocError, Global};

/// What the long help begins with.
const ABOUT: &str = "\
Gives up the live rows of meters in a head end's book, and ends: of meters that
are gone, or that won't answer. Nothing is sent. These rows fail, and their
meters are free for another campaign. A meter that has the image may switch to
it all the same.

The head end may not run meanwhile. FILE is made anew and kept as `head` does
it.

METERS are numbers and ranges of them with commas between, as 7,9-12. A number
is that of a meter that has a live row; a meter has one at most, and one that is
named again has none any more. A range is all such meters in it, and may have
none. The disk has all of these rows as failed, or none.

Standard output gets a line for each row, once the disk has all, and one that
can't be written is lost:

  row HEAD SERIAL METER failed: PHASE given-up

where PHASE is `size`, since a row begins there when FILE is opened. Standard
error gets `meter N has no live row` for each number whose meter has none.

Example, two meters of the head end of `head --help`:

  ./dlmsfw give-up --head 7 --book head.book --meter 3,5";

/// What ends the long help.
const ENDINGS: &str = "\
Exit status:
  0  each of the meters had a live row, which was given up
  1  a fault: standard error has `dlmsfw: NAME`, with one of these names, and a
     second line with the option that it is about, as of `head`. No row has a
     line, and `status` tells whether FILE has them
       NoBook       FILE isn't there
       Locked       another process has FILE, as a head end that runs
       BookFault    FILE can't be opened, read or written; `head --help` has the
                    causes
       BadBook N    the bytes of FILE from offset N on are no book's: they were
                    changed
       BadRecord N  record N of FILE, counted from 0, has no place in a book
       ForeignHead  FILE is the book of another head end than that of --head
       Full         FILE has no room for more
       OutOfMemory  the system gives no more memory
  2  a wrong command line: standard error says what is wrong
  5  a meter that is named by its number had no live row, as standard error
     says; the rows of the others were given up";

/// The command and its options.
const MANUAL: &Manual = &Manual {
    name: "give-up",
    about: "Gives up live rows of meters in a head end's book",
    options: &[
        CommandOption {
            name: "head",
            takes: Takes::Within("N", 1, u32::MAX),
            presence: Presence::Required,
            help: "The number of the head end, 1 to 4294967295",
        },
        CommandOption {
            name: "book",
            takes: Takes::Text("FILE"),
            presence: Presence::Required,
            help: "The file that has its book",
        },
        CommandOption {
            name: "meter",
            takes: Takes::Texts("METERS"),
            presence: Presence::Required,
            help: "The numbers of meters, 0 to 4294967295, and ranges, as 7,9-12;\nonce for each list of them",
        },
    ],
};

/// The parser of the command.
pub(super) fn command<'a>(alloc: Global) -> Result<Command<'a>, AllocError> {
    manual::command(alloc, MANUAL, ABOUT, ENDINGS)
}

/// The command with the options that were given.
pub(super) fn invoked<'a>(
    alloc: Global,
    given: &ArgMatches<'a>,
) -> Result<Option<Invocation<'a>>, WrongValue<'a>> {
    let (Some(head), Some(book)) = (head_of(given), given.get_str("book")) else {
        return Ok(None);
    };
    let mut named = Vec::new(alloc);
    for text in given.get_strs("meter").unwrap_or(&[]) {
        meters::push_meters(&mut named, "meter", *text)?;
    }
    Ok(Some(Invocation::GiveUp(GiveUpOptions {
        head,
        book,
        meters: named,
    })))
}

/// The head end.
fn head_of<'a>(given: &ArgMatches<'a>) -> Option<HeadId> {
    HeadId::new(given.get_one("head")?)
}
