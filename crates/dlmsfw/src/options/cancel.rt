//! The command `cancel`, and its help.

use super::manual::{CommandOption, Manual, Presence, Takes};
use super::{Invocation, WrongValue, manual, serials};
use clap::{ArgMatches, Command};
use fw_cli::CancelOptions;
use fw_names::HeadId;
use std::alloc::{AllocError, Global};

/// What the long help begins with.
const ABOUT: &str = "\
Cancels campaigns in a head end's book, and ends. Nothing is sent: the live rows
of these campaigns are led no further, and a meter that has the image may switch
to it all the same.

The head end may not run meanwhile. FILE is made anew and kept as `head` does
it.

SERIALS are numbers and ranges of them with commas between, as 7,9-12. A number
is that of a campaign that has a live row. A range is all such campaigns in it,
and may have none. They are cancelled in the order given, each once: where one
is refused, those before it are cancelled.

Standard output gets a line for each campaign, at once, and one that can't be
written is lost:

  cancelled HEAD SERIAL    this campaign was cancelled, and the disk has that

Example, the campaign of the head end of `head --help`, and whatever is live of
ten others:

  ./dlmsfw cancel --head 7 --book head.book --campaign 1,11-20";

/// What ends the long help.
const ENDINGS: &str = "\
Exit status:
  0  each campaign that is named was cancelled
  1  a fault: standard error has `dlmsfw: NAME`, with one of these names, and a
     second line with the option that it is about, as of `head`. The campaigns
     with a line were cancelled
       NoSuchCampaign  the book has no such campaign
       NotLive         none of its rows is live
       NoBook          FILE isn't there
       Locked          another process has FILE, as a head end that runs
       BookFault       FILE can't be opened, read or written; `head --help` has
                       the causes
       BadBook N       the bytes of FILE from offset N on are no book's: they
                       were changed
       BadRecord N     record N of FILE, counted from 0, has no place in a book
       ForeignHead     FILE is the book of another head end than that of --head
       Full            FILE has no room for more
       OutOfMemory     the system gives no more memory
  2  a wrong command line: standard error says what is wrong";

/// The command and its options.
const MANUAL: &Manual = &Manual {
    name: "cancel",
    about: "Cancels campaigns in a head end's book",
    options: &[
        CommandOption {
            name: "head",
            takes: Takes::Within("N", 1, u32::MAX),
            presence: Presence::Required,
            help: "The number of the head end, 1 to 4294967295",
        },
        CommandOption {
            name: "book",
            takes: Takes::Text("FILE"),
            presence: Presence::Required,
            help: "The file that has its book",
        },
        CommandOption {
            name: "campaign",
            takes: Takes::Texts("SERIALS"),
            presence: Presence::Required,
            help: "The serial numbers of campaigns, 1 to 4294967295, and ranges,\nas 7,9-12; once for each list of them",
        },
    ],
};

/// The parser of the command.
pub(super) fn command<'a>(alloc: Global) -> Result<Command<'a>, AllocError> {
    manual::command(alloc, MANUAL, ABOUT, ENDINGS)
}

/// The command with the options that were given.
pub(super) fn invoked<'a>(
    alloc: Global,
    given: &ArgMatches<'a>,
) -> Result<Option<Invocation<'a>>, WrongValue<'a>> {
    let (Some(head), Some(book)) = (head_of(given), given.get_str("book")) else {
        return Ok(None);
    };
    let mut campaigns = Vec::new(alloc);
    for text in given.get_strs("campaign").unwrap_or(&[]) {
        serials::push_campaigns(&mut campaigns, "campaign", *text)?;
    }
    Ok(Some(Invocation::Cancel(CancelOptions {
        head,
        book,
        campaigns,
    })))
}

/// The head end.
fn head_of<'a>(given: &ArgMatches<'a>) -> Option<HeadId> {
    HeadId::new(given.get_one("head")?)
}
