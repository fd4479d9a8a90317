//! The command `status`, and its help.

use super::manual::{CommandOption, Manual, Presence, Takes};
use super::{Invocation, manual};
use clap::{ArgMatches, Command};
use fw_cli::StatusOptions;
use fw_status::{Listing, StatusForm};
use std::alloc::{AllocError, Global};

/// The names of the forms.
const TABLE: &str = "table";

const CSV: &str = "csv";

const JSON: &str = "json";

const HTML: &str = "html";

const FORMS: &[&str] = &[TABLE, CSV, JSON, HTML];

/// What the long help begins with.
const ABOUT: &str = "\
Tells how far the rows of a head end's book are, also while the head end has it.
It changes nothing.

Standard output gets the rows by campaigns, in the order in which they were
opened, and then by meters in the order given: as a table, with how many rows
are in which state, as comma-separated values with a header line, or as an
object of JSON on one line. A failed row has the phase that it was in, and what
its meter answered, as `head --help` says it. The last two have the times, in
seconds since 1970 began (UTC), at which the campaign was opened and at which
the row ended. What the book doesn't know, as one of an older release, is empty
there, or null.

With --campaigns it gets the campaigns in place of the rows: the release, the
size and the SHA-256 of the image of each, when it was opened, and how many of
its rows are in which state. `--report html` makes one page that needs nothing
from outside, with a bar for each campaign, and without --campaigns with the
rows by state.

FILE may have whole records that are not in the book, behind a shut gate: of a
commit that isn't done or was cut, or behind a byte that turned on the disk.
Standard error says so then:
`N records behind a shut gate were not taken`.

Examples:

  ./dlmsfw status --book head.book --report csv
  ./dlmsfw status --book head.book --report html > head.html";

/// What ends the long help.
const ENDINGS: &str = "\
Exit status:
  0  the report was written
  1  a fault: standard error has `dlmsfw: NAME`, with one of these names, and a
     second line with the file, and of NoBook and BookFault with the cause
     behind it
       NoBook       FILE isn't there
       BookFault    FILE can't be read: it is a folder, this user has no right
                    to it, or too many files are open
       BadBook N    the bytes of FILE from offset N on are no book's
       BadRecord N  record N of FILE, counted from 0, has no place in a book
       Output       standard output can't be written, as on a full disk
       OutOfMemory  the system gives no more memory
     Except at Output, nothing was written.
  2  a wrong command line: standard error says what is wrong";

/// The command and its options.
const MANUAL: &Manual = &Manual {
    name: "status",
    about: "Tells how far the rows of a head end's book are",
    options: &[
        CommandOption {
            name: "book",
            takes: Takes::Text("FILE"),
            presence: Presence::Required,
            help: "The file that has the book",
        },
        CommandOption {
            name: "report",
            takes: Takes::OneOf("FORM", FORMS),
            presence: Presence::Default(TABLE),
            help: "The form",
        },
        CommandOption {
            name: "campaigns",
            takes: Takes::Nothing,
            presence: Presence::Optional,
            help: "Lists the campaigns in place of their rows",
        },
    ],
};

/// The parser of the command.
pub(super) fn command<'a>(alloc: Global) -> Result<Command<'a>, AllocError> {
    manual::command(alloc, MANUAL, ABOUT, ENDINGS)
}

/// The command with the options that were given.
pub(super) fn invoked<'a>(given: &ArgMatches<'a>) -> Option<Invocation<'a>> {
    Some(Invocation::Status(StatusOptions {
        book: given.get_str("book")?,
        report: form(given.get_str("report")?)?,
        listing: listing(given.get_flag("campaigns")),
    }))
}

/// The form of this name.
fn form(name: &str) -> Option<StatusForm> {
    match name {
        TABLE => Some(StatusForm::Table),
        CSV => Some(StatusForm::Csv),
        JSON => Some(StatusForm::Json),
        HTML => Some(StatusForm::Html),
        _ => None,
    }
}

/// What is listed.
fn listing(campaigns: bool) -> Listing {
    if campaigns {
        Listing::Campaigns
    } else {
        Listing::Rows
    }
}
