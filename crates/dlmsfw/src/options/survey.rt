//! The command `survey`, and its help.

use super::manual::{CommandOption, Manual, Presence, Takes};
use super::{Invocation, LONGEST_RESEND, MAX_FLIGHT, WrongValue, address, manual};
use clap::{ArgMatches, Command};
use fw_cli::{SurveyOffer, SurveyOptions};
use fw_inventory::InventoryForm;
use fw_rollout::MILLISECOND;
use fw_survey::Timing;
use std::alloc::{AllocError, Global};

/// The names of the forms.
const TABLE: &str = "table";

const CSV: &str = "csv";

const JSON: &str = "json";

const FORMS: &[&str] = &[TABLE, CSV, JSON];

/// What the long help begins with.
const ABOUT: &str = "\
Asks each meter of LIST what it runs, by GET alone, and ends. No meter is
changed, no book is needed, and a head end may run meanwhile, at another
address.

LIST is read as `head` reads it, and a wave in it changes nothing. A meter is
asked four questions, one after another, each once the one before it was
answered: its active firmware identifier, which has the head end, the campaign,
the release and the SHA-256 of the image that it runs; image_block_size;
image_transfer_enabled; and image_transfer_status. A question whose answer
doesn't come within --resend is asked again, --tries times in all; then nothing
more is asked of that meter. No more than --flight questions are out at once. An
answer is what comes from the meter's address in LIST with the invoke-id of a
question that was asked there. It is asked and answered without keys, so a meter
with --keys is silent.

Standard output gets a row for each meter, in the order of LIST: as a table, as
comma-separated values with a header line, or as an object of JSON on one line.
The table has the first 8 digits of the SHA-256 alone, image_transfer_status
below `stat`, image_transfer_enabled below `on`, and `-` for what isn't known. A
meter that answered nothing is `silent`, one that answered all `heard`, and any
other `partly`. `code N` stands for an answer that refuses the question, with
the standard's code, and `other` for a value of another type than the attribute
has, or for no name of an image. The round trip is that of the first answer, in
microseconds since its question was asked last.

With --image FILE and --release R the last column says what the meter would do
with that image, by what it answered:

  runs                   it runs this image, of this release
  refuses below N        it runs release N, which is higher: it would refuse the
                         image
  refuses blocks of N    the image has more than 16384 blocks of N bytes, which
                         is the size of its blocks
  takes                  nothing that it answered speaks against it
  unknown                it isn't known what it runs

What its store has room for can't be asked, so a meter that `takes` an image may
still refuse it for that.

Example, in two terminals, what the meter at port 4059 runs, and whether it
would take an image:

  ./dlmsfw meter --listen 127.0.0.1:4059 --store meter.fw

  echo 1,127.0.0.1:4059 > meters.csv
  ./dlmsfw survey --meters meters.csv --listen 127.0.0.1:4058 \\
    --image README.md --release 2";

/// What ends the long help.
const ENDINGS: &str = "\
Exit status:
  0  the report was written, whoever was silent
  1  a fault: standard error has `dlmsfw: NAME`, with one of these names, and of
     the first five and Socket a second line with the option that it is about
     and the cause, if that is known
       ListFault     LIST can't be opened or read; `head --help` has the causes
       BadList L     line L of LIST, counted from 1, is none of a list, as
                     `head --help` says it
       ImageFault    the file of --image can't be opened or read, for the same
                     causes
       EmptyImage    the image has no byte
       ImageTooLong  the image has more than 16777216 bytes
       Socket        datagrams can't be received at --listen; `head --help` has
                     the causes. Or the socket failed 1000 times in a row later,
                     or the system told no time, without a cause
       Output        standard output can't be written, as on a full disk
       OutOfMemory   the system gives no more memory
     Except at Output, nothing was written.
  2  a wrong command line: standard error says what is wrong";

/// The command and its options.
const MANUAL: &Manual = &Manual {
    name: "survey",
    about: "Asks each meter of a list what it runs",
    options: &[
        CommandOption {
            name: "meters",
            takes: Takes::Text("LIST"),
            presence: Presence::Required,
            help: "The file that has the meters, a line NUMBER,ADDR:PORT or\nNUMBER,ADDR:PORT,WAVE for each",
        },
        CommandOption {
            name: "listen",
            takes: Takes::Text("ADDR:PORT"),
            presence: Presence::Required,
            help: "The address that datagrams are sent from and received at",
        },
        CommandOption {
            name: "resend",
            takes: Takes::Within("MS", 1, LONGEST_RESEND),
            presence: Presence::Default("1000"),
            help: "How long an answer is waited for, in milliseconds,\n1 to 60000",
        },
        CommandOption {
            name: "tries",
            takes: Takes::Within("N", 1, 1_000),
            presence: Presence::Default("8"),
            help: "How often a question is asked that isn't answered,\n1 to 1000",
        },
        CommandOption {
            name: "flight",
            takes: Takes::Within("N", 1, MAX_FLIGHT),
            presence: Presence::Default("1024"),
            help: "How many questions are out at once, 1 to 65536",
        },
        CommandOption {
            name: "release",
            takes: Takes::Within("R", 0, u32::MAX),
            presence: Presence::With("image"),
            help: "The release of the image, 0 to 4294967295; 0, which is none,\nwithout this option",
        },
        CommandOption {
            name: "image",
            takes: Takes::Text("FILE"),
            presence: Presence::Optional,
            help: "The file whose bytes are the image of which it is asked\nwho would refuse it",
        },
        CommandOption {
            name: "report",
            takes: Takes::OneOf("FORM", FORMS),
            presence: Presence::Default(TABLE),
            help: "The form",
        },
    ],
};

/// The parser of the command.
pub(super) fn command<'a>(alloc: Global) -> Result<Command<'a>, AllocError> {
    manual::command(alloc, MANUAL, ABOUT, ENDINGS)
}

/// The command with the options that were given. The parser lets only numbers within their ranges pass, and none of the others lack.
pub(super) fn invoked<'a>(
    given: &ArgMatches<'a>,
) -> Result<Option<Invocation<'a>>, WrongValue<'a>> {
    let Some(listen) = given.get_str("listen") else {
        return Ok(None);
    };
    let listen = address("listen", listen)?;
    let (Some(meters), Some(timing), Some(report)) = (
        given.get_str("meters"),
        timing_of(given),
        form_of(given),
    ) else {
        return Ok(None);
    };
    Ok(Some(Invocation::Survey(SurveyOptions {
        meters,
        listen,
        timing,
        offer: offer_of(given),
        report,
    })))
}

/// How answers are waited for.
fn timing_of<'a>(given: &ArgMatches<'a>) -> Option<Timing> {
    let resend: u32 = given.get_one("resend")?;
    let tries: u32 = given.get_one("tries")?;
    let flight: u32 = given.get_one("flight")?;
    Some(Timing {
        timeout: u64::from(resend).saturating_mul(MILLISECOND),
        tries,
        flight: u64::from(flight),
    })
}

/// The image of which it is asked who would refuse it.
fn offer_of<'a>(given: &ArgMatches<'a>) -> Option<SurveyOffer<'a>> {
    Some(SurveyOffer {
        release: given.get_one("release").unwrap_or(0),
        image: given.get_str("image")?,
    })
}

/// The form of the report.
fn form_of<'a>(given: &ArgMatches<'a>) -> Option<InventoryForm> {
    match given.get_str("report")? {
        TABLE => Some(InventoryForm::Table),
        CSV => Some(InventoryForm::Csv),
        JSON => Some(InventoryForm::Json),
        _ => None,
    }
}
