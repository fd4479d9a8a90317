//! The command `name`, and its help.

use super::manual::{CommandOption, Manual, Presence, Takes};
use super::{Invocation, manual};
use clap::{ArgMatches, Command};
use fw_cli::NameOptions;
use fw_names::{CampaignId, HeadId};
use std::alloc::{AllocError, Global};

/// What the long help begins with.
const ABOUT: &str = "\
Prints the name of an image, which is what image_transfer_initiate carries as
its identifier, and what a meter that runs the image answers as its active
firmware identifier.

Standard input has the bytes of the image, 1 to 16777216. Standard output gets
one line, the 82 digits of the name in lower-case hexadecimal: 01, the number of
the head end and the serial number of its campaign in 8 digits each, and the
SHA-256 of the image. A name with a release of at least 1 has 90 digits: 02 in
place of 01, and the release in 8 digits before the SHA-256. All input is read
before anything is written.

Example, the image `abc` in campaign 1 of head end 7:

  printf abc | ./dlmsfw name --head 7 --serial 1

prints

  010000000700000001ba7816bf8f01cfea414140de5dae2223b00361a396177a9cb410ff61f20015ad";

/// What ends the long help.
const ENDINGS: &str = "\
Exit status:
  0  the name was printed
  1  a fault: standard error has `dlmsfw: NAME`, with one of these names
       Input         a read of standard input failed, as where it is closed or a
                     folder
       TooMuchInput  standard input has more than 64 MiB
       EmptyImage    standard input has no byte
       ImageTooLong  standard input has more than 16777216 bytes
       Output        standard output can't be written, as on a full disk
       OutOfMemory   the system gives no more memory; nothing was written
  2  a wrong command line: standard error says what is wrong";

/// The command and its options.
const MANUAL: &Manual = &Manual {
    name: "name",
    about: "Prints the name under which a campaign offers an image",
    options: &[
        CommandOption {
            name: "head",
            takes: Takes::Within("H", 1, u32::MAX),
            presence: Presence::Required,
            help: "The number of the head end, 1 to 4294967295",
        },
        CommandOption {
            name: "serial",
            takes: Takes::Within("S", 1, u32::MAX),
            presence: Presence::Required,
            help: "The serial number of its campaign, 1 to 4294967295",
        },
        CommandOption {
            name: "release",
            takes: Takes::Within("N", 0, u32::MAX),
            presence: Presence::Default("0"),
            help: "The release of the image, 0 to 4294967295; 0 is none",
        },
    ],
};

/// The parser of the command.
pub(super) fn command<'a>(alloc: Global) -> Result<Command<'a>, AllocError> {
    manual::command(alloc, MANUAL, ABOUT, ENDINGS)
}

/// The command with the options that were given. The parser lets only those numbers pass that a head end, a campaign or a release can
/// have. The release has a default.
pub(super) fn invoked<'a>(given: &ArgMatches<'a>) -> Option<Invocation<'a>> {
    let head = HeadId::new(given.get_one("head")?)?;
    let campaign = CampaignId::new(head, given.get_one("serial")?)?;
    let release = given.get_one("release")?;
    Some(Invocation::Name(NameOptions { campaign, release }))
}
