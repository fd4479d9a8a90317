//! The command `keys`, and its help.

use super::manual::{CommandOption, Manual, Presence, Takes};
use super::{Invocation, WrongValue, address, manual};
use clap::{ArgMatches, Command};
use fw_cli::KeysOptions;
use fw_names::HeadId;
use std::alloc::{AllocError, Global};
use std::net::{IpAddr, SocketAddr};

/// What the long help begins with.
const ABOUT: &str = "\
Makes new keys for the links of a head end with the meters of LIST, in files for
both ends, and ends.

  FOLDER/head.keys           for `head --keys`: the keys of each link
  FOLDER/meter.NUMBER.keys   for `meter --keys` of the meter of this number: the
                             keys of its one link

Each link has keys of its own, from the system's randomness, which stand in both
files. No one but the owner may read or write the files, and no file is written
over: new keys go into another FOLDER. Where one can't be made, those that were
made before it are removed.

A file is brought to its end where nobody else can read it, and is no longer
needed here: who has the keys of a link can do what either end can. Its end
makes FILE.counter beside it, by --new-counter at its first start, and has to be
able to write there.

LIST is read as `head` reads it. The meters take datagrams of this head end from
the address of --listen alone, so that is the one that they see.

Standard output gets a line for each file, once all are there:

  made FILE                  this file was made, and the disk has it

Example, keys for two meters in a folder of their own:

  printf '%s\\n' 1,127.0.0.1:4059 2,127.0.0.1:4060 > meters.csv
  mkdir keys
  ./dlmsfw keys --meters meters.csv --head 7 --listen 127.0.0.1:4058 --out keys

prints

  made keys/head.keys
  made keys/meter.1.keys
  made keys/meter.2.keys";

/// What ends the long help.
const ENDINGS: &str = "\
Exit status:
  0  all files were made
  1  a fault: standard error has `dlmsfw: NAME`, with one of these names, and of
     the first three a second line with the option that it is about and the
     cause, if that is known
       ListFault     LIST can't be opened or read; `head --help` has the causes
       BadList L     line L of LIST, counted from 1, is none of a list, as
                     `head --help` says it
       KeysFault     a file can't be made: one is there, there is no such
                     folder, this user may not write to it, the disk is full or
                     failed or may only be read. The second line has its path
       NoRandomness  the system gives no random bytes
       Output        standard output can't be written, as on a full disk. The
                     files are there
       OutOfMemory   the system gives no more memory
     Except at Output, no file was made.
  2  a wrong command line: standard error says what is wrong";

/// The command and its options.
const MANUAL: &Manual = &Manual {
    name: "keys",
    about: "Makes files of new keys for a head end and its meters",
    options: &[
        CommandOption {
            name: "meters",
            takes: Takes::Text("LIST"),
            presence: Presence::Required,
            help: "The file that has the meters, a line NUMBER,ADDR:PORT for each",
        },
        CommandOption {
            name: "head",
            takes: Takes::Within("N", 1, u32::MAX),
            presence: Presence::Required,
            help: "The number of the head end, 1 to 4294967295",
        },
        CommandOption {
            name: "listen",
            takes: Takes::Text("ADDR:PORT"),
            presence: Presence::Required,
            help: "The address of the head end, as the meters see it",
        },
        CommandOption {
            name: "out",
            takes: Takes::Text("FOLDER"),
            presence: Presence::Default("."),
            help: "The folder that the files are made in",
        },
    ],
};

/// The parser of the command.
pub(super) fn command<'a>(alloc: Global) -> Result<Command<'a>, AllocError> {
    manual::command(alloc, MANUAL, ABOUT, ENDINGS)
}

/// The command with the options that were given. The folder has a default.
pub(super) fn invoked<'a>(
    given: &ArgMatches<'a>,
) -> Result<Option<Invocation<'a>>, WrongValue<'a>> {
    let (Some(head), Some(meters), Some(listen), Some(folder)) = (
        head_of(given),
        given.get_str("meters"),
        given.get_str("listen"),
        given.get_str("out"),
    ) else {
        return Ok(None);
    };
    Ok(Some(Invocation::Keys(KeysOptions {
        head,
        listen: seen(listen)?,
        meters,
        folder,
    })))
}

/// The head end.
fn head_of<'a>(given: &ArgMatches<'a>) -> Option<HeadId> {
    HeadId::new(given.get_one("head")?)
}

/// The address that the value of --listen is, if a meter can see it.
fn seen<'a>(text: &'a str) -> Result<SocketAddr, WrongValue<'a>> {
    let listen = address("listen", text)?;
    if listen.port() != 0 && is_host(listen.ip()) {
        Ok(listen)
    } else {
        Err(WrongValue::NotSeen {
            option: "listen",
            text,
        })
    }
}

/// Whether an address is that of one host.
fn is_host(ip: IpAddr) -> bool {
    match ip {
        IpAddr::V4(ip) => !(ip.is_unspecified() || ip.is_multicast() || ip.is_broadcast()),
        IpAddr::V6(ip) => !(ip.is_unspecified() || ip.is_multicast()),
    }
}
