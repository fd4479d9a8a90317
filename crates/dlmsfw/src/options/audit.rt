//! The command `audit`, and its help.

use super::manual::{CommandOption, Manual, Presence, Takes};
use super::{Invocation, WrongValue, address, manual, order_of};
use clap::{ArgMatches, Command};
use fw_auditor::{AuditForm, AuditOptions, FreshMeter, HeadLog, KeyOption};
use fw_blocks::{MAX_BLOCK_SIZE, MAX_IMAGE_SIZE};
use std::alloc::{AllocError, Global};
use std::net::SocketAddr;

/// The names of the forms.
const LINES: &str = "lines";

const JSON: &str = "json";

const FORMS: &[&str] = &[LINES, JSON];

/// What the long help begins with.
const ABOUT: &str = "\
Says of meters whether what is found of them is what a meter does: of each its
capture, as of `meter --capture`, and its store. With books of head ends it also
says whether each image that a meter switched to is, byte by byte, what a book
offers in its name, and whether each row that is done is of a meter that
switched to its image. With captures of head ends, as of `head --capture`, it
also says whether each of these sent only what its book offers to the meter at
that address, whether its done rows were claimed to it, and whether all that
came to an end was sent before by the one whose address it shows. These files
alone are read, and nothing is asked of the program that made them. None is
locked, made or written; what a power cut left of a store is put right in
memory.

FILE has a line for each meter: its number, its address, as its capture has it,
the file of the capture, that of the store, and, if it didn't begin new, that of
the store at rest that it began from, as

  1,127.0.0.1:4059,m1.pcap,m1.fw
  2,127.0.0.1:4060,m2.pcap,m2.fw,before.fw

No path has a comma, and each leads from the folder where the command is run.
Empty lines say nothing.

A meter may have been killed at any moment, any number of times, and started
again. A capture has all that it did and all that came to it, since it began. A
meter that began new was made with what --block-size, --capacity and
--factory-file say, as of `meter`. With --head just the addresses that are given
may ask, each as captures have it.

--head-log has the address of a head end, its capture and its book, which is as
one of --book. Then FILE has a line for each meter that it asked, and each end
has the address that the others see, so none listens at 0.0.0.0 or [::]. All
captures are in memory at once. No clock is asked, and nothing of what was lost.

A capture is plain, but for that of a meter with keys, which is sealed. --keys
opens that: it has the address of a head end, as captures of meters have it, its
number, and its key file, as of `head --keys`. A meter that such a file has a
link with is one with keys, and any other has none. What came to it and doesn't
open, or came again, it passed over. With --strict these meters ran with it too.
Captures of head ends aren't opened, so --keys isn't taken with --head-log.
Without --keys a sealed capture doesn't fit. While a meter verifies it takes a
turn where it passes something over: captures of earlier releases have no note
of that, and may not fit though all is well.

Meters of one process, as with --count, have one capture: each has a line with
it. What a power cut left of a last packet is left out, as the meter cuts it off
when it starts again. If a meter ran without --capture in between, that doesn't
fit once it shows.

Standard output gets these lines:

  audited KIND PATH SHA256
      of each file that is read: a book, a capture, a store, or the journal
      beside a store
  cut PATH N bytes
      a power cut left them at the end of this capture; they are left out
  passed PATH N datagrams
      of what came in this sealed capture so many say nothing: they don't open,
      or came again
  meter N ok D datagrams S starts
      the capture and the store of this meter fit
  activated N HEAD SERIAL RELEASE SHA256
      it switched to this image; in order
  head HEAD ok D datagrams S starts
      the capture of this head end fits its book
  order ok E ends O others
      what came to these ends from one of them was sent before; that many
      datagrams came from others
  departs RULE PATH RECORD OFFSET meter N: WHY
      its capture is none of this meter from this record on, counted from 0,
      which begins at OFFSET; or what came in this record wasn't sent before
  departs FAULT PATH OFFSET meter N: WHY
      its capture can't be read on there; `trace --help` has the faults
      (of a head end both have `head HEAD`, and 0 if its book has no record)
  departs RULE PATH: WHY
      its store holds no meter, or none that has this capture
  departs RULE N HEAD SERIAL RELEASE SHA256: WHY
      it switched to this image, which no book offers so
  departs RULE BOOK HEAD SERIAL N: WHY
      the first row of a book that is done, and its meter didn't switch, or
      nothing came to the head end that claims so
  ok
      last: all fits
  departs N
      last: N meters, books, head ends and orders don't fit

For a record RULE is NotStarted, NothingVerified, NothingOwed, OtherReply or
ReplyMissing, for what no meter does; NotSealed, NoKey or CounterUsed, where a
meter with keys sent what it didn't seal, or to an end that it has no link with,
or with a counter that it had used; NotOffered, for what no head end with this
book sends there; NoEntry, Elsewhere, ToItself, UnnamedTurn, StartedAsMeter or
NoteOfMeter, for a packet that is of no end with this capture; StartedAsHead or
OtherHeads, where a head end started, or meters with other addresses of --head;
NeverSent, for what no end sends there; or SentLater, for what is sent only
after something that needs it. For a store it is OtherStore, ForeignUndo,
BadFile, BadHeader or BadImage; for a book NoBook, if it has no record; for a
switch NotOffered, OtherBytes, OtherName or ReleaseFell; for a row NotAudited,
where its meter has no line or doesn't fit, DoneNotActivated or NotClaimed.

With `--report json` each line is an object of JSON with the same.

That all fits means that the files tell of meters and head ends, and not that
they are genuine: whoever can change all of them can make others that fit.

Examples, meters of a head end, those of one with keys, and of two with their
captures:

  ./dlmsfw audit --audited audited.csv --book head.book
  ./dlmsfw audit --audited audited.csv --book head.book \\
    --keys 10.0.0.1:4058,7,head.keys
  ./dlmsfw audit --audited audited.csv --head 10.0.0.1:4058 \\
    --head 10.0.0.2:4058 --head-log 10.0.0.1:4058,7.pcap,7.book \\
    --head-log 10.0.0.2:4058,8.pcap,8.book";

/// What ends the long help.
const ENDINGS: &str = "\
Exit status:
  0  all that was found fits
  1  something doesn't, as a line says. Or a fault: standard error has
     `dlmsfw: NAME`, with one of these names, and a second line with the file,
     and the cause behind it, if that is known
       ListFault     FILE can't be read, or is no text
       BadList N     line N of FILE, counted from 1, has no meter's number,
                     address and paths, or an earlier line has its number
       BookFault     a book can't be read
       BadBook N     the bytes of a book from offset N on are none
       BadRecord N   record N of a book, counted from 0, has no place in it
       CaptureFault  a capture can't be read
       StoreFault    a store can't be read, or the .journal beside it
       KeysFault     a key file can't be read, is no regular file, or has more
                     than 64 MiB
       KeysReadable  others than its owner may read or write a key file
       BadKeys L CAUSE
                     line L of a key file, counted from 1, is none of it;
                     `meter --help` has the causes
       FactoryFault  the file of --factory-file can't be read
       BadSetup      no meter can be made with --capacity and the factory image:
                     that is empty, or longer
       Output        standard output can't be written, as on a full disk
       OutOfMemory   the system gives no more memory
  2  a wrong command line: standard error says what is wrong";

/// The command and its options.
const MANUAL: &Manual = &Manual {
    name: "audit",
    about: "Says whether what is found of meters and head ends fits",
    options: &[
        CommandOption {
            name: "audited",
            takes: Takes::Text("FILE"),
            presence: Presence::Required,
            help: "The file that lists the meters with their files",
        },
        CommandOption {
            name: "book",
            takes: Takes::Texts("BOOK"),
            presence: Presence::Optional,
            help: "A book, once for each; without one no switch and no row is compared",
        },
        CommandOption {
            name: "head",
            takes: Takes::Texts("ADDR:PORT"),
            presence: Presence::Optional,
            help: "An address that may ask them, once for each; without it any may",
        },
        CommandOption {
            name: "head-log",
            takes: Takes::Texts("ADDR,CAPTURE,BOOK"),
            presence: Presence::Optional,
            help: "The address of a head end, its capture and its book, once for each",
        },
        CommandOption {
            name: "keys",
            takes: Takes::Texts("ADDR,N,KEYS"),
            presence: Presence::Without("head-log"),
            help: "The address of a head end, its number and its key file, once for each",
        },
        CommandOption {
            name: "strict",
            takes: Takes::Nothing,
            presence: Presence::With("keys"),
            help: "The meters took only what was sealed after all that was taken before",
        },
        CommandOption {
            name: "block-size",
            takes: Takes::Within("BYTES", 1, MAX_BLOCK_SIZE),
            presence: Presence::Default("1024"),
            help: "Bytes per block of a meter that began new, 1 to 1024",
        },
        CommandOption {
            name: "capacity",
            takes: Takes::Within("BYTES", 1, MAX_IMAGE_SIZE),
            presence: Presence::Default("1048576"),
            help: "Bytes of its longest image, 1 to 16777216,\nin at most 16384 blocks",
        },
        CommandOption {
            name: "factory-file",
            takes: Takes::Text("FILE"),
            presence: Presence::Optional,
            help: "The file of the image that it ran; `abc` without it",
        },
        CommandOption {
            name: "report",
            takes: Takes::OneOf("FORM", FORMS),
            presence: Presence::Default(LINES),
            help: "The form of the lines",
        },
    ],
};

/// The parser of the command.
pub(super) fn command<'a>(alloc: Global) -> Result<Command<'a>, AllocError> {
    manual::command(alloc, MANUAL, ABOUT, ENDINGS)
}

/// The command with the options that were given. The parser lets none of the others lack.
pub(super) fn invoked<'a>(
    alloc: Global,
    given: &ArgMatches<'a>,
) -> Result<Option<Invocation<'a>>, WrongValue<'a>> {
    let Some(audited) = given.get_str("audited") else {
        return Ok(None);
    };
    let (Some(block_size), Some(capacity)) = (
        given.get_one("block-size"),
        given.get_one("capacity"),
    ) else {
        return Ok(None);
    };
    let Some(report) = form_of(given) else {
        return Ok(None);
    };
    Ok(Some(Invocation::Audit(AuditOptions {
        audited,
        books: Vec::from_slice(alloc, given.get_strs("book").unwrap_or(&[]))?,
        head_logs: head_logs_of(alloc, given.get_strs("head-log").unwrap_or(&[]))?,
        keys: keys_of(alloc, given.get_strs("keys").unwrap_or(&[]))?,
        order: order_of(given),
        heads: heads_of(alloc, given.get_strs("head").unwrap_or(&[]))?,
        fresh: FreshMeter {
            block_size,
            capacity,
            factory_file: given.get_str("factory-file"),
        },
        report,
    })))
}

/// The form of the lines.
fn form_of(given: &ArgMatches<'_>) -> Option<AuditForm> {
    match given.get_str("report")? {
        LINES => Some(AuditForm::Lines),
        JSON => Some(AuditForm::Json),
        _ => None,
    }
}

/// The head ends that are audited.
fn head_logs_of<'a>(alloc: Global, texts: &[&'a str]) -> Result<Vec<HeadLog<'a>>, WrongValue<'a>> {
    let mut logs = Vec::new(alloc);
    for text in texts {
        logs.push(head_log(*text)?)?;
    }
    Ok(logs)
}

/// The head end that a text has.
fn head_log<'a>(text: &'a str) -> Result<HeadLog<'a>, WrongValue<'a>> {
    match HeadLog::from_text(text) {
        Some(log) => Ok(log),
        None => Err(WrongValue::NoHeadLog {
            option: "head-log",
            text,
        }),
    }
}

/// The key files of head ends.
fn keys_of<'a>(alloc: Global, texts: &[&'a str]) -> Result<Vec<KeyOption<'a>>, WrongValue<'a>> {
    let mut keys = Vec::new(alloc);
    for text in texts {
        match KeyOption::from_text(*text) {
            Some(option) => {
                if keys.push(option).is_err() {
                    return Err(WrongValue::OutOfMemory);
                }
            }
            None => {
                return Err(WrongValue::NoKeyFile {
                    option: "keys",
                    text: *text,
                });
            }
        }
    }
    Ok(keys)
}

/// The addresses that may ask.
fn heads_of<'a>(alloc: Global, texts: &[&'a str]) -> Result<Vec<SocketAddr>, WrongValue<'a>> {
    let mut heads = Vec::new(alloc);
    for text in texts {
        heads.push(address("head", *text)?)?;
    }
    Ok(heads)
}
