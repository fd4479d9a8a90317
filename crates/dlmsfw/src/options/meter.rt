//! The command `meter`, and its help.

use super::manual::{CommandOption, Manual, Presence, Takes};
use super::{
    DAEMON_CAPTURE, DAEMON_CAPTURE_STRANGERS, Invocation, KEYS, NEW_COUNTER, STRICT, WrongValue,
    address, manual, sealing_of,
};
use clap::{ArgMatches, Command};
use fw_blocks::{MAX_BLOCK_SIZE, MAX_IMAGE_SIZE};
use fw_cli::MeterOptions;
use fw_host::NewMeter;
use std::alloc::{AllocError, Global};
use std::net::{IpAddr, SocketAddr};

/// What the long help begins with.
const ABOUT: &str = "\
Runs a meter that answers datagrams over UDP until it is ended, which it may be
at any moment.

A datagram is the wrapper of IEC 62056-4-7 around a request of IEC 62056-5-3, as
of `answer`, and its reply goes to where it came from. Where nothing comes, and
also between two datagrams while the meter verifies an image, it takes a turn,
so it verifies each image.

The meter is in FILE of --store, and stays there for the next run. Where no such
file is there, it is made as FILE.new with a new meter, and named FILE once it
is whole. Where one is, its meter goes on as after a power cut, and
--block-size, --capacity and --factory-file are ignored. One process at a time
has a FILE.

With --head just the addresses that are given may ask, each compared whole, with
its port. A datagram from elsewhere is dropped. An address is IPv4 or IPv6, as
127.0.0.1:4059 or [::1]:4059, and those of --head are of the family of --listen;
only at [::] an IPv4 address may ask too. Port 0 of --listen is one that the
system picks.

With --count N there are N meters in one process, a fleet to try a head end on:
meter K receives at PORT and K - 1 more, and is in FILE.K. What was dropped is
that of all. Each needs three open files, which the system may limit
(`ulimit -n`). If one can't be set up, none serves; new files that were made by
then stay. With --keys there is one meter, without --count.

With --keys KEYS all that is sent is sealed, and what is taken was sealed by a
head end of KEYS: with AES-128-GCM, as security suite 0 of IEC 62056-5-3 has it.
A datagram that isn't, plain ones too, is dropped, and so is one that came
already. The first line of KEYS is the meter's system title in 16 hexadecimal
digits. Each other line is that of a link with a head end: its address, its
system title, and the encryption key and the authentication key in 32
hexadecimal digits each, as
`127.0.0.1:4058,4b5a424800000007,KEY,AUTHENTICATION`. At [::] an IPv4 head end
is heard too. Only its owner may read KEYS, which is no link and has no second
name. `keys --help` has how such files are made.

What is sent with a key has a number, and none may be used twice. KEYS.counter
keeps which are used, and --new-counter makes it: for keys that were never used,
and not for each new FILE. One process at a time has it. A KEYS.counter that was
copied back, or made anew for keys that were used, gives them away, and so does
a copy of KEYS; where it is lost, the meter needs new keys. Where KEYS is
renamed, it is renamed too. A datagram is taken that less than 64 later ones
overtook; with --strict none is.

A file is made once all is judged: each address, KEYS, each FILE that is there,
KEYS.counter, and what a new meter is made with. CAPTURE comes first then, a new
KEYS.counter next, and each new FILE last. With --keys CAPTURE has what was on
the wire, sealed.

With --capture CAPTURE all that is received and sent is appended to CAPTURE as
pcap, which Wireshark and `trace` read: each datagram before it is handled or
sent, and so its reply isn't sent where CAPTURE can't be written. If no such
file is there, it is made. One that is there must be such a capture, and what is
no whole packet at its end is cut off, as a power cut or a full disk leaves it.
The start of the process is a packet of its own, once each FILE is open, and so
is each address of --head behind it, and each turn of a verification. Of
datagrams from addresses that may not ask just their number is a packet, before
the next one, unless --capture-strangers is given. A process that is killed
leaves whole packets. A power cut may take those of the last two seconds. One
process at a time has a CAPTURE.

Standard output gets these lines, each at once, of which one that can't be
written is lost, except for the first:

  listening ADDR:PORT
      datagrams are received there
  refused HEAD SERIAL RELEASE SIZE: WHY
      an image_transfer_initiate was refused: the head end and the serial number
      of the campaign of the image, its release, its size in bytes, and why, as
      `trace` has it; where it has no name, `- - -` stands in its place
  store failed at WHAT
      hardware-fault was answered, or a verification given up: WHAT is enable,
      initiate, block N, verify or activate
  verified HEAD SERIAL RELEASE DIGEST
      the image is there and has this SHA-256, in lower-case hexadecimal
  differs HEAD SERIAL RELEASE DIGEST
      it is there, and hasn't
  activated HEAD SERIAL RELEASE DIGEST
      the meter switched to it
  dropped strangers S unserved U faults F
      where these grew, once a minute at most: the datagrams from addresses that
      may not ask, those for which memory was refused, and how often the socket
      failed, since the meter was started; with --keys, `unopened N` after it
      says how many weren't let through, where there were any

With --count all but the first and the last kind begin with `meter K`. Of a
request that asks for no response only what it verified or activated is told. Of
`refused` and `store failed` there are 60 lines a minute at most; `untold N` at
the end of `dropped ..` says how many were left out.

Example, in two terminals, a GET of image_transfer_status, which is 0 in a new
meter:

  ./dlmsfw meter --listen 127.0.0.1:4059 --store meter.fw

  python3 -c \"import socket; \\
    s = socket.socket(socket.AF_INET, socket.SOCK_DGRAM); \\
    s.sendto(bytes.fromhex('000100010001000dc001c1001200002c0000ff0600'), \\
      ('127.0.0.1', 4059)); \\
    print(s.recv(9999).hex())\"

prints

  0001000100010006c401c1001600";

/// What ends the long help.
const ENDINGS: &str = "\
Exit status:
  0  none: a meter has no end of its own
  1  a fault: standard error has `dlmsfw: NAME`, with one of these names, and a
     second line with the option that it is about; with --count, FILE is FILE.K
     of meter K, which has the fault, and after the address of the first meter
     stands `, meter K`. If the cause is known, the second line goes on with
     `: ` and the cause, and before it the name of the file that is meant, if
     that is the one beside FILE or CAPTURE:
     `--store FILE: FILE.new: it is another program's file`. So has
     KEYS.counter: `--keys KEYS: KEYS.counter: there is no such file or folder`
       Socket        datagrams can't be received at --listen: it is in use, this
                     machine has no such address, there is no such port, this
                     user has no right to it, or a process may not have that
                     number of open files; no file was made. Or the socket
                     failed 1000 times in a row later, without a cause
       StoreFault    FILE can't be opened or made: another process has it, there
                     is no such folder, FILE is a folder or a link or has a
                     second name, this user may not read and write it, the disk
                     is full or may only be read, too many files are open,
                     FILE.journal can't be made beside it, or what is named
                     FILE.new or FILE.journal isn't the meter's; that stays as
                     it is
       Fault         the disk failed: FILE can't be read, or its header of
                     version 1 can't be written in version 2
       BadFile       FILE hasn't the length that it begins with: it is empty or
                     another program's, or it was cut
       BadHeader     FILE has no header that a meter writes: its bytes were
                     changed
       BadImage      an image in FILE, which runs or is verified, hasn't the
                     digest of its name: its bytes were changed
       KeysFault     KEYS can't be opened or read: it isn't there, it is a
                     folder or a link or has a second name, or this user has no
                     right to it
       KeysReadable  others than its owner have a right to KEYS:
                     `chmod 600 KEYS` takes it away
       BadKeys L CAUSE
                     line L of KEYS, counted from 1, is none of it: BadTitle
                     (the first has no title), BadFields, BadName (no address
                     with a port), TitlesEqual (the other end has the title of
                     this one), KeyTwice or NameTwice (an earlier line has it)
       NoCounter     KEYS.counter isn't there, and --new-counter isn't given.
                     Where it is lost, both ends need new keys; where KEYS was
                     renamed, it is renamed too
       CounterExists KEYS.counter is there, and --new-counter is given: the
                     meter goes on without that option. KEYS.counter isn't
                     removed while its keys are used
       CounterLocked another process has KEYS.counter: no two seal with one KEYS
       CounterFault  KEYS.counter can't be made, opened or read, as where this
                     user may not write beside KEYS, or holds no numbers: its
                     bytes were changed; no new FILE was made. Or it can't be
                     written later, without a cause
       CounterSpent  all 4294967295 numbers are used: the meter needs new keys
       FactoryFault  FILE isn't there, and the file of --factory-file can't be
                     read: it isn't there either, it is a folder, or this user
                     has no right to it
       BadSetup      FILE isn't there, and the factory image is empty or longer
                     than the capacity; the second line has --factory-file if it
                     is given, and --capacity if not
       CaptureFault  CAPTURE can't be made, opened or written: another process
                     has it, there is no such folder, it is a folder or a link
                     or has a second name, this user may not read and write it,
                     too many files are open, what is named CAPTURE.new is
                     another program's file, or the disk is full, as it may be
                     at a later datagram too, which is dropped
       ForeignCapture
                     CAPTURE is there, and isn't a capture that a meter or a
                     head end began, or a packet before its end is damaged; it
                     is left as it is
       Output        the first line can't be written to standard output
       OutOfMemory   the system gives no more memory
     Except at a Socket, a CaptureFault, a CounterFault or a CounterSpent that
     came later nothing was answered.
  2  a wrong command line: standard error says what is wrong";

/// The command and its options.
const MANUAL: &Manual = &Manual {
    name: "meter",
    about: "Runs a meter that answers datagrams over UDP until it is ended",
    options: &[
        CommandOption {
            name: "listen",
            takes: Takes::Text("ADDR:PORT"),
            presence: Presence::Required,
            help: "The address that datagrams are received at",
        },
        CommandOption {
            name: "store",
            takes: Takes::Text("FILE"),
            presence: Presence::Required,
            help: "The file that has the meter, made where it isn't there",
        },
        CommandOption {
            name: "head",
            takes: Takes::Texts("ADDR:PORT"),
            presence: Presence::Optional,
            help: "An address that may ask, once for each; without it any may",
        },
        CommandOption {
            name: "block-size",
            takes: Takes::Within("BYTES", 1, MAX_BLOCK_SIZE),
            presence: Presence::Default("1024"),
            help: "Bytes per block of an image transfer, 1 to 1024,\nof a new meter",
        },
        CommandOption {
            name: "capacity",
            takes: Takes::Within("BYTES", 1, MAX_IMAGE_SIZE),
            presence: Presence::Default("1048576"),
            help: "Bytes of its longest image, 1 to 16777216,\nin at most 16384 blocks",
        },
        CommandOption {
            name: "factory-file",
            takes: Takes::Text("FILE"),
            presence: Presence::Optional,
            help: "The file whose bytes are the image that it runs,\n1 byte to the capacity; without it `abc`",
        },
        CommandOption {
            name: "count",
            takes: Takes::Within("N", 1, 4_096),
            presence: Presence::Without("keys"),
            help: "Runs meters 1 to N, 4096 at most, at ports from PORT on",
        },
        KEYS,
        NEW_COUNTER,
        STRICT,
        DAEMON_CAPTURE,
        DAEMON_CAPTURE_STRANGERS,
    ],
};

/// The parser of the command.
pub(super) fn command<'a>(alloc: Global) -> Result<Command<'a>, AllocError> {
    manual::command(alloc, MANUAL, ABOUT, ENDINGS)
}

/// The command with the options that were given. The parser lets none of the others lack.
pub(super) fn invoked<'a>(
    alloc: Global,
    given: &ArgMatches<'a>,
) -> Result<Option<Invocation<'a>>, WrongValue<'a>> {
    let (Some(listen), Some(store)) = (given.get_str("listen"), given.get_str("store")) else {
        return Ok(None);
    };
    let (Some(block_size), Some(capacity)) = (
        given.get_one("block-size"),
        given.get_one("capacity"),
    ) else {
        return Ok(None);
    };
    let listen = address("listen", listen)?;
    Ok(Some(Invocation::Meter(MeterOptions {
        listen,
        heads: heads_at(alloc, listen, given.get_strs("head").unwrap_or(&[]))?,
        store,
        fresh: NewMeter {
            block_size,
            capacity,
            factory_file: given.get_str("factory-file"),
        },
        count: given.get_one("count"),
        capture: given.get_str("capture"),
        captures_strangers: given.get_flag("capture-strangers"),
        sealing: sealing_of(given),
    })))
}

/// The addresses that may ask, as datagrams have them that come to a socket at `listen`.
fn heads_at<'a>(
    alloc: Global,
    listen: SocketAddr,
    texts: &[&'a str],
) -> Result<Vec<SocketAddr>, WrongValue<'a>> {
    let mut heads = Vec::new(alloc);
    for text in texts {
        heads.push(head_at(listen, *text)?)?;
    }
    Ok(heads)
}

/// The address that the value of --head is. To a socket at all IPv6 addresses an IPv4 one comes as the IPv4-mapped address (RFC 4291,
/// 2.5.5.2).
fn head_at<'a>(listen: SocketAddr, text: &'a str) -> Result<SocketAddr, WrongValue<'a>> {
    let head = address("head", text)?;
    match (listen.ip(), head.ip()) {
        (IpAddr::V4(_), IpAddr::V4(_)) | (IpAddr::V6(_), IpAddr::V6(_)) => Ok(head),
        (IpAddr::V6(own), IpAddr::V4(ip)) if own.is_unspecified() => {
            Ok(SocketAddr::new(IpAddr::V6(ip.to_ipv6_mapped()), head.port()))
        }
        _ => Err(WrongValue::OtherFamily {
            option: "head",
            text,
        }),
    }
}
