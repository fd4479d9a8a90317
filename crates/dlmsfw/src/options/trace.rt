//! The command `trace`, and its help.

use super::manual;
use super::manual::{CommandOption, Manual, Presence, Takes};
use clap::{ArgMatches, Command};
use fw_names::HeadId;
use std::alloc::{AllocError, Global};

/// What the long help begins with.
const ABOUT: &str = "\
Tells what went over the wire: a line for each UDP datagram of a capture, in the
words of a trace of `replay`.

CAPTURE is a file in the classic form of pcap, as of tcpdump, with microseconds
or nanoseconds, and with the link type Ethernet, Linux cooked capture or raw IP.
`tcpdump -w FILE udp port 4059` makes one, and `editcap -F pcap` makes one of a
file in the form pcapng.

Standard output gets `N FROM -> TO  WORDS` for each datagram: its number, from 0
on, the addresses and ports that it came from and went to, and what it says. A
request is for a meter, and anything else for a head end. One for what no meter
of dlmsfw has is told by class, instance and attribute, as
`get class 3 1-0:1.8.0.255 attribute 2`, and so is one with a parameter of
another shape. One that can't be read is `? (N bytes), FAULT`: its leftmost
fault, of the wrapper, of the APDU or of a Data in it, as `APDU Truncated`. A
note of dlmsfw has a line too. `start meter count K heads N` is where a process
of meters started, K of --count, and 0 without it; N addresses may ask them, or
any if N is 0, and each has `may ask ADDR:PORT` behind it. `start head H` is
where head end H started; older captures have `start` for both. `turn PORT` is
where the meter of that port took a turn of a verification, as older captures
have it `turn`. `unserved PORT`: memory was refused to the meter of that port
for the datagram before. `strangers N`: so many datagrams came from strangers
since the packet before, and aren't there. Other packets are passed over:
fragments, and those that aren't UDP over IP. The capture may be of any length:
one packet is in memory at a time, and its line is written before the next one
is read. So `tcpdump -U -w - udp port 4059 | ./dlmsfw trace` tells what goes
over the wire as it goes.

With --times each line begins with the time of its packet, as
`2026-11-30T08:22:12.000007Z`: RFC 3339, in UTC and with microseconds.
`tshark -t ud` shows the same times.

`sealed N unopened (K bytes)` is a datagram in the form of what is sealed, with
its invocation counter N. With --keys and --head what either end of a link in
KEYS sealed is opened, and `sealed N` stands before what it says. What stays
unopened then is of another link, or was changed. The links are tried one after
another until one opens a datagram, so with those of thousands of meters it
takes long.

With --plain the capture is written once more, with what was opened in the place
of what was sealed: Wireshark and others need no keys for it. OUT has what was
secret, so it is a new file, and no one but its owner may read it. Packets that
have no line aren't there.

Examples:

  ./dlmsfw trace examples/transfer.pcap
  ./dlmsfw trace --times examples/transfer.pcap
  ./dlmsfw trace --keys head.keys --head 7 --plain plain.pcap sealed.pcap";

/// What ends the long help.
const ENDINGS: &str = "\
Exit status:
  0  the capture was told
  1  a fault: standard error has `dlmsfw: NAME`, with one of these names. If it
     is about a file, a second line has its name, and behind it the cause, if
     that is known
       KeysFault          KEYS can't be opened or read, is no regular file, or
                          has more than 64 MiB
       KeysReadable       others than its owner may read or write KEYS
       BadKeys L CAUSE    line L of KEYS, counted from 1, is none of it;
                          `meter --help` has the causes
       CaptureFault       CAPTURE can't be opened: it isn't there, this user has
                          no right to it, or too many files are open. Or OUT
                          can't be made or written: a file is there, there is no
                          such folder, or the disk is full. Or a packet is
                          longer than 65535 bytes
       Input              a read of CAPTURE or of standard input failed, as
                          where it is a folder
       BadCapture F N     its first fault is F, in the record at offset N, or in
                          the file header at 0
       Output             standard output can't be written, as on a full disk
       OutOfMemory        the system gives no more memory
     Except at Output, what stands before it in the capture was told.
     F is ShortHeader, Pcapng, BadMagic, BadVersion, UnknownLink, ShortRecord,
     BadFraction, CutPacket, ShortLink, BadIpVersion, ShortIp, BadIpHeader,
     BadIpLength or BadUdpLength. CutPacket is a packet that the capture ends
     in, or that says that it has more than 64 MiB.
  2  a wrong command line: standard error says what is wrong";

/// The command and its options.
const MANUAL: &Manual = &Manual {
    name: "trace",
    about: "Tells what the datagrams of a capture say",
    options: &[
        CommandOption {
            name: "capture",
            takes: Takes::Argument("CAPTURE"),
            presence: Presence::Optional,
            help: "The file that has the capture; standard input if left out",
        },
        CommandOption {
            name: "times",
            takes: Takes::Nothing,
            presence: Presence::Optional,
            help: "Begins each line with the time of its packet, in UTC",
        },
        CommandOption {
            name: "keys",
            takes: Takes::Text("KEYS"),
            presence: Presence::With("head"),
            help: "The key file of a head end, which opens what was sealed",
        },
        CommandOption {
            name: "head",
            takes: Takes::Within("N", 1, u32::MAX),
            presence: Presence::With("keys"),
            help: "The number of the head end, 1 to 4294967295",
        },
        CommandOption {
            name: "plain",
            takes: Takes::Text("OUT"),
            presence: Presence::With("keys"),
            help: "The new file that gets the capture with what was opened",
        },
    ],
};

/// The parser of the command.
pub(super) fn command<'a>(alloc: Global) -> Result<Command<'a>, AllocError> {
    manual::command(alloc, MANUAL, ABOUT, ENDINGS)
}

/// The options of the command.
#[derive(Clone, Copy)]
pub(crate) struct TraceOptions<'a> {
    /// The file that has the capture; where it lacks, standard input has it.
    pub(crate) capture: Option<&'a str>,
    /// Whether a line begins with a time.
    pub(crate) times: bool,
    /// The key file, if one is given, with the number of its head end.
    pub(crate) keys: Option<&'a str>,
    pub(crate) head: Option<HeadId>,
    /// The file that gets the capture in plain words, if one is asked for.
    pub(crate) plain: Option<&'a str>,
}

/// The options that were given.
pub(super) fn options<'a>(given: &ArgMatches<'a>) -> TraceOptions<'a> {
    TraceOptions {
        capture: given.get_str("capture"),
        times: given.get_flag("times"),
        keys: given.get_str("keys"),
        head: head_of(given),
        plain: given.get_str("plain"),
    }
}

/// The number of the head end that is given.
fn head_of<'a>(given: &ArgMatches<'a>) -> Option<HeadId> {
    HeadId::new(given.get_one("head")?)
}
