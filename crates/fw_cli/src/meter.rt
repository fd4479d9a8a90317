//! The command `meter`: a meter in a file answers datagrams over UDP until it is ended.

ghost use Rattle.std.specs.Prelude.{◌≡◌, ◌≢◌, ◌∷◌, [], Bool, None, Some, IfErr, IfOk, IsErr, OnOk, false};
ghost use Rattle.std.specs.Io.KnownBytes.{Appends, Keeps};
ghost use Rattle.std.specs.declared.net.socket_addr.SocketAddr.{SocketAddr as Address};
ghost use Rattle.fw_daemon.specs.Daemon.{daemon_of};
ghost use Rattle.fw_daemon.specs.Rounds.{listed};
ghost use Rattle.fw_host.specs.Meters.{listening_line};
ghost use Rattle.fw_host.specs.Strangers.{is_strange, is_stranger};
ghost use Rattle.fw_host.specs.Telling.{Told};
ghost use Rattle.fw_cli.specs.MeterErrors.{IsBroughtBy, IsOfServing, NamesMeter, count_of, meter_of_closing};
ghost use Rattle.fw_cli.specs.Sealing.{IsMeterSealing, links_in};
ghost use Rattle.fw_cli.specs.Telling.{IsSaid, TellsRounds, happenings_by, lack_of, lines_of};

use crate::capture_file::{CaptureFile, closing, end_capture, failure_of, start_meters};
use crate::error::{ClosingError, TellingError};
use crate::fleet::serve_fleet;
use crate::fleet_watch::FleetWatch;
use crate::judged::Judge;
use crate::limit::{Limit, is_due};
use crate::meter_error::{MeterError, MeterFailure};
use crate::noted_serving::serve_noted;
use crate::sealing::{JudgedSealing, keyed_meter};
use fw_daemon::{Dropped, MeterDaemon, MeterEvent, Watch};
use fw_disk::Because;
use fw_faults::write_text;
use fw_host::{
    CapturePort, ClosedBy, DatagramPort, Lines, NewMeter, Sealing, SealingOptions, Strangers,
    SyncedSink, listening_line,
};
use fw_journal::FileDevice;
use fw_port::{Closed, SocketError, UdpPort};
use fw_sealport::SealedPort;
use fw_store::FileStore;
use std::alloc::{AllocError, Global};
use std::fs::File;
use std::io::Write;
use std::net::{Net, SocketAddr};
use std::rt::{Clock, Files};
use std::sync::Wait;
use std::time::Instant;

/// The options of the command.
#[derive(Drop)]
pub struct MeterOptions<'a> {
    /// The address that datagrams are received at.
    pub listen: SocketAddr,
    /// The addresses that may ask, and any if none is given.
    pub heads: Vec<SocketAddr>,
    /// The path of the file that has the meter.
    pub store: &'a str,
    /// What a new meter is made with. If a file is there, this isn't looked at.
    pub fresh: NewMeter<'a>,
    /// How many meters there are, at least 1. Without a number there is one, at just this address and in just this file.
    pub count: Option<u32>,
    /// The path of the file of the capture, if one is asked for.
    pub capture: Option<&'a str>,
    /// Whether it has the datagrams of addresses that may not ask too.
    pub captures_strangers: bool,
    /// What its links are sealed with, where keys are given. There is one meter then, whatever the count.
    pub sealing: Option<SealingOptions<'a>>,
}

/// The meter in a file answers datagrams over UDP until the process is ended, at any moment. If no file is there, it is made.
///
/// With a count K there are meters 1 to K: meter N receives at the port of the options and N - 1 more, and its file is that of the options
/// with `.N` after it.
///
/// If a capture is asked for, its file is gone on with, or made if no file is there. It gets the start of the process, once each meter's file is
/// open, with the addresses that may ask; what is received and sent, each before it is handled or sent; and each turn of a verification. What
/// comes from addresses that may not ask is counted in it, unless that is asked for too. The disk has it about a second later, and at the end.
///
/// With keys there is one meter, and each datagram that it takes and sends is sealed, on one of the links of the file of its keys. What comes
/// from elsewhere, or doesn't open, is dropped. The counters of what it sends are in the file of its keys with `.counter` after it, whatever
/// the file of the meter is.
///
/// All sockets are bound first, and keys are read. Then each meter's file that is there is opened, what new meters are made with is judged,
/// and counters that are there are opened. The file of the capture comes next, then a new one of counters, and new files of meters last.
///
/// The writer gets the line `listening ..`, once datagrams are received, `verified ..`, `differs ..` and `activated ..` for each image that the
/// meter verifies or switches to, `refused ..` for an initiate that it refuses, `store failed ..` where its store failed, and `dropped ..` where
/// more was dropped, once a minute at most. Of refusals and failures there are 60 lines a minute at most; `dropped ..` counts those that were left
/// out. With a count, lines of a meter begin with `meter N`. Each is flushed. After the first, a line that can't be written is lost.
///
/// # Errors
///
/// It ends by one of these alone, with the number of the meter that couldn't be set up, if there is a count, and with why its file or that
/// of the capture was refused, if that is known.
///
/// - `Socket`: the address can't be received at, or is past port 65,535. No file was made. Or the socket failed 1,000 times in a row while
///   the meter served.
/// - `StoreFault`: the file can't be opened, or another store has it open; no file of a meter was made. Or it can't be made.
/// - `Device`, which prints `Fault`: the file can't be read, or its header not be written in version 2.
/// - `BadFile`, `BadHeader` or `BadImage`: the file holds no meter. It is left as it is.
/// - `KeysFault`, `KeysReadable`, `BadKeys`: the file of the keys can't be opened or read, others than its owner may read it, or this line is
///   none of it. No file was made.
/// - `NoCounter`, `CounterExists`: no file of counters is there and none is to be made, or one is there and is to be made. No file was made.
///   `CounterLocked`: another process has it, whatever meter it is: one at a time seals with these keys.
/// - `CounterFault`: it can't be made, opened or read, or holds no counters; no file of a meter was made. Or it can't be written while the
///   meter serves, and nothing is sent from then on.
/// - `CounterSpent`: all counters are used, and nothing is sent from then on.
/// - `FactoryFault`: no file is there, and the one of the factory image can't be read. No file was made.
/// - `BadSetup`: no file is there, and the options describe no meter. No file was made.
/// - `CaptureFault`: the file of the capture can't be made or opened, or another process has it. No file of a meter was made. Or a record
///   can't be written once the meter is there: what it is of wasn't handled or sent. Or the records can't be put on the disk.
/// - `ForeignCapture`: the file holds something else than a capture of a daemon. It is left as it is, and no file of a meter was made.
/// - `Output`: the first line can't be written.
/// - `OutOfMemory`: it didn't serve.
pub fn run_meter<R: Files<File = File> + Clock + Eprint + Net + Wait, W: Write>(
    rt: &R,
    alloc: Global,
    writer: &mut W,
    options: MeterOptions<'_>,
) -> Result<(), MeterFailure>
    ensures ends { IsErr result }
    ensures number { IfErr result (NamesMeter (count_of options.entry)) }
    ensures silent { IfErr result (λ e. e.error ≢ MeterError.Socket → e.error ≢ MeterError.Output → e.error ≢ MeterError.CaptureFault
        → e.error ≢ MeterError.CounterFault → e.error ≢ MeterError.CounterSpent → Keeps (W.contents writer.old) (W.contents writer.new)) }

    // Options that describe no meter, a capture and sealed links: what is of these comes where they are given alone.
    ensures asked { IfErr result (λ e. IsBroughtBy options.entry e.error) }
{
    match options.count {
        Some(count) if options.sealing.is_none() => serve_fleet(rt, alloc, writer, &options, count),
        _ => serve_one(rt, alloc, writer, &options),
    }
}

/// The command for one meter.
fn serve_one<R: Files<File = File> + Clock + Eprint + Net + Wait, W: Write>(
    rt: &R,
    alloc: Global,
    writer: &mut W,
    options: &MeterOptions<'_>,
) -> Result<(), MeterFailure>
    ensures ends { IsErr result }
    ensures number { IfErr result (λ e. e.number ≡ None) }
    ensures silent { IfErr result (λ e. e.error ≢ MeterError.Socket → e.error ≢ MeterError.Output → e.error ≢ MeterError.CaptureFault
        → e.error ≢ MeterError.CounterFault → e.error ≢ MeterError.CounterSpent → Keeps (W.contents writer.old) (W.contents writer.new)) }
    ensures asked { IfErr result (λ e. IsBroughtBy options.now e.error) }
{
    let port = Listening::of(UdpPort::bind(rt, options.listen))?;
    let keyed = keyed_meter(rt, alloc, options.listen, options.sealing)?;
    let mut judge = Judge::of(options.fresh);
    let judged = judge.meter(rt, alloc, options.store)?;
    let links = JudgedSealing::of(rt, alloc, keyed)?;
    let strangers = strangers_of(alloc, &options.heads, options.captures_strangers)?;
    let heads = heads_of(alloc, options)?;
    let file = CaptureFile::opened(rt, alloc, options.capture)?;
    let sealing = links.made(rt, alloc)?;
    let meter = judged.made(rt, options.store)?;
    let mut daemon = MeterDaemon::new(meter, heads);
    serve_daemon(
        rt,
        alloc,
        writer,
        RecordedPort {
            port,
            strangers,
            file,
            capture: options.capture,
            sealing,
        },
        &mut daemon,
        options,
    )
}

/// The addresses that may ask a meter.
pub(crate) fn heads_of(
    alloc: Global,
    options: &MeterOptions<'_>,
) -> Result<Vec<SocketAddr>, AllocError>
    ensures heads { IfOk result (λ heads. heads.items ≡ options.now.heads.items) }
{
    Vec::from_slice(alloc, &options.heads)
}

/// The strangers to meters that just these addresses may ask, if there is one.
pub(crate) fn strangers_of(
    alloc: Global,
    heads: &[SocketAddr],
    are_recorded: bool,
) -> Result<Strangers, AllocError>
    ensures known { IfOk result (λ s. (address : Address) → is_stranger s.known address ≡ is_strange heads.now address) }
{
    Strangers::of_meter(alloc, heads, are_recorded)
}

/// A socket with its address, with those who are strangers to it, with the file of its capture, if one is asked for, and with what its links
/// are sealed with, if there are keys.
#[derive(Drop)]
pub(crate) struct RecordedPort<'a> {
    pub(crate) port: Listening,
    pub(crate) strangers: Strangers,
    pub(crate) file: Option<CaptureFile>,
    pub(crate) capture: Option<&'a str>,
    pub(crate) sealing: Option<Sealing>,
}

/// Serves this meter, until its port is closed.
fn serve_daemon<R: Files<File = File> + Clock + Wait, W: Write>(
    rt: &R,
    alloc: Global,
    writer: &mut W,
    port: RecordedPort<'_>,
    daemon: &mut MeterDaemon<FileStore>,
    options: &MeterOptions<'_>,
) -> Result<(), MeterFailure>
    // Just the addresses of the options may ask, and who has none of them is a stranger.
    requires heads { (daemon_of daemon.old).heads ≡ options.now.heads.items }
    requires strangers { (address : Address) → is_stranger port.strangers.known address ≡ is_strange options.now.heads.items address }

    // If keys are given, its links are those of their file. Without keys it has none.
    requires links { IsMeterSealing options.now.listen options.now.sealing (links_in port.sealing) }
    ensures ends { IsErr result }
    ensures number { IfErr result (λ e. e.number ≡ None) }
    ensures silent { IfErr result (λ e. e.error ≢ MeterError.Socket → e.error ≢ MeterError.Output → e.error ≢ MeterError.CaptureFault
        → e.error ≢ MeterError.CounterFault → e.error ≢ MeterError.CounterSpent → Keeps (W.contents writer.old) (W.contents writer.new)) }
    ensures asked { IfErr result (λ e. IsOfServing port.entry.capture options.now.sealing e.error) }
{
    let RecordedPort {
        port,
        mut strangers,
        mut file,
        capture,
        sealing,
    } = port;
    let heads = options.heads.as_slice();
    match start_meters(rt, alloc, capture, file.as_mut(), 0, heads) {
        Ok(()) => {}
        Err(because) => return Err(not_started(because)),
    }
    tell_listening(alloc, writer, &port)?;
    let Listening {
        port: mut socket,
        at,
    } = port;
    let mut lines = Lines::new(alloc, writer);
    let recorder = file.as_mut();
    let mut port = CapturePort::of_meter(rt, alloc, &mut socket, at, &mut strangers, recorder);
    let by = match sealing {
        Some(Sealing { links, counters }) => {
            let mut port = SealedPort::new(alloc, port, links, counters);
            serve_sealed(rt, alloc, &mut lines, &mut port, daemon, options)
        }
        None => serve_plain(rt, alloc, &mut lines, &mut port, daemon, options),
    };
    let cause = failure_of(file.as_ref());
    // If that fails, why the port is closed is told all the same.
    let _ = end_capture(capture, file.as_ref());
    let closed = closing(capture, options.sealing, by, cause);
    Err(MeterFailure::from(closed))
}

/// Why the command ended, if the notes of its start aren't put into its capture.
pub(crate) fn not_started(because: Because<ClosingError>) -> MeterFailure
    ensures { result ≡ record { error = meter_of_closing because.error; number = None; reason = because.reason } }
{
    MeterFailure::from(because)
}

/// Serves this meter, which has no keys, until its port is closed. It returns why that is.
fn serve_plain<R: Clock + Wait, W: Write, V: SyncedSink + Drop>(
    rt: &R,
    alloc: Global,
    lines: &mut Lines<'_, W>,
    port: &mut CapturePort<'_, R, V>,
    daemon: &mut MeterDaemon<FileStore>,
    options: &MeterOptions<'_>,
) -> ClosedBy
    requires plain { options.now.sealing ≡ None }
{
    let Closed = serve_told(rt, alloc, lines, port, daemon);
    port.closed_by()
}

/// Serves this meter over the links of its keys alone, until its port is closed. It returns why that is.
fn serve_sealed<R: Clock + Wait, W: Write, V: SyncedSink + Drop>(
    rt: &R,
    alloc: Global,
    lines: &mut Lines<'_, W>,
    port: &mut SealedPort<CapturePort<'_, R, V>, FileDevice>,
    daemon: &mut MeterDaemon<FileStore>,
    options: &MeterOptions<'_>,
) -> ClosedBy
    requires links { IsMeterSealing options.now.listen options.now.sealing (Some port.old.links) }
{
    let Closed = serve_told(rt, alloc, lines, port, daemon);
    port.closed_by()
}

/// Serves this meter, until its port is closed, and writes the lines of what there is to tell of it.
fn serve_told<R: Clock + Wait, W: Write, P: DatagramPort>(
    rt: &R,
    alloc: Global,
    lines: &mut Lines<'_, W>,
    port: &mut P,
    daemon: &mut MeterDaemon<FileStore>,
) -> Closed
    requires unknown { P.honest port.old ≡ false }
{
    let mut teller = Teller::new(rt, lines);
    serve_watched(rt, alloc, port, daemon, &mut teller)
}

/// The same, told by this teller: what there is to tell of each round, once and in order.
fn serve_watched<R: Clock + Wait, W: Write, P: DatagramPort>(
    rt: &R,
    alloc: Global,
    port: &mut P,
    daemon: &mut MeterDaemon<FileStore>,
    teller: &mut Teller<'_, '_, R, W>,
) -> Closed
    // It isn't known what comes, and what becomes of what is sent.
    requires unknown { P.honest port.old ≡ false }
    ensures lines { teller.new.lines.ghost_name ≡ teller.old.lines.ghost_name }
    ensures writer { teller.new.lines.now.writer.ghost_name ≡ teller.old.lines.now.writer.ghost_name }
    ensures told { TellsRounds (daemon_of daemon.old) (daemon_of daemon.new) teller.old.lines.now.lost teller.new.lines.now.lost
        (W.contents teller.old.lines.now.writer.now) (W.contents teller.new.lines.now.writer.now) }
{
    serve_noted(rt, alloc, port, daemon, teller)
}

/// A port, with the address that it has.
#[derive(Drop)]
pub(crate) struct Listening {
    pub(crate) port: UdpPort,
    pub(crate) at: SocketAddr,
}

impl Listening {
    /// A port that was bound, with its address.
    pub(crate) fn of(bound: Result<UdpPort, SocketError>) -> Result<Listening, SocketError> {
        let port = bound?;
        let at = port.address()?;
        Ok(Listening { port, at })
    }
}

/// What a daemon reports while it serves.
#[derive(Drop)]
pub(crate) struct Teller<'a, 'w, C: Clock, W: Write> {
    rt: &'a C,
    pub(crate) lines: &'a mut Lines<'w, W>,
    /// What the last line about it said.
    dropped: Dropped,
    faults: u64,
    unopened: u64,
    untold: u64,
    /// When that was.
    told_at: Option<Instant>,
    /// How many refusals and failures may be told.
    limit: Limit,
}

impl<'a, 'w, C: Clock, W: Write> Teller<'a, 'w, C, W> {
    /// Nothing is reported yet, and nothing was dropped.
    pub(crate) fn new(rt: &'a C, lines: &'a mut Lines<'w, W>) -> Teller<'a, 'w, C, W>
        ensures lines { result.lines.ghost_name ≡ lines.entry.ghost_name }
        ensures writer { result.lines.now.writer.ghost_name ≡ lines.old.writer.ghost_name }
        ensures lost { result.lines.now.lost ≡ lines.old.lost }
        ensures unwritten { W.contents result.lines.now.writer.now ≡ W.contents lines.old.writer.now }
    {
        Teller {
            rt,
            lines,
            dropped: Dropped {
                strangers: 0,
                unserved: 0,
            },
            faults: 0,
            unopened: 0,
            untold: 0,
            told_at: Instant::now(rt).ok(),
            limit: Limit::new(),
        }
    }

    /// Reports what there is to tell of a round, if there is something: of several meters, of that of this number.
    fn tell_event(&mut self, number: Option<usize>, event: Option<MeterEvent>)
        ensures lines { self.new.lines.ghost_name ≡ self.old.lines.ghost_name }
        ensures writer { self.new.lines.now.writer.ghost_name ≡ self.old.lines.now.writer.ghost_name }
        ensures told { IsSaid (happenings_by number (listed event)) self.old.lines.now.lost self.new.lines.now.lost
            (W.contents self.old.lines.now.writer.now) (W.contents self.new.lines.now.writer.now) }
    {
        match event {
            Some(event) => self.tell_one(number, event),
            None => {}
        }
    }

    /// Reports what there is to tell, unless it is left out.
    fn tell_one(&mut self, number: Option<usize>, event: MeterEvent)
        ensures lines { self.new.lines.ghost_name ≡ self.old.lines.ghost_name }
        ensures writer { self.new.lines.now.writer.ghost_name ≡ self.old.lines.now.writer.ghost_name }
        ensures told { IsSaid (happenings_by number (event ∷ [])) self.old.lines.now.lost self.new.lines.now.lost
            (W.contents self.old.lines.now.writer.now) (W.contents self.new.lines.now.writer.now) }
    {
        if self.limit.leaves_out(self.rt, &event) {
            return;
        }
        self.lines.tell_event(number, event);
    }

    /// Reports what was dropped, and how many events were left out, if that is not what the last line said, and a minute or more after that
    /// line. Where the system has no time, it reports nothing.
    fn tell_dropped(&mut self, dropped: Dropped, faults: u64, unopened: u64)
        ensures lines { self.new.lines.ghost_name ≡ self.old.lines.ghost_name }
        ensures writer { self.new.lines.now.writer.ghost_name ≡ self.old.lines.now.writer.ghost_name }
        ensures told { (says : Bool) × Told (lines_of (lack_of says dropped faults unopened self.old.limit.left_out)) self.old.lines.now.lost
            self.new.lines.now.lost (W.contents self.old.lines.now.writer.now) (W.contents self.new.lines.now.writer.now) }
    {
        let untold = self.limit.left_out;
        if dropped == self.dropped
            && faults == self.faults
            && unopened == self.unopened
            && untold == self.untold
        {
            return;
        }
        let Ok(now) = Instant::now(self.rt) else {
            return;
        };
        if !is_due(self.told_at, now) {
            return;
        }
        self.dropped = dropped;
        self.faults = faults;
        self.unopened = unopened;
        self.untold = untold;
        self.told_at = Some(now);
        self.lines.tell_dropped(dropped, faults, unopened, untold);
    }
}

impl<'a, 'w, C: Clock, W: Write> Watch for Teller<'a, 'w, C, W> {
    ghost use Rattle.std.specs.Prelude.{◌≡◌, None};
    ghost use Rattle.fw_cli.specs.Telling.{IsSaid, happenings_by};

    ghost tells = { λ start events teller. (teller.lines.ghost_name ≡ start.lines.ghost_name)
        × (teller.lines.now.writer.ghost_name ≡ start.lines.now.writer.ghost_name)
        × IsSaid (happenings_by None events) start.lines.now.lost teller.lines.now.lost (W.contents start.lines.now.writer.now)
        (W.contents teller.lines.now.writer.now) };

    fn round(&mut self, event: Option<MeterEvent>, dropped: Dropped, faults: u64, unopened: u64) {
        self.tell_event(None, event);
        self.tell_dropped(dropped, faults, unopened);
    }
}

impl<'a, 'w, C: Clock, W: Write> FleetWatch for Teller<'a, 'w, C, W> {
    ghost use Rattle.std.specs.Prelude.{◌≡◌};
    ghost use Rattle.fw_cli.specs.Telling.{IsSaid};

    ghost tells = { λ start happenings teller. (teller.lines.ghost_name ≡ start.lines.ghost_name)
        × (teller.lines.now.writer.ghost_name ≡ start.lines.now.writer.ghost_name)
        × IsSaid happenings start.lines.now.lost teller.lines.now.lost (W.contents start.lines.now.writer.now)
        (W.contents teller.lines.now.writer.now) };

    fn round_of(
        &mut self,
        number: usize,
        event: Option<MeterEvent>,
        dropped: Dropped,
        faults: u64,
        unopened: u64,
    ) {
        self.tell_event(Some(number), event);
        self.tell_dropped(dropped, faults, unopened);
    }
}

/// Writes at which address datagrams are received: the one that this port has.
pub(crate) fn tell_listening<W: Write>(
    alloc: Global,
    writer: &mut W,
    port: &Listening,
) -> Result<(), TellingError>
    ensures written { OnOk result (Appends (W.contents writer.old) (W.contents writer.new) (listening_line port.now.at)) }
    ensures silent { IfErr result (λ e. e ≢ TellingError.Output → Keeps (W.contents writer.old) (W.contents writer.new)) }
{
    let line = listening_line(alloc, port.at)?;
    write_text(writer, line.as_str()).map_err(|_| TellingError::Output)
}
