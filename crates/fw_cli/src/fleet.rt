//! The command `meter` with a count: meters in one process, to try a head end on.

ghost use Rattle.std.specs.Prelude.{
  ◌≡◌,
  ◌≢◌,
  ◌≤◌,
  ◌⊎◌,
  ◌^◌,
  flat_map,
  length,
  string_bytes,
  IfErr,
  IfOk,
  IsErr,
  OnErr,
  OnOk,
  All,
  MatchOption,
  None,
  Some,
};
ghost use Rattle.std.specs.Io.KnownBytes.{Appends, Keeps};
ghost use Rattle.std.specs.Net.Socket.{socket_port};
ghost use Rattle.fw_daemon.specs.Daemon.{daemon_of};
ghost use Rattle.fw_daemon.specs.Rounds.{GoesRound};
ghost use Rattle.fw_cli.specs.Fleets.{AreWatched, HadPass, HasHeads, IsAddressOf, OneIsWatched, TellsAll, daemons_of, path_of, port_of};
ghost use Rattle.fw_cli.specs.MeterErrors.{IsBroughtBy, IsOfServing, IsOfSetup, IsOfStore, NamesMeter};
ghost use Rattle.fw_host.specs.Meters.{listening_line};
ghost use Rattle.fw_cli.specs.declared.fleet.Member.{Member};

use crate::capture_file::{CaptureFile, closing_plain, end_capture, failure_of, start_meters};
use crate::error::TellingError;
use crate::fleet_watch::FleetWatch;
use crate::judged::{Judge, Judged};
use crate::meter::{Listening, MeterOptions, Teller, heads_of, not_started, strangers_of};
use crate::meter_error::{MeterError, MeterFailure};
use crate::noted_serving::step_noted;
use fw_daemon::{Dropped, MeterDaemon, MeterEvent};
use fw_faults::write_text;
use fw_host::{CapturePort, Lines, Strangers, listening_line};
use fw_port::{Closed, Port, SocketError, UdpPort};
use fw_store::FileStore;
use std::alloc::{AllocError, Global};
use std::fs::File;
use std::io::Write;
use std::net::{Net, SocketAddr};
use std::rt::{Clock, Files};
use std::sync::Wait;
use std::thread;
use std::time::Duration;

/// How long it is waited after a pass in which nothing came to any meter, in microseconds.
const PAUSE: u64 = 200;

/// The most rounds of one meter before the others have their turn, so that they don't wait for long where datagrams come to it without end.
const MOST_ROUNDS: u32 = 16;

/// A meter with its port.
#[derive(Drop)]
struct Member {
    port: UdpPort,
    at: SocketAddr,
    daemon: MeterDaemon<FileStore>,
}

/// A meter that was judged, with its port, before its file is made.
#[derive(Drop)]
struct Site {
    port: Listening,
    judged: Judged,
}

/// What meters have in common, and what of their datagrams was dropped up to the last pass.
#[derive(Drop)]
struct Common {
    /// The strangers to each of them, who have one capture.
    strangers: Strangers,
    /// The file of that, if one is asked for.
    capture: Option<CaptureFile>,
    /// Whether a datagram came in the last round of a meter, and whether a record couldn't be written in it.
    has_heard: bool,
    has_failed: bool,
    dropped: Dropped,
    faults: u64,
}

impl Member {
    /// A round of the meter.
    fn step<C: Clock>(
        &mut self,
        rt: &C,
        alloc: Global,
        common: &mut Common,
    ) -> Result<Option<MeterEvent>, Closed>
        ensures goes { IfOk result (λ told. GoesRound (daemon_of self.old.daemon) told (daemon_of self.new.daemon)) }
        ensures closed { OnErr result (daemon_of self.new.daemon ≡ daemon_of self.old.daemon) }
    {
        let mut port = CapturePort::of_meter(
            rt,
            alloc,
            &mut self.port,
            self.at,
            &mut common.strangers,
            common.capture.as_mut(),
        );
        let stepped = step_noted(alloc, &mut port, &mut self.daemon);
        common.has_heard = port.has_heard();
        common.has_failed = port.has_failed();
        stepped
    }

    /// A turn of the meter of this number: rounds as long as datagrams come, up to the most of them. It returns whether there may be more to do
    /// at once: a datagram came, or an image is verified.
    fn turn<C: Clock, W: FleetWatch>(
        &mut self,
        rt: &C,
        alloc: Global,
        number: usize,
        common: &mut Common,
        watch: &mut W,
    ) -> Result<bool, Closed>
        ensures watched { OneIsWatched W.tells number (daemon_of self.old.daemon) watch.old (daemon_of self.new.daemon) watch.new }
    {
        let mut has_heard = false;
        for made in 0..MOST_ROUNDS {
            let event = self.step(rt, alloc, common)?;
            let unopened = self.port.unopened();
            watch.round_of(number, event, common.dropped, common.faults, unopened);
            if common.has_failed {
                return Err(Closed);
            }
            if !common.has_heard {
                return Ok(has_heard || self.daemon.is_verifying());
            }
            has_heard = true;
        }
        Ok(true)
    }
}

/// A pass: a turn of each of these meters, as if it were alone. It returns whether there may be more to do at once.
fn turn_each<C: Clock, W: FleetWatch>(
    rt: &C,
    alloc: Global,
    members: &mut [Member],
    common: &mut Common,
    watch: &mut W,
) -> Result<bool, Closed>
    ensures watched { AreWatched W.tells (daemons_of members.old) watch.old (daemons_of members.new) watch.new }
    ensures pass { OnOk result (HadPass W.tells (length members.old) (daemons_of members.old) watch.old (daemons_of members.new) watch.new) }
{
    let mut has_more = false;
    let mut before = 0;
    for member in members.iter_mut() {
        let number = before + 1;
        let is_busy = member.turn(rt, alloc, number, common, watch)?;
        has_more = has_more || is_busy;
        before = number;
    }
    Ok(has_more)
}

/// Meters in one process.
#[derive(Drop)]
struct Fleet {
    members: Vec<Member>,
    common: Common,
}

/// The command for several meters without keys, of the numbers from 1 to this one. A datagram that comes to a meter is handled once those
/// before it had their turn.
pub(crate) fn serve_fleet<R: Files<File = File> + Clock + Net + Wait, W: Write>(
    rt: &R,
    alloc: Global,
    writer: &mut W,
    options: &MeterOptions<'_>,
    count: u32,
) -> Result<(), MeterFailure>
    requires plain { options.now.sealing ≡ None }
    ensures ends { IsErr result }
    ensures number { IfErr result (NamesMeter (Some count)) }
    ensures silent { IfErr result (λ e. e.error ≢ MeterError.Socket → e.error ≢ MeterError.Output → e.error ≢ MeterError.CaptureFault
        → Keeps (W.contents writer.old) (W.contents writer.new)) }
    ensures asked { IfErr result (λ e. IsBroughtBy options.now e.error) }
{
    let ports = ports_of(rt, alloc, options.listen, count)?;
    let sites = sites_of(rt, alloc, options, ports, count)?;
    let file = CaptureFile::opened(rt, alloc, options.capture)?;
    let members = members_of(rt, alloc, options, sites, count)?;
    serve_members(rt, alloc, writer, members, file, options)
}

/// Serves these meters, until the port of one is closed. If a capture is asked for, this is its file.
fn serve_members<R: Files<File = File> + Clock + Wait, W: Write>(
    rt: &R,
    alloc: Global,
    writer: &mut W,
    members: Vec<Member>,
    file: Option<CaptureFile>,
    options: &MeterOptions<'_>,
) -> Result<(), MeterFailure>
    requires heads { All (HasHeads options.now.heads.items) members.items }
    requires plain { options.now.sealing ≡ None }
    ensures ends { IsErr result }
    ensures number { IfErr result (λ e. e.number ≡ None) }
    ensures silent { IfErr result (λ e. e.error ≢ MeterError.Socket → e.error ≢ MeterError.Output → e.error ≢ MeterError.CaptureFault
        → Keeps (W.contents writer.old) (W.contents writer.new)) }
    ensures asked { IfErr result (λ e. IsOfServing options.now.capture options.now.sealing e.error) }
{
    let mut file = file;
    let count = options.count.unwrap_or(0);
    let heads = options.heads.as_slice();
    match start_meters(rt, alloc, options.capture, file.as_mut(), count, heads) {
        Ok(()) => {}
        Err(because) => return Err(not_started(because)),
    }
    let common = Common {
        strangers: strangers_of(alloc, &options.heads, options.captures_strangers)?,
        capture: file,
        has_heard: false,
        has_failed: false,
        dropped: Dropped {
            strangers: 0,
            unserved: 0,
        },
        faults: 0,
    };
    let mut fleet = Fleet { members, common };
    tell_members(alloc, writer, &fleet.members)?;
    let mut lines = Lines::new(alloc, writer);
    let Closed = fleet.serve_told(rt, alloc, &mut lines);
    let Common {
        has_failed,
        capture,
        ..
    } = &fleet.common;
    let cause = failure_of(capture.as_ref());
    // If that fails, why the port is closed is told all the same.
    let _ = end_capture(options.capture, capture.as_ref());
    let closed = closing_plain(options.capture, *has_failed, cause);
    Err(MeterFailure::from(closed))
}

/// The ports of meters of the numbers from 1 to this one.
fn ports_of<N: Net>(
    net: &N,
    alloc: Global,
    first: SocketAddr,
    count: u32,
) -> Result<Vec<Listening>, MeterFailure>
    ensures count { IfOk result (λ ports. length ports.items ≡ count) }
    ensures number { IfErr result (NamesMeter (Some count)) }
    ensures errors { IfErr result (λ e. (e.error ≡ MeterError.Socket) ⊎ (e.error ≡ MeterError.OutOfMemory)) }
{
    let mut ports = Vec::new(alloc);
    for before in 0..count {
        let number = before + 1;
        let port = match numbered_port(net, first, number) {
            Ok(port) => port,
            Err(error) => return Err(MeterFailure::from(error).of_meter(number)),
        };
        if ports.push(port).is_err() {
            return Err(MeterFailure::from(AllocError));
        }
    }
    Ok(ports)
}

/// The port of the meter of this number.
fn numbered_port<N: Net>(
    net: &N,
    first: SocketAddr,
    number: u32,
) -> Result<Listening, SocketError> {
    match address_of(first, number) {
        Some(listen) => Listening::of(UdpPort::bind_polling(net, listen)),
        None => Err(SocketError),
    }
}

/// Judges the meters of these ports, of the numbers from 1 to this one. No file is made.
fn sites_of<F: Files<File = File>>(
    rt: &F,
    alloc: Global,
    options: &MeterOptions<'_>,
    ports: Vec<Listening>,
    count: u32,
) -> Result<Vec<Site>, MeterFailure>
    requires { length ports.items ≡ count }
    ensures count { IfOk result (λ sites. length sites.items ≡ count) }
    ensures number { IfErr result (NamesMeter (Some count)) }
    ensures asked { IfErr result (λ e. IsOfSetup options.now.fresh e.error) }
{
    let mut judge = Judge::of(options.fresh);
    let mut sites = Vec::new(alloc);
    let mut before = 0u32;
    for port in ports {
        let number = before + 1;
        let judged = match numbered_meter(rt, alloc, options.store, &mut judge, number) {
            Ok(judged) => judged,
            Err(failure) => return Err(failure.of_meter(number)),
        };
        if sites.push(Site { port, judged }).is_err() {
            return Err(MeterFailure::from(AllocError));
        }
        before = number;
    }
    Ok(sites)
}

/// Judges the meter of this number.
fn numbered_meter<F: Files<File = File>>(
    rt: &F,
    alloc: Global,
    store: &str,
    judge: &mut Judge<'_>,
    number: u32,
) -> Result<Judged, MeterFailure>
    ensures fresh { judge.new.fresh ≡ judge.old.fresh }
    ensures asked { IfErr result (λ e. IsOfSetup judge.old.fresh e.error) }
{
    let path = numbered_path(alloc, store, number)?;
    judge.meter(rt, alloc, path.as_str())
}

/// The path of the file of the meter of this number.
fn numbered_path(alloc: Global, store: &str, number: u32) -> Result<String, AllocError>
    ensures path { IfOk result (λ path. string_bytes path ≡ path_of store.now number) }
{
    format!(in alloc; "{store}.{number}")
}

/// The judged meters of the numbers from 1 to this one, of which each that has no file gets one.
fn members_of<F: Files<File = File>>(
    rt: &F,
    alloc: Global,
    options: &MeterOptions<'_>,
    sites: Vec<Site>,
    count: u32,
) -> Result<Vec<Member>, MeterFailure>
    requires { length sites.items ≡ count }
    ensures count { IfOk result (λ members. length members.items ≡ count) }
    ensures heads { IfOk result (λ members. All (HasHeads options.now.heads.items) members.items) }
    ensures number { IfErr result (NamesMeter (Some count)) }
    ensures errors { IfErr result (λ e. (e.error ≡ MeterError.OutOfMemory) ⊎ IsOfStore e.error) }
{
    let mut members = Vec::new(alloc);
    let mut before = 0u32;
    for site in sites {
        let number = before + 1;
        let member = match new_member(rt, alloc, options, site, number) {
            Ok(member) => member,
            Err(failure) => return Err(failure.of_meter(number)),
        };
        if members.push(member).is_err() {
            return Err(MeterFailure::from(AllocError));
        }
        before = number;
    }
    Ok(members)
}

/// The judged meter of this number, which gets a file if it has none.
fn new_member<F: Files<File = File>>(
    rt: &F,
    alloc: Global,
    options: &MeterOptions<'_>,
    site: Site,
    number: u32,
) -> Result<Member, MeterFailure>
    ensures heads { IfOk result (HasHeads options.now.heads.items) }
    ensures errors { IfErr result (λ e. (e.error ≡ MeterError.OutOfMemory) ⊎ IsOfStore e.error) }
{
    let Site {
        port: Listening { port, at },
        judged,
    } = site;
    let heads = heads_of(alloc, options)?;
    let path = numbered_path(alloc, options.store, number)?;
    let meter = judged.made(rt, path.as_str())?;
    Ok(Member {
        port,
        at,
        daemon: MeterDaemon::new(meter, heads),
    })
}

/// The address that the meter of this number receives at, if there is such a port. The ports of --count run on: it has as many ports after
/// that of the first meter as there are meters before it. Of port 0 the system picks one for each.
fn address_of(first: SocketAddr, number: u32) -> Option<SocketAddr>
    ensures { MatchOption result (2 ^ 16 ≤ port_of (socket_port first) number) (IsAddressOf first number) }
{
    if first.port() == 0 {
        return Some(first);
    }
    let port = u64::from(first.port()) + u64::from(number.saturating_sub(1));
    match u16::try_from(port) {
        Ok(port) => {
            let mut address = first;
            address.set_port(port);
            Some(address)
        }
        Err(_) => None,
    }
}

/// Writes at which addresses these meters receive datagrams.
fn tell_members<W: Write>(
    alloc: Global,
    writer: &mut W,
    members: &[Member],
) -> Result<(), TellingError>
    ensures written { OnOk result (Appends (W.contents writer.old) (W.contents writer.new)
        (flat_map (λ (member : Member). listening_line member.at) members.now)) }
    ensures silent { IfErr result (λ e. e ≢ TellingError.Output → Keeps (W.contents writer.old) (W.contents writer.new)) }
{
    let lines = listening_lines(alloc, members)?;
    write_text(writer, lines.as_str()).map_err(|_| TellingError::Output)
}

/// The lines that tell at which addresses datagrams are received.
fn listening_lines(alloc: Global, members: &[Member]) -> Result<String, AllocError>
    ensures { IfOk result (λ lines. string_bytes lines ≡ flat_map (λ (member : Member). listening_line member.at) members.now) }
{
    let mut lines = String::new(alloc);
    for member in members {
        let line = listening_line(alloc, member.at)?;
        lines.push_str(line.as_str())?;
    }
    Ok(lines)
}

impl Fleet {
    /// Serves all meters, until the port of one is closed, and writes the lines of what there is to tell of them.
    fn serve_told<R: Clock + Wait, W: Write>(
        &mut self,
        rt: &R,
        alloc: Global,
        lines: &mut Lines<'_, W>,
    ) -> Closed {
        let mut teller = Teller::new(rt, lines);
        self.serve_watched(rt, alloc, &mut teller)
    }

    /// The same, told by this teller: what there is to tell of each round, with the number of the meter, once and in order.
    fn serve_watched<R: Clock + Wait, W: Write>(
        &mut self,
        rt: &R,
        alloc: Global,
        teller: &mut Teller<'_, '_, R, W>,
    ) -> Closed
        ensures lines { teller.new.lines.ghost_name ≡ teller.old.lines.ghost_name }
        ensures writer { teller.new.lines.now.writer.ghost_name ≡ teller.old.lines.now.writer.ghost_name }
        ensures told { TellsAll (daemons_of self.old.members.items) (daemons_of self.new.members.items) teller.old.lines.now.lost
            teller.new.lines.now.lost (W.contents teller.old.lines.now.writer.now) (W.contents teller.new.lines.now.writer.now) }
    {
        self.serve(rt, alloc, teller)
    }

    /// Passes over all meters, until the port of one is closed. It waits after one in which there was nothing to do, and after no other: what
    /// comes to one meter without end must not keep datagrams from the others.
    fn serve<R: Clock + Wait, W: FleetWatch>(
        &mut self,
        rt: &R,
        alloc: Global,
        watch: &mut W,
    ) -> Closed
        ensures watched { AreWatched W.tells (daemons_of self.old.members.items) watch.old (daemons_of self.new.members.items) watch.new }
    {
        for _ in rt.forever() {
            let has_more = match self.pass(rt, alloc, watch) {
                Ok(has_more) => has_more,
                Err(closed) => return closed,
            };
            if !has_more {
                thread::sleep(rt, Duration::from_micros(PAUSE));
            }
        }
        unreachable!()
    }

    /// A turn of each meter. It returns whether there may be more to do at once.
    fn pass<C: Clock, W: FleetWatch>(
        &mut self,
        rt: &C,
        alloc: Global,
        watch: &mut W,
    ) -> Result<bool, Closed>
        ensures watched { AreWatched W.tells (daemons_of self.old.members.items) watch.old (daemons_of self.new.members.items) watch.new }
    {
        let members = self.members.as_mut_slice();
        let has_more = turn_each(rt, alloc, members, &mut self.common, watch)?;
        self.count();
        Ok(has_more)
    }

    /// Counts what was dropped up to now.
    fn count(&mut self)
        ensures { self.new.members ≡ self.old.members }
    {
        let mut dropped = Dropped {
            strangers: 0,
            unserved: 0,
        };
        let mut faults: u64 = 0;
        for member in &self.members {
            let Dropped {
                strangers,
                unserved,
            } = member.daemon.dropped();
            dropped.strangers = dropped.strangers.saturating_add(strangers);
            dropped.unserved = dropped.unserved.saturating_add(unserved);
            faults = faults.saturating_add(member.port.faults());
        }
        self.common.dropped = dropped;
        self.common.faults = faults;
    }
}
