//! Live rollouts: the rounds of links over wires, made by several workers.

ghost use Rattle.std.specs.Prelude.{◌≡◌, ◌≢◌, ◌≤◌, length, IfOk, IfErr, OnOk, IsErrOf};
ghost use Rattle.fw_accounts.specs.Reported.{IsReported};
ghost use Rattle.fw_world.specs.Runs.{events_of};
ghost use Rattle.fw_workers.specs.Beginnings.{BeginsFor};
ghost use Rattle.fw_workers.specs.Ends.{EndsUnder};
ghost use Rattle.fw_workers.specs.Refusals.{IsLater, IsOfRounds};
ghost use Rattle.fw_workers.specs.Wires.{HasLinks, HasOtherLinks};

use crate::beginning::{Beginning, begin};
use crate::deal::dealt;
use crate::error::{RehearseError, RoundsError};
use crate::gate::Gate;
use crate::shared_world::SharedWorld;
use crate::threads::{Share, Task, work};
use crate::wire_thread::{WireLoop, WireThread};
use crate::wired_links::WiredLinks;
use crate::worker::Worker;
use fw_accounts::Report;
use fw_air::{LinkQueue, PairError, UdpWire, Wire, links_of};
use fw_world::{Event, Setup};
use std::alloc::{AllocError, Global};
use std::net::Net;
use std::sync::Wait;
use std::thread;
use std::thread::Threads;

/// A link, and both ends of its wire: the head end's and the meter's.
#[derive(Drop)]
struct WiredLink<W: Wire + Drop> {
    link: LinkQueue,
    ends: (W, W),
}

/// Links over wires, and what stands between their worker and these.
#[derive(Drop)]
struct Wired {
    links: Vec<LinkQueue>,
    wire_thread: WireThread,
}

impl Share for Wired {
    ghost may_end = { λ may_shut _ end. EndsUnder may_shut end };

    fn rounds<R: Wait, G: Gate>(
        &mut self,
        rt: &R,
        alloc: Global,
        shared: &SharedWorld,
        worker: &mut Worker<'_, G>,
        rounds: u32,
    ) -> Result<(), RoundsError> {
        let links = WiredLinks {
            shared,
            links: &self.links,
            wire_thread: &self.wire_thread,
        };
        links.rounds(rt, alloc, worker, rounds)
    }
}

/// Makes the given events, and after them rounds of all links over these wires, by 1 to 8 workers in threads of their own. There is
/// a wire for each link, in the order of the setup: the head end's end and the meter's. Link j is dealt to worker j modulo the number
/// of workers, each of which has one thread more, for the wires of its links. In a round of a link the head end ticks the meter, then
/// what comes is handled until a pass over the worker's wires brings nothing, after 64 passes at the latest, and then the meter takes
/// a turn where it verifies. What a wire loses is lost, and what nobody sent is dropped. Before each of its events a worker asks the
/// gate.
///
/// What is answered is accounted for, as in `rehearse`.
///
/// # Errors
///
/// `BadSetup` first. Then those of the given events: `OutOfMemory`, or `Event` for any other cause. Then `Socket` for another number
/// of wires than of links. Then, if there is a wire for each link, the lowest worker's: `GateShut`, only under a gate whose type may
/// shut, `OutOfMemory` or `Mismatch`; or `ThreadRefused`.
pub fn live_over<R: Threads + Wait + Sync, G: Gate + Sync, W: Wire + Send + Drop>(
    rt: &R,
    alloc: Global,
    setup: &Setup,
    events: &[Event],
    rounds: u32,
    workers: u32,
    gate: &G,
    wires: Vec<(W, W)>,
) -> Result<Report, RehearseError>
    ensures reported { IfOk result (λ r. IsReported setup.now (events_of events.now) rounds workers r.world r.board r.receipts.items) }
    ensures begins { BeginsFor setup.now events.now workers result }
    ensures wires { OnOk result (HasLinks setup.now (events_of events.now) (length wires.items)) }
    ensures socket { IsErrOf result RehearseError.Socket → HasOtherLinks setup.now (events_of events.now) (length wires.items) }
    ensures rounds { IfErr result (λ e. IsOfRounds e → HasLinks setup.now (events_of events.now) (length wires.items)) }
    ensures shut { IsErrOf result RehearseError.GateShut → G.may_shut }
{
    let opening = begin(alloc, setup, events, workers)?;
    let links = links_of(alloc, setup, &opening.world)?;
    let wired = with_wires(alloc, links, wires)?;
    let task = Task {
        setup,
        given: events,
        rounds,
        workers,
        gate,
    };
    let report = over_wires(rt, alloc, &task, opening, wired)?;
    Ok(report)
}

/// `live_over` wires of UDP sockets on 127.0.0.1, each of which takes datagrams from the other end alone and waits 5 ms for one.
///
/// # Errors
///
/// As of `live_over`; `Socket` if a socket can't be bound, so never if there is no link.
pub fn live<R: Threads + Wait + Net + Sync, G: Gate + Sync>(
    rt: &R,
    alloc: Global,
    setup: &Setup,
    events: &[Event],
    rounds: u32,
    workers: u32,
    gate: &G,
) -> Result<Report, RehearseError>
    ensures reported { IfOk result (λ r. IsReported setup.now (events_of events.now) rounds workers r.world r.board r.receipts.items) }
    ensures begins { BeginsFor setup.now events.now workers result }
    ensures socket { IsErrOf result RehearseError.Socket → HasOtherLinks setup.now (events_of events.now) 0 }
    ensures shut { IsErrOf result RehearseError.GateShut → G.may_shut }
{
    let opening = begin(alloc, setup, events, workers)?;
    let links = links_of(alloc, setup, &opening.world)?;
    let wired = bound(rt, alloc, links)?;
    let task = Task {
        setup,
        given: events,
        rounds,
        workers,
        gate,
    };
    let report = over_wires(rt, alloc, &task, opening, wired)?;
    Ok(report)
}

/// Each link with its wire.
fn with_wires<W: Wire + Drop>(
    alloc: Global,
    links: Vec<LinkQueue>,
    wires: Vec<(W, W)>,
) -> Result<Vec<WiredLink<W>>, RehearseError>
    ensures count { OnOk result (length links.items ≡ length wires.items) }
    ensures socket { IsErrOf result RehearseError.Socket → length links.items ≢ length wires.items }
    ensures memory { IsErrOf result RehearseError.OutOfMemory → length links.items ≡ length wires.items }
    ensures faults { IfErr result IsLater }
    ensures roundless { IfErr result (λ e. ¬ IsOfRounds e) }
{
    if links.len() != wires.len() {
        return Err(RehearseError::Socket);
    }
    let mut wired = Vec::new(alloc);
    for (link, ends) in links.into_iter().zip(wires) {
        wired.push(WiredLink { link, ends })?;
    }
    Ok(wired)
}

/// Each link with a wire of UDP sockets.
fn bound<N: Net>(
    net: &N,
    alloc: Global,
    links: Vec<LinkQueue>,
) -> Result<Vec<WiredLink<UdpWire>>, RehearseError>
    ensures socket { IsErrOf result RehearseError.Socket → length links.items ≢ 0 }
    ensures faults { IfErr result IsLater }
    ensures roundless { IfErr result (λ e. ¬ IsOfRounds e) }
{
    let mut wired = Vec::new(alloc);
    for link in links {
        let ends = match UdpWire::pair(net, alloc) {
            Ok(ends) => ends,
            Err(PairError::Socket) => return Err(RehearseError::Socket),
            Err(PairError::OutOfMemory) => return Err(RehearseError::OutOfMemory),
        };
        wired.push(WiredLink { link, ends })?;
    }
    Ok(wired)
}

/// Lets the workers make their rounds over these wires.
fn over_wires<R: Threads + Wait + Sync, G: Gate + Sync, W: Wire + Send + Drop>(
    rt: &R,
    alloc: Global,
    task: &Task<'_, G>,
    opening: Beginning,
    wired: Vec<WiredLink<W>>,
) -> Result<Report, RoundsError>
    requires { 1 ≤ task.now.workers }
    ensures reported { IfOk result (λ r. IsReported task.now.setup.now (events_of task.now.given.now) task.now.rounds task.now.workers
        r.world r.board r.receipts.items) }
    ensures shut { IsErrOf result RoundsError.GateShut → G.may_shut }
{
    let wired = dealt(alloc, wired, task.workers)?;
    let (shares, wire_loops) = with_wire_loops(alloc, wired)?;
    beside_wire_loops(
        rt,
        alloc,
        task.setup,
        task.given,
        task.rounds,
        task.workers,
        task.gate,
        opening,
        shares,
        wire_loops,
    )
}

/// What each worker is dealt, and what its wire thread does.
fn with_wire_loops<W: Wire + Drop>(
    alloc: Global,
    shares: Vec<Vec<WiredLink<W>>>,
) -> Result<(Vec<Wired>, Vec<WireLoop<W>>), AllocError> {
    let mut all = Vec::new(alloc);
    let mut wire_loops = Vec::new(alloc);
    for wired in shares {
        let (share, wire_loop) = parted(alloc, wired)?;
        all.push(share)?;
        wire_loops.push(wire_loop)?;
    }
    Ok((all, wire_loops))
}

/// What a worker is dealt, and what its wire thread does.
fn parted<W: Wire + Drop>(
    alloc: Global,
    wired: Vec<WiredLink<W>>,
) -> Result<(Wired, WireLoop<W>), AllocError> {
    let mut links = Vec::new(alloc);
    let mut wires = Vec::new(alloc);
    for WiredLink { link, ends } in wired {
        links.push(link)?;
        wires.push(ends)?;
    }
    let (wire_thread, wire_loop) = WireThread::with(alloc, wires)?;
    Ok((Wired { links, wire_thread }, wire_loop))
}

/// The wires of each worker in a thread of their own, and after them the workers. Each wire thread ends when its worker has. The task
/// is passed part by part, since a closure's clauses are lost if it captures a value whose type has a lifetime.
fn beside_wire_loops<R: Threads + Wait + Sync, G: Gate + Sync, W: Wire + Send + Drop>(
    rt: &R,
    alloc: Global,
    setup: &Setup,
    given: &[Event],
    rounds: u32,
    workers: u32,
    gate: &G,
    opening: Beginning,
    shares: Vec<Wired>,
    wire_loops: Vec<WireLoop<W>>,
) -> Result<Report, RoundsError>
    requires { 1 ≤ workers }
    ensures reported { IfOk result (λ r. IsReported setup.now (events_of given.now) rounds workers r.world r.board r.receipts.items) }
    ensures shut { IsErrOf result RoundsError.GateShut → G.may_shut }
{
    thread::scope(
        thread::scope_env(),
        rt,
        move |scope| -> Result<Report, RoundsError>
            requires { 1 ≤ workers }
            ensures reported { IfOk result (λ r. IsReported setup.entry.now (events_of given.entry.now) rounds workers
                r.world r.board r.receipts.items) }
            ensures shut { IsErrOf result RoundsError.GateShut → G.may_shut }
        {
            let mut rest = wire_loops;
            'wire_loops: while !rest.is_empty() {
                let wire_loop = rest.remove(0);
                if scope.spawn(move || wire_loop.run(rt, alloc)).is_err() {
                    return Err(RoundsError::ThreadRefused);
                }
            }
            let task = Task {
                setup,
                given,
                rounds,
                workers,
                gate,
            };
            work(rt, alloc, &task, opening, shares)
        },
    )
}
