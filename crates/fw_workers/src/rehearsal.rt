//! A rehearsal: the rounds of a schedule, made by several workers.

ghost use Rattle.std.specs.Prelude.{◌≡◌, ◌≢◌, ◌≤◌, IfOk, IfErr, IsErrOf};
ghost use Rattle.fw_accounts.specs.Reported.{IsReported};
ghost use Rattle.fw_air.specs.Fates.{IsFates};
ghost use Rattle.fw_world.specs.Runs.{events_of};
ghost use Rattle.fw_workers.specs.Beginnings.{BeginsFor};
ghost use Rattle.fw_workers.specs.Ends.{EndsUnder};

use crate::beginning::{Beginning, begin};
use crate::deal::dealt;
use crate::error::{RehearseError, RoundsError};
use crate::fated_rounds::{FatedLink, FatedSteps};
use crate::gate::Gate;
use crate::shared_world::SharedWorld;
use crate::threads::{Share, Task, work};
use crate::worker::Worker;
use fw_accounts::Report;
use fw_air::{Fate, Fates, links_of};
use fw_world::{Event, Setup, World};
use std::alloc::Global;
use std::sync::Wait;
use std::thread::Threads;

/// The links of a worker, and the fates of what is sent on them.
#[derive(Drop)]
struct FatedLinks<'a> {
    links: Vec<FatedLink>,
    fates: &'a [Fate],
    ghost are_fates: { IsFates fates.now },
}

impl<'a> Share for FatedLinks<'a> {
    ghost may_end = { λ may_shut _ end. EndsUnder may_shut end };

    fn rounds<R: Wait, G: Gate>(
        &mut self,
        rt: &R,
        alloc: Global,
        shared: &SharedWorld,
        worker: &mut Worker<'_, G>,
        rounds: u32,
    ) -> Result<(), RoundsError> {
        let Some(fates) = Fates::new(self.fates) else {
            unreachable!();
        };
        let mut steps = FatedSteps { rt, shared, worker };
        steps.rounds(alloc, &mut self.links, rounds, &fates)
    }
}

/// Makes the given events, and after them the rounds of all links, as `schedule` makes them, by 1 to 8 workers in threads of their
/// own: link j, in the order of the setup, is dealt to worker j modulo the number of workers. Before each of its events a worker asks
/// the gate.
///
/// What is answered is accounted for: all that the workers made is one run of the world, of which the report has the end.
///
/// # Errors
///
/// `BadSetup` first. Then those of the given events: `OutOfMemory`, or `Event` for any other cause. Then the lowest worker's:
/// `GateShut`, only under a gate whose type may shut, `OutOfMemory` or `Mismatch`; or `ThreadRefused`.
pub fn rehearse<R: Threads + Wait + Sync, G: Gate + Sync>(
    rt: &R,
    alloc: Global,
    setup: &Setup,
    events: &[Event],
    rounds: u32,
    workers: u32,
    fates: &Fates<'_>,
    gate: &G,
) -> Result<Report, RehearseError>
    ensures reported { IfOk result (λ r. IsReported setup.now (events_of events.now) rounds workers r.world r.board r.receipts.items) }
    ensures begins { BeginsFor setup.now events.now workers result }
    ensures wireless { IfErr result (λ e. e ≢ RehearseError.Socket) }
    ensures shut { IsErrOf result RehearseError.GateShut → G.may_shut }
{
    let opening = begin(alloc, setup, events, workers)?;
    let task = Task {
        setup,
        given: events,
        rounds,
        workers,
        gate,
    };
    let report = by_fates(rt, alloc, &task, opening, fates)?;
    Ok(report)
}

/// Lets the workers make their rounds by these fates.
fn by_fates<R: Threads + Wait + Sync, G: Gate + Sync>(
    rt: &R,
    alloc: Global,
    task: &Task<'_, G>,
    opening: Beginning,
    fates: &Fates<'_>,
) -> Result<Report, RoundsError>
    requires { 1 ≤ task.now.workers }
    ensures reported { IfOk result (λ r. IsReported task.now.setup.now (events_of task.now.given.now) task.now.rounds task.now.workers
        r.world r.board r.receipts.items) }
    ensures shut { IsErrOf result RoundsError.GateShut → G.may_shut }
{
    let links = fated_links(alloc, task.setup, &opening.world)?;
    let mut shares = Vec::new(alloc);
    for links in dealt(alloc, links, task.workers)? {
        let fates = fates.as_slice();
        shares.push(FatedLinks { links, fates })?;
    }
    work(rt, alloc, task, opening, shares)
}

/// The links of a world, on which nothing was sent.
fn fated_links(alloc: Global, setup: &Setup, world: &World) -> Result<Vec<FatedLink>, RoundsError>
    ensures { IfErr result (λ e. e ≡ RoundsError.OutOfMemory) }
{
    let mut links = Vec::new(alloc);
    for link in links_of(alloc, setup, world)? {
        links.push(FatedLink::new(link))?;
    }
    Ok(links)
}
