//! Workers, each in a thread of its own.

ghost use Rattle.std.specs.Prelude.{◌≡◌, ◌≤◌, ◌⊎◌, All, IfOk, IfErr, map};
ghost use Rattle.std.specs.List.{AllZip};
ghost use Rattle.fw_accounts.specs.Reported.{IsReported};
ghost use Rattle.fw_world.specs.Runs.{events_of};
ghost use Rattle.fw_world.specs.Done.{done_rows};
ghost use Rattle.fw_workers.specs.Ends.{End, EndsAs, IsReason, IsUnstarted};

use crate::beginning::Beginning;
use crate::error::RoundsError;
use crate::gate::Gate;
use crate::seating::{Job, OfWorker, Outcome, Seating};
use crate::shared_world::SharedWorld;
use crate::start::{Start, Starter};
use crate::worker::Worker;
use fw_accounts::Report;
use fw_world::{Event, Setup};
use std::alloc::Global;
use std::snapshot::Snapshot;
use std::sync::Wait;
use std::thread;
use std::thread::Threads;

/// What workers are asked to do: rounds of what is dealt to them, after the given events.
#[derive(Drop)]
pub struct Task<'a, G: Gate> {
    pub setup: &'a Setup,
    pub given: &'a [Event],
    pub rounds: u32,
    pub workers: u32,
    pub gate: &'a G,
}

/// What is dealt to a worker: its share of the links.
pub trait Share {
    /// How its rounds may end. What it takes first says that the gate may shut.
    ghost may_end: { Type 0 → Self → End → Type 0 };

    /// `rounds` rounds of its links.
    fn rounds<R: Wait, G: Gate>(
        &mut self,
        rt: &R,
        alloc: Global,
        shared: &SharedWorld,
        worker: &mut Worker<'_, G>,
        rounds: u32,
    ) -> Result<(), RoundsError>
        requires { worker.old.board ≡ shared.now.board.id }
        ensures board { worker.new.board ≡ worker.old.board }
        ensures end { may_end G.may_shut self.old result };
}

/// Lets a worker for each share make its rounds from this opening on, each in a thread of its own, and accounts for what they left.
/// No worker begins before the threads of all are there.
///
/// # Errors
///
/// The first of these that applies: `OutOfMemory`, `ThreadRefused` if a thread could not be started, or `Mismatch` if 2^63 rows
/// are done, and no worker began; the lowest worker's, `GateShut`, `OutOfMemory` or `Mismatch`; and where all ended well `Mismatch`, if
/// what they left isn't what their receipts say, or `OutOfMemory`.
pub fn work<R: Threads + Wait + Sync, G: Gate + Sync, H: Share + Send + Drop>(
    rt: &R,
    alloc: Global,
    task: &Task<'_, G>,
    opening: Beginning,
    shares: Vec<H>,
) -> Result<Report, RoundsError>
    requires { 1 ≤ task.now.workers }
    ensures reported { IfOk result (λ r. IsReported task.now.setup.now (events_of task.now.given.now) task.now.rounds task.now.workers
        r.world r.board r.receipts.items) }
    ensures ended { IfOk result (λ _. All (λ share. H.may_end G.may_shut share (Ok tt)) shares.items) }
    ensures lowest { IfErr result (IsReason (done_rows task.now.setup.now opening.world) (H.may_end G.may_shut) shares.items) }
{
    let mut seating = Seating::of(alloc, task.setup, opening)?;
    let jobs = seating.seat(alloc, shares)?;
    let outcomes = spawned(rt, alloc, &seating.shared, task.gate, task.rounds, jobs)?;
    seating.account(
        alloc,
        task.setup,
        task.given,
        task.rounds,
        task.workers,
        outcomes,
    )
}

/// Each worker in a thread of its own. None begins before the threads of all are there; where one is refused, the others end. What
/// they leave stands in the order of the jobs.
fn spawned<R: Threads + Wait + Sync, G: Gate + Sync, H: Share + Send + Drop>(
    rt: &R,
    alloc: Global,
    shared: &SharedWorld,
    gate: &G,
    rounds: u32,
    jobs: Vec<Job<H>>,
) -> Result<Vec<Outcome>, RoundsError>
    requires { All (λ job. job.seat.board ≡ shared.now.board.id) jobs.items }
    ensures seats { IfOk result (λ v. All (λ outcome. outcome.seat.board ≡ shared.now.board.id) v.items) }
    ensures ends { IfOk result (λ v. AllZip (EndsAs (H.may_end G.may_shut)) (map (λ job. job.share) jobs.items) (map (λ outcome. outcome.ended) v.items)) }
    ensures cause { IfErr result IsUnstarted }
{
    let start = Start::new();
    let start = &start;
    thread::scope(
        thread::scope_env(),
        rt,
        move |scope| -> Result<Vec<Outcome>, RoundsError>
            requires { All (λ job. job.seat.board ≡ shared.now.board.id) jobs.items }
            ensures seats { IfOk result (λ v. All (λ outcome. outcome.seat.board ≡ shared.entry.now.board.id) v.items) }
            ensures ends { IfOk result (λ v. AllZip (EndsAs (H.may_end G.may_shut)) (map (λ job. job.share) jobs.items) (map (λ outcome. outcome.ended) v.items)) }
            ensures cause { IfErr result IsUnstarted }
        {
            let starter = Starter::of(start);
            let mut rest = jobs;
            let mut children = Vec::new(alloc);
            'starts: while !rest.is_empty() {
                let job = rest.remove(0);
                let promise = OfWorker {
                    board: &shared.board,
                    gate,
                    share: Snapshot::of(&job.share),
                };
                let work = move || -> Outcome
                    requires { job.seat.board ≡ shared.now.board.id }
                    ensures seat { result.seat.board ≡ shared.entry.now.board.id }
                    ensures end { EndsAs (H.may_end G.may_shut) job.share result.ended }
                { work_off(rt, alloc, shared, start, gate, rounds, job) };
                let Ok(child) = scope.spawn_with(promise, work) else {
                    return Err(starter.refuse(rt, RoundsError::ThreadRefused));
                };
                let Ok(()) = children.push(child) else {
                    return Err(starter.refuse(rt, RoundsError::OutOfMemory));
                };
            }
            starter.begin(rt, &rest, &children);
            match thread::join_promised(rt, children) {
                Ok(outcomes) => Ok(outcomes),
                Err(_) => Err(RoundsError::OutOfMemory),
            }
        },
    )
}

/// What a worker does in its thread, once it may begin.
fn work_off<R: Wait, G: Gate, H: Share + Drop>(
    rt: &R,
    alloc: Global,
    shared: &SharedWorld,
    start: &Start,
    gate: &G,
    rounds: u32,
    job: Job<H>,
) -> Outcome
    requires { job.seat.board ≡ shared.now.board.id }
    ensures seat { result.seat.board ≡ shared.now.board.id }
    ensures end { EndsAs (H.may_end G.may_shut) job.share result.ended }
{
    let Some(begun) = start.waits(rt, job.workers) else {
        return Outcome {
            seat: job.seat,
            ended: Err(RoundsError::ThreadRefused),
        };
    };
    let (mut worker, mut share) = Worker::of(job, gate, begun);
    let ended = share.rounds(rt, alloc, shared, &mut worker, rounds);
    Outcome {
        seat: worker.into_seat(),
        ended,
    }
}
