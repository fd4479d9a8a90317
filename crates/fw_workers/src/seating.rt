//! What workers begin with, and what is made of what they leave.

ghost use Rattle.std.specs.Prelude.{◌≡◌, ◌<◌, ◌≤◌, ◌^◌, All, IfOk, IfErr, IfSome, IsErrOf, None, map};
ghost use Rattle.fw_accounts.specs.Reported.{IsReported};
ghost use Rattle.fw_world.specs.Runs.{events_of};
ghost use Rattle.std.specs.Vec.{vec_len};
ghost use Rattle.fw_world.specs.Done.{done_rows};
ghost use Rattle.fw_workers.specs.Ends.{ComesFirst, ComesLast, EndsAs, lowest_refusal};
ghost use Rattle.fw_workers.specs.Private.{halves, numbers};

use crate::beginning::Beginning;
use crate::error::RoundsError;
use crate::gate::Gate;
use crate::shared_world::SharedWorld;
use crate::threads::Share;
use fw_accounts::{Receipts, Report, account, done_rows};
use fw_shared::{Board, Seat};
use fw_world::{Event, Setup, World};
use std::alloc::Global;
use std::snapshot::Snapshot;
use std::thread::Promise;

/// What a worker begins with: its number, how many workers there are, its seat, and what is dealt to it.
#[derive(Drop)]
pub(crate) struct Job<H: Drop> {
    pub(crate) number: u32,
    pub(crate) workers: usize,
    pub(crate) seat: Seat,
    pub(crate) share: H,
}

/// The seat of a worker that is done, and how it ended.
#[derive(Drop)]
pub(crate) struct Outcome {
    pub(crate) seat: Seat,
    pub(crate) ended: Result<(), RoundsError>,
}

/// What is promised of what a worker leaves: its seat is of this board, and it ended as with this share under this gate.
#[derive(Drop)]
pub(crate) struct OfWorker<'a, G, H> {
    pub(crate) board: &'a Board,
    pub(crate) gate: &'a G,
    pub(crate) share: Snapshot<H>,
}

impl<'a, G: Gate, H: Share> Promise<Outcome> for OfWorker<'a, G, H> {
    ghost kept_by = { λ p outcome. (outcome.seat.board ≡ p.board.now.id)
        × EndsAs (H.may_end G.may_shut) p.share.value outcome.ended };
}

/// What workers share, and the seat out of which theirs are split.
#[derive(Drop)]
pub(crate) struct Seating {
    pub(crate) shared: SharedWorld,
    seat: Seat,
    ghost seated: { seat.board ≡ shared.board.id },
}

impl Seating {
    /// The seating for this opening. The board begins with the rows that are done, and 2^63 marks are left to its seat.
    pub(crate) fn of(
        alloc: Global,
        setup: &Setup,
        opening: Beginning,
    ) -> Result<Seating, RoundsError>
        ensures start { IfOk result (λ made. made.shared.board.start ≡ done_rows setup.now opening.world) }
        ensures marks { IfOk result (λ made. made.seat.allowance ≡ 2 ^ 63) }
        ensures cause { IfErr result (ComesFirst (done_rows setup.now opening.world)) }
    {
        let done = marks_of(setup, &opening.world)?;
        let (board, seat) = Board::new(alloc, done)?;
        Ok(Seating {
            shared: SharedWorld::of(alloc, opening, board)?,
            seat,
        })
    }

    /// A worker for each share, in order, with a seat of its own. Each has half of the marks that were left.
    pub(crate) fn seat<H: Drop>(
        &mut self,
        alloc: Global,
        shares: Vec<H>,
    ) -> Result<Vec<Job<H>>, RoundsError>
        ensures seats { IfOk result (λ v. All (λ job. job.seat.board ≡ self.new.shared.board.id) v.items) }
        ensures shares { IfOk result (λ v. map (λ job. job.share) v.items ≡ shares.items) }
        ensures workers { IfOk result (λ v. All (λ job. job.workers ≡ vec_len shares) v.items) }
        ensures numbers { IfOk result (λ v. map (λ job. job.number) v.items ≡ numbers (vec_len v)) }
        ensures marks { IfOk result (λ v. map (λ job. job.seat.allowance) v.items ≡ halves self.old.seat.allowance (vec_len v)) }
        ensures memory { IfErr result (λ e. e ≡ RoundsError.OutOfMemory) }
    {
        let workers = shares.len();
        let mut jobs = Vec::new(alloc);
        let mut number = 0u32;
        for share in shares {
            let marks = self.seat.allowance() / 2;
            let seat = self.shared.board.split(alloc, &mut self.seat, marks)?;
            jobs.push(Job {
                number,
                workers,
                seat,
                share,
            })?;
            number = number.saturating_add(1);
        }
        Ok(jobs)
    }

    /// The report of what the workers left, who stand in the order of their numbers, where it is accounted for. The lowest worker's
    /// refusal comes before all else.
    pub(crate) fn account(
        self,
        alloc: Global,
        setup: &Setup,
        given: &[Event],
        rounds: u32,
        workers: u32,
        outcomes: Vec<Outcome>,
    ) -> Result<Report, RoundsError>
        requires workers { 1 ≤ workers }
        requires outcomes { All (λ outcome. outcome.seat.board ≡ self.shared.board.id) outcomes.items }
        ensures reported { IfOk result (λ r. IsReported setup.now (events_of given.now) rounds workers
            r.world r.board r.receipts.items) }
        ensures refused { IfSome (lowest_refusal (map (λ outcome. outcome.ended) outcomes.items)) (λ e. IsErrOf result e) }
        ensures otherwise { lowest_refusal (map (λ outcome. outcome.ended) outcomes.items) ≡ None → IfErr result ComesLast }
    {
        let Seating { shared, mut seat } = self;
        let receipts = gathered(alloc, &shared.board, &mut seat, outcomes)?;
        let left = shared.into_left(alloc, seat, receipts)?;
        let report = account(alloc, setup, given, rounds, workers, left)?;
        Ok(report)
    }
}

/// The count with which the board begins: the rows that are done.
fn marks_of(setup: &Setup, world: &World) -> Result<u64, RoundsError>
    ensures value { IfOk result (λ done. done ≡ done_rows setup.now world.now) }
    ensures fits { IfOk result (λ done. done < 2 ^ 63) }
    ensures cause { IfErr result (ComesFirst (done_rows setup.now world.now)) }
{
    let Some(done) = done_rows(setup, world) else {
        return Err(RoundsError::Mismatch);
    };
    if done < 1 << 63 {
        Ok(done)
    } else {
        Err(RoundsError::Mismatch)
    }
}

/// Joins the seats into this one: the receipts of each worker, in order. If workers were refused, the lowest worker's refusal is
/// given.
///
/// # Errors
///
/// That refusal, and otherwise out of memory alone.
fn gathered(
    alloc: Global,
    board: &Board,
    seat: &mut Seat,
    outcomes: Vec<Outcome>,
) -> Result<Vec<Receipts>, RoundsError>
    requires seat { seat.old.board ≡ board.now.id }
    requires outcomes { All (λ outcome. outcome.seat.board ≡ board.now.id) outcomes.items }
    ensures seat { seat.new.board ≡ seat.old.board }
    ensures receipts { IfOk result (λ v. v.items ≡ map (λ outcome. outcome.seat.receipts) outcomes.items) }
    ensures refused { IfSome (lowest_refusal (map (λ outcome. outcome.ended) outcomes.items)) (λ e. IsErrOf result e) }
    ensures memory { lowest_refusal (map (λ outcome. outcome.ended) outcomes.items) ≡ None
        → IfErr result (λ e. e ≡ RoundsError.OutOfMemory) }
{
    if let Some(refusal) = refusal_among(&outcomes) {
        return Err(refusal);
    }
    let mut all = Vec::new(alloc);
    let mut rest = outcomes;
    while !rest.is_empty() {
        let Outcome { seat: own, .. } = rest.remove(0);
        let receipts = board.join(seat, own);
        all.push(Receipts::new(receipts))?;
    }
    Ok(all)
}

/// The refusal of the lowest worker that was refused.
fn refusal_among(outcomes: &[Outcome]) -> Option<RoundsError>
    ensures { result ≡ lowest_refusal (map (λ outcome. outcome.ended) outcomes.now) }
{
    for outcome in outcomes {
        if let Err(refusal) = outcome.ended {
            return Some(refusal);
        }
    }
    None
}
