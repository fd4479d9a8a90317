//! What workers share, and the events that they make there. What a worker makes is a receipt of its seat; what comes of it no clause
//! says, since the receipts are compared with the log afterwards.

ghost use Rattle.std.specs.Prelude.{◌≡◌, ◌≤◌, false, IsTrue, None, IfOk, IfErr, IfSome, IsErrOf, OnOk, OnErr};
ghost use Rattle.std.specs.Option.{option_copied};
ghost use Rattle.fw_blocks.specs.Width.{max_width};
ghost use Rattle.fw_air.specs.Rounds.{stands_in};
ghost use Rattle.fw_world.specs.Step.{deliver, tick};
ghost use Rattle.fw_workers.specs.Ends.{ComesLast, IsOfEvent};
ghost use Rattle.fw_workers.specs.Seated.{HasLetHear, HasLooked, HasMade, HasTurned, desk_of, meter_of};

use crate::beginning::Beginning;
use crate::error::RoundsError;
use crate::gate::Gate;
use crate::worker::Worker;
use fw_accounts::{LeftByWorkers, Receipts};
use fw_air::{Sent, SharedLog};
use fw_head::HeadCore;
use fw_names::{HeadId, MeterId};
use fw_shared::{Board, Desk, Seat, SharedMeter};
use fw_store::MemoryStore;
use fw_world::{NumberedMeter, Parts};
use std::alloc::Global;
use std::sync::Wait;

/// A world as workers share it, with the record of what led to it, and the board on which they count.
pub struct SharedWorld {
    desks: Vec<Desk>,
    meters: Vec<SharedMeter<MemoryStore>>,
    log: SharedLog,
    pub(crate) board: Board,
}

// Written out, so that letting go of it is one call in a proof. A derived `Drop` is unfolded there field by field, which takes minutes.
impl Drop for SharedWorld {
    fn drop(self) {
        let SharedWorld {
            desks: _,
            meters: _,
            log: _,
            board: _,
        } = self;
    }
}

impl SharedWorld {
    /// The world and the record of this opening, and this board.
    pub(crate) fn of(
        alloc: Global,
        opening: Beginning,
        board: Board,
    ) -> Result<SharedWorld, RoundsError>
        ensures board { IfOk result (λ made. made.board ≡ board) }
        ensures memory { IfErr result (λ e. e ≡ RoundsError.OutOfMemory) }
    {
        let Beginning { world, entries } = opening;
        let Parts {
            heads,
            meters,
            sent,
            ..
        } = world.into_parts();
        Ok(SharedWorld {
            desks: desks_of(alloc, heads)?,
            meters: shared_meters(alloc, meters)?,
            log: SharedLog::new(sent, entries),
            board,
        })
    }

    /// What the workers left: the world, what the board counts for the seat into which all others were joined, and what they noted.
    pub(crate) fn into_left(
        self,
        alloc: Global,
        seat: Seat,
        receipts: Vec<Receipts>,
    ) -> Result<LeftByWorkers, RoundsError>
        requires { seat.board ≡ self.board.id }
        ensures { IfErr result ComesLast }
    {
        let SharedWorld {
            desks,
            meters,
            log,
            board,
        } = self;
        let (count, _receipts) = board.close(seat);
        let (sent, entries) = log.into_inner(alloc)?;
        Ok(LeftByWorkers {
            heads: heads_of(alloc, desks)?,
            meters: unshared(alloc, meters)?,
            sent,
            entries,
            board: count,
            receipts,
        })
    }

    /// The log of what was sent, and of what happened.
    pub fn log(&self) -> &SharedLog
        ensures { result.now ≡ self.now.log }
    {
        &self.log
    }

    /// A head end sends to a meter what it has for it: a tick of the worker.
    ///
    /// # Errors
    ///
    /// `Mismatch` if there is no such head end, or if the meter stands in no campaign of it; `GateShut`, or `OutOfMemory`.
    /// Nothing was changed except what the seat has seen.
    pub fn tick<R: Wait, G: Gate>(
        &self,
        rt: &R,
        alloc: Global,
        worker: &mut Worker<'_, G>,
        head: HeadId,
        meter: MeterId,
    ) -> Result<Sent, RoundsError>
        requires { worker.old.board ≡ self.now.board.id }
        ensures board { worker.new.board ≡ worker.old.board }
        ensures made { IfOk result (λ sent. HasMade worker.old sent.event (tick head meter) worker.new) }
        ensures most { IfOk result (λ sent. sent.count ≤ max_width) }
        ensures unknown { desk_of self.now.desks.items head ≡ None → IsErrOf result RoundsError.Mismatch }
        ensures mismatch { IsErrOf result RoundsError.Mismatch
            → IfSome (desk_of self.now.desks.items head) (λ desk. stands_in desk.book meter ≡ false) }
        ensures memory { IsErrOf result RoundsError.OutOfMemory
            → IfSome (desk_of self.now.desks.items head) (λ desk. IsTrue (stands_in desk.book meter)) }
        ensures shut { IsErrOf result RoundsError.GateShut → G.may_shut }
        ensures threadless { IfErr result IsOfEvent }
        ensures refused { OnErr result (HasLooked worker.old worker.new) }
    {
        let desk = self.desk(head).ok_or(RoundsError::Mismatch)?;
        worker.enter(&self.board)?;
        let sent = desk.tick(rt, alloc, &self.log, &self.board, &mut worker.seat, meter)?;
        Ok(sent)
    }

    /// A datagram comes to a meter: a delivery of the worker.
    ///
    /// # Errors
    ///
    /// `Mismatch` if there is no such meter, or if no datagram of this number was sent to it; `GateShut`, or `OutOfMemory`.
    /// Nothing was changed except what the seat has seen.
    pub fn serve<R: Wait, G: Gate>(
        &self,
        rt: &R,
        alloc: Global,
        worker: &mut Worker<'_, G>,
        meter: MeterId,
        number: usize,
    ) -> Result<Sent, RoundsError>
        requires { worker.old.board ≡ self.now.board.id }
        ensures board { worker.new.board ≡ worker.old.board }
        ensures made { IfOk result (λ sent. HasMade worker.old sent.event (deliver number) worker.new) }
        ensures most { IfOk result (λ sent. sent.count ≤ 1) }
        ensures unknown { meter_of self.now.meters.items meter ≡ None → IsErrOf result RoundsError.Mismatch }
        ensures shut { IsErrOf result RoundsError.GateShut → G.may_shut }
        ensures threadless { IfErr result IsOfEvent }
        ensures refused { OnErr result (HasLooked worker.old worker.new) }
    {
        let meter = self.meter(meter).ok_or(RoundsError::Mismatch)?;
        worker.enter(&self.board)?;
        let sent = meter.serve(rt, alloc, &self.log, &mut worker.seat, number)?;
        Ok(sent)
    }

    /// A datagram comes to a head end: a delivery of the worker, which marks the board where a meter is done by it.
    ///
    /// # Errors
    ///
    /// `Mismatch` if there is no such head end, if no datagram of this number was sent to it, or if no mark is left to the
    /// seat; `GateShut`, or `OutOfMemory`. Nothing was changed except what the seat has seen.
    pub fn hear<R: Wait, G: Gate>(
        &self,
        rt: &R,
        alloc: Global,
        worker: &mut Worker<'_, G>,
        head: HeadId,
        number: usize,
    ) -> Result<(), RoundsError>
        requires { worker.old.board ≡ self.now.board.id }
        ensures board { worker.new.board ≡ worker.old.board }
        ensures heard { OnOk result (HasLetHear worker.old number worker.new) }
        ensures unknown { desk_of self.now.desks.items head ≡ None → IsErrOf result RoundsError.Mismatch }
        ensures shut { IsErrOf result RoundsError.GateShut → G.may_shut }
        ensures threadless { IfErr result IsOfEvent }
        ensures refused { OnErr result (HasLooked worker.old worker.new) }
    {
        let desk = self.desk(head).ok_or(RoundsError::Mismatch)?;
        worker.enter(&self.board)?;
        if worker.seat.allowance() == 0 {
            return Err(RoundsError::Mismatch);
        }
        desk.hear(rt, alloc, &self.log, &self.board, &mut worker.seat, number)?;
        Ok(())
    }

    /// A meter that verifies goes on with it: a turn of the worker. Another worker may have ended this since it was looked at: then
    /// nothing is made.
    ///
    /// # Errors
    ///
    /// `Mismatch` if there is no such meter; `GateShut`, or `OutOfMemory`. Nothing was changed except what the seat has seen.
    pub fn turn<R: Wait, G: Gate>(
        &self,
        rt: &R,
        alloc: Global,
        worker: &mut Worker<'_, G>,
        meter: MeterId,
    ) -> Result<(), RoundsError>
        requires { worker.old.board ≡ self.now.board.id }
        ensures board { worker.new.board ≡ worker.old.board }
        ensures turned { OnOk result (HasTurned worker.old meter worker.new) }
        ensures unknown { meter_of self.now.meters.items meter ≡ None → IsErrOf result RoundsError.Mismatch }
        ensures mismatch { IsErrOf result RoundsError.Mismatch → meter_of self.now.meters.items meter ≡ None }
        ensures shut { IsErrOf result RoundsError.GateShut → G.may_shut }
        ensures threadless { IfErr result IsOfEvent }
        ensures refused { OnErr result (HasLooked worker.old worker.new) }
    {
        let meter = self.meter(meter).ok_or(RoundsError::Mismatch)?;
        if meter.is_verifying(rt) {
            worker.enter(&self.board)?;
            meter.turn(rt, alloc, &self.log, &mut worker.seat)?;
        }
        Ok(())
    }

    /// The head end of this number.
    fn desk(&self, head: HeadId) -> Option<&Desk>
        ensures found { option_copied result ≡ desk_of self.now.desks.items head }
        ensures number { IfSome result (λ desk. desk.now.book.head ≡ head) }
    {
        self.desks.iter().find(|desk| desk.head() == head)
    }

    /// The meter of this number.
    fn meter(&self, meter: MeterId) -> Option<&SharedMeter<MemoryStore>>
        ensures found { option_copied result ≡ meter_of self.now.meters.items meter }
        ensures number { IfSome result (λ shared. shared.now ≡ meter) }
    {
        self.meters.iter().find(|shared| shared.meter() == meter)
    }
}

/// Each head end as workers share it.
fn desks_of(alloc: Global, heads: Vec<HeadCore>) -> Result<Vec<Desk>, RoundsError>
    ensures { IfErr result (λ e. e ≡ RoundsError.OutOfMemory) }
{
    let mut desks = Vec::new(alloc);
    for head in heads {
        desks.push(Desk::new(alloc, head)?)?;
    }
    Ok(desks)
}

/// The head ends as the workers left them.
fn heads_of(alloc: Global, desks: Vec<Desk>) -> Result<Vec<HeadCore>, RoundsError>
    ensures { IfErr result ComesLast }
{
    let mut heads = Vec::new(alloc);
    for desk in desks {
        heads.push(desk.into_inner(alloc)?)?;
    }
    Ok(heads)
}

/// Each meter as workers share it.
fn shared_meters(
    alloc: Global,
    meters: Vec<NumberedMeter>,
) -> Result<Vec<SharedMeter<MemoryStore>>, RoundsError>
    ensures { IfErr result (λ e. e ≡ RoundsError.OutOfMemory) }
{
    let mut all = Vec::new(alloc);
    for meter in meters {
        all.push(SharedMeter::new(meter.meter(), meter.into_core()))?;
    }
    Ok(all)
}

/// The meters as the workers left them. A meter of a world has no fuse.
fn unshared(
    alloc: Global,
    meters: Vec<SharedMeter<MemoryStore>>,
) -> Result<Vec<NumberedMeter>, RoundsError>
    ensures { IfErr result (λ e. e ≡ RoundsError.OutOfMemory) }
{
    let mut all = Vec::new(alloc);
    for shared in meters {
        let meter = shared.meter();
        let mut core = shared.into_inner();
        core.unfuse();
        all.push(NumberedMeter::new(meter, core))?;
    }
    Ok(all)
}
