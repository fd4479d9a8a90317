//! A head end that workers share.

ghost use Rattle.std.specs.Prelude.{◌≡◌, ◌≤◌, ◌<◌, IsTrue, IfOk, IfErr, OnOk, OnErr, if◌then◌else◌};
ghost use Rattle.std.specs.Vec.{vec_len};
ghost use Rattle.fw_blocks.specs.Width.{max_width};
ghost use Rattle.fw_air.specs.Rounds.{stands_in};
ghost use Rattle.fw_world.specs.Step.{deliver, tick};
ghost use Rattle.fw_world.specs.declared.error.StepError.TheVariants.{NoSuchActor, OutOfMemory};
ghost use Rattle.fw_shared.specs.Seat.{noted};
ghost use Rattle.fw_shared.specs.Acts.{HasHeard, IsCoreRefusal, IsPutBack, MarksDone, all_rows};

use crate::acts::{Shard, addressed, dealt, place};
use crate::board::Board;
use crate::seat::Seat;
use fw_air::{Sent, SharedLog};
use fw_blocks::Width;
use fw_book::Book;
use fw_head::{HeadCore, HeadParts, News, PutError, RowCore};
use fw_names::{HeadId, MeterId};
use fw_world::{Actor, StepError};
use std::alloc::{AllocError, Global};
use std::marker::Model;
use std::sync::{Mutex, Wait};

/// A head end whose live rows are dealt to eight shards by the numbers of their meters, each under a lock of its own, in which the
/// log's lock is taken for one append. Its book is as it was when the desk was made: how rows ended is marked in it when they are
/// put back.
#[derive(Drop)]
pub struct Desk {
    book: Book,
    width: Width,
    shards: Vec<Mutex<Shard>>,
}

// Contracts see the book and the width. There are eight shards.
impl Model for Desk {
    ghost use Rattle.std.specs.Prelude.{◌≡◌};
    ghost use Rattle.std.specs.Vec.{vec_len};
    ghost use Rattle.fw_shared.specs.Acts as acts;

    ghost Value = { acts.Desk };

    ghost view = { λ d. record { book = d.book; width = d.width } };

    ghost invariant = { λ d. vec_len d.shards ≡ 8 };
}

impl Desk {
    /// This head end, with its live rows dealt to the shards.
    ///
    /// # Errors
    ///
    /// Out of memory alone. The head end is then lost.
    pub fn new(alloc: Global, head: HeadCore) -> Result<Desk, AllocError>
        ensures { IfOk result (λ desk. desk ≡ record { book = head.book; width = head.width }) }
    {
        let HeadParts { book, width, rows } = head.take_rows();
        Ok(Desk {
            book,
            width,
            shards: locked(alloc, dealt(alloc, rows)?)?,
        })
    }

    /// Its number.
    pub fn head(&self) -> HeadId
        ensures { result ≡ self.now.book.head }
    {
        self.book.head()
    }

    /// The head end, with its rows as the workers left them.
    ///
    /// # Errors
    ///
    /// Those of `HeadCore::put_rows`. The head end is then lost.
    pub fn into_inner(self, alloc: Global) -> Result<HeadCore, PutError>
        ensures { IfOk result (IsPutBack self) }
    {
        let Desk {
            book,
            width,
            shards,
        } = self;
        let rows = gathered(alloc, unlocked(alloc, shards)?)?;
        HeadCore::put_rows(alloc, book, width, rows)
    }

    /// Sends to a meter what the head end has for it now: a tick, for which the seat has a receipt. The board is the seat's, as for
    /// `hear`; no tick marks it.
    ///
    /// # Errors
    ///
    /// `NoSuchActor` if the meter stands in no campaign of the book, or `OutOfMemory`. Nothing was changed.
    pub fn tick<R: Wait>(
        &self,
        rt: &R,
        alloc: Global,
        log: &SharedLog,
        board: &Board,
        seat: &mut Seat,
        meter: MeterId,
    ) -> Result<Sent, StepError>
        requires board { seat.old.board ≡ board.now.id }
        ensures ticked { IfOk result (λ sent. seat.new ≡ noted seat.old sent.event (tick self.now.book.head meter)) }
        ensures most { IfOk result (λ sent. sent.count ≤ max_width) }
        ensures listed { OnOk result (IsTrue (stands_in self.now.book meter)) }
        ensures cause { IfErr result (λ e. e ≡ (if stands_in self.now.book meter then OutOfMemory else NoSuchActor)) }
        ensures refused { IfErr result IsCoreRefusal }
        ensures same { OnErr result (seat.new ≡ seat.old) }
    {
        if !self.has_meter(meter) {
            return Err(StepError::NoSuchActor);
        }
        seat.receipts.reserve(1)?;
        let room = log.reserve(alloc)?;
        let shard = self.shard(meter).lock(rt);
        let held = Shard::tick_under(shard, alloc, &self.book, self.width, meter, room)?;
        Ok(held.record(rt, log, &mut seat.receipts))
    }

    /// Hears the datagram of this number, which is for this head end: a delivery, for which the seat has a receipt. Where a meter
    /// is done by it, and nowhere else, the board is marked. It asks that a mark is left to the seat.
    ///
    /// # Errors
    ///
    /// `NoSuchDatagram`, `NoSuchActor` if the datagram is for another addressee, or `OutOfMemory`. Nothing was changed.
    pub fn hear<R: Wait>(
        &self,
        rt: &R,
        alloc: Global,
        log: &SharedLog,
        board: &Board,
        seat: &mut Seat,
        number: usize,
    ) -> Result<News, StepError>
        requires board { seat.old.board ≡ board.now.id }
        requires left { 0 < seat.old.allowance }
        ensures heard { IfOk result (λ told. HasHeard told seat.old number seat.new) }
        ensures refused { IfErr result IsCoreRefusal }
        ensures same { OnErr result (seat.new ≡ seat.old) }
    {
        let datagram = addressed(rt, alloc, log, Actor::Head(self.head()), number)?;
        seat.receipts.reserve(1)?;
        let room = log.reserve(alloc)?;
        let shard = self.shard(datagram.meter).lock(rt);
        let (held, told) = Shard::hear_under(shard, alloc, number, &datagram, room)?;
        held.record(rt, log, &mut seat.receipts);
        mark_done(board, seat, &told);
        Ok(told)
    }

    /// Whether a meter stands in a campaign of the book.
    fn has_meter(&self, meter: MeterId) -> bool
        ensures { result ≡ stands_in self.now.book meter }
    {
        self.book
            .rows()
            .any(|(_serial, offer)| offer.state(meter).is_some())
    }

    /// The shard of a meter.
    fn shard(&self, meter: MeterId) -> &Mutex<Shard> {
        &self.shards[place(meter)]
    }
}

/// Marks the board where a meter is done, and nowhere else.
fn mark_done(board: &Board, seat: &mut Seat, told: &News)
    requires board { seat.old.board ≡ board.now.id }
    requires left { 0 < seat.old.allowance }
    ensures { MarksDone told.now seat.old seat.new }
{
    if let News::Done(..) = told {
        board.add(seat);
    }
}

/// Each shard under a lock of its own.
fn locked(alloc: Global, shards: Vec<Shard>) -> Result<Vec<Mutex<Shard>>, AllocError>
    ensures { IfOk result (λ locked. vec_len locked ≡ vec_len shards) }
{
    let mut all = Vec::new(alloc);
    for shard in shards {
        all.push(Mutex::new(shard))?;
    }
    Ok(all)
}

/// Each shard, taken out of its lock.
fn unlocked(alloc: Global, shards: Vec<Mutex<Shard>>) -> Result<Vec<Shard>, AllocError>
    ensures { IfOk result (λ unlocked. vec_len unlocked ≡ vec_len shards) }
{
    let mut all = Vec::new(alloc);
    for shard in shards {
        all.push(shard.into_inner())?;
    }
    Ok(all)
}

/// The rows of all eight shards.
fn gathered(alloc: Global, shards: Vec<Shard>) -> Result<Vec<RowCore>, AllocError>
    requires { vec_len shards ≡ 8 }
    ensures { IfOk result (λ rows. rows.items ≡ all_rows shards.items) }
{
    let mut all = Vec::new(alloc);
    for shard in shards {
        all.append(&mut shard.into_rows())?;
    }
    Ok(all)
}
