//! What is done under the locks. Each step of it comes into the record.
//!
//! A meter, or a shard of the rows of a head end, is guarded by its lock in a type of this file, and each step of it leaves a `Recording`.
//! A `Recording` can't be dropped, and nothing except `Recording::record` ends it: that appends the event to the log, once, and notes the
//! receipt. So a step of a core, an event in the record and a receipt are made one for one. Other files make a step only under a guard that
//! they hand over, and get a `Held`: the guard and the `Recording` together. It gives the guard to nobody, and releases it when the event
//! stands in the record. So the lock is held from the step until then, and no other guard can be taken for it.
//!
//! The lock of a meter or of a shard is taken first, and that of the log inside it. No two meters or shards are ever held by one
//! call.

ghost use Rattle.std.specs.Prelude.{
  ◌≡◌,
  ◌+◌,
  ◌≤◌,
  ◌<◌,
  ◌++◌,
  ◌∷◌,
  ◌%◌,
  [],
  map,
  not,
  position,
  length,
  unwrap_or,
  IfOk,
  IfErr,
  IfSome,
  IfNone,
  OnOk,
  OnErr,
  true,
  false,
};
ghost use Rattle.std.specs.Sync.Mutex.{mutex_guard_value};
ghost use Rattle.std.specs.Vec.{vec_len, vec_capacity};
ghost use Rattle.fw_blocks.specs.Width.{max_width};
ghost use Rattle.fw_air.specs.Rounds.{is_verifying};
ghost use Rattle.fw_book.specs.Contents.{image_in};
ghost use Rattle.fw_image.specs.State.{Turns};
ghost use Rattle.fw_head.specs.Head.{news_of};
ghost use Rattle.fw_head.specs.Phase.{has_ended};
ghost use Rattle.fw_head.specs.Row.{RowHears, bytes_of};
ghost use Rattle.fw_head.specs.declared.news.RowNews.{RowNews};
ghost use Rattle.fw_world.specs.State.{sent_to};
ghost use Rattle.fw_meter.specs.Handling.{reply_bytes};
ghost use Rattle.fw_world.specs.Step.{deliver, replies, tick, turn};
ghost use Rattle.fw_world.specs.View.{addressee};
ghost use Rattle.fw_world.specs.declared.datagram.Actor.TheVariants as actor;
ghost use Rattle.std.specs.List.Sorted.{IsPermutation};
ghost use Rattle.fw_shared.specs.Acts.{IsCoreRefusal, MeterServes, RowsHear, RowsTick, all_rows, dealt_rows, is_live_of};

use fw_air::{CoreEvent, Receipt, Room, Sent, SharedLog};
use fw_blocks::Width;
use fw_book::Book;
use fw_head::{News, Phase, RowCore, RowNews, TakenRows};
use fw_image::TransferStatus;
use fw_meter::MeterCore;
use fw_names::{CampaignId, HeadId, MeterId};
use fw_store::ImageStore;
use fw_world::{Actor, Datagram, Direction, StepError};
use std::alloc::{AllocError, Global};
use std::marker::Model;
use std::snapshot::Snapshot;
use std::sync::{MutexGuard, Wait};

/// How many shards a desk has.
const SHARDS: usize = 8;

/// What a core did under its lock, and what isn't in the record yet: the event, room with the datagrams that it sends, and, for contracts
/// alone, what it left under the lock. It can't be dropped: only `record` ends it.
pub(crate) struct Recording<T> {
    event: CoreEvent,
    room: Room,
    left: Snapshot<T>,
}

impl<T> Model for Recording<T> {
    ghost use Rattle.fw_air.specs.Events.{core_event_of};
    ghost use Rattle.fw_shared.specs.Acts as acts;

    ghost Value = { acts.Recording T };

    ghost view = { λ a. record { event = core_event_of a.event; sent = a.room; left = a.left.value } };
}

impl<T> Recording<T> {
    /// Appends it to the log, once, and notes the receipt under the number that it has there. It asks for room for the receipt, and that
    /// what the core left is under the lock of this guard, which is held until the event stands in the log.
    fn record<R: Wait>(
        self,
        rt: &R,
        log: &SharedLog,
        _guard: &MutexGuard<'_, T>,
        receipts: &mut Vec<Receipt>,
    ) -> Sent
        requires room { vec_len receipts.old < vec_capacity receipts.old }
        requires held { mutex_guard_value _guard.now ≡ self.left }
        ensures noted { receipts.new.items
            ≡ receipts.old.items ++ (record { number = result.event; event = self.event }) ∷ [] }
        ensures sent { result.count ≡ length self.sent }
    {
        let Recording {
            event,
            room,
            left: _left,
        } = self;
        let (sent, stub) = log.append(rt, room, event);
        let (number, event) = stub.spend();
        receipts.push_reserved(Receipt { number, event });
        sent
    }
}

/// What a core did, and the guard of the lock under which it did it. What the core left stands under that guard, which is released by
/// `record` alone.
pub(crate) struct Held<'m, T> {
    guard: MutexGuard<'m, T>,
    act: Recording<T>,
    ghost left: { mutex_guard_value guard ≡ act.left },
}

impl<'m, T> Held<'m, T> {
    /// Appends the event to the log, once, notes the receipt under the number that it has there, and releases the lock. It asks for room
    /// for the receipt.
    pub(crate) fn record<R: Wait>(
        self,
        rt: &R,
        log: &SharedLog,
        receipts: &mut Vec<Receipt>,
    ) -> Sent
        requires { vec_len receipts.old < vec_capacity receipts.old }
        ensures noted { receipts.new.items
            ≡ receipts.old.items ++ (record { number = result.event; event = self.entry.act.event }) ∷ [] }
        ensures sent { result.count ≡ length self.entry.act.sent }
    {
        let Held { guard, act } = self;
        act.record(rt, log, &guard, receipts)
    }
}

/// A meter as its lock keeps it. Whenever the lock is free it is a meter by its type alone: within the limits of its store, and over
/// an honest store the image that runs has the digest of its name.
#[derive(Drop)]
pub(crate) struct GuardedMeter<S: ImageStore + Drop> {
    core: MeterCore<S>,
}

impl<S: ImageStore + Drop> GuardedMeter<S> {
    /// This meter.
    pub(crate) fn new(core: MeterCore<S>) -> GuardedMeter<S>
        ensures { result.core ≡ core }
    {
        GuardedMeter { core }
    }

    /// The meter.
    pub(crate) fn into_inner(self) -> MeterCore<S>
        ensures { result ≡ self.core }
    {
        self.core
    }

    /// `handle` of the meter under this guard.
    pub(crate) fn handle_under<'m>(
        mut guard: MutexGuard<'m, GuardedMeter<S>>,
        alloc: Global,
        meter: MeterId,
        number: usize,
        datagram: &Datagram,
        room: Room,
    ) -> Result<Held<'m, GuardedMeter<S>>, fw_meter::OutOfMemory>
        requires addressee { addressee datagram.now ≡ actor.Meter meter }
        requires empty { room ≡ [] }
        ensures event { IfOk result (λ held. held.act.event ≡ deliver number) }
        ensures step { IfOk result (λ held. MeterServes (mutex_guard_value guard.entry).core datagram.now held.act.sent held.act.left.core) }
        ensures most { IfOk result (λ held. length held.act.sent ≤ 1) }
    {
        let act = guard.handle(alloc, meter, number, datagram, room)?;
        Ok(Held { guard, act })
    }

    /// `turn` of the meter under this guard.
    pub(crate) fn turn_under<'m>(
        mut guard: MutexGuard<'m, GuardedMeter<S>>,
        meter: MeterId,
        room: Room,
    ) -> Option<Held<'m, GuardedMeter<S>>>
        requires { room ≡ [] }
        ensures made { IfSome result (λ held. (held.act.event ≡ turn meter) × (held.act.sent ≡ [])) }
        ensures step { IfSome result (λ held. Turns (mutex_guard_value guard.entry).core held.act.left.core) }
        ensures otherwise { IfNone result (is_verifying (mutex_guard_value guard.entry).core.meter.phase ≡ false) }
    {
        let act = guard.turn(meter, room)?;
        Some(Held { guard, act })
    }

    /// Handles the datagram of this number, which is for this meter, and sends its reply.
    ///
    /// # Errors
    ///
    /// Out of memory alone. The meter is then as before.
    fn handle(
        &mut self,
        alloc: Global,
        meter: MeterId,
        number: usize,
        datagram: &Datagram,
        room: Room,
    ) -> Result<Recording<GuardedMeter<S>>, fw_meter::OutOfMemory>
        requires addressee { addressee datagram.now ≡ actor.Meter meter }
        requires empty { room ≡ [] }
        ensures event { IfOk result (λ act. act.event ≡ deliver number) }
        ensures step { IfOk result (λ act. MeterServes self.old.core datagram.now act.sent self.new.core) }
        ensures left { IfOk result (λ act. act.left ≡ self.new) }
        ensures most { IfOk result (λ act. length act.sent ≤ 1) }
        ensures same { OnErr result (self.new.core ≡ self.old.core) }
    {
        let handled = self.core.handle(alloc, &datagram.bytes)?;
        let mut room = room;
        reply(&mut room, datagram, meter, handled.reply);
        let event = CoreEvent::Deliver(number);
        let left = Snapshot::of(self);
        Ok(Recording { event, room, left })
    }

    /// A turn of this meter, where it verifies. In every other status it is left as it is, and there is no `Recording`.
    fn turn(&mut self, meter: MeterId, room: Room) -> Option<Recording<GuardedMeter<S>>>
        requires { room ≡ [] }
        ensures made { IfSome result (λ act. (act.event ≡ turn meter) × (act.sent ≡ [])) }
        ensures left { IfSome result (λ act. act.left ≡ self.new) }
        ensures step { IfSome result (λ act. Turns self.old.core self.new.core) }
        ensures verifying { IfSome result (λ act. is_verifying self.old.core.meter.phase ≡ true) }
        ensures otherwise { IfNone result (is_verifying self.old.core.meter.phase ≡ false) }
        ensures same { IfNone result (self.new.core ≡ self.old.core) }
    {
        if !self.is_verifying() {
            return None;
        }
        self.core.turn();
        let event = CoreEvent::Turn(meter);
        let left = Snapshot::of(self);
        Some(Recording { event, room, left })
    }

    /// Whether it goes on with a verification.
    pub(crate) fn is_verifying(&self) -> bool
        ensures { result ≡ is_verifying self.now.core.meter.phase }
    {
        self.core.status() == TransferStatus::VerificationInitiated
    }
}

/// Rows of a head end as their lock keeps them. Whenever the lock is free each is a row by its type alone: one that is done has a
/// claim of its own meter, under its own name.
#[derive(Drop)]
pub(crate) struct Shard {
    rows: Vec<RowCore>,
}

impl Shard {
    /// No row.
    fn new(alloc: Global) -> Shard
        ensures { result.rows.items ≡ [] }
    {
        Shard {
            rows: Vec::new(alloc),
        }
    }

    /// Adds a row after the others.
    ///
    /// # Errors
    ///
    /// Out of memory alone. The row is then lost.
    fn push(&mut self, row: RowCore) -> Result<(), AllocError>
        ensures { OnOk result (self.new.rows.items ≡ self.old.rows.items ++ row ∷ []) }
    {
        self.rows.push(row)?;
        Ok(())
    }

    /// The rows.
    pub(crate) fn into_rows(self) -> Vec<RowCore>
        ensures { result ≡ self.rows }
    {
        self.rows
    }

    /// Where the live row of a meter stands.
    fn place(&self, meter: MeterId) -> Option<usize>
        ensures { result ≡ position (is_live_of meter) self.now.rows.items }
    {
        self.rows
            .iter()
            .position(|row| row.meter() == meter && is_live(row))
    }

    /// `tick` of the rows under this guard.
    pub(crate) fn tick_under<'m>(
        mut guard: MutexGuard<'m, Shard>,
        alloc: Global,
        book: &Book,
        width: Width,
        meter: MeterId,
        room: Room,
    ) -> Result<Held<'m, Shard>, fw_head::OutOfMemory>
        requires { room ≡ [] }
        ensures event { IfOk result (λ held. held.act.event ≡ tick book.now.head meter) }
        ensures step { IfOk result (λ held. RowsTick book.now width meter (mutex_guard_value guard.entry).rows.items held.act.sent
            held.act.left.rows.items) }
        ensures most { IfOk result (λ held. length held.act.sent ≤ max_width) }
    {
        let act = guard.tick(alloc, book, width, meter, room)?;
        Ok(Held { guard, act })
    }

    /// `hear` of the rows under this guard.
    pub(crate) fn hear_under<'m>(
        mut guard: MutexGuard<'m, Shard>,
        alloc: Global,
        number: usize,
        datagram: &Datagram,
        room: Room,
    ) -> Result<(Held<'m, Shard>, News), fw_head::OutOfMemory>
        requires { room ≡ [] }
        ensures act { IfOk result (λ heard. (heard.0.act.event ≡ deliver number) × (heard.0.act.sent ≡ [])) }
        ensures step { IfOk result (λ heard. RowsHear (mutex_guard_value guard.entry).rows.items datagram.now heard.1
            heard.0.act.left.rows.items) }
    {
        let (act, told) = guard.hear(alloc, number, datagram, room)?;
        Ok((Held { guard, act }, told))
    }

    /// The live row of a meter, if it has one, sends what it has for the meter now.
    ///
    /// # Errors
    ///
    /// Out of memory alone. The rows are then as before.
    fn tick(
        &mut self,
        alloc: Global,
        book: &Book,
        width: Width,
        meter: MeterId,
        room: Room,
    ) -> Result<Recording<Shard>, fw_head::OutOfMemory>
        requires { room ≡ [] }
        ensures event { IfOk result (λ act. act.event ≡ tick book.now.head meter) }
        ensures step { IfOk result (λ act. RowsTick book.now width meter self.old.rows.items act.sent self.new.rows.items) }
        ensures left { IfOk result (λ act. act.left ≡ self.new) }
        ensures most { IfOk result (λ act. length act.sent ≤ max_width) }
        ensures same { OnErr result (self.new.rows.items ≡ self.old.rows.items) }
    {
        let head = book.head();
        let event = CoreEvent::Tick(head, meter);
        let Some(at) = self.place(meter) else {
            let left = Snapshot::of(self);
            return Ok(Recording { event, room, left });
        };
        let row = &mut self.rows[at];
        let image = image_of(book, row.name().campaign);
        let sends = row.tick(alloc, image, width)?;
        let mut room = room;
        send(&mut room, head, meter, sends);
        let left = Snapshot::of(self);
        Ok(Recording { event, room, left })
    }

    /// The live row of the meter that sent the datagram of this number, if it has one, hears it. A row that has ended hears nothing:
    /// a claim that is repeated is no news.
    ///
    /// # Errors
    ///
    /// Out of memory alone. The rows are then as before.
    fn hear(
        &mut self,
        alloc: Global,
        number: usize,
        datagram: &Datagram,
        room: Room,
    ) -> Result<(Recording<Shard>, News), fw_head::OutOfMemory>
        requires { room ≡ [] }
        ensures act { IfOk result (λ heard. (heard.0.event ≡ deliver number) × (heard.0.sent ≡ [])) }
        ensures step { IfOk result (λ heard. RowsHear self.old.rows.items datagram.now heard.1 self.new.rows.items) }
        ensures left { IfOk result (λ heard. heard.0.left ≡ self.new) }
        ensures same { OnErr result (self.new.rows.items ≡ self.old.rows.items) }
    {
        let event = CoreEvent::Deliver(number);
        let meter = datagram.meter;
        let Some(at) = self.place(meter) else {
            let left = Snapshot::of(self);
            return Ok((Recording { event, room, left }, News::Nothing));
        };
        let row = &mut self.rows[at];
        let campaign = row.name().campaign;
        let news = heard(alloc, row, campaign, meter, &datagram.bytes)?;
        let left = Snapshot::of(self);
        let act = Recording { event, room, left };
        Ok((act, news))
    }
}

/// Deals rows to the shards of their meters: each row to one shard, and none is lost. Other files make no shard.
///
/// # Errors
///
/// Out of memory alone. The rows are then lost.
pub(crate) fn dealt(alloc: Global, rows: TakenRows) -> Result<Vec<Shard>, AllocError>
    ensures count { IfOk result (λ shards. vec_len shards ≡ 8) }
    ensures rows { IfOk result (λ shards. map (λ shard. shard.rows.items) shards.items ≡ dealt_rows rows) }
    ensures all { IfOk result (λ shards. IsPermutation rows (all_rows shards.items)) }
{
    let mut shards = Vec::new(alloc);
    for _ in 0..SHARDS {
        shards.push(Shard::new(alloc))?;
    }
    for row in rows {
        shards[place(row.meter())].push(row)?;
    }
    Ok(shards)
}

/// Which shard a meter's row is dealt to.
pub(crate) fn place(meter: MeterId) -> usize
    ensures value { result ≡ meter % 8 }
    ensures within { result < 8 }
{
    meter.number() as usize % SHARDS
}

/// Whether a row hasn't ended.
fn is_live(row: &RowCore) -> bool
    ensures { result ≡ not (has_ended row.now.stage) }
{
    !matches!(row.phase(), Phase::Done | Phase::Failed)
}

/// A row hears a datagram: what its head end reports of it.
///
/// # Errors
///
/// Out of memory alone. The row is then as before.
fn heard(
    alloc: Global,
    row: &mut RowCore,
    campaign: CampaignId,
    meter: MeterId,
    datagram: &[u8],
) -> Result<News, fw_head::OutOfMemory>
    ensures heard { IfOk result (λ news. (told : RowNews) × RowHears row.old datagram.now told row.new × (news ≡ news_of campaign meter told)) }
    ensures same { OnErr result (row.new ≡ row.old) }
{
    match row.hear(alloc, datagram) {
        Ok(told) => Ok(news_of(campaign, meter, told)),
        Err(error) => Err(error),
    }
}

/// What a head end reports of a row's news.
fn news_of(campaign: CampaignId, meter: MeterId, told: RowNews) -> News
    ensures { result ≡ news_of campaign meter told }
{
    match told {
        RowNews::Nothing => News::Nothing,
        RowNews::Moved => News::Moved,
        RowNews::Done(_) => News::Done(campaign, meter),
        RowNews::Failed(_) => News::Failed(campaign, meter),
    }
}

/// The image that a campaign offers. Each row of a desk is of a campaign of its book.
fn image_of(book: &Book, campaign: CampaignId) -> &[u8]
    ensures { result.now ≡ unwrap_or (image_in book.now campaign) [] }
{
    match book.offer(campaign) {
        Some(offer) => offer.image(),
        None => &[],
    }
}

/// The datagram of this number, which is for this addressee.
///
/// # Errors
///
/// `NoSuchDatagram`, `NoSuchActor` if it is for another addressee, or `OutOfMemory`.
pub(crate) fn addressed<R: Wait>(
    rt: &R,
    alloc: Global,
    log: &SharedLog,
    to: Actor,
    number: usize,
) -> Result<Datagram, StepError>
    ensures addressee { IfOk result (λ datagram. addressee datagram ≡ to) }
    ensures refused { IfErr result IsCoreRefusal }
{
    let Some(datagram) = log.get(rt, alloc, number)? else {
        return Err(StepError::NoSuchDatagram);
    };
    if datagram.to() != to {
        return Err(StepError::NoSuchActor);
    }
    Ok(datagram)
}

/// Puts in what a meter replies to a datagram that is for it, if it does.
fn reply(room: &mut Room, datagram: &Datagram, meter: MeterId, reply: Option<Vec<u8>>)
    requires addressee { addressee datagram.now ≡ actor.Meter meter }
    requires empty { room.old ≡ [] }
    ensures sent { room.new ≡ replies datagram.now (reply_bytes reply) }
    ensures most { length room.new ≤ 1 }
{
    let Some(bytes) = reply else {
        return;
    };
    room.push(Datagram {
        head: datagram.head,
        meter,
        direction: Direction::ToHead,
        bytes,
    });
}

/// Puts in what a head end sends to a meter.
fn send(room: &mut Room, head: HeadId, meter: MeterId, sends: Vec<Vec<u8>>)
    requires { length room.old + length sends.items ≤ max_width }
    ensures { room.new ≡ room.old ++ sent_to head meter (bytes_of sends.items) }
{
    for bytes in sends {
        room.push(Datagram {
            head,
            meter,
            direction: Direction::ToMeter,
            bytes,
        });
    }
}
