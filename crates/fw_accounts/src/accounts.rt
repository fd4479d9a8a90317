//! Whether what workers left is what they made.

ghost use Rattle.std.specs.Prelude.{
  ◌≡◌,
  ◌↔◌,
  ◌≤◌,
  ◌<◌,
  ◌+◌,
  ◌++◌,
  ◌^◌,
  Some,
  All,
  IsErrOf,
  IsTrue,
  IfOk,
  OnErr,
  OnOk,
  SomeIff,
  count_by,
  length,
  map,
};
ghost use Rattle.std.specs.List.Sorted.{IsNonDecreasingBy, IsPermutation};
ghost use Rattle.fw_air.specs.Events.{core_event_of};
ghost use Rattle.fw_air.specs.Links.{link_of};
ghost use Rattle.fw_world.specs.Done.{done_in, done_rows};
ghost use Rattle.fw_world.specs.Runs.{events_of};
ghost use Rattle.fw_world.specs.State.{is_done};
ghost use Rattle.fw_world.specs.View.{event_of};
ghost use Rattle.fw_accounts.specs.Accounts.{
  AreDealt,
  HasItsTicks,
  IsOfLog,
  IsRising,
  all_of,
  its_ticks,
  numbered,
  recorded,
  ticks_of,
};
ghost use Rattle.fw_accounts.specs.Refusals.{AreOfWorkers, IsUnaccounted, WantsMemory};
ghost use Rattle.fw_accounts.specs.Reported.{IsReported};

use crate::error::AccountError;
use crate::receipts::Receipts;
use crate::report::Report;
use fw_air::{CoreEvent, Entry, LinkQueue, Receipt, audit, links_of};
use fw_book::{Book, Row, RowState};
use fw_head::HeadCore;
use fw_world::{Datagram, Event, NumberedMeter, Setup, World};
use std::alloc::{AllocError, Global};

/// What workers left: the parts of a world, the log, the board's count and the receipts.
#[derive(Drop)]
pub struct LeftByWorkers {
    /// The head ends.
    pub heads: Vec<HeadCore>,
    /// The meters, with their numbers.
    pub meters: Vec<NumberedMeter>,
    /// All that was sent.
    pub sent: Vec<Datagram>,
    /// The given events, and after them those of the workers.
    pub entries: Vec<Entry>,
    /// How many rows the board has as done.
    pub board: u64,
    /// The receipts of each worker, in the order of the workers' numbers.
    pub receipts: Vec<Receipts>,
}

/// Compares what the workers left with what their record leads to, where they were to make this number of rounds of all links after
/// the given events. What is answered rests on this alone, not on what they did.
///
/// # Errors
///
/// `Mismatch` if anything differs, and only there. Otherwise `OutOfMemory` alone, and only if there are receipts of each worker,
/// whose numbers rise, and there is anything to copy or a world to make.
pub fn account(
    alloc: Global,
    setup: &Setup,
    given: &[Event],
    rounds: u32,
    workers: u32,
    left: LeftByWorkers,
) -> Result<Report, AccountError>
    requires { 1 ≤ workers }
    ensures reported { IfOk result (λ r. IsReported setup.now (events_of given.now) rounds workers r.world r.board r.receipts.items) }
    ensures log { IfOk result (λ r. IsOfLog setup.now (events_of given.now) left.entries.items r.world r.receipts.items) }
    ensures kept { IfOk result (λ r. (r.board ≡ left.board) × (r.receipts ≡ left.receipts)) }
    ensures mismatch { IsErrOf result AccountError.Mismatch → IsUnaccounted setup.now (events_of given.now) rounds workers
        left.heads.items left.meters.items left.sent.items left.entries.items left.board left.receipts.items }
    ensures memory { IsErrOf result AccountError.OutOfMemory → AreOfWorkers workers left.receipts.items
        × WantsMemory setup.now (events_of given.now) left.entries.items left.receipts.items }
{
    let LeftByWorkers {
        heads,
        meters,
        sent,
        entries,
        board,
        receipts,
    } = left;
    if !are_of_workers(&receipts, workers) {
        return Err(AccountError::Mismatch);
    }
    let events = record_of(alloc, given, entries)?;
    if !are_numbered(alloc, given.len(), &events[given.len()..], &receipts)? {
        return Err(AccountError::Mismatch);
    }
    let world = audit(alloc, setup, &events, &heads, &meters, &sent)?;
    let links = links_of(alloc, setup, &world)?;
    if !are_dealt(&links, rounds, workers, &receipts) {
        return Err(AccountError::Mismatch);
    }
    if !is_count(board, setup, &world) {
        return Err(AccountError::Mismatch);
    }
    Ok(Report {
        world,
        board,
        receipts,
    })
}

/// The given events, each once, and after them those of the entries that come after theirs.
fn record_of(alloc: Global, given: &[Event], entries: Vec<Entry>) -> Result<Vec<Event>, AllocError>
    ensures events { IfOk result (λ v. events_of v.items ≡ recorded (events_of given.now) entries.items) }
    ensures memory { OnErr result (1 ≤ length (recorded (events_of given.now) entries.items)) }
{
    let mut events = copied(alloc, given)?;
    for entry in entries.into_iter().skip(given.len()) {
        events.push(entry.event)?;
    }
    Ok(events)
}

/// Copies of these events. It takes memory only if there is one.
pub(crate) fn copied(alloc: Global, events: &[Event]) -> Result<Vec<Event>, AllocError>
    ensures copies { IfOk result (λ v. events_of v.items ≡ events_of events.now) }
    ensures memory { OnErr result (1 ≤ length events.now) }
{
    if events.is_empty() {
        return Ok(Vec::new(alloc));
    }
    let copies = events.to_vec(alloc)?;
    Ok(copies)
}

/// Whether each worker has its receipts, and their numbers rise.
fn are_of_workers(receipts: &[Receipts], workers: u32) -> bool
    ensures { IsTrue result ↔ AreOfWorkers workers receipts.now }
{
    receipts.len() == workers as usize && are_rising(receipts)
}

/// Whether each worker's numbers rise.
fn are_rising(receipts: &[Receipts]) -> bool
    ensures { IsTrue result ↔ All IsRising receipts.now }
{
    receipts.iter().all(|of_worker| of_worker.is_rising())
}

/// Whether the receipts are those for these events, each once, with their numbers from `first` on.
fn are_numbered(
    alloc: Global,
    first: usize,
    made: &[Event],
    receipts: &[Receipts],
) -> Result<bool, AllocError>
    requires { first + length made.now < 2 ^ 64 }
    ensures numbered { IfOk result (λ b. IsTrue b ↔ IsPermutation (all_of receipts.now) (numbered first (events_of made.now))) }
    ensures memory { OnErr result (1 ≤ length (all_of receipts.now)) }
{
    let all = in_order(alloc, receipts)?;
    Ok(are_for(&all, first, made))
}

/// The receipts of all workers, in the order of their numbers.
pub(crate) fn in_order(alloc: Global, receipts: &[Receipts]) -> Result<Vec<Receipt>, AllocError>
    ensures same { IfOk result (λ all. IsPermutation (all_of receipts.now) all.items) }
    ensures in_order { IfOk result (λ all. IsNonDecreasingBy (λ receipt. receipt.number) all.items) }
    ensures memory { OnErr result (1 ≤ length (all_of receipts.now)) }
{
    let mut all = joined(alloc, receipts)?;
    all.sort_by_key(|receipt| receipt.number)?;
    Ok(all)
}

/// The receipts of all workers, one worker's after another's.
fn joined(alloc: Global, receipts: &[Receipts]) -> Result<Vec<Receipt>, AllocError>
    ensures all { IfOk result (λ v. v.items ≡ all_of receipts.now) }
    ensures memory { OnErr result (1 ≤ length (all_of receipts.now)) }
{
    let mut all = Vec::new(alloc);
    for of_worker in receipts {
        push_all(&mut all, of_worker.as_slice())?;
    }
    Ok(all)
}

/// Appends copies of these receipts.
fn push_all(all: &mut Vec<Receipt>, receipts: &[Receipt]) -> Result<(), AllocError>
    ensures pushed { OnOk result (all.new.items ≡ all.old.items ++ receipts.now) }
    ensures memory { OnErr result (1 ≤ length receipts.now) }
{
    for receipt in receipts {
        all.push(Receipt {
            number: receipt.number,
            event: receipt.event,
        })?;
    }
    Ok(())
}

/// Whether the receipts are, one by one, those for these events, with their numbers from `first` on.
fn are_for(receipts: &[Receipt], first: usize, made: &[Event]) -> bool
    requires { first + length made.now < 2 ^ 64 }
    ensures { IsTrue result ↔ (receipts.now ≡ numbered first (events_of made.now)) }
{
    if receipts.len() != made.len() {
        return false;
    }
    for at in 0..made.len() {
        if !is_for(&receipts[at], first + at, &made[at]) {
            return false;
        }
    }
    true
}

/// Whether a receipt is that for this event, under this number.
fn is_for(receipt: &Receipt, number: usize, event: &Event) -> bool
    ensures { IsTrue result ↔ ((receipt.now.number ≡ number) × (event_of event.now ≡ receipt.now.event)) }
{
    receipt.number == number && is_event(receipt.event, event)
}

/// Whether a worker's event is this event.
fn is_event(made: CoreEvent, event: &Event) -> bool
    ensures { IsTrue result ↔ (event_of event.now ≡ core_event_of made) }
{
    match made {
        CoreEvent::Tick(head, meter) => {
            matches!(event, Event::Tick(by, of) if *by == head && *of == meter)
        }
        CoreEvent::Deliver(number) => matches!(event, Event::Deliver(of) if *of == number),
        CoreEvent::Turn(meter) => matches!(event, Event::Turn(of) if *of == meter),
    }
}

/// Whether each worker made as many ticks of each link as it should have.
fn are_dealt(links: &[LinkQueue], rounds: u32, workers: u32, receipts: &[Receipts]) -> bool
    requires { 1 ≤ workers }
    ensures { IsTrue result ↔ AreDealt (map link_of links.now) rounds workers receipts.now }
{
    for worker in 0..receipts.len() {
        if !has_its_ticks(links, rounds, workers, worker, &receipts[worker]) {
            return false;
        }
    }
    true
}

/// Whether a worker made as many ticks of each link as it should have.
fn has_its_ticks(
    links: &[LinkQueue],
    rounds: u32,
    workers: u32,
    worker: usize,
    receipts: &Receipts,
) -> bool
    requires { 1 ≤ workers }
    ensures { IsTrue result ↔ HasItsTicks (map link_of links.now) rounds workers worker receipts.now }
{
    for j in 0..links.len() {
        let its = its_ticks(rounds, workers, worker, j);
        if !has_ticks(&links[j], its, receipts) {
            return false;
        }
    }
    true
}

/// How many ticks a worker makes of the link of this place.
fn its_ticks(rounds: u32, workers: u32, worker: usize, j: usize) -> usize
    requires { 1 ≤ workers }
    ensures { result ≡ its_ticks rounds workers worker j }
{
    if j % workers as usize == worker {
        rounds as usize
    } else {
        0
    }
}

/// Whether this is how many ticks of a link there are among these receipts.
fn has_ticks(link: &LinkQueue, wanted: usize, receipts: &Receipts) -> bool
    ensures { IsTrue result ↔ (ticks_of (link_of link.now).head (link_of link.now).meter receipts.now ≡ wanted) }
{
    receipts.ticks(link.head(), link.meter()) == wanted
}

/// Whether this is how many rows of all head ends are done.
fn is_count(board: u64, setup: &Setup, world: &World) -> bool
    ensures { IsTrue result ↔ (board ≡ done_rows setup.now world.now) }
{
    match done_rows(setup, world) {
        Some(done) => done == board,
        None => false,
    }
}

/// How many rows of all head ends are done, and `None` if they are more than 2^64 - 1.
pub fn done_rows(setup: &Setup, world: &World) -> Option<u64>
    ensures { SomeIff result (done_rows setup.now world.now < 2 ^ 64) (done_rows setup.now world.now) }
{
    let mut done = 0u64;
    for head in &setup.heads {
        if let Some(book) = world.book(head.head) {
            done = done.checked_add(done_in(book)?)?;
        }
    }
    Some(done)
}

/// How many rows of a book are done.
fn done_in(book: &Book) -> Option<u64>
    ensures { SomeIff result (done_in book.now < 2 ^ 64) (done_in book.now) }
{
    let mut done = 0u64;
    for (_serial, offer) in book.rows() {
        done = done.checked_add(done_among(offer.rows()) as u64)?;
    }
    Some(done)
}

/// How many of these rows are done.
fn done_among(rows: &[Row]) -> usize
    ensures { result ≡ count_by (λ row. is_done (Some row.state)) rows.now }
{
    rows.iter()
        .filter(|row| row.state == RowState::Done)
        .count()
}
