//! What was sent, and what happened, as a list that grows at its end.

ghost use Rattle.std.specs.Prelude.{
  ◌≡◌,
  ℕ,
  ◌+◌,
  ◌-◌,
  ◌^◌,
  ◌<◌,
  ◌≤◌,
  ◌++◌,
  ◌∷◌,
  [],
  List,
  IfOk,
  OnOk,
  OnErr,
  length,
  map,
  reverse,
  slice_get,
};
ghost use Rattle.fw_blocks.specs.Width.{max_width};
ghost use Rattle.fw_air.specs.Logs.{FindsLast, IsCopy, IsCounted, IsSent, capped};
ghost use Rattle.fw_air.specs.Parts.{FindsLastFrom, datagrams_of, entries_of, parts};
ghost use Rattle.fw_world.specs.View.{event_of};

use crate::wanted::Wanted;
use fw_blocks::MAX_WIDTH;
use fw_world::{Actor, Datagram, Event};
use std::alloc::{AllocError, Global};
use std::marker::Model;
use std::mem;

/// The most datagrams that an event adds: those of a whole window.
pub const MAX_ADDED: usize = MAX_WIDTH as usize;

/// An event, and how many datagrams it added to what was sent.
#[derive(Drop)]
pub struct Entry {
    /// What happened.
    pub event: Event,
    /// How many datagrams were sent in it.
    pub count: usize,
}

impl Model for Entry {
    ghost use Rattle.fw_world.specs.View.{event_of};
    ghost use Rattle.fw_air.specs.Logs as logs;

    ghost Value = { logs.Entry };

    ghost view = { λ e. record { event = event_of e.event; count = e.count } };
}

/// Which event was added to a log, and which datagrams with it. A number that would be greater is 2^64 - 1.
#[derive(Clone, Copy)]
pub struct Sent {
    /// The number of the event, from 0 on.
    pub event: usize,
    /// The number of the first datagram that it added, from 0 on: how many stood there before.
    pub first: usize,
    /// How many datagrams it added.
    pub count: usize,
}

/// An event with the datagrams that it added.
#[derive(Drop)]
pub(crate) struct Part {
    event: Event,
    sent: Vec<Datagram>,
}

/// Parts, the newest first.
#[derive(Drop)]
pub(crate) enum Chain {
    End,
    Link(Part, Box<Chain>),
}

/// A chain that is dropped link by link, however long it is.
pub(crate) struct Newer {
    chain: Chain,
}

impl Drop for Newer {
    fn drop(self) {
        let Newer { mut chain } = self;
        loop {
            match chain {
                Chain::End => return,
                Chain::Link(_, older) => chain = Box::into_inner(older),
            }
        }
    }
}

/// The memory for one event and 15 datagrams, with those that it is to add.
#[derive(Drop)]
pub struct Room {
    link: Box<Chain>,
    sent: Vec<Datagram>,
}

impl Model for Room {
    ghost use Rattle.std.specs.Prelude.{List, ◌≤◌, length};
    ghost use Rattle.std.specs.Vec.{vec_capacity};
    ghost use Rattle.fw_blocks.specs.Width.{max_width};
    ghost use Rattle.fw_world.specs.World.{Datagram};

    ghost Value = { List Datagram };

    ghost view = { λ r. r.sent.items };

    ghost invariant = { λ r. max_width ≤ vec_capacity r.sent };
}

impl Room {
    /// Takes the memory. There is no datagram in it.
    ///
    /// # Errors
    ///
    /// Out of memory alone.
    pub fn new(alloc: Global) -> Result<Room, AllocError>
        ensures { IfOk result (λ room. room ≡ []) }
    {
        let sent = Vec::with_capacity(alloc, MAX_ADDED)?;
        let Ok(link) = Box::new(alloc, Chain::End) else {
            return Err(AllocError);
        };
        Ok(Room { link, sent })
    }

    /// Puts in a datagram that the event sends, after those that are there. It asks that these are fewer than 15, and takes no
    /// memory.
    pub fn push(&mut self, datagram: Datagram)
        requires { length self.old < max_width }
        ensures { self.new ≡ self.old ++ datagram ∷ [] }
    {
        self.sent.push_reserved(datagram);
    }
}

/// All datagrams that were sent, and all events that happened, each with the number of datagrams that it added.
pub struct Log {
    sent: Vec<Datagram>,
    entries: Vec<Entry>,
    /// What was added since.
    newer: Newer,
    /// How many events and datagrams there are.
    events: usize,
    datagrams: usize,
}

// Written out, so that letting go of it is one call in a proof. A derived `Drop` is unfolded there field by field, which takes minutes.
impl Drop for Log {
    fn drop(self) {
        let Log {
            sent: _,
            entries: _,
            newer: _,
            events: _,
            datagrams: _,
        } = self;
    }
}

impl Model for Log {
    ghost use Rattle.std.specs.Prelude.{◌++◌};
    ghost use Rattle.fw_air.specs.Logs as logs;

    ghost Value = { logs.Log };

    ghost use Rattle.fw_air.specs.Parts.{datagrams_of, entries_of, parts, IsKept};

    ghost view = { λ l. record {
      sent = l.sent.items ++ datagrams_of (parts l.newer.chain);
      entries = l.entries.items ++ entries_of (parts l.newer.chain);
    } };

    ghost invariant = { λ l. IsKept
        (l.sent.items ++ datagrams_of (parts l.newer.chain))
        (l.entries.items ++ entries_of (parts l.newer.chain))
        l.events l.datagrams };
}

impl Log {
    /// A log of what was sent and of what happened before. It asks that the events' numbers of datagrams sum to how many were
    /// sent.
    pub fn new(sent: Vec<Datagram>, entries: Vec<Entry>) -> Log
        requires { IsCounted (record { sent = sent.items; entries = entries.items }) }
        ensures { result ≡ record { sent = sent.items; entries = entries.items } }
    {
        let events = entries.len();
        let datagrams = sent.len();
        Log {
            sent,
            entries,
            newer: Newer { chain: Chain::End },
            events,
            datagrams,
        }
    }

    /// Adds an event, with the datagrams that stand in the room. It takes no memory except the room's.
    pub fn add(&mut self, room: Room, event: Event) -> Sent
        ensures log { self.new ≡ record {
          sent = self.old.sent ++ room;
          entries = self.old.entries ++ (record { event = event_of event; count = length room }) ∷ [];
        } }
        ensures answer { result ≡ record {
          event = capped (length self.old.entries);
          first = capped (length self.old.sent);
          count = length room;
        } }
        ensures counted { IsCounted self.new }
    {
        let Room { mut link, sent } = room;
        let added = Sent {
            event: self.events,
            first: self.datagrams,
            count: sent.as_slice().len(),
        };
        self.events = self.events.saturating_add(1);
        self.datagrams = self.datagrams.saturating_add(added.count);
        *link = mem::replace(&mut self.newer.chain, Chain::End);
        self.newer.chain = Chain::Link(Part { event, sent }, link);
        added
    }

    /// A copy of the datagram of a number, and `None` if there is none.
    ///
    /// # Errors
    ///
    /// Out of memory alone, and only if there is one.
    pub fn get(&self, alloc: Global, number: usize) -> Result<Option<Datagram>, AllocError>
        // No memory has room for more.
        ensures { length self.now.sent < 2 ^ 64 - 1 → IsCopy result (slice_get self.now.sent number) }
    {
        let first = self.sent.as_slice();
        if number < first.len() {
            return copy_at(alloc, first, number);
        }
        find(alloc, &self.newer.chain, self.datagrams, number)
    }

    /// The greatest number of a datagram with these bytes that this sender sent to this addressee, and `None` if there is none.
    /// It takes no memory.
    pub fn find(&self, from: Actor, to: Actor, bytes: &[u8]) -> Option<u64>
        // No memory has room for more.
        ensures { length self.now.sent < 2 ^ 64 - 1 → FindsLast result self.now.sent (IsSent from to bytes.now) }
    {
        let wanted = Wanted { from, to, bytes };
        match find_last(&self.newer.chain, self.datagrams, &wanted) {
            Some(number) => Some(number as u64),
            None => Some(wanted.last_in(&self.sent)? as u64),
        }
    }

    /// Both lists, what was sent and what happened.
    ///
    /// # Errors
    ///
    /// Out of memory alone, and only if there is an event. The log is then lost.
    pub fn into_inner(self, alloc: Global) -> Result<(Vec<Datagram>, Vec<Entry>), AllocError>
        ensures memory { OnErr result (1 ≤ length self.entries) }
        ensures lists { IfOk result (λ lists. (lists.0.items ≡ self.sent) × (lists.1.items ≡ self.entries)) }
        ensures counted { IfOk result (λ lists. IsCounted (record { sent = lists.0.items; entries = lists.1.items })) }
    {
        let Log {
            mut sent,
            mut entries,
            newer,
            events: _,
            datagrams: _,
        } = self;
        let newest_first = unlinked(alloc, newer)?;
        unfold(&mut sent, &mut entries, newest_first)?;
        Ok((sent, entries))
    }
}

/// A copy of a datagram of a list.
fn copy_at(alloc: Global, list: &[Datagram], number: usize) -> Result<Option<Datagram>, AllocError>
    ensures { IsCopy result (slice_get list.now number) }
{
    match list.get(number) {
        None => Ok(None),
        Some(datagram) => Ok(Some(Datagram {
            head: datagram.head,
            meter: datagram.meter,
            direction: datagram.direction,
            bytes: Vec::from_slice(alloc, &datagram.bytes)?,
        })),
    }
}

/// Looks for a datagram among the newer parts. The number after their last datagram is `end`.
fn find(
    alloc: Global,
    chain: &Chain,
    end: usize,
    number: usize,
) -> Result<Option<Datagram>, AllocError>
    ensures { (base : ℕ) → end ≡ base + length (datagrams_of (parts chain.now)) → base ≤ number
        → IsCopy result (slice_get (datagrams_of (parts chain.now)) (number - base)) }
{
    let mut end = end;
    let mut chain = chain;
    'links: while let Chain::Link(part, older) = chain {
        let here = part.sent.as_slice();
        let start = end.saturating_sub(here.len());
        if start <= number {
            return copy_at(alloc, here, number - start);
        }
        end = start;
        chain = older;
    }
    Ok(None)
}

/// The greatest number of such a datagram among the newer parts. The number after their last datagram is `end`.
fn find_last(chain: &Chain, end: usize, wanted: &Wanted<'_>) -> Option<usize>
    ensures { (base : ℕ) → end ≡ base + length (datagrams_of (parts chain.now))
        → FindsLastFrom base result (datagrams_of (parts chain.now)) (IsSent wanted.now.from wanted.now.to wanted.now.bytes.now) }
{
    let mut end = end;
    let mut chain = chain;
    'links: while let Chain::Link(part, older) = chain {
        let here = part.sent.as_slice();
        let start = end.saturating_sub(here.len());
        if let Some(at) = wanted.last_in(here) {
            return Some(start.saturating_add(at));
        }
        end = start;
        chain = older;
    }
    None
}

/// The parts of a chain, the newest first.
fn unlinked(alloc: Global, newer: Newer) -> Result<Vec<Part>, AllocError>
    ensures all { IfOk result (λ all. reverse all.items ≡ parts newer.chain) }
    ensures memory { OnErr result (1 ≤ length (parts newer.chain)) }
{
    let mut newer = newer;
    let mut all = Vec::new(alloc);
    'links: loop {
        match mem::replace(&mut newer.chain, Chain::End) {
            Chain::End => return Ok(all),
            Chain::Link(part, older) => {
                newer.chain = Box::into_inner(older);
                all.push(part)?;
            }
        }
    }
}

/// Appends parts, the last of which comes first.
fn unfold(
    sent: &mut Vec<Datagram>,
    entries: &mut Vec<Entry>,
    newest_first: Vec<Part>,
) -> Result<(), AllocError>
    ensures sent { OnOk result (sent.new.items ≡ sent.old.items ++ datagrams_of (reverse newest_first.items)) }
    ensures entries { OnOk result (entries.new.items ≡ entries.old.items ++ entries_of (reverse newest_first.items)) }
    ensures memory { OnErr result (1 ≤ length newest_first.items) }
{
    let mut rest = newest_first;
    while let Some(part) = rest.pop() {
        let Part {
            event,
            sent: mut added,
        } = part;
        let count = added.len();
        sent.append(&mut added)?;
        entries.push(Entry { event, count })?;
    }
    Ok(())
}
