//! A log that threads share.

ghost use Rattle.std.specs.Prelude.{◌≡◌, [], length, IfOk};
ghost use Rattle.fw_air.specs.Logs.{IsCounted};
ghost use Rattle.fw_air.specs.Events.{core_event_of};

use crate::core_event::CoreEvent;
use crate::log::{Entry, Log, Room, Sent};
use fw_world::{Actor, Datagram};
use std::alloc::{AllocError, Global};
use std::marker::Model;
use std::sync::{Mutex, Wait};

/// Stands for an event that was appended, under its number. It can't be dropped: only `spend` ends it, so who appended an event
/// has to account for it.
pub struct Stub {
    number: usize,
    event: CoreEvent,
}

impl Model for Stub {
    ghost use Rattle.fw_air.specs.Events.{core_event_of};
    ghost use Rattle.fw_air.specs.Logs.{Appended};

    ghost Value = { Appended };

    ghost view = { λ s. record { number = s.number; event = core_event_of s.event } };
}

impl Stub {
    /// What was appended, with the stub of the event.
    fn behind(sent: Sent, event: CoreEvent) -> (Sent, Stub)
        ensures sent { result.0 ≡ sent }
        ensures stub { result.1 ≡ record { number = sent.event; event = core_event_of event } }
    {
        let stub = Stub {
            number: sent.event,
            event,
        };
        (sent, stub)
    }

    /// The number of the event, from 0 on, and the event.
    pub fn spend(self) -> (usize, CoreEvent)
        ensures { self ≡ record { number = result.0; event = core_event_of result.1 } }
    {
        let Stub { number, event } = self;
        (number, event)
    }
}

/// A log under a lock, for which its calls may wait. Whenever the lock is free, the numbers of datagrams that the events added sum to how
/// many were sent.
#[derive(Drop)]
pub struct SharedLog {
    log: Mutex<Log>,
}

impl SharedLog {
    /// A log of what was sent and of what happened before. It asks that the events' numbers of datagrams sum to how many were
    /// sent.
    pub fn new(sent: Vec<Datagram>, entries: Vec<Entry>) -> SharedLog
        requires { IsCounted (record { sent = sent.items; entries = entries.items }) }
    {
        SharedLog {
            log: Mutex::new(Log::new(sent, entries)),
        }
    }

    /// A copy of the datagram of a number, and `None` if there is none yet.
    ///
    /// # Errors
    ///
    /// Out of memory alone.
    pub fn get<R: Wait>(
        &self,
        rt: &R,
        alloc: Global,
        number: usize,
    ) -> Result<Option<Datagram>, AllocError> {
        self.log.lock(rt).get(alloc, number)
    }

    /// The greatest number of a datagram with these bytes that this sender sent to this addressee, and `None` if there is none
    /// yet. It takes no memory.
    pub fn find<R: Wait>(&self, rt: &R, from: Actor, to: Actor, bytes: &[u8]) -> Option<u64> {
        self.log.lock(rt).find(from, to, bytes)
    }

    /// The memory for one event and 15 datagrams. It takes no lock.
    ///
    /// # Errors
    ///
    /// Out of memory alone.
    pub fn reserve(&self, alloc: Global) -> Result<Room, AllocError>
        ensures { IfOk result (λ room. room ≡ []) }
    {
        Room::new(alloc)
    }

    /// Adds an event with the datagrams that stand in the room, in one piece. It takes no memory except the room's. The stub says
    /// that it was added, and has to be spent.
    pub fn append<R: Wait>(&self, rt: &R, room: Room, event: CoreEvent) -> (Sent, Stub)
        ensures sent { result.0.count ≡ length room }
        ensures stub { result.1 ≡ record { number = result.0.event; event = core_event_of event } }
    {
        let sent = self.add(rt, room, &event);
        Stub::behind(sent, event)
    }

    /// Adds an event under the lock.
    fn add<R: Wait>(&self, rt: &R, room: Room, event: &CoreEvent) -> Sent
        ensures { result.count ≡ length room }
    {
        self.log.lock(rt).add(room, event.event())
    }

    /// Both lists, what was sent and what happened.
    ///
    /// # Errors
    ///
    /// Out of memory alone, and only if there is an event. The log is then lost.
    pub fn into_inner(self, alloc: Global) -> Result<(Vec<Datagram>, Vec<Entry>), AllocError>
        ensures { IfOk result (λ lists. IsCounted (record { sent = lists.0.items; entries = lists.1.items })) }
    {
        self.log.into_inner().into_inner(alloc)
    }
}
