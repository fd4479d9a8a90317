//! The rounds of a worker over wires.

ghost use Rattle.std.specs.Prelude.{◌≡◌, IfErr};
ghost use Rattle.fw_workers.specs.Ends.{EndsUnder};

use crate::error::RoundsError;
use crate::gate::Gate;
use crate::shared_world::SharedWorld;
use crate::wire_thread::{Arrival, LinkDatagram, WireThread};
use crate::worker::Worker;
use fw_air::{LinkQueue, Sent};
use fw_world::{Actor, Direction};
use std::alloc::Global;
use std::sync::Wait;

/// The most passes of a round of a link.
const MAX_PASSES: u32 = 64;

/// The links of a worker, and its end of the channels to their wires.
#[derive(Drop)]
pub(crate) struct WiredLinks<'a> {
    pub(crate) shared: &'a SharedWorld,
    pub(crate) links: &'a [LinkQueue],
    pub(crate) wire_thread: &'a WireThread,
}

impl<'a> WiredLinks<'a> {
    /// `rounds` rounds of the links.
    pub(crate) fn rounds<R: Wait, G: Gate>(
        &self,
        rt: &R,
        alloc: Global,
        worker: &mut Worker<'_, G>,
        rounds: u32,
    ) -> Result<(), RoundsError>
        requires { worker.old.board ≡ self.now.shared.now.board.id }
        ensures board { worker.new.board ≡ worker.old.board }
        ensures end { EndsUnder G.may_shut result }
    {
        'rounds: for _ in 0..rounds {
            'links: for (place, link) in self.links.iter().enumerate() {
                self.link_round(rt, alloc, worker, place, link)?;
            }
        }
        Ok(())
    }

    /// A round of a link: the head end ticks, what comes on any link of the worker is handled until a pass brings nothing, and the
    /// meter takes its turn.
    fn link_round<R: Wait, G: Gate>(
        &self,
        rt: &R,
        alloc: Global,
        worker: &mut Worker<'_, G>,
        place: usize,
        link: &LinkQueue,
    ) -> Result<(), RoundsError>
        requires { worker.old.board ≡ self.now.shared.now.board.id }
        ensures board { worker.new.board ≡ worker.old.board }
        ensures end { EndsUnder G.may_shut result }
    {
        let asked = self
            .shared
            .tick(rt, alloc, worker, link.head(), link.meter())?;
        self.send(rt, alloc, place, Direction::ToMeter, asked)?;
        'passes: for _ in 0..MAX_PASSES {
            if !self.pass(rt, alloc, worker)? {
                break;
            }
        }
        self.shared.turn(rt, alloc, worker, link.meter())
    }

    /// Handles what a pass over the wires brings: whether it brings anything. A wire thread that has ended brings nothing.
    fn pass<R: Wait, G: Gate>(
        &self,
        rt: &R,
        alloc: Global,
        worker: &mut Worker<'_, G>,
    ) -> Result<bool, RoundsError>
        requires { worker.old.board ≡ self.now.shared.now.board.id }
        ensures board { worker.new.board ≡ worker.old.board }
        ensures end { EndsUnder G.may_shut result }
    {
        self.wire_thread.pass(rt)?;
        let mut has_come = false;
        'arrivals: for arrival in self.wire_thread.arrivals.iter(rt) {
            let Arrival::Came(datagram) = arrival else {
                break;
            };
            has_come = true;
            self.receive(rt, alloc, worker, &datagram)?;
        }
        Ok(has_come)
    }

    /// A datagram came: it is handled under its number. One that nobody sent on this link is dropped.
    fn receive<R: Wait, G: Gate>(
        &self,
        rt: &R,
        alloc: Global,
        worker: &mut Worker<'_, G>,
        datagram: &LinkDatagram,
    ) -> Result<(), RoundsError>
        requires { worker.old.board ≡ self.now.shared.now.board.id }
        ensures board { worker.new.board ≡ worker.old.board }
        ensures end { EndsUnder G.may_shut result }
    {
        let Some(link) = self.links.get(datagram.link) else {
            return Ok(());
        };
        let Some(number) = self.number(rt, link, datagram) else {
            return Ok(());
        };
        match datagram.direction {
            Direction::ToMeter => {
                let replies = self.shared.serve(rt, alloc, worker, link.meter(), number)?;
                self.send(rt, alloc, datagram.link, Direction::ToHead, replies)
            }
            Direction::ToHead => self.shared.hear(rt, alloc, worker, link.head(), number),
        }
    }

    /// The number under which a datagram was sent, and `None` if it wasn't.
    fn number<R: Wait>(&self, rt: &R, link: &LinkQueue, datagram: &LinkDatagram) -> Option<usize> {
        let log = self.shared.log();
        let head = Actor::Head(link.head());
        let meter = Actor::Meter(link.meter());
        let number = match datagram.direction {
            Direction::ToMeter => log.find(rt, head, meter, &datagram.bytes)?,
            Direction::ToHead => log.find(rt, meter, head, &datagram.bytes)?,
        };
        usize::try_from(number).ok()
    }

    /// Passes on what was sent on a link, so that the wire thread sends it.
    fn send<R: Wait>(
        &self,
        rt: &R,
        alloc: Global,
        link: usize,
        direction: Direction,
        sent: Sent,
    ) -> Result<(), RoundsError>
        ensures { IfErr result (λ e. e ≡ RoundsError.OutOfMemory) }
    {
        let end = sent.first.saturating_add(sent.count);
        'datagrams: for number in sent.first..end {
            if let Some(datagram) = self.shared.log().get(rt, alloc, number)? {
                let datagram = LinkDatagram {
                    link,
                    direction,
                    bytes: datagram.bytes,
                };
                self.wire_thread.send(rt, datagram)?;
            }
        }
        Ok(())
    }
}
