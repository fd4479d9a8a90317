//! The sealing port.

ghost use Rattle.std.specs.Prelude.{◌≡◌, ◌≤◌, IfNone, IfOk, IfSome, IsErr, IsSome, OnErr, None, length, take};
ghost use Rattle.fw_sealport.specs.Calls.{BringsNothing, DropsFrom, LetsArrive, Sends, StaysClosed};
ghost use Rattle.fw_sealport.specs.Counts.{refused};
ghost use Rattle.fw_sealport.specs.Peers.{LetsThroughFrom};

use crate::dropped::Dropped;
use crate::links::Links;
use crate::sealer::Sealer;
use crate::wire_port::WirePort;
use fw_counter::{CounterError, KeptCounters};
use fw_journal::JournalDevice;
use fw_port::{Arrival, Closed, Patience, Port};
use std::alloc::Global;
use std::net::SocketAddr;

/// A port whose links are sealed, over the one of its datagrams. What comes is opened under the link of the address that it shows, and what
/// is sent is sealed under that of the address that it goes to, with a counter that is reserved on the device before and used once. What
/// doesn't open is dropped, as if nothing had come, and what has no link or no sealing isn't sent. If no counter is given any more, the
/// port is closed.
///
/// What the port below does isn't known here, so it is not honest.
pub struct SealedPort<P: WirePort + Drop, D: JournalDevice + Drop> {
    alloc: Global,
    port: P,
    links: Links,
    sealer: Sealer<D>,
    dropped: Dropped,
}

// Written out, so that letting go of it is one call in a proof. A derived `Drop` is unfolded there field by field, which takes minutes.
impl<P: WirePort + Drop, D: JournalDevice + Drop> Drop for SealedPort<P, D> {
    fn drop(self) {
        let SealedPort {
            alloc: _,
            port: _,
            links: _,
            sealer: _,
            dropped: _,
        } = self;
    }
}

impl<P: WirePort + Drop, D: JournalDevice + Drop> SealedPort<P, D> {
    /// The port with these links over another one. What it sends is sealed with these counters.
    pub fn new(alloc: Global, port: P, links: Links, counters: KeptCounters<D>) -> SealedPort<P, D>
        ensures port { result.port ≡ port }
        ensures links { result.links ≡ links }
        ensures counters { result.sealer.counters ≡ counters }
        ensures open { result.sealer.fault ≡ None }
        ensures dropped { result.dropped ≡ record { strangers = 0; unopened = 0; repeated = 0; unserved = 0; unsealed = 0 } }
    {
        SealedPort {
            alloc,
            port,
            links,
            sealer: Sealer::new(counters),
            dropped: Dropped::none(),
        }
    }

    /// Why the port is closed, if no counter is given any more.
    pub fn fault(&self) -> Option<CounterError>
        ensures { result ≡ self.now.sealer.fault }
    {
        self.sealer.fault()
    }

    /// How many datagrams were dropped.
    pub fn dropped(&self) -> Dropped
        ensures { result ≡ self.now.dropped }
    {
        self.dropped
    }

    /// The port below.
    pub fn below(&self) -> &P
        ensures { result.now ≡ self.now.port }
    {
        &self.port
    }

    /// How often the port below failed.
    pub(crate) fn count_of_faults(&self) -> u64 {
        self.port.faults()
    }

    /// How many datagrams came and weren't let through: of strangers, such as don't open, and such as came before.
    pub(crate) fn count_of_unopened(&self) -> u64
        ensures { result ≡ refused self.now.dropped }
    {
        self.dropped.refused()
    }

    /// Receives the next datagram, and opens it. If it doesn't open, nothing came, which the port below is told.
    ///
    /// # Errors
    ///
    /// `Closed` if the port below is closed, or no counter is given any more. Nothing is received then.
    pub fn receive_opened(
        &mut self,
        patience: Patience,
        buffer: &mut [u8],
    ) -> Result<Option<Arrival>, Closed>
        ensures bound { IfOk result (λ came. IfSome came (λ a. a.count ≤ length buffer.new)) }
        ensures arrives { IfOk result (λ came. IfSome came (λ a. LetsArrive P.honest P.acts self.old a.from (take a.count buffer.new) self.new)) }
        ensures nothing { IfOk result (λ came. IfNone came (BringsNothing P.honest P.acts self.old self.new)) }
        ensures closed { OnErr result (StaysClosed P.honest P.acts self.old self.new) }
        ensures ended { IsSome self.old.sealer.fault → IsErr result × (self.new ≡ self.old) }
        ensures honesty { P.honest self.new.port ≡ P.honest self.old.port }
    {
        if self.sealer.fault().is_some() {
            return Err(Closed);
        }
        let Some(arrival) = self.port.receive(patience, buffer)? else {
            return Ok(None);
        };
        let from = arrival.from;
        let Some(count) = self.open_in_place(from, buffer, arrival.count) else {
            self.port.note_unopened(patience);
            return Ok(None);
        };
        Ok(Some(Arrival { from, count }))
    }

    /// Opens the first `count` bytes of a buffer, which came from an address, in their place. The plain datagram has as many bytes as are
    /// returned.
    fn open_in_place(&mut self, from: SocketAddr, buffer: &mut [u8], count: usize) -> Option<usize>
        requires { count ≤ length buffer.old }
        ensures lets { IfSome result (λ n. LetsThroughFrom self.old.links from (take count buffer.old) (take n buffer.new) self.new.links) }
        ensures bound { IfSome result (λ n. n ≤ length buffer.new) }
        ensures uncounted { IfSome result (λ n. self.new.dropped ≡ self.old.dropped) }
        ensures drops { IfNone result (DropsFrom self.old.links self.old.dropped from (take count buffer.old) self.new.links self.new.dropped) }
        ensures port { self.new.port ≡ self.old.port }
        ensures sealer { self.new.sealer ≡ self.old.sealer }
    {
        match self.links.open(self.alloc, from, &buffer[..count]) {
            Ok(plain) => {
                let len = plain.len();
                buffer[..len].copy_from_slice(&plain);
                Some(len)
            }
            Err(reason) => {
                self.dropped.count_unopened(reason);
                None
            }
        }
    }

    /// Sends what is sealed of a datagram in its place. What can't be sealed is lost, and counted.
    pub fn send_sealed(&mut self, to: SocketAddr, datagram: &[u8])
        ensures sends { Sends P.honest P.acts D.JournalDevice self.old to datagram.now self.new }
        ensures honesty { P.honest self.new.port ≡ P.honest self.old.port }
    {
        let Some(link) = self.links.link(to) else {
            self.dropped.count_unsealed();
            return;
        };
        match self.sealer.seal(self.alloc, link, datagram) {
            Ok(wire) => self.port.send_sealing(to, &wire, &self.links),
            Err(_) => self.dropped.count_unsealed(),
        }
    }
}
