//! Ports in memory, of which it is known what they did.

ghost use Rattle.std.specs.Prelude.{◌≡◌, ◌++◌, [], ◌∷◌, List};
ghost use Rattle.fw_port.specs.Acts.{Act, told};
ghost use Rattle.fw_port.specs.Lists.{acts_of};

use crate::port::{Arrival, Closed, Patience, Port};
use std::alloc::Global;
use std::marker::PhantomData;
use std::net::SocketAddr;
use std::sync::Wait;
use std::vec::IntoIter;

/// How much later it is after each receive, in microseconds.
pub const TICK: u64 = 1_000;

/// A datagram, with the address that it came from or goes to.
#[derive(Drop)]
pub struct Datagram {
    /// The address.
    pub address: SocketAddr,
    /// The datagram's bytes.
    pub bytes: Vec<u8>,
}

/// What a port in memory did.
#[derive(Drop)]
pub enum Deed<Report> {
    /// This datagram came, cut to the buffer that it was received into.
    Came(Datagram),
    /// Nothing came in time.
    Quiet,
    /// This datagram was sent.
    Sent(Datagram),
    /// This was reported.
    Told(Report),
}

/// What a port in memory lets through: a type that has no values, for it is said in its ghost member alone.
pub trait Rule<Report> {
    /// What may have been done.
    ghost allows: { List (Act Report) → Type 0 };
}

/// A port in memory, for tests: what comes is a list, and what was done is another. It lets through what its rule allows. Where memory is
/// refused, it waits until there is some. It is closed once all of the list came.
#[derive(Drop)]
pub struct ListPort<'a, R, Report, L> {
    rt: &'a R,
    alloc: Global,
    coming: IntoIter<Option<Datagram>>,
    deeds: Vec<Deed<Report>>,
    time: u64,
    rule: PhantomData<L>,
}

impl<'a, R, Report: Drop, L> ListPort<'a, R, Report, L> {
    /// A port to which these datagrams come, one after another. `None` says that none comes in time.
    pub fn new(
        rt: &'a R,
        alloc: Global,
        coming: Vec<Option<Datagram>>,
    ) -> ListPort<'a, R, Report, L>
        ensures { result.deeds.items ≡ [] }
    {
        ListPort {
            rt,
            alloc,
            coming: coming.into_iter(),
            deeds: Vec::new(alloc),
            time: 0,
            rule: PhantomData,
        }
    }

    /// What was done, the oldest first.
    pub fn into_deeds(self) -> Vec<Deed<Report>>
        ensures { result ≡ self.entry.deeds }
    {
        let ListPort {
            rt: _,
            alloc: _,
            coming: _,
            deeds,
            time: _,
            rule: _,
        } = self;
        deeds
    }

    /// The time of the port, in microseconds: a millisecond more after each receive.
    pub fn time(&self) -> u64
        ensures { result ≡ self.now.time }
    {
        self.time
    }
}

impl<'a, R: Wait, Report: Drop, L> ListPort<'a, R, Report, L> {
    /// Makes a report.
    pub fn report(&mut self, report: Report)
        ensures acts { acts_of self.new.deeds.items ≡ told report ∷ acts_of self.old.deeds.items }
        ensures time { self.new.time ≡ self.old.time }
    {
        push(self.rt, &mut self.deeds, Deed::Told(report));
    }
}

impl<'a, R: Wait, Report: Drop, L: Rule<Report>> Port<Report> for ListPort<'a, R, Report, L> {
    ghost use Rattle.std.specs.Prelude.{true};
    ghost use Rattle.fw_port.specs.Lists.{acts_of};

    ghost honest = { λ _. true };

    ghost acts = { λ p. acts_of p.deeds.items };

    ghost legal = { λ _ done. L.allows done };

    fn receive(
        &mut self,
        _patience: Patience,
        buffer: &mut [u8],
    ) -> Result<Option<Arrival>, Closed> {
        self.time = self.time.saturating_add(TICK);
        let Some(next) = self.coming.next() else {
            return Err(Closed);
        };
        let Some(Datagram { address, mut bytes }) = next else {
            push(self.rt, &mut self.deeds, Deed::Quiet);
            return Ok(None);
        };
        let count = bytes.len().min(buffer.len());
        bytes.truncate(count);
        buffer[..count].copy_from_slice(&bytes);
        push(
            self.rt,
            &mut self.deeds,
            Deed::Came(Datagram { address, bytes }),
        );
        Ok(Some(Arrival {
            from: address,
            count,
        }))
    }

    fn faults(&self) -> u64 {
        0
    }

    fn unopened(&self) -> u64 {
        0
    }

    fn send(&mut self, to: SocketAddr, bytes: &[u8]) {
        let bytes = copied(self.rt, self.alloc, bytes);
        push(
            self.rt,
            &mut self.deeds,
            Deed::Sent(Datagram { address: to, bytes }),
        );
    }
}

/// Appends a value, once there is memory for it.
fn push<R: Wait, T: Drop>(rt: &R, list: &mut Vec<T>, value: T)
    ensures { list.new.items ≡ list.old.items ++ value ∷ [] }
{
    let mut waiting = value;
    for _ in rt.forever() {
        match list.push(waiting) {
            Ok(()) => return,
            Err(refused) => waiting = refused.value,
        }
    }
    unreachable!()
}

/// A copy of these bytes, once there is memory for it.
fn copied<R: Wait>(rt: &R, alloc: Global, bytes: &[u8]) -> Vec<u8>
    ensures { result.items ≡ bytes.now }
{
    for _ in rt.forever() {
        let mut copy = Vec::new(alloc);
        if copy.extend_from_slice(bytes).is_ok() {
            return copy;
        }
    }
    unreachable!()
}
