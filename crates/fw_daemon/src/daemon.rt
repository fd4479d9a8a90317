//! A meter that some addresses may ask.

ghost use Rattle.std.specs.Prelude.{◌≡◌, ◌↔◌, IfOk, IsTrue, Contains, OnErr, [], true};
ghost use Rattle.fw_image.specs.Meter.{status_of};
ghost use Rattle.fw_image.specs.declared.status.TransferStatus.TheVariants as status;
ghost use Rattle.fw_meter.specs.Handling.{MayWantMemory, reply_bytes};
ghost use Rattle.fw_daemon.specs.Daemon.{Hears, IsServed, MayAsk, TakesTurn, daemon_of, one_more};
ghost use Rattle.fw_daemon.specs.Events.{IsEvent};
ghost use Rattle.fw_daemon.specs.Rounds.{told_of_turn};

use crate::event::MeterEvent;
use crate::telling::{event_of, request_in, turn_event};
use fw_image::TransferStatus;
use fw_meter::{Handled, MeterCore, OutOfMemory};
use fw_store::ImageStore;
use std::alloc::Global;
use std::net::SocketAddr;

/// How many datagrams a daemon dropped since it was made, each number up to 2^64 - 1.
#[derive(Clone, Copy, Debug, PartialEq, Eq)]
pub struct Dropped {
    /// Those from addresses that may not ask.
    pub strangers: u64,
    /// Those for which memory was refused.
    pub unserved: u64,
}

/// What comes of a datagram.
#[derive(Drop)]
pub enum Heard {
    /// The meter handled it, with what there is to tell of that. The reply goes to where it came from.
    Handled(Handled, Option<MeterEvent>),
    /// It is dropped, since it came from an address that may not ask.
    Stranger,
    /// It is dropped, since memory was refused.
    OutOfMemory,
}

/// A meter with the addresses that may ask it. It has no port: what comes is passed to it, and what is to be sent is returned.
#[derive(Drop)]
pub struct MeterDaemon<S: ImageStore + Drop> {
    meter: MeterCore<S>,
    heads: Vec<SocketAddr>,
    dropped: Dropped,
}

impl<S: ImageStore + Drop> MeterDaemon<S> {
    /// The daemon of a meter. Just these addresses may ask, and any address if none is given.
    pub fn new(meter: MeterCore<S>, heads: Vec<SocketAddr>) -> MeterDaemon<S>
        ensures { daemon_of result ≡ record { heads = heads.items; state = meter; strangers = 0; unserved = 0 } }
    {
        MeterDaemon {
            meter,
            heads,
            dropped: Dropped {
                strangers: 0,
                unserved: 0,
            },
        }
    }

    /// Hears a datagram from an address. The meter handles it where that address may ask, and otherwise is as before.
    pub fn heard(&mut self, alloc: Global, from: SocketAddr, datagram: &[u8]) -> Heard
        ensures { Hears (daemon_of self.old) from datagram.now result (daemon_of self.new) }
    {
        if !self.may_ask(from) {
            count(&mut self.dropped.strangers);
            return Heard::Stranger;
        }
        match self.handle(alloc, datagram) {
            Ok((handled, event)) => Heard::Handled(handled, event),
            Err(OutOfMemory) => {
                count(&mut self.dropped.unserved);
                Heard::OutOfMemory
            }
        }
    }

    /// A turn of the meter, as `MeterCore::turn`. It returns what there is to tell of it.
    pub fn turn(&mut self) -> Option<MeterEvent>
        ensures turns { TakesTurn (daemon_of self.old) (daemon_of self.new) }
        ensures told { result ≡ told_of_turn (daemon_of self.old) (daemon_of self.new) }
    {
        let before = self.meter.status();
        self.meter.turn();
        turn_event(before, &self.meter)
    }

    /// Whether an image is verified, with which a turn goes on.
    pub fn is_verifying(&self) -> bool
        ensures { IsTrue result ↔ (status_of (daemon_of self.now).state.meter.phase ≡ status.VerificationInitiated) }
    {
        self.meter.status() == TransferStatus::VerificationInitiated
    }

    /// How many datagrams were dropped.
    pub fn dropped(&self) -> Dropped
        ensures strangers { result.strangers ≡ (daemon_of self.now).strangers }
        ensures unserved { result.unserved ≡ (daemon_of self.now).unserved }
    {
        self.dropped
    }

    /// The meter, without its daemon.
    pub fn into_meter(self) -> MeterCore<S>
        ensures { result ≡ (daemon_of self).state }
    {
        let MeterDaemon {
            meter: core,
            heads: _,
            dropped: _,
        } = self;
        core
    }

    /// The meter handles a datagram. What the datagram asks is read before, so that no memory is wanted afterwards for what there is to tell.
    fn handle(
        &mut self,
        alloc: Global,
        datagram: &[u8],
    ) -> Result<(Handled, Option<MeterEvent>), OutOfMemory>
        ensures served { IfOk result (λ x. IsServed (daemon_of self.old) datagram.now (reply_bytes x.0.reply) x.0.activated
            (daemon_of self.new)) }
        ensures told { IfOk result (λ x. IsEvent (status_of (daemon_of self.old).state.meter.phase) datagram.now (reply_bytes x.0.reply)
            x.0.activated (daemon_of self.new).state.meter x.1) }
        ensures err { OnErr result (daemon_of self.new ≡ daemon_of self.old) }
        ensures memory { OnErr result (MayWantMemory datagram.now) }
    {
        let request = request_in(alloc, datagram)?;
        let before = self.meter.status();
        let handled = self.meter.handle(alloc, datagram)?;
        let event = event_of(alloc, before, &request, &handled, &self.meter);
        Ok((handled, event))
    }

    /// Whether an address may ask.
    fn may_ask(&self, from: SocketAddr) -> bool
        ensures { IsTrue result ↔ MayAsk self.now.heads.items from }
    {
        self.heads.is_empty() || is_one_of(&self.heads, from)
    }
}

/// Whether an address is among these.
fn is_one_of(heads: &[SocketAddr], from: SocketAddr) -> bool
    ensures { IsTrue result ↔ Contains heads.now from }
{
    heads.contains(&from)
}

/// Counts one more.
fn count(counter: &mut u64)
    ensures { counter.new ≡ one_more counter.old }
{
    *counter = counter.saturating_add(1);
}
