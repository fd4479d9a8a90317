//! A port with a capture of what it receives and sends.

ghost use Rattle.std.specs.Prelude.{◌≡◌, ◌≤◌, ◌∷◌, IfOk, IfSome, IsErr, IsTrue, MatchBool, MatchOption, false, true, is_some, length, take};
ghost use Rattle.fw_capture.specs.View.{datagram, endpoint_of};
ghost use Rattle.fw_host.specs.Captures.{CapturesAll, CapturesArrival, CapturesNoted, dropped_told, is_of_stranger, unserved_told};
ghost use Rattle.fw_port.specs.Acts.{came, quiet, sent};

use crate::port_below::PortBelow;
use crate::recorder::Recorder;
use crate::strangers::Strangers;
use crate::synced_sink::SyncedSink;
use fw_port::{Arrival, Closed, Patience, Port, UdpPort};
use std::alloc::Global;
use std::net::SocketAddr;
use std::rt::Clock;

/// A port with the sink of its capture, if one is asked for. A datagram is recorded before it is handled or sent, so nothing is done that the
/// capture lacks: where a record can't be put, the datagram is dropped, and the port is closed.
///
/// Whether its sink fails isn't known, so it is not honest.
#[derive(Drop)]
pub struct CapturePort<'a, C: Clock, S: SyncedSink + Drop, P: PortBelow = UdpPort> {
    port: &'a mut P,
    recorder: Recorder<'a, C, S>,
    /// Whether the last receive brought a datagram.
    has_heard: bool,
    /// Whether it brought one of a stranger, behind whose record its turn is noted.
    is_strangers: bool,
}

impl<'a, C: Clock, S: SyncedSink + Drop, P: PortBelow> CapturePort<'a, C, S, P> {
    /// The port of a head end, which has this address.
    pub fn of_head(
        rt: &'a C,
        alloc: Global,
        port: &'a mut P,
        at: SocketAddr,
        strangers: &'a mut Strangers,
        sink: Option<S>,
    ) -> CapturePort<'a, C, S, P>
        ensures at { result.recorder.at ≡ at }
        ensures sink { result.recorder.sink ≡ sink }
        ensures strangers { result.recorder.strangers.ghost_name ≡ strangers.entry.ghost_name }
        ensures known { result.recorder.strangers.now ≡ strangers.old }
        ensures turns { result.recorder.has_turns ≡ false }
        ensures open { result.recorder.failed ≡ false }
        ensures unheard { result.has_heard ≡ false }
    {
        CapturePort {
            port,
            recorder: Recorder::new(rt, alloc, at, strangers, sink, false),
            has_heard: false,
            is_strangers: false,
        }
    }

    /// The port of a meter, which has this address. It takes turns.
    pub fn of_meter(
        rt: &'a C,
        alloc: Global,
        port: &'a mut P,
        at: SocketAddr,
        strangers: &'a mut Strangers,
        sink: Option<S>,
    ) -> CapturePort<'a, C, S, P>
        ensures at { result.recorder.at ≡ at }
        ensures sink { result.recorder.sink ≡ sink }
        ensures strangers { result.recorder.strangers.ghost_name ≡ strangers.entry.ghost_name }
        ensures known { result.recorder.strangers.now ≡ strangers.old }
        ensures turns { result.recorder.has_turns ≡ true }
        ensures open { result.recorder.failed ≡ false }
        ensures unheard { result.has_heard ≡ false }
    {
        CapturePort {
            port,
            recorder: Recorder::new(rt, alloc, at, strangers, sink, true),
            has_heard: false,
            is_strangers: false,
        }
    }

    /// Whether the port is closed since a record could not be put.
    pub fn has_failed(&self) -> bool
        ensures { result ≡ self.now.recorder.failed }
    {
        self.recorder.has_failed()
    }

    /// Whether the last receive brought a datagram, from whatever address.
    pub fn has_heard(&self) -> bool
        ensures { result ≡ self.now.has_heard }
    {
        self.has_heard
    }

    /// How often the port below failed.
    pub(crate) fn count_of_faults(&self) -> u64 {
        self.port.faults()
    }

    /// Receives the next datagram, and records it, or the turn that follows where none came. What was recorded before is put on the disk first,
    /// if that is due. After a record that failed nothing is received.
    pub(crate) fn receive_recorded(
        &mut self,
        patience: Patience,
        buffer: &mut [u8],
    ) -> Result<Option<Arrival>, Closed>
        ensures bound { IfOk result (λ came. IfSome came (λ a. a.count ≤ length buffer.new)) }
        ensures recorded { IfOk result (λ came. CapturesArrival S.takes self.old.recorder.strangers.now self.old.recorder.has_turns
            self.old.recorder.at patience came buffer.new self.old.recorder.sink self.new.recorder.sink) }
        ensures below { IsTrue (P.honest self.old.port.now) → IfOk result (λ r. MatchOption r
            (P.acts self.new.port.now ≡ quiet ∷ P.acts self.old.port.now)
            (λ a. P.acts self.new.port.now ≡ came a.from (take a.count buffer.new) ∷ P.acts self.old.port.now)) }
        ensures heard { IfOk result (λ came. self.new.has_heard ≡ is_some came) }
        ensures strangers { IfOk result (λ came. self.new.is_strangers ≡ is_of_stranger self.old.recorder.strangers.now.known came) }
        ensures closed { self.old.recorder.failed ≡ true → IsErr result }
    {
        self.has_heard = false;
        if self.recorder.has_failed() {
            return Err(Closed);
        }
        self.recorder.settle()?;
        let came = self.port.receive(patience, buffer)?;
        self.has_heard = came.is_some();
        self.is_strangers = self.recorder.is_of_stranger(came);
        self.recorder.put_arrival(patience, came, buffer)?;
        Ok(came)
    }

    /// Records the turn that follows where nothing is let through of what came last, unless it is noted as a stranger's. If that can't be recorded,
    /// the port is closed.
    pub(crate) fn note_dropped(&mut self, patience: Patience)
        ensures recorded { self.new.recorder.failed ≡ false → CapturesAll S.takes self.old.recorder.strangers.now.count
            self.old.recorder.sink self.new.recorder.sink (dropped_told self.old.is_strangers self.old.recorder.has_turns self.old.recorder.at patience) }
    {
        if !self.is_strangers {
            match self.recorder.put_turn(patience) {
                Ok(()) => {}
                Err(Closed) => {}
            }
        }
    }

    /// Records that memory was refused for the datagram that came last. If that can't be recorded, the port is closed.
    pub(crate) fn note_refused_memory(&mut self)
        ensures recorded { self.new.recorder.failed ≡ false → CapturesNoted S.takes self.old.recorder.strangers.now.count
            self.old.recorder.sink self.new.recorder.sink (unserved_told self.old.recorder.at) }
    {
        match self.recorder.put_unserved() {
            Ok(()) => {}
            Err(Closed) => {}
        }
    }

    /// Records a datagram, and sends it then.
    pub(crate) fn send_recorded(&mut self, to: SocketAddr, bytes: &[u8])
        ensures recorded { self.new.recorder.failed ≡ false → CapturesNoted S.takes self.old.recorder.strangers.now.count
            self.old.recorder.sink self.new.recorder.sink (datagram (endpoint_of self.old.recorder.at) (endpoint_of to) bytes.now) }
        ensures below { IsTrue (P.honest self.old.port.now) → MatchBool self.new.recorder.failed
            (P.acts self.new.port.now ≡ P.acts self.old.port.now)
            (P.acts self.new.port.now ≡ sent to bytes.now ∷ P.acts self.old.port.now) }
    {
        if self.recorder.put_sending(to, bytes).is_ok() {
            self.port.send_recorded(to, bytes, &self.recorder);
        }
    }
}
