//! A port with a capture, as a daemon calls it. What stands here has no other way to the port below than by the record.

use crate::capture_port::CapturePort;
use crate::datagram_port::{ClosedBy, DatagramPort};
use crate::port_below::PortBelow;
use crate::synced_sink::SyncedSink;
use fw_port::{Arrival, Closed, NoReport, Patience, Port};
use fw_sealport::{Links, WirePort};
use std::net::SocketAddr;
use std::rt::Clock;

impl<'a, C: Clock, S: SyncedSink + Drop, P: PortBelow> Port<NoReport> for CapturePort<'a, C, S, P> {
    ghost use Rattle.std.specs.Prelude.{◌≡◌, false, [], ⊤};

    ghost honest = { λ _. false };

    ghost acts = { λ _. [] };

    ghost legal = { λ _ _. ⊤ };

    fn receive(
        &mut self,
        patience: Patience,
        buffer: &mut [u8],
    ) -> Result<Option<Arrival>, Closed> {
        self.receive_recorded(patience, buffer)
    }

    fn faults(&self) -> u64 {
        self.count_of_faults()
    }

    fn unopened(&self) -> u64
        ensures none { result ≡ 0 }
    {
        0
    }

    fn send(&mut self, to: SocketAddr, bytes: &[u8]) {
        self.send_recorded(to, bytes);
    }
}

impl<'a, C: Clock, S: SyncedSink + Drop, P: PortBelow> WirePort for CapturePort<'a, C, S, P> {
    /// The capture has what is on the wire: the sealing.
    fn send_sealing(&mut self, to: SocketAddr, bytes: &[u8], _links: &Links) {
        self.send_recorded(to, bytes);
    }

    /// A meter that verifies takes a turn then, which the capture has.
    fn note_unopened(&mut self, patience: Patience) {
        self.note_dropped(patience);
    }
}

impl<'a, C: Clock, S: SyncedSink + Drop, P: PortBelow> DatagramPort for CapturePort<'a, C, S, P> {
    ghost use Rattle.std.specs.Prelude.{◌≡◌, false};
    ghost use Rattle.fw_capture.specs.View.{datagram, endpoint_of};
    ghost use Rattle.fw_host.specs.Captures.{CapturesArrival, CapturesNoted, unserved_told};
    ghost use Rattle.fw_host.specs.Closings.{closed_by_record};

    ghost receives = { λ old patience came buffer new. CapturesArrival S.takes old.recorder.strangers.now old.recorder.has_turns
        old.recorder.at patience came buffer old.recorder.sink new.recorder.sink };

    ghost sends = { λ old to bytes new. new.recorder.failed ≡ false → CapturesNoted S.takes old.recorder.strangers.now.count
        old.recorder.sink new.recorder.sink (datagram (endpoint_of old.recorder.at) (endpoint_of to) bytes) };

    ghost closing = { λ port. closed_by_record port.recorder.failed };

    fn receive_datagram(
        &mut self,
        patience: Patience,
        buffer: &mut [u8],
    ) -> Result<Option<Arrival>, Closed> {
        self.receive_recorded(patience, buffer)
    }

    fn send_datagram(&mut self, to: SocketAddr, bytes: &[u8]) {
        self.send_recorded(to, bytes);
    }

    fn note_unserved(&mut self)
        ensures recorded { self.new.recorder.failed ≡ false → CapturesNoted S.takes self.old.recorder.strangers.now.count
            self.old.recorder.sink self.new.recorder.sink (unserved_told self.old.recorder.at) }
    {
        self.note_refused_memory();
    }

    fn closed_by(&self) -> ClosedBy {
        if self.has_failed() {
            ClosedBy::Capture
        } else {
            ClosedBy::Socket
        }
    }
}
