//! What a port with a capture stands on.

ghost use Rattle.std.specs.Prelude.{◌≡◌, ◌∷◌, IsTrue};
ghost use Rattle.fw_capture.specs.View.{datagram, endpoint_of};
ghost use Rattle.fw_host.specs.Captures.{IsRecorded};
ghost use Rattle.fw_port.specs.Acts.{sent};

use crate::recorder::Recorder;
use crate::synced_sink::SyncedSink;
use fw_port::{NoReport, Port, UdpPort};
use std::net::SocketAddr;
use std::rt::Clock;

/// The port below a capture. It sends what the capture has: of such a port it isn't known what else it may send.
pub trait PortBelow: Port<NoReport> {
    /// Sends a datagram of which the recorder has put the record last, if it has a capture.
    fn send_recorded<C: Clock, S: SyncedSink + Drop>(
        &mut self,
        to: SocketAddr,
        bytes: &[u8],
        recorder: &Recorder<'_, C, S>,
    )
        requires { IsRecorded S.takes recorder.now.sink (datagram (endpoint_of recorder.now.at) (endpoint_of to) bytes.now) }
        ensures sent { IsTrue (Self.honest self.old) → Self.acts self.new ≡ sent to bytes.now ∷ Self.acts self.old };
}

impl PortBelow for UdpPort {
    fn send_recorded<C: Clock, S: SyncedSink + Drop>(
        &mut self,
        to: SocketAddr,
        bytes: &[u8],
        _recorder: &Recorder<'_, C, S>,
    ) {
        self.send(to, bytes);
    }
}
