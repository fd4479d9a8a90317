//! What a sealing port stands on.

ghost use Rattle.std.specs.Prelude.{◌≡◌, ◌∷◌, IsTrue};
ghost use Rattle.fw_port.specs.Acts.{sent};
ghost use Rattle.fw_sealport.specs.Peers.{IsSealedFor};

use crate::links::Links;
use fw_port::{NoReport, Patience, Port, UdpPort};
use std::net::SocketAddr;

/// The port below a sealing one. It sends what is sealed for the address that it goes to: of such a port it isn't known what else it may send.
pub trait WirePort: Port<NoReport> {
    /// Sends a datagram that is the sealing, under the link of the address among these, of what the daemon sends there.
    fn send_sealing(&mut self, to: SocketAddr, bytes: &[u8], links: &Links)
        requires { IsSealedFor links.now to bytes.now }
        ensures sent { IsTrue (Self.honest self.old) → Self.acts self.new ≡ sent to bytes.now ∷ Self.acts self.old }
        ensures honesty { Self.honest self.new ≡ Self.honest self.old };

    /// Notes that nothing is let through of what was received last: who stands on this port goes on as if nothing had come.
    fn note_unopened(&mut self, patience: Patience)
        ensures acts { IsTrue (Self.honest self.old) → Self.acts self.new ≡ Self.acts self.old }
        ensures honesty { Self.honest self.new ≡ Self.honest self.old };
}

impl WirePort for UdpPort {
    fn send_sealing(&mut self, to: SocketAddr, bytes: &[u8], _links: &Links) {
        self.send(to, bytes);
    }

    /// It keeps no notes.
    fn note_unopened(&mut self, _patience: Patience) {}
}
