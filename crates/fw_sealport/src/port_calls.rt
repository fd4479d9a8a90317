//! The sealing port, as a daemon calls it. What stands here has no other way to the port below than by a sealing.

use crate::port::SealedPort;
use crate::wire_port::WirePort;
use fw_journal::JournalDevice;
use fw_port::{Arrival, Closed, NoReport, Patience, Port};
use std::net::SocketAddr;

impl<P: WirePort + Drop, D: JournalDevice + Drop> Port<NoReport> for SealedPort<P, D> {
    ghost use Rattle.std.specs.Prelude.{false, [], ⊤};

    ghost honest = { λ _. false };

    ghost acts = { λ _. [] };

    ghost legal = { λ _ _. ⊤ };

    fn receive(
        &mut self,
        patience: Patience,
        buffer: &mut [u8],
    ) -> Result<Option<Arrival>, Closed> {
        self.receive_opened(patience, buffer)
    }

    fn faults(&self) -> u64 {
        self.count_of_faults()
    }

    fn unopened(&self) -> u64 {
        self.count_of_unopened()
    }

    fn send(&mut self, to: SocketAddr, bytes: &[u8]) {
        self.send_sealed(to, bytes);
    }
}
