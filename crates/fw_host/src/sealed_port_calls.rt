//! A sealing port over one of datagrams, as the loop of a daemon stands on it.

use crate::datagram_port::{ClosedBy, DatagramPort};
use fw_journal::JournalDevice;
use fw_port::{Arrival, Closed, Patience};
use fw_sealport::{SealedPort, WirePort};
use std::net::SocketAddr;

impl<P: WirePort + DatagramPort + Drop, D: JournalDevice + Drop> DatagramPort for SealedPort<P, D> {
    ghost use Rattle.std.specs.Prelude.{MatchOption, take};
    ghost use Rattle.fw_host.specs.Closings.{closed_by_counter};
    ghost use Rattle.fw_sealport.specs.Calls.{BringsNothing, LetsArrive, Sends, StaysClosed};

    ghost receives = { λ old _ came buffer new. MatchOption came (BringsNothing P.honest P.acts old new)
        (λ a. LetsArrive P.honest P.acts old a.from (take a.count buffer) new) };

    ghost stays_closed = { λ old new. StaysClosed P.honest P.acts old new };

    ghost sends = { λ old to bytes new. Sends P.honest P.acts D.JournalDevice old to bytes new };

    ghost closing = { λ port. closed_by_counter port.sealer.fault (P.closing port.port) };

    fn receive_datagram(
        &mut self,
        patience: Patience,
        buffer: &mut [u8],
    ) -> Result<Option<Arrival>, Closed> {
        self.receive_opened(patience, buffer)
    }

    fn send_datagram(&mut self, to: SocketAddr, bytes: &[u8]) {
        self.send_sealed(to, bytes);
    }

    /// The capture below has what is on the wire, and no note of this: nobody else opens what was sealed.
    fn note_unserved(&mut self) {}

    fn closed_by(&self) -> ClosedBy {
        match self.fault() {
            Some(error) => ClosedBy::Counter(error),
            None => self.below().closed_by(),
        }
    }
}
