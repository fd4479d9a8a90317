//! What the loop of a daemon stands on: a port whose calls are known, whoever is on the network, and which says why it is closed.

ghost use Rattle.std.specs.Prelude.{◌≡◌, ◌≤◌, IfOk, IfSome, List, OnErr, Option, length, ℕ, ⊤};
ghost use Rattle.std.specs.declared.net.socket_addr.SocketAddr.{SocketAddr};
ghost use Rattle.fw_port.specs.declared.port.Arrival.{Arrival};
ghost use Rattle.fw_port.specs.declared.port.Patience.{Patience};
ghost use Rattle.fw_host.specs.declared.datagram_port.ClosedBy.{ClosedBy};

use fw_counter::CounterError;
use fw_port::{Arrival, Closed, NoReport, Patience, Port};
use std::net::SocketAddr;

/// Why a port is closed.
#[derive(Clone, Copy)]
pub enum ClosedBy {
    /// Its socket is.
    Socket,
    /// A record could not be put into its capture.
    Capture,
    /// No counter is given any more to what is sealed.
    Counter(CounterError),
}

/// The port of a daemon's datagrams. Nothing is known of what a network does, so it need not be honest. What is known of its calls all the
/// same, its own relations say: of a port with a capture, what is recorded, and of a sealing one, what is let through and what is sent.
pub trait DatagramPort: Port<NoReport> {
    /// From one moment to another it received, with this patience: a datagram, whose bytes stand in front of this buffer, or none.
    ghost receives: { Self → Patience → Option Arrival → List ℕ → Self → Type 0 };

    /// It received nothing, since it is closed.
    ghost stays_closed: { Self → Self → Type 0 } = { λ _ _. ⊤ };

    /// It was given these bytes to send to an address.
    ghost sends: { Self → SocketAddr → List ℕ → Self → Type 0 };

    /// Why it is closed, if it is.
    ghost closing: { Self → ClosedBy };

    /// Receives the next datagram, as `receive` of [`Port`] does.
    ///
    /// # Errors
    ///
    /// `Closed` if nothing comes any more.
    fn receive_datagram(
        &mut self,
        patience: Patience,
        buffer: &mut [u8],
    ) -> Result<Option<Arrival>, Closed>
        ensures bound { IfOk result (λ came. IfSome came (λ a. a.count ≤ length buffer.new)) }
        ensures received { IfOk result (λ came. receives self.old patience came buffer.new self.new) }
        ensures closed { OnErr result (stays_closed self.old self.new) };

    /// Sends a datagram, as `send` of [`Port`] does.
    fn send_datagram(&mut self, to: SocketAddr, bytes: &[u8])
        ensures { sends self.old to bytes.now self.new };

    /// Memory was refused for the datagram that it received last, which is dropped.
    fn note_unserved(&mut self)
        ensures { Self.honest self.new ≡ Self.honest self.old };

    /// Why the port is closed, where it is.
    fn closed_by(&self) -> ClosedBy
        ensures { result ≡ closing self.now };
}
