//! The port of the command `head`, as a daemon calls it. What stands here has no way around its clock and its lines.

use crate::datagram_port::DatagramPort;
use crate::head_port::UdpHeadPort;
use fw_port::{Arrival, Closed, Patience, Port};
use fw_rollout::{Ended, HeadPort};
use std::io::Write;
use std::net::SocketAddr;
use std::rt::Clock;

impl<'a, 'w, C: Clock + Eprint, W: Write, P: DatagramPort + Drop> Port<Ended>
    for UdpHeadPort<'a, 'w, C, W, P> {
    ghost use Rattle.std.specs.Prelude.{◌≡◌, false, [], ⊤};
    ghost use Rattle.fw_host.specs.Telling.{Told, lines_of_rows};

    ghost honest = { λ _. false };

    ghost acts = { λ _. [] };

    ghost legal = { λ _ _. ⊤ };

    ghost tells = { λ start rows port. (port.lines.ghost_name ≡ start.lines.ghost_name)
        × (port.lines.now.writer.ghost_name ≡ start.lines.now.writer.ghost_name)
        × Told (lines_of_rows rows) start.lines.now.lost port.lines.now.lost (W.contents start.lines.now.writer.now)
        (W.contents port.lines.now.writer.now) };

    fn receive(
        &mut self,
        patience: Patience,
        buffer: &mut [u8],
    ) -> Result<Option<Arrival>, Closed> {
        self.receive_timed(patience, buffer)
    }

    fn faults(&self) -> u64 {
        self.count_of_faults()
    }

    fn unopened(&self) -> u64 {
        self.count_of_unopened()
    }

    fn send(&mut self, to: SocketAddr, bytes: &[u8]) {
        self.send_timed(to, bytes);
    }
}

impl<'a, 'w, C: Clock + Eprint, W: Write, P: DatagramPort + Drop> HeadPort
    for UdpHeadPort<'a, 'w, C, W, P> {
    ghost use Rattle.std.specs.Prelude.{◌≡◌};

    ghost time = { λ p. p.clock.time };

    /// The microseconds since the port was made, as it read them last: after what it received last, and after each line.
    fn now(&self) -> u64
        ensures clock { result ≡ self.now.clock.time }
    {
        self.time()
    }

    fn date(&self) -> u64 {
        self.date_now()
    }

    fn tell(&mut self, ended: Ended) {
        self.tell_timed(ended);
    }
}
