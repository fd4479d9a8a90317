//! The port of the command `head`: one of datagrams with a clock, and a writer that gets the line of each row that ended.

ghost use Rattle.std.specs.Prelude.{◌≡◌, ◌≤◌, ◌∷◌, [], IfOk, IfSome, IsErr, OnErr, OnOk, false, length, true};
ghost use Rattle.fw_host.specs.Heads.{ended_line};
ghost use Rattle.fw_host.specs.Telling.{Told};

use crate::datagram_port::{ClosedBy, DatagramPort};
use crate::dating::date;
use crate::head_progress::CLEARED;
use crate::lines::Lines;
use crate::port_clock::PortClock;
use fw_port::{Arrival, Closed, Patience};
use fw_rollout::Ended;
use std::io::Write;
use std::net::SocketAddr;
use std::rt::Clock;

/// A port of datagrams, as a UDP socket with its capture, or a sealing one over that, with a clock and a writer of lines. Nothing is known
/// of what a network does, so it is not honest. But the line of each row that it is told of is written, on a terminal in place of the
/// progress. It is closed once its clock can't be read, and its time stands still then.
#[derive(Drop)]
pub struct UdpHeadPort<'a, 'w, C: Clock + Eprint, W: Write, P: DatagramPort + Drop> {
    rt: &'a C,
    port: P,
    lines: &'a mut Lines<'w, W>,
    /// Whether standard error is a terminal that shows the progress in a line, which is cleared first.
    clears: bool,
    clock: PortClock,
}

impl<'a, 'w, C: Clock + Eprint, W: Write, P: DatagramPort + Drop> UdpHeadPort<'a, 'w, C, W, P> {
    /// The time begins now. Nothing is sent, received or written yet. If it `clears`, the line of a terminal that standard error is gets
    /// cleared before each line.
    pub fn new(
        rt: &'a C,
        port: P,
        lines: &'a mut Lines<'w, W>,
        clears: bool,
    ) -> UdpHeadPort<'a, 'w, C, W, P>
        ensures port { result.port ≡ port }
        ensures lines { result.lines.ghost_name ≡ lines.entry.ghost_name }
        ensures writer { result.lines.now.writer.ghost_name ≡ lines.old.writer.ghost_name }
        ensures lost { result.lines.now.lost ≡ lines.old.lost }
        ensures unwritten { W.contents result.lines.now.writer.now ≡ W.contents lines.old.writer.now }
        ensures time { result.clock.time ≡ 0 }
        ensures clears { result.clears ≡ clears }
    {
        UdpHeadPort {
            rt,
            port,
            lines,
            clears,
            clock: PortClock::new(rt),
        }
    }

    /// Why the port below is closed, where it is.
    pub fn closed_by(&self) -> ClosedBy
        ensures { result ≡ P.closing self.now.port }
    {
        self.port.closed_by()
    }

    /// The time of the port: what its clock read last.
    pub(crate) fn time(&self) -> u64
        ensures { result ≡ self.now.clock.time }
    {
        self.clock.time()
    }

    /// The date, as the clock of the system has it.
    pub(crate) fn date_now(&self) -> u64 {
        date(self.rt)
    }

    /// How often the port below failed.
    pub(crate) fn count_of_faults(&self) -> u64 {
        self.port.faults()
    }

    /// How many datagrams the port below didn't open.
    pub(crate) fn count_of_unopened(&self) -> u64 {
        self.port.unopened()
    }

    /// Receives the next datagram, and reads the clock then.
    ///
    /// # Errors
    ///
    /// `Closed` if the port below is closed, or the clock fails. Once it failed, nothing is received.
    pub(crate) fn receive_timed(
        &mut self,
        patience: Patience,
        buffer: &mut [u8],
    ) -> Result<Option<Arrival>, Closed>
        ensures bound { IfOk result (λ came. IfSome came (λ a. a.count ≤ length buffer.new)) }
        ensures received { IfOk result (λ came. P.receives self.old.port patience came buffer.new self.new.port) }
        ensures below { self.new.clock.failed ≡ false → OnErr result (P.stays_closed self.old.port self.new.port) }
        ensures lines { self.new.lines ≡ self.old.lines }
        ensures time { self.old.clock.time ≤ self.new.clock.time }
        ensures stands { self.new.clock.failed ≡ true → self.new.clock.time ≡ self.old.clock.time }
        ensures read { OnOk result (self.new.clock.failed ≡ false) }
        ensures closed { self.old.clock.failed ≡ true → IsErr result }
        ensures same { self.old.clock.failed ≡ true → self.new ≡ self.old }
    {
        if self.clock.has_failed() {
            return Err(Closed);
        }
        let came = self.port.receive_datagram(patience, buffer)?;
        self.clock.read(self.rt)?;
        Ok(came)
    }

    /// Sends a datagram, but none once the clock failed.
    pub(crate) fn send_timed(&mut self, to: SocketAddr, bytes: &[u8])
        ensures sent { self.old.clock.failed ≡ false → P.sends self.old.port to bytes.now self.new.port }
        ensures lines { self.new.lines ≡ self.old.lines }
        ensures clock { self.new.clock ≡ self.old.clock }
        ensures closed { self.old.clock.failed ≡ true → self.new ≡ self.old }
    {
        if !self.clock.has_failed() {
            self.port.send_datagram(to, bytes);
        }
    }

    /// Writes the line of a row, and reads the clock then. A line that can't be written is lost.
    pub(crate) fn tell_timed(&mut self, ended: Ended)
        ensures lines { self.new.lines.ghost_name ≡ self.old.lines.ghost_name }
        ensures writer { self.new.lines.now.writer.ghost_name ≡ self.old.lines.now.writer.ghost_name }
        ensures told { Told (ended_line ended ∷ []) self.old.lines.now.lost self.new.lines.now.lost (W.contents self.old.lines.now.writer.now)
            (W.contents self.new.lines.now.writer.now) }
        ensures time { self.old.clock.time ≤ self.new.clock.time }
        ensures stands { self.new.clock.failed ≡ true → self.new.clock.time ≡ self.old.clock.time }
        ensures closed { self.old.clock.failed ≡ true → self.new.clock ≡ self.old.clock }
    {
        self.clear();
        self.lines.set_time(self.rt);
        self.lines.tell_ended(ended);
        // If it fails, nothing is received any more.
        let _ = self.clock.read(self.rt);
    }

    /// Clears the line of the terminal, if that is asked for. A write that fails is passed over.
    fn clear(&self) {
        if self.clears {
            let _ = eprint!(self.rt; "{CLEARED}");
        }
    }
}
