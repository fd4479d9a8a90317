//! Ports: where the datagrams of a daemon come from and go to.

ghost use Rattle.std.specs.Prelude.{
  ◌≡◌,
  ◌≤◌,
  ◌∷◌,
  Bool,
  List,
  IsTrue,
  IfOk,
  IfSome,
  MatchOption,
  OnErr,
  length,
  take,
  ⊤,
};
ghost use Rattle.fw_port.specs.Acts.{Act, came, quiet, sent};

use std::fmt;
use std::net::SocketAddr;
use thiserror::Error;

/// The port is closed: nothing comes any more.
#[derive(Clone, Copy, Debug, Error)]
pub struct Closed;

impl fmt::Display for Closed {
    fn fmt<W: fmt::Write>(&self, f: &mut fmt::Formatter<W>) -> fmt::Result {
        fmt::Debug::fmt(self, f)
    }
}

/// Whether a receive waits for a datagram if none is there.
#[derive(Clone, Copy)]
pub enum Patience {
    /// It waits, as long as the port does.
    Waits,
    /// It doesn't.
    Polls,
}

/// A datagram that came.
#[derive(Clone, Copy)]
pub struct Arrival {
    /// The address that it came from.
    pub from: SocketAddr,
    /// How many bytes of the buffer it has.
    pub count: usize,
}

/// The report of a daemon that makes none: there is no such value.
#[derive(Clone, Copy)]
pub enum NoReport {}

/// Where datagrams come from and go to. What an honest port did is known, and it lets through only what is legal. A daemon that makes
/// reports makes them in its port too, since their place among the datagrams counts: it has a trait of its own for that.
pub trait Port<Report> {
    /// Whether the port does what is said below.
    ghost honest: { Self → Bool };

    /// What came, was sent and was reported, and when nothing came, the newest first.
    ghost acts: { Self → List (Act Report) };

    /// What may have been done once a datagram was sent or a report made.
    ghost legal: { Self → List (Act Report) → Type 0 };

    /// From one moment to another these reports were made, the oldest first, and this came of them. It is known of a port that isn't honest
    /// too. If none is made, there is nothing to be said.
    ghost tells: { Self → List Report → Self → Type 0 } = { λ _ _ _. ⊤ };

    /// Receives the next datagram into the buffer, cut to its length. `None` says that none came in time.
    ///
    /// # Errors
    ///
    /// `Closed` if nothing comes any more.
    fn receive(&mut self, patience: Patience, buffer: &mut [u8]) -> Result<Option<Arrival>, Closed>
        ensures bound { IfOk result (λ came. IfSome came (λ a. a.count ≤ length buffer.new)) }
        ensures came { IsTrue (honest self.old) → IfOk result (λ r. MatchOption r (acts self.new ≡ quiet ∷ acts self.old)
            (λ a. acts self.new ≡ came a.from (take a.count buffer.new) ∷ acts self.old)) }
        ensures closed { IsTrue (honest self.old) → OnErr result (acts self.new ≡ acts self.old) }
        ensures honesty { honest self.new ≡ honest self.old }
        ensures law { (done : List (Act Report)) → legal self.old done → legal self.new done }
        ensures untold { (start : Self) (reports : List Report) → tells start reports self.old → tells start reports self.new };

    /// How often the port failed so far, up to 2^64 - 1: an honest one never does.
    fn faults(&self) -> u64
        ensures { IsTrue (honest self.now) → result ≡ 0 };

    /// How many datagrams came so far that weren't let through since they didn't open, up to 2^64 - 1: an honest port has none, and nor has
    /// one whose links aren't sealed.
    fn unopened(&self) -> u64
        ensures { IsTrue (honest self.now) → result ≡ 0 };

    /// Sends a datagram, which has to be legal after all that was done. A datagram that can't be sent is lost.
    fn send(&mut self, to: SocketAddr, bytes: &[u8])
        requires { IsTrue (honest self.old) → legal self.old (sent to bytes.now ∷ acts self.old) }
        ensures sent { IsTrue (honest self.old) → acts self.new ≡ sent to bytes.now ∷ acts self.old }
        ensures honesty { honest self.new ≡ honest self.old }
        ensures law { (done : List (Act Report)) → legal self.old done → legal self.new done }
        ensures untold { (start : Self) (reports : List Report) → tells start reports self.old → tells start reports self.new };
}
