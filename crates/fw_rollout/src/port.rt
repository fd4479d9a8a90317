//! Ports of head ends: where their datagrams come from and go to, and where it is reported which rows ended.

ghost use Rattle.std.specs.Prelude.{◌≡◌, ◌∷◌, ◌++◌, ℕ, [], List, IsTrue};
ghost use Rattle.fw_port.specs.Acts.{told};
ghost use Rattle.fw_rollout.specs.Acts.{Act};
ghost use Rattle.fw_rollout.specs.declared.ended.Ended.{Ended};

use crate::ended::Ended;
use fw_port::Port;

/// Where the datagrams of a head end come from and go to, and where it reports rows: a port with a clock.
pub trait HeadPort: Port<Ended> {
    /// The time, in microseconds since some moment.
    ghost time: { Self → ℕ } = { λ _. 0 };

    /// The time of an honest port. Of any other nothing is known.
    fn now(&self) -> u64
        ensures { IsTrue (Self.honest self.now) → result ≡ Self.time self.now };

    /// The date, in seconds since 1970 began (UTC). Nothing is known of it, and it may jump: it is noted of rows that end, and images are
    /// activated by it.
    fn date(&self) -> u64;

    /// Reports a row that ended, which has to be legal after all that was done. A report that can't be made is lost.
    fn tell(&mut self, ended: Ended)
        requires { IsTrue (Self.honest self.old) → Self.legal self.old (told ended ∷ Self.acts self.old) }
        ensures told { IsTrue (Self.honest self.old) → Self.acts self.new ≡ told ended ∷ Self.acts self.old }
        ensures honesty { Self.honest self.new ≡ Self.honest self.old }
        ensures law { (done : List Act) → Self.legal self.old done → Self.legal self.new done }
        ensures tells { (start : Self) (rows : List Ended) → Self.tells start rows self.old → Self.tells start (rows ++ ended ∷ []) self.new };
}
