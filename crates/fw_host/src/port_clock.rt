//! The clock of a port. Its time stands still if the system has none.

ghost use Rattle.std.specs.Prelude.{◌≡◌, ◌≤◌, MatchOption, OnErr, OnOk, false, max, true};
ghost use Rattle.fw_host.specs.Clocks.{reading};

use fw_port::Closed;
use std::rt::Clock;
use std::time::Instant;

/// A clock, with the time that it read last. Once the system has no time, its time stands still.
#[derive(Drop)]
pub(crate) struct PortClock {
    /// When it began, if the system had a time then.
    began: Option<Instant>,
    /// The time that was read last, in microseconds since it began.
    time: u64,
    /// Whether the system had no time when it was read.
    failed: bool,
}

impl PortClock {
    /// A clock that begins now, at 0.
    pub(crate) fn new<C: Clock>(rt: &C) -> PortClock
        ensures { result.time ≡ 0 }
    {
        PortClock {
            began: Instant::now(rt).ok(),
            time: 0,
            failed: false,
        }
    }

    /// The time that was read last, in microseconds since the clock began.
    pub(crate) fn time(&self) -> u64
        ensures { result ≡ self.now.time }
    {
        self.time
    }

    /// Whether the system had no time when the clock was read.
    pub(crate) fn has_failed(&self) -> bool
        ensures { result ≡ self.now.failed }
    {
        self.failed
    }

    /// Reads the time, which never goes back.
    ///
    /// # Errors
    ///
    /// `Closed` if the system has no time, and each time from then on.
    pub(crate) fn read<C: Clock>(&mut self, rt: &C) -> Result<(), Closed>
        ensures on { self.old.time ≤ self.new.time }
        ensures goes { OnOk result (self.new.failed ≡ false) }
        ensures stands { OnErr result ((self.new.failed ≡ true) × (self.new.time ≡ self.old.time)) }
        ensures failed { self.old.failed ≡ true → self.new ≡ self.old }
    {
        if !self.failed {
            self.note(Instant::now(rt).ok());
        }
        if self.failed {
            return Err(Closed);
        }
        Ok(())
    }

    /// Takes what the system says that it is, if it has a time.
    fn note(&mut self, now: Option<Instant>)
        ensures { MatchOption (reading self.old.began now) (self.new ≡ record self.old { failed = true })
            (λ time. self.new ≡ record self.old { time = max self.old.time time }) }
    {
        let (Some(began), Some(now)) = (self.began, now) else {
            self.failed = true;
            return;
        };
        let since = now.saturating_duration_since(began).as_micros();
        self.time = self.time.max(u64::try_from(since).unwrap_or(u64::MAX));
    }
}
