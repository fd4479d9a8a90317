//! A limit of lines that may come without end.

ghost use Rattle.std.specs.Prelude.{◌≡◌, IsTrue};
ghost use Rattle.fw_cli.specs.Telling.{may_be_left_out};

use fw_daemon::MeterEvent;
use std::rt::Clock;
use std::time::{Duration, Instant};

/// The most lines of refused initiates and of failed calls of stores in a minute.
const MOST_LINES: u32 = 60;

/// How many lines of these more may be told, and how many were left out.
#[derive(Drop)]
pub(crate) struct Limit {
    left: u32,
    /// When the minute began that they are for, if the system has time.
    since: Option<Instant>,
    /// How many were left out, up to 2^64 - 1.
    pub(crate) left_out: u64,
}

impl Limit {
    /// Nothing was told or left out.
    pub(crate) fn new() -> Limit {
        Limit {
            left: MOST_LINES,
            since: None,
            left_out: 0,
        }
    }

    /// Whether what there is to tell is left out, since too much of that kind was told in this minute. It is counted then.
    pub(crate) fn leaves_out<C: Clock>(&mut self, rt: &C, event: &MeterEvent) -> bool
        ensures { IsTrue result → IsTrue (may_be_left_out event.now) }
    {
        if !may_be_left_out(event) {
            return false;
        }
        !self.has_room(rt)
    }

    /// Whether there is room for one line more, which is taken then. Where the system has no time, no minute goes by.
    fn has_room<C: Clock>(&mut self, rt: &C) -> bool {
        match Instant::now(rt) {
            Ok(now) if is_due(self.since, now) => {
                self.since = Some(now);
                self.left = MOST_LINES;
            }
            _ => {}
        }
        if self.left == 0 {
            self.left_out = self.left_out.saturating_add(1);
            return false;
        }
        self.left -= 1;
        true
    }
}

/// Whether there may come any number of such events: of refused initiates, and of failed calls of a store.
fn may_be_left_out(event: &MeterEvent) -> bool
    ensures { result ≡ may_be_left_out event.now }
{
    match event {
        MeterEvent::Refused { .. } => true,
        MeterEvent::Failed(_) => true,
        MeterEvent::Verified(_) => false,
        MeterEvent::Differs(_) => false,
        MeterEvent::Activated(_) => false,
    }
}

/// Whether a minute went by since then.
pub(crate) fn is_due(then: Option<Instant>, now: Instant) -> bool {
    match then {
        Some(then) => now.saturating_duration_since(then) >= Duration::from_secs(60),
        None => true,
    }
}
