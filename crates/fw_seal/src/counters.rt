//! Invocation counters.

ghost use Rattle.std.specs.Prelude.{◌≡◌, ◌+◌, ◌-◌, ◌<◌};
ghost use Rattle.fw_seal.specs.Sealing.{IsTaken};

use std::marker::Model;

/// The invocation counters that an end may use, the lowest first. There is no second value of them: they can't be copied, and what is
/// sealed takes one for good.
#[derive(Drop)]
pub struct Counters {
    next: u32,
    end: u32,
}

impl Model for Counters {
    ghost use Rattle.std.specs.Prelude.{◌<◌, ◌^◌};
    ghost use Rattle.fw_seal.specs.Sealing.{CounterRange};

    ghost Value = { CounterRange };

    ghost view = { λ c. record { next = c.next; end = c.end } };

    ghost invariant = { λ c. c.end < 2 ^ 32 };
}

impl Counters {
    /// The counters from `next` on and below `end`, none if that isn't above it. The caller has reserved them: no other value has any of
    /// them, nor ever had, for a link whose keys and title this one is used with, over restarts and power cuts too.
    pub fn reserved(next: u32, end: u32) -> Counters
        ensures { result ≡ record { next = next; end = end } }
    {
        Counters { next, end }
    }

    /// How many are left.
    pub fn left(&self) -> u32
        ensures { result ≡ self.now.end - self.now.next }
    {
        self.end.saturating_sub(self.next)
    }

    /// The one that is taken next.
    pub(crate) fn next(&self) -> u32
        ensures { result ≡ self.now.next }
    {
        self.next
    }

    /// Takes one.
    pub(crate) fn take(&mut self)
        requires { self.old.next < self.old.end }
        ensures { IsTaken self.old self.new }
    {
        self.next += 1;
    }
}
