//! Numbers of head ends.

ghost use Rattle.std.specs.Prelude.{◌≡◌, ℕ, ◌≤◌, SomeIff};

use std::marker::Model;

/// A head end's number. The first is 1.
#[derive(Clone, Copy, Debug, PartialEq, Eq)]
pub struct HeadId {
    number: u32,
}

impl Model for HeadId {
    ghost Value = { ℕ };

    ghost view = { λ h. h.number };

    ghost invariant = { λ h. 1 ≤ h.number };

    ghost inverse = { λ n. record { number = n } };
}

impl HeadId {
    /// The head end with this number, and `None` for 0 alone.
    pub fn new(number: u32) -> Option<HeadId>
        ensures { SomeIff result (1 ≤ number) number }
    {
        if number == 0 {
            None
        } else {
            Some(HeadId { number })
        }
    }

    /// The number, which is at least 1.
    pub fn number(self) -> u32
        ensures value { result ≡ self }
        ensures begins { 1 ≤ result }
    {
        self.number
    }
}
