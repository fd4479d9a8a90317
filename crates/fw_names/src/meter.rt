//! Numbers of meters.

ghost use Rattle.std.specs.Prelude.{◌≡◌, ℕ};

use std::marker::Model;

/// A meter's number. The first is 0.
#[derive(Clone, Copy, Debug, PartialEq, Eq)]
pub struct MeterId {
    number: u32,
}

impl Model for MeterId {
    ghost Value = { ℕ };

    ghost view = { λ m. m.number };

    ghost inverse = { λ n. record { number = n } };
}

impl MeterId {
    /// The meter with this number. Every number is a meter's, so the answer is never `None`.
    pub fn new(number: u32) -> Option<MeterId>
        ensures { result ≡ Some number }
    {
        Some(MeterId { number })
    }

    /// The number.
    pub fn number(self) -> u32
        ensures { result ≡ self }
    {
        self.number
    }
}
