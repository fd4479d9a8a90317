//! Datagrams, and those who send and receive them.

ghost use Rattle.std.specs.Prelude.{◌≡◌};

use fw_names::{HeadId, MeterId};
use std::marker::Model;

/// A head end or a meter.
#[derive(Clone, Copy, PartialEq, Eq)]
pub enum Actor {
    Head(HeadId),
    Meter(MeterId),
}

/// The two ways on the link of a head end and a meter.
#[derive(Clone, Copy)]
pub enum Direction {
    ToMeter,
    ToHead,
}

/// A datagram that was sent on the link of a head end and a meter.
#[derive(Drop)]
pub struct Datagram {
    /// The head end of the link.
    pub head: HeadId,
    /// The meter of the link.
    pub meter: MeterId,
    /// Which way it goes.
    pub direction: Direction,
    /// The wrapped APDU (IEC 62056-4-7).
    pub bytes: Vec<u8>,
}

impl Model for Datagram {
    ghost use Rattle.fw_world.specs.World as world;

    ghost Value = { world.Datagram };

    ghost view = { λ d. record { head = d.head; meter = d.meter; direction = d.direction; bytes = d.bytes.items } };
}

impl Datagram {
    ghost use Rattle.fw_world.specs.View.{sender, addressee};

    /// Who sent it.
    pub fn from(&self) -> Actor
        ensures { result ≡ sender self.now }
    {
        match self.direction {
            Direction::ToMeter => Actor::Head(self.head),
            Direction::ToHead => Actor::Meter(self.meter),
        }
    }

    /// Who it is for.
    pub fn to(&self) -> Actor
        ensures { result ≡ addressee self.now }
    {
        match self.direction {
            Direction::ToMeter => Actor::Meter(self.meter),
            Direction::ToHead => Actor::Head(self.head),
        }
    }
}
