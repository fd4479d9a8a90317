//! What is left to a worker of an event that it made.

ghost use Rattle.std.specs.Prelude.{◌≡◌};

use crate::core_event::CoreEvent;
use std::marker::Model;

/// An event that a worker made, under its number in the record.
#[derive(Drop)]
pub struct Receipt {
    /// Its number, from 0 on.
    pub number: usize,
    /// What happened.
    pub event: CoreEvent,
}

impl Model for Receipt {
    ghost use Rattle.fw_air.specs.Events as events;

    ghost Value = { events.Receipt };

    ghost view = { λ r. record { number = r.number; event = events.core_event_of r.event } };
}
