//! The receipts of a worker.

ghost use Rattle.std.specs.Prelude.{◌≡◌, ◌↔◌, IsTrue};
ghost use Rattle.fw_air.specs.Events.{core_event_of};
ghost use Rattle.fw_air.specs.Ticks.{is_tick};
ghost use Rattle.fw_accounts.specs.Accounts.{IsRising, ticks_of};

use fw_air::{CoreEvent, Receipt};
use fw_names::{HeadId, MeterId};
use std::marker::Model;

/// What one worker made, event by event.
#[derive(Drop)]
pub struct Receipts {
    all: Vec<Receipt>,
}

impl Model for Receipts {
    ghost use Rattle.std.specs.Prelude.{List};
    ghost use Rattle.fw_air.specs.Events as events;

    ghost Value = { List events.Receipt };

    ghost view = { λ r. r.all.items };
}

impl Receipts {
    /// These receipts of one worker.
    pub fn new(all: Vec<Receipt>) -> Receipts
        ensures { result ≡ all.items }
    {
        Receipts { all }
    }

    /// Each of them, in the order in which the worker made the events.
    pub fn as_slice(&self) -> &[Receipt]
        ensures { result.now ≡ self.now }
    {
        self.all.as_slice()
    }

    /// Whether their numbers rise.
    pub(crate) fn is_rising(&self) -> bool
        ensures { IsTrue result ↔ IsRising self.now }
    {
        rises(self.as_slice())
    }

    /// How often the head end of this number ticked the meter of that one.
    pub(crate) fn ticks(&self, head: HeadId, meter: MeterId) -> usize
        ensures { result ≡ ticks_of head meter self.now }
    {
        ticks_in(self.as_slice(), head, meter)
    }
}

/// Whether each number is greater than the one before it.
fn rises(receipts: &[Receipt]) -> bool
    ensures { IsTrue result ↔ IsRising receipts.now }
{
    for i in 1..receipts.len() {
        let before = &receipts[i - 1];
        let receipt = &receipts[i];
        if receipt.number <= before.number {
            return false;
        }
    }
    true
}

/// How many of them are for ticks of this meter by this head end.
fn ticks_in(receipts: &[Receipt], head: HeadId, meter: MeterId) -> usize
    ensures { result ≡ ticks_of head meter receipts.now }
{
    receipts
        .iter()
        .filter(|receipt| ticks(receipt.event, head, meter))
        .count()
}

/// Whether an event is a tick of this meter by this head end.
fn ticks(event: CoreEvent, head: HeadId, meter: MeterId) -> bool
    ensures { result ≡ is_tick head meter (core_event_of event) }
{
    match event {
        CoreEvent::Tick(by, of) => by == head && of == meter,
        CoreEvent::Deliver(_) | CoreEvent::Turn(_) => false,
    }
}
