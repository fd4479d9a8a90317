//! The meters of a world, each with its number.

ghost use Rattle.std.specs.Prelude.{◌≡◌, IsTrue, nat_eq, is_some, position};
ghost use Rattle.std.specs.Borrow.{sem};
ghost use Rattle.std.specs.Map.{lookup};
ghost use Rattle.std.specs.Option.{option_copied, option_copied_mut};
ghost use Rattle.fw_world.specs.Private.{IsSound};

use crate::world_meter::WorldMeter;
use fw_meter::MeterCore;
use fw_names::MeterId;
use fw_store::MemoryStore;
use std::marker::Model;

/// A meter and its number. Its store is in memory, and no fuse is set in it.
#[derive(Drop)]
pub struct NumberedMeter {
    meter: MeterId,
    seat: WorldMeter,
}

impl Model for NumberedMeter {
    ghost use Rattle.std.specs.Prelude.{ℕ};
    ghost use Rattle.std.specs.Coded.{codes};
    ghost use Rattle.fw_image.specs.Meter.{Meter, cells_code};

    ghost Value = { ℕ × Meter };

    ghost coded = { Prim.hlevel (codes, cells_code) };

    ghost view = { λ m. (m.meter, m.seat) };
}

impl NumberedMeter {
    ghost use Rattle.fw_world.specs.Lends.{lends_world_meter};

    /// This meter with this number.
    pub fn new(meter: MeterId, core: MeterCore<MemoryStore>) -> NumberedMeter
        requires unfused { IsTrue core.sound }
        ensures { result ≡ (meter, core.meter) }
    {
        NumberedMeter::seated(meter, WorldMeter::of(core))
    }

    /// This meter of a world with this number.
    pub(crate) fn seated(meter: MeterId, seat: WorldMeter) -> NumberedMeter
        ensures { result ≡ (meter, seat) }
    {
        NumberedMeter { meter, seat }
    }

    /// Its number.
    pub fn meter(&self) -> MeterId
        ensures { result ≡ self.now.0 }
    {
        self.meter
    }

    /// The meter.
    pub fn core(&self) -> &MeterCore<MemoryStore>
        ensures meter { result.now.meter ≡ self.now.1 }
        ensures sound { IsSound result.now }
    {
        self.seat.core()
    }

    /// The meter without its number.
    pub fn into_core(self) -> MeterCore<MemoryStore>
        ensures meter { result.meter ≡ self.1 }
        ensures sound { IsSound result }
    {
        self.seat.into_core()
    }

    /// The meter, to change it.
    fn seat_mut(&mut self) -> &mut WorldMeter
        ensures* writes_back { sem 𝓛 (lends_world_meter self.entry result) }
        ensures value { result.now ≡ self.old.1 }
    {
        &mut self.seat
    }
}

/// At most 256 meters, in the order of their setup: one is found by passing those before it.
#[derive(Drop)]
pub(crate) struct Meters {
    items: Vec<NumberedMeter>,
}

impl Model for Meters {
    ghost use Rattle.std.specs.Prelude.{ℕ, List};
    ghost use Rattle.std.specs.Coded.{codes};
    ghost use Rattle.fw_image.specs.Meter.{Meter, cells_code};

    ghost Value = { List (ℕ × Meter) };

    ghost coded = { Prim.hlevel (codes, cells_code) };

    ghost view = { λ m. m.items.items };
}

impl Meters {
    ghost use Rattle.fw_world.specs.Lends.{lends_meter};

    /// These meters.
    pub(crate) fn new(items: Vec<NumberedMeter>) -> Meters
        ensures { result ≡ items.items }
    {
        Meters { items }
    }

    /// The meters.
    pub(crate) fn into_vec(self) -> Vec<NumberedMeter>
        ensures { result.items ≡ self }
    {
        self.items
    }

    /// Whether there is a meter of this number.
    pub(crate) fn contains_key(&self, number: u32) -> bool
        ensures { result ≡ is_some (lookup (nat_eq number) self.now) }
    {
        self.get(number).is_some()
    }

    /// The meter of this number, if there is one.
    pub(crate) fn get(&self, number: u32) -> Option<&WorldMeter>
        ensures { option_copied result ≡ lookup (nat_eq number) self.now }
    {
        match place(&self.items, number) {
            Some(at) => Some(&self.items[at].seat),
            None => None,
        }
    }

    /// The meter of this number, if there is one, to change it.
    pub(crate) fn get_mut(&mut self, number: u32) -> Option<&mut WorldMeter>
        ensures* writes_back { sem 𝓛 (lends_meter self.entry number result) }
        ensures value { option_copied_mut result ≡ lookup (nat_eq number) self.old }
    {
        match place(&self.items, number) {
            Some(at) => Some(self.items[at].seat_mut()),
            None => None,
        }
    }
}

/// Where the meter of this number stands.
fn place(meters: &[NumberedMeter], number: u32) -> Option<usize>
    ensures { result ≡ position (λ meter. nat_eq number meter.0) meters.now }
{
    meters
        .iter()
        .position(|meter| number == meter.meter.number())
}
