//! One life of a process: from a start to the next one, or to the end of its log.

ghost use Rattle.std.specs.Prelude.{◌≡◌, ◌≢◌, ◌∷◌, false, All, IsTrue};
ghost use Rattle.fw_image.specs.Meter.{reopened};
ghost use Rattle.fw_stored.specs.Stored.{IsSound};
ghost use Rattle.fw_audit.specs.Log.{item_of, log_of, started};
ghost use Rattle.fw_audit.specs.Stands.{left_by};
ghost use Rattle.fw_audit.specs.Private.{EndsOpen, IsDied, IsLived, IsOpen, IsOutlived, IsRan, stand_of};

use crate::error::Departure;
use crate::going::{Going, Misstep};
use crate::item::LogItem;
use crate::switched::{Switched, shared};
use fw_meter::MeterCore;
use fw_store::MemoryStore;
use fw_stored::{at_rest, started_again, started_twice};
use std::alloc::Global;
use std::net::SocketAddr;

/// A meter in its store, where its process doesn't run.
pub(crate) struct Left {
    meter: MeterCore<MemoryStore>,
    /// The images that it switched to so far.
    switched: Vec<Switched>,
}

// Written out, so that letting go of it is one call in a proof.
impl Drop for Left {
    fn drop(self) {
        let Left {
            meter: _,
            switched: _,
        } = self;
    }
}

/// Why items are followed no further.
#[derive(Clone, Copy)]
pub(crate) enum Stop {
    /// They are what no meter does.
    Departs(Departure),
    /// Memory was refused.
    OutOfMemory,
}

impl Left {
    /// A meter as it lies in its store. It switched to these images.
    pub(crate) fn new(meter: MeterCore<MemoryStore>, switched: Vec<Switched>) -> Left
        ensures meter { result.meter.meter ≡ reopened meter.meter }
        ensures images { result.switched.items ≡ switched.items }
        ensures rests { reopened result.meter.meter ≡ result.meter.meter }
    {
        Left {
            meter: at_rest(meter),
            switched,
        }
    }

    /// What a process leaves that is killed.
    fn of(going: Going) -> Left
        ensures left { result.meter.meter ≡ left_by (stand_of going) }
        ensures images { result.switched.items ≡ going.switched.items }
        ensures rests { reopened result.meter.meter ≡ result.meter.meter }
        ensures size { result.meter.meter.capacity ≡ going.meter.meter.capacity }
    {
        let (meter, switched) = going.into_parts();
        Left::new(meter, switched)
    }

    /// Whether it is this meter.
    pub(crate) fn is(&self, meter: &MeterCore<MemoryStore>) -> bool
        ensures some { IsTrue result → self.now.meter.meter ≡ meter.now.meter }
        ensures none { result ≡ false → self.now.meter.meter ≢ meter.now.meter }
    {
        self.meter.same(meter)
    }

    /// The meter.
    pub(crate) fn meter(&self) -> &MeterCore<MemoryStore>
        ensures { result.now ≡ self.now.meter }
    {
        &self.meter
    }

    /// The images.
    pub(crate) fn into_images(self) -> Vec<Switched>
        ensures { result.items ≡ self.switched.items }
    {
        let Left { meter: _, switched } = self;
        switched
    }

    /// What a process leaves that starts with this meter and does what these items say. If the last of them is a datagram that came, or
    /// a turn, the kill was before that was done or after it: then these are two meters.
    ///
    /// # Errors
    ///
    /// `Departs` just if no such process does it.
    pub(crate) fn outlived(
        self,
        alloc: Global,
        heads: &[SocketAddr],
        items: &[LogItem<'_>],
    ) -> Result<(Left, Option<Left>), Stop>
        requires rests { reopened self.meter.meter ≡ self.meter.meter }
        requires going { All (λ item. item_of item ≢ started) items.now }
        ensures { IsOutlived heads.now self.switched.items self.meter.meter (log_of items.now) result }
    {
        if ends_open(items) {
            match self.died(alloc, heads, items) {
                Ok((after, before)) => Ok((after, Some(before))),
                Err(stop) => Err(stop),
            }
        } else {
            match self.lived(alloc, heads, items) {
                Ok(left) => Ok((left, None)),
                Err(stop) => Err(stop),
            }
        }
    }

    /// The same where the last item leaves one meter.
    fn lived(self, alloc: Global, heads: &[SocketAddr], items: &[LogItem<'_>]) -> Result<Left, Stop>
        requires rests { reopened self.meter.meter ≡ self.meter.meter }
        requires going { All (λ item. item_of item ≢ started) items.now }
        requires closed { EndsOpen (log_of items.now) → ⊥ }
        ensures { IsLived heads.now self.switched.items self.meter.meter (log_of items.now) result }
    {
        let Left { meter, switched } = self;
        let start = Going::started(started_again(meter), switched);
        match run(alloc, heads, start, items) {
            Ok(going) => Ok(Left::of(going)),
            Err(stop) => Err(stop),
        }
    }

    /// The same where it leaves two: that of after the last item, and that of before it.
    fn died(
        self,
        alloc: Global,
        heads: &[SocketAddr],
        items: &[LogItem<'_>],
    ) -> Result<(Left, Left), Stop>
        requires rests { reopened self.meter.meter ≡ self.meter.meter }
        requires going { All (λ item. item_of item ≢ started) items.now }
        requires open { EndsOpen (log_of items.now) }
        ensures { IsDied heads.now self.switched.items self.meter.meter (log_of items.now) result }
    {
        let last = items.len() - 1;
        let Left { meter, switched } = self;
        let Ok(images) = shared(alloc, &switched) else {
            return Err(Stop::OutOfMemory);
        };
        let Ok((first, second)) = started_twice(alloc, meter) else {
            return Err(Stop::OutOfMemory);
        };
        let whole = Going::started(first, switched);
        let after = match run(alloc, heads, whole, items) {
            Ok(going) => going,
            Err(stop) => return Err(stop),
        };
        let cut = Going::started(second, images);
        let before = match run(alloc, heads, cut, &items[..last]) {
            Ok(going) => going,
            Err(stop) => return Err(stop),
        };
        let first = Left::of(after);
        let second = Left::of(before);
        Ok((first, second))
    }
}

/// The process after these items, none of which is a start.
fn run(
    alloc: Global,
    heads: &[SocketAddr],
    start: Going,
    items: &[LogItem<'_>],
) -> Result<Going, Stop>
    requires sound { IsSound start.meter }
    requires going { All (λ item. item_of item ≢ started) items.now }
    ensures { IsRan heads.now start.switched.items (stand_of start) (log_of items.now) result }
{
    let mut going = start;
    for at in 0..items.len() {
        match going.step(alloc, heads, &items[at]) {
            Ok(next) => going = next,
            Err(Misstep::Departs(rule)) => return Err(Stop::Departs(Departure { at, rule })),
            Err(Misstep::OutOfMemory) => return Err(Stop::OutOfMemory),
        }
    }
    Ok(going)
}

/// Whether the last of these items is a datagram that came, or a turn.
fn ends_open(items: &[LogItem<'_>]) -> bool
    ensures open { IsTrue result → EndsOpen (log_of items.now) }
    ensures closed { result ≡ false → EndsOpen (log_of items.now) → ⊥ }
{
    if items.is_empty() {
        return false;
    }
    let last = items.len() - 1;
    is_open(&items[last])
}

/// Whether an item is a datagram that came, or a turn.
fn is_open(item: &LogItem<'_>) -> bool
    ensures open { IsTrue result → IsOpen (item_of item.now) }
    ensures closed { result ≡ false → IsOpen (item_of item.now) → ⊥ }
{
    match *item {
        LogItem::Came { .. } => true,
        LogItem::Turned => true,
        LogItem::Sent { .. } => false,
        LogItem::Started => false,
    }
}
