//! The events that workers make.

ghost use Rattle.std.specs.Prelude.{◌≡◌};
ghost use Rattle.fw_air.specs.Events.{core_event_of};
ghost use Rattle.fw_world.specs.View.{event_of};

use fw_names::{HeadId, MeterId};
use fw_world::Event;

/// An event that a worker makes while others make theirs. All of it is done at one head end or at one meter. It opens or cancels no
/// campaign, and stops nothing.
#[derive(Clone, Copy)]
pub enum CoreEvent {
    /// A head end sends to a meter what it has for it now.
    Tick(HeadId, MeterId),
    /// The datagram of this number, from 0 on, comes to its addressee.
    Deliver(usize),
    /// A meter goes on with what it verifies.
    Turn(MeterId),
}

impl CoreEvent {
    /// The event of a world that it is.
    pub fn event(self) -> Event
        ensures { event_of result ≡ core_event_of self }
    {
        match self {
            CoreEvent::Tick(head, meter) => Event::Tick(head, meter),
            CoreEvent::Deliver(number) => Event::Deliver(number),
            CoreEvent::Turn(meter) => Event::Turn(meter),
        }
    }
}
