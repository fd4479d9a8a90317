//! The air between head ends and meters: what becomes of each datagram on its link, and the events that come of it, round after
//! round.
#![tactic(auto)]

mod audits;
mod core_event;
mod fates;
pub mod laws;
mod links;
mod log;
mod receipt;
mod record;
mod rounds;
mod sameness;
mod scheduling;
mod shared;
mod udp;
mod wanted;
mod watch;
mod wire;

pub use audits::{AuditError, audit};
pub use core_event::CoreEvent;
pub use fates::{Fate, Fates, MAX_FATES};
pub use links::{LinkQueue, links_of};
pub use log::{Entry, Log, MAX_ADDED, Room, Sent};
pub use receipt::Receipt;
pub use rounds::{LinkSteps, link_round};
pub use scheduling::{schedule, schedule_watched};
pub use shared::{SharedLog, Stub};
pub use udp::{PairError, UdpWire};
pub use watch::Watch;
pub use wire::{MAX_PASSED, Pass, Wire, WireFault};
