//! The world: head ends and meters, over a network that loses, repeats and reorders datagrams.
#![tactic(auto)]

mod activation;
mod datagram;
mod error;
mod event;
mod heads;
pub mod laws;
mod lists;
mod meters;
mod opening;
mod parts;
mod runs;
mod setup;
mod world;
mod world_meter;

pub use activation::Activation;
pub use datagram::{Actor, Datagram, Direction};
pub use error::{SetupError, StepError};
pub use event::Event;
pub use meters::NumberedMeter;
pub use parts::Parts;
pub use runs::{RunError, run};
pub use setup::{HeadSetup, MAX_HEADS, MeterSetup, Setup};
pub use world::World;
