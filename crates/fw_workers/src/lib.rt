//! Workers in threads: they share the head ends and meters of a world, make rounds together by fates or over wires, and are held to account.
#![tactic(auto)]

mod beginning;
mod begun;
mod deal;
mod error;
mod fated_rounds;
mod gate;
mod rehearsal;
mod seating;
mod shared_world;
mod start;
mod threads;
mod wire_thread;
mod wired;
mod wired_links;
mod worker;

pub use beginning::{Beginning, MAX_WORKERS, begin};
pub use deal::dealt;
pub use error::{RehearseError, RoundsError};
pub use gate::Gate;
pub use rehearsal::rehearse;
pub use shared_world::SharedWorld;
pub use threads::{Share, Task, work};
pub use wired::{live, live_over};
pub use worker::Worker;
