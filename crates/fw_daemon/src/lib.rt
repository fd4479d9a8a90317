//! The daemon of a meter: what it does with the datagrams that come to it, and the loop that does it over a port.
#![tactic(auto)]

mod daemon;
mod event;
pub mod laws;
mod list;
mod serving;
mod telling;

pub use daemon::{Dropped, Heard, MeterDaemon};
pub use event::{Cause, MeterEvent, Work};
pub use list::serve_list;
pub use serving::{Watch, serve, step};
