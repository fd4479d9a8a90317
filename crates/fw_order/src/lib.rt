//! The order of what ends did: whether all logs of a field agree.
//!
//! What an end sent stands in its log, and what came to another end in that one's. So logs agree if there is an order of all their items, each
//! log in its own order, in which each datagram that came was sent before, by the end whose address it shows. No clock is asked: those of two
//! ends differ. Who is none of the ends is a stranger, and what came from a stranger needs nothing: so a meter is audited with the addresses
//! of the head ends that may ask it.
//!
//! Whether there is such an order is found by taking what can be taken ([`join`]): an item needs one datagram at most, and a datagram that was
//! sent may come any number of times, so nothing that is taken early takes anything from another.
#![tactic(auto)]

mod error;
mod going;
mod joining;
pub mod laws;
mod log;
mod sent;
mod stuck;

pub use error::{OrderDeparture, OrderError, OrderRule};
pub use joining::join;
pub use log::EndLog;
