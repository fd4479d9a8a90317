//! The invocation counters of a sealer, of which none is used twice under a key, over kills and power cuts: they are reserved in a journal
//! before they are used.
#![tactic(auto)]

mod counters;
mod error;
mod gathering;
pub mod laws;
mod reading;

pub use counters::KeptCounters;
pub use error::{CounterError, OpeningError};
