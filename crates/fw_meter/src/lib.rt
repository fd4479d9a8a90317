//! A meter: it receives images into a store, switches to them, and answers the datagrams that it is given.
#![tactic(auto)]

mod attributes;
mod code;
mod error;
pub mod laws;
mod meter;
mod operation;
mod serving;

pub use error::OutOfMemory;
pub use meter::{Handled, MeterCore};
pub use serving::asks_for_response;
