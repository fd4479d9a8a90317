//! A count that threads share: marked and seen in single atomic steps, without a lock.
#![tactic(auto)]

mod error;
mod rule;
mod share;
mod tally;

pub use error::OutOfMemory;
pub use share::Share;
pub use tally::Tally;
