//! A head end whose book outlives a power cut: a journal of the records of its book stands beside it.
#![tactic(auto)]

mod compacting;
mod error;
mod head;
pub mod laws;
mod marking;
mod opening;
mod putting;
mod reading;

pub use error::{KeptError, OpenError, ReadingError};
pub use head::KeptHead;
pub use reading::read_kept;
