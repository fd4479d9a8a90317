//! Captures of what was sent in a run, and of what a process sends and receives, for field tools.
#![tactic(auto)]

mod error;
pub mod laws;
mod record;
mod recording;
mod sink;

pub use error::RecordError;
pub use record::{write_header, write_record};
pub use recording::capture_of;
pub use sink::Sink;
