//! What a head end's book is kept as: records of its openings, marks and cancellings, the book that such records make, and the notes among
//! them.
#![tactic(auto)]

mod error;
pub mod laws;
mod note_reading;
mod note_writing;
mod reading;
mod record;
mod remaking;
mod replay;
mod writing;

pub use error::{RecordError, ReplayError};
pub use reading::read_record;
pub use record::{Ending, Image, Note, Record};
pub use remaking::write_records;
pub use replay::read_records;
