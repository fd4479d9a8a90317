//! The journal of a write to two places of a file (an undo log, or rollback journal), and what a power cut in such a write leaves of it: a
//! torn header.
//!
//! The journal has the bytes before the write and after it, and their place. A disk writes whole sectors of 512 bytes. So if each
//! sector of the file is the one before the write or the one after it, the write was cut, and the bytes before the write are put back.
//! The form is this profile's own.

mod bytes;
pub mod laws;
mod reading;
mod sectors;
mod write;

pub use bytes::{JournalBytes, MAX_JOURNAL_SIZE};
pub use write::{Change, HeaderWrite, MARK, MARK_SIZE, MAX_PART_SIZE};
