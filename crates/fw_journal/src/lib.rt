//! A journal (a write-ahead log): records of any length on a device that is written at its end and synced (fsync). What a commit reported
//! is there after every power cut.
//!
//! Its bytes are those of specs/Book.antt; the form is this profile's own. What a device promises is said at [`JournalDevice`]. There is
//! one in memory, and one over a file.
#![tactic(auto)]

mod begun;
mod device;
mod disk;
mod error;
mod file;
mod fuse;
mod journal;
mod keeping;
pub mod laws;
mod memory;
mod reading;
mod replacing;
mod steps;

pub use device::JournalDevice;
pub use disk::{Change, Disk};
pub use error::{DeviceError, JournalError, ReplaceError, RewriteError};
pub use file::{FileDevice, FileJournal, FileReplacer};
pub use fuse::Fuse;
pub use journal::Journal;
pub use keeping::Keeper;
pub use memory::{MemoryDevice, MemoryKeeper, MemoryReplacer};
pub use reading::{count_dropped, read_book};
pub use replacing::Replacer;
