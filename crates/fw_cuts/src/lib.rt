//! The two files of a store while its header is written, on a disk whose power may be cut at any moment.
//!
//! A header write goes through a journal beside the store ([`undo`], an undo log). [`StoreFiles`] is what is asked of the disk. Over it
//! stands the code that a store in files runs, and what a cut at any moment of a header write leaves.
#![tactic(auto)]

mod again;
mod files;
mod header;
mod journal;
mod parts;
mod reading;
mod recovery;
mod slots;
pub mod undo;

pub use files::{FilesFault, Part, StoreFiles};
pub use header::{FRONT_SIZE, Scratch, replace, take_back};
pub use recovery::{recover, settle};
pub use slots::write_slot;
