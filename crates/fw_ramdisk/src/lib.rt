//! A folder in memory, as `fw_disk` has it of a disk: honest, with each state that a power cut may leave.
//!
//! [`MemoryFolder`] keeps what was done in it. What is read, and what a cut leaves, follows from that.
#![tactic(auto)]

mod memory;
mod past;

pub use memory::{Before, MemoryFile, MemoryFolder};
