//! The files of a store in memory, as `fw_cuts` has them of a disk: honest, with each state that a power cut may leave.
//!
//! [`MemoryFiles`] keeps what was done to them. What is read, and what a cut leaves, follows from that.
#![tactic(auto)]

mod memory;
mod past;

pub use memory::MemoryFiles;
