//! Sealed APDUs: security suite 0 with service-specific global ciphering, authenticated and encrypted (IEC 62056-5-3). What one end of a
//! link seals, the other end opens.
//!
//! What is sealed and what opens are those of specs/Sealing.antt. Lengths are those of A-XDR.
#![tactic(auto)]

mod contents;
mod counters;
mod error;
mod frames;
pub mod laws;
mod link;
mod service;

pub use counters::Counters;
pub use error::{OpenError, SealError};
pub use frames::shown_counter;
pub use link::{Link, Opened, TITLE_SIZE};
