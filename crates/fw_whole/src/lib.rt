//! A header write of a store in files whose power may be cut at any moment: the header is written whole or not at all.
//!
//! `fw_cuts` says what a cut leaves of FILE as bytes, and `fw_store` what bytes are a store, and which device they hold. Here both are
//! joined: [`write_header`] makes the calls that a store in a file makes, over any files, and its clauses, as the laws, speak of the device
//! that the next opening finds.
#![tactic(auto)]

mod header;
pub mod laws;

pub use header::write_header;
