//! A store from its bytes, read only: those of its file, and those of the undo file beside it.
//!
//! Nothing is locked and nothing written. What a power cut left of a header write is put right in memory, as an opening puts it right on
//! the disk ([`recovered`]), and what comes of it is a store in memory ([`store_of`]). A meter over such a store can be stopped, so that
//! its store is left ([`into_store`]), and started twice ([`started_twice`]).
#![tactic(auto)]

mod bytes;
mod error;
mod meter;
mod recovery;

pub use bytes::store_of;
pub use error::{RecoveryError, StoredError};
pub use meter::{at_rest, into_store, started_again, started_twice};
pub use recovery::recovered;
