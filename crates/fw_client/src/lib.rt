//! A client of a meter's Image transfer object: it asks, and hears what comes back (IEC 62056-6-2, Image transfer; IEC 62056-5-3;
//! IEC 62056-4-7).
#![tactic(auto)]

mod ask;
mod asking;
mod claim;
mod client;
mod error;
mod heard;
pub mod laws;
mod matching;
mod outstanding;

pub use ask::{Ask, Asked};
pub use claim::ActiveClaim;
pub use client::Client;
pub use error::{AskError, OutOfMemory};
pub use heard::Heard;
