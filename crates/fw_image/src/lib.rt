//! The Image transfer object of a meter.
#![tactic(auto)]

mod error;
mod held;
pub mod laws;
mod phase;
mod status;
mod transfer;
mod view;

pub use error::{OpenError, Refusal};
pub use phase::{Phase, open_kept, open_store};
pub use status::TransferStatus;
pub use transfer::{Idle, NotVerified, Receiving, Spoilt, Switched, Transfer, Verified, Verifying};
pub use view::MeterView;
