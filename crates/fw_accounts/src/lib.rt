//! The account of what workers did: whether what they left is what they made, in one run of the world.
#![tactic(auto)]

mod accounts;
mod error;
mod receipts;
mod record;
mod report;

pub use accounts::{LeftByWorkers, account, done_rows};
pub use error::AccountError;
pub use receipts::Receipts;
pub use record::recorded_events;
pub use report::Report;
