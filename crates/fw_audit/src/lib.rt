//! The audit of a meter: whether its log is what a meter does, and whether the store that was found is what it leaves.
//!
//! A log has what a process did and what came to it ([`LogItem`]), in its order, with no times. The process may have been killed at any
//! moment, any number of times, and started again. What its meter does is that of `fw_meter`, so an audit asks nothing of the program that
//! made the log. It says of a log and two stores whether they fit, and not that anything of it happened.
#![tactic(auto)]

mod audit;
mod error;
mod going;
mod item;
pub mod laws;
mod life;
mod switched;

pub use audit::audit_meter;
pub use error::{AuditError, Departure, Rule};
pub use item::LogItem;
pub use switched::Switched;
