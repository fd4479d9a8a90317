//! What is found of a meter: its capture, read as its log ([`read_log`]), and its store as it lies there ([`meter_at_rest`]), or as it was new
//! ([`new_meter`]). An audit says whether they fit ([`audit_capture`]). Of a head end the capture is read alone ([`read_head_log`]).
//!
//! A capture is read whole or not at all. A record that is of no end of its process is refused by its number and its place, so each record
//! stands in the log of its end for what it is, and none is left out.
#![tactic(auto)]

mod audit;
mod error;
mod head;
mod item;
mod log;
mod opened;
mod opened_audit;
mod sealed;
mod site;
mod store;
mod unsealing;

pub use audit::{Audited, audit_capture};
pub use error::{EvidenceError, LogError, Mark, StoreRefusal, Stray};
pub use head::read_head_log;
pub use log::{Log, read_log};
pub use opened::OpenedLog;
pub use opened_audit::audit_opened;
pub use sealed::{SealedLogError, read_sealed_log};
pub use site::{Side, Site};
pub use store::{meter_at_rest, new_meter};
pub use unsealing::EndKeys;
