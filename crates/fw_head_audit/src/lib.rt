//! The audit of a head end: whether its log has no datagram that its book doesn't offer, and whether its done rows were claimed.
//!
//! Of which make it is, and when it asks what, isn't asked: a head end may send what its book offers at any time. What it sent to an address
//! has to be offered to a meter that it asks there, by a campaign in which the meter has a row. A row that is done has to be claimed in a
//! datagram that came from the address of its meter. Whether that meter sent it, and what the meter switched to, its own log says (`fw_audit`,
//! `fw_fleet_audit`, `fw_order`).
#![tactic(auto)]

mod asking;
mod audit;
mod block;
mod claims;
mod error;
pub mod laws;
mod meter;
mod offers;
mod reading;

pub use audit::audit_head;
pub use error::{HeadAuditError, UnclaimedRow};
pub use meter::AskedMeter;
