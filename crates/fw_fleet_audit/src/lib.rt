//! The audit of a fleet: whether what meters switched to is what books offer, and whether the rows of books that are done are borne out by it.
//!
//! What a meter switched to is what the audit of its log found (`fw_audit`), each image with the bytes that ran. So nothing here asks for a
//! digest that tells images apart, nor for what a head end sent, in which order, or to where. It says of meters and books whether they fit,
//! and not that anything of it happened.
//!
//! Each meter is audited by itself ([`audit_switches`]), and then each book ([`audit_book`]), so that each of them can be told of. If none
//! departs, the headline holds of all that the logs tell ([`laws::headline_by_looking`]).
#![tactic(auto)]

mod error;
pub mod laws;
mod meter;
mod rows;
mod switches;

pub use error::{RowDeparture, RowRule, SwitchDeparture, SwitchRule};
pub use meter::AuditedMeter;
pub use rows::audit_book;
pub use switches::audit_switches;
