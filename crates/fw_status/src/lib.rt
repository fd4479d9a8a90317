//! What a book of a head end tells: how far its rows are, or its campaigns; as lines, as comma-separated values, as JSON, and as a page of HTML.
#![tactic(auto)]

mod campaign;
mod campaigns;
mod page;
mod rows;
mod status;

pub use campaign::{CampaignStatus, push_campaigns};
pub use status::{Listing, StatusForm, append_status};
