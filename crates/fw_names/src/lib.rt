//! Names of firmware images, which image transfer (IEC 62056-6-2) carries as their identifiers, and
//! the numbers of head ends, campaigns and meters.
#![tactic(auto)]

mod bytes;
mod campaign;
mod head;
pub mod laws;
mod meter;
mod name;

pub use bytes::{MAX_NAME_SIZE, NameBytes};
pub use campaign::CampaignId;
pub use head::HeadId;
pub use meter::MeterId;
pub use name::{ImageName, digest_of, factory_name, is_risen, name_of};
