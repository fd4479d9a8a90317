//! The wrapper over UDP (IEC 62056-4-7): a header of eight bytes before each APDU.
#![tactic(auto)]

mod error;
mod frame;
pub mod laws;

pub use error::WrapError;
pub use frame::{Frame, HEADER_SIZE, MAX_APDU, MAX_RECEIVED, WPORT, join, join_in, split};
