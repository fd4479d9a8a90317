//! A-XDR coding of COSEM Data: A-XDR is IEC 61334-6, its use for COSEM IEC 62056-5-3, and the types
//! and their tags those of IEC 62056-6-2, Common data types.
//!
//! `read` and `write_to` are the spelling relation of specs/Spelling.antt in both directions, and
//! the faults are those of specs/Fault.antt.
//!
//! Own rules of this profile: reading takes longer length forms than needed and any nonzero
//! boolean, ignores unused bits, and lets elements of an array differ in type; first length bytes
//! 80 and 85 to ff (hexadecimal) are refused, and so is depth 9.
#![tactic(auto)]

mod bits;
mod data;
mod error;
mod judging;
pub mod laws;
mod octets;
pub mod reader;
mod reading;
mod tag;
mod writing;

pub use bits::Bits;
pub use data::{Data, Items};
pub use error::AxdrError;
pub use judging::unwritable;
pub use octets::Octets;
pub use reading::read;
pub use writing::write_to;
