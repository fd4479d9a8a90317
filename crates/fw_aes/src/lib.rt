//! AES-128 (FIPS 197), and authenticated encryption by GCM (SP 800-38D) with tags of 12 bytes. No call takes memory.
//!
//! No index and no branch of the code depends on a key, a text or what is made of them, except whether a tag was right. This isn't
//! proved.
#![tactic(auto)]

mod aes128;
mod entries;
mod error;
mod gcm;
mod ghash;
mod key_expansion;
pub mod laws;
mod rounds;
mod sub_bytes;

pub use aes128::Aes128;
pub use error::OpenError;
pub use gcm::{Key, TAG_SIZE};
