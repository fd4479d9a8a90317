//! Sealed datagrams in plain words, for who has the keys of links.
//!
//! Each link is tried, as each of its ends has it, until one opens what is there. So which of the ends sealed it, the tag alone decides, and no
//! address. What opens and what only looks sealed is said in specs/Unsealing.antt.
#![tactic(auto)]

mod datagram;
mod ends;

pub use datagram::{Unsealed, counter_of, unseal};
pub use ends::both_ends;
