//! Sealed links: what is left of the premise on the network where each end seals what it sends, and the headline of daemons under it.
#![tactic(auto)]

pub mod laws;
