//! Daemons in the field: meters and head ends as processes of their own, which are killed and start again, and the world that they run.
#![tactic(auto)]

pub mod laws;
