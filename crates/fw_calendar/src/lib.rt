//! Times as RFC 3339 writes them, in UTC.
#![tactic(auto)]

mod time;

pub use time::{append_second, append_time};
