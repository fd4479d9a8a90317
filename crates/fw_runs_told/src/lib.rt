//! The run of the world that logs tell.
//!
//! If the log of each meter is its log (`fw_audit`), that of each head end is its (`fw_head_audit`), and all logs have one order (`fw_order`),
//! then what the files tell is a run of the world (`fw_world`). So the theorem about each run holds of what the files tell: what a meter
//! switched to is what the campaign in its name offers, and a meter that a book has as done switched to the image of that campaign. It
//! doesn't matter which compiler, system, disk or program did it. Of the ends one thing more is asked: that they begin together, with new
//! meters, and that they are told apart by their numbers and addresses.
#![tactic(auto)]

pub mod laws;
