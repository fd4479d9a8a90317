//! Scripts of a world, a line for each head end, meter and event, and fates of datagrams, a letter each.
#![tactic(auto)]

mod error;
mod fates;
mod item;
pub mod laws;
mod script;

pub use error::{FatesError, ScriptError};
pub use fates::read_fates;
pub use script::{Script, read_script};
