//! What a capture tells: a line for each datagram, with what it says, and one for each note. It is taken from a reader record by record. Who has
//! the links of sealed datagrams opens them, and can have the capture in plain words.
#![tactic(auto)]

mod dissection;
mod error;
mod line;
mod plain;
mod taking;
mod words;

pub use dissection::dissect;
pub use error::DissectError;
