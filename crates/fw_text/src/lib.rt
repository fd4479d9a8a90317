//! The lines of a text, the words of a line, and what a word says: numbers, and bytes in hexadecimal.
#![tactic(auto)]

pub mod hexadecimal;
pub mod laws;
mod lines;
pub mod words;

pub use lines::first_line;
