//! What ends a command of the program early, and what a command reads and writes: all of a reader's input, within limits, and a text.
#![tactic(auto)]

mod error;
mod fault;
mod input;
mod output;
mod reads;

pub use error::InputError;
pub use fault::Fault;
pub use input::read_input;
pub use output::write_text;
pub use reads::Reads;
