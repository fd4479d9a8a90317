//! Key files of sealed links, as text: with whom an end has a link, and under which keys.
//!
//! A file is lines, each ended by a line feed, which the last may lack. The line of a link is `NAME,TITLE,KEY,AUTHENTICATION`: the name of
//! the other end, its system title in 16 hexadecimal digits, and the encryption key and the authentication key in 32 each. In a head end's
//! file the name is the number of a meter. A meter's file has its own system title in the first line, and in the others the name is the
//! address of a head end.
//!
//! What a text spells is said in specs/KeyFiles.antt, and why it is refused in specs/Refusals.antt.
#![tactic(auto)]

mod entry;
mod error;
mod file;
pub mod laws;
mod line;
mod making;
mod names;
mod reading;
mod titles;
mod writing;

pub use entry::{Entry, KEY_SIZE, LinkKeys};
pub use error::{BadLine, KeysError};
pub use file::KeyFile;
pub use making::RANDOM_SIZE;
pub use names::EndName;
pub use reading::{read_head_keys, read_meter_keys};
pub use titles::{head_title, meter_title};
pub use writing::{head_text, meter_text};
