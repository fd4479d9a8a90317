//! Files of keys: read where nobody but their owner may read or write them, and made so, for both ends of the links of a list of meters.
//!
//! Of the system's files nothing is known. So what is read is said to spell some text, and of what is made it is said which files they are
//! ([`new_files`]) before they are made. What a text spells is said by `fw_keys`, and which files are new ones in specs/Making.antt.
#![tactic(auto)]

mod error;
mod making;
mod new_file;
mod owner;
mod randomness;
mod reading;
mod system;

pub use error::{KeyFileError, NotMade};
pub use making::{MakingKeys, new_files};
pub use new_file::NewFile;
pub use owner::Owner;
pub use randomness::{Randomness, SystemRandomness};
pub use reading::{head_keys, meter_keys};
pub use system::{OWNER_ALONE, make_files};
