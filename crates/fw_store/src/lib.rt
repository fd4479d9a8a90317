//! The store of a meter with COSEM Image transfer (IEC 62056-6-2): a header and two slots for images.
//!
//! A header has one spelling, of 622 bytes in version 1 and of 2,158 in version 2, and the headers that a store can have are those of
//! specs/Header.antt. What a store promises is said at [`ImageStore`]. There is one in memory, and one over a device of bytes, such as
//! a file, whose bytes are those of specs/StoreBytes.antt. The forms are this profile's own.
#![tactic(auto)]

mod beside;
mod device;
mod device_store;
mod error;
mod file;
mod fuse;
mod header;
pub mod laws;
mod memory;
mod open_files;
mod setup;
mod slot;
mod store;
mod tail;
mod version;

pub use device::{ByteDevice, DeviceFault};
pub use device_store::DeviceStore;
pub use error::{FileStoreError, SetupError, StoreFault};
pub use file::{FileDevice, FileStore};
pub use fuse::Fuse;
pub use header::{Goal, Header, StoredStatus};
pub use memory::MemoryStore;
pub use setup::is_setup;
pub use slot::Slot;
pub use store::ImageStore;
pub use tail::{HEADER_AT, SLOTS_AT};
pub use version::{
    HeaderBytes, HeaderVersion, MAX_HEADER_SIZE, VERSION_ONE_SIZE, VERSION_TWO_SIZE,
};
